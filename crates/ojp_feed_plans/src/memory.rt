//! Vectors that answer want of memory.

ghost use Rattle.std.specs.Prelude.{◌≡◌, ◌<◌, ◌==◌, ◌||◌, ℕ, ◌∷◌, ◌++◌, [], false, length, IfOk, OnOk};
ghost use Rattle.ojp_feed_plans.specs.Served.{is_marked};

use ojp_values::NoMemory;
use std::alloc::Global;

/// Adds the item.
pub fn put<T: Drop>(items: &mut Vec<T>, item: T) -> Result<(), NoMemory>
    ensures { OnOk result (items.new.items ≡ items.old.items ++ item ∷ []) }
{
    match items.push(item) {
        Ok(()) => Ok(()),
        Err(_) => Err(NoMemory),
    }
}

/// So many times `false`.
pub fn unmarked(alloc: Global, count: usize) -> Result<Vec<bool>, NoMemory>
    ensures long { IfOk result (λ marks. length marks.items ≡ count) }
    ensures none { IfOk result (λ marks. (k : ℕ) → is_marked marks.items k ≡ false) }
{
    match vec![in alloc; false; count] {
        Ok(marks) => Ok(marks),
        Err(_) => Err(NoMemory),
    }
}

/// So many times nothing.
pub fn unset(alloc: Global, count: usize) -> Result<Vec<Option<u32>>, NoMemory> {
    match vec![in alloc; None; count] {
        Ok(values) => Ok(values),
        Err(_) => Err(NoMemory),
    }
}

/// Marks the place, if there is one.
pub fn mark(marks: &mut Vec<bool>, place: usize)
    ensures long { length marks.new.items ≡ length marks.old.items }
    ensures each { (k : ℕ) → k < length marks.old.items → is_marked marks.new.items k ≡ (is_marked marks.old.items k || place == k) }
{
    if place < marks.len() {
        marks[place] = true;
    }
}

/// Whether there is such a place and it is marked.
pub fn is_marked(marks: &[bool], place: usize) -> bool
    ensures { result ≡ is_marked marks.now place }
{
    match marks.get(place) {
        Some(mark) => *mark,
        None => false,
    }
}

/// Sets the value at the place, if there is one.
pub fn set(values: &mut Vec<Option<u32>>, place: usize, value: u32) {
    if place < values.len() {
        values[place] = Some(value);
    }
}

/// The value at the place, if there is one.
pub fn value(values: &[Option<u32>], place: usize) -> Option<u32> {
    match values.get(place) {
        Some(value) => *value,
        None => None,
    }
}
