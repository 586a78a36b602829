//! Labels of many ids, each of its own.

ghost use Rattle.std.specs.Prelude.{◌≡◌, ◌≤◌, ◌∷◌, ◌++◌, [], ℕ, List as Items, map, nat_lt, IfErr, IfOk, OnOk};
ghost use Rattle.ojp_feed_labels.specs.Doubles.{AreApart, AreLabelsRefused, AreShared, gives_way, holders, own_label, own_labels};
ghost use Rattle.ojp_feed_labels.specs.Labels.{label_of};
ghost use Rattle.ojp_values.specs.Texts.{Text};

use crate::hashes::hashed;
use crate::labels::label_of;
use indexmap::IndexMap;
use ojp_values::{Label, List, NoMemory};
use std::alloc::Global;

/// Why ids get no labels: two of them have one label, or there is no memory. The numbers are those of the ids.
#[derive(Clone, Copy, Debug, PartialEq, Eq)]
pub enum LabelsRefused {
    Doubled { first: usize, second: usize },
    NoMemory,
}

/// The labels of the ids in at most `most` bytes. Where two ids have one label, those of them that are not the label themselves
/// take the hashed form; where two have one label still, they are refused.
pub fn own_labels(alloc: Global, ids: &[&str], most: usize) -> Result<List<Label>, LabelsRefused>
    requires room { 10 ≤ most }
    requires fits { most ≤ 32 }
    ensures each { IfOk result (λ labels. labels ≡ own_labels most (map (λ id. id.now) ids.now)) }
    ensures apart { IfOk result AreApart }
    ensures refused { IfErr result (AreLabelsRefused most (map (λ id. id.now) ids.now)) }
{
    let Ok(shared) = shared_by(alloc, ids, most) else {
        return Err(LabelsRefused::NoMemory);
    };
    let mut labels = List::new(alloc);
    let mut seen = IndexMap::new(alloc);
    for (second, id) in ids.iter().enumerate() {
        let label = label_among(&shared, id.as_bytes(), most);
        match seen.insert(label, second) {
            Ok(None) => {}
            Ok(Some(first)) => return Err(LabelsRefused::Doubled { first, second }),
            Err(_) => return Err(LabelsRefused::NoMemory),
        }
        let Ok(()) = put(&mut labels, label) else {
            return Err(LabelsRefused::NoMemory);
        };
    }
    Ok(labels)
}

// The label of one of the ids, where these labels are shared.
#[tactic(auto, unfolding(crate::specs::Doubles::own_label))]
fn label_among(shared: &IndexMap<Label, bool>, id: &[u8], most: usize) -> Label
    requires room { 10 ≤ most }
    requires fits { most ≤ 32 }
    ensures { (ids : Items Text) → AreShared most ids shared.now → result ≡ own_label most ids id.now }
{
    let label = label_of(id, most);
    if gives_way(shared, &label, id) {
        hashed(id, most)
    } else {
        label
    }
}

// Whether several ids have the label of this one, which is another text than the id.
#[tactic(auto, unfolding(crate::specs::Doubles::holders))]
fn gives_way(shared: &IndexMap<Label, bool>, label: &Label, id: &[u8]) -> bool
    ensures { (most : ℕ) (ids : Items Text) → AreShared most ids shared.now → label.now ≡ label_of most id.now → result ≡ gives_way most ids id.now }
{
    is_shared(shared, label) && label.text() != id
}

// Whether several ids have the label.
fn is_shared(shared: &IndexMap<Label, bool>, label: &Label) -> bool
    ensures { (most : ℕ) (ids : Items Text) → AreShared most ids shared.now → result ≡ nat_lt 1 (holders most ids label.now) }
{
    match shared.get(label) {
        Some(is_shared) => *is_shared,
        None => false,
    }
}

// The labels of the ids, each with whether several of them have it.
fn shared_by(alloc: Global, ids: &[&str], most: usize) -> Result<IndexMap<Label, bool>, NoMemory>
    requires room { 10 ≤ most }
    requires fits { most ≤ 32 }
    ensures { IfOk result (AreShared most (map (λ id. id.now) ids.now)) }
{
    let mut shared = IndexMap::new(alloc);
    for id in ids {
        let label = label_of(id.as_bytes(), most);
        let is_there = shared.contains_key(&label);
        let Ok(_) = shared.insert(label, is_there) else {
            return Err(NoMemory);
        };
    }
    Ok(shared)
}

// Adds the label.
fn put(labels: &mut List<Label>, label: Label) -> Result<(), NoMemory>
    ensures { OnOk result (labels.new ≡ labels.old ++ label ∷ []) }
{
    match labels.push(label) {
        Ok(()) => Ok(()),
        Err(_) => Err(NoMemory),
    }
}
