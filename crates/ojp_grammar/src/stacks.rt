//! Values that wait for the part that they belong to.
#![tactic(auto)]

ghost use Rattle.std.specs.Prelude.{◌≡◌, ◌∷◌, ◌++◌, [], MatchOption, MatchResult};
ghost use Rattle.ojp_grammar.specs.declared.stacks.Unbuilt.TheVariants.{Mismatch, NoMemory};

use ojp_values::List;
use std::alloc::Global;
use std::marker::Model;

/// Why no value was built: the items are not in a document's order, or there is no memory.
#[derive(Clone, Copy, Debug)]
pub enum Unbuilt {
    Mismatch,
    NoMemory,
}

/// Values of one kind, the last first.
#[derive(Drop)]
pub struct Stack<T> {
    items: Vec<T>,
}

impl<T> Model for Stack<T> {
    ghost use Rattle.std.specs.Prelude.{reverse, List as Items};
    ghost use Rattle.std.specs.Coded.{coded_list};

    ghost Value = { Items T };

    ghost coded = { coded_list T.code };

    ghost view = { λ s. reverse s.items.items };
}

impl<T: Drop> Stack<T> {
    /// No values; takes no memory.
    pub fn new(alloc: Global) -> Stack<T>
        ensures { result ≡ [] }
    {
        Stack {
            items: Vec::new(alloc),
        }
    }

    /// Puts a value first.
    pub fn push(&mut self, value: T) -> Result<(), Unbuilt>
        ensures { MatchResult result (λ _. self.new ≡ value ∷ self.old) (λ e. e ≡ NoMemory) }
    {
        match self.items.push(value) {
            Ok(()) => Ok(()),
            Err(_) => Err(Unbuilt::NoMemory),
        }
    }

    /// Takes the first value, if there is one.
    pub fn pop(&mut self) -> Option<T>
        ensures { MatchOption result ((self.old ≡ []) × (self.new ≡ [])) (λ x. self.old ≡ x ∷ self.new) }
    {
        self.items.pop()
    }

    /// Takes the first value.
    pub fn take(&mut self) -> Result<T, Unbuilt>
        ensures { MatchResult result (λ x. self.old ≡ x ∷ self.new) (λ e. self.old ≡ []) }
    {
        match self.items.pop() {
            Some(value) => Ok(value),
            None => Err(Unbuilt::Mismatch),
        }
    }
}

/// Adds a part at the end of its list.
pub fn keep<T: Drop>(list: &mut List<T>, part: T) -> Result<(), Unbuilt>
    ensures { MatchResult result (λ _. list.new ≡ list.old ++ part ∷ []) (λ e. e ≡ NoMemory) }
{
    match list.push(part) {
        Ok(()) => Ok(()),
        Err(_) => Err(Unbuilt::NoMemory),
    }
}
