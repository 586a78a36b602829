//! The documents that are exchanged.

ghost use Rattle.std.specs.Prelude.{◌↔◌, IsTrue};

use crate::asks::Ask;
use crate::replies::Delivery;

/// A request document or a delivery document.
#[derive(Debug, PartialEq, Eq, Drop)]
pub enum Doc {
    Ask(Ask),
    Delivery(Delivery),
}

impl Doc {
    ghost use Rattle.ojp_values.specs.Limits.{IsWell};

    /// Whether each number and each length of a list is within its limits; takes no memory.
    pub fn is_well(&self) -> bool
        ensures { IsTrue result ↔ IsWell self.now }
    {
        match self {
            Doc::Ask(ask) => ask.is_well(),
            Doc::Delivery(delivery) => delivery.is_well(),
        }
    }
}
