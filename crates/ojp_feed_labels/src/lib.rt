//! Labels that stand for the ids of a feed, the same from run to run.
#![tactic(auto)]

mod doubles;
mod hashes;
mod labels;
mod names;
mod repeats;

pub use doubles::{LabelsRefused, own_labels};
pub use hashes::hashed;
pub use labels::label_of;
pub use names::name_of;
pub use repeats::repeated;
