//! The steps that several commands of the program `ojp` share: reading a document, serving the connections
//! of a port, and how a command fails, with its status and its line.
#![tactic(auto)]

pub mod failures;
pub mod files;
pub mod input;
pub mod serving;
