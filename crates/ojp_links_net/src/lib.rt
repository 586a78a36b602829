//! Links to regions over sockets, none of which waits but in `wait`. This is the trusted edge: it is proved against
//! the traits, and tells nothing of what sockets hold.
#![tactic(auto)]

mod links;
mod pending;
mod regions;
mod sockets;
mod table;
mod waiter;

pub use links::NetLinks;
