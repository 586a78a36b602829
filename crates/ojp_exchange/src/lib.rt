//! The book: what the exchange points of a list of regions declare.
#![tactic(auto)]

mod book;
mod collected;
mod joins;
mod places;
mod points;
mod refusals;
mod region_points;
mod spots;
mod tables;

pub use book::Book;
pub use joins::first_twice;
pub use points::points_of;
pub use refusals::BookRefused;
pub use region_points::RegionPoints;
pub use spots::{Edge, Link, Pair, Spot};
