//! How far a sweep has come.

use crate::labels::Labels;

/// The labels so far, one more than the number of the connection at which each run was boarded (four days
/// a journey; 0 where it was not), and for each day the next connection and the one where it ends.
#[derive(Drop)]
pub struct Progress {
    pub labels: Labels,
    pub boarded: Vec<u32>,
    pub cursors: Vec<usize>,
    pub ends: Vec<usize>,
}

/// The day whose next connection leaves first and when, and a moment that no other day's next one leaves before.
#[derive(Clone, Copy, Debug)]
pub struct Next {
    pub day: usize,
    pub at: u64,
    pub limit: u64,
}
