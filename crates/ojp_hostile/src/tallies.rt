//! How the cases of a table went.

/// How many cases were tried, and the first that did not end as it must.
#[derive(Clone, Copy)]
pub(crate) struct Tally {
    tried: u64,
    wrong: Option<u64>,
}

impl Tally {
    pub fn new() -> Tally {
        Tally {
            tried: 0,
            wrong: None,
        }
    }

    /// Counts the case with the number.
    pub fn count(&mut self, number: u64, is_right: bool) {
        self.tried = self.tried.saturating_add(1);
        if !is_right && self.wrong.is_none() {
            self.wrong = Some(number);
        }
    }
}

/// Writes a row and how its cases went.
pub(crate) fn tell_tally<R: Print>(rt: &R, row: &str, tally: Tally) -> Option<()> {
    let tried = tally.tried;
    match tally.wrong {
        None => println!(rt; "{row}: {tried}, each right").ok(),
        Some(number) => println!(rt; "{row}: {tried}, {number} is the first wrong").ok(),
    }
}
