//! Times spread over rows without times.

use crate::checks::{arrival, departure};
use ojp_feed_rows::StopTime;

/// Rows without times, between one that departs and one that arrives.
#[derive(Clone, Copy, Debug, PartialEq, Eq)]
pub struct Gap {
    /// The row before the first of them, and when it departs.
    from: usize,
    before: u32,
    /// The row behind the last of them, and when it arrives.
    to: usize,
    after: u32,
}

impl Gap {
    /// No gap.
    pub fn none() -> Gap {
        Gap {
            from: 0,
            before: 0,
            to: 0,
            after: 0,
        }
    }

    /// The gap at the row of that number, where this one was at the row before.
    pub fn at(self, rows: &[StopTime], number: usize) -> Gap {
        let Some(row) = rows.get(number) else {
            return self;
        };
        match departure(row) {
            Some(time) => Gap {
                from: number,
                before: time,
                to: number,
                after: time,
            },
            None => {
                if number < self.to {
                    self
                } else {
                    self.until_timed(rows, number)
                }
            }
        }
    }

    // The gap that ends at the first row with a time behind that number.
    fn until_timed(self, rows: &[StopTime], number: usize) -> Gap {
        for (other, row) in rows.iter().enumerate().skip(number) {
            if let Some(time) = arrival(row) {
                return Gap {
                    to: other,
                    after: time,
                    ..self
                };
            }
        }
        self
    }

    /// The time of a row in the gap: its part of the time between, rounded down.
    pub fn time(&self, number: usize) -> u32 {
        if self.after <= self.before || number >= self.to || number <= self.from {
            return self.before;
        }
        let gap = u128::from(self.after - self.before);
        let parts = (number - self.from) as u128;
        let all = (self.to - self.from) as u128;
        let part = gap * parts / all;
        self.before
            .saturating_add(u32::try_from(part).unwrap_or(u32::MAX))
    }
}
