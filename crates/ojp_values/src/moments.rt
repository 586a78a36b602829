//! Instants and operating days as numbers.

ghost use Rattle.std.specs.Prelude.{◌≡◌, ◌≤◌, ◌↔◌, IsOk, IfOk, IfErr};
ghost use Rattle.ojp_values.specs.Numbers.{Reads};
ghost use Rattle.ojp_values.specs.Dates.{moment_text, day_text};

use crate::dates::{clock_digits, day_digits, read_clock, read_day};
use crate::kinds::{BadText, Kind};
use std::marker::Model;

/// The last instant, 2199-12-31T23:59:59Z, in seconds since 1970-01-01T00:00:00Z.
pub const LAST_SECOND: u64 = 7_258_118_399;

/// The first operating day, 1970-01-03, in days since 1970-01-01.
pub const FIRST_DAY: u32 = 2;

/// The last operating day, 2199-12-28, in days since 1970-01-01.
pub const LAST_DAY: u32 = 84_002;

/// A second from 1970-01-01T00:00:00Z to 2199-12-31T23:59:59Z.
#[derive(Clone, Copy, Debug, PartialEq, Eq, PartialOrd, Ord)]
pub struct Instant {
    seconds: u64,
}

impl Model for Instant {
    ghost use Rattle.std.specs.Prelude.{ℕ, ◌≤◌};
    ghost use Rattle.ojp_values.specs.declared.moments.TheConstants.{LAST_SECOND};

    ghost Value = { ℕ };

    ghost view = { λ instant. instant.seconds };

    ghost invariant = { λ instant. instant.seconds ≤ LAST_SECOND };

    ghost inverse = { λ n. record { seconds = n } };
}

impl Instant {
    /// The instant so many seconds after 1970-01-01T00:00:00Z.
    pub fn new(seconds: u64) -> Result<Instant, BadText>
        ensures exact { IsOk result ↔ (seconds ≤ LAST_SECOND) }
        ensures value { IfOk result (λ instant. instant ≡ seconds) }
        ensures kind { IfErr result (λ bad. bad.kind ≡ Kind.Moment) }
    {
        if seconds <= LAST_SECOND {
            Ok(Instant { seconds })
        } else {
            Err(BadText { kind: Kind::Moment })
        }
    }

    /// The instant that is written `YYYY-MM-DDThh:mm:ssZ`.
    pub fn read(text: &[u8]) -> Option<Instant>
        ensures { Reads (λ n. n ≤ LAST_SECOND) moment_text text.now result }
    {
        if text.len() != 20 {
            return None;
        }
        let (date, clock) = text.split_at(10);
        let day = read_day(date)?;
        let second = read_clock(clock)?;
        Some(Instant {
            seconds: day as u64 * 86_400 + second as u64,
        })
    }

    /// The instant as `YYYY-MM-DDThh:mm:ssZ`.
    pub fn text(self) -> [u8; 20]
        ensures value { result ≡ moment_text self }
        ensures well { self ≤ LAST_SECOND }
    {
        let seconds = self.seconds();
        let date = day_digits((seconds / 86_400) as u32);
        let clock = clock_digits((seconds % 86_400) as u32);
        let mut text = [0; 20];
        text[..10].copy_from_slice(&date);
        text[10..].copy_from_slice(&clock);
        text
    }

    /// The seconds since 1970-01-01T00:00:00Z.
    pub fn seconds(self) -> u64
        ensures value { result ≡ self }
        ensures bound { result ≤ LAST_SECOND }
    {
        self.seconds
    }
}

/// An operating day from 1970-01-03 to 2199-12-28.
#[derive(Clone, Copy, Debug, PartialEq, Eq, PartialOrd, Ord)]
pub struct Day {
    number: u32,
}

impl Model for Day {
    ghost use Rattle.std.specs.Prelude.{ℕ, ◌≤◌};
    ghost use Rattle.ojp_values.specs.declared.moments.TheConstants.{FIRST_DAY, LAST_DAY};

    ghost Value = { ℕ };

    ghost view = { λ day. day.number };

    ghost invariant = { λ day. (FIRST_DAY ≤ day.number) × (day.number ≤ LAST_DAY) };

    ghost inverse = { λ n. record { number = n } };
}

impl Day {
    /// The day so many days after 1970-01-01.
    pub fn new(number: u32) -> Result<Day, BadText>
        ensures exact { IsOk result ↔ ((FIRST_DAY ≤ number) × (number ≤ LAST_DAY)) }
        ensures value { IfOk result (λ day. day ≡ number) }
        ensures kind { IfErr result (λ bad. bad.kind ≡ Kind.Day) }
    {
        if FIRST_DAY <= number && number <= LAST_DAY {
            Ok(Day { number })
        } else {
            Err(BadText { kind: Kind::Day })
        }
    }

    /// The day that is written `YYYY-MM-DD`.
    pub fn read(text: &[u8]) -> Option<Day>
        ensures { Reads (λ n. (FIRST_DAY ≤ n) × (n ≤ LAST_DAY)) day_text text.now result }
    {
        let number = read_day(text)?;
        match Day::new(number) {
            Ok(day) => Some(day),
            Err(_) => None,
        }
    }

    /// The day as `YYYY-MM-DD`.
    pub fn text(self) -> [u8; 10]
        ensures value { result ≡ day_text self }
        ensures from { FIRST_DAY ≤ self }
        ensures to { self ≤ LAST_DAY }
    {
        day_digits(self.number())
    }

    /// The days since 1970-01-01.
    pub fn number(self) -> u32
        ensures value { result ≡ self }
        ensures from { FIRST_DAY ≤ result }
        ensures to { result ≤ LAST_DAY }
    {
        self.number
    }
}
