//! Days of a window, which is any two numbers to the caller.

ghost use Rattle.std.specs.Prelude.{◌≡◌};
ghost use Rattle.ojp_values.specs.Dates.{day_text};
ghost use Rattle.ojp_gtfs_cli.specs.Feeds.{held_day};

use ojp_values::{Day, FIRST_DAY};

/// The day of that number; the first operating day for a number that is none.
pub(crate) fn day_of(number: u32) -> Day
    ensures { result ≡ held_day number }
{
    match Day::new(number) {
        Ok(day) => day,
        Err(_) => match Day::new(FIRST_DAY) {
            Ok(day) => day,
            Err(_) => unreachable!(),
        },
    }
}

/// The day as it is written, `YYYY-MM-DD`.
pub(crate) fn day_text(number: u32) -> [u8; 10]
    ensures { result ≡ day_text (held_day number) }
{
    day_of(number).text()
}
