//! What a report counts.

ghost use Rattle.std.specs.Prelude.{◌≡◌, ◌<◌, ◌-◌, ◌^◌};
ghost use Rattle.ojp_feed_plans.specs.Tallies.{tally_of, total, with_fate};

use ojp_feed_trips::Fate;

/// The trips by what becomes of them.
#[derive(Clone, Copy, Debug, PartialEq, Eq)]
pub struct Tally {
    pub written: u64,
    pub unknown_route: u64,
    pub unknown_service: u64,
    pub unknown_stop: u64,
    pub no_day: u64,
    pub doubled_sequence: u64,
    pub no_time_at_end: u64,
    pub falling_times: u64,
    pub past_end: u64,
    pub too_few_calls: u64,
}

/// What else is counted of a conversion.
#[derive(Clone, Copy, Debug, PartialEq, Eq)]
pub struct Counts {
    pub tally: Tally,
    pub journeys: u64,
    pub calls: u64,
    /// Platforms at which no written call is.
    pub unserved_stops: u64,
    /// Of the written trips: calls without times, whose time was spread evenly.
    pub spread: u64,
    /// Calls joined with the one before at the same stop.
    pub joined: u64,
    /// Calls dropped because they forbid to board or to alight.
    pub dropped: u64,
    /// Calls that forbid to board or to alight and are kept as open ones.
    pub opened: u64,
    /// Calls on demand, which are written as open ones.
    pub on_demand: u64,
    /// Rows of `frequencies.txt` that are not exact.
    pub inexact: u64,
    /// Stops, trips and lines whose label is not their id or name.
    pub labels: u64,
    /// Stops whose name was changed.
    pub names: u64,
    /// Times of changes that were held to 1 to 7,200 seconds.
    pub held: u64,
    /// Rows of `transfers.txt` between stops that are not one place.
    pub between: u64,
}

/// No trips.
const NONE: Tally = Tally {
    written: 0,
    unknown_route: 0,
    unknown_service: 0,
    unknown_stop: 0,
    no_day: 0,
    doubled_sequence: 0,
    no_time_at_end: 0,
    falling_times: 0,
    past_end: 0,
    too_few_calls: 0,
};

/// The trips by what becomes of them.
pub fn tally_of(fates: &[Fate]) -> Tally
    ensures { result ≡ tally_of fates.now }
{
    // There are fewer fates than a usize tells.
    let _count = fates.len();
    let mut tally = NONE;
    for fate in fates {
        tally = with_fate(tally, *fate);
    }
    tally
}

// The tally with one trip more.
fn with_fate(tally: Tally, fate: Fate) -> Tally
    requires { total tally < 2 ^ 64 - 1 }
    ensures { result ≡ with_fate tally fate }
{
    let mut tally = tally;
    match fate {
        Fate::Written => tally.written += 1,
        Fate::UnknownRoute => tally.unknown_route += 1,
        Fate::UnknownService => tally.unknown_service += 1,
        Fate::UnknownStop => tally.unknown_stop += 1,
        Fate::NoDay => tally.no_day += 1,
        Fate::DoubledSequence => tally.doubled_sequence += 1,
        Fate::NoTimeAtEnd => tally.no_time_at_end += 1,
        Fate::FallingTimes => tally.falling_times += 1,
        Fate::PastEnd => tally.past_end += 1,
        Fate::TooFewCalls => tally.too_few_calls += 1,
    }
    tally
}
