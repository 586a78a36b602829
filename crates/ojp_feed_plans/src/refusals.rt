//! Why a feed has no plan.

/// Why a feed has no plan: two stops, or two trips, of one label, by their numbers in the feed, or two trips with journeys of one
/// label, one trip twice where both are its own; too many journeys or calls for a timetable; or there is no memory.
#[derive(Clone, Copy, Debug, PartialEq, Eq)]
pub enum PlanRefused {
    DoubledStops { first: usize, second: usize },
    DoubledTrips { first: usize, second: usize },
    TooManyJourneys,
    TooManyCalls,
    NoMemory,
}
