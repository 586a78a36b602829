//! The files that are read.

ghost use Rattle.std.specs.Prelude.{◌≡◌};
ghost use Rattle.ojp_feed_lines.specs.Refusals.{name_of};

/// A file of a feed, or the operator's.
#[derive(Clone, Copy, Debug, PartialEq, Eq)]
pub enum FeedFile {
    Agency,
    Stops,
    Routes,
    Calendar,
    CalendarDates,
    Trips,
    Frequencies,
    Transfers,
    StopTimes,
    /// The operator's file of exchange points, neighbours and changes.
    Operator,
}

impl FeedFile {
    /// The name in the folder; that of the operator's file is given by its caller.
    pub fn name(self) -> &'static str
        ensures { result.now ≡ name_of self }
    {
        match self {
            FeedFile::Agency => "agency.txt",
            FeedFile::Stops => "stops.txt",
            FeedFile::Routes => "routes.txt",
            FeedFile::Calendar => "calendar.txt",
            FeedFile::CalendarDates => "calendar_dates.txt",
            FeedFile::Trips => "trips.txt",
            FeedFile::Frequencies => "frequencies.txt",
            FeedFile::Transfers => "transfers.txt",
            FeedFile::StopTimes => "stop_times.txt",
            FeedFile::Operator => "exchanges",
        }
    }
}
