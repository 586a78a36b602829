//! The words of the reasons.
ghost use Rattle.std.specs.Prelude.{◌≡◌};
ghost use Rattle.ojp_timetable.specs.Views.{reason_words};

use crate::file::lines::TableReason;

impl TableReason {
    /// The words in which the reason is printed.
    pub fn words(self) -> &'static str
        ensures { result.now ≡ reason_words self }
    {
        match self {
            TableReason::LineForm => "line form",
            TableReason::Value => "value",
            TableReason::BadZone => "zone",
            TableReason::ForeignStop => "foreign stop",
            TableReason::DoubledName => "doubled name",
            TableReason::UnknownStop => "unknown stop",
            TableReason::UnknownService => "unknown service",
            TableReason::FallingTimes => "falling times",
            TableReason::Limit => "limit",
        }
    }
}
