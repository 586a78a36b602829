//! Why a feed is refused.

ghost use Rattle.std.specs.Prelude.{◌≡◌, ◌++◌};
ghost use Rattle.ojp_feed_lines.specs.ReasonWords.{row_words};

use crate::columns::Column;
use crate::files::FeedFile;

/// Why a line of a file is refused.
#[derive(Clone, Copy, Debug, PartialEq, Eq)]
pub enum RowReason {
    /// The file is not there.
    MissingFile,
    /// The head line lacks the column.
    MissingColumn(Column),
    /// The row has another number of fields than the head line.
    Width,
    /// The row is not text in UTF-8.
    NotText,
    /// The field of the column is not of its kind or range.
    Value(Column),
    /// The time zone is another than that of the row before.
    TwoZones,
    /// An id that stands in a row above.
    Doubled(Column),
    /// The stop of the operator's line is not in `stops.txt`, or its exchange point not in a line above.
    Unknown(Column),
    /// A line of the operator's file that is of none of its forms.
    LineForm,
    /// The file, or the number of its rows, passes a limit.
    Limit,
}

impl RowReason {
    /// The words of the reason, and the column that they name.
    pub fn words(self) -> (&'static str, &'static str)
        ensures { result.0.now ++ result.1.now ≡ row_words self }
    {
        match self {
            RowReason::MissingFile => ("missing file", ""),
            RowReason::MissingColumn(column) => ("missing column ", column.name()),
            RowReason::Width => ("width", ""),
            RowReason::NotText => ("no UTF-8", ""),
            RowReason::Value(column) => ("bad ", column.name()),
            RowReason::TwoZones => ("two zones", ""),
            RowReason::Doubled(column) => ("doubled ", column.name()),
            RowReason::Unknown(column) => ("unknown ", column.name()),
            RowReason::LineForm => ("line form", ""),
            RowReason::Limit => ("limit", ""),
        }
    }
}

/// Why no feed was read.
#[derive(Clone, Copy, Debug, PartialEq, Eq)]
pub enum FeedRefused {
    /// The file could not be opened, or a read of it failed.
    Unread(FeedFile),
    /// The first line that is refused, counted from 1, and the reason.
    At {
        file: FeedFile,
        line: u64,
        reason: RowReason,
    },
    /// Memory ran out.
    NoMemory,
}
