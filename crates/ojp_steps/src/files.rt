//! The failure of a command for a file.

ghost use Rattle.ojp_steps.specs.Files.{IsOfFile};

use crate::failures::Failure;
use ojp_region::FileRefused;

/// The failure of a command that could not take the file.
pub fn failure_of<'a>(file: &'a str, refused: FileRefused) -> Failure<'a>
    ensures { IsOfFile file.now refused result }
{
    match refused {
        FileRefused::Failed => Failure::Unread { file },
        FileRefused::TooLong => Failure::TooLong { file },
        FileRefused::At { line, reason } => Failure::Line { file, line, reason },
        FileRefused::NoMemory => Failure::Memory,
    }
}
