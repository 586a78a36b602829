//! The trip of a search that ended with one.

ghost use Rattle.std.specs.Prelude.{IfOk, IsSome};
ghost use Rattle.ojp_records.specs.Starts.{best};
ghost use Rattle.ojp_labels.specs.Boards.{ask_of, told_of, IsBoardOf};
ghost use Rattle.ojp_join.specs.Outcomes.{IsJoined};

use crate::chains::chain_of;
use ojp_exchange::Book;
use ojp_labels::Board;
use ojp_values::{NoMemory, Trip};
use std::alloc::Global;

/// The trip of the board's record: its legs are a chain of the record's trips, it ends at the best
/// arrival, and its totals are those of its legs.
pub fn joined(alloc: Global, book: &Book, board: &Board) -> Result<Trip, NoMemory>
    requires of { IsBoardOf board.now book.now }
    requires best { IsSome (best book.now (ask_of board.now) (told_of board.now)) }
    ensures { IfOk result (IsJoined book.now (ask_of board.now) (told_of board.now)) }
{
    let Some(end) = board.best() else {
        unreachable!();
    };
    chain_of(alloc, book, &board.ask(), board.told(), end)
}
