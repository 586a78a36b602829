//! The cancelling of a turn: what is live and no longer wanted ends.

ghost use Rattle.std.specs.Prelude.{◌≡◌, ◌<◌, [], length, filter};
ghost use Rattle.ojp_links.specs.Seen.{NoneLive};
ghost use Rattle.ojp_links.specs.Calls.{Keeps, NotRaised};
ghost use Rattle.ojp_labels.specs.Boards.{IsBoardOf, ask_of, told_of};
ghost use Rattle.ojp_turns.specs.Held.{AreHeld, StandsIn};
ghost use Rattle.ojp_turns.specs.Asking.{Cancels, FirstSifted, StayLive, is_still_wanted};

use crate::kept::Kept;
use ojp_exchange::Book;
use ojp_labels::Board;
use ojp_links::Links;
use std::collections::VecDeque;

// Puts the first subrequest behind the others where it is wanted, and cancels it otherwise. Says whether it did.
fn cancel_first<L: Links>(
    book: &Book,
    board: &Board,
    links: &mut L,
    subs: &mut VecDeque<Kept>,
) -> bool
    requires some { 0 < length subs.old.items }
    requires of { IsBoardOf board.now book.now }
    requires stands { StandsIn book.now (ask_of board.now) (told_of board.now) subs.old.items (L.seen links.old) }
    ensures stands { StandsIn book.now (ask_of board.now) (told_of board.now) subs.new.items (L.seen links.new) }
    ensures keeps { Keeps (L.seen links.old) (L.seen links.new) }
    ensures rejections { (L.seen links.new).rejections ≡ (L.seen links.old).rejections }
    ensures patience { NotRaised (L.seen links.old).patience (L.seen links.new).patience }
    ensures made { (L.seen links.new).made ≡ (L.seen links.old).made }
    ensures sifted { FirstSifted result book.now (ask_of board.now) (told_of board.now) (L.seen links.old) (L.seen links.new) subs.old.items subs.new.items }
{
    let Some(kept) = subs.pop_front() else {
        unreachable!();
    };
    if board.is_wanted(book, &kept.query) {
        subs.push_back_reserved(kept);
        return false;
    }
    kept.sub.cancel(links);
    true
}

/// Cancels, in the order asked, the subrequests that are not wanted. Says whether there was one.
pub fn cancel_all<L: Links>(
    book: &Book,
    board: &Board,
    links: &mut L,
    subs: &mut VecDeque<Kept>,
) -> bool
    requires of { IsBoardOf board.now book.now }
    requires stands { StandsIn book.now (ask_of board.now) (told_of board.now) subs.old.items (L.seen links.old) }
    ensures stands { StandsIn book.now (ask_of board.now) (told_of board.now) subs.new.items (L.seen links.new) }
    ensures keeps { Keeps (L.seen links.old) (L.seen links.new) }
    ensures rejections { (L.seen links.new).rejections ≡ (L.seen links.old).rejections }
    ensures patience { NotRaised (L.seen links.old).patience (L.seen links.new).patience }
    ensures made { (L.seen links.new).made ≡ (L.seen links.old).made }
    ensures kept { subs.new.items ≡ filter (is_still_wanted book.now (ask_of board.now) (told_of board.now)) subs.old.items }
    ensures same { StayLive (L.seen links.old) (L.seen links.new) subs.new.items }
    ensures cancels { Cancels result book.now (ask_of board.now) (told_of board.now) (L.seen links.old) (L.seen links.new) subs.old.items subs.new.items }
{
    let mut some = false;
    let count = subs.len();
    'cancelling: for _ in 0..count {
        some |= cancel_first(book, board, links, subs);
    }
    some
}

/// Cancels each subrequest. It takes no memory.
pub fn cancel_rest<L: Links>(links: &mut L, subs: &mut VecDeque<Kept>)
    requires { AreHeld subs.old.items (L.seen links.old) }
    ensures keeps { Keeps (L.seen links.old) (L.seen links.new) }
    ensures rejections { (L.seen links.new).rejections ≡ (L.seen links.old).rejections }
    ensures none_live { NoneLive (L.seen links.new) }
    ensures none { subs.new.items ≡ [] }
{
    'rest: while let Some(kept) = subs.pop_front() {
        kept.sub.cancel(links);
    }
}
