//! The regions of the files are opened, and their book is learned.

ghost use Rattle.std.specs.Prelude.{◌≡◌, ◌≤◌, ℕ, false, List, map, string_bytes};
ghost use Rattle.ojp_timetable.specs.Tables.{Timetable};
ghost use Rattle.ojp_links_mem.specs.Files.{HasReadNone, files_seen, links_seen};
ghost use Rattle.ojp_steps.specs.Lent.{lent};
ghost use Rattle.ojp_plan.specs.Files.{reason_of_opening};
ghost use Rattle.ojp_plan.specs.Ready.{IsLearnedOf, IsOpenOver, LearnsOf, OpensOver, Prepares};

use crate::reading::read_files;
use ojp_exchange::{Book, BookRefused};
use ojp_gateway::{LearnRefused, learn_paced};
use ojp_links::Links;
use ojp_links_mem::{FileLinks, OpenRefused};
use ojp_outside::Store;
use ojp_steps::failures::{Failure, failure_of_book};
use std::alloc::Global;

/// Reads the files, learns the book of their regions, and counts asks from 1 in the order.
pub(crate) fn prepare<'a, F: Store + Drop>(
    alloc: Global,
    order: u64,
    names: &'a [String],
    files: &mut FileLinks<F>,
) -> Result<Book, Failure<'a>>
    requires order { order ≤ 10 }
    requires fresh { HasReadNone (files_seen F.seen files.old) }
    ensures { Prepares (map (λ name. string_bytes name) names.now) order (lent (files_seen F.seen) files.old files.new) (links_seen files.new) result }
{
    match read_files(names, files) {
        Ok(()) => {}
        Err(failure) => return Err(failure),
    }
    match open_book(alloc, files) {
        Ok(book) => {
            files.renumber(order);
            Ok(book)
        }
        Err(reason) => Err(failure_of_book(reason)),
    }
}

/// Opens the links to the regions of the files, and learns their book.
fn open_book<F: Store + Drop>(alloc: Global, files: &mut FileLinks<F>) -> Result<Book, BookRefused>
    requires { (files_seen F.seen files.old).is_open ≡ false }
    ensures { LearnsOf (files_seen F.seen files.old).tables 0 (links_seen files.new) result }
{
    match open_links(files) {
        Ok(()) => learn_book(alloc, files),
        Err(reason) => Err(reason),
    }
}

/// Opens the links to the regions of the files.
fn open_links<F: Store + Drop>(files: &mut FileLinks<F>) -> Result<(), BookRefused>
    requires { (files_seen F.seen files.old).is_open ≡ false }
    ensures { OpensOver (files_seen F.seen files.old).tables (links_seen files.new) result }
{
    match files.open() {
        Ok(()) => Ok(()),
        Err(refused) => Err(reason_of(refused)),
    }
}

/// Why there is no book where the links were not opened.
fn reason_of(refused: OpenRefused) -> BookRefused
    ensures { result ≡ reason_of_opening refused }
{
    match refused {
        OpenRefused::TwiceRegion(code) => BookRefused::TwiceRegion(code),
        OpenRefused::NoMemory => BookRefused::NoMemory,
    }
}

/// Learns the book of the regions.
fn learn_book<F: Store + Drop>(alloc: Global, files: &mut FileLinks<F>) -> Result<Book, BookRefused>
    requires { (given : List Timetable) × (order : ℕ) × IsOpenOver given order (links_seen files.old) }
    ensures { (given : List Timetable) (order : ℕ) → IsOpenOver given order (links_seen files.old) → LearnsOf given order (links_seen files.new) result }
{
    files.is_sound();
    let learned = learn_paced(alloc, files);
    files.is_sound();
    match learned {
        Ok(book) => Ok(book),
        Err(LearnRefused::Book(reason)) => Err(reason),
        Err(LearnRefused::NoMemory) => Err(BookRefused::NoMemory),
        // Counts of faults rise by rejections alone here, and nothing is rejected.
        Err(LearnRefused::Region(_)) => unreachable!(),
    }
}
