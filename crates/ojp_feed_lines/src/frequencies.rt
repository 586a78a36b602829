//! `frequencies.txt`.

ghost use Rattle.std.specs.Prelude.{◌≡◌, ◌≤◌, ⊤, IfErr, IsTrue};
ghost use Rattle.csv.specs.Records.{fields_of};
ghost use Rattle.ojp_zones.specs.Numbers.{number_if};
ghost use Rattle.ojp_outside.specs.Causes.{Rose};
ghost use Rattle.ojp_feed_lines.specs.Causes.{IsOfPlaced};
ghost use Rattle.ojp_feed_lines.specs.Fields.{exact_of, is_headway};
ghost use Rattle.ojp_feed_lines.specs.Refusals.{Explains, IsRowRefusal, is_unread};
ghost use Rattle.ojp_feed_lines.specs.RowPlaces.{FrequencyPlaces};
ghost use Rattle.ojp_feed_lines.specs.declared.columns.Column.{Column};
ghost use Rattle.ojp_feed_lines.specs.declared.files.FeedFile.{FeedFile};

use crate::columns::Column;
use crate::fields::{read_count, read_flag, read_time};
use crate::files::FeedFile;
use crate::folder::{Folder, OpenedFile};
use crate::ids::put;
use crate::refusals::FeedRefused;
use crate::rows::{Rows, take_file};
use crate::table::Table;
use crate::trips::Trips;
use ojp_feed_rows::{Frequency, Trip};
use std::alloc::Global;

/// The longest time between two departures, in seconds.
const LONGEST_HEADWAY: u32 = 3_600_000;

/// The places of the columns of `frequencies.txt`.
#[derive(Clone, Copy)]
pub(crate) struct FrequencyColumns {
    trip: usize,
    start: usize,
    end: usize,
    headway: usize,
    exact: Option<usize>,
}

/// The trips with the rows so far.
#[derive(Drop)]
struct FrequencyRows {
    trips: Trips,
}

/// The trips with their rows; those that have no trip are counted.
pub(crate) fn read_frequencies<D: Folder>(
    alloc: Global,
    folder: &mut D,
    trips: Trips,
) -> Result<Trips, FeedRefused>
    ensures kept { (D.seen folder.new).contents ≡ (D.seen folder.old).contents }
    ensures later { (D.seen folder.old).faults ≤ (D.seen folder.new).faults }
    ensures unread { IfErr result (λ e. IsTrue (is_unread e) → Rose (D.seen folder.old).faults (D.seen folder.new).faults) }
    ensures refused { IfErr result (λ e. Explains (D.seen folder.old).contents e) }
{
    let mut rows = FrequencyRows { trips };
    take_file(
        alloc,
        folder,
        FeedFile::Frequencies,
        Column::TripId,
        &mut rows,
    )?;
    Ok(rows.trips)
}

impl Rows for FrequencyRows {
    type Columns = FrequencyColumns;

    ghost file = { FeedFile.Frequencies };

    ghost places = { FrequencyPlaces };

    ghost holds = { λ _ _ _. ⊤ };

    fn columns<F: OpenedFile>(table: &Table<F>) -> Result<FrequencyColumns, FeedRefused> {
        Ok(FrequencyColumns {
            trip: table.needed(Column::TripId)?,
            start: table.needed(Column::StartTime)?,
            end: table.needed(Column::EndTime)?,
            headway: table.needed(Column::HeadwaySecs)?,
            exact: table.place(Column::ExactTimes),
        })
    }

    fn take_row<F: OpenedFile>(
        &mut self,
        _: Global,
        table: &Table<F>,
        columns: FrequencyColumns,
    ) -> Result<(), FeedRefused> {
        let frequency = frequency_of(table, columns)?;
        match self.trips.ids.number(table.field(columns.trip)) {
            Some(trip) => add_frequency(&mut self.trips.trips, trip, frequency),
            None => {
                self.trips.stray_frequencies = self.trips.stray_frequencies.saturating_add(1);
                Ok(())
            }
        }
    }
}

/// Puts the row to the trip of that number.
fn add_frequency(trips: &mut Vec<Trip>, trip: u32, frequency: Frequency) -> Result<(), FeedRefused>
    ensures { IfErr result (λ e. e ≡ FeedRefused.NoMemory) }
{
    match trips.get_mut(trip as usize) {
        Some(trip) => put(&mut trip.frequencies, frequency),
        None => Ok(()),
    }
}

fn frequency_of<F: OpenedFile>(
    table: &Table<F>,
    columns: FrequencyColumns,
) -> Result<Frequency, FeedRefused>
    ensures refused { IfErr result (λ e. IsRowRefusal table.now.file e) }
    ensures why { IfErr result (λ e. IsOfPlaced FeedFile.Frequencies (FrequencyPlaces columns) (fields_of table.now.row) e) }
{
    let start = table.value(
        read_time(table.field(columns.start).as_bytes()),
        Column::StartTime,
    )?;
    let end = table.value(
        read_time(table.field(columns.end).as_bytes()),
        Column::EndTime,
    )?;
    let headway = table.value(
        read_headway(table.field(columns.headway).as_bytes()),
        Column::HeadwaySecs,
    )?;
    let exact = table.value(
        read_exact(table.field_of(columns.exact)),
        Column::ExactTimes,
    )?;
    Ok(Frequency {
        start,
        end,
        headway,
        exact,
    })
}

#[tactic(auto, unfolding(crate::specs::Fields::is_headway))]
fn read_headway(text: &[u8]) -> Option<u32>
    ensures { result ≡ number_if (is_headway text.now) text.now }
{
    match read_count(text, LONGEST_HEADWAY) {
        Some(0) => None,
        headway => headway,
    }
}

/// `exact_times`, which may be empty.
fn read_exact(text: &str) -> Option<bool>
    ensures { result ≡ exact_of text.now }
{
    if text.is_empty() {
        return Some(false);
    }
    read_flag(text)
}
