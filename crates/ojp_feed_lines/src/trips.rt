//! `trips.txt`.

ghost use Rattle.std.specs.Prelude.{◌≡◌, ◌≤◌, ◌∷◌, ◌++◌, [], IfErr, IfOk, IsTrue, List, OnOk, Some};
ghost use Rattle.csv.specs.Records.{field_at, fields_of};
ghost use Rattle.ojp_outside.specs.Causes.{Rose};
ghost use Rattle.ojp_feed_lines.specs.Causes.{IsIdRefusal, IsOfHead};
ghost use Rattle.ojp_feed_lines.specs.Columns.{column_name};
ghost use Rattle.ojp_feed_lines.specs.IdTexts.{HoldsIds, id_texts};
ghost use Rattle.ojp_feed_lines.specs.Refusals.{Explains, IsRowRefusal, is_unread};
ghost use Rattle.ojp_feed_lines.specs.Rows.{IsPlace, Record, or_nothing};
ghost use Rattle.ojp_feed_lines.specs.declared.columns.Column.{Column};
ghost use Rattle.ojp_feed_lines.specs.declared.files.FeedFile.{FeedFile};

use crate::columns::Column;
use crate::files::FeedFile;
use crate::folder::{Folder, OpenedFile};
use crate::ids::{Ids, owned, put};
use crate::refusals::FeedRefused;
use crate::rows::{Rows, take_needed};
use crate::table::Table;
use ojp_feed_rows::Trip;
use std::alloc::Global;

/// The trips with their ids, and what is counted of rows that are about them.
#[derive(Drop)]
pub(crate) struct Trips {
    pub ids: Ids,
    pub trips: Vec<Trip>,
    /// Trips that follow another of their block.
    pub chained: u64,
    /// Rows of `frequencies.txt` without a trip.
    pub stray_frequencies: u64,
    /// Rows of `stop_times.txt` without a trip.
    pub stray_stop_times: u64,
    /// Rows of `stop_times.txt` that promise boarding on the way.
    pub continuous: u64,
}

/// The places of the columns of `trips.txt`.
#[derive(Clone, Copy)]
pub(crate) struct TripColumns {
    id: usize,
    route: usize,
    service: usize,
    block: Option<usize>,
}

/// What the rows refer to.
#[derive(Clone, Copy)]
struct Known<'a> {
    routes: &'a Ids,
    services: &'a Ids,
}

/// The trips so far, and the blocks that they name.
#[derive(Drop)]
struct TripRows<'a> {
    known: Known<'a>,
    trips: Trips,
    blocks: Ids,
}

/// The trips, by the ids of routes and services.
pub(crate) fn read_trips<D: Folder>(
    alloc: Global,
    folder: &mut D,
    routes: &Ids,
    services: &Ids,
) -> Result<Trips, FeedRefused>
    ensures kept { (D.seen folder.new).contents ≡ (D.seen folder.old).contents }
    ensures later { (D.seen folder.old).faults ≤ (D.seen folder.new).faults }
    ensures unread { IfErr result (λ e. IsTrue (is_unread e) → Rose (D.seen folder.old).faults (D.seen folder.new).faults) }
    ensures refused { IfErr result (λ e. Explains (D.seen folder.old).contents e) }
{
    let mut rows = TripRows {
        known: Known { routes, services },
        trips: no_trips(alloc),
        blocks: Ids::new(alloc),
    };
    take_needed(alloc, folder, FeedFile::Trips, Column::TripId, &mut rows)?;
    Ok(rows.trips)
}

fn no_trips(alloc: Global) -> Trips
    ensures { id_texts result.ids ≡ [] }
{
    Trips {
        ids: Ids::new(alloc),
        trips: Vec::new(alloc),
        chained: 0,
        stray_frequencies: 0,
        stray_stop_times: 0,
        continuous: 0,
    }
}

impl Rows for TripRows<'_> {
    type Columns = TripColumns;

    ghost file = { FeedFile.Trips };

    ghost places = { λ c head. IsPlace head (column_name Column.TripId) (Some c.id) };

    ghost holds = { λ s c rows. HoldsIds s.trips.ids c.id rows };

    fn columns<F: OpenedFile>(table: &Table<F>) -> Result<TripColumns, FeedRefused>
        ensures places { IfOk result (λ c. IsPlace (fields_of table.now.row) (column_name Column.TripId) (Some c.id)) }
        ensures refused { IfErr result (λ e. IsRowRefusal table.now.file e) }
        ensures why { IfErr result (λ e. IsOfHead FeedFile.Trips (fields_of table.now.row) e) }
    {
        Ok(TripColumns {
            id: table.needed(Column::TripId)?,
            route: table.needed(Column::RouteId)?,
            service: table.needed(Column::ServiceId)?,
            block: table.place(Column::BlockId),
        })
    }

    fn take_row<F: OpenedFile>(
        &mut self,
        alloc: Global,
        table: &Table<F>,
        columns: TripColumns,
    ) -> Result<(), FeedRefused> {
        add_trip(alloc, table, columns, self.known, &mut self.trips)?;
        if is_chained(alloc, table.field_of(columns.block), &mut self.blocks)? {
            self.trips.chained = self.trips.chained.saturating_add(1);
        }
        Ok(())
    }
}

fn add_trip<F: OpenedFile>(
    alloc: Global,
    table: &Table<F>,
    columns: TripColumns,
    known: Known<'_>,
    trips: &mut Trips,
) -> Result<(), FeedRefused>
    ensures refused { IfErr result (λ e. IsRowRefusal table.now.file e) }
    ensures taken { OnOk result ((rows : List Record) → HoldsIds trips.old.ids columns.id rows
        → HoldsIds trips.new.ids columns.id (rows ++ fields_of table.now.row ∷ [])) }
    ensures why { IfErr result (IsIdRefusal (id_texts trips.old.ids) (or_nothing (field_at (fields_of table.now.row) columns.id)) Column.TripId) }
{
    trips.ids.add_row(alloc, table, columns.id, Column::TripId)?;
    let id = owned(alloc, table.field(columns.id))?;
    put(
        &mut trips.trips,
        Trip {
            id,
            route: known.routes.number(table.field(columns.route)),
            service: known.services.number(table.field(columns.service)),
            has_unknown_stop: false,
            stop_times: Vec::new(alloc),
            frequencies: Vec::new(alloc),
        },
    )
}

/// Whether the block stands in a row above; else it is noted.
fn is_chained(alloc: Global, block: &str, blocks: &mut Ids) -> Result<bool, FeedRefused>
    ensures { IfErr result (λ e. e ≡ FeedRefused.NoMemory) }
{
    if block.is_empty() {
        return Ok(false);
    }
    let added = blocks.add(alloc, block)?;
    Ok(!added)
}
