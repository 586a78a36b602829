//! `stops.txt`.

ghost use Rattle.std.specs.Prelude.{◌≡◌, ◌≤◌, IfErr, IfOk, IsTrue};
ghost use Rattle.csv.specs.Records.{fields_of};
ghost use Rattle.ojp_outside.specs.Causes.{Rose};
ghost use Rattle.ojp_feed_lines.specs.Causes.{IsOfPlaced};
ghost use Rattle.ojp_feed_lines.specs.IdTexts.{HoldsIds, id_texts};
ghost use Rattle.ojp_feed_lines.specs.Places.{AreStopIdsOf};
ghost use Rattle.ojp_feed_lines.specs.Refusals.{Explains, IsRowRefusal, is_unread};
ghost use Rattle.ojp_feed_lines.specs.RowPlaces.{StopPlaces};
ghost use Rattle.ojp_feed_lines.specs.Rows.{OfFile};
ghost use Rattle.ojp_feed_lines.specs.declared.columns.Column.{Column};
ghost use Rattle.ojp_feed_lines.specs.declared.files.FeedFile.{FeedFile};

use crate::columns::Column;
use crate::fields::read_location;
use crate::files::FeedFile;
use crate::folder::{Folder, OpenedFile};
use crate::ids::{Ids, owned, put};
use crate::refusals::FeedRefused;
use crate::rows::{Rows, take_needed};
use crate::table::Table;
use ojp_feed_rows::Stop;
use std::alloc::Global;

/// The stops with their ids, and the rows whose parent is no stop.
#[derive(Drop)]
pub(crate) struct Stops {
    pub ids: Ids,
    pub stops: Vec<Stop>,
    pub unknown_parents: u64,
}

/// The places of the columns of `stops.txt`.
#[derive(Clone, Copy)]
pub(crate) struct StopColumns {
    id: usize,
    name: Option<usize>,
    kind: Option<usize>,
    parent: Option<usize>,
}

/// The stops so far, without their parents, whose ids stand beside them.
#[derive(Drop)]
struct StopRows {
    ids: Ids,
    stops: Vec<Stop>,
    parents: Vec<String>,
}

/// The stops of the folder.
pub(crate) fn read_stops<D: Folder>(alloc: Global, folder: &mut D) -> Result<Stops, FeedRefused>
    ensures ids { IfOk result (λ stops. OfFile (D.seen folder.old).contents FeedFile.Stops (λ bytes. AreStopIdsOf bytes (id_texts stops.ids))) }
    ensures kept { (D.seen folder.new).contents ≡ (D.seen folder.old).contents }
    ensures later { (D.seen folder.old).faults ≤ (D.seen folder.new).faults }
    ensures unread { IfErr result (λ e. IsTrue (is_unread e) → Rose (D.seen folder.old).faults (D.seen folder.new).faults) }
    ensures refused { IfErr result (λ e. Explains (D.seen folder.old).contents e) }
{
    let mut rows = StopRows {
        ids: Ids::new(alloc),
        stops: Vec::new(alloc),
        parents: Vec::new(alloc),
    };
    take_needed(alloc, folder, FeedFile::Stops, Column::StopId, &mut rows)?;
    Ok(with_parents(rows))
}

impl Rows for StopRows {
    type Columns = StopColumns;

    ghost file = { FeedFile.Stops };

    ghost places = { StopPlaces };

    ghost holds = { λ s c rows. HoldsIds s.ids c.id rows };

    fn columns<F: OpenedFile>(table: &Table<F>) -> Result<StopColumns, FeedRefused> {
        Ok(StopColumns {
            id: table.needed(Column::StopId)?,
            name: table.place(Column::StopName),
            kind: table.place(Column::LocationType),
            parent: table.place(Column::ParentStation),
        })
    }

    fn take_row<F: OpenedFile>(
        &mut self,
        alloc: Global,
        table: &Table<F>,
        columns: StopColumns,
    ) -> Result<(), FeedRefused> {
        self.ids.add_row(alloc, table, columns.id, Column::StopId)?;
        put(&mut self.stops, stop_of(alloc, table, columns)?)?;
        put(
            &mut self.parents,
            owned(alloc, table.field_of(columns.parent))?,
        )
    }
}

/// The stop of the row, without its parent.
fn stop_of<F: OpenedFile>(
    alloc: Global,
    table: &Table<F>,
    columns: StopColumns,
) -> Result<Stop, FeedRefused>
    ensures refused { IfErr result (λ e. IsRowRefusal table.now.file e) }
    ensures why { IfErr result (λ e. IsOfPlaced FeedFile.Stops (StopPlaces columns) (fields_of table.now.row) e) }
{
    let kind = read_location(table.field_of(columns.kind));
    let kind = table.value(kind, Column::LocationType)?;
    let id = owned(alloc, table.field(columns.id))?;
    let name = owned(alloc, table.field_of(columns.name))?;
    Ok(Stop {
        kind,
        id,
        name,
        parent: None,
    })
}

/// The stops with their parents, and how many of these are no stops.
fn with_parents(rows: StopRows) -> Stops
    ensures { result.ids ≡ rows.ids }
{
    let mut stops = rows.stops;
    let unknown_parents = set_parents(&rows.ids, &rows.parents, &mut stops);
    Stops {
        ids: rows.ids,
        stops,
        unknown_parents,
    }
}

/// Gives each stop the number of its parent, and counts the parents that are no stops.
fn set_parents(ids: &Ids, parents: &[String], stops: &mut Vec<Stop>) -> u64 {
    let mut unknown = 0u64;
    for place in 0..parents.len() {
        let parent = parents[place].as_str();
        let number = ids.number(parent);
        set_parent(stops, place, number);
        if number.is_none() && !parent.is_empty() {
            unknown = unknown.saturating_add(1);
        }
    }
    unknown
}

fn set_parent(stops: &mut Vec<Stop>, place: usize, parent: Option<u32>) {
    if let Some(stop) = stops.get_mut(place) {
        stop.parent = parent;
    }
}
