//! `routes.txt`.

ghost use Rattle.std.specs.Prelude.{◌≡◌, ◌≤◌, IfErr, IfOk, IsTrue, Some, map};
ghost use Rattle.csv.specs.Records.{fields_of};
ghost use Rattle.ojp_outside.specs.Causes.{Rose};
ghost use Rattle.ojp_feed_lines.specs.Refusals.{Explains, is_unread};
ghost use Rattle.ojp_feed_lines.specs.Columns.{column_name};
ghost use Rattle.ojp_feed_lines.specs.declared.columns.Column.{Column};
ghost use Rattle.ojp_feed_lines.specs.declared.files.FeedFile.{FeedFile};
ghost use Rattle.ojp_feed_lines.specs.IdTexts.{HoldsIds};
ghost use Rattle.ojp_feed_lines.specs.Places.{AreRoutesOf, route_at, route_texts};
ghost use Rattle.ojp_feed_lines.specs.Rows.{IsPlace, OfFile};

use crate::columns::Column;
use crate::fields::is_continuous;
use crate::files::FeedFile;
use crate::folder::{Folder, OpenedFile};
use crate::ids::{Ids, owned, put};
use crate::refusals::FeedRefused;
use crate::rows::{Rows, take_needed};
use crate::table::Table;
use ojp_feed_rows::Route;
use std::alloc::Global;

/// The routes with their ids, and the rows that promise boarding on the way.
#[derive(Drop)]
pub(crate) struct Routes {
    pub ids: Ids,
    pub routes: Vec<Route>,
    pub continuous: u64,
}

/// The places of the columns of `routes.txt`.
#[derive(Clone, Copy)]
pub(crate) struct RouteColumns {
    id: usize,
    short_name: Option<usize>,
    pickup: Option<usize>,
    drop_off: Option<usize>,
}

/// The routes of the folder.
pub(crate) fn read_routes<D: Folder>(alloc: Global, folder: &mut D) -> Result<Routes, FeedRefused>
    ensures told { IfOk result (λ routes. OfFile (D.seen folder.old).contents FeedFile.Routes (λ bytes. AreRoutesOf bytes routes.routes.items)) }
    ensures kept { (D.seen folder.new).contents ≡ (D.seen folder.old).contents }
    ensures later { (D.seen folder.old).faults ≤ (D.seen folder.new).faults }
    ensures unread { IfErr result (λ e. IsTrue (is_unread e) → Rose (D.seen folder.old).faults (D.seen folder.new).faults) }
    ensures refused { IfErr result (λ e. Explains (D.seen folder.old).contents e) }
{
    let mut routes = Routes {
        ids: Ids::new(alloc),
        routes: Vec::new(alloc),
        continuous: 0,
    };
    take_needed(
        alloc,
        folder,
        FeedFile::Routes,
        Column::RouteId,
        &mut routes,
    )?;
    Ok(routes)
}

impl Rows for Routes {
    type Columns = RouteColumns;

    ghost file = { FeedFile.Routes };

    ghost places = { λ c head. IsPlace head (column_name Column.RouteId) (Some c.id) × IsPlace head (column_name Column.RouteShortName) c.short_name };

    ghost holds = { λ s c rows. (map route_texts s.routes.items ≡ map (route_at c.id c.short_name) rows) × HoldsIds s.ids c.id rows };

    fn columns<F: OpenedFile>(table: &Table<F>) -> Result<RouteColumns, FeedRefused> {
        Ok(RouteColumns {
            id: table.needed(Column::RouteId)?,
            short_name: table.place(Column::RouteShortName),
            pickup: table.place(Column::ContinuousPickup),
            drop_off: table.place(Column::ContinuousDropOff),
        })
    }

    #[tactic(auto, using(crate::proofs::StandFacts::map_more))]
    fn take_row<F: OpenedFile>(
        &mut self,
        alloc: Global,
        table: &Table<F>,
        columns: RouteColumns,
    ) -> Result<(), FeedRefused> {
        self.ids.add_row(alloc, table, columns.id, Column::RouteId)?;
        put(&mut self.routes, route_of(alloc, table, columns)?)?;
        if is_continuous(table.field_of(columns.pickup))
            || is_continuous(table.field_of(columns.drop_off))
        {
            self.continuous = self.continuous.saturating_add(1);
        }
        Ok(())
    }
}

fn route_of<F: OpenedFile>(
    alloc: Global,
    table: &Table<F>,
    columns: RouteColumns,
) -> Result<Route, FeedRefused>
    ensures texts { IfOk result (λ route. route_texts route ≡ route_at columns.id columns.short_name (fields_of table.now.row)) }
    ensures memory { IfErr result (λ e. e ≡ FeedRefused.NoMemory) }
{
    let id = owned(alloc, table.field(columns.id))?;
    let short_name = owned(alloc, table.field_of(columns.short_name))?;
    Ok(Route { id, short_name })
}
