//! `agency.txt`: the zone of the feed.

ghost use Rattle.std.specs.Prelude.{◌≡◌, ◌≤◌, ◌↔◌, IfErr, IfOk, IsTrue, Some, string_bytes};
ghost use Rattle.ojp_outside.specs.Causes.{Rose};
ghost use Rattle.ojp_feed_lines.specs.Refusals.{Explains, is_unread};
ghost use Rattle.ojp_feed_lines.specs.Columns.{column_name};
ghost use Rattle.ojp_feed_lines.specs.declared.columns.Column.{Column};
ghost use Rattle.ojp_feed_lines.specs.declared.files.FeedFile.{FeedFile};
ghost use Rattle.ojp_feed_lines.specs.Places.{HoldsZone, IsZoneOf};
ghost use Rattle.ojp_feed_lines.specs.Rows.{IsPlace, OfFile};

use crate::columns::Column;
use crate::files::FeedFile;
use crate::folder::{Folder, OpenedFile};
use crate::ids::owned;
use crate::refusals::{FeedRefused, RowReason};
use crate::rows::{Rows, take_needed};
use crate::table::Table;
use std::alloc::Global;

/// The zone of the rows so far.
#[derive(Drop)]
struct ZoneRows {
    /// None above the first row.
    name: Option<String>,
}

/// The zone that all rows name.
pub(crate) fn read_zone_name<D: Folder>(
    alloc: Global,
    folder: &mut D,
) -> Result<String, FeedRefused>
    ensures told { IfOk result (λ zone. OfFile (D.seen folder.old).contents FeedFile.Agency (λ bytes. IsZoneOf bytes (string_bytes zone))) }
    ensures kept { (D.seen folder.new).contents ≡ (D.seen folder.old).contents }
    ensures later { (D.seen folder.old).faults ≤ (D.seen folder.new).faults }
    ensures unread { IfErr result (λ e. IsTrue (is_unread e) → Rose (D.seen folder.old).faults (D.seen folder.new).faults) }
    ensures refused { IfErr result (λ e. Explains (D.seen folder.old).contents e) }
{
    let mut rows = ZoneRows { name: None };
    take_needed(
        alloc,
        folder,
        FeedFile::Agency,
        Column::AgencyTimezone,
        &mut rows,
    )?;
    match rows.name {
        Some(name) => Ok(name),
        None => Err(no_row()),
    }
}

/// There is no row where the first should stand, under the head line.
fn no_row() -> FeedRefused
    ensures { result ≡ FeedRefused.At FeedFile.Agency 2 (RowReason.Value Column.AgencyTimezone) }
{
    FeedRefused::At {
        file: FeedFile::Agency,
        line: 2,
        reason: RowReason::Value(Column::AgencyTimezone),
    }
}

impl Rows for ZoneRows {
    type Columns = usize;

    ghost file = { FeedFile.Agency };

    ghost places = { λ column head. IsPlace head (column_name Column.AgencyTimezone) (Some column) };

    ghost holds = { λ s column rows. HoldsZone s.name column rows };

    fn columns<F: OpenedFile>(table: &Table<F>) -> Result<usize, FeedRefused> {
        table.needed(Column::AgencyTimezone)
    }

    #[tactic(auto, using(crate::proofs::StandFacts::zone_first, crate::proofs::StandFacts::zone_more))]
    fn take_row<F: OpenedFile>(
        &mut self,
        alloc: Global,
        table: &Table<F>,
        column: usize,
    ) -> Result<(), FeedRefused> {
        match &self.name {
            Some(name) => {
                if is_same(table.field(column), name.as_str()) {
                    Ok(())
                } else {
                    Err(table.refused(RowReason::TwoZones))
                }
            }
            None => {
                let name = table.id(column, Column::AgencyTimezone)?;
                self.name = Some(owned(alloc, name)?);
                Ok(())
            }
        }
    }
}

fn is_same(one: &str, other: &str) -> bool
    ensures { IsTrue result ↔ (one.now ≡ other.now) }
{
    one == other
}
