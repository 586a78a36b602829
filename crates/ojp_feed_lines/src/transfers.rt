//! `transfers.txt`.

ghost use Rattle.std.specs.Prelude.{◌≡◌, ◌≤◌, ⊤, IfErr, IfOk, IsTrue};
ghost use Rattle.csv.specs.Records.{fields_of};
ghost use Rattle.ojp_outside.specs.Causes.{Rose};
ghost use Rattle.ojp_feed_lines.specs.Causes.{IsOfHead, IsOfPlaced};
ghost use Rattle.ojp_feed_lines.specs.Fields.{empty_or_seconds, transfer_kind_of};
ghost use Rattle.ojp_feed_lines.specs.Refusals.{Explains, IsRowRefusal, is_unread};
ghost use Rattle.ojp_feed_lines.specs.RowPlaces.{TransferPlaces};
ghost use Rattle.ojp_feed_lines.specs.declared.columns.Column.{Column};
ghost use Rattle.ojp_feed_lines.specs.declared.files.FeedFile.{FeedFile};

use crate::columns::Column;
use crate::fields::read_count;
use crate::files::FeedFile;
use crate::folder::{Folder, OpenedFile};
use crate::ids::{Ids, put};
use crate::refusals::FeedRefused;
use crate::rows::{Rows, take_file};
use crate::table::Table;
use ojp_feed_rows::Transfer;
use std::alloc::Global;

/// The places of the columns of `transfers.txt`.
#[derive(Clone, Copy)]
pub(crate) struct TransferColumns {
    from: usize,
    to: usize,
    kind: Option<usize>,
    seconds: Option<usize>,
    /// Of a route or a trip.
    special: [Option<usize>; 4],
}

/// What a row is.
#[derive(Clone, Copy)]
enum Row {
    Timed(Transfer),
    Untimed,
    Special,
    Typed,
}

/// The rows that ask for a time within stops, and how many others there are of each kind.
#[derive(Drop)]
pub(crate) struct Transfers {
    pub transfers: Vec<Transfer>,
    pub untimed: u64,
    pub special: u64,
    pub typed: u64,
}

/// The transfers so far.
#[derive(Drop)]
struct TransferRows<'a> {
    stops: &'a Ids,
    transfers: Transfers,
}

/// The transfers, by the ids of stops.
pub(crate) fn read_transfers<D: Folder>(
    alloc: Global,
    folder: &mut D,
    stops: &Ids,
) -> Result<Transfers, FeedRefused>
    ensures kept { (D.seen folder.new).contents ≡ (D.seen folder.old).contents }
    ensures later { (D.seen folder.old).faults ≤ (D.seen folder.new).faults }
    ensures unread { IfErr result (λ e. IsTrue (is_unread e) → Rose (D.seen folder.old).faults (D.seen folder.new).faults) }
    ensures refused { IfErr result (λ e. Explains (D.seen folder.old).contents e) }
{
    let mut rows = TransferRows {
        stops,
        transfers: Transfers {
            transfers: Vec::new(alloc),
            untimed: 0,
            special: 0,
            typed: 0,
        },
    };
    take_file(
        alloc,
        folder,
        FeedFile::Transfers,
        Column::FromStopId,
        &mut rows,
    )?;
    Ok(rows.transfers)
}

impl Rows for TransferRows<'_> {
    type Columns = TransferColumns;

    ghost file = { FeedFile.Transfers };

    ghost places = { TransferPlaces };

    ghost holds = { λ _ _ _. ⊤ };

    fn columns<F: OpenedFile>(table: &Table<F>) -> Result<TransferColumns, FeedRefused>
        ensures places { IfOk result (λ c. TransferPlaces c (fields_of table.now.row)) }
        ensures refused { IfErr result (λ e. IsRowRefusal table.now.file e) }
        ensures why { IfErr result (λ e. IsOfHead FeedFile.Transfers (fields_of table.now.row) e) }
    {
        Ok(TransferColumns {
            from: table.needed(Column::FromStopId)?,
            to: table.needed(Column::ToStopId)?,
            kind: table.place(Column::TransferType),
            seconds: table.place(Column::MinTransferTime),
            special: [
                table.place(Column::FromRouteId),
                table.place(Column::ToRouteId),
                table.place(Column::FromTripId),
                table.place(Column::ToTripId),
            ],
        })
    }

    fn take_row<F: OpenedFile>(
        &mut self,
        _: Global,
        table: &Table<F>,
        columns: TransferColumns,
    ) -> Result<(), FeedRefused> {
        let transfers = &mut self.transfers;
        match row_of(table, columns, self.stops)? {
            Row::Timed(transfer) => put(&mut transfers.transfers, transfer)?,
            Row::Untimed => transfers.untimed = transfers.untimed.saturating_add(1),
            Row::Special => transfers.special = transfers.special.saturating_add(1),
            Row::Typed => transfers.typed = transfers.typed.saturating_add(1),
        }
        Ok(())
    }
}

fn row_of<F: OpenedFile>(
    table: &Table<F>,
    columns: TransferColumns,
    stops: &Ids,
) -> Result<Row, FeedRefused>
    ensures refused { IfErr result (λ e. IsRowRefusal table.now.file e) }
    ensures why { IfErr result (λ e. IsOfPlaced FeedFile.Transfers (TransferPlaces columns) (fields_of table.now.row) e) }
{
    let kind = table.value(
        read_kind(table.field_of(columns.kind).as_bytes()),
        Column::TransferType,
    )?;
    let seconds = table.value(
        read_seconds(table.field_of(columns.seconds).as_bytes()),
        Column::MinTransferTime,
    )?;
    if kind >= 3 {
        return Ok(Row::Typed);
    }
    let (Some(from), Some(to)) = (
        stops.number(table.field(columns.from)),
        stops.number(table.field(columns.to)),
    ) else {
        return Ok(Row::Special);
    };
    if is_special(table, columns) {
        return Ok(Row::Special);
    }
    match seconds {
        Some(seconds) if kind == 2 => Ok(Row::Timed(Transfer { from, to, seconds })),
        _ => Ok(Row::Untimed),
    }
}

fn is_special<F: OpenedFile>(table: &Table<F>, columns: TransferColumns) -> bool {
    columns
        .special
        .iter()
        .any(|place| !table.field_of(*place).is_empty())
}

/// A `transfer_type`, which may be empty.
fn read_kind(text: &[u8]) -> Option<u32>
    ensures { result ≡ transfer_kind_of text.now }
{
    if text.is_empty() {
        return Some(0);
    }
    read_count(text, 5)
}

/// A `min_transfer_time`, where the field is not empty.
fn read_seconds(text: &[u8]) -> Option<Option<u32>>
    ensures { result ≡ empty_or_seconds text.now }
{
    if text.is_empty() {
        return Some(None);
    }
    match read_count(text, u32::MAX) {
        Some(seconds) => Some(Some(seconds)),
        None => None,
    }
}
