//! `calendar.txt` and `calendar_dates.txt`.

ghost use Rattle.std.specs.Prelude.{◌≡◌, ◌≤◌, ◌∷◌, ◌++◌, ℕ, [], Contains, IfErr, IfOk, IsTrue, List, Ok, OnOk, Some, false, true};
ghost use Rattle.csv.specs.Records.{field_at, fields_of};
ghost use Rattle.ojp_values.specs.Texts.{Text};
ghost use Rattle.ojp_outside.specs.Causes.{Rose};
ghost use Rattle.ojp_feed_lines.specs.Causes.{IsIdRefusal, IsOfHead, IsOfPlaced};
ghost use Rattle.ojp_feed_lines.specs.Columns.{column_name};
ghost use Rattle.ojp_feed_lines.specs.Fields.{compact_day, exception_kind_of};
ghost use Rattle.ojp_feed_lines.specs.IdTexts.{HoldsIds, id_texts};
ghost use Rattle.ojp_feed_lines.specs.Lines.{IsIdOf};
ghost use Rattle.ojp_feed_lines.specs.Refusals.{Explains, IsRowRefusal, is_unread};
ghost use Rattle.ojp_feed_lines.specs.Rows.{IsPlace, Record, at_place, or_nothing};
ghost use Rattle.ojp_feed_lines.specs.RowPlaces.{DatedPlaces, WeekdayPlaces, WeeklyPlaces};
ghost use Rattle.ojp_feed_lines.specs.ServiceDates.{HoldDates};
ghost use Rattle.ojp_feed_lines.specs.declared.columns.Column.{Column};
ghost use Rattle.ojp_feed_lines.specs.declared.files.FeedFile.{FeedFile};

use crate::columns::Column;
use crate::fields::{read_date, read_flag};
use crate::files::FeedFile;
use crate::folder::{Folder, OpenedFile};
use crate::ids::{Ids, owned, put};
use crate::refusals::{FeedRefused, RowReason};
use crate::rows::{Rows, missing, take_file};
use crate::table::Table;
use indexmap::IndexSet;
use ojp_feed_rows::{Exception, Service, Weekly, Window};
use std::alloc::Global;

/// The columns of the weekdays, Monday first.
const WEEKDAYS: [Column; 7] = [
    Column::Monday,
    Column::Tuesday,
    Column::Wednesday,
    Column::Thursday,
    Column::Friday,
    Column::Saturday,
    Column::Sunday,
];

/// The services with their ids.
#[derive(Drop)]
pub(crate) struct Services {
    pub ids: Ids,
    pub services: Vec<Service>,
}

/// The places of the columns of `calendar.txt`.
#[derive(Clone, Copy)]
pub(crate) struct WeeklyColumns {
    id: usize,
    weekdays: [usize; 7],
    first: usize,
    last: usize,
}

/// The services with the rows of `calendar.txt` so far.
#[derive(Drop)]
struct WeeklyRows {
    services: Services,
}

/// The places of the columns of `calendar_dates.txt`.
#[derive(Clone, Copy)]
pub(crate) struct DatedColumns {
    id: usize,
    date: usize,
    kind: usize,
}

/// A row of `calendar_dates.txt`, by the number of its service and its day.
#[derive(Clone, Copy, Debug, PartialEq, Eq, Hash)]
struct Dated {
    service: u32,
    day: u32,
}

/// The services with the rows of `calendar_dates.txt` so far.
#[derive(Drop)]
struct DatedRows {
    services: Services,
    dated: IndexSet<Dated>,
}

/// The services of both files, of which one may be missing.
pub(crate) fn read_services<D: Folder>(
    alloc: Global,
    folder: &mut D,
) -> Result<Services, FeedRefused>
    ensures kept { (D.seen folder.new).contents ≡ (D.seen folder.old).contents }
    ensures later { (D.seen folder.old).faults ≤ (D.seen folder.new).faults }
    ensures unread { IfErr result (λ e. IsTrue (is_unread e) → Rose (D.seen folder.old).faults (D.seen folder.new).faults) }
    ensures refused { IfErr result (λ e. Explains (D.seen folder.old).contents e) }
{
    let mut weekly = WeeklyRows {
        services: Services {
            ids: Ids::new(alloc),
            services: Vec::new(alloc),
        },
    };
    let has_weekly = take_file(
        alloc,
        folder,
        FeedFile::Calendar,
        Column::Monday,
        &mut weekly,
    )?;
    let mut dated = DatedRows {
        services: weekly.services,
        dated: IndexSet::new(alloc),
    };
    let has_dated = take_file(
        alloc,
        folder,
        FeedFile::CalendarDates,
        Column::ServiceId,
        &mut dated,
    )?;
    if has_weekly || has_dated {
        Ok(dated.services)
    } else {
        Err(missing(FeedFile::Calendar))
    }
}

impl Rows for WeeklyRows {
    type Columns = WeeklyColumns;

    ghost file = { FeedFile.Calendar };

    ghost places = { WeeklyPlaces };

    ghost holds = { λ s c rows. HoldsIds s.services.ids c.id rows };

    fn columns<F: OpenedFile>(table: &Table<F>) -> Result<WeeklyColumns, FeedRefused> {
        Ok(WeeklyColumns {
            weekdays: weekday_columns(table)?,
            id: table.needed(Column::ServiceId)?,
            first: table.needed(Column::StartDate)?,
            last: table.needed(Column::EndDate)?,
        })
    }

    fn take_row<F: OpenedFile>(
        &mut self,
        alloc: Global,
        table: &Table<F>,
        columns: WeeklyColumns,
    ) -> Result<(), FeedRefused> {
        let weekly = weekly_of(table, columns)?;
        add_service(alloc, table, columns.id, Some(weekly), &mut self.services)
    }
}

fn weekday_columns<F: OpenedFile>(table: &Table<F>) -> Result<[usize; 7], FeedRefused>
    ensures places { IfOk result (λ weekdays. WeekdayPlaces weekdays 7 (fields_of table.now.row)) }
    ensures refused { IfErr result (λ e. IsRowRefusal table.now.file e) }
    ensures why { IfErr result (λ e. IsOfHead FeedFile.Calendar (fields_of table.now.row) e) }
{
    let mut weekdays = [0usize; 7];
    for day in 0..7usize {
        weekdays[day] = table.needed(WEEKDAYS[day])?;
    }
    Ok(weekdays)
}

/// Adds the service of the row, whose id must be new.
fn add_service<F: OpenedFile>(
    alloc: Global,
    table: &Table<F>,
    place: usize,
    weekly: Option<Weekly>,
    services: &mut Services,
) -> Result<(), FeedRefused>
    ensures added { OnOk result (id_texts services.new.ids ≡ id_texts services.old.ids ++ at_place (fields_of table.now.row) (Some place) ∷ []) }
    ensures taken { OnOk result ((rows : List Record) → HoldsIds services.old.ids place rows
        → HoldsIds services.new.ids place (rows ++ fields_of table.now.row ∷ [])) }
    ensures refused { IfErr result (λ e. IsRowRefusal table.now.file e) }
    ensures why { IfErr result (IsIdRefusal (id_texts services.old.ids) (or_nothing (field_at (fields_of table.now.row) place)) Column.ServiceId) }
{
    services
        .ids
        .add_row(alloc, table, place, Column::ServiceId)?;
    let id = owned(alloc, table.field(place))?;
    put(
        &mut services.services,
        Service {
            id,
            weekly,
            exceptions: Vec::new(alloc),
        },
    )
}

fn weekly_of<F: OpenedFile>(table: &Table<F>, columns: WeeklyColumns) -> Result<Weekly, FeedRefused>
    ensures refused { IfErr result (λ e. IsRowRefusal table.now.file e) }
    ensures why { IfErr result (λ e. IsOfPlaced FeedFile.Calendar (WeeklyPlaces columns) (fields_of table.now.row) e) }
{
    let marks = marks_of(table, columns.weekdays)?;
    let first = table.value(
        read_date(table.field(columns.first).as_bytes()),
        Column::StartDate,
    )?;
    let last = table.value(
        read_date(table.field(columns.last).as_bytes()),
        Column::EndDate,
    )?;
    if last < first {
        return Err(table.refused(RowReason::Value(Column::EndDate)));
    }
    Ok(Weekly { first, last, marks })
}

/// On which weekdays the service runs.
fn marks_of<F: OpenedFile>(table: &Table<F>, weekdays: [usize; 7]) -> Result<[bool; 7], FeedRefused>
    ensures refused { IfErr result (λ e. IsRowRefusal table.now.file e) }
    ensures why { IfErr result (λ e. IsOfPlaced FeedFile.Calendar (WeekdayPlaces weekdays 7) (fields_of table.now.row) e) }
{
    let mut marks = [false; 7];
    for day in 0..7usize {
        let mark = read_flag(table.field(weekdays[day]));
        marks[day] = table.value(mark, WEEKDAYS[day])?;
    }
    Ok(marks)
}

impl Rows for DatedRows {
    type Columns = DatedColumns;

    ghost file = { FeedFile.CalendarDates };

    ghost places = { DatedPlaces };

    ghost holds = { λ s c rows. HoldDates (id_texts s.services.ids) s.dated.keys c rows };

    fn columns<F: OpenedFile>(table: &Table<F>) -> Result<DatedColumns, FeedRefused> {
        Ok(DatedColumns {
            id: table.needed(Column::ServiceId)?,
            date: table.needed(Column::Date)?,
            kind: table.needed(Column::ExceptionType)?,
        })
    }

    fn take_row<F: OpenedFile>(
        &mut self,
        alloc: Global,
        table: &Table<F>,
        columns: DatedColumns,
    ) -> Result<(), FeedRefused> {
        let service = service_of(alloc, table, columns.id, &mut self.services)?;
        let exception = exception_of(table, columns)?;
        let dated = Dated {
            service,
            day: exception.day,
        };
        if !keep_date(&mut self.dated, dated)? {
            return Err(table.refused(RowReason::Doubled(Column::Date)));
        }
        add_exception(&mut self.services.services, service, exception)
    }
}

/// Keeps the date, and tells whether it was new.
fn keep_date(dates: &mut IndexSet<Dated>, dated: Dated) -> Result<bool, FeedRefused>
    ensures kept { result ≡ Ok true → dates.new.keys ≡ dates.old.keys ++ dated ∷ [] }
    ensures there { result ≡ Ok false → Contains dates.old.keys dated }
    ensures memory { IfErr result (λ e. e ≡ FeedRefused.NoMemory) }
{
    match dates.insert(dated) {
        Ok(is_new) => Ok(is_new),
        Err(_) => Err(FeedRefused::NoMemory),
    }
}

fn exception_of<F: OpenedFile>(
    table: &Table<F>,
    columns: DatedColumns,
) -> Result<Exception, FeedRefused>
    ensures day { IfOk result (λ exception. at_place (fields_of table.now.row) (Some columns.date) ≡ compact_day exception.day) }
    ensures refused { IfErr result (λ e. IsRowRefusal table.now.file e) }
    ensures why { IfErr result (λ e. IsOfPlaced FeedFile.CalendarDates (DatedPlaces columns) (fields_of table.now.row) e) }
{
    let day = table.value(
        read_date(table.field(columns.date).as_bytes()),
        Column::Date,
    )?;
    let runs = table.value(read_kind(table.field(columns.kind)), Column::ExceptionType)?;
    Ok(Exception { day, runs })
}

/// 1: the service runs; 2: it does not.
fn read_kind(text: &str) -> Option<bool>
    ensures { result ≡ exception_kind_of text.now }
{
    if text == "1" {
        Some(true)
    } else if text == "2" {
        Some(false)
    } else {
        None
    }
}

/// Puts the exception to the service of that number.
fn add_exception(
    services: &mut Vec<Service>,
    service: u32,
    exception: Exception,
) -> Result<(), FeedRefused>
    ensures { IfErr result (λ e. e ≡ FeedRefused.NoMemory) }
{
    match services.get_mut(service as usize) {
        Some(service) => put(&mut service.exceptions, exception),
        None => Ok(()),
    }
}

/// The number of the service of the row, which is added where it is new.
fn service_of<F: OpenedFile>(
    alloc: Global,
    table: &Table<F>,
    place: usize,
    services: &mut Services,
) -> Result<u32, FeedRefused>
    ensures number { IfOk result (λ number. IsIdOf (id_texts services.new.ids) number (at_place (fields_of table.now.row) (Some place))) }
    ensures kept { OnOk result ((number : ℕ) (id : Text) → IsIdOf (id_texts services.old.ids) number id → IsIdOf (id_texts services.new.ids) number id) }
    ensures refused { IfErr result (λ e. IsRowRefusal table.now.file e) }
    ensures why { IfErr result (λ e. IsOfPlaced FeedFile.CalendarDates (λ head. IsPlace head (column_name Column.ServiceId) (Some place)) (fields_of table.now.row) e) }
{
    if !services.ids.contains(table.field(place)) {
        add_service(alloc, table, place, None, services)?;
    }
    match services.ids.number(table.field(place)) {
        Some(number) => Ok(number),
        None => Err(table.refused(RowReason::Limit)),
    }
}

/// Whether the service runs on a day of the window.
pub fn runs_within(service: &Service, window: Window) -> bool {
    if service.exceptions.iter().any(|exception| exception.runs
        && is_within(exception.day, window))
    {
        return true;
    }
    match service.weekly {
        Some(weekly) => runs_weekly(service, weekly, window),
        None => false,
    }
}

fn is_within(day: u32, window: Window) -> bool {
    window.first <= day && day <= window.last
}

/// Whether the row has a day of the window that is not taken away.
fn runs_weekly(service: &Service, weekly: Weekly, window: Window) -> bool {
    for day in weekly.first.max(window.first)..weekly.last.min(window.last).saturating_add(1) {
        if weekly.marks[(day as usize % 7 + 3) % 7] && !is_removed(service, day) {
            return true;
        }
    }
    false
}

/// Whether an exception takes the day away.
fn is_removed(service: &Service, day: u32) -> bool {
    service
        .exceptions
        .iter()
        .any(|exception| !exception.runs && exception.day == day)
}

/// The days of the window from the first on which some service may run to the last; the window itself where there is none.
pub(crate) fn narrowed(services: &[Service], asked: Window) -> Window {
    let mut first = u32::MAX;
    let mut last = 0u32;
    for service in services {
        if let Some(weekly) = service.weekly {
            first = first.min(weekly.first);
            last = last.max(weekly.last);
        }
        for exception in &service.exceptions {
            if exception.runs {
                first = first.min(exception.day);
                last = last.max(exception.day);
            }
        }
    }
    let narrow = Window {
        first: first.max(asked.first),
        last: last.min(asked.last),
    };
    if narrow.first <= narrow.last {
        narrow
    } else {
        asked
    }
}
