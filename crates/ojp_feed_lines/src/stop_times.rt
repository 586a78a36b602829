//! `stop_times.txt`, the longest of the files.

ghost use Rattle.std.specs.Prelude.{◌≡◌, ◌≤◌, ⊤, IfErr, IfOk, IsTrue};
ghost use Rattle.csv.specs.Records.{fields_of};
ghost use Rattle.ojp_outside.specs.Causes.{Rose};
ghost use Rattle.ojp_feed_lines.specs.Causes.{IsOfHead, IsOfPlaced};
ghost use Rattle.ojp_feed_lines.specs.Refusals.{Explains, IsRowRefusal, is_unread};
ghost use Rattle.ojp_feed_lines.specs.RowPlaces.{CallPlaces};
ghost use Rattle.ojp_feed_lines.specs.declared.columns.Column.{Column};
ghost use Rattle.ojp_feed_lines.specs.declared.files.FeedFile.{FeedFile};

use crate::columns::Column;
use crate::fields::{is_continuous, read_access, read_count, read_empty_or_time};
use crate::files::FeedFile;
use crate::folder::{Folder, OpenedFile};
use crate::ids::{Ids, put};
use crate::refusals::FeedRefused;
use crate::rows::{Rows, take_needed};
use crate::services::runs_within;
use crate::table::Table;
use crate::trips::Trips;
use ojp_feed_rows::{Service, StopTime, Trip, Window};
use std::alloc::Global;

/// The places of the columns of `stop_times.txt`.
#[derive(Clone, Copy)]
pub(crate) struct CallColumns {
    trip: usize,
    stop: usize,
    sequence: usize,
    arrival: usize,
    departure: usize,
    boarding: Option<usize>,
    alighting: Option<usize>,
    pickup: Option<usize>,
    drop_off: Option<usize>,
}

/// What the rows refer to.
#[derive(Clone, Copy)]
pub(crate) struct Known<'a> {
    pub stops: &'a Ids,
    /// Whether the service of each trip has a day in the window, by the number of the trip.
    pub running: &'a [bool],
}

/// The trips with the rows so far.
#[derive(Drop)]
struct CallRows<'a> {
    known: Known<'a>,
    trips: Trips,
}

/// The trips, those that run in the window with their rows; rows without a trip are counted.
pub(crate) fn read_stop_times<D: Folder>(
    alloc: Global,
    folder: &mut D,
    known: Known<'_>,
    trips: Trips,
) -> Result<Trips, FeedRefused>
    ensures kept { (D.seen folder.new).contents ≡ (D.seen folder.old).contents }
    ensures later { (D.seen folder.old).faults ≤ (D.seen folder.new).faults }
    ensures unread { IfErr result (λ e. IsTrue (is_unread e) → Rose (D.seen folder.old).faults (D.seen folder.new).faults) }
    ensures refused { IfErr result (λ e. Explains (D.seen folder.old).contents e) }
{
    let mut rows = CallRows { known, trips };
    take_needed(
        alloc,
        folder,
        FeedFile::StopTimes,
        Column::TripId,
        &mut rows,
    )?;
    Ok(rows.trips)
}

impl Rows for CallRows<'_> {
    type Columns = CallColumns;

    ghost file = { FeedFile.StopTimes };

    ghost places = { CallPlaces };

    ghost holds = { λ _ _ _. ⊤ };

    fn columns<F: OpenedFile>(table: &Table<F>) -> Result<CallColumns, FeedRefused>
        ensures places { IfOk result (λ c. CallPlaces c (fields_of table.now.row)) }
        ensures refused { IfErr result (λ e. IsRowRefusal table.now.file e) }
        ensures why { IfErr result (λ e. IsOfHead FeedFile.StopTimes (fields_of table.now.row) e) }
    {
        Ok(CallColumns {
            trip: table.needed(Column::TripId)?,
            stop: table.needed(Column::StopId)?,
            sequence: table.needed(Column::StopSequence)?,
            arrival: table.needed(Column::ArrivalTime)?,
            departure: table.needed(Column::DepartureTime)?,
            boarding: table.place(Column::PickupType),
            alighting: table.place(Column::DropOffType),
            pickup: table.place(Column::ContinuousPickup),
            drop_off: table.place(Column::ContinuousDropOff),
        })
    }

    fn take_row<F: OpenedFile>(
        &mut self,
        _: Global,
        table: &Table<F>,
        columns: CallColumns,
    ) -> Result<(), FeedRefused> {
        let row = stop_time_of(table, columns)?;
        let stop = self.known.stops.number(table.field(columns.stop));
        let trip = self.trips.ids.number(table.field(columns.trip));
        self.count_continuous(table, columns);
        self.add(trip, stop, row)
    }
}

impl CallRows<'_> {
    /// Counts a row that promises boarding on the way.
    fn count_continuous<F: OpenedFile>(&mut self, table: &Table<F>, columns: CallColumns) {
        if is_continuous(table.field_of(columns.pickup))
            || is_continuous(table.field_of(columns.drop_off))
        {
            self.trips.continuous = self.trips.continuous.saturating_add(1);
        }
    }

    /// Adds the row at the stop to the trip of that number; one without a trip is counted.
    fn add(
        &mut self,
        trip: Option<u32>,
        stop: Option<u32>,
        row: StopTime,
    ) -> Result<(), FeedRefused>
        ensures { IfErr result (λ e. e ≡ FeedRefused.NoMemory) }
    {
        match trip {
            Some(trip) => {
                let trip = trip as usize;
                let runs = self.known.running.get(trip) == Some(&true);
                add_call(&mut self.trips.trips, trip, runs, stop, row)
            }
            None => {
                self.trips.stray_stop_times = self.trips.stray_stop_times.saturating_add(1);
                Ok(())
            }
        }
    }
}

/// Puts the row at the stop to the trip of that number, if the trip runs.
fn add_call(
    trips: &mut Vec<Trip>,
    trip: usize,
    runs: bool,
    stop: Option<u32>,
    row: StopTime,
) -> Result<(), FeedRefused>
    ensures { IfErr result (λ e. e ≡ FeedRefused.NoMemory) }
{
    let Some(trip) = trips.get_mut(trip) else {
        return Ok(());
    };
    match stop {
        Some(stop) if runs => put(&mut trip.stop_times, StopTime { stop, ..row }),
        Some(_) => Ok(()),
        None => {
            trip.has_unknown_stop = true;
            Ok(())
        }
    }
}

/// The row, at the stop 0.
fn stop_time_of<F: OpenedFile>(
    table: &Table<F>,
    columns: CallColumns,
) -> Result<StopTime, FeedRefused>
    ensures refused { IfErr result (λ e. IsRowRefusal table.now.file e) }
    ensures why { IfErr result (λ e. IsOfPlaced FeedFile.StopTimes (CallPlaces columns) (fields_of table.now.row) e) }
{
    let sequence = read_count(table.field(columns.sequence).as_bytes(), u32::MAX);
    let arrival = read_empty_or_time(table.field(columns.arrival).as_bytes());
    let departure = read_empty_or_time(table.field(columns.departure).as_bytes());
    let boarding = read_access(table.field_of(columns.boarding));
    let alighting = read_access(table.field_of(columns.alighting));
    Ok(StopTime {
        sequence: table.value(sequence, Column::StopSequence)?,
        stop: 0,
        arrival: table.value(arrival, Column::ArrivalTime)?,
        departure: table.value(departure, Column::DepartureTime)?,
        boarding: table.value(boarding, Column::PickupType)?,
        alighting: table.value(alighting, Column::DropOffType)?,
    })
}

/// Puts the rows of each trip in the order of their sequences.
pub(crate) fn sort_stop_times(trips: &mut Vec<Trip>) -> Result<(), FeedRefused>
    ensures { IfErr result (λ e. e ≡ FeedRefused.NoMemory) }
{
    for trip in trips.iter_mut() {
        if trip.stop_times.sort_by_key(|row| row.sequence).is_err() {
            return Err(FeedRefused::NoMemory);
        }
    }
    Ok(())
}

/// Whether the service of each trip has a day in the window.
pub(crate) fn running_trips(
    alloc: Global,
    trips: &[Trip],
    services: &[Service],
    window: Window,
) -> Result<Vec<bool>, FeedRefused>
    ensures { IfErr result (λ e. e ≡ FeedRefused.NoMemory) }
{
    let runs = running_services(alloc, services, window)?;
    let mut running = Vec::new(alloc);
    for trip in trips {
        let is_running = match trip.service {
            Some(service) => runs.get(service as usize) == Some(&true),
            None => false,
        };
        put(&mut running, is_running)?;
    }
    Ok(running)
}

/// Whether each service has a day in the window.
fn running_services(
    alloc: Global,
    services: &[Service],
    window: Window,
) -> Result<Vec<bool>, FeedRefused>
    ensures { IfErr result (λ e. e ≡ FeedRefused.NoMemory) }
{
    let mut runs = Vec::new(alloc);
    for service in services {
        put(&mut runs, runs_within(service, window))?;
    }
    Ok(runs)
}
