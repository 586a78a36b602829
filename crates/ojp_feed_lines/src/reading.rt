//! A feed, read file by file.

ghost use Rattle.std.specs.Prelude.{◌≡◌, ◌≤◌, IfErr, IfOk, IsSomeAnd, IsTrue, option_map, string_bytes};
ghost use Rattle.ojp_outside.specs.Causes.{Rose};
ghost use Rattle.ojp_feed_lines.specs.Refusals.{Explains, ExplainsAll, is_unread};
ghost use Rattle.ojp_feed_lines.specs.IdTexts.{id_texts};
ghost use Rattle.ojp_feed_lines.specs.OperatorCauses.{IsOperatorRefusal};
ghost use Rattle.ojp_feed_lines.specs.Places.{AreRoutesOf, AreStopIdsOf, IsZoneOf};
ghost use Rattle.ojp_feed_lines.specs.Rows.{OfFile};

use crate::agency::read_zone_name;
use crate::files::FeedFile;
use crate::folder::Folder;
use crate::frequencies::read_frequencies;
use crate::ids::Ids;
use crate::operator::{no_lines, read_operator};
use crate::refusals::FeedRefused;
use crate::routes::{Routes, read_routes};
use crate::services::{Services, narrowed, read_services};
use crate::stop_times::{Known, read_stop_times, running_trips, sort_stop_times};
use crate::stops::{Stops, read_stops};
use crate::transfers::{Transfers, read_transfers};
use crate::trips::{Trips, read_trips};
use ojp_feed_rows::{Feed, Operator, Passed, Window};
use ojp_values::Code;
use std::alloc::Global;

/// For what a feed is read.
#[derive(Clone, Copy)]
pub struct Asked<'a> {
    /// The code of the region.
    pub code: Code,
    /// The days whose services matter.
    pub window: Window,
    /// The bytes of the operator's file, where there is one.
    pub operator: Option<&'a [u8]>,
}

/// The rows of the feed. Its files are read in the order of `FeedFile`, each to its end, but the operator's before the calendars,
/// and the first row that is refused is told. `calendar.txt` or `calendar_dates.txt` may be missing, and so may `frequencies.txt` and `transfers.txt`.
///
/// # Errors
///
/// `Unread` where a file could not be opened or a read of it failed, `At` where a line is refused, `NoMemory` where memory ran out.
pub fn read_feed<D: Folder>(
    alloc: Global,
    folder: &mut D,
    asked: Asked<'_>,
) -> Result<Feed, FeedRefused>
    ensures zone { IfOk result (λ feed. OfFile (D.seen folder.old).contents FeedFile.Agency (λ bytes. IsZoneOf bytes (string_bytes feed.zone_name))) }
    ensures routes { IfOk result (λ feed. OfFile (D.seen folder.old).contents FeedFile.Routes (λ bytes. AreRoutesOf bytes feed.routes.items)) }
    ensures kept { (D.seen folder.new).contents ≡ (D.seen folder.old).contents }
    ensures later { (D.seen folder.old).faults ≤ (D.seen folder.new).faults }
    ensures unread { IfErr result (λ e. IsTrue (is_unread e) → Rose (D.seen folder.old).faults (D.seen folder.new).faults) }
    ensures refused { IfErr result (λ e. ExplainsAll (D.seen folder.old).contents asked.entry.code (option_map (λ lines. lines.now) asked.entry.operator) e) }
{
    let zone_name = read_zone_name(alloc, folder)?;
    let places = read_places(alloc, folder)?;
    let operator = operator_of(alloc, asked.operator, asked.code, &places.stops.ids)?;
    let runs = read_runs(alloc, folder, &places, asked.window)?;
    Ok(feed_of(zone_name, places, operator, runs))
}

/// The stops and routes.
#[derive(Drop)]
struct Places {
    stops: Stops,
    routes: Routes,
}

/// What runs in the window, and how long transfers take.
#[derive(Drop)]
struct Runs {
    services: Services,
    trips: Trips,
    transfers: Transfers,
    window: Window,
}

fn read_places<D: Folder>(alloc: Global, folder: &mut D) -> Result<Places, FeedRefused>
    ensures ids { IfOk result (λ places. OfFile (D.seen folder.old).contents FeedFile.Stops (λ bytes. AreStopIdsOf bytes (id_texts places.stops.ids))) }
    ensures routes { IfOk result (λ places. OfFile (D.seen folder.old).contents FeedFile.Routes (λ bytes. AreRoutesOf bytes places.routes.routes.items)) }
    ensures kept { (D.seen folder.new).contents ≡ (D.seen folder.old).contents }
    ensures later { (D.seen folder.old).faults ≤ (D.seen folder.new).faults }
    ensures unread { IfErr result (λ e. IsTrue (is_unread e) → Rose (D.seen folder.old).faults (D.seen folder.new).faults) }
    ensures refused { IfErr result (λ e. Explains (D.seen folder.old).contents e) }
{
    let stops = read_stops(alloc, folder)?;
    let routes = read_routes(alloc, folder)?;
    Ok(Places { stops, routes })
}

/// The operator's lines, where there is a file of them.
fn operator_of(
    alloc: Global,
    lines: Option<&[u8]>,
    code: Code,
    stops: &Ids,
) -> Result<Operator, FeedRefused>
    ensures { IfErr result (λ e. IsSomeAnd lines.entry (λ bytes. IsOperatorRefusal code (id_texts stops.now) bytes.now e)) }
{
    match lines {
        Some(bytes) => read_operator(alloc, bytes, code, stops),
        None => Ok(no_lines(alloc)),
    }
}

/// The other files.
fn read_runs<D: Folder>(
    alloc: Global,
    folder: &mut D,
    places: &Places,
    asked: Window,
) -> Result<Runs, FeedRefused>
    ensures kept { (D.seen folder.new).contents ≡ (D.seen folder.old).contents }
    ensures later { (D.seen folder.old).faults ≤ (D.seen folder.new).faults }
    ensures unread { IfErr result (λ e. IsTrue (is_unread e) → Rose (D.seen folder.old).faults (D.seen folder.new).faults) }
    ensures refused { IfErr result (λ e. Explains (D.seen folder.old).contents e) }
{
    let services = read_services(alloc, folder)?;
    let window = narrowed(&services.services, asked);
    let trips = read_trips(alloc, folder, &places.routes.ids, &services.ids)?;
    let trips = read_frequencies(alloc, folder, trips)?;
    let transfers = read_transfers(alloc, folder, &places.stops.ids)?;
    let trips = with_calls(alloc, folder, &places.stops.ids, &services, window, trips)?;
    Ok(Runs {
        services,
        trips,
        transfers,
        window,
    })
}

/// The trips with the calls of those that run in the window.
fn with_calls<D: Folder>(
    alloc: Global,
    folder: &mut D,
    stops: &Ids,
    services: &Services,
    window: Window,
    trips: Trips,
) -> Result<Trips, FeedRefused>
    ensures kept { (D.seen folder.new).contents ≡ (D.seen folder.old).contents }
    ensures later { (D.seen folder.old).faults ≤ (D.seen folder.new).faults }
    ensures unread { IfErr result (λ e. IsTrue (is_unread e) → Rose (D.seen folder.old).faults (D.seen folder.new).faults) }
    ensures refused { IfErr result (λ e. Explains (D.seen folder.old).contents e) }
{
    let running = running_trips(alloc, &trips.trips, &services.services, window)?;
    let known = Known {
        stops,
        running: &running,
    };
    let mut trips = read_stop_times(alloc, folder, known, trips)?;
    sort_stop_times(&mut trips.trips)?;
    Ok(trips)
}

fn feed_of(zone_name: String, places: Places, operator: Operator, runs: Runs) -> Feed
    ensures zone { result.zone_name ≡ zone_name }
    ensures routes { result.routes ≡ places.routes.routes }
{
    let passed = passed_over(&places, &runs);
    let Places { stops, routes } = places;
    let Runs {
        services,
        trips,
        transfers,
        window,
    } = runs;
    Feed {
        zone_name,
        stops: stops.stops,
        routes: routes.routes,
        services: services.services,
        trips: trips.trips,
        transfers: transfers.transfers,
        operator,
        window,
        passed,
    }
}

/// What was passed over.
fn passed_over(places: &Places, runs: &Runs) -> Passed {
    Passed {
        unknown_parents: places.stops.unknown_parents,
        stray_stop_times: runs.trips.stray_stop_times,
        stray_frequencies: runs.trips.stray_frequencies,
        untimed_transfers: runs.transfers.untimed,
        special_transfers: runs.transfers.special,
        typed_transfers: runs.transfers.typed,
        chained_trips: runs.trips.chained,
        continuous_rows: places
            .routes
            .continuous
            .saturating_add(runs.trips.continuous),
    }
}
