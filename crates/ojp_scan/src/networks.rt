//! The network of a timetable, and the numbers of its stops.

ghost use Rattle.std.specs.Prelude.{◌≡◌, ◌<◌, ℕ, length, slice_get, IfOk, Some};
ghost use Rattle.ojp_timetable.specs.Tables.{Journey, Place};
ghost use Rattle.ojp_timetable.specs.Runs.{IsWell};
ghost use Rattle.ojp_scan.specs.Networks.{HaveServices, HaveChanges, HaveNumbers, IsNetworkFor};

use crate::rows::ranks_of;
use indexmap::IndexMap;
use ojp_sweep::Connections;
use ojp_timetable::Timetable;
use ojp_values::{NoMemory, StopRef};
use std::alloc::Global;

/// The network of the timetable.
pub fn network_of(alloc: Global, table: &Timetable) -> Result<Connections, NoMemory>
    requires { IsWell table.now }
    ensures { IfOk result (λ net. IsNetworkFor net table.now) }
{
    let ranks = ranks_of(alloc, table)?;
    let services = services_of(alloc, table)?;
    let changes = changes_of(alloc, table)?;
    match Connections::new(alloc, ranks, services, changes) {
        Ok(net) => Ok(net),
        Err(_) => Err(NoMemory),
    }
}

/// The service of each journey.
fn services_of(alloc: Global, table: &Timetable) -> Result<Vec<u32>, NoMemory>
    requires { IsWell table.now }
    ensures { IfOk result (λ services. HaveServices services.items table.now (length table.now.journeys)) }
{
    let Ok(mut services) = Vec::with_capacity(alloc, table.journeys()) else {
        return Err(NoMemory);
    };
    'journeys: for index in 0..table.journeys() {
        if services.push(service_at(table, index)).is_err() {
            return Err(NoMemory);
        }
    }
    Ok(services)
}

/// The service of the journey of that number.
fn service_at(table: &Timetable, index: usize) -> u32
    requires well { IsWell table.now }
    requires within { index < length table.now.journeys }
    ensures { (journey : Journey) → slice_get table.now.journeys index ≡ Some journey → result ≡ journey.service }
{
    table.service(index) as u32
}

/// The change time of each place.
fn changes_of(alloc: Global, table: &Timetable) -> Result<Vec<u32>, NoMemory>
    ensures { IfOk result (λ changes. HaveChanges changes.items table.now (length table.now.places)) }
{
    let Ok(mut changes) = Vec::with_capacity(alloc, table.places()) else {
        return Err(NoMemory);
    };
    'places: for index in 0..table.places() {
        if changes.push(change_at(table, index)).is_err() {
            return Err(NoMemory);
        }
    }
    Ok(changes)
}

/// The change time of the place of that number.
fn change_at(table: &Timetable, index: usize) -> u32
    requires { index < length table.now.places }
    ensures { (place : Place) → slice_get table.now.places index ≡ Some place → result ≡ place.change }
{
    table.place(index).change
}

/// The number of each stop among the places.
pub fn numbers_of(alloc: Global, table: &Timetable) -> Result<IndexMap<StopRef, u32>, NoMemory>
    requires { IsWell table.now }
    ensures { IfOk result (λ numbers. HaveNumbers numbers table.now (length table.now.places)) }
{
    let Ok(mut numbers) = IndexMap::with_capacity(alloc, table.places()) else {
        return Err(NoMemory);
    };
    'places: for index in 0..table.places() {
        if numbers.insert(table.stop(index), index as u32).is_err() {
            return Err(NoMemory);
        }
    }
    Ok(numbers)
}
