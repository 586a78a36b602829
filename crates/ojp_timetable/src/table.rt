//! A timetable that was read.
ghost use Rattle.std.specs.Prelude.{◌≡◌, ◌≤◌, ◌<◌, length, map, slice_get, position, bytes_eq, option_map, ◌↔◌, IsTrue, IfOk, IfErr, Some};

use crate::calls::Call;
use crate::draft::Draft;
use crate::file::above::Above;
use crate::file::lines::Dates;
use crate::file::reading::read_lines;
use crate::file::refusals::TableRefused;
use crate::kept::{JourneyView, KeptCall, PlaceView};
use ojp_values::{Code, Day, Instant, Label, Name, Point, StopRef};
use ojp_zones::noons::Noons;
use std::alloc::Global;
use std::marker::Model;

/// The timetable of one region: its stops and exchange points, its services and its journeys, and
/// the moment of the noon of each operating day. It is seen as the record of these.
#[derive(Drop)]
pub struct Timetable {
    draft: Draft,
    noons: Noons,
}

impl Model for Timetable {
    ghost use Rattle.ojp_timetable.specs.Tables.{Timetable as TimetableValue};

    ghost Value = { TimetableValue };

    ghost use Rattle.ojp_timetable.specs.Contents.{timetable_of};
    ghost use Rattle.ojp_timetable.specs.WellContents.{IsWhole};

    ghost view = { λ t. timetable_of t.draft t.noons };

    ghost invariant = { λ t. IsWhole t.draft t.noons };
}

impl Timetable {
    ghost use Rattle.ojp_values.specs.Texts.{same};
    ghost use Rattle.ojp_timetable.specs.Kept.{AreAtPlaces, call_kept};
    ghost use Rattle.ojp_timetable.specs.Tables.{Journey as JourneyValue, Place as PlaceValue, change_of, has, name_of};
    ghost use Rattle.ojp_timetable.specs.Runs.{IsWell, RunsOn, calls_of, moment};
    ghost use Rattle.ojp_timetable.specs.Views.{calls_at, dates_of, place_view, view_of};
    ghost use Rattle.ojp_timetable.specs.TableText.{IsText};
    ghost use Rattle.ojp_timetable.specs.Refusals.{IsRefusal};

    /// The timetable whose text the bytes are. At `At` the line is the first that fails a check, and
    /// the reason the first check that it fails.
    pub fn read(alloc: Global, bytes: &[u8]) -> Result<Timetable, TableRefused>
        ensures text { IfOk result (IsText bytes.now) }
        ensures refused { IfErr result (IsRefusal bytes.now) }
    {
        let mut above = Above::with_room(alloc, bytes.len())?;
        read_lines(alloc, bytes, &mut above)?;
        let draft = above.into_draft();
        let Ok(noons) = Noons::new(alloc, draft.zone()) else {
            return Err(TableRefused::NoMemory);
        };
        Ok(Timetable { draft, noons })
    }

    /// The timetable is well: each journey has a label of its own and at least two calls, the first
    /// without arrival and the last without departure; its times do not fall; its stops, services, days
    /// and noons are in range; its exchange points are those among its places, and rise by reference,
    /// the neighbours of each by code; and no limit of a timetable is passed.
    pub fn is_well(&self)
        ensures { IsWell self.now }
    {
        let _ = &self.noons;
    }

    /// The region's code.
    pub fn region(&self) -> Code
        ensures { result ≡ self.now.region }
    {
        self.draft.region()
    }

    /// Whether the stop is one of the region's own or one of its exchange points.
    #[tactic(auto, unfolding(crate::specs::Tables::has, crate::specs::Contents::has_place))]
    pub fn has(&self, stop: StopRef) -> bool
        ensures { result ≡ has self.now stop }
    {
        self.draft.has_place(&stop)
    }

    /// The name of the stop.
    #[tactic(auto, unfolding(crate::specs::Tables::place_of, ojp_values::specs::Texts::same))]
    pub fn name(&self, stop: StopRef) -> Option<Name>
        ensures { result ≡ name_of self.now stop }
    {
        match self.draft.place_facts(&stop) {
            None => None,
            Some(facts) => Some(facts.name),
        }
    }

    /// The time in seconds for a change at the stop.
    #[tactic(auto, unfolding(crate::specs::Tables::place_of, ojp_values::specs::Texts::same))]
    pub fn change(&self, stop: StopRef) -> Option<u32>
        ensures { result ≡ change_of self.now stop }
    {
        match self.draft.place_facts(&stop) {
            None => None,
            Some(facts) => Some(facts.change),
        }
    }

    /// The moment of an offset, in seconds from the beginning of the operating day.
    #[tactic(auto, unfolding(crate::specs::Runs::moment))]
    pub fn moment(&self, day: Day, offset: u32) -> Instant
        requires { offset ≤ 129600 }
        ensures { result ≡ moment self.now day offset }
    {
        let noon = self.noons.at(day.number());
        match Instant::new(noon - 43_200 + u64::from(offset)) {
            Ok(moment) => moment,
            Err(_) => unreachable!(),
        }
    }

    /// The number of exchange points.
    pub fn exchanges(&self) -> usize
        ensures { result ≡ length self.now.points }
    {
        self.draft.points()
    }

    /// The exchange points by rising reference.
    pub fn points(&self) -> &[Point]
        ensures { result.now ≡ self.now.points }
    {
        self.draft.point_slice()
    }

    /// The exchange point of that number, by rising reference.
    pub fn exchange(&self, i: usize) -> &Point
        requires { i < length self.now.points }
        ensures { slice_get self.now.points i ≡ Some result.now }
    {
        &self.draft.point_slice()[i]
    }

    /// The number of stops with the exchange points.
    pub fn places(&self) -> usize
        ensures { result ≡ length self.now.places }
    {
        self.draft.places()
    }

    /// The number of the stop among the places, which stand in the order of the file.
    pub fn place_of(&self, stop: StopRef) -> Option<usize>
        ensures { result ≡ position (λ (place : PlaceValue). bytes_eq stop place.stop) self.now.places }
    {
        self.draft.place_number(&stop)
    }

    /// The place of that number.
    pub fn place(&self, i: usize) -> PlaceView
        requires { i < length self.now.places }
        ensures { Some result ≡ option_map place_view (slice_get self.now.places i) }
    {
        match self.draft.place_at(i) {
            Some(place) => place,
            None => unreachable!(),
        }
    }

    /// The stop of the place of that number.
    pub fn stop(&self, i: usize) -> StopRef
        requires { i < length self.now.places }
        ensures { position (λ (place : PlaceValue). bytes_eq result place.stop) self.now.places ≡ Some i }
    {
        self.draft.stop_at(i)
    }

    /// The number of services.
    pub fn services(&self) -> usize
        ensures { result ≡ length self.now.services }
    {
        self.draft.services()
    }

    /// The first and last day of the service of that number, and its weekdays.
    pub fn dates(&self, service: usize) -> Dates
        requires { service < length self.now.services }
        ensures { Some result ≡ option_map dates_of (slice_get self.now.services service) }
    {
        match self.draft.dates_at(service) {
            Some(dates) => dates,
            None => unreachable!(),
        }
    }

    /// Whether the service of that number runs on the day.
    pub fn runs_on(&self, service: usize, day: Day) -> bool
        requires { service < length self.now.services }
        ensures { IsTrue result ↔ RunsOn self.now service day }
    {
        let dates = self.dates(service);
        let day = day.number();
        dates.first <= day && day <= dates.last && dates.marks[(day as usize + 3) % 7]
    }

    /// The number of journeys.
    pub fn journeys(&self) -> usize
        ensures { result ≡ length self.now.journeys }
    {
        self.draft.journeys()
    }

    /// The number of calls of all journeys.
    #[tactic(auto, unfolding(crate::specs::Contents::calls_in))]
    pub fn calls(&self) -> usize
        ensures { result ≡ calls_of self.now.journeys }
    {
        self.draft.calls()
    }

    /// The journey of that number.
    pub fn journey(&self, i: usize) -> JourneyView
        requires { i < length self.now.journeys }
        ensures { Some result ≡ option_map view_of (slice_get self.now.journeys i) }
    {
        match self.draft.journey_at(i) {
            Some(journey) => journey,
            None => unreachable!(),
        }
    }

    /// The number of the service of the journey of that number.
    pub fn service(&self, i: usize) -> usize
        requires { i < length self.now.journeys }
        ensures { Some result ≡ option_map (λ (journey : JourneyValue). journey.service) (slice_get self.now.journeys i) }
    {
        match self.draft.service_at(i) {
            Some(service) => service,
            None => unreachable!(),
        }
    }

    /// The number of the journey of that label.
    pub fn journey_of(&self, id: Label) -> Option<usize>
        ensures { result ≡ position (λ (journey : JourneyValue). same id journey.id) self.now.journeys }
    {
        self.draft.journey_number(&id)
    }

    /// The call at that place of the journey of that number, both counted from 0.
    pub fn call(&self, i: usize, position: usize) -> Call
        requires { position < length (calls_at self.now.journeys i) }
        ensures { slice_get (calls_at self.now.journeys i) position ≡ Some result }
    {
        match self.draft.call_at(i, position) {
            Some(found) => found.call,
            None => unreachable!(),
        }
    }

    /// The calls of the journey of that number as they are kept, each by the number of its stop among the places.
    pub fn kept_calls(&self, i: usize) -> &[KeptCall]
        ensures calls { map (call_kept self.now.places) result.now ≡ calls_at self.now.journeys i }
        ensures places { AreAtPlaces self.now.places result.now }
    {
        self.draft.kept_calls(i)
    }
}
