//! What the lines of a file declare, while it grows.
ghost use Rattle.std.specs.Prelude.{◌≡◌, ◌≤◌, ◌↔◌, false, true, ◌<◌, IsSome, IsTrue, IfOk, OnOk, OnErr, is_some, length, map, option_copied, find, bytes_eq, unwrap_or, option_map, position, slice_get, IfSome, ◌^◌, [], ◌∷◌, ◌++◌};
ghost use Rattle.ojp_timetable.specs.Kept.{end_at};
ghost use Rattle.ojp_timetable.specs.declared.kept.Head.{Head as HeadValue};
ghost use Rattle.ojp_values.specs.Texts.{Text};
ghost use Rattle.ojp_values.specs.declared.trips.Point.{Point as PointValue};
ghost use Rattle.ojp_values.specs.declared.trips.Neighbour.{Neighbour as NeighbourValue};

use crate::calls::Call;
use crate::file::checks::{CALLS, JOURNEYS, PLACES};
use crate::file::lines::{Dates, Line};
use crate::kept::{FoundCall, Head, JourneyView, KeptCall, PlaceFacts, PlaceView};
use crate::point_lists::{insert_neighbour_at, insert_point};
use crate::stops::Stops;
use indexmap::IndexMap;
use ojp_values::{Code, Label, List, Name, Neighbour, NoMemory, Point, StopRef};
use ojp_zones::zone::Zone;
use std::alloc::Global;
use std::marker::Model;

/// The bytes of `call A:b - 0` and its line feed: no line of a stop or a call has fewer.
const LEAST_LINE: usize = 13;

/// The bytes of `journey a b c` with its line feed and two calls: no journey has fewer.
const LEAST_JOURNEY: usize = 40;

/// What the lines above declare, seen as their contents.
#[derive(Drop)]
pub struct Draft {
    region: Option<Code>,
    zone: Zone,
    stops: Stops,
    points: Vec<Point>,
    services: IndexMap<Label, Dates>,
    journeys: IndexMap<Label, Head>,
}

// The exchange point of that reference.
fn point_of<'a>(points: &'a [Point], stop: &StopRef) -> Option<&'a Point>
    ensures { option_copied result ≡ find (λ (point : PointValue). bytes_eq stop.now point.stop) points.now }
{
    points.iter().find(|point| *stop == point.stop)
}

// The neighbours at the exchange point of that reference, and none where there is no such point.
fn neighbours_of<'a>(points: &'a [Point], stop: &StopRef) -> &'a [Neighbour]
    ensures { result.now ≡ unwrap_or (option_map (λ (point : PointValue). point.neighbours) (find (λ (point : PointValue). bytes_eq stop.now point.stop) points.now)) [] }
{
    match point_of(points, stop) {
        Some(point) => point.neighbours.as_slice(),
        None => &[],
    }
}

// The journey of that number, with what is kept of it.
fn head_at(journeys: &IndexMap<Label, Head>, i: usize) -> Option<(Label, Head)>
    ensures entry { result ≡ slice_get journeys.now.entries i }
    ensures small { IfSome result (λ _. i < 2 ^ 63) }
{
    if i >= journeys.len() {
        return None;
    }
    match journeys.get_index(i) {
        None => None,
        Some((id, head)) => Some((*id, *head)),
    }
}

// Where the calls of the journey of that number begin.
fn first_call(journeys: &IndexMap<Label, Head>, i: usize) -> Option<usize>
    ensures first { result ≡ option_map (λ (entry : Text × HeadValue). entry.1.first_call) (slice_get journeys.now.entries i) }
    ensures small { IfSome result (λ _. i < 2 ^ 63) }
{
    if i >= journeys.len() {
        return None;
    }
    match journeys.get_index(i) {
        None => None,
        Some((_, head)) => Some(head.first_call),
    }
}

// Where the calls of the journey behind that one begin, which is the end of all calls behind the last.
fn end_at(journeys: &IndexMap<Label, Head>, i: usize, end: usize) -> usize
    requires { i < 2 ^ 63 }
    ensures { result ≡ end_at journeys.now.entries i end }
{
    match first_call(journeys, i + 1) {
        None => end,
        Some(next) => next,
    }
}

// A journey with the number of its calls.
fn view_of(entry: &(Label, Head), calls: usize) -> JourneyView
    ensures { result ≡ record { id = entry.now.0; line = entry.now.1.line; service = entry.now.1.service; calls = calls } }
{
    let (id, head) = entry;
    JourneyView {
        id: *id,
        line: head.line,
        service: head.service,
        calls,
    }
}

impl Model for Draft {
    ghost use Rattle.std.specs.Prelude.{◌≡◌, map, length};
    ghost use Rattle.ojp_timetable.specs.Contents.{Contents};

    ghost Value = { Contents };

    ghost use Rattle.ojp_timetable.specs.Kept.{region_kept, service_kept, journeys_of, AreInRow};

    ghost view = { λ d. record {
      region = region_kept d.region;
      zone = d.zone;
      places = d.stops.places;
      points = d.points.items;
      services = map service_kept d.services.entries;
      journeys = journeys_of d.journeys.entries d.stops.calls;
    } };

    ghost invariant = { λ d. AreInRow d.journeys.entries (length d.stops.calls) };
}

impl Draft {
    ghost use Rattle.ojp_timetable.specs.Contents.{Contents, no_contents, has_place, has_service, has_journey, service_number, neighbours_at, calls_in, with_call, with_neighbour, with_point, point_with};
    ghost use Rattle.ojp_timetable.specs.Checks.{is_doubled, lacks_stop};
    ghost use Rattle.ojp_timetable.specs.Kept.{AreAtPlaces, HasNumber, IsAtPlace, IsKeptByNumber, call_kept, facts_of};
    ghost use Rattle.ojp_timetable.specs.declared.kept.FoundCall.{FoundCall as FoundCallValue};
    ghost use Rattle.ojp_timetable.specs.Views.{calls_at, dates_of, place_view, view_of};
    ghost use Rattle.ojp_timetable.specs.Tables.{Journey as JourneyValue, Place as PlaceValue};
    ghost use Rattle.ojp_values.specs.Texts.{is_stop_ref, same};
    ghost use Rattle.ojp_timetable.specs.Lines.{grown, new_point, points_with_place, HasRegionFor};

    /// Nothing is declared; takes no memory.
    pub fn new(alloc: Global) -> Draft
        ensures { result ≡ no_contents }
    {
        Draft {
            region: None,
            zone: Zone {
                east: 0,
                summer: None,
            },
            stops: Stops::new(alloc),
            points: Vec::new(alloc),
            services: IndexMap::new(alloc),
            journeys: IndexMap::new(alloc),
        }
    }

    /// Nothing is declared, with room for what the lines of a file of so many bytes may declare.
    pub fn with_room(alloc: Global, bytes: usize) -> Result<Draft, NoMemory>
        ensures { IfOk result (λ draft. draft ≡ no_contents) }
    {
        let lines = bytes / LEAST_LINE;
        let stops = Stops::with_room(alloc, lines.min(PLACES), lines.min(CALLS))?;
        let Ok(journeys) = IndexMap::with_capacity(alloc, (bytes / LEAST_JOURNEY).min(JOURNEYS))
        else {
            return Err(NoMemory);
        };
        Ok(Draft {
            region: None,
            zone: Zone {
                east: 0,
                summer: None,
            },
            stops,
            points: Vec::new(alloc),
            services: IndexMap::new(alloc),
            journeys,
        })
    }

    /// The bytes of the region's code, and none while it is not declared.
    pub fn region_text(&self) -> &[u8]
        ensures { result.now ≡ self.now.region }
    {
        match &self.region {
            Some(code) => code.text(),
            None => b"",
        }
    }

    /// Whether the stop stands above.
    pub fn has_place(&self, stop: &StopRef) -> bool
        ensures { result ≡ has_place self.now stop.now }
    {
        self.stops.has(stop)
    }

    /// Whether the service stands above.
    pub fn has_service(&self, id: &Label) -> bool
        ensures { result ≡ has_service self.now id.now }
    {
        self.services.contains_key(id)
    }

    /// Whether the journey stands above.
    pub fn has_journey(&self, id: &Label) -> bool
        ensures { result ≡ has_journey self.now id.now }
    {
        self.journeys.contains_key(id)
    }

    /// The number of the service.
    pub fn service_number(&self, id: &Label) -> Option<usize>
        ensures { result ≡ service_number self.now id.now }
    {
        self.services.get_index_of(id)
    }

    /// The number of the journey.
    pub fn journey_number(&self, id: &Label) -> Option<usize>
        ensures { result ≡ position (λ (journey : JourneyValue). same id.now journey.id) self.now.journeys }
    {
        self.journeys.get_index_of(id)
    }

    /// The number of stops with the exchange points.
    pub fn places(&self) -> usize
        ensures { result ≡ length self.now.places }
    {
        self.stops.places()
    }

    /// The number of exchange points.
    pub fn points(&self) -> usize
        ensures { result ≡ length self.now.points }
    {
        self.points.as_slice().len()
    }

    /// The number of services.
    pub fn services(&self) -> usize
        ensures { result ≡ length self.now.services }
    {
        self.services.len()
    }

    /// The number of journeys.
    pub fn journeys(&self) -> usize
        ensures { result ≡ length self.now.journeys }
    {
        self.journeys.len()
    }

    /// The number of calls of all journeys.
    pub fn calls(&self) -> usize
        ensures { result ≡ calls_in self.now }
    {
        self.stops.calls()
    }

    /// The region's code.
    pub fn region(&self) -> Code
        requires { 0 < length self.now.region }
        ensures { result ≡ self.now.region }
    {
        match &self.region {
            Some(code) => *code,
            None => unreachable!(),
        }
    }

    /// The neighbours of an exchange point, and none where it does not stand above.
    #[tactic(auto, unfolding(crate::specs::Contents::neighbours_at, crate::specs::Contents::point_at, ojp_values::specs::Texts::same))]
    pub fn neighbours_at(&self, stop: &StopRef) -> &[Neighbour]
        ensures { result.now ≡ neighbours_at self.now stop.now }
    {
        neighbours_of(self.points.as_slice(), stop)
    }

    /// Declares the region.
    pub fn set_region(&mut self, code: &Code)
        ensures { self.new ≡ grown self.old (Line.Region code.now) }
    {
        self.region = Some(*code);
    }

    /// Declares the zone.
    pub fn set_zone(&mut self, zone: &Zone)
        ensures { self.new ≡ grown self.old (Line.Zone zone.now) }
    {
        self.zone = *zone;
    }

    // Adds an exchange point to the points.
    fn add_point(&mut self, alloc: Global, stop: &StopRef, change: u32) -> Result<(), NoMemory>
        requires { 0 < length self.old.region }
        ensures value { OnOk result (self.new ≡ record self.old { points = with_point self.old.points (new_point self.old.region stop.now change) }) }
        ensures kept { (self.new.region ≡ self.old.region) × (self.new.zone ≡ self.old.zone) }
    {
        let point = Point {
            region: self.region(),
            stop: *stop,
            change,
            neighbours: List::new(alloc),
        };
        insert_point(&mut self.points, point)
    }

    // Adds a stop or an exchange point to the places.
    #[tactic(auto, unfolding(crate::specs::Contents::has_place, ojp_values::specs::Texts::same))]
    fn push_place(&mut self, stop: &StopRef, change: u32, name: &Name) -> Result<(), NoMemory>
        requires { has_place self.old stop.now ≡ false }
        ensures value { OnOk result (self.new ≡ record self.old { places = self.old.places ++ record { stop = stop.now; change = change; name = name.now } ∷ [] }) }
        ensures kept { (self.new.region ≡ self.old.region) × (self.new.zone ≡ self.old.zone) }
    {
        self.stops.push(stop, change, name)
    }

    /// Declares a stop, or an exchange point.
    pub fn add_place(
        &mut self,
        alloc: Global,
        stop: &StopRef,
        change: u32,
        name: &Name,
    ) -> Result<(), NoMemory>
        requires new { has_place self.old stop.now ≡ false }
        requires named { 0 < length self.old.region }
        ensures value { OnOk result (self.new ≡ grown self.old (Line.Place stop.now change name.now)) }
        ensures kept { (self.new.region ≡ self.old.region) × (self.new.zone ≡ self.old.zone) }
    {
        self.push_place(stop, change, name)?;
        if stop.is_exchange() {
            return self.add_point(alloc, stop, change);
        }
        Ok(())
    }

    /// Declares a neighbour at an exchange point.
    pub fn add_neighbour(
        &mut self,
        alloc: Global,
        stop: &StopRef,
        neighbour: &Neighbour,
    ) -> Result<(), NoMemory>
        ensures value { OnOk result (self.new ≡ grown self.old (Line.Neighbour stop.now neighbour.now)) }
        ensures kept { (self.new.region ≡ self.old.region) × (self.new.zone ≡ self.old.zone) }
    {
        insert_neighbour_at(alloc, &mut self.points, stop, neighbour)
    }

    /// Declares a service.
    pub fn add_service(&mut self, id: &Label, dates: &Dates) -> Result<(), NoMemory>
        requires { has_service self.old id.now ≡ false }
        ensures value { OnOk result (self.new ≡ grown self.old (Line.Service id.now dates.now)) }
        ensures kept { (self.new.region ≡ self.old.region) × (self.new.zone ≡ self.old.zone) }
    {
        let Ok(_) = self.services.insert(*id, *dates) else {
            return Err(NoMemory);
        };
        Ok(())
    }

    /// Declares a journey of the service of that number, whose calls follow.
    pub fn add_journey_of(
        &mut self,
        id: &Label,
        line: &Label,
        service: usize,
    ) -> Result<(), NoMemory>
        requires { has_journey self.old id.now ≡ false }
        ensures value { OnOk result (self.new ≡ record self.old { journeys = self.old.journeys ++ record { id = id.now; line = line.now; service = service; calls = [] } ∷ [] }) }
        ensures kept { (self.new.region ≡ self.old.region) × (self.new.zone ≡ self.old.zone) }
    {
        let head = Head {
            line: *line,
            service,
            first_call: self.stops.calls(),
        };
        let Ok(_) = self.journeys.insert(*id, head) else {
            return Err(NoMemory);
        };
        Ok(())
    }

    /// Declares a journey, whose calls follow.
    pub fn add_journey(&mut self, id: &Label, service: &Label, line: &Label) -> Result<(), NoMemory>
        requires { has_journey self.old id.now ≡ false }
        ensures value { OnOk result (self.new ≡ grown self.old (Line.Journey id.now service.now line.now)) }
        ensures kept { (self.new.region ≡ self.old.region) × (self.new.zone ≡ self.old.zone) }
    {
        let number = self.service_number(service).unwrap_or(0);
        self.add_journey_of(id, line, number)
    }

    /// Adds a call, as it is kept, to the last journey.
    pub fn add_call(&mut self, kept: &KeptCall) -> Result<(), NoMemory>
        requires { IsKeptByNumber self.old.places kept.now }
        ensures value { OnOk result (self.new ≡ grown self.old (Line.Call (call_kept self.old.places kept.now))) }
        ensures kept { (self.new.region ≡ self.old.region) × (self.new.zone ≡ self.old.zone) }
    {
        if self.journeys.is_empty() {
            return Ok(());
        }
        let Ok(()) = self.stops.push_call(kept) else {
            return Err(NoMemory);
        };
        Ok(())
    }

    // What is kept of the call.
    fn kept(&self, call: &Call) -> KeptCall
        requires { has_place self.now call.now.stop ≡ true }
        ensures place { IsKeptByNumber self.now.places result }
        ensures call { call_kept self.now.places result ≡ call.now }
    {
        match self.place_number(&call.stop) {
            Some(place) => KeptCall {
                place,
                arrives: call.arrives,
                departs: call.departs,
            },
            None => unreachable!(),
        }
    }

    // Adds a call whose stop is looked up first.
    fn add_any_call(&mut self, call: &Call) -> Result<(), NoMemory>
        requires { has_place self.old call.now.stop ≡ true }
        ensures value { OnOk result (self.new ≡ grown self.old (Line.Call call.now)) }
        ensures kept { (self.new.region ≡ self.old.region) × (self.new.zone ≡ self.old.zone) }
    {
        let kept = self.kept(call);
        self.add_call(&kept)
    }

    /// Declares what the line declares.
    #[tactic(auto, unfolding(crate::specs::Checks::is_doubled, crate::specs::Checks::lacks_stop))]
    pub fn add(&mut self, alloc: Global, line: &Line) -> Result<(), NoMemory>
        requires new { is_doubled self.old line.now ≡ false }
        requires stop { lacks_stop self.old line.now ≡ false }
        requires named { HasRegionFor self.old line.now }
        ensures value { OnOk result (self.new ≡ grown self.old line.now) }
        ensures kept { OnErr result ((self.new.region ≡ self.old.region) × (self.new.zone ≡ self.old.zone)) }
    {
        match line {
            Line::Header => {}
            Line::Region(code) => self.set_region(code),
            Line::Zone(zone) => self.set_zone(zone),
            Line::Place(stop, change, name) => return self.add_place(alloc, stop, *change, name),
            Line::Neighbour(stop, neighbour) => return self.add_neighbour(alloc, stop, neighbour),
            Line::Service(id, dates) => return self.add_service(id, dates),
            Line::Journey(id, service, line) => return self.add_journey(id, service, line),
            Line::Call(call) => return self.add_any_call(call),
        }
        Ok(())
    }

    /// The zone.
    pub fn zone(&self) -> &Zone
        ensures { result.now ≡ self.now.zone }
    {
        &self.zone
    }

    /// The change time and the name of the stop, if it stands above.
    pub fn place_facts(&self, stop: &StopRef) -> Option<PlaceFacts>
        ensures { result ≡ option_map facts_of (find (λ (place : PlaceValue). bytes_eq stop.now place.stop) self.now.places) }
    {
        self.stops.facts(stop)
    }

    /// The number of the place, in the order of the file.
    #[tactic(auto, unfolding(crate::specs::Contents::has_place, ojp_values::specs::Texts::same))]
    pub fn place_number(&self, stop: &StopRef) -> Option<usize>
        ensures first { result ≡ position (λ (place : PlaceValue). bytes_eq stop.now place.stop) self.now.places }
        ensures known { is_some result ≡ has_place self.now stop.now }
    {
        self.stops.number(stop)
    }

    /// The number of the place whose reference the text is, where it stands above, and the outer `None` where the text
    /// is no reference.
    #[inline(always)]
    #[tactic(auto, unfolding(crate::specs::Contents::has_place, ojp_values::specs::Texts::same))]
    pub fn stop_of(&self, text: &[u8]) -> Option<Option<usize>>
        ensures exact { IsSome result ↔ IsTrue (is_stop_ref text.now) }
        ensures first { IfSome result (λ found. found ≡ position (λ (place : PlaceValue). bytes_eq text.now place.stop) self.now.places) }
        ensures known { IfSome result (λ found. is_some found ≡ has_place self.now text.now) }
    {
        self.stops.read(text)
    }

    /// The exchange points by rising reference.
    pub fn point_slice(&self) -> &[Point]
        ensures { result.now ≡ self.now.points }
    {
        self.points.as_slice()
    }

    /// The place of that number, in the order of the file.
    pub fn place_at(&self, i: usize) -> Option<PlaceView>
        ensures { result ≡ option_map place_view (slice_get self.now.places i) }
    {
        self.stops.place_at(i)
    }

    /// The stop of the place of that number, which is the number of no other stop.
    pub fn stop_at(&self, i: usize) -> StopRef
        requires { i < length self.now.places }
        ensures { HasNumber self.now.places result i }
    {
        self.stops.stop(i)
    }

    /// The days of the service of that number.
    pub fn dates_at(&self, i: usize) -> Option<Dates>
        ensures { result ≡ option_map dates_of (slice_get self.now.services i) }
    {
        match self.services.get_index(i) {
            None => None,
            Some((_, dates)) => Some(*dates),
        }
    }

    /// How many calls the journey of that number has, and 0 where there is no such journey.
    pub fn calls_at(&self, i: usize) -> usize
        ensures { result ≡ length (calls_at self.now.journeys i) }
    {
        let Some((_, head)) = head_at(&self.journeys, i) else {
            return 0;
        };
        end_at(&self.journeys, i, self.stops.calls()) - head.first_call
    }

    /// The call at that position of the journey of that number, with the number of its stop.
    pub fn call_at(&self, i: usize, position: usize) -> Option<FoundCall>
        ensures call { option_map (λ (found : FoundCallValue). found.call) result ≡ slice_get (calls_at self.now.journeys i) position }
        ensures place { IfSome result (IsAtPlace self.now.places) }
    {
        let Some((_, head)) = head_at(&self.journeys, i) else {
            return None;
        };
        let end = end_at(&self.journeys, i, self.stops.calls());
        if position >= end - head.first_call {
            return None;
        }
        self.stops.call_at(head.first_call + position)
    }

    /// The calls of the journey of that number as they are kept, and none where there is no such journey.
    pub fn kept_calls(&self, i: usize) -> &[KeptCall]
        ensures calls { map (call_kept self.now.places) result.now ≡ calls_at self.now.journeys i }
        ensures places { AreAtPlaces self.now.places result.now }
    {
        let Some(first) = first_call(&self.journeys, i) else {
            return &[];
        };
        let end = end_at(&self.journeys, i, self.stops.calls());
        &self.stops.kept_calls()[first..end]
    }

    /// The number of the service of the journey of that number.
    pub fn service_at(&self, i: usize) -> Option<usize>
        ensures { result ≡ option_map (λ (journey : JourneyValue). journey.service) (slice_get self.now.journeys i) }
    {
        match self.journeys.get_index(i) {
            None => None,
            Some((_, head)) => Some(head.service),
        }
    }

    /// The journey of that number.
    pub fn journey_at(&self, i: usize) -> Option<JourneyView>
        ensures { result ≡ option_map view_of (slice_get self.now.journeys i) }
    {
        let Some(entry) = head_at(&self.journeys, i) else {
            return None;
        };
        let calls = self.calls_at(i);
        Some(view_of(&entry, calls))
    }
}
