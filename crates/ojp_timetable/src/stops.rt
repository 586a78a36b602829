//! The stops of a timetable and the calls at them.
ghost use Rattle.std.specs.Prelude.{◌≡◌, ◌<◌, ◌↔◌, false, is_some, IfOk, IfSome, IsSome, IsTrue, OnOk, OnErr, length, map, option_map, find, bytes_eq, position, slice_get, [], ◌∷◌, ◌++◌};
ghost use Rattle.std.specs.List.{list_any};
ghost use Rattle.std.specs.Cmp.Lexicographic.{bytes_decides, nat_list_eq_equiv};
ghost use Rattle.std.specs.Hash as fed;
ghost use Rattle.std.specs.Cmp.Rules.{hashing};
ghost use Rattle.std.proofs.Common.{ap, rules};
ghost use Rattle.ojp_values.specs.Texts.{is_stop_ref};

use crate::calls::Call;
use crate::kept::{FoundCall, KeptCall, PlaceFacts, PlaceView};
use indexmap::{Equivalent, IndexMap};
use ojp_values::{Name, NoMemory, StopRef};
use std::alloc::Global;
use std::hash::{Hash, Hasher};
use std::marker::Model;

/// The text of a stop's reference, by which the stop is looked up before it is read.
#[derive(Clone, Copy, PartialEq, Eq)]
struct StopText<'a> {
    text: &'a [u8],
}

impl<'a> Hash for StopText<'a> {
    ghost hash_input = { λ stop. fed.str stop.text.now };

    ghost respects_eq = { Prim.search (hashing, rules) };

    fn hash<H: Hasher>(&self, state: &mut H) {
        state.write(self.text);
        state.write_u8(0xff);
    }
}

impl<'a> Equivalent<StopRef> for StopText<'a> {
    ghost equivalent = { λ stop key. bytes_eq stop.text.now key };

    ghost respects_hash = { λ stop key h. ap fed.str ((bytes_decides stop.text.now key).0 h) };

    ghost respects_eq = { λ stop x y. nat_list_eq_equiv.congr stop.text.now x y };

    fn equivalent(&self, key: &StopRef) -> bool {
        self.text == key.text()
    }
}

/// The stops with the exchange points, in the order of the file, and the calls at them in one row,
/// each of which is kept by the number of its stop.
#[derive(Drop)]
pub struct Stops {
    facts: IndexMap<StopRef, PlaceFacts>,
    kept: Vec<KeptCall>,
}

impl Model for Stops {
    ghost use Rattle.std.specs.Prelude.{map, length};
    ghost use Rattle.ojp_timetable.specs.Kept.{AreAtPlaces, StopsAndCalls, call_kept, place_kept};

    ghost Value = { StopsAndCalls };

    ghost view = { λ s. record { places = map place_kept s.facts.entries; calls = map (call_kept (map place_kept s.facts.entries)) s.kept.items } };

    ghost invariant = { λ s. AreAtPlaces (map place_kept s.facts.entries) s.kept.items };
}

impl Stops {
    ghost use Rattle.ojp_timetable.specs.Kept.{AreAtPlaces, HasNumber, IsAtPlace, IsKeptByNumber, call_kept, facts_of, no_stops, stop_of};
    ghost use Rattle.ojp_timetable.specs.declared.kept.FoundCall.{FoundCall as FoundCallValue};
    ghost use Rattle.ojp_timetable.specs.Tables.{Place as PlaceValue};
    ghost use Rattle.ojp_timetable.specs.Views.{place_view};

    /// Neither stops nor calls; takes no memory.
    pub fn new(alloc: Global) -> Stops
        ensures { result ≡ no_stops }
    {
        Stops {
            facts: IndexMap::new(alloc),
            kept: Vec::new(alloc),
        }
    }

    /// Neither stops nor calls, with room for so many.
    pub fn with_room(alloc: Global, places: usize, calls: usize) -> Result<Stops, NoMemory>
        ensures { IfOk result (λ stops. stops ≡ no_stops) }
    {
        let Ok(facts) = IndexMap::with_capacity(alloc, places) else {
            return Err(NoMemory);
        };
        let Ok(kept) = Vec::with_capacity(alloc, calls) else {
            return Err(NoMemory);
        };
        Ok(Stops { facts, kept })
    }

    /// Whether the stop is one of them.
    pub fn has(&self, stop: &StopRef) -> bool
        ensures { result ≡ list_any (λ (place : PlaceValue). bytes_eq stop.now place.stop) self.now.places }
    {
        self.facts.contains_key(stop)
    }

    /// The number of the stop, in the order of the file.
    pub fn number(&self, stop: &StopRef) -> Option<usize>
        ensures first { result ≡ position (λ (place : PlaceValue). bytes_eq stop.now place.stop) self.now.places }
        ensures known { is_some result ≡ list_any (λ (place : PlaceValue). bytes_eq stop.now place.stop) self.now.places }
    {
        self.facts.get_index_of(stop)
    }

    // The number of the stop whose reference has the text.
    fn number_of(&self, text: &[u8]) -> Option<usize>
        ensures first { result ≡ position (λ (place : PlaceValue). bytes_eq text.now place.stop) self.now.places }
        ensures known { is_some result ≡ list_any (λ (place : PlaceValue). bytes_eq text.now place.stop) self.now.places }
    {
        self.facts.get_index_of(StopText { text })
    }

    /// The number of the stop whose reference the text is, where it is one of them, and the outer `None` where the text
    /// is no reference. The text of one of them is not read anew.
    pub fn read(&self, text: &[u8]) -> Option<Option<usize>>
        ensures exact { IsSome result ↔ IsTrue (is_stop_ref text.now) }
        ensures first { IfSome result (λ found. found ≡ position (λ (place : PlaceValue). bytes_eq text.now place.stop) self.now.places) }
        ensures known { IfSome result (λ found. is_some found ≡ list_any (λ (place : PlaceValue). bytes_eq text.now place.stop) self.now.places) }
    {
        match self.number_of(text) {
            Some(number) => {
                let stop = self.stop_at(number);
                stop.text();
                Some(Some(number))
            }
            None => {
                let _ = StopRef::from_bytes(text)?;
                Some(None)
            }
        }
    }

    /// The change time and the name of the stop.
    pub fn facts(&self, stop: &StopRef) -> Option<PlaceFacts>
        ensures { result ≡ option_map facts_of (find (λ (place : PlaceValue). bytes_eq stop.now place.stop) self.now.places) }
    {
        self.facts.get(stop).copied()
    }

    /// How many stops there are.
    pub fn places(&self) -> usize
        ensures { result ≡ length self.now.places }
    {
        self.facts.len()
    }

    /// How many calls there are.
    pub fn calls(&self) -> usize
        ensures { result ≡ length self.now.calls }
    {
        self.kept.as_slice().len()
    }

    /// The stop of that number.
    pub fn place_at(&self, i: usize) -> Option<PlaceView>
        ensures { result ≡ option_map place_view (slice_get self.now.places i) }
    {
        match self.facts.get_index(i) {
            None => None,
            Some((stop, facts)) => Some(PlaceView {
                stop: *stop,
                change: facts.change,
                name: facts.name,
            }),
        }
    }

    // The reference of the stop of that number.
    fn stop_at(&self, i: usize) -> StopRef
        requires { i < length self.now.places }
        ensures { result ≡ stop_of self.now.places i }
    {
        match self.facts.get_index(i) {
            None => unreachable!(),
            Some((stop, _)) => *stop,
        }
    }

    /// The stop of that number, which is the number of no other.
    pub fn stop(&self, i: usize) -> StopRef
        requires { i < length self.now.places }
        ensures { HasNumber self.now.places result i }
    {
        match self.facts.as_slice().get_index(i) {
            None => unreachable!(),
            Some((stop, _)) => *stop,
        }
    }

    // The call that is kept so.
    fn found(&self, kept: &KeptCall) -> FoundCall
        requires { kept.now.place < length self.now.places }
        ensures call { result.call ≡ call_kept self.now.places kept.now }
        ensures place { result.place ≡ kept.now.place }
    {
        let call = Call {
            stop: self.stop_at(kept.place),
            arrives: kept.arrives,
            departs: kept.departs,
        };
        FoundCall {
            call,
            place: kept.place,
        }
    }

    /// The call of that number in the row.
    pub fn call_at(&self, i: usize) -> Option<FoundCall>
        ensures call { option_map (λ (found : FoundCallValue). found.call) result ≡ slice_get self.now.calls i }
        ensures place { IfSome result (IsAtPlace self.now.places) }
    {
        match self.kept.get(i) {
            None => None,
            Some(kept) => Some(self.found(kept)),
        }
    }

    /// The calls as they are kept.
    pub fn kept_calls(&self) -> &[KeptCall]
        ensures calls { map (call_kept self.now.places) result.now ≡ self.now.calls }
        ensures places { AreAtPlaces self.now.places result.now }
    {
        self.kept.as_slice()
    }

    /// Adds a stop.
    pub fn push(&mut self, stop: &StopRef, change: u32, name: &Name) -> Result<(), NoMemory>
        requires { list_any (λ (place : PlaceValue). bytes_eq stop.now place.stop) self.old.places ≡ false }
        ensures added { OnOk result (self.new.places ≡ self.old.places ++ record { stop = stop.now; change = change; name = name.now } ∷ []) }
        ensures calls { self.new.calls ≡ self.old.calls }
    {
        let facts = PlaceFacts {
            change,
            name: *name,
        };
        let Ok(_) = self.facts.insert(*stop, facts) else {
            return Err(NoMemory);
        };
        Ok(())
    }

    /// Adds a call as it is kept.
    pub fn push_call(&mut self, kept: &KeptCall) -> Result<(), NoMemory>
        requires { IsKeptByNumber self.old.places kept.now }
        ensures places { self.new.places ≡ self.old.places }
        ensures added { OnOk result (self.new.calls ≡ self.old.calls ++ call_kept self.old.places kept.now ∷ []) }
        ensures calls { OnErr result (self.new.calls ≡ self.old.calls) }
    {
        let Ok(()) = self.kept.push(*kept) else {
            return Err(NoMemory);
        };
        Ok(())
    }
}
