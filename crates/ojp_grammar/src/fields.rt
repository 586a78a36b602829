//! The values of fields.

ghost use Rattle.std.specs.Prelude.{◌≡◌, ◌≤◌, MatchOption, decimal};
ghost use Rattle.ojp_values.specs.Numbers.{Reads, duration_text};
ghost use Rattle.ojp_values.specs.declared.kinds.EventKind.{EventKind};
ghost use Rattle.ojp_grammar.specs.Fields.{Spells, event_text};
ghost use Rattle.ojp_grammar.specs.declared.fields.FieldValue.{FieldValue};

use ojp_values::{
    Code, Day, EventKind, Instant, Kind, Label, Name, StopRef, read_duration, read_number,
};

/// The value of a field, by its kind. Seconds, change times, numbers and counts are plain numbers.
#[derive(Clone, Copy, Debug, PartialEq, Eq)]
pub enum FieldValue {
    StopRef(StopRef),
    Code(Code),
    Label(Label),
    Name(Name),
    Moment(Instant),
    Day(Day),
    Seconds(u32),
    Change(u32),
    Number(u32),
    Count(u32),
    EventKind(EventKind),
}

/// The value of the kind that the text spells; none exactly where it spells none. Takes no memory.
#[tactic(auto, using(crate::proofs::OneKind::none_of_kind), unfolding(crate::specs::Fields::field_text))]
pub fn read_field(kind: Kind, text: &[u8]) -> Option<FieldValue>
    ensures { MatchOption result ((v : FieldValue) → Spells kind v text.now → ⊥) (λ v. Spells kind v text.now) }
{
    match kind {
        Kind::StopRef => StopRef::from_bytes(text).map(FieldValue::StopRef),
        Kind::Code => Code::from_bytes(text).map(FieldValue::Code),
        Kind::Label => Label::from_bytes(text).map(FieldValue::Label),
        Kind::Name => Name::read_escaped(text).map(FieldValue::Name),
        Kind::Moment => Instant::read(text).map(FieldValue::Moment),
        Kind::Day => Day::read(text).map(FieldValue::Day),
        Kind::Seconds => read_duration(text).map(FieldValue::Seconds),
        Kind::Change => read_change(text).map(FieldValue::Change),
        Kind::Number => read_result_count(text).map(FieldValue::Number),
        Kind::Count => read_number(text).map(FieldValue::Count),
        Kind::EventKind => read_event_kind(text).map(FieldValue::EventKind),
    }
}

/// A change time of 1 to 7,200 seconds, spelled `PTnS`.
fn read_change(text: &[u8]) -> Option<u32>
    ensures { Reads (λ n. (1 ≤ n) × (n ≤ 7_200)) duration_text text.now result }
{
    let seconds = read_duration(text)?;
    if seconds < 1 {
        return None;
    }
    if seconds > 7_200 {
        return None;
    }
    Some(seconds)
}

/// A number of results, 1 to 100, in decimal.
fn read_result_count(text: &[u8]) -> Option<u32>
    ensures { Reads (λ n. (1 ≤ n) × (n ≤ 100)) decimal text.now result }
{
    let number = read_number(text)?;
    if number < 1 {
        return None;
    }
    if number > 100 {
        return None;
    }
    Some(number)
}

/// `departure` or `arrival`.
fn read_event_kind(text: &[u8]) -> Option<EventKind>
    ensures { Reads (λ (e : EventKind). Unit {0}) event_text text.now result }
{
    if text == b"departure".as_slice() {
        Some(EventKind::Departure)
    } else if text == b"arrival".as_slice() {
        Some(EventKind::Arrival)
    } else {
        None
    }
}
