//! Reading what a line says.
ghost use Rattle.std.specs.Prelude.{◌≡◌, ◌≤◌, ◌↔◌, true, false, IsTrue, IsSome, IfSome, MatchOption, IfOk, OnOk, ◌∷◌, [], List, ℕ, codes, is_some};
ghost use Rattle.std.specs.List.{list_all};
ghost use Rattle.ojp_values.specs.Texts.{is_stop_ref, same};
ghost use Rattle.ojp_values.specs.declared.moments.TheConstants.{FIRST_DAY, LAST_DAY};
ghost use Rattle.ojp_timetable.specs.Lines.{IsWellLine, left_by, left_open};
ghost use Rattle.ojp_timetable.specs.Runs.{IsOffset};
ghost use Rattle.ojp_timetable.specs.Contents.{has_place};
ghost use Rattle.ojp_timetable.specs.Kept.{IsLookedUp};
ghost use Rattle.ojp_timetable.specs.WellContents.{GoesOnFrom, MayStand, MayStandClosed};
ghost use Rattle.ojp_timetable.specs.Fields.{fields_of, IsNotThree, IsNotTwo};
ghost use Rattle.ojp_timetable.specs.Said.{are_marks, call_fields, call_of, call_said, called, day_of, entry_said, header_said, is_closed, is_dash, is_mark, is_offset, journey_fields, journey_said, journeyed, marks_of, may_call, neighbour_fields, neighbour_said, offset, place_fields, place_said, region_said, said, service_fields, service_said, word_fields, zone_said};

use crate::calls::Call;
use crate::draft::Draft;
use crate::file::fields::{Fields, is_same};
use crate::file::lines::{Dates, Line, Open, TableReason};
use crate::file::read_words::word_of;
use crate::file::words::Word;
use crate::kept::{SaidCall, SaidJourney};
use ojp_values::{Code, Day, Label, Name, Neighbour, StopRef};
use ojp_zones::numbers::read_number;
use ojp_zones::zone_text::read_zone;

// A stop with its change time and its name.
fn read_place(shared: bool, stop: &[u8], change: &[u8], name: &[u8]) -> Result<Line, TableReason>
    ensures value { result ≡ place_said shared stop.now change.now name.now }
    ensures well { IfOk result (IsWellLine 3) }
    ensures stands { IfOk result MayStandClosed }
{
    let Some(stop) = StopRef::from_bytes(stop) else {
        return Err(TableReason::Value);
    };
    if stop.is_exchange() != shared {
        return Err(TableReason::Value);
    }
    let Some(change) = read_number(change, 1, 7200) else {
        return Err(TableReason::Value);
    };
    let Some(name) = Name::from_bytes(name) else {
        return Err(TableReason::Value);
    };
    Ok(Line::Place(stop, change, name))
}

// A neighbour at an exchange point, of another region than this one.
fn read_neighbour(
    region: &[u8],
    stop: &[u8],
    code: &[u8],
    change: &[u8],
) -> Result<Line, TableReason>
    ensures value { result ≡ neighbour_said region.now stop.now code.now change.now }
    ensures well { IfOk result (IsWellLine 3) }
    ensures stands { IfOk result MayStandClosed }
{
    let Some(stop) = StopRef::from_bytes(stop) else {
        return Err(TableReason::Value);
    };
    let Some(code) = Code::from_bytes(code) else {
        return Err(TableReason::Value);
    };
    if is_same(code.text(), region) {
        return Err(TableReason::Value);
    }
    let Some(change) = read_number(change, 1, 7200) else {
        return Err(TableReason::Value);
    };
    Ok(Line::Neighbour(stop, Neighbour { code, change }))
}

fn all_marks(text: &[u8]) -> bool
    ensures { result ≡ list_all is_mark text.now }
{
    text.iter().all(|b| *b == b'0' || *b == b'1')
}

// Whether the text is seven marks.
fn are_marks(text: &[u8]) -> bool
    ensures { result ≡ are_marks text.now }
{
    if text.len() != 7 {
        return false;
    }
    all_marks(text)
}

// The weekdays of seven marks, Monday first.
fn read_marks(text: &[u8]) -> Option<[bool; 7]>
    ensures { MatchOption result (are_marks text.now ≡ false) (λ marks. (are_marks text.now ≡ true) × (marks ≡ marks_of text.now)) }
{
    if !are_marks(text) {
        return None;
    }
    match text {
        [a, b, c, d, e, f, g] => Some([
            *a == b'1',
            *b == b'1',
            *c == b'1',
            *d == b'1',
            *e == b'1',
            *f == b'1',
            *g == b'1',
        ]),
        _ => None,
    }
}

// The number of the operating day that the text spells.
fn read_day(text: &[u8]) -> Option<u32>
    ensures value { result ≡ day_of text.now }
    ensures within { IfSome result (λ day. (FIRST_DAY ≤ day) × (day ≤ LAST_DAY)) }
{
    let day = Day::read(text)?;
    Some(day.number())
}

// A service with its first and last day and its weekdays.
fn read_service(id: &[u8], first: &[u8], last: &[u8], marks: &[u8]) -> Result<Line, TableReason>
    ensures value { result ≡ service_said id.now first.now last.now marks.now }
    ensures well { IfOk result (IsWellLine 3) }
    ensures stands { IfOk result MayStandClosed }
{
    let Some(id) = Label::from_bytes(id) else {
        return Err(TableReason::Value);
    };
    let Some(first) = read_day(first) else {
        return Err(TableReason::Value);
    };
    let Some(last) = read_day(last) else {
        return Err(TableReason::Value);
    };
    let Some(marks) = read_marks(marks) else {
        return Err(TableReason::Value);
    };
    if last < first {
        return Err(TableReason::Value);
    }
    Ok(Line::Service(id, Dates { first, last, marks }))
}

// The labels of a journey, of its service and of its line.
fn read_labels(id: &[u8], service: &[u8], line: &[u8]) -> Result<SaidJourney, TableReason>
    ensures { journeyed result ≡ journey_said id.now service.now line.now }
{
    let Some(id) = Label::from_bytes(id) else {
        return Err(TableReason::Value);
    };
    let Some(service) = Label::from_bytes(service) else {
        return Err(TableReason::Value);
    };
    let Some(line) = Label::from_bytes(line) else {
        return Err(TableReason::Value);
    };
    Ok(SaidJourney { id, service, line })
}

// Whether the text is `-`.
#[tactic(auto, unfolding(ojp_values::specs::Texts::same))]
fn is_dash(text: &[u8]) -> bool
    ensures { result ≡ is_dash text.now }
{
    matches!(text, [b'-'])
}

// An offset or `-`; the outer `None` where the text is neither. Inlined, its loops would want for registers.
#[inline(never)]
#[tactic(auto, unfolding(crate::specs::Said::is_offset, crate::specs::Said::offset))]
fn read_offset(text: &[u8]) -> Option<Option<u32>>
    ensures exact { IsSome result ↔ IsTrue (is_offset text.now) }
    ensures value { IfSome result (λ found. found ≡ offset text.now) }
    ensures within { IfSome result IsOffset }
{
    if is_dash(text) {
        return Some(None);
    }
    let number = read_number(text, 0, 129_600)?;
    Some(Some(number))
}

// A call with its arrival and its departure.
#[inline(always)]
fn read_call<'a>(
    draft: &Draft,
    stop: &'a [u8],
    arrives: &[u8],
    departs: &[u8],
) -> Result<SaidCall<'a>, TableReason>
    ensures value { called result ≡ call_said stop.now arrives.now departs.now }
    ensures within { IfOk result (λ said. IsOffset said.arrives × IsOffset said.departs) }
    ensures place { IfOk result (IsLookedUp draft.now.places) }
    ensures known { IfOk result (λ said. is_some said.place ≡ has_place draft.now said.stop.now) }
    ensures stop { IfOk result (λ said. IsTrue (is_stop_ref said.stop.now)) }
{
    let Some(place) = draft.stop_of(stop) else {
        return Err(TableReason::Value);
    };
    let Some(arrives) = read_offset(arrives) else {
        return Err(TableReason::Value);
    };
    let Some(departs) = read_offset(departs) else {
        return Err(TableReason::Value);
    };
    Ok(SaidCall {
        stop,
        place,
        arrives,
        departs,
    })
}

/// Whether a declaration may stand here.
pub fn is_closed(left: &Open) -> bool
    ensures { result ≡ is_closed left.now }
{
    match left {
        Open::Nothing => true,
        Open::Begun => false,
        Open::Since(_) => false,
    }
}

/// What the line leaves open.
pub fn left_open(line: &Line) -> Open
    ensures { result ≡ left_open line.now }
{
    match line {
        Line::Header | Line::Region(_) | Line::Zone(_) => Open::Nothing,
        Line::Place(_, _, _) | Line::Neighbour(_, _) | Line::Service(_, _) => Open::Nothing,
        Line::Journey(_, _, _) => Open::Begun,
        Line::Call(call) => left_by(call.departs),
    }
}

/// What a call with this departure leaves open.
pub fn left_by(departs: Option<u32>) -> Open
    ensures { result ≡ left_by departs }
{
    match departs {
        None => Open::Nothing,
        Some(departs) => Open::Since(departs),
    }
}

// Whether a call with this arrival and departure may stand here.
fn may_call(left: &Open, arrives: &[u8], departs: &[u8]) -> bool
    ensures { result ≡ may_call left.now arrives.now departs.now }
{
    match left {
        Open::Nothing => false,
        Open::Begun => is_dash(arrives) && !is_dash(departs),
        Open::Since(_) => !is_dash(arrives),
    }
}

// The fields behind `stop`, or behind `exchange` where the place is shared.
fn read_place_fields(shared: bool, fields: &mut Fields<'_>) -> Result<Line, TableReason>
    ensures value { result ≡ place_fields shared fields.old }
    ensures well { IfOk result (IsWellLine 3) }
    ensures stands { IfOk result MayStandClosed }
{
    let Some(stop) = fields.next() else {
        return Err(TableReason::LineForm);
    };
    let Some(change) = fields.next() else {
        return Err(TableReason::LineForm);
    };
    let Some(name) = fields.rest() else {
        return Err(TableReason::LineForm);
    };
    read_place(shared, stop, change, name)
}

// The three fields that are left, if so many are.
#[inline(always)]
fn three<'a>(fields: &mut Fields<'a>) -> Option<(&'a [u8], &'a [u8], &'a [u8])>
    ensures { MatchOption result (IsNotThree fields.old) (λ found. fields.old ≡ found.0.now ∷ found.1.now ∷ found.2.now ∷ []) }
{
    let first = fields.next()?;
    let second = fields.next()?;
    let third = fields.next()?;
    match fields.next() {
        None => Some((first, second, third)),
        Some(_) => None,
    }
}

// The fields behind `neighbour`.
fn read_neighbour_fields(region: &[u8], fields: &mut Fields<'_>) -> Result<Line, TableReason>
    ensures value { result ≡ neighbour_fields region.now fields.old }
    ensures well { IfOk result (IsWellLine 3) }
    ensures stands { IfOk result MayStandClosed }
{
    match three(fields) {
        Some((stop, code, change)) => read_neighbour(region, stop, code, change),
        None => Err(TableReason::LineForm),
    }
}

// The fields behind `service`.
fn read_service_fields(fields: &mut Fields<'_>) -> Result<Line, TableReason>
    ensures value { result ≡ service_fields fields.old }
    ensures well { IfOk result (IsWellLine 3) }
    ensures stands { IfOk result MayStandClosed }
{
    let Some(id) = fields.next() else {
        return Err(TableReason::LineForm);
    };
    match three(fields) {
        Some((first, last, marks)) => read_service(id, first, last, marks),
        None => Err(TableReason::LineForm),
    }
}

// The labels behind `journey`.
#[inline(always)]
fn read_label_fields(fields: &mut Fields<'_>) -> Result<SaidJourney, TableReason>
    ensures { journeyed result ≡ journey_fields fields.old }
{
    match three(fields) {
        Some((id, service, line)) => read_labels(id, service, line),
        None => Err(TableReason::LineForm),
    }
}

// The fields behind `journey`.
fn read_journey_fields(fields: &mut Fields<'_>) -> Result<Line, TableReason>
    ensures value { result ≡ journey_fields fields.old }
    ensures well { IfOk result (IsWellLine 3) }
    ensures stands { IfOk result MayStandClosed }
{
    match read_label_fields(fields) {
        Ok(said) => Ok(Line::Journey(said.id, said.service, said.line)),
        Err(reason) => Err(reason),
    }
}

// The fields behind `call`.
#[inline(always)]
fn read_call_fields<'a>(
    draft: &Draft,
    left: &Open,
    fields: &mut Fields<'a>,
) -> Result<SaidCall<'a>, TableReason>
    ensures value { called result ≡ call_fields left.now fields.old }
    ensures within { IfOk result (λ said. IsOffset said.arrives × IsOffset said.departs) }
    ensures stands { IfOk result (λ said. GoesOnFrom left.now (call_of said)) }
    ensures place { IfOk result (IsLookedUp draft.now.places) }
    ensures known { IfOk result (λ said. is_some said.place ≡ has_place draft.now said.stop.now) }
    ensures stop { IfOk result (λ said. IsTrue (is_stop_ref said.stop.now)) }
{
    match three(fields) {
        Some((stop, arrives, departs)) => {
            if may_call(left, arrives, departs) {
                read_call(draft, stop, arrives, departs)
            } else {
                Err(TableReason::LineForm)
            }
        }
        None => Err(TableReason::LineForm),
    }
}

/// What stands behind the word of a call, where the line begins with it and a space.
pub fn behind_call(line: &[u8]) -> Option<&[u8]>
    ensures { IfSome result (λ rest. fields_of line.now ≡ codes "call" ∷ fields_of rest.now) }
{
    match line {
        [b'c', b'a', b'l', b'l', b' ', rest @ ..] => Some(rest),
        _ => None,
    }
}

/// What stands behind the word of a journey, where the line begins with it and a space.
pub fn behind_journey(line: &[u8]) -> Option<&[u8]>
    ensures { IfSome result (λ rest. fields_of line.now ≡ codes "journey" ∷ fields_of rest.now) }
{
    match line {
        [b'j', b'o', b'u', b'r', b'n', b'e', b'y', b' ', rest @ ..] => Some(rest),
        _ => None,
    }
}

/// The journey of a line below the third, where this stands behind its word.
pub fn read_journey_line(left: &Open, rest: &[u8]) -> Result<SaidJourney, TableReason>
    ensures value { (region : List ℕ) → journeyed result ≡ entry_said region left.now (codes "journey" ∷ fields_of rest.now) }
    ensures stands { OnOk result (is_closed left.now ≡ true) }
{
    if !is_closed(left) {
        return Err(TableReason::LineForm);
    }
    let mut fields = Fields::new(rest);
    read_label_fields(&mut fields)
}

/// The call of a line below the third, where this stands behind its word.
pub fn read_call_line<'a>(
    draft: &Draft,
    left: &Open,
    rest: &'a [u8],
) -> Result<SaidCall<'a>, TableReason>
    ensures value { (region : List ℕ) → called result ≡ entry_said region left.now (codes "call" ∷ fields_of rest.now) }
    ensures within { IfOk result (λ said. IsOffset said.arrives × IsOffset said.departs) }
    ensures stands { IfOk result (λ said. GoesOnFrom left.now (call_of said)) }
    ensures place { IfOk result (IsLookedUp draft.now.places) }
    ensures known { IfOk result (λ said. is_some said.place ≡ has_place draft.now said.stop.now) }
{
    let mut fields = Fields::new(rest);
    read_call_fields(draft, left, &mut fields)
}

// The call that a line says.
fn call_of(said: &SaidCall<'_>) -> Call
    requires { IsTrue (is_stop_ref said.now.stop.now) }
    ensures { result ≡ call_of said.now }
{
    match StopRef::from_bytes(said.stop) {
        Some(stop) => Call {
            stop,
            arrives: said.arrives,
            departs: said.departs,
        },
        None => unreachable!(),
    }
}

// A call as a line.
fn call_line(read: Result<SaidCall<'_>, TableReason>) -> Result<Line, TableReason>
    requires { IfOk read (λ said. IsTrue (is_stop_ref said.stop.now)) }
    ensures { result ≡ called read.entry }
{
    match read {
        Ok(said) => Ok(Line::Call(call_of(&said))),
        Err(reason) => Err(reason),
    }
}

// The fields behind the word.
fn read_word_fields(
    draft: &Draft,
    left: &Open,
    word: Word,
    fields: &mut Fields<'_>,
) -> Result<Line, TableReason>
    ensures value { result ≡ word_fields draft.now.region left.now word fields.old }
    ensures well { IfOk result (IsWellLine 3) }
    ensures stands { IfOk result (MayStand left.now) }
{
    if word == Word::Call {
        return call_line(read_call_fields(draft, left, fields));
    }
    if !is_closed(left) {
        return Err(TableReason::LineForm);
    }
    match word {
        Word::Call => Err(TableReason::LineForm),
        Word::Journey => read_journey_fields(fields),
        Word::Stop => read_place_fields(false, fields),
        Word::Exchange => read_place_fields(true, fields),
        Word::Neighbour => read_neighbour_fields(draft.region_text(), fields),
        Word::Service => read_service_fields(fields),
    }
}

// A line below the third.
#[tactic(auto, unfolding(crate::specs::Said::entry_fields))]
fn read_entry(draft: &Draft, left: &Open, line: &[u8]) -> Result<Line, TableReason>
    ensures value { result ≡ entry_said draft.now.region left.now (fields_of line.now) }
    ensures well { IfOk result (IsWellLine 3) }
    ensures stands { IfOk result (MayStand left.now) }
{
    let mut fields = Fields::new(line);
    let Some(word) = fields.next() else {
        return Err(TableReason::LineForm);
    };
    match word_of(word) {
        None => Err(TableReason::LineForm),
        Some(word) => read_word_fields(draft, left, word, &mut fields),
    }
}

// Line 1.
fn read_header(line: &[u8]) -> Result<Line, TableReason>
    ensures value { result ≡ header_said line.now }
    ensures well { IfOk result (IsWellLine 0) }
    ensures stands { IfOk result (λ line. (left : Open) → MayStand left line) }
{
    if is_same(line, b"ojp-timetable 1") {
        Ok(Line::Header)
    } else {
        Err(TableReason::LineForm)
    }
}

// The two fields of the line, if it has so many.
fn two<'a>(line: &'a [u8]) -> Option<(&'a [u8], &'a [u8])>
    ensures { MatchOption result (IsNotTwo (fields_of line.now)) (λ found. fields_of line.now ≡ found.0.now ∷ found.1.now ∷ []) }
{
    let mut fields = Fields::new(line);
    let first = fields.next()?;
    let second = fields.next()?;
    match fields.next() {
        None => Some((first, second)),
        Some(_) => None,
    }
}

// Line 2.
fn read_region(line: &[u8]) -> Result<Line, TableReason>
    ensures value { result ≡ region_said (fields_of line.now) }
    ensures well { IfOk result (IsWellLine 1) }
    ensures stands { IfOk result (λ line. (left : Open) → MayStand left line) }
{
    let Some((word, code)) = two(line) else {
        return Err(TableReason::LineForm);
    };
    if !is_same(word, b"region") {
        return Err(TableReason::LineForm);
    }
    match Code::from_bytes(code) {
        Some(code) => Ok(Line::Region(code)),
        None => Err(TableReason::Value),
    }
}

// Line 3.
fn read_zone_line(line: &[u8]) -> Result<Line, TableReason>
    ensures value { result ≡ zone_said (fields_of line.now) }
    ensures well { IfOk result (IsWellLine 2) }
    ensures stands { IfOk result (λ line. (left : Open) → MayStand left line) }
{
    let Some((word, zone)) = two(line) else {
        return Err(TableReason::LineForm);
    };
    if !is_same(word, b"zone") {
        return Err(TableReason::LineForm);
    }
    match read_zone(zone) {
        Some(zone) => Ok(Line::Zone(zone)),
        None => Err(TableReason::BadZone),
    }
}

/// What the line says by its form and its values, where so many lines are above it, which declare the
/// draft, and the last of them leaves this open.
#[tactic(auto, unfolding(crate::specs::Said::said))]
pub fn read_said(above: u64, draft: &Draft, left: &Open, line: &[u8]) -> Result<Line, TableReason>
    ensures value { result ≡ said above draft.now.region left.now line.now }
    ensures well { IfOk result (IsWellLine above) }
    ensures stands { IfOk result (MayStand left.now) }
{
    if above == 0 {
        return read_header(line);
    }
    if above == 1 {
        return read_region(line);
    }
    if above == 2 {
        return read_zone_line(line);
    }
    read_entry(draft, left, line)
}
