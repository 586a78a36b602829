//! The operator's file: `exchange x:LOCAL CHANGE STOP_ID`, `neighbour x:LOCAL CODE CHANGE` and `change CHANGE STOP_ID`, each on
//! a line of its own, where an id is the rest of its line.

ghost use Rattle.std.specs.Prelude.{◌≡◌, ◌∷◌, ◌++◌, ◌==◌, ◌&&◌, ◌⊎◌, List, [], IfErr, IfOk, IfSome, MatchOption, OnOk, codes, false, position};
ghost use Rattle.std.specs.List.{list_any};
ghost use Rattle.ojp_values.specs.Numbers.{number};
ghost use Rattle.ojp_values.specs.Texts.{Text, is_code, same};
ghost use Rattle.ojp_feed_lines.specs.IdTexts.{id_texts};
ghost use Rattle.ojp_feed_lines.specs.Lines.{Adds, IsChangeClash, IsClash, IsExchangeClash, IsFor, IsNeighbourClash, IsStopChangeFault, IsStopChangeOf, Says, StandsFor};
ghost use Rattle.ojp_feed_lines.specs.OperatorCauses.{IsLineCause, IsOperatorRefusal, IsPlain, IsSpelled, is_change, is_point};

use crate::columns::Column;
use crate::fields::read_count;
use crate::files::FeedFile;
use crate::ids::{Ids, put};
use crate::refusals::{FeedRefused, RowReason};
use ojp_feed_rows::{Exchange, NeighbourOf, Operator, StopChange};
use ojp_values::{Code, StopRef};
use ojp_zones::parts::Parts;
use std::alloc::Global;

/// The most seconds of a change.
const LONGEST_CHANGE: u32 = 7_200;

/// What the operator adds: nothing, while no line was read.
pub(crate) fn no_lines(alloc: Global) -> Operator
    ensures exchanges { result.exchanges.items ≡ [] }
    ensures neighbours { result.neighbours.items ≡ [] }
    ensures changes { result.changes.items ≡ [] }
{
    Operator {
        exchanges: Vec::new(alloc),
        neighbours: Vec::new(alloc),
        changes: Vec::new(alloc),
    }
}

/// The lines of the operator's file for the region of the code.
pub(crate) fn read_operator(
    alloc: Global,
    bytes: &[u8],
    code: Code,
    stops: &Ids,
) -> Result<Operator, FeedRefused>
    ensures refused { IfErr result (IsOperatorRefusal code (id_texts stops.now) bytes.now) }
{
    let mut operator = no_lines(alloc);
    let mut lines = Parts::new(bytes, b'\n');
    'lines: for above in 0..u64::MAX {
        let Some(text) = lines.next() else {
            return Ok(operator);
        };
        match take_line(&mut operator, text, code, stops) {
            Ok(()) => {}
            Err(Refused::NoMemory) => return Err(FeedRefused::NoMemory),
            Err(Refused::For(reason)) => {
                return Err(FeedRefused::At {
                    file: FeedFile::Operator,
                    line: above + 1,
                    reason,
                });
            }
        }
    }
    Ok(operator)
}

/// Why a line is not taken.
#[derive(Clone, Copy, Debug, PartialEq, Eq)]
enum Refused {
    For(RowReason),
    NoMemory,
}

/// What a line says.
#[derive(Clone, Copy)]
enum OperatorLine {
    /// An exchange point, and a stop that stands for it.
    Exchange(Exchange),
    /// Another region at an exchange point.
    Neighbour(NeighbourOf),
    /// A change at a stop.
    Change(StopChange),
}

/// The field up to the first space, and what stands behind that.
fn cut(text: &[u8]) -> Option<(&[u8], &[u8])>
    ensures { MatchOption result (IsPlain text.now) (λ parts. IsSpelled text.now (parts.0.now ∷ []) parts.1.now) }
{
    match first_space(text) {
        Some(place) => Some((&text[..place], &text[place + 1..])),
        None => None,
    }
}

fn first_space(text: &[u8]) -> Option<usize>
    ensures { result ≡ position (λ b. b == 32) text.now }
{
    text.iter().position(|byte| *byte == b' ')
}

/// Takes the line, whatever was taken of those above it; one without a byte says nothing.
fn take_line(operator: &mut Operator, text: &[u8], code: Code, stops: &Ids) -> Result<(), Refused>
    ensures taken { OnOk result ((above : List Text) → StandsFor (id_texts stops.now) above operator.old
        → StandsFor (id_texts stops.now) (above ++ text.now ∷ []) operator.new) }
    ensures refused { IfErr result (IsFor (λ reason. (above : List Text) → StandsFor (id_texts stops.now) above operator.old
        → IsLineCause code (id_texts stops.now) above text.now reason)) }
{
    if text.is_empty() {
        return Ok(());
    }
    match line_of(text, code, stops) {
        Ok(line) => add_line(operator, line),
        Err(reason) => Err(Refused::For(reason)),
    }
}

/// What the line says by itself.
fn line_of(text: &[u8], code: Code, stops: &Ids) -> Result<OperatorLine, RowReason>
    ensures said { IfOk result (Says (id_texts stops.now) text.now) }
    ensures refused { IfErr result (λ reason. (above : List Text) → IsLineCause code (id_texts stops.now) above text.now reason) }
{
    let Some((word, rest)) = cut(text) else {
        return Err(RowReason::LineForm);
    };
    if word == b"exchange".as_slice() {
        exchange_of(rest, stops)
    } else if word == b"neighbour".as_slice() {
        neighbour_of(rest, code)
    } else if word == b"change".as_slice() {
        match change_of(rest, stops) {
            Ok(change) => Ok(OperatorLine::Change(change)),
            Err(reason) => Err(reason),
        }
    } else {
        Err(RowReason::LineForm)
    }
}

/// `x:LOCAL CHANGE STOP_ID`
fn exchange_of(rest: &[u8], stops: &Ids) -> Result<OperatorLine, RowReason>
    ensures said { IfOk result (λ what. (line : Text) → IsSpelled line (codes "exchange" ∷ []) rest.now → Says (id_texts stops.now) line what) }
    ensures refused { IfErr result (λ reason. (code : Text) (above : List Text) (line : Text) → IsSpelled line (codes "exchange" ∷ []) rest.now
        → IsLineCause code (id_texts stops.now) above line reason) }
{
    let Some((point, rest)) = cut(rest) else {
        return Err(RowReason::LineForm);
    };
    let Some(point) = point_of(point) else {
        return Err(RowReason::Value(Column::Exchange));
    };
    match change_of(rest, stops) {
        Ok(StopChange { change, stop }) => Ok(OperatorLine::Exchange(Exchange {
            point,
            change,
            stop,
        })),
        Err(reason) => Err(reason),
    }
}

/// `x:LOCAL CODE CHANGE`
fn neighbour_of(rest: &[u8], code: Code) -> Result<OperatorLine, RowReason>
    ensures said { IfOk result (λ what. (ids : List Text) (line : Text) → IsSpelled line (codes "neighbour" ∷ []) rest.now → Says ids line what) }
    ensures refused { IfErr result (λ reason. (ids : List Text) (above : List Text) (line : Text) → IsSpelled line (codes "neighbour" ∷ []) rest.now
        → IsLineCause code ids above line reason) }
{
    let Some((point, rest)) = cut(rest) else {
        return Err(RowReason::LineForm);
    };
    let Some((region, change)) = cut(rest) else {
        return Err(RowReason::LineForm);
    };
    let Some(point) = point_of(point) else {
        return Err(RowReason::Value(Column::Exchange));
    };
    let Some(region) = other_code(region, code) else {
        return Err(RowReason::Value(Column::Code));
    };
    let Some(change) = seconds_of(change) else {
        return Err(RowReason::Value(Column::Change));
    };
    Ok(OperatorLine::Neighbour(NeighbourOf {
        point,
        region,
        change,
    }))
}

/// `CHANGE STOP_ID`
fn change_of(text: &[u8], stops: &Ids) -> Result<StopChange, RowReason>
    ensures said { IfOk result (IsStopChangeOf (id_texts stops.now) text.now) }
    ensures refused { IfErr result (IsStopChangeFault (id_texts stops.now) text.now) }
{
    let Some((change, id)) = cut(text) else {
        return Err(RowReason::LineForm);
    };
    let Some(change) = seconds_of(change) else {
        return Err(RowReason::Value(Column::Change));
    };
    let Ok(id) = str::from_utf8(id) else {
        return Err(RowReason::NotText);
    };
    match stops.number(id) {
        Some(stop) => Ok(StopChange { change, stop }),
        None => Err(RowReason::Unknown(Column::StopId)),
    }
}

/// `x:LOCAL`
fn point_of(text: &[u8]) -> Option<StopRef>
    ensures { MatchOption result (is_point text.now ≡ false) (λ point. point ≡ text.now) }
{
    match StopRef::from_bytes(text) {
        Some(point) if point.is_exchange() => Some(point),
        _ => None,
    }
}

/// The code of another region.
fn other_code(text: &[u8], own: Code) -> Option<Code>
    ensures { MatchOption result ((is_code text.now ≡ false) ⊎ (text.now ≡ own)) (λ code. code ≡ text.now) }
{
    let code = Code::from_bytes(text)?;
    if code == own { None } else { Some(code) }
}

fn seconds_of(text: &[u8]) -> Option<u32>
    ensures { MatchOption result (is_change text.now ≡ false) (λ seconds. number text.now ≡ seconds) }
{
    match read_count(text, LONGEST_CHANGE) {
        Some(seconds) if seconds > 0 => Some(seconds),
        _ => None,
    }
}

/// Adds what a line says to what those above it say.
fn add_line(operator: &mut Operator, line: OperatorLine) -> Result<(), Refused>
    ensures added { OnOk result (Adds operator.old line operator.new) }
    ensures refused { IfErr result (IsFor (IsClash operator.old line)) }
{
    match line {
        OperatorLine::Exchange(exchange) => add_exchange(&mut operator.exchanges, exchange),
        OperatorLine::Neighbour(neighbour) => add_neighbour(
            &operator.exchanges,
            &mut operator.neighbours,
            neighbour,
        ),
        OperatorLine::Change(change) => add_change(&mut operator.changes, change),
    }
}

fn add_exchange(exchanges: &mut Vec<Exchange>, exchange: Exchange) -> Result<(), Refused>
    ensures added { OnOk result (exchanges.new.items ≡ exchanges.old.items ++ exchange ∷ []) }
    ensures refused { IfErr result (IsFor (IsExchangeClash exchanges.old.items exchange)) }
{
    match clash(exchanges, &exchange) {
        Some(reason) => Err(Refused::For(reason)),
        None => added(exchanges, exchange),
    }
}

/// Why the exchange point cannot stand beside these.
fn clash(exchanges: &[Exchange], exchange: &Exchange) -> Option<RowReason>
    ensures { IfSome result (IsExchangeClash exchanges.now exchange.now) }
{
    for place in 0..exchanges.len() {
        let other = exchanges[place];
        if other.stop == exchange.stop {
            return Some(RowReason::Doubled(Column::StopId));
        }
        if other.point == exchange.point && other.change != exchange.change {
            return Some(RowReason::Value(Column::Change));
        }
    }
    None
}

fn add_neighbour(
    exchanges: &[Exchange],
    neighbours: &mut Vec<NeighbourOf>,
    neighbour: NeighbourOf,
) -> Result<(), Refused>
    ensures added { OnOk result (neighbours.new.items ≡ neighbours.old.items ++ neighbour ∷ []) }
    ensures refused { IfErr result (IsFor (IsNeighbourClash exchanges.now neighbours.old.items neighbour)) }
{
    if !has_point(exchanges, &neighbour.point) {
        return Err(Refused::For(RowReason::Unknown(Column::Exchange)));
    }
    if has_region(neighbours, &neighbour.point, &neighbour.region) {
        return Err(Refused::For(RowReason::Doubled(Column::Code)));
    }
    added(neighbours, neighbour)
}

#[tactic(auto, unfolding(ojp_values::specs::Texts::same))]
fn has_point(exchanges: &[Exchange], point: &StopRef) -> bool
    ensures { result ≡ list_any (λ other. same other.point point.now) exchanges.now }
{
    exchanges.iter().any(|other| other.point == *point)
}

#[tactic(auto, unfolding(ojp_values::specs::Texts::same))]
fn has_region(neighbours: &[NeighbourOf], point: &StopRef, region: &Code) -> bool
    ensures { result ≡ list_any (λ other. same other.point point.now && same other.region region.now) neighbours.now }
{
    neighbours
        .iter()
        .any(|other| other.point == *point && other.region == *region)
}

fn add_change(changes: &mut Vec<StopChange>, change: StopChange) -> Result<(), Refused>
    ensures added { OnOk result (changes.new.items ≡ changes.old.items ++ change ∷ []) }
    ensures refused { IfErr result (IsFor (IsChangeClash changes.old.items change)) }
{
    if has_stop(changes, change.stop) {
        return Err(Refused::For(RowReason::Doubled(Column::StopId)));
    }
    added(changes, change)
}

fn has_stop(changes: &[StopChange], stop: u32) -> bool
    ensures { result ≡ list_any (λ other. other.stop == stop) changes.now }
{
    changes.iter().any(|other| other.stop == stop)
}

fn added<T: Drop>(rows: &mut Vec<T>, row: T) -> Result<(), Refused>
    ensures put { OnOk result (rows.new.items ≡ rows.old.items ++ row ∷ []) }
    ensures memory { IfErr result (λ e. e ≡ Refused.NoMemory) }
{
    match put(rows, row) {
        Ok(()) => Ok(()),
        Err(_) => Err(Refused::NoMemory),
    }
}
