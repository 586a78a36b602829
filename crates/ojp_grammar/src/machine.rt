//! The machine: whole items of a document, one after another.
#![tactic(auto)]

ghost use Rattle.std.specs.Prelude.{◌≡◌, ◌∷◌, ◌+◌, ◌≤◌, ◌<◌, ℕ, [], Some, None, IfOk, IfSome, IsTrue, drop, length, MatchOption, MatchBool};
ghost use Rattle.ojp_grammar.specs.Steps.{syntax_of, stack_of, begins, wants, enter, leave, depth, Sticks, IsPlain, ArePlain};
ghost use Rattle.ojp_grammar.specs.Places.{IsProperPrefix, Run};
ghost use Rattle.ojp_grammar.specs.Grammar as grammar;
ghost use Rattle.ojp_grammar.specs.Items.{text};
ghost use Rattle.ojp_grammar.specs.Machine.{IsFront, IsCutText, IsCutItem, StaysCut, IsField, Finds, Advances, IsRun};
ghost use Rattle.ojp_grammar.specs.declared.machine.Passed.TheVariants.{Over};
ghost use Rattle.ojp_grammar.specs.declared.refusals.Reason.TheVariants.{Truncated};

use crate::draft::Draft;
use crate::fields::{FieldValue, read_field};
use crate::front::Front;
use crate::refusals::{Reason, Want};
use crate::shapes::{Shape, behind_trip_leg, delivery, request};
use arrayvec::ArrayVec;
use memchr::memchr;
use ojp_tables::markup::markup;
use ojp_tables::names::{END, HEAD, TRIP, TRIP_LEG};
use ojp_values::{Doc, Kind, NoMemory};
use std::alloc::Global;

/// What stands in front of bytes: a text by its number, a field by its length and its value, or why no
/// item does.
#[derive(Clone, Copy)]
pub enum Found {
    Text(u8),
    Field(usize, FieldValue),
    Stuck(Reason),
}

/// What an advance did: it passed over so many bytes, an item or a whole leg, or over nothing, for a
/// reason.
#[derive(Clone, Copy)]
pub enum Passed {
    Over(usize),
    Nothing(Reason),
}

/// The shapes that are open, of which the last is next. No document has more than 13 open at once.
pub type OpenShapes = ArrayVec<Shape, 16>;

/// What an item that is cut short may still become: a text that may come next, or a field.
#[derive(Clone, Copy)]
pub enum Cut {
    Text(u8),
    Field,
}

/// The longest text of a field, in bytes.
pub const LONGEST_FIELD: usize = 512;

/// The markup text of a number.
fn text_of(n: u8) -> &'static [u8]
    ensures { result.now ≡ text n }
{
    if n < 99 { markup().at(n as usize) } else { &[] }
}

/// The text in front, of those that the shape may begin with.
fn front(shape: &Shape, bytes: &[u8]) -> Option<u8>
    ensures { IsFront (syntax_of shape.now) bytes.now result }
{
    match *shape {
        Shape::Text(n) => {
            if bytes.starts_with(text_of(n)) {
                Some(n)
            } else {
                None
            }
        }
        Shape::Field(..) => None,
        Shape::Both(first, _) => front(first, bytes),
        Shape::Either(left, right) => match front(left, bytes) {
            Some(n) => Some(n),
            None => front(right, bytes),
        },
        Shape::Many(low, high, content, behind) => {
            let end = if low == 0 { front(behind, bytes) } else { None };
            match end {
                Some(n) => Some(n),
                None => {
                    if high == 0 {
                        None
                    } else {
                        front(content, bytes)
                    }
                }
            }
        }
        Shape::Legs(low, high) => {
            if low == 0 && bytes.starts_with(text_of(TRIP + 1)) {
                Some(TRIP + 1)
            } else if high != 0 && bytes.starts_with(text_of(TRIP_LEG)) {
                Some(TRIP_LEG)
            } else {
                None
            }
        }
    }
}

/// Whether the shape may begin with the text.
fn may_begin(shape: &Shape, n: u8) -> bool
    ensures { result ≡ begins n (syntax_of shape.now) }
{
    match *shape {
        Shape::Text(m) => m == n,
        Shape::Field(..) => false,
        Shape::Both(first, _) => may_begin(first, n),
        Shape::Either(left, right) => may_begin(left, n) || may_begin(right, n),
        Shape::Many(low, high, content, behind) => {
            (low == 0 && may_begin(behind, n)) || (high != 0 && may_begin(content, n))
        }
        Shape::Legs(low, high) => (low == 0 && TRIP + 1 == n) || (high != 0 && TRIP_LEG == n),
    }
}

/// The kind of the field that the shape begins with.
fn field_kind(shape: &Shape) -> Option<Kind>
    ensures { result ≡ wants (syntax_of shape.now) }
{
    match *shape {
        Shape::Field(kind, _) => Some(kind),
        Shape::Both(first, _) => field_kind(first),
        _ => None,
    }
}

/// Opens what stands behind a text that the shape begins with.
fn open_behind_text(stack: &mut OpenShapes, shape: &Shape, n: u8)
    requires { depth (syntax_of shape.now) + length stack.old.items ≤ 16 }
    ensures { stack_of stack.new.items ≡ enter n (syntax_of shape.now) (stack_of stack.old.items) }
{
    match *shape {
        Shape::Text(_) | Shape::Field(..) => {}
        Shape::Both(first, then) => {
            stack.push(*then);
            open_behind_text(stack, first, n);
        }
        Shape::Either(left, right) => {
            if may_begin(left, n) {
                open_behind_text(stack, left, n);
            } else {
                open_behind_text(stack, right, n);
            }
        }
        Shape::Many(low, high, content, behind) => {
            if may_begin(behind, n) {
                open_behind_text(stack, behind, n);
            } else {
                stack.push(Shape::Many(
                    low.saturating_sub(1),
                    high.saturating_sub(1),
                    content,
                    behind,
                ));
                open_behind_text(stack, content, n);
            }
        }
        Shape::Legs(low, high) => {
            if n != TRIP + 1 {
                stack.push(Shape::Legs(low.saturating_sub(1), high.saturating_sub(1)));
                stack.push(*behind_trip_leg());
            }
        }
    }
}

/// Opens what stands behind a field that the shape begins with.
fn open_behind_field(stack: &mut OpenShapes, shape: &Shape)
    requires { depth (syntax_of shape.now) + length stack.old.items ≤ 16 }
    ensures { stack_of stack.new.items ≡ leave (syntax_of shape.now) (stack_of stack.old.items) }
{
    match *shape {
        Shape::Field(_, close) => stack.push(Shape::Text(close)),
        Shape::Both(first, then) => {
            stack.push(*then);
            open_behind_field(stack, first);
        }
        _ => {}
    }
}

/// The text that the bytes may still become, of those that the shape may begin with.
fn cut_text(shape: &Shape, bytes: &[u8]) -> Option<u8>
    ensures { IsCutText (syntax_of shape.now) bytes.now result }
{
    match *shape {
        Shape::Text(n) => {
            if is_proper_prefix(bytes, text_of(n)) {
                Some(n)
            } else {
                None
            }
        }
        Shape::Field(..) => None,
        Shape::Both(first, _) => cut_text(first, bytes),
        Shape::Either(left, right) => match cut_text(left, bytes) {
            Some(n) => Some(n),
            None => cut_text(right, bytes),
        },
        Shape::Many(low, high, content, behind) => {
            let end = if low == 0 {
                cut_text(behind, bytes)
            } else {
                None
            };
            match end {
                Some(n) => Some(n),
                None => {
                    if high == 0 {
                        None
                    } else {
                        cut_text(content, bytes)
                    }
                }
            }
        }
        Shape::Legs(low, high) => {
            if low == 0 && is_proper_prefix(bytes, text_of(TRIP + 1)) {
                Some(TRIP + 1)
            } else if high != 0 && is_proper_prefix(bytes, text_of(TRIP_LEG)) {
                Some(TRIP_LEG)
            } else {
                None
            }
        }
    }
}

/// Whether the text begins with the bytes, and goes on behind them.
fn is_proper_prefix(bytes: &[u8], text: &[u8]) -> bool
    ensures { MatchBool result (IsProperPrefix bytes.now text.now) (IsProperPrefix bytes.now text.now → ⊥) }
{
    bytes.len() < text.len() && text.starts_with(bytes)
}

/// The text in front, or why none is there.
fn find_text(shape: &Shape, bytes: &[u8]) -> Found
    requires plain { IsPlain (syntax_of shape.now) }
    requires text { wants (syntax_of shape.now) ≡ None }
    ensures { Finds (syntax_of shape.now) bytes.now result }
{
    match front(shape, bytes) {
        Some(n) => Found::Text(n),
        None => match cut_text(shape, bytes) {
            Some(_) => Found::Stuck(Reason::Truncated),
            None => Found::Stuck(Reason::Markup),
        },
    }
}

/// The field in front, or why none is there.
fn find_field(kind: Kind, bytes: &[u8]) -> Found
    ensures { IsField kind bytes.now result }
{
    match run_length(bytes) {
        Some(len) => {
            match read_field(kind, &bytes[..len]) {
                Some(value) => Found::Field(len, value),
                None => Found::Stuck(Reason::Field(kind)),
            }
        }
        None => {
            if bytes.len() <= LONGEST_FIELD {
                Found::Stuck(Reason::Truncated)
            } else {
                Found::Stuck(Reason::Field(kind))
            }
        }
    }
}

/// The number of bytes before the first `<`, if it stands behind at most `LONGEST_FIELD` of them.
fn run_length(bytes: &[u8]) -> Option<usize>
    ensures { IsRun bytes.now result }
{
    memchr(b'<', &bytes[..bytes.len().min(LONGEST_FIELD + 1)])
}

/// The item in front, or why none is there.
fn find(shape: &Shape, bytes: &[u8]) -> Found
    requires { IsPlain (syntax_of shape.now) }
    ensures { Finds (syntax_of shape.now) bytes.now result }
{
    match field_kind(shape) {
        Some(kind) => find_field(kind, bytes),
        None => find_text(shape, bytes),
    }
}

/// Where the reading of a document has come: which documents are wanted, how many bytes are behind it,
/// the shapes that are open, the values that were read, and of an item that a run found cut short what
/// it may still become.
#[derive(Drop)]
pub struct Machine {
    pub want: Want,
    pub at: usize,
    pub stack: OpenShapes,
    pub draft: Draft,
    pub cut: Option<Cut>,
}

/// What a run did: how many bytes it passed over, and why the next item does not come; none where the
/// document is whole.
#[derive(Clone, Copy)]
pub struct Ran {
    pub took: usize,
    pub stop: Option<Reason>,
}

impl Machine {
    ghost use Rattle.std.specs.Prelude.{◌≡◌, ◌+◌, ◌≤◌, [], ◌∷◌, ℕ, List, IfOk, MatchOption, drop, length};
    ghost use Rattle.ojp_grammar.specs.Steps.{syntax_of, stack_of, IsPlain};
    ghost use Rattle.ojp_grammar.specs.Machine.{Advances, StopsFor, IsCutAt};
    ghost use Rattle.ojp_grammar.specs.Running.{Stands, IsRead};

    /// At the first byte of any bytes; takes no memory.
    pub fn new(alloc: Global, want: Want) -> Machine
        ensures want { result.want ≡ want }
        ensures at { result.at ≡ 0 }
        ensures stands { (bytes : List ℕ) → Stands result bytes bytes }
        ensures stop { StopsFor (stack_of result.stack.items) [] Truncated }
        ensures cut { IsCutAt result.cut (stack_of result.stack.items) [] }
    {
        let mut stack = OpenShapes::new();
        stack.push(Shape::Text(END));
        stack.push(content(want));
        stack.push(Shape::Text(HEAD));
        Machine {
            want,
            at: 0,
            stack,
            draft: Draft::new(alloc),
            cut: Some(Cut::Text(HEAD)),
        }
    }

    /// Passes over whole items of the bytes as long as they come.
    ///
    /// # Errors
    ///
    /// Where memory runs out the machine is spent.
    pub fn run(&mut self, bytes: &[u8]) -> Result<Ran, NoMemory>
        requires { (fed : List ℕ) × Stands self.old fed bytes.now }
        ensures want { self.new.want ≡ self.old.want }
        ensures took { IfOk result (λ ran. (ran.took ≤ length bytes.now) × (self.new.at ≡ self.old.at + ran.took)) }
        ensures stands { IfOk result (λ ran. (fed : List ℕ) → Stands self.old fed bytes.now → Stands self.new fed (drop ran.took bytes.now)) }
        ensures stop { IfOk result (λ ran. MatchOption ran.stop (self.new.stack.items ≡ []) (StopsFor (stack_of self.new.stack.items) (drop ran.took bytes.now))) }
        ensures cut { IfOk result (λ ran. IsCutAt self.new.cut (stack_of self.new.stack.items) (drop ran.took bytes.now)) }
    {
        let mut took = 0;
        while let Some(shape) = self.stack.pop() {
            match advance(&mut self.stack, &mut self.draft, shape, &bytes[took..])? {
                Passed::Over(len) => {
                    self.at += len;
                    took += len;
                }
                Passed::Nothing(reason) => {
                    self.cut = cut_at(&shape, &bytes[took..], reason);
                    return Ok(Ran {
                        took,
                        stop: Some(reason),
                    });
                }
            }
        }
        self.cut = None;
        Ok(Ran { took, stop: None })
    }

    /// The document that all the bytes spell, where they spell one; takes no memory.
    pub fn into_document(self) -> Option<Doc>
        ensures { (fed : List ℕ) → Stands self fed [] → self.stack.items ≡ [] → IsRead self.want fed result }
    {
        let Machine {
            want: _,
            at: _,
            stack: _,
            draft,
            cut: _,
        } = self;
        draft.into_document()
    }
}

/// What the item in front may still become, where it does not come for the reason.
fn cut_at(shape: &Shape, bytes: &[u8], reason: Reason) -> Option<Cut>
    requires { Sticks (syntax_of shape.now) bytes.now reason }
    ensures { IfSome result (IsCutItem (syntax_of shape.now) bytes.now) }
{
    match reason {
        Reason::Truncated => match field_kind(shape) {
            Some(_) => Some(Cut::Field),
            None => match cut_text(shape, bytes) {
                Some(n) => Some(Cut::Text(n)),
                None => None,
            },
        },
        Reason::Markup | Reason::Field(_) | Reason::Trailing => None,
    }
}

/// Whether an item that is cut short behind so many of its bytes still is behind the piece too.
pub fn stays_cut(cut: Cut, passed: usize, piece: &[u8]) -> bool
    ensures { IsTrue result → StaysCut cut passed piece.now }
{
    match cut {
        Cut::Text(n) => {
            let text = text_of(n);
            if passed < text.len() {
                is_proper_prefix(piece, &text[passed..])
            } else {
                false
            }
        }
        Cut::Field => {
            if passed <= LONGEST_FIELD && piece.len() <= LONGEST_FIELD - passed {
                is_run(piece)
            } else {
                false
            }
        }
    }
}

/// Whether no `<` stands in the bytes.
fn is_run(bytes: &[u8]) -> bool
    ensures { IsTrue result → Run bytes.now }
{
    match memchr(b'<', bytes) {
        Some(_) => false,
        None => true,
    }
}

/// Passes over a whole leg in front, if legs are next, and keeps it: gives its length. Where none stands
/// whole there, everything stays.
fn pass_leg(
    stack: &mut OpenShapes,
    draft: &mut Draft,
    shape: Shape,
    bytes: &[u8],
) -> Result<Option<usize>, NoMemory>
    requires { depth (syntax_of shape) + length stack.old.items ≤ 16 }
    ensures { IfOk result (λ passed. MatchOption passed ((stack.new.items ≡ stack.old.items) × (draft.new ≡ draft.old)) (λ len. Advances (syntax_of shape ∷ stack_of stack.old.items) draft.old bytes.now (Over len) (stack_of stack.new.items) draft.new)) }
{
    let Shape::Legs(low, high) = shape else {
        return Ok(None);
    };
    if high == 0 {
        return Ok(None);
    }
    let mut left = Front::new(bytes);
    let Some(leg) = left.leg() else {
        return Ok(None);
    };
    let Ok(()) = draft.keep_leg(leg) else {
        return Err(NoMemory);
    };
    stack.push(Shape::Legs(low.saturating_sub(1), high - 1));
    Ok(Some(bytes.len() - left.len()))
}

/// Passes over the whole leg or the item in front, takes its values and opens what stands behind it.
/// Where none comes, everything stays, and the reason is given.
fn advance(
    stack: &mut OpenShapes,
    draft: &mut Draft,
    shape: Shape,
    bytes: &[u8],
) -> Result<Passed, NoMemory>
    requires plain { IsPlain (syntax_of shape) }
    requires room { depth (syntax_of shape) + length stack.old.items ≤ 16 }
    ensures { IfOk result (λ passed. Advances (syntax_of shape ∷ stack_of stack.old.items) draft.old bytes.now passed (stack_of stack.new.items) draft.new) }
{
    let leg = pass_leg(stack, draft, shape, bytes)?;
    match leg {
        Some(len) => Ok(Passed::Over(len)),
        None => pass_item(stack, draft, shape, bytes),
    }
}

/// The same over the item in front.
fn pass_item(
    stack: &mut OpenShapes,
    draft: &mut Draft,
    shape: Shape,
    bytes: &[u8],
) -> Result<Passed, NoMemory>
    requires plain { IsPlain (syntax_of shape) }
    requires room { depth (syntax_of shape) + length stack.old.items ≤ 16 }
    ensures { IfOk result (λ passed. Advances (syntax_of shape ∷ stack_of stack.old.items) draft.old bytes.now passed (stack_of stack.new.items) draft.new) }
{
    match find(&shape, bytes) {
        Found::Text(n) => {
            open_behind_text(stack, &shape, n);
            let Ok(()) = draft.take_text(n) else {
                return Err(NoMemory);
            };
            Ok(Passed::Over(text_of(n).len()))
        }
        Found::Field(len, value) => {
            open_behind_field(stack, &shape);
            let Ok(()) = draft.take_value(value) else {
                return Err(NoMemory);
            };
            Ok(Passed::Over(len))
        }
        Found::Stuck(reason) => {
            stack.push(shape);
            Ok(Passed::Nothing(reason))
        }
    }
}

/// What the wanted documents have between head and end.
fn content(want: Want) -> Shape
    ensures { syntax_of result ≡ grammar.content want }
{
    match want {
        Want::Request => *request(),
        Want::Delivery => *delivery(),
        Want::Either => Shape::Either(request(), delivery()),
    }
}
