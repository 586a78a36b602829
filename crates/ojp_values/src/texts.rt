//! Codes of regions, references to stops, labels and names.

ghost use Rattle.std.specs.Prelude.{◌≡◌, ◌↔◌, ◌≤◌, length, IsTrue, IsSome, IsOk, IfSome, IfOk, IfErr};
ghost use Rattle.std.specs.List.{list_all, position, position_or_len};
ghost use Rattle.std.specs.Str.{is_utf8};
ghost use Rattle.ojp_values.specs.Texts.{is_code, is_label, is_name, is_stop_ref, is_exchange, is_code_byte, is_local_byte, is_name_byte, is_colon, is_tail, has_noncharacter, begins_noncharacter, home};

use crate::fixed::Fixed;
use crate::kinds::{BadText, Kind};
use std::marker::Model;

/// The code of a region: 1 to 16 bytes of `A-Z0-9`.
#[derive(Clone, Copy, Debug, PartialEq, Eq, PartialOrd, Ord, Hash)]
pub struct Code(Fixed<16>);

impl Model for Code {
    ghost use Rattle.std.specs.Prelude.{ℕ, List, IsTrue};
    ghost use Rattle.ojp_values.specs.Texts.{is_code};

    ghost Value = { List ℕ };

    ghost view = { λ code. code.0 };

    ghost invariant = { λ code. IsTrue (is_code code.0) };

    ghost inverse = { λ text. record { 0 = text } };
}

impl Code {
    /// The code with this text.
    pub fn new(text: &str) -> Result<Code, BadText>
        ensures exact { IsOk result ↔ IsTrue (is_code text.now) }
        ensures value { IfOk result (λ code. code ≡ text.now) }
        ensures kind { IfErr result (λ bad. bad.kind ≡ Kind.Code) }
    {
        Code::from_bytes(text.as_bytes()).ok_or(BadText { kind: Kind::Code })
    }

    /// The code with these bytes, if they are one.
    pub fn from_bytes(text: &[u8]) -> Option<Code>
        ensures exact { IsSome result ↔ IsTrue (is_code text.now) }
        ensures value { IfSome result (λ code. code ≡ text.now) }
    {
        if is_code_text(text) {
            Some(Code(Fixed::new(text)))
        } else {
            None
        }
    }

    /// The bytes of the code.
    pub fn text(&self) -> &[u8]
        ensures value { result.now ≡ self.now }
        ensures well { IsTrue (is_code self.now) }
    {
        self.0.bytes()
    }
}

/// A reference to a stop: `CODE:LOCAL` for a region's own stop, `x:LOCAL` for an exchange point,
/// where `LOCAL` is 1 to 32 bytes of `A-Za-z0-9._-`.
#[derive(Clone, Copy, Debug, PartialEq, Eq, PartialOrd, Ord, Hash)]
pub struct StopRef(Fixed<49>);

impl Model for StopRef {
    ghost use Rattle.std.specs.Prelude.{ℕ, List, IsTrue};
    ghost use Rattle.ojp_values.specs.Texts.{is_stop_ref};

    ghost Value = { List ℕ };

    ghost view = { λ stop. stop.0 };

    ghost invariant = { λ stop. IsTrue (is_stop_ref stop.0) };

    ghost inverse = { λ text. record { 0 = text } };
}

impl StopRef {
    /// The reference with this text.
    pub fn new(text: &str) -> Result<StopRef, BadText>
        ensures exact { IsOk result ↔ IsTrue (is_stop_ref text.now) }
        ensures value { IfOk result (λ stop. stop ≡ text.now) }
        ensures kind { IfErr result (λ bad. bad.kind ≡ Kind.StopRef) }
    {
        StopRef::from_bytes(text.as_bytes()).ok_or(BadText {
            kind: Kind::StopRef,
        })
    }

    /// The reference with these bytes, if they are one.
    pub fn from_bytes(text: &[u8]) -> Option<StopRef>
        ensures exact { IsSome result ↔ IsTrue (is_stop_ref text.now) }
        ensures value { IfSome result (λ stop. stop ≡ text.now) }
    {
        if is_stop_text(text) {
            Some(StopRef(Fixed::new(text)))
        } else {
            None
        }
    }

    /// The bytes of the reference.
    pub fn text(&self) -> &[u8]
        ensures value { result.now ≡ self.now }
        ensures well { IsTrue (is_stop_ref self.now) }
    {
        self.0.bytes()
    }

    /// The region whose own stop this is; `None` for an exchange point.
    #[tactic(auto, unfolding(crate::specs::Texts::home))]
    pub fn region(&self) -> Option<Code>
        ensures { result ≡ home self.now }
    {
        let text = self.text();
        let (front, _) = text.split_at(colon_place(text));
        if front == b"x".as_slice() {
            None
        } else {
            Code::from_bytes(front)
        }
    }

    /// Whether this is an exchange point.
    pub fn is_exchange(&self) -> bool
        ensures { result ≡ is_exchange self.now }
    {
        let text = self.text();
        text.starts_with(b"x:")
    }
}

/// The label of a journey, a line or a service: 1 to 32 bytes of `A-Za-z0-9._-`.
#[derive(Clone, Copy, Debug, PartialEq, Eq, PartialOrd, Ord, Hash)]
pub struct Label(Fixed<32>);

impl Model for Label {
    ghost use Rattle.std.specs.Prelude.{ℕ, List, IsTrue};
    ghost use Rattle.ojp_values.specs.Texts.{is_label};

    ghost Value = { List ℕ };

    ghost view = { λ label. label.0 };

    ghost invariant = { λ label. IsTrue (is_label label.0) };

    ghost inverse = { λ text. record { 0 = text } };
}

impl Label {
    /// The label with this text.
    pub fn new(text: &str) -> Result<Label, BadText>
        ensures exact { IsOk result ↔ IsTrue (is_label text.now) }
        ensures value { IfOk result (λ label. label ≡ text.now) }
        ensures kind { IfErr result (λ bad. bad.kind ≡ Kind.Label) }
    {
        Label::from_bytes(text.as_bytes()).ok_or(BadText { kind: Kind::Label })
    }

    /// The label with these bytes, if they are one.
    pub fn from_bytes(text: &[u8]) -> Option<Label>
        ensures exact { IsSome result ↔ IsTrue (is_label text.now) }
        ensures value { IfSome result (λ label. label ≡ text.now) }
    {
        if is_label_text(text) {
            Some(Label(Fixed::new(text)))
        } else {
            None
        }
    }

    /// The bytes of the label.
    pub fn text(&self) -> &[u8]
        ensures value { result.now ≡ self.now }
        ensures well { IsTrue (is_label self.now) }
    {
        self.0.bytes()
    }
}

/// The name of a stop: 1 to 100 bytes of UTF-8 without characters below U+0020, U+FFFE and U+FFFF.
#[derive(Clone, Copy, Debug, PartialEq, Eq)]
pub struct Name(Fixed<100>);

impl Model for Name {
    ghost use Rattle.std.specs.Prelude.{ℕ, List, IsTrue};
    ghost use Rattle.ojp_values.specs.Texts.{is_name};

    ghost Value = { List ℕ };

    ghost view = { λ name. name.0 };

    ghost invariant = { λ name. IsTrue (is_name name.0) };

    ghost inverse = { λ text. record { 0 = text } };
}

impl Name {
    /// The name with this text, which is the value itself, without escapes.
    pub fn new(text: &str) -> Result<Name, BadText>
        ensures exact { IsOk result ↔ IsTrue (is_name text.now) }
        ensures value { IfOk result (λ name. name ≡ text.now) }
        ensures kind { IfErr result (λ bad. bad.kind ≡ Kind.Name) }
    {
        Name::from_bytes(text.as_bytes()).ok_or(BadText { kind: Kind::Name })
    }

    /// The name with these bytes, without escapes, if they are one.
    pub fn from_bytes(text: &[u8]) -> Option<Name>
        ensures exact { IsSome result ↔ IsTrue (is_name text.now) }
        ensures value { IfSome result (λ name. name ≡ text.now) }
    {
        if is_name_text(text) {
            Some(Name(Fixed::new(text)))
        } else {
            None
        }
    }

    /// The bytes of the name, without escapes.
    pub fn text(&self) -> &[u8]
        ensures value { result.now ≡ self.now }
        ensures well { IsTrue (is_name self.now) }
    {
        self.0.bytes()
    }
}

fn is_code_text(text: &[u8]) -> bool
    ensures value { result ≡ is_code text.now }
    ensures fits { IsTrue result → length text.now ≤ 16 }
{
    1 <= text.len() && text.len() <= 16 && are_code_letters(text)
}

fn are_code_letters(text: &[u8]) -> bool
    ensures { result ≡ list_all is_code_byte text.now }
{
    text.iter().all(|&byte| is_code_letter(byte))
}

fn is_stop_text(text: &[u8]) -> bool
    ensures value { result ≡ is_stop_ref text.now }
    ensures fits { IsTrue result → length text.now ≤ 49 }
{
    let (front, tail) = text.split_at(colon_place(text));
    (front == b"x".as_slice() || is_code_text(front)) && is_tail_text(tail)
}

/// The number of bytes before the first colon.
fn colon_place(text: &[u8]) -> usize
    ensures value { result ≡ position_or_len is_colon text.now }
    ensures fits { result ≤ length text.now }
{
    first_colon(text).unwrap_or(text.len())
}

fn first_colon(text: &[u8]) -> Option<usize>
    ensures { result ≡ position is_colon text.now }
{
    text.iter().position(|&byte| byte == b':')
}

fn is_tail_text(text: &[u8]) -> bool
    ensures value { result ≡ is_tail text.now }
    ensures fits { IsTrue result → length text.now ≤ 33 }
{
    match text {
        [b':', local @ ..] => is_label_text(local),
        _ => false,
    }
}

fn is_label_text(text: &[u8]) -> bool
    ensures value { result ≡ is_label text.now }
    ensures fits { IsTrue result → length text.now ≤ 32 }
{
    1 <= text.len() && text.len() <= 32 && are_local(text)
}

fn are_local(text: &[u8]) -> bool
    ensures { result ≡ list_all is_local_byte text.now }
{
    text.iter().all(|&byte| is_local(byte))
}

fn is_local(byte: u8) -> bool
    ensures { result ≡ is_local_byte byte }
{
    matches!(byte, b'A'..=b'Z' | b'a'..=b'z' | b'0'..=b'9' | b'.' | b'_' | b'-')
}

fn is_code_letter(byte: u8) -> bool
    ensures { result ≡ is_code_byte byte }
{
    matches!(byte, b'A'..=b'Z' | b'0'..=b'9')
}

fn is_name_text(text: &[u8]) -> bool
    ensures value { result ≡ is_name text.now }
    ensures fits { IsTrue result → length text.now ≤ 100 }
{
    1 <= text.len()
        && text.len() <= 100
        && are_printing(text)
        && !has_noncharacter_bytes(text)
        && is_unicode(text)
}

/// Whether the bytes are UTF-8.
#[tactic(auto, using(crate::proofs::Unicode::is_utf8_true, crate::proofs::Unicode::is_utf8_false))]
fn is_unicode(text: &[u8]) -> bool
    ensures { result ≡ is_utf8 text.now }
{
    match str::from_utf8(text) {
        Ok(_) => true,
        Err(_) => false,
    }
}

fn are_printing(text: &[u8]) -> bool
    ensures { result ≡ list_all is_name_byte text.now }
{
    text.iter().all(|&byte| byte >= 32)
}

/// Whether U+FFFE or U+FFFF stands somewhere in the bytes.
fn has_noncharacter_bytes(text: &[u8]) -> bool
    ensures { result ≡ has_noncharacter text.now }
{
    let mut rest = text;
    'bytes: while let [_, after @ ..] = rest {
        if is_noncharacter(rest) {
            return true;
        }
        rest = after;
    }
    false
}

/// Whether the bytes begin with U+FFFE or U+FFFF.
fn is_noncharacter(text: &[u8]) -> bool
    ensures { result ≡ begins_noncharacter text.now }
{
    match text {
        [239, 191, last, ..] => *last >= 190,
        _ => false,
    }
}
