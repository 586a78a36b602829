//! The lengths of fields and of lists.

ghost use Rattle.std.specs.Prelude.{◌≡◌, ◌≤◌, ◌<◌, ◌*◌, ◌^◌, All, decimal, length};
ghost use Rattle.std.specs.List.{flat_map};
ghost use Rattle.ojp_values.specs.Texts.{escaped};

use crate::names::{Room, escape};
use crate::spelled::Spelled;
use itoa::Buffer;
use ojp_values::{Code, Label, Name, StopRef};

/// The bytes of a moment, `YYYY-MM-DDThh:mm:ssZ`.
pub const MOMENT: u64 = 20;

/// The bytes of a day, `YYYY-MM-DD`.
pub const DAY: u64 = 10;

/// The number of bytes of the reference.
#[tactic(auto, using(crate::proofs::Short::stop_is_short))]
pub fn stop_length(stop: &StopRef) -> u64
    ensures value { result ≡ length stop.now }
    ensures bound { result ≤ 512 }
{
    stop.text().len() as u64
}

/// The number of bytes of the code.
#[tactic(auto, using(crate::proofs::Short::code_is_short))]
pub fn code_length(code: &Code) -> u64
    ensures value { result ≡ length code.now }
    ensures bound { result ≤ 512 }
{
    code.text().len() as u64
}

/// The number of bytes of the label.
#[tactic(auto, using(crate::proofs::Short::label_is_short))]
pub fn label_length(label: &Label) -> u64
    ensures value { result ≡ length label.now }
    ensures bound { result ≤ 512 }
{
    label.text().len() as u64
}

/// The number of bytes that spell the name.
pub fn name_length(name: &Name) -> u64
    ensures value { result ≡ length (escaped name.now) }
    ensures bound { result ≤ 512 }
{
    let mut room = Room::new();
    escape(name, &mut room).len() as u64
}

/// The number of digits.
pub fn number_length(number: u32) -> u64
    ensures value { result ≡ length (decimal number) }
    ensures bound { result ≤ 40 }
{
    let mut digits = Buffer::new();
    digits.format(number).len() as u64
}

/// The number of bytes that spell the items.
pub fn length_each<T: Spelled>(items: &[T]) -> u64
    requires well { All T.is_well items.now }
    requires fits { T.most * length items.now < 2 ^ 64 }
    ensures value { result ≡ length (flat_map T.bytes items.now) }
    ensures bound { result ≤ T.most * length items.now }
{
    let mut bytes = 0;
    for item in items {
        bytes += item.length();
    }
    bytes
}
