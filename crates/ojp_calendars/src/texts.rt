//! Texts of zones.

ghost use Rattle.std.specs.Prelude.{◌≡◌, ◌<◌, ◌++◌, OnOk, IfOk};
ghost use Rattle.ojp_values.specs.Dates.{two};
ghost use Rattle.ojp_zones.specs.Noons.{IsRule};
ghost use Rattle.ojp_calendars.specs.Noons.{ClockWithin};
ghost use Rattle.ojp_calendars.specs.Texts.{date_text, named_text, offset_text, rule_text};

use ojp_zones::zone::DateRule;
use std::alloc::{AllocError, Global};

/// Two digits.
fn two(number: u32) -> [u8; 2]
    requires { number < 100 }
    ensures { result ≡ two number }
{
    [b'0' + (number / 10) as u8, b'0' + (number % 10) as u8]
}

/// `+hh:mm`, of seconds east of UTC; parts of minutes are left out.
#[tactic(auto, unfolding(crate::specs::Texts::offset_text))]
pub(crate) fn offset_text(east: i32) -> [u8; 6]
    requires { ClockWithin east }
    ensures { result ≡ offset_text east }
{
    let sign = if east < 0 { b'-' } else { b'+' };
    let seconds = east.unsigned_abs();
    let [h0, h1] = two(seconds / 3_600);
    let [m0, m1] = two(seconds / 60 % 60);
    [sign, h0, h1, b':', m0, m1]
}

/// `<+hhmm>-hh:mm`: a name that tells the seconds east of UTC, and what is added to local time.
#[tactic(auto, unfolding(crate::specs::Texts::offset_text, crate::specs::Texts::named_text))]
fn named_text(east: i32) -> [u8; 13]
    requires { ClockWithin east }
    ensures { result ≡ named_text east }
{
    let [sign, h0, h1, colon, m0, m1] = offset_text(east);
    let other = if east < 0 { b'+' } else { b'-' };
    [
        b'<', sign, h0, h1, m0, m1, b'>', other, h0, h1, colon, m0, m1,
    ]
}

/// Adds `,Mm.w.d`.
#[tactic(auto, unfolding(crate::specs::Texts::date_text))]
fn add_date(text: &mut Vec<u8>, date: &DateRule) -> Result<(), AllocError>
    requires { IsRule date.now }
    ensures { OnOk result (text.new.items ≡ text.old.items ++ date_text date.now) }
{
    let month = date.month as u8;
    let week = b'0' + date.week as u8;
    let weekday = b'0' + date.weekday as u8;
    if month < 10 {
        text.extend_from_slice(&[b',', b'M', b'0' + month, b'.', week, b'.', weekday])
    } else {
        text.extend_from_slice(&[
            b',',
            b'M',
            b'1',
            b'0' + (month - 10),
            b'.',
            week,
            b'.',
            weekday,
        ])
    }
}

/// The rule with two offsets, in seconds east of UTC, of which the second holds from one date on and
/// before another.
#[tactic(auto, unfolding(crate::specs::Texts::rule_text))]
pub(crate) fn rule_text(
    alloc: Global,
    east: i32,
    second: i32,
    from: &DateRule,
    to: &DateRule,
) -> Result<Vec<u8>, AllocError>
    requires east { ClockWithin east }
    requires second { ClockWithin second }
    requires from { IsRule from.now }
    requires to { IsRule to.now }
    ensures { IfOk result (λ text. text.items ≡ rule_text east second from.now to.now) }
{
    let mut text = Vec::new(alloc);
    text.extend_from_slice(&named_text(east))?;
    text.extend_from_slice(&named_text(second))?;
    add_date(&mut text, from)?;
    add_date(&mut text, to)?;
    Ok(text)
}
