//! Labels of services, each by its days.

ghost use Rattle.std.specs.Prelude.{◌≡◌, ◌≤◌, cond};
ghost use Rattle.ojp_calendars.specs.Labels.{compact_date, label_text, letter, letters};

use crate::day_box::DayBox;
use ojp_values::{Day, LAST_DAY, Label};

/// The day as `YYYYMMDD`.
fn compact_date(day: Day) -> [u8; 8]
    ensures value { result ≡ compact_date day }
    ensures within { day ≤ LAST_DAY }
{
    let [y0, y1, y2, y3, _, m0, m1, _, d0, d1] = day.text();
    [y0, y1, y2, y3, m0, m1, d0, d1]
}

fn letter(marked: bool, sign: u8) -> u8
    ensures { result ≡ letter marked sign }
{
    if marked { sign } else { b'-' }
}

/// `MTWTFSS`, with `-` for each weekday that is not marked.
fn letters(weekdays: &[bool; 7]) -> [u8; 7]
    ensures { result ≡ letters weekdays.now }
{
    [
        letter(weekdays[0], b'M'),
        letter(weekdays[1], b'T'),
        letter(weekdays[2], b'W'),
        letter(weekdays[3], b'T'),
        letter(weekdays[4], b'F'),
        letter(weekdays[5], b'S'),
        letter(weekdays[6], b'S'),
    ]
}

/// The first day, the last day and the weekdays, as `20261214-20261224-MT-TF--`.
#[tactic(auto, unfolding(crate::specs::Labels::label_text))]
fn label_bytes(days: &DayBox) -> [u8; 25]
    ensures value { result ≡ label_text days.now }
    ensures first { days.now.first ≤ LAST_DAY }
    ensures last { days.now.last ≤ LAST_DAY }
{
    let [a0, a1, a2, a3, a4, a5, a6, a7] = compact_date(days.first);
    let [b0, b1, b2, b3, b4, b5, b6, b7] = compact_date(days.last);
    let [c0, c1, c2, c3, c4, c5, c6] = letters(&days.weekdays);
    [
        a0, a1, a2, a3, a4, a5, a6, a7, b'-', b0, b1, b2, b3, b4, b5, b6, b7, b'-', c0, c1, c2, c3,
        c4, c5, c6,
    ]
}

/// The label of the service that runs on the days of the box: its first day, its last day and its
/// weekdays, as `20261214-20261224-MT-TF--`.
pub fn label(days: &DayBox) -> Label
    ensures { result ≡ label_text days.now }
{
    match Label::from_bytes(&label_bytes(days)) {
        Some(label) => label,
        None => unreachable!(),
    }
}
