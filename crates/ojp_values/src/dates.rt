//! Dates of the calendar and times of day, and their texts.

ghost use Rattle.std.specs.Prelude.{◌≡◌, ◌<◌, ◌≤◌, ◌∷◌, [], MatchOption};
ghost use Rattle.ojp_values.specs.Numbers.{Reads};
ghost use Rattle.ojp_values.specs.Dates.{DaysHaveDates, DatesHaveDays, IsDate, IsWritable, date_of, two, four, date_text, day_text, clock_text};

use jiff_core::civil::Date;

/// The days from -9999-01-01, from which the calendar counts, to 1970-01-01.
const DAYS_BEFORE_1970: u32 = 4_371_587;

/// A date as it is written: the calendar need not have it.
#[derive(Clone, Copy, Debug, PartialEq, Eq)]
pub struct CalendarDate {
    pub year: u16,
    pub month: u8,
    pub day: u8,
}

/// The date so many days after 1970-01-01, up to 2199-12-31.
pub fn date_of_day(number: u32) -> CalendarDate
    requires { number ≤ 84_005 }
    ensures value { result ≡ date_of number }
    ensures date { IsDate result }
{
    let date = Date::from_days_since_min(number + DAYS_BEFORE_1970);
    CalendarDate {
        year: date.year.unsigned_abs(),
        month: date.month,
        day: date.day,
    }
}

/// The days since 1970-01-01 of a date of the calendar from 1970 to 2199.
pub fn day_of_date(date: CalendarDate) -> Option<u32>
    ensures { MatchOption result (¬ (IsDate date)) (λ n. (n ≤ 84_005) × (date_of n ≡ date)) }
{
    if date.year < 1970 {
        return None;
    }
    if date.year > 2199 {
        return None;
    }
    if date.month > 12 {
        return None;
    }
    if date.day > 31 {
        return None;
    }
    match Date::new(date.year as i16, date.month as i8, date.day as i8) {
        Ok(civil) => Some(civil.days_since_min() - DAYS_BEFORE_1970),
        Err(_) => None,
    }
}

/// `YYYY-MM-DD`, of the days since 1970-01-01.
#[tactic(auto, using(crate::proofs::Calendar::date_is_writable))]
pub(crate) fn day_digits(number: u32) -> [u8; 10]
    requires { number ≤ 84_005 }
    ensures { result ≡ day_text number }
{
    date_digits(date_of_day(number))
}

/// The days since 1970-01-01, up to 2199-12-31, of a date that is written `YYYY-MM-DD`.
pub(crate) fn read_day(text: &[u8]) -> Option<u32>
    ensures { Reads (λ n. n ≤ 84_005) day_text text.now result }
{
    day_of_date(read_date(text)?)
}

/// `YYYY-MM-DD`.
fn date_digits(date: CalendarDate) -> [u8; 10]
    requires { IsWritable date }
    ensures { result ≡ date_text date }
{
    let [y0, y1] = two_digits((date.year / 100) as u8);
    let [y2, y3] = two_digits((date.year % 100) as u8);
    let [m0, m1] = two_digits(date.month);
    let [d0, d1] = two_digits(date.day);
    [y0, y1, y2, y3, b'-', m0, m1, b'-', d0, d1]
}

/// `Thh:mm:ssZ`, of the seconds after midnight.
pub(crate) fn clock_digits(seconds: u32) -> [u8; 10]
    requires { seconds < 86_400 }
    ensures { result ≡ clock_text seconds }
{
    let [h0, h1] = two_digits((seconds / 3_600) as u8);
    let [m0, m1] = two_digits((seconds / 60 % 60) as u8);
    let [s0, s1] = two_digits((seconds % 60) as u8);
    [b'T', h0, h1, b':', m0, m1, b':', s0, s1, b'Z']
}

fn two_digits(n: u8) -> [u8; 2]
    requires { n < 100 }
    ensures { result ≡ two n }
{
    [b'0' + n / 10, b'0' + n % 10]
}

/// The number below 100 that two digits write.
fn read_two(tens: u8, ones: u8) -> Option<u8>
    ensures { Reads (λ n. n < 100) two (tens ∷ ones ∷ []) result }
{
    if !tens.is_ascii_digit() {
        return None;
    }
    if !ones.is_ascii_digit() {
        return None;
    }
    Some((tens - b'0') * 10 + (ones - b'0'))
}

/// The date that is written `YYYY-MM-DD`.
fn read_date(text: &[u8]) -> Option<CalendarDate>
    ensures { Reads IsWritable date_text text.now result }
{
    let [y0, y1, y2, y3, b'-', m0, m1, b'-', d0, d1] = text else {
        return None;
    };
    let year = read_four(*y0, *y1, *y2, *y3)?;
    let month = read_two(*m0, *m1)?;
    let day = read_two(*d0, *d1)?;
    Some(CalendarDate { year, month, day })
}

/// The number below 10,000 that four digits write.
#[tactic(auto, using(crate::proofs::Calendar::four_of))]
fn read_four(thousands: u8, hundreds: u8, tens: u8, ones: u8) -> Option<u16>
    ensures { Reads (λ n. n < 10_000) four (thousands ∷ hundreds ∷ tens ∷ ones ∷ []) result }
{
    let high = read_two(thousands, hundreds)?;
    let low = read_two(tens, ones)?;
    Some(high as u16 * 100 + low as u16)
}

/// The seconds after midnight that are written `Thh:mm:ssZ`.
pub(crate) fn read_clock(text: &[u8]) -> Option<u32>
    ensures { Reads (λ s. s < 86_400) clock_text text.now result }
{
    let [b'T', h0, h1, b':', m0, m1, b':', s0, s1, b'Z'] = text else {
        return None;
    };
    let hour = read_two(*h0, *h1)?;
    let minute = read_two(*m0, *m1)?;
    let second = read_two(*s0, *s1)?;
    if hour > 23 {
        return None;
    }
    if minute > 59 {
        return None;
    }
    if second > 59 {
        return None;
    }
    Some(hour as u32 * 3_600 + minute as u32 * 60 + second as u32)
}

/// Each day number up to 84,005 has a date of the calendar.
pub fn days_have_dates()
    ensures { DaysHaveDates }
{}

/// Each date of the calendar from 1970 to 2199 has such a day number.
pub fn dates_have_days()
    ensures { DatesHaveDays }
{}
