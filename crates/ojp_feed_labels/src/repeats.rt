//! Labels of the journeys of a trip.

ghost use Rattle.std.specs.Prelude.{◌≡◌, ◌≤◌, ◌+◌, ◌++◌, Some, length};
ghost use Rattle.arrayvec.specs.ArrayVec.{array_vec_len};
ghost use Rattle.ojp_feed_labels.specs.Repeats.{line_text, repeated, time_text, two_digits};

use crate::labels::label_of;
use arrayvec::ArrayVec;
use itoa::Buffer;
use ojp_values::Label;

/// The label of a journey: that of its trip; where the trip is repeated `.hhmm` of the departure, or `.hhmmss` where seconds are
/// left; and where it is written for several lines of its service `.` and the number of the line. The hashed form where that is
/// too long.
#[tactic(auto, unfolding(crate::specs::Repeats::repeated))]
pub fn repeated(trip: Label, departs: Option<u32>, line: Option<u64>) -> Label
    ensures { result ≡ repeated trip departs line }
{
    let mut text: ArrayVec<u8, 64> = ArrayVec::new();
    put(&mut text, trip.text());
    put_time(&mut text, departs);
    put_line(&mut text, line);
    label_of(text.as_slice(), 32)
}

// Adds the bytes.
fn put(text: &mut ArrayVec<u8, 64>, bytes: &[u8])
    requires room { array_vec_len text.old + length bytes.now ≤ 64 }
    ensures { text.new.items ≡ text.old.items ++ bytes.now }
{
    match text.try_extend_from_slice(bytes) {
        Ok(()) => {}
        Err(_) => unreachable!(),
    }
}

// Adds `.` and the time, where there is one.
fn put_time(text: &mut ArrayVec<u8, 64>, departs: Option<u32>)
    requires room { array_vec_len text.old ≤ 32 }
    ensures value { text.new.items ≡ text.old.items ++ time_text departs }
    ensures short { array_vec_len text.new ≤ 39 }
{
    let Some(seconds) = departs else {
        return;
    };
    put(text, b".");
    put(text, &two_digits(seconds / 3_600));
    put(text, &two_digits(seconds / 60 % 60));
    if seconds % 60 != 0 {
        put(text, &two_digits(seconds % 60));
    }
}

// Adds `.` and the number, where there is one.
fn put_line(text: &mut ArrayVec<u8, 64>, line: Option<u64>)
    requires room { array_vec_len text.old ≤ 39 }
    ensures { text.new.items ≡ text.old.items ++ line_text line }
{
    let Some(line) = line else {
        return;
    };
    let mut digits = Buffer::new();
    put(text, b".");
    put(text, digits.format(line).as_bytes());
}

// The last two digits of the number.
fn two_digits(number: u32) -> [u8; 2]
    ensures { result ≡ two_digits number }
{
    [b'0' + (number / 10 % 10) as u8, b'0' + (number % 10) as u8]
}
