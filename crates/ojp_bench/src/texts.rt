//! The text of a timetable with as many stops, journeys and calls as one may have.

ghost use Rattle.std.specs.Prelude.{◌<◌};

use std::alloc::Global;

/// The midnight of Monday 2024-05-06 in UTC.
pub const MIDNIGHT: u64 = 1_714_953_600;

/// The first stop of the region's own.
pub const FIRST_OWN: &str = "AA:s200";

const STOPS: u32 = 5_000;

const EXCHANGES: u32 = 200;

const SERVICES: u32 = 50;

const JOURNEYS: u32 = 20_000;

const CALLS: u32 = 5;

/// Numbers that look random, the same in every run.
#[derive(Drop)]
struct Numbers {
    state: u64,
}

impl Numbers {
    /// A number below that one.
    fn below(&mut self, limit: u32) -> u32
        requires { 0 < limit }
        ensures { result < limit }
    {
        self.state = self
            .state
            .wrapping_mul(6_364_136_223_846_793_005)
            .wrapping_add(1_442_695_040_888_963_407);
        let number = (self.state >> 33) % u64::from(limit);
        number as u32
    }
}

/// The lines of the timetable.
pub fn text(alloc: Global) -> Option<Vec<u8>> {
    let mut lines = Vec::new(alloc);
    add(&mut lines, "ojp-timetable 1\nregion AA\nzone +01:00\n")?;
    for number in 0..STOPS {
        add_stop(alloc, &mut lines, number)?;
    }
    for number in 0..SERVICES {
        let line = format!(in alloc; "service W{number} 2024-01-01 2024-12-31 1111111\n").ok()?;
        add(&mut lines, line.as_str())?;
    }
    add_journeys(alloc, &mut lines)?;
    Some(lines)
}

fn add(lines: &mut Vec<u8>, line: &str) -> Option<()> {
    lines.extend_from_slice(line.as_bytes()).ok()
}

/// The reference of the stop of that number: the first are exchange points.
fn stop(alloc: Global, number: u32) -> Option<String> {
    if number < EXCHANGES {
        return format!(in alloc; "x:p{number}").ok();
    }
    format!(in alloc; "AA:s{number}").ok()
}

fn add_stop(alloc: Global, lines: &mut Vec<u8>, number: u32) -> Option<()> {
    let word = if number < EXCHANGES {
        "exchange"
    } else {
        "stop"
    };
    let reference = stop(alloc, number)?;
    let line = format!(in alloc; "{word} {reference} 60 Stop Number {number}\n").ok()?;
    add(lines, line.as_str())
}

fn add_journeys(alloc: Global, lines: &mut Vec<u8>) -> Option<()> {
    let mut numbers = Numbers { state: 7 };
    for number in 0..JOURNEYS {
        let service = number % SERVICES;
        let of = number % 300;
        let line = format!(in alloc; "journey J{number} W{service} L{of}\n").ok()?;
        add(lines, line.as_str())?;
        add_calls(alloc, lines, &mut numbers)?;
    }
    Some(())
}

/// Adds the calls of a journey that leaves at any second of the day.
fn add_calls(alloc: Global, lines: &mut Vec<u8>, numbers: &mut Numbers) -> Option<()> {
    let begin = numbers.below(86_400);
    for position in 0..CALLS {
        let at = stop(alloc, numbers.below(STOPS))?;
        let arrives = begin + 600 * position;
        let departs = arrives + numbers.below(60);
        let arrives = time(alloc, arrives, position > 0)?;
        let departs = time(alloc, departs, position < CALLS - 1)?;
        let line = format!(in alloc; "call {at} {arrives} {departs}\n").ok()?;
        add(lines, line.as_str())?;
    }
    Some(())
}

/// The time, or a dash where there is none.
fn time(alloc: Global, offset: u32, is_there: bool) -> Option<String> {
    if is_there {
        return format!(in alloc; "{offset}").ok();
    }
    String::from_str(alloc, "-").ok()
}
