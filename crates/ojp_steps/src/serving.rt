//! A region's server: the connections of doors, served one after another.

ghost use Rattle.std.specs.Prelude.{◌≡◌, false, true, Ok, Err};
ghost use Rattle.ojp_scan.specs.Scans.{IsMadeFor};
ghost use Rattle.ojp_grammar.specs.Answering.{AnswersBody};
ghost use Rattle.ojp_timetable.specs.Answers.{RegionAnswers};
ghost use Rattle.ojp_steps.specs.Lent.{lent};
ghost use Rattle.ojp_steps.specs.Serving.{seen_as, ServesAt, ServesNext, ServesUntil, Starts};

use ojp_outside::{DoorRefused, Doors, Sink, WriteFault, put_all};
use ojp_region::serve_one;
use ojp_scan::Scan;
use ojp_timetable::Timetable;
use ojp_values::NoMemory;
use std::alloc::Global;
use std::sync::Wait;

/// What a server writes once it listens.
const READY: &[u8] = b"ready\n";

/// Where a server listens, and for how many connections; without end where that is not said.
#[derive(Clone, Copy, Debug)]
pub struct Listening {
    pub port: u16,
    pub count: Option<u64>,
}

/// Why a server did not serve all that it was asked for.
#[derive(Clone, Copy, Debug, PartialEq, Eq)]
pub enum NotServed {
    /// Memory ran out before the port was asked for.
    Memory,
    /// It could not be said that the server listens.
    Output,
    /// The doors could not listen, or gave no connection.
    Doors,
}

/// Listens at the port, says so, and serves the connections that come.
///
/// # Errors
///
/// `Memory` where there is none before the port is asked for, `Output` where it could not be said that the server
/// listens, `Doors` where the doors could not listen or gave no connection.
pub fn serve_at<R: Wait, O: Sink, D: Doors>(
    rt: &R,
    alloc: Global,
    table: &Timetable,
    listening: Listening,
    output: &mut O,
    doors: &mut D,
) -> Result<(), NotServed>
    requires none_out { (D.seen doors.old).is_out ≡ false }
    ensures { let lent_output = lent O.seen output.old output.new in
        let lent_doors = lent (λ d. seen_as (D.seen d) (D.faults d)) doors.old doors.new in
        ServesAt (AnswersBody (RegionAnswers table.now)) listening.port listening.count lent_output lent_doors result }
{
    let mut scan = match Scan::new(alloc, table) {
        Ok(scan) => scan,
        Err(NoMemory) => return Err(NotServed::Memory),
    };
    match start(listening, output, doors) {
        Ok(()) => {}
        Err(refused) => return Err(refused),
    }
    match serve_all(rt, alloc, table, &mut scan, doors) {
        DoorRefused::Closed => Ok(()),
        DoorRefused::Failed => Err(NotServed::Doors),
    }
}

/// Listens at the port, and says so.
///
/// # Errors
///
/// `Output` where it could not be said that the server listens, `Doors` where the doors could not listen.
pub fn start<O: Sink, D: Doors>(
    listening: Listening,
    output: &mut O,
    doors: &mut D,
) -> Result<(), NotServed>
    ensures { let lent_output = lent O.seen output.old output.new in
        let lent_doors = lent (λ d. seen_as (D.seen d) (D.faults d)) doors.old doors.new in
        Starts listening.port listening.count lent_output lent_doors result }
{
    match doors.listen(listening.port, listening.count) {
        Ok(()) => {}
        Err(DoorRefused::Failed) => return Err(NotServed::Doors),
        Err(DoorRefused::Closed) => unreachable!(),
    }
    match put_all(output, READY) {
        Ok(()) => Ok(()),
        Err(WriteFault) => Err(NotServed::Output),
    }
}

/// Serves connections until the doors give none.
fn serve_all<R: Wait, D: Doors>(
    rt: &R,
    alloc: Global,
    table: &Timetable,
    scan: &mut Scan,
    doors: &mut D,
) -> DoorRefused
    requires made { IsMadeFor scan.old table.now }
    requires none_out { (D.seen doors.old).is_out ≡ false }
    requires fresh { (D.seen doors.old).given ≡ 0 }
    ensures { ServesUntil (AnswersBody (RegionAnswers table.now)) (seen_as (D.seen doors.old) (D.faults doors.old)) (seen_as (D.seen doors.new) (D.faults doors.new)) result }
{
    'serving: for _ in rt.forever() {
        match serve_next(alloc, table, scan, doors) {
            Ok(()) => {}
            Err(refused) => return refused,
        }
    }
    unreachable!()
}

/// Takes the next connection, serves it, whatever comes of it, and gives it back.
fn serve_next<D: Doors>(
    alloc: Global,
    table: &Timetable,
    scan: &mut Scan,
    doors: &mut D,
) -> Result<(), DoorRefused>
    requires made { IsMadeFor scan.old table.now }
    requires none_out { (D.seen doors.old).is_out ≡ false }
    ensures made { IsMadeFor scan.new table.now }
    ensures served { ServesNext (AnswersBody (RegionAnswers table.now)) (seen_as (D.seen doors.old) (D.faults doors.old)) (seen_as (D.seen doors.new) (D.faults doors.new)) result }
{
    let (mut input, mut output) = match doors.next() {
        Ok(connection) => connection,
        Err(DoorRefused::Closed) => return Err(DoorRefused::Closed),
        Err(DoorRefused::Failed) => return Err(DoorRefused::Failed),
    };
    let _ = serve_one(alloc, table, scan, &mut input, &mut output);
    doors.back(input, output);
    Ok(())
}
