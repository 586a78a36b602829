//! A region's server in memory.

ghost use Rattle.std.specs.Prelude.{◌≡◌, ◌<◌, IfOk, Some, length, option_copied, slice_get};
ghost use Rattle.ojp_values.specs.Lists.{Each};
ghost use Rattle.ojp_timetable.specs.Runs.{IsWell};
ghost use Rattle.ojp_scan.specs.Scans.{IsMadeFor};
ghost use Rattle.ojp_links.specs.Replies.{ServesByTable};
ghost use Rattle.ojp_links_mem.specs.Pending.{IsMade, IsReplyBy};
ghost use Rattle.ojp_links_mem.specs.Scripts.{fails_later, stated};
ghost use Rattle.ojp_timetable.specs.Tables.{Timetable as TimetableValue};

use crate::pending::Pending;
use crate::script::What;
use ojp_http::Served;
use ojp_outside::{MemSink, MemSource};
use ojp_region::serve_one;
use ojp_scan::Scan;
use ojp_timetable::Timetable;
use ojp_values::{Code, NoMemory};
use std::alloc::Global;
use std::marker::Model;

/// The bytes of a request that are read at once.
const PIECE: usize = 8192;

/// A timetable, with the scan that was made for it.
#[derive(Drop)]
pub(crate) struct Server {
    table: Timetable,
    scan: Scan,
}

impl Model for Server {
    ghost use Rattle.ojp_timetable.specs.Tables.{Timetable as TimetableValue};

    ghost Value = { TimetableValue };

    ghost use Rattle.ojp_scan.specs.Scans.{IsMadeFor};

    ghost view = { λ s. s.table };

    ghost invariant = { λ s. IsMadeFor s.scan s.table };
}

impl Server {
    pub fn new(alloc: Global, table: Timetable) -> Result<Server, NoMemory>
        ensures table { IfOk result (λ server. server ≡ table) }
        ensures well { IsWell table }
    {
        table.is_well();
        let scan = Scan::new(alloc, &table)?;
        Ok(Server { table, scan })
    }

    pub fn code(&self) -> Code
        ensures { result ≡ self.now.region }
    {
        self.table.region()
    }

    /// What the region's server writes for a request that is all it reads.
    pub fn reply(&mut self, alloc: Global, request: Vec<u8>) -> Result<Vec<u8>, NoMemory>
        ensures same { self.new ≡ self.old }
        ensures serves { IfOk result (λ reply. ServesByTable self.old request.items reply.items) }
    {
        served(alloc, &self.table, &mut self.scan, request)
    }
}

/// What the timetable's server writes for a request that is all it reads. A source and a sink in memory have
/// no faults but want of memory.
fn served(
    alloc: Global,
    table: &Timetable,
    scan: &mut Scan,
    request: Vec<u8>,
) -> Result<Vec<u8>, NoMemory>
    requires { IsMadeFor scan.old table.now }
    ensures made { IsMadeFor scan.new table.now }
    ensures serves { IfOk result (λ reply. ServesByTable table.now request.items reply.items) }
{
    let mut input = MemSource::new(request, PIECE, Vec::new(alloc));
    let mut output = MemSink::new(alloc, Vec::new(alloc));
    match serve_one(alloc, table, scan, &mut input, &mut output) {
        Served::Answered(_) => copied(alloc, output.written()),
        _ => Err(NoMemory),
    }
}

/// A copy of the bytes.
pub(crate) fn copied(alloc: Global, bytes: &[u8]) -> Result<Vec<u8>, NoMemory>
    ensures { IfOk result (λ copy. copy.items ≡ bytes.now) }
{
    match Vec::from_slice(alloc, bytes) {
        Ok(copy) => Ok(copy),
        Err(_) => Err(NoMemory),
    }
}

/// The servers of the timetables, in their order.
pub(crate) fn servers_of(alloc: Global, tables: Vec<Timetable>) -> Result<Vec<Server>, NoMemory>
    ensures same { IfOk result (λ servers. servers.items ≡ tables.items) }
    ensures well { IfOk result (λ servers. Each IsWell servers.items) }
{
    let mut servers = Vec::new(alloc);
    'tables: for table in tables {
        let server = Server::new(alloc, table)?;
        if servers.push(server).is_err() {
            return Err(NoMemory);
        }
    }
    Ok(servers)
}

/// What the server with the number writes for the request.
fn answer_of(
    alloc: Global,
    servers: &mut Vec<Server>,
    number: usize,
    request: &[u8],
) -> Result<Vec<u8>, NoMemory>
    requires { number < length servers.old.items }
    ensures same { servers.new.items ≡ servers.old.items }
    ensures serves { IfOk result (λ reply. (table : TimetableValue) → slice_get servers.old.items number ≡ Some table → ServesByTable table request.now reply.items) }
{
    let sent = copied(alloc, request)?;
    servers[number].reply(alloc, sent)
}

/// The whole reply of an ask that the server with the number answers: that of the script, and else what the server
/// writes.
fn reply_of(
    alloc: Global,
    servers: &mut Vec<Server>,
    number: usize,
    said: Option<&What>,
    request: &[u8],
) -> Result<Vec<u8>, NoMemory>
    requires { number < length servers.old.items }
    ensures same { servers.new.items ≡ servers.old.items }
    ensures reply { IfOk result (λ reply. (table : TimetableValue) → slice_get servers.old.items number ≡ Some table → IsReplyBy (option_copied said.entry) table request.now reply.items) }
{
    match stated(said) {
        Some(bytes) => copied(alloc, bytes),
        None => answer_of(alloc, servers, number, request),
    }
}

/// The reply that is stated, if one is.
fn stated<'a>(said: Option<&'a What>) -> Option<&'a [u8]>
    ensures { option_copied result ≡ stated (option_copied said.entry) }
{
    match said {
        Some(What::Reply(bytes)) => Some(bytes.as_slice()),
        _ => None,
    }
}

/// Whether each look at the ask fails.
fn fails_later(said: Option<&What>) -> bool
    ensures { result ≡ fails_later (option_copied said.entry) }
{
    matches!(said, Some(What::FailMore))
}

/// An ask of the region, which the server with the number answers.
pub(crate) fn asked(
    alloc: Global,
    servers: &mut Vec<Server>,
    number: usize,
    said: Option<&What>,
    region: usize,
    request: &[u8],
    rests: u64,
) -> Result<Pending, NoMemory>
    requires { number < length servers.old.items }
    ensures same { servers.new.items ≡ servers.old.items }
    ensures made { IfOk result (λ ask. (table : TimetableValue) → slice_get servers.old.items number ≡ Some table → IsMade region request.now rests (option_copied said.entry) table ask) }
{
    let kept = copied(alloc, request)?;
    let fails = fails_later(said);
    let reply = reply_of(alloc, servers, number, said, request)?;
    Ok(Pending {
        region,
        request: kept,
        reply,
        taken: 0,
        ended: false,
        looks: 0,
        rests,
        fails,
    })
}
