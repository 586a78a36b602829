//! The machine that frames a message: it keeps the bytes of a head, of a chunk line or of a trailer,
//! and hands on those of the body at once.
ghost use Rattle.std.specs.Prelude.{◌≡◌, ◌≢◌, ◌++◌, ◌∷◌, [], ◌<◌, ◌≤◌, ◌+◌, OnOk, IfOk, IfErr, MatchResult, Some, None, ◌^◌, ◌-◌, ℕ, List as Items, min, length, true, false};
ghost use Rattle.ojp_http.specs.Machine.{IsOpen, IsNewRequest, IsRun, IsNewReply, StepsBy, Enters, Follows, IsBounded, Steps, Feeds, content_left, chunk_left, chunk_start, is_whole_at, most_kept_at, taken_of};
ghost use Rattle.ojp_http.specs.Bodies.{has_no_feed, room_after, IsAbove};
ghost use Rattle.ojp_http.specs.ChunkLines.{EndsLine, IsLineSize};
ghost use Rattle.ojp_http.specs.LineCounts.{no_lines, count_step};
ghost use Rattle.ojp_http.specs.declared.machine.Phase.TheVariants.{Head, ReplyHead, Content, Line, Data, Return, Trailing, Whole};

use crate::count::{HEAD_LIMIT, LineCount};
use crate::fields::BODY_LIMIT;
use crate::head::{request_frame, response_frame, trailer_end};
use crate::refusal::{Frame, Refusal};
use httparse::{Status, parse_chunk_size};
use memchr::memchr;
use std::alloc::Global;

/// The most bytes of a chunk line.
const LINE_LIMIT: usize = 256;

/// Why the machine stops.
#[derive(Clone, Copy, Debug, PartialEq, Eq)]
pub enum Stop {
    /// The bytes decide a refusal.
    Refused(Refusal),
    /// Memory ran out.
    NoMemory,
}

/// What comes next.
#[derive(Clone, Copy, Debug, PartialEq, Eq)]
pub enum Phase {
    /// The head of a request.
    Head,
    /// The head of a reply.
    ReplyHead,
    /// So many bytes of a body.
    Content(u64),
    /// A chunk line.
    Line,
    /// So many bytes of a chunk.
    Data(u64),
    /// The line end behind a chunk, of which the carriage return may be there.
    Return(bool),
    /// The trailer.
    Trailing,
    /// Nothing.
    Whole,
}

/// What was kept of a message, and what comes next.
#[derive(Drop)]
pub struct Framing {
    pub phase: Phase,
    /// How many bytes the chunks to come may have, where there is a limit.
    pub room: Option<u64>,
    pub kept: Vec<u8>,
    pub count: LineCount,
}

impl Framing {
    /// Before the first byte of a request.
    pub fn request(alloc: Global) -> Framing
        ensures new { IsNewRequest result }
        ensures room { result.room ≡ Some 1048576 }
        ensures phase { result.phase ≡ Head }
        ensures kept { result.kept.items ≡ [] }
    {
        Framing {
            phase: Phase::Head,
            room: Some(BODY_LIMIT),
            kept: Vec::new(alloc),
            count: LineCount::new(),
        }
    }

    /// Before the first byte of a reply.
    pub fn reply(alloc: Global) -> Framing
        ensures { IsNewReply result }
    {
        Framing {
            phase: Phase::ReplyHead,
            room: None,
            kept: Vec::new(alloc),
            count: LineCount::new(),
        }
    }

    /// Keeps a byte of a head or of a trailer, and counts its line.
    fn keep(&mut self, byte: u8) -> Result<(), Stop>
        requires { self.old.count.counted < 2 ^ 64 - 1 }
        ensures kept { OnOk result (self.new.kept.items ≡ self.old.kept.items ++ byte ∷ []) }
        ensures count { OnOk result (self.new.count ≡ count_step self.old.count byte) }
        ensures phase { self.new.phase ≡ self.old.phase }
        ensures room { self.new.room ≡ self.old.room }
        ensures memory { IfErr result (λ stop. stop ≡ Stop.NoMemory) }
    {
        match self.kept.push(byte) {
            Ok(()) => {
                self.count = self.count.after(byte);
                Ok(())
            }
            Err(_) => Err(Stop::NoMemory),
        }
    }

    /// Goes to the body in this frame.
    fn follow(&mut self, room: Option<u64>, frame: Frame) -> Result<(), Stop>
        requires { IsBounded room frame }
        ensures { Follows room frame result self.new }
    {
        self.kept.clear();
        self.room = room;
        match frame {
            Frame::Counted(length) => {
                self.phase = content_phase(length);
                Ok(())
            }
            Frame::Chunked => {
                self.phase = Phase::Line;
                Ok(())
            }
            Frame::Refused(refusal) => Err(Stop::Refused(refusal)),
        }
    }

    /// One byte more of a request's head.
    fn step_head(&mut self, byte: u8) -> Result<(), Stop>
        requires phase { self.old.phase ≡ Head }
        requires ready { IsOpen self.old }
        ensures { StepsBy self.old (byte ∷ []) result self.new }
    {
        let Ok(()) = self.keep(byte) else {
            return Err(Stop::NoMemory);
        };
        match request_frame(&self.kept, self.count) {
            Ok(Some(frame)) => self.follow(Some(BODY_LIMIT), frame),
            Ok(None) => Ok(()),
            Err(refusal) => Err(Stop::Refused(refusal)),
        }
    }

    /// One byte more of a reply's head.
    fn step_reply_head(&mut self, byte: u8) -> Result<(), Stop>
        requires phase { self.old.phase ≡ ReplyHead }
        requires ready { IsOpen self.old }
        ensures { StepsBy self.old (byte ∷ []) result self.new }
    {
        let Ok(()) = self.keep(byte) else {
            return Err(Stop::NoMemory);
        };
        match response_frame(&self.kept, self.count) {
            Ok(Some(frame)) => self.follow(None, frame),
            Ok(None) => Ok(()),
            Err(refusal) => Err(Stop::Refused(refusal)),
        }
    }

    /// One byte more of a trailer.
    fn step_trailer(&mut self, byte: u8) -> Result<(), Stop>
        requires phase { self.old.phase ≡ Trailing }
        requires ready { IsOpen self.old }
        ensures { StepsBy self.old (byte ∷ []) result self.new }
    {
        let Ok(()) = self.keep(byte) else {
            return Err(Stop::NoMemory);
        };
        match trailer_end(&self.kept, byte, self.count) {
            Ok(Some(())) => {
                self.phase = Phase::Whole;
                Ok(())
            }
            Ok(None) => Ok(()),
            Err(refusal) => Err(Stop::Refused(refusal)),
        }
    }

    /// Bytes of a chunk line from the front of the piece, up to its line feed.
    fn step_line(&mut self, piece: &[u8]) -> Result<usize, Stop>
        requires phase { self.old.phase ≡ Line }
        requires ready { IsOpen self.old }
        requires some { 0 < length piece.now }
        ensures { (body : Items ℕ) → Steps self.old piece.now body result self.new body }
    {
        let most = piece.len().min(LINE_LIMIT - self.kept.len());
        match memchr(b'\n', &piece[..most]) {
            Some(end) => taking(end + 1, self.end_line(&piece[..end + 1])),
            None => taking(most, self.begin_line(&piece[..most])),
        }
    }

    /// The last bytes of a chunk line.
    fn end_line(&mut self, run: &[u8]) -> Result<(), Stop>
        requires phase { self.old.phase ≡ Line }
        requires ends { EndsLine (self.old.kept.items ++ run.now) }
        requires within { length self.old.kept.items + length run.now ≤ 256 }
        ensures { StepsBy self.old run.now result self.new }
    {
        let Ok(size) = self.size_with(run) else {
            return Err(Stop::NoMemory);
        };
        match size {
            Some(size) => self.enter(size),
            None => Err(Stop::Refused(Refusal::Chunk)),
        }
    }

    /// The size that a chunk line writes, whose last bytes are these.
    fn size_with(&mut self, run: &[u8]) -> Result<Option<u64>, Stop>
        requires { EndsLine (self.old.kept.items ++ run.now) }
        ensures size { IfOk result (λ size. IsLineSize (self.old.kept.items ++ run.now) size) }
        ensures room { self.new.room ≡ self.old.room }
    {
        if self.kept.is_empty() {
            return Ok(line_size(run));
        }
        match self.kept.extend_from_slice(run) {
            Ok(()) => Ok(line_size(&self.kept)),
            Err(_) => Err(Stop::NoMemory),
        }
    }

    /// Bytes of a chunk line before its line feed.
    fn begin_line(&mut self, run: &[u8]) -> Result<(), Stop>
        requires phase { self.old.phase ≡ Line }
        requires plain { has_no_feed (self.old.kept.items ++ run.now) ≡ true }
        requires within { length self.old.kept.items + length run.now ≤ 256 }
        ensures { StepsBy self.old run.now result self.new }
    {
        let Ok(()) = self.kept.extend_from_slice(run) else {
            return Err(Stop::NoMemory);
        };
        if self.kept.len() == LINE_LIMIT {
            return Err(Stop::Refused(Refusal::Chunk));
        }
        Ok(())
    }

    /// Keeps a run of bytes of a line.
    fn keep_run(&mut self, count: usize, piece: &[u8]) -> Result<usize, Stop>
        requires ready { IsOpen self.old }
        requires run { IsRun (most_kept_at self.old.phase) (length self.old.kept.items) piece.now count }
        requires some { 0 < count }
        ensures { (body : Items ℕ) → Steps self.old piece.now body result self.new body }
    {
        let run = &piece[..count];
        let Ok(()) = self.kept.extend_from_slice(run) else {
            return Err(Stop::NoMemory);
        };
        self.count = self.count.after_run(run);
        Ok(count)
    }

    /// One byte of the line end behind a chunk.
    fn step_return(&mut self, has_return: bool, byte: u8) -> Result<(), Stop>
        requires { self.old.phase ≡ Return has_return }
        ensures { StepsBy self.old (byte ∷ []) result self.new }
    {
        if has_return {
            if byte == b'\n' {
                self.kept.clear();
                self.phase = Phase::Line;
                return Ok(());
            }
            return Err(Stop::Refused(Refusal::Chunk));
        }
        if byte == b'\r' {
            self.phase = Phase::Return(true);
            return Ok(());
        }
        Err(Stop::Refused(Refusal::Chunk))
    }

    /// Bytes of a body from the front of the piece.
    fn take_content(&mut self, left: u64, piece: &[u8], body: &mut Vec<u8>) -> Result<usize, Stop>
        requires phase { self.old.phase ≡ Content left }
        requires lacks { 0 < left }
        requires some { 0 < length piece.now }
        ensures { Steps self.old piece.now body.old.items result self.new body.new.items }
    {
        let count = front_len(left, piece.len());
        let Ok(()) = body.extend_from_slice(&piece[..count]) else {
            return Err(Stop::NoMemory);
        };
        self.phase = content_phase(left - count as u64);
        Ok(count)
    }

    /// Bytes of a chunk from the front of the piece.
    fn take_data(&mut self, left: u64, piece: &[u8], body: &mut Vec<u8>) -> Result<usize, Stop>
        requires phase { self.old.phase ≡ Data left }
        requires lacks { 0 < left }
        requires some { 0 < length piece.now }
        ensures { Steps self.old piece.now body.old.items result self.new body.new.items }
    {
        let count = front_len(left, piece.len());
        let Ok(()) = body.extend_from_slice(&piece[..count]) else {
            return Err(Stop::NoMemory);
        };
        self.phase = chunk_phase(left - count as u64);
        Ok(count)
    }

    /// Some bytes from the front of the piece.
    fn step(&mut self, piece: &[u8], body: &mut Vec<u8>) -> Result<usize, Stop>
        requires ready { IsOpen self.old }
        requires unfinished { is_whole_at self.old.phase ≡ false }
        requires some { 0 < length piece.now }
        ensures { Steps self.old piece.now body.old.items result self.new body.new.items }
    {
        let run = run_len(most_kept(self.phase), self.kept.len(), piece);
        if run > 0 {
            return self.keep_run(run, piece);
        }
        let byte = piece[0];
        match self.phase {
            Phase::Content(left) => self.take_content(left, piece, body),
            Phase::Data(left) => self.take_data(left, piece, body),
            Phase::Head => taking(1, self.step_head(byte)),
            Phase::ReplyHead => taking(1, self.step_reply_head(byte)),
            Phase::Line => self.step_line(piece),
            Phase::Return(has_return) => taking(1, self.step_return(has_return, byte)),
            Phase::Trailing => taking(1, self.step_trailer(byte)),
            Phase::Whole => unreachable!(),
        }
    }

    /// Whether the message is whole.
    pub fn is_whole(&self) -> bool
        ensures { result ≡ is_whole_at self.now.phase }
    {
        matches!(self.phase, Phase::Whole)
    }

    /// Reads a piece, up to the end of the message, and says how many of its bytes belong to it. What
    /// they hold of the body is added to it.
    pub fn feed(&mut self, piece: &[u8], body: &mut Vec<u8>) -> Result<usize, Stop>
        requires { IsOpen self.old }
        ensures { Feeds self.old piece.now body.old.items result self.new body.new.items }
    {
        let mut used = 0;
        'feeding: while used < piece.len() && !self.is_whole() {
            match self.step(&piece[used..], body) {
                Ok(count) => used += count,
                Err(stop) => return Err(stop),
            }
        }
        Ok(used)
    }

    /// Goes to what a chunk line's size asks for.
    fn enter(&mut self, size: u64) -> Result<(), Stop>
        ensures { Enters self.old.room size result self.new }
    {
        let Ok(room) = room_left(self.room, size) else {
            return Err(Stop::Refused(Refusal::TooLong));
        };
        self.room = room;
        self.kept.clear();
        self.count = LineCount::new();
        self.phase = start_phase(size);
        Ok(())
    }
}

/// How many of the bytes that a body lacks a piece of this length holds.
fn front_len(left: u64, len: usize) -> usize
    ensures { result ≡ min left len }
{
    if left < len as u64 {
        left as usize
    } else {
        len
    }
}

/// How many bytes fill what is kept of a head or of a trailer.
fn most_kept(phase: Phase) -> usize
    ensures { result ≡ most_kept_at phase }
{
    match phase {
        Phase::Head | Phase::ReplyHead | Phase::Trailing => HEAD_LIMIT,
        Phase::Content(_) | Phase::Line | Phase::Data(_) | Phase::Return(_) | Phase::Whole => 0,
    }
}

/// How many bytes in front of the piece stand before a line feed and do not fill what is kept.
fn run_len(most: usize, kept: usize, piece: &[u8]) -> usize
    ensures { IsRun most kept piece.now result }
{
    if most <= kept {
        return 0;
    }
    let front = &piece[..piece.len().min(most - kept - 1)];
    match memchr(b'\n', front) {
        Some(end) => end,
        None => front.len(),
    }
}

/// So many bytes, where a step by them was made.
fn taking(count: usize, step: Result<(), Stop>) -> Result<usize, Stop>
    ensures { result ≡ taken_of count step }
{
    match step {
        Ok(()) => Ok(count),
        Err(stop) => Err(stop),
    }
}

/// The phase in a body that lacks so many bytes.
fn content_phase(left: u64) -> Phase
    ensures { result ≡ content_left left }
{
    if left == 0 {
        Phase::Whole
    } else {
        Phase::Content(left)
    }
}

/// The phase behind a chunk line of this size.
fn start_phase(size: u64) -> Phase
    ensures { result ≡ chunk_start size }
{
    if size == 0 {
        Phase::Trailing
    } else {
        Phase::Data(size)
    }
}

/// The phase in a chunk that lacks so many bytes.
fn chunk_phase(left: u64) -> Phase
    ensures { result ≡ chunk_left left }
{
    if left == 0 {
        Phase::Return(false)
    } else {
        Phase::Data(left)
    }
}

/// The size that a chunk line writes, where it is one.
fn line_size(line: &[u8]) -> Option<u64>
    requires { EndsLine line.now }
    ensures { IsLineSize line.now result }
{
    match parse_chunk_size(line) {
        Ok(Status::Complete((_, size))) => Some(size),
        _ => None,
    }
}

/// The room behind a chunk of this size, where it has room.
fn room_left(room: Option<u64>, size: u64) -> Result<Option<u64>, ()>
    ensures { MatchResult result (λ left. (left ≡ room_after room size) × ¬ (IsAbove room size)) (λ none. IsAbove room size) }
{
    match room {
        None => Ok(None),
        Some(room) if size <= room => Ok(Some(room - size)),
        Some(_) => Err(()),
    }
}
