//! Doors at a port of this machine.
ghost use Rattle.std.specs.Prelude.{◌≡◌, IfSome, None};
ghost use Rattle.ojp_outside.specs.Doors.{no_doors};
ghost use Rattle.ojp_outside.specs.Wanted.{asked_of};

use crate::wanted::{Wanted, is_complete};
use crate::{DoorRefused, Doors, Sink, StdSink, StdSource};
use std::io;
use std::io::{ErrorKind, Read, Write};
use std::net::{IpAddr, Ipv4Addr, Net, OpenListener, OpenStream, Shutdown, SocketAddr};
use std::time::Duration;

/// A read or a write that makes no progress for so many seconds fails.
const PATIENCE: u64 = 30;

/// So many seconds the next piece is waited for of what a client still sends when its connection is
/// given back.
const REST_PATIENCE: u64 = 1;

/// The most bytes of such a piece, and the most pieces: 4 MiB in all.
const REST_PIECE: usize = 16_384;

const REST_PIECES: usize = 256;

/// A writer that tells nothing of what it holds, as a socket does not.
#[derive(Drop)]
pub struct Untold<W: Write + Drop> {
    writer: W,
}

impl<W: Write + Drop> Write for Untold<W> {
    fn write(&mut self, buf: &[u8]) -> io::Result<usize> {
        self.writer.write(buf)
    }

    fn flush(&mut self) -> io::Result<()> {
        self.writer.flush()
    }
}

/// A listener on 127.0.0.1 with a count of the calls that failed. It does not tell which connections
/// came back.
#[derive(Drop)]
pub struct TcpDoors<N: Net + Drop> {
    net: N,
    listener: Option<N::Listener>,
    wanted: Option<Wanted>,
    given: u64,
    is_out: bool,
    faults: u64,
}

impl<N: Net + Drop> TcpDoors<N> {
    pub fn new(net: N) -> TcpDoors<N>
        ensures seen { ⟦<TcpDoors<N> as Doors>⟧.seen result ≡ no_doors }
        ensures faults { ⟦<TcpDoors<N> as Doors>⟧.faults result ≡ 0 }
    {
        TcpDoors {
            net,
            listener: None,
            wanted: None,
            given: 0,
            is_out: false,
            faults: 0,
        }
    }
}

/// The next connection. One that was reset before it was taken is passed over.
fn accept<L: OpenListener>(listener: &L) -> Option<L::Stream> {
    for _ in 0..u64::MAX {
        match listener.accept() {
            Ok((stream, _)) => return Some(stream),
            Err(error) => match error.kind() {
                ErrorKind::ConnectionAborted | ErrorKind::ConnectionReset => {}
                _ => return None,
            },
        }
    }
    None
}

/// The two halves of a connection, which sends at once what is written, and whose reads and writes
/// fail that make no progress.
fn halves<T: Read + Write + OpenStream + Drop>(
    stream: T,
) -> Option<(StdSource<T>, StdSink<Untold<T>>)>
    ensures { IfSome result (λ halves. (⟦<StdSink<Untold<T>> as Sink>⟧.seen halves.1).written ≡ None) }
{
    let patience = Duration::from_secs(PATIENCE);
    stream.set_nodelay(true).ok()?;
    stream.set_read_timeout(Some(patience)).ok()?;
    stream.set_write_timeout(Some(patience)).ok()?;
    let writer = stream.try_clone().ok()?;
    Some((StdSource::new(stream), StdSink::new(Untold { writer })))
}

/// Ends a connection: nothing more is written to it, and a bounded rest of what the client sends is
/// read. Where bytes are unread at its end, the system takes back from the client what it was sent.
fn hang_up<T: Read + OpenStream + Drop>(stream: T) {
    let mut stream = stream;
    let patience = Duration::from_secs(REST_PATIENCE);
    let is_open = stream.shutdown(Shutdown::Write).is_ok();
    if !is_open || stream.set_read_timeout(Some(patience)).is_err() {
        return;
    }
    let mut piece = [0u8; REST_PIECE];
    for _ in 0..REST_PIECES {
        match stream.read(&mut piece) {
            Ok(count) if count > 0 => {}
            _ => return,
        }
    }
}

impl<N: Net + Drop> Doors for TcpDoors<N> {
    type In = StdSource<N::Stream>;

    type Out = StdSink<Untold<N::Stream>>;

    ghost seen = { λ d. record { asked = asked_of d.wanted; given = d.given; is_out = d.is_out; out = None; returned = None } };

    ghost faults = { λ d. d.faults };

    ghost told = { λ d out. tt };

    fn listen(&mut self, at: u16, most: Option<u64>) -> Result<(), DoorRefused> {
        self.wanted = Some(Wanted { port: at, most });
        self.given = 0;
        let here = SocketAddr::new(IpAddr::V4(Ipv4Addr::LOCALHOST), at);
        match self.net.bind(here) {
            Ok(listener) => {
                self.listener = Some(listener);
                Ok(())
            }
            Err(_) => {
                self.listener = None;
                self.faults = self.faults.saturating_add(1);
                Err(DoorRefused::Failed)
            }
        }
    }

    fn next(&mut self) -> Result<(Self::In, Self::Out), DoorRefused> {
        if is_complete(self.wanted, self.given) {
            return Err(DoorRefused::Closed);
        }
        let stream = match &self.listener {
            Some(listener) => accept(listener),
            None => None,
        };
        match stream.and_then(halves) {
            Some(halves) => {
                self.given = self.given.saturating_add(1);
                self.is_out = true;
                Ok(halves)
            }
            None => {
                self.faults = self.faults.saturating_add(1);
                Err(DoorRefused::Failed)
            }
        }
    }

    fn back(&mut self, input: Self::In, _output: Self::Out) {
        hang_up(input.into_reader());
        self.is_out = false;
    }
}
