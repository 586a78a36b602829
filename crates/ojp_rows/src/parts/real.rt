//! A real file, a real clock and real sockets: the adapters pass on what these give.

ghost use Rattle.std.specs.Prelude.{◌≡◌, IfSome, false};

use crate::parts::outside::served;
use crate::words::text_of;
use ojp_outside::*;
use std::alloc::Global;
use std::io::Write;
use std::net::{Net, OpenStream, Shutdown, TcpStream};
use std::rt;
use std::rt::Files;

/// What the file `a.tt` holds, and what a missing one gives.
pub(crate) fn file<R: Files>(rt: &R, alloc: Global) -> Option<String> {
    let mut store = FileStore::new(rt);
    file_text(alloc, &mut store)
}

fn file_text<S: Store>(alloc: Global, store: &mut S) -> Option<String> {
    let found = store.read_file(alloc, "a.tt").ok()?;
    let missing = store.read_file(alloc, "b.tt").err()?;
    let found = text_of(&found)?;
    format!(in alloc; "{found}{missing:?}").ok()
}

/// Whether a clock goes on from a moment that is not 0.
pub(crate) fn time<R: rt::Clock>(rt: &R, alloc: Global) -> Option<String> {
    let mut clock = StdClock::new(rt);
    let first = clock.now();
    let goes_on = first > 0 && first <= clock.now();
    format!(in alloc; "{goes_on}").ok()
}

/// What comes of a client that sends more than is read: what was read, the answer that it has all the same, and the end.
pub(crate) fn sockets<R: Net>(rt: &R, alloc: Global) -> Option<String> {
    let mut doors = TcpDoors::new(rt);
    sockets_text(rt, alloc, &mut doors)
}

fn sockets_text<R: Net, D: Doors>(rt: &R, alloc: Global, doors: &mut D) -> Option<String>
where
    D::In: Drop,
    D::Out: Drop,
    requires { (D.seen doors.old).is_out ≡ false }
{
    let port = listen(doors)?;
    let answer = called(rt, alloc, doors, port)?;
    let closed = doors.next().err()?;
    format!(in alloc; "{answer} {closed:?}").ok()
}

/// The first port of a range that no other program has.
fn listen<D: Doors>(doors: &mut D) -> Option<u16>
    requires { (D.seen doors.old).is_out ≡ false }
    ensures { (D.seen doors.new).is_out ≡ false }
{
    'ports: for port in 47613..47713 {
        if doors.listen(port, Some(1)).is_ok() {
            return Some(port);
        }
    }
    None
}

/// Calls the doors at the port: what they read of the call, and the answer that the client has.
fn called<R: Net, D: Doors>(rt: &R, alloc: Global, doors: &mut D, port: u16) -> Option<String>
    requires { (D.seen doors.old).is_out ≡ false }
    ensures { IfSome result (λ _. (D.seen doors.new).is_out ≡ false) }
{
    let address = format!(in alloc; "127.0.0.1:{port}").ok()?;
    let stream = TcpStream::connect(rt, address.as_str()).ok()?;
    send(&stream)?;
    let told = served(alloc, doors, 3)?;
    let answer = read_all(alloc, &mut StdSource::new(stream), 9).ok()?;
    let answer = text_of(answer.as_slice())?;
    format!(in alloc; "{told} {answer}").ok()
}

/// Sends more than is read.
fn send<S: OpenStream + Write + Drop>(stream: &S) -> Option<()> {
    let mut peer = StdSink::new(stream.try_clone().ok()?);
    put_all(&mut peer, [b'a'; 40_000].as_slice()).ok()?;
    stream.shutdown(Shutdown::Write).ok()
}
