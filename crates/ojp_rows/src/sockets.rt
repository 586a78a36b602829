//! Rows of asks over sockets of this machine: each names a server that is silent, slow, quick, far behind, or not there. A
//! row is told by what each look gave, and by how many bytes came. The clock gives stated moments, so that no row waits for
//! half a minute.

mod asking;

use crate::sockets::asking::Asked;
use ojp_links::{AskRefused, More, Runtime};
use ojp_outside::MemClock;
use std::alloc::Global;
use std::io::{Read, Write};
use std::net::{IpAddr, Ipv4Addr, Net, OpenListener, OpenStream, SocketAddr};
use std::time::Duration;

const HOST: &str = "127.0.0.1";

/// The request of most rows. What it says does not matter here.
const REQUEST: &[u8] = b"POST /ojp HTTP/1.1\r\nHost: AA\r\nContent-Length: 0\r\n\r\n";

/// A request that no socket takes at once.
const LARGE: usize = 8_000_000;

/// A reply that no look takes at once.
const REPLY: usize = 40_000;

/// The most looks at an ask until its end is seen.
const LOOKS: usize = 100;

/// Writes what came of the ask of a row.
pub(crate) fn tell<R: AllocGlobal + Print + Runtime>(rt: &R, row: &str) -> Option<()> {
    let outcome = outcome_of(rt, rt.alloc(), row)?;
    println!(rt; "{row}: {outcome}").ok()
}

fn outcome_of<R: Runtime>(rt: &R, alloc: Global, row: &str) -> Option<String> {
    match row {
        "silent" => silent(rt, alloc),
        "slow" => slow(rt, alloc),
        "answered" => answered(rt, alloc),
        "large" => large(rt, alloc),
        "nobody" => nobody(rt, alloc),
        "unknown" => unknown(rt, alloc),
        _ => None,
    }
}

/// A listener at some port of this machine, and the port.
fn listen<N: Net>(net: &N) -> Option<(N::Listener, u16)> {
    let here = SocketAddr::new(IpAddr::V4(Ipv4Addr::LOCALHOST), 0);
    let listener = net.bind(here).ok()?;
    let port = listener.local_addr().ok()?.port();
    Some((listener, port))
}

/// The connection that waits at the listener. A read that takes longer than ten seconds fails.
fn accept<L: OpenListener>(listener: &L) -> Option<L::Stream>
where
    L::Stream: OpenStream,
{
    let (stream, _) = listener.accept().ok()?;
    stream.set_read_timeout(Some(Duration::from_secs(10))).ok()?;
    Some(stream)
}

/// The system takes the connection, and nothing ever answers: the ask waits 29,999 milliseconds after its request
/// was sent, and fails at 30,000.
fn silent<R: Runtime>(rt: &R, alloc: Global) -> Option<String> {
    let (_listener, port) = listen(rt)?;
    let moments = Vec::from_slice(alloc, &[0, 0, 0, 29_999, 30_000, 30_001]).ok()?;
    let clock = MemClock::new(moments);
    let mut asked = Asked::begin(alloc, rt, clock, HOST, port, REQUEST)?.ok()?;
    asked.wait(rt);
    let (sent, early) = (asked.look(), asked.look());
    let (late, later) = (asked.look(), asked.look());
    asked.close();
    format!(in alloc; "{sent:?} {early:?} {late:?} {later:?}").ok()
}

/// One byte comes at 20,000: the ask waits until 49,999, and fails at 50,000.
fn slow<R: Runtime>(rt: &R, alloc: Global) -> Option<String> {
    let (listener, port) = listen(rt)?;
    let moments = Vec::from_slice(alloc, &[0, 0, 0, 20_000, 20_000, 49_999, 50_000]).ok()?;
    let clock = MemClock::new(moments);
    let mut asked = Asked::begin(alloc, rt, clock, HOST, port, REQUEST)?.ok()?;
    let told = slow_text(rt, alloc, &listener, &mut asked);
    asked.close();
    told
}

fn slow_text<R: Runtime>(
    rt: &R,
    alloc: Global,
    listener: &R::Listener,
    asked: &mut Asked<&R>,
) -> Option<String> {
    asked.wait(rt);
    let sent = asked.look();
    let mut stream = accept(listener)?;
    stream.write_all(b"H").ok()?;
    asked.wait(rt);
    let (got, early, late) = (asked.look(), asked.look(), asked.look());
    let count = asked.count();
    format!(in alloc; "{sent:?} {got:?} {early:?} {late:?}, {count} bytes").ok()
}

/// The reply comes at once, and then the end, which stays.
fn answered<R: Runtime>(rt: &R, alloc: Global) -> Option<String> {
    let (listener, port) = listen(rt)?;
    let clock = MemClock::new(Vec::from_slice(alloc, &[0]).ok()?);
    let mut asked = Asked::begin(alloc, rt, clock, HOST, port, REQUEST)?.ok()?;
    let told = answered_text(rt, alloc, &listener, &mut asked);
    asked.close();
    told
}

fn answered_text<R: Runtime>(
    rt: &R,
    alloc: Global,
    listener: &R::Listener,
    asked: &mut Asked<&R>,
) -> Option<String> {
    asked.wait(rt);
    let sent = asked.look();
    answer(accept(listener)?)?;
    asked.wait(rt);
    let (got, end, still) = (asked.look(), asked.look(), asked.look());
    let count = asked.count();
    format!(in alloc; "{sent:?} {got:?} {end:?} {still:?}, {count} bytes").ok()
}

/// Reads the request, sends a reply and ends the connection.
fn answer<S: Read + Write + Drop>(stream: S) -> Option<()> {
    let mut stream = stream;
    let mut request = [0u8; REQUEST.len()];
    stream.read_exact(&mut request).ok()?;
    stream.write_all(b"hello").ok()
}

/// The request is sent in pieces and the reply is taken in pieces.
fn large<R: Runtime>(rt: &R, alloc: Global) -> Option<String> {
    let (listener, port) = listen(rt)?;
    let request = vec![in alloc; b'a'; LARGE].ok()?;
    let clock = MemClock::new(Vec::from_slice(alloc, &[0]).ok()?);
    let mut asked = Asked::begin(alloc, rt, clock, HOST, port, &request)?.ok()?;
    let told = large_text(rt, alloc, &listener, &mut asked);
    asked.close();
    told
}

fn large_text<R: Runtime>(
    rt: &R,
    alloc: Global,
    listener: &R::Listener,
    asked: &mut Asked<&R>,
) -> Option<String> {
    asked.wait(rt);
    let sent = asked.look();
    let mut stream = accept(listener)?;
    let count = read_large(asked, &mut stream)?;
    stream.write_all(&[b'b'; REPLY]).ok()?;
    drop(stream);
    look_on(asked, rt);
    let taken = asked.count();
    format!(in alloc; "{sent:?}, {count} bytes there and {taken} back").ok()
}

/// How many bytes of the large request come, while it is looked at.
fn read_large<N: Net + Drop, S: Read>(asked: &mut Asked<N>, stream: &mut S) -> Option<usize> {
    let mut piece = [0u8; 65_536];
    let mut count = 0;
    for _ in 0..LARGE {
        if count >= LARGE {
            return Some(count);
        }
        asked.look();
        count += stream.read(&mut piece).ok()?;
    }
    None
}

/// Looks at an ask, and waits where nothing came, until its end is seen.
fn look_on<N: Net + Drop, R: Runtime>(asked: &mut Asked<N>, rt: &R) {
    for _ in 0..LOOKS {
        match asked.look() {
            More::Got => {}
            More::NotYet => asked.wait(rt),
            _ => return,
        }
    }
}

/// Nothing listens at the port: the ask fails, at once or at the first look.
fn nobody<R: Runtime>(rt: &R, alloc: Global) -> Option<String> {
    let (listener, port) = listen(rt)?;
    drop(listener);
    let clock = MemClock::new(Vec::from_slice(alloc, &[0]).ok()?);
    let mut asked = match Asked::begin(alloc, rt, clock, HOST, port, REQUEST)? {
        Ok(asked) => asked,
        Err(refused) => return format!(in alloc; "{refused:?}").ok(),
    };
    asked.wait(rt);
    let answer = asked.look();
    asked.close();
    format!(in alloc; "{answer:?}").ok()
}

/// The host's name can't be looked up.
fn unknown<N: Net>(net: &N, alloc: Global) -> Option<String> {
    let clock = MemClock::new(Vec::from_slice(alloc, &[0]).ok()?);
    match Asked::begin(alloc, net, clock, "a\0b", 80, REQUEST)? {
        Ok(asked) => {
            asked.close();
            None
        }
        Err(refused) => format!(in alloc; "{refused:?}").ok(),
    }
}
