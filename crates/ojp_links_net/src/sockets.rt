//! Sockets that do not wait.

ghost use Rattle.std.specs.Prelude.{IfSome, length};
ghost use Rattle.ojp_links_net.specs.Sockets.{IsWithin};

use mio::net::TcpStream;
use std::io;
use std::io::{ErrorKind, Read, Write};
use std::net::{Net, SocketAddr, ToSocketAddrs};

/// What kept a call from doing its work.
#[derive(Clone, Copy, Debug, PartialEq, Eq)]
pub(crate) enum Trouble {
    Failed,
    NoMemory,
}

/// What a read or a write gave.
#[derive(Clone, Copy, Debug)]
pub(crate) enum Passed {
    /// So many bytes, at least one.
    Bytes(usize),
    /// No more will come.
    End,
    /// Nothing yet.
    Nothing,
    Troubled(Trouble),
}

/// The trouble behind an error of the system.
pub(crate) fn trouble_of(error: &io::Error) -> Trouble {
    match error.kind() {
        ErrorKind::OutOfMemory => Trouble::NoMemory,
        _ => Trouble::Failed,
    }
}

/// Begins to connect to the first address of the host's name.
pub(crate) fn connect<H: Net>(net: &H, host: &str, port: u16) -> Result<TcpStream, Trouble> {
    let address = first_address(net, host, port)?;
    match begin(net, address) {
        Ok(stream) => Ok(stream),
        Err(error) => Err(trouble_of(&error)),
    }
}

/// The first address of the host's name. A name that is no address is looked up, which may take a while.
fn first_address<H: Net>(net: &H, host: &str, port: u16) -> Result<SocketAddr, Trouble> {
    match (host, port).to_socket_addrs(net) {
        Ok(addresses) => {
            let mut addresses = addresses;
            addresses.next().ok_or(Trouble::Failed)
        }
        Err(error) => Err(trouble_of(&error)),
    }
}

/// Begins to connect. The stream sends at once what is written.
fn begin<H: Net>(net: &H, address: SocketAddr) -> io::Result<TcpStream> {
    let stream = TcpStream::connect(net, address)?;
    stream.set_nodelay(true)?;
    Ok(stream)
}

/// What an error of a read or a write means; none where a signal came between.
fn after_error(error: &io::Error) -> Option<Passed>
    ensures { IfSome result (IsWithin 0) }
{
    match error.kind() {
        ErrorKind::WouldBlock => Some(Passed::Nothing),
        ErrorKind::Interrupted => None,
        _ => Some(Passed::Troubled(trouble_of(error))),
    }
}

/// Reads once.
pub(crate) fn read_piece(stream: &mut TcpStream, into: &mut [u8]) -> Passed
    ensures { IsWithin (length into.new) result }
{
    'tries: for _ in 0..u64::MAX {
        match stream.read(into) {
            Ok(0) => return Passed::End,
            Ok(count) => return Passed::Bytes(count),
            Err(error) => {
                if let Some(passed) = after_error(&error) {
                    return passed;
                }
            }
        }
    }
    Passed::Nothing
}

/// Writes once. There is something to write.
pub(crate) fn write_piece(stream: &mut TcpStream, from: &[u8]) -> Passed
    ensures { IsWithin (length from.now) result }
{
    'tries: for _ in 0..u64::MAX {
        match stream.write(from) {
            Ok(0) => return Passed::Troubled(Trouble::Failed),
            Ok(count) => return Passed::Bytes(count),
            Err(error) => {
                if let Some(passed) = after_error(&error) {
                    return passed;
                }
            }
        }
    }
    Passed::Nothing
}
