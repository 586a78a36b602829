//! Hosts, as names or as addresses.

ghost use Rattle.std.specs.Prelude.{◌≡◌, IfOk, IsTrue};
ghost use Rattle.std.specs.List.{list_all};
ghost use Rattle.ojp_regions.specs.Hosts.{is_host, is_host_byte};

use ojp_values::NoMemory;
use std::alloc::Global;
use std::marker::Model;

/// The host of a server: 1 to 253 letters, digits, full stops and hyphens. It is seen as these bytes.
#[derive(Debug, Drop)]
pub struct Host {
    text: String,
}

impl Model for Host {
    ghost use Rattle.std.specs.Prelude.{ℕ, List, IsTrue, string_bytes};
    ghost use Rattle.ojp_regions.specs.Hosts.{is_host};

    ghost Value = { List ℕ };

    ghost view = { λ host. string_bytes host.text };

    ghost invariant = { λ host. IsTrue (is_host (string_bytes host.text)) };
}

/// Whether the bytes are a host.
pub fn is_host(text: &[u8]) -> bool
    ensures { result ≡ is_host text.now }
{
    1 <= text.len() && text.len() <= 253 && are_host_bytes(text)
}

fn are_host_bytes(text: &[u8]) -> bool
    ensures { result ≡ list_all is_host_byte text.now }
{
    text.iter().all(|&byte| is_host_byte(byte))
}

fn is_host_byte(byte: u8) -> bool
    ensures { result ≡ is_host_byte byte }
{
    matches!(byte, b'A'..=b'Z' | b'a'..=b'z' | b'0'..=b'9' | b'.' | b'-')
}

impl Host {
    /// The host with these bytes.
    pub fn new(alloc: Global, text: &[u8]) -> Result<Host, NoMemory>
        requires { IsTrue (is_host text.now) }
        ensures { IfOk result (λ host. host ≡ text.now) }
    {
        let Ok(text) = str::from_utf8(text) else {
            unreachable!()
        };
        match String::from_str(alloc, text) {
            Ok(text) => Ok(Host { text }),
            Err(_) => Err(NoMemory),
        }
    }

    /// The host as a text.
    pub fn as_str(&self) -> &str
        ensures value { result.now ≡ self.now }
        ensures well { IsTrue (is_host self.now) }
    {
        self.text.as_str()
    }
}
