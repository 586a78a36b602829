//! Asks of the first region.

ghost use Rattle.std.specs.Prelude.{◌≡◌, []};
ghost use Rattle.ojp_links.specs.Seen.{IsLive};
ghost use Rattle.ojp_links_mem.specs.Memory.{links_of};

use ojp_links::{AskRefused, Links, More, PacedLinks, Sub, WaitLinks};
use ojp_links_mem::MemLinks;
use ojp_values::Code;

/// A request that is refused by its method.
const REQUEST: &[u8] = b"GET /ojp HTTP/1.1\r\nHost: a\r\n\r\n";

/// The most rests that an ask is waited for.
const PATIENCE: u64 = 20;

/// How an ask ends.
#[derive(Clone, Copy, Debug)]
pub(crate) enum End {
    /// It was not made.
    Refused,
    /// So many rests, and then the look failed.
    Failed(u64),
    /// So many rests, and then so many bytes.
    Got(u64, usize),
}

/// Adds the region AA, whose host is this text.
pub(crate) fn add_region(links: &mut MemLinks, host: &str) -> Option<()>
    requires { (links_of links.old).fixed.stations ≡ [] }
{
    let code = Code::new("AA").ok()?;
    links.add(code, host, 80).ok()
}

/// Rests until a look gives something, which it does in the end, and how often it rested.
fn rests_before(links: &mut MemLinks, sub: &Sub) -> (u64, More)
    requires { IsLive (links_of links.old) sub.now.key }
    ensures { IsLive (links_of links.new) sub.now.key }
{
    'rests: for count in 0..PATIENCE {
        let answer = links.more(sub);
        if answer != More::NotYet {
            return (count, answer);
        }
        links.rest();
    }
    (PATIENCE, More::NotYet)
}

/// How an ask of the first region ends; none where there is no region or no memory.
pub(crate) fn ask_first(links: &mut MemLinks) -> Option<End> {
    if links.regions() == 0 {
        return None;
    }
    let sub = match links.ask(0, REQUEST) {
        Ok(sub) => sub,
        Err(AskRefused::Failed) => return Some(End::Refused),
        Err(AskRefused::NoMemory) => return None,
    };
    let (rests, answer) = rests_before(links, &sub);
    let bytes = links.bytes(&sub).len();
    links.close(sub);
    match answer {
        More::Failed => Some(End::Failed(rests)),
        _ => Some(End::Got(rests, bytes)),
    }
}
