//! One ask, sent to one server, and its delivery.

ghost use Rattle.std.specs.Prelude.{◌≡◌, ◌<◌, length, IfOk, Err};
ghost use Rattle.ojp_outside.specs.Causes.{Rose};
ghost use Rattle.ojp_values.specs.Limits.{IsWellAsk};
ghost use Rattle.ojp_links.specs.Seen.{NoneLive};
ghost use Rattle.ojp_links.specs.Calls.{Keeps};
ghost use Rattle.ojp_online.specs.Heard.{IsHeard, RejectsNoneServed};

use ojp_gateway::hear_waiting;
use ojp_links::{Runtime, WaitLinks};
use ojp_subrequests::{BeginRefused, SubEnd, Subreply};
use ojp_values::{Ask, Delivery};
use std::alloc::Global;

/// Asks the server of the first region, and gives its delivery, which is of the ask's kind.
pub(crate) fn ask_server<R: Runtime, L: WaitLinks>(
    rt: &R,
    alloc: Global,
    links: &mut L,
    ask: Ask,
) -> Result<Delivery, BeginRefused>
    requires some { 0 < length (L.seen links.old).fixed.stations }
    requires none_live { NoneLive (L.seen links.old) }
    requires well { IsWellAsk ask }
    ensures keeps { Keeps (L.seen links.old) (L.seen links.new) }
    ensures none_live { NoneLive (L.seen links.new) }
    ensures heard { IfOk result (IsHeard (L.seen links.old) 0 ask) }
    ensures failed { result ≡ Err BeginRefused.Failed → Rose ((L.seen links.old).faults 0) ((L.seen links.new).faults 0) }
    ensures rejections { RejectsNoneServed (L.seen links.old) (L.seen links.new) }
{
    let mut sub = Subreply::begin(alloc, links, 0, ask, false)?;
    let end = hear_waiting(rt, links, &mut sub);
    drop(sub);
    match end {
        SubEnd::Heard(delivery) => Ok(delivery),
        SubEnd::Failed => Err(BeginRefused::Failed),
        SubEnd::NoMemory => Err(BeginRefused::NoMemory),
    }
}
