//! The command `ask`: one request, sent to a server, and its delivery.

ghost use Rattle.std.specs.Prelude.{◌≡◌, []};
ghost use Rattle.ojp_links.specs.Seen.{NoneLive};
ghost use Rattle.ojp_steps.specs.Lent.{lent};
ghost use Rattle.ojp_steps.specs.Endings.{HasEnding};
ghost use Rattle.ojp_online.specs.Added.{HasRejectedNoneServed};
ghost use Rattle.ojp_online.specs.Asks.{Asked, AskFails, one_code};

use crate::hearing::ask_server;
use ojp_bodies::spell;
use ojp_links::{Runtime, WaitLinks};
use ojp_outside::{Sink, Source, WriteFault, put_all};
use ojp_steps::failures::Failure;
use ojp_steps::input::{failure_of, read_request};
use ojp_subrequests::BeginRefused;
use ojp_values::{Code, NoMemory};
use std::alloc::Global;

/// Reads one request, sends it to the server at the host and the port, and writes the delivery that it gives, which
/// is of the kind that was asked.
pub fn ask<R: Runtime, I: Source, O: Sink, L: WaitLinks>(
    rt: &mut R,
    alloc: Global,
    host: &str,
    port: u16,
    input: &mut I,
    output: &mut O,
    links: &mut L,
) -> Result<(), Failure<'static>>
    requires none { (L.seen links.old).fixed.stations ≡ [] }
    requires none_live { NoneLive (L.seen links.old) }
    ensures ends { let lent_input = lent I.seen input.old input.new in
        let lent_output = lent O.seen output.old output.new in
        let lent_links = lent L.seen links.old links.new in
        HasEnding (Asked host.now port lent_input lent_output lent_links) (AskFails host.now port lent_input lent_output lent_links) result }
    ensures none_live { NoneLive (L.seen links.new) }
    ensures rejections { HasRejectedNoneServed (L.seen links.new) }
{
    let ask = match read_request(alloc, input) {
        Ok(ask) => ask,
        Err(refused) => return Err(failure_of(refused)),
    };
    let code = one_code();
    match links.add(code, host, port) {
        Ok(()) => {}
        Err(NoMemory) => return Err(Failure::Memory),
    }
    let delivery = match ask_server(rt, alloc, links, ask) {
        Ok(delivery) => delivery,
        Err(BeginRefused::Failed) => return Err(Failure::Region { code }),
        Err(BeginRefused::NoMemory) => return Err(Failure::Memory),
    };
    let text = match spell(alloc, delivery) {
        Ok(text) => text,
        Err(NoMemory) => return Err(Failure::Memory),
    };
    match put_all(output, text.written()) {
        Ok(()) => Ok(()),
        Err(WriteFault) => Err(Failure::Output),
    }
}

/// The code of the one link.
fn one_code() -> Code
    ensures { result ≡ one_code }
{
    match Code::new("ASK") {
        Ok(code) => code,
        Err(_) => unreachable!(),
    }
}
