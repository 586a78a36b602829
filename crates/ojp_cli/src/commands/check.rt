//! The command `check`: which document the input is.

ghost use Rattle.std.specs.Prelude.{◌≡◌};
ghost use Rattle.ojp_steps.specs.Lent.{lent};
ghost use Rattle.ojp_steps.specs.Endings.{HasEnding};
ghost use Rattle.ojp_cli.specs.Checks.{ask_name, delivery_name, element_name, Checked, CheckFails};

use ojp_grammar::refusals::Want;
use ojp_outside::{Sink, Source, WriteFault, put_parts};
use ojp_steps::failures::Failure;
use ojp_steps::input::{failure_of, read_document};
use ojp_values::{Ask, Delivery, Doc};
use std::alloc::Global;

/// Reads one document and writes the name of its request or delivery element, as a line.
pub(crate) fn check<I: Source, O: Sink>(
    alloc: Global,
    input: &mut I,
    output: &mut O,
) -> Result<(), Failure<'static>>
    ensures { let lent_input = lent I.seen input.old input.new in
        let lent_output = lent O.seen output.old output.new in
        HasEnding (Checked lent_input lent_output) (CheckFails lent_input lent_output) result }
{
    let document = match read_document(alloc, Want::Either, input) {
        Ok(document) => document,
        Err(refused) => return Err(failure_of(refused)),
    };
    let name = name_of(&document);
    match put_parts(output, &[name.as_bytes(), b"\n"]) {
        Ok(()) => Ok(()),
        Err(WriteFault) => Err(Failure::Output),
    }
}

fn name_of(document: &Doc) -> &'static str
    ensures { result.now ≡ element_name document.now }
{
    match document {
        Doc::Ask(ask) => name_of_ask(ask),
        Doc::Delivery(delivery) => name_of_delivery(delivery),
    }
}

fn name_of_ask(ask: &Ask) -> &'static str
    ensures { result.now ≡ ask_name ask.now }
{
    match ask {
        Ask::Trip(_) => "OJPTripRequest",
        Ask::Multi(_) => "OJPMultiPointTripRequest",
        Ask::Events(_) => "OJPStopEventRequest",
        Ask::Points(_) => "OJPExchangePointsRequest",
    }
}

fn name_of_delivery(delivery: &Delivery) -> &'static str
    ensures { result.now ≡ delivery_name delivery.now }
{
    match delivery {
        Delivery::Trip(_) => "OJPTripDelivery",
        Delivery::Multi(_) => "OJPMultiPointTripDelivery",
        Delivery::Events(_) => "OJPStopEventDelivery",
        Delivery::Points(_) => "OJPExchangePointsDelivery",
    }
}
