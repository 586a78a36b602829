//! Ports as texts.

ghost use Rattle.std.specs.Prelude.{decimal};
ghost use Rattle.ojp_values.specs.Numbers.{Reads};
ghost use Rattle.ojp_regions.specs.Hosts.{IsPort};

use ojp_values::read_number;

/// The port, from 1 on, that the text spells: decimal, without leading zeros.
#[tactic(auto, using(crate::proofs::PortFacts::no_port, crate::proofs::PortFacts::no_zero))]
pub fn read_port(text: &[u8]) -> Option<u16>
    ensures { Reads IsPort decimal text.now result }
{
    match u16::try_from(read_number(text)?) {
        Ok(0) => None,
        Ok(port) => Some(port),
        Err(_) => None,
    }
}
