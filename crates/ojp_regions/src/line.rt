//! One line of a file of regions.

ghost use Rattle.std.specs.Prelude.{◌≡◌, List, IfOk, IfErr};
ghost use Rattle.ojp_regions.specs.Lines.{AreFields, IsFieldsRefusal, IsLineRefusal, Says};
ghost use Rattle.ojp_regions.specs.declared.line.RegionLine.{RegionLine as RegionLineValue};

use crate::host::{Host, is_host};
use crate::port::read_port;
use ojp_timetable::{TableReason, body};
use ojp_values::{Code, NoMemory};
use ojp_zones::parts::Split;
use ojp_zones::splits::split;
use std::alloc::Global;

/// Why a line is not taken.
#[derive(Clone, Copy, Debug, PartialEq, Eq)]
pub enum RegionLineRefused {
    Reason(TableReason),
    NoMemory,
}

/// A region: its code, and where its server listens. The port is 1 at least.
#[derive(Debug, Drop)]
pub struct RegionLine {
    pub code: Code,
    pub host: Host,
    pub port: u16,
}

/// The region of the fields.
fn read_fields(
    alloc: Global,
    code: &[u8],
    host: &[u8],
    port: &[u8],
) -> Result<RegionLine, RegionLineRefused>
    ensures said { IfOk result (AreFields code.now host.now port.now) }
    ensures refused { IfErr result (IsFieldsRefusal code.now host.now port.now) }
{
    let Some(code) = Code::from_bytes(code) else {
        return Err(RegionLineRefused::Reason(TableReason::Value));
    };
    let Some(port) = read_port(port) else {
        return Err(RegionLineRefused::Reason(TableReason::Value));
    };
    if !is_host(host) {
        return Err(RegionLineRefused::Reason(TableReason::Value));
    }
    match Host::new(alloc, host) {
        Ok(host) => Ok(RegionLine { code, host, port }),
        Err(NoMemory) => Err(RegionLineRefused::NoMemory),
    }
}

/// The region that the line says, or the first check of its form and its values that it fails.
pub(crate) fn read_line(alloc: Global, text: &[u8]) -> Result<RegionLine, RegionLineRefused>
    ensures said { IfOk result (Says text.now) }
    ensures refused { IfErr result (λ refused. (above : List RegionLineValue) → IsLineRefusal above text.now refused) }
{
    match split(body(text), b' ') {
        Split::Three(code, host, port) => read_fields(alloc, code, host, port),
        Split::One(_) => Err(RegionLineRefused::Reason(TableReason::LineForm)),
        Split::Two(_, _) => Err(RegionLineRefused::Reason(TableReason::LineForm)),
        Split::More => Err(RegionLineRefused::Reason(TableReason::LineForm)),
    }
}
