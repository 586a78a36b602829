//! Reading the lines of a file of regions.

ghost use Rattle.std.specs.Prelude.{◌≡◌, IfOk, IfErr, OnOk, OnErr};
ghost use Rattle.std.specs.List.{list_any};
ghost use Rattle.ojp_values.specs.Texts.{same};
ghost use Rattle.ojp_regions.specs.Lines.{AddsLine, IsLineRefusal};
ghost use Rattle.ojp_regions.specs.RegionsText.{IsRefusal, IsText, refusal_of};

use crate::line::{RegionLine, RegionLineRefused, read_line};
use ojp_timetable::{TableReason, split_line};
use ojp_values::{Code, List};
use std::alloc::Global;

/// The most regions of a file.
const REGIONS: usize = 32;

/// Why a text is no file of regions.
#[derive(Clone, Copy, Debug, PartialEq, Eq)]
pub enum RegionsRefused {
    /// The first line that fails a check, counted from 1, and the first check that it fails. A text without
    /// a line is refused at line 1.
    At { line: u64, reason: TableReason },
    /// Memory ran out.
    NoMemory,
}

/// Whether one of the regions has the code.
#[tactic(auto, unfolding(ojp_values::specs::Texts::same))]
fn has_code(regions: &[RegionLine], code: &Code) -> bool
    ensures { result ≡ list_any (λ region. same code.now region.code) regions.now }
{
    regions.iter().any(|region| *code == region.code)
}

/// Takes the line below those of these regions.
fn add_line(
    alloc: Global,
    text: &[u8],
    regions: &mut List<RegionLine>,
) -> Result<(), RegionLineRefused>
    ensures added { OnOk result (AddsLine regions.old text.now regions.new) }
    ensures refused { IfErr result (IsLineRefusal regions.old text.now) }
    ensures kept { OnErr result (regions.new ≡ regions.old) }
{
    let region = match read_line(alloc, text) {
        Ok(region) => region,
        Err(refused) => return Err(refused),
    };
    if has_code(regions.as_slice(), &region.code) {
        return Err(RegionLineRefused::Reason(TableReason::DoubledName));
    }
    if regions.len() >= REGIONS {
        return Err(RegionLineRefused::Reason(TableReason::Limit));
    }
    if regions.push(region).is_err() {
        return Err(RegionLineRefused::NoMemory);
    }
    Ok(())
}

/// The refusal of the line of that number.
fn refusal(refused: RegionLineRefused, line: u64) -> RegionsRefused
    ensures { result ≡ refusal_of refused line }
{
    match refused {
        RegionLineRefused::Reason(reason) => RegionsRefused::At { line, reason },
        RegionLineRefused::NoMemory => RegionsRefused::NoMemory,
    }
}

/// The regions whose text the bytes are, in the order of their lines.
pub fn read_regions(alloc: Global, bytes: &[u8]) -> Result<List<RegionLine>, RegionsRefused>
    ensures text { IfOk result (IsText bytes.now) }
    ensures refused { IfErr result (IsRefusal bytes.now) }
{
    let mut regions = List::new(alloc);
    let mut rest = bytes;
    'lines: while !rest.is_empty() {
        let (line, more) = split_line(rest);
        let number = regions.len() as u64 + 1;
        if let Err(refused) = add_line(alloc, line, &mut regions) {
            return Err(refusal(refused, number));
        }
        rest = more;
    }
    if regions.is_empty() {
        return Err(RegionsRefused::At {
            line: 1,
            reason: TableReason::LineForm,
        });
    }
    Ok(regions)
}
