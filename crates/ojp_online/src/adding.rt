//! The regions of a file are added to the links.

ghost use Rattle.std.specs.Prelude.{◌≡◌, [], map, OnOk};
ghost use Rattle.ojp_links.specs.Seen.{NoneLive};
ghost use Rattle.ojp_regions.specs.Lines.{codes_in};
ghost use Rattle.ojp_regions.specs.RegionsText.{AreApart};
ghost use Rattle.ojp_online.specs.Added.{HasRejectedNone, HasStations};

use ojp_links::WaitLinks;
use ojp_regions::RegionLine;
use ojp_values::NoMemory;

/// Adds the regions to links that have none, in their order.
pub(crate) fn add_regions<L: WaitLinks>(
    links: &mut L,
    regions: &[RegionLine],
) -> Result<(), NoMemory>
    requires none { (L.seen links.old).fixed.stations ≡ [] }
    requires none_live { NoneLive (L.seen links.old) }
    requires apart { AreApart (codes_in regions.now) }
    ensures added { OnOk result (HasStations regions.now (L.seen links.new)) }
    ensures none_live { NoneLive (L.seen links.new) }
    ensures none_rejected { HasRejectedNone (L.seen links.new) }
{
    'adding: for i in 0..regions.len() {
        let region = &regions[i];
        if links
            .add(region.code, region.host.as_str(), region.port)
            .is_err()
        {
            return Err(NoMemory);
        }
    }
    Ok(())
}
