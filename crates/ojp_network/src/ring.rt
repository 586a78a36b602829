//! The ring of the regions, which are numbered from 1 to 12.

ghost use Rattle.std.specs.Prelude.{◌≡◌, ◌≤◌};
ghost use Rattle.ojp_network.specs.Regions.{higher_point, joined_region, lower_point, region_before, region_behind};

// The region before this one in the ring.
fn region_before(region: u64) -> u64
    requires { 1 ≤ region }
    ensures { result ≡ region_before region }
{
    if region == 1 { 12 } else { region - 1 }
}

// The region behind this one in the ring.
fn region_behind(region: u64) -> u64
    requires { region ≤ 12 }
    ensures { result ≡ region_behind region }
{
    if region == 12 { 1 } else { region + 1 }
}

/// The lower exchange point of a region.
pub fn lower_point(region: u64) -> u64
    requires { 1 ≤ region }
    ensures { result ≡ lower_point region }
{
    region.min(region_before(region))
}

/// The higher exchange point of a region.
pub fn higher_point(region: u64) -> u64
    requires { 1 ≤ region }
    ensures { result ≡ higher_point region }
{
    region.max(region_before(region))
}

/// The region that the exchange point joins the region to.
pub fn joined_region(region: u64, point: u64) -> u64
    requires low { 1 ≤ region }
    requires high { region ≤ 12 }
    ensures { result ≡ joined_region region point }
{
    if point == region {
        region_behind(region)
    } else {
        region_before(region)
    }
}
