// Why a gateway isn't made.
ghost use Rattle.std.specs.Prelude.{◌≡◌};
ghost use Rattle.std.specs.List.{list_any};
ghost use Rattle.zt_model.specs.Fabric.{is_without_trees_above};
ghost use Rattle.zt_model.specs.Refusals.{first_cause};
ghost use Rattle.zt_refusals.specs.Making.{making_causes, names_other_region};

use crate::regions::is_region_of;
use zt_hats::{hat_of, north_hat};
use zt_protocol::Refusal;
use zt_region::{Region, WhatAmI};

// Whether a pair names a region that a gateway with these south regions doesn't have.
fn names_other_region(regions: &[Region], pair: &(Region, Region)) -> bool
    ensures { result ≡ names_other_region regions.now pair.now }
{
    !is_region_of(regions, pair.0) || !is_region_of(regions, pair.1)
}

// Whether one of the pairs does.
fn any_names_other_region(regions: &[Region], refused: &[(Region, Region)]) -> bool
    ensures { result ≡ list_any (names_other_region regions.now) refused.now }
{
    refused.iter().any(|pair| names_other_region(regions, pair))
}

// Whether a region goes by trees, and the gateway's north doesn't.
fn is_without_trees_above(mode: WhatAmI, region: Region) -> bool
    ensures { result ≡ is_without_trees_above mode region }
{
    hat_of(mode, region).goes_by_trees() && !north_hat(mode).goes_by_trees()
}

// Whether one of the regions does.
fn any_is_without_trees_above(mode: WhatAmI, regions: &[Region]) -> bool
    ensures { result ≡ list_any (is_without_trees_above mode) regions.now }
{
    regions
        .iter()
        .any(|region| is_without_trees_above(mode, *region))
}

/// Why a gateway of this mode, with these south regions and refused pairs, isn't made.
#[tactic(auto, unfolding(zt_model::specs::Refusals::first_cause))]
pub fn cause_of_making(
    mode: WhatAmI,
    regions: &[Region],
    refused: &[(Region, Region)],
) -> Option<Refusal>
    ensures { result ≡ first_cause (making_causes mode regions.now refused.now) }
{
    if any_names_other_region(regions, refused) {
        return Some(Refusal::NoSuchRegion);
    }
    if any_is_without_trees_above(mode, regions) {
        return Some(Refusal::RegionConflict);
    }
    None
}
