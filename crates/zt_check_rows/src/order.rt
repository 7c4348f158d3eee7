// The order of regions, and which of them go by trees.
ghost use Rattle.std.specs.Prelude.{◌≡◌};
ghost use Rattle.zt_model.specs.Hat.{hat_of};
ghost use Rattle.zt_model.specs.Trees.{mode_rank, region_order, region_rank, south_id, south_mode};

use std::cmp::Ordering;
use zt_region::{Region, WhatAmI};

fn mode_rank(mode: WhatAmI) -> u8
    ensures { result ≡ mode_rank mode }
{
    match mode {
        WhatAmI::Router => 0,
        WhatAmI::Peer => 1,
        WhatAmI::Client => 2,
    }
}

fn region_rank(region: Region) -> u8
    ensures { result ≡ region_rank region }
{
    match region {
        Region::North => 0,
        Region::Local => 1,
        Region::South { .. } => 2,
    }
}

fn south_id(region: Region) -> u32
    ensures { result ≡ south_id region }
{
    match region {
        Region::South { id, .. } => id,
        Region::North | Region::Local => 0,
    }
}

fn south_mode(region: Region) -> u8
    ensures { result ≡ south_mode region }
{
    match region {
        Region::South { mode, .. } => mode_rank(mode),
        Region::North | Region::Local => 0,
    }
}

/// The order of regions in which rows of router regions stand.
pub fn compare_regions(one: Region, other: Region) -> Ordering
    ensures { result ≡ region_order one other }
{
    match region_rank(one).cmp(&region_rank(other)) {
        Ordering::Equal => {}
        unequal => return unequal,
    }
    match south_id(one).cmp(&south_id(other)) {
        Ordering::Equal => {}
        unequal => return unequal,
    }
    south_mode(one).cmp(&south_mode(other))
}

/// Whether tokens of the region go along trees, at a gateway of this mode.
pub fn goes_by_trees(mode: WhatAmI, region: Region) -> bool
    ensures { result ≡ (hat_of mode region).goes_by_trees }
{
    match region {
        Region::North => mode == WhatAmI::Router,
        Region::Local => false,
        Region::South { mode: remote, .. } => remote == WhatAmI::Router,
    }
}
