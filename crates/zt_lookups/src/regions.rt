// The south regions that a gateway lists, looked up.
ghost use Rattle.std.specs.Prelude.{◌≡◌, filter, IfOk};
ghost use Rattle.std.specs.List.{list_any};
ghost use Rattle.std.specs.List.Sorted.{IsSorted};
ghost use Rattle.zt_region.specs.Region.{region_eq};
ghost use Rattle.zt_region.specs.contracts.region.RegionOrd.TheImpl.{ghosts as order};
ghost use Rattle.zt_lookups.specs.Listed.{AreRegionsOf, may_go_by_trees};

use std::alloc::Global;
use std::marker::Model;
use zt_keys::Memory;
use zt_region::{Region, WhatAmI};

// So few regions are compared one by one, which is faster than a binary search.
const FEW: usize = 8;

/// The south regions that a gateway lists, in the order listed, with the same in order for a binary
/// search, and those of them that may be router regions.
#[derive(Drop)]
pub struct ListedRegions {
    listed: Vec<Region>,
    // Where memory lacked for it, the list is searched.
    in_order: Option<Vec<Region>>,
    // Where memory lacked for it, the list is gone over.
    of_routers: Option<Vec<Region>>,
}

impl Model for ListedRegions {
    ghost use Rattle.std.specs.Prelude.{◌≡◌, filter, IfSome, List};
    ghost use Rattle.zt_region.specs.declared.region.Region.{Region};
    ghost use Rattle.zt_lookups.specs.Listed.{AreRegionsOf, may_go_by_trees};

    ghost Value = { List Region };

    ghost view = { λ r. r.listed.items };

    ghost invariant = { λ r. record {
      found : IfSome r.in_order (λ regions. AreRegionsOf r.listed.items regions.items);
      routed : IfSome r.of_routers
          (λ regions. regions.items ≡ filter may_go_by_trees r.listed.items);
    } };
}

// Whether tokens of the region may go by trees: whether it can be a router region.
fn may_go_by_trees(region: &Region) -> bool
    ensures { result ≡ may_go_by_trees region.now }
{
    match region {
        Region::North => true,
        Region::Local => false,
        Region::South { mode, .. } => *mode == WhatAmI::Router,
    }
}

// The regions in order.
fn in_order(alloc: Global, listed: &[Region]) -> Result<Vec<Region>, Memory>
    ensures { IfOk result (λ regions. AreRegionsOf listed.now regions.items) }
{
    let mut regions = listed.to_vec(alloc)?;
    regions.sort_unstable();
    Ok(regions)
}

// Those that can't be router regions go.
fn drop_others(regions: &mut Vec<Region>)
    ensures { regions.new.items ≡ filter may_go_by_trees regions.old.items }
{
    regions.retain(|region| may_go_by_trees(region));
}

// Those that may be router regions.
fn of_routers(alloc: Global, listed: &[Region]) -> Result<Vec<Region>, Memory>
    ensures { IfOk result (λ regions. regions.items ≡ filter may_go_by_trees listed.now) }
{
    let mut regions = listed.to_vec(alloc)?;
    drop_others(&mut regions);
    Ok(regions)
}

// Whether the region is among these. A walk.
fn is_listed(regions: &[Region], region: Region) -> bool
    ensures { result ≡ list_any (region_eq region) regions.now }
{
    regions.iter().any(|one| region == *one)
}

// Whether the region is among regions in order. A binary search.
fn search_region(regions: &[Region], region: Region) -> bool
    requires { IsSorted order.cmp regions.now }
    ensures { result ≡ list_any (region_eq region) regions.now }
{
    regions.binary_search(&region).is_ok()
}

// Whether the region is among regions in order.
fn has_region(regions: &[Region], region: Region) -> bool
    requires { IsSorted order.cmp regions.now }
    ensures { result ≡ list_any (region_eq region) regions.now }
{
    if regions.len() <= FEW {
        is_listed(regions, region)
    } else {
        search_region(regions, region)
    }
}

impl ListedRegions {
    /// The regions that a gateway lists.
    pub fn new(alloc: Global, listed: Vec<Region>) -> Self
        ensures { result ≡ listed.items }
    {
        let in_order = in_order(alloc, &listed).ok();
        let of_routers = of_routers(alloc, &listed).ok();
        ListedRegions {
            listed,
            in_order,
            of_routers,
        }
    }

    /// The regions in the order listed.
    pub fn as_slice(&self) -> &[Region]
        ensures { result.now ≡ self.now }
    {
        &self.listed
    }

    /// Whether the region is listed. A binary search, or a walk over few regions.
    pub fn has(&self, region: Region) -> bool
        ensures { result ≡ list_any (region_eq region) self.now }
    {
        match &self.in_order {
            Some(regions) => has_region(regions, region),
            None => is_listed(&self.listed, region),
        }
    }

    /// The listed regions among which all router regions are, in the order listed. No other region
    /// is among them, unless memory lacked for a list of their own.
    pub fn of_routers(&self) -> &[Region]
        ensures { filter may_go_by_trees result.now ≡ filter may_go_by_trees self.now }
    {
        match &self.of_routers {
            Some(regions) => regions,
            None => &self.listed,
        }
    }

    /// The same regions.
    pub fn copy(&self, alloc: Global) -> Result<Self, Memory>
        ensures { IfOk result (λ copy. copy ≡ self.now) }
    {
        let listed = self.listed.to_vec(alloc)?;
        let in_order = in_order(alloc, &listed)?;
        let of_routers = of_routers(alloc, &listed)?;
        Ok(ListedRegions {
            listed,
            in_order: Some(in_order),
            of_routers: Some(of_routers),
        })
    }
}
