// What is looked up in a table, made of its entries that count.
ghost use Rattle.std.specs.Prelude.{◌≡◌, ◌≤◌, ◌&&◌, false, length, nat_le, nat_lt, true};
ghost use Rattle.std.specs.Prelude.{IfOk, OnOk};
ghost use Rattle.std.specs.BTreeMap.{IsOrdered};
ghost use Rattle.std.specs.List.{list_any};
ghost use Rattle.std.specs.List.Sorted.{IsNonDecreasingBy, IsPartitionPoint, IsSorted};
ghost use Rattle.std.specs.Ordering.{nat_cmp};
ghost use Rattle.zt_model.specs.Lists.{with_key};
ghost use Rattle.zt_region.specs.Region.{zid_eq};
ghost use Rattle.zt_link_state.specs.KeysOf.{child_cmp};
ghost use Rattle.zt_link_state.specs.Lookups.{AreBySource, HaveChildrenOf, by_node};
ghost use Rattle.zt_link_state.specs.Lookups.{number_of_source};

use std::alloc::Global;
use std::collections::BTreeMap;
use zt_keys::Memory;
use zt_region::{NodeId, Zid};

// Puts a router in its place among routers in order of node id, unless its node id is there.
fn add_router(routers: &mut BTreeMap<NodeId, Zid>, router: &(NodeId, Zid)) -> Result<(), Memory>
    requires { IsOrdered nat_cmp routers.old }
    ensures router { OnOk result (routers.new.entries
        ≡ with_key (λ a b. nat_cmp a.0 b.0) router.now routers.old.entries) }
    ensures ordered { OnOk result (IsOrdered nat_cmp routers.new) }
{
    if routers.contains_key(&router.0) {
        return Ok(());
    }
    routers.insert(router.0, router.1)?;
    Ok(())
}

// Routers by node id; of two entries with one node id the last stands.
fn routers_by_node(
    alloc: Global,
    routers: &[(NodeId, Zid)],
) -> Result<BTreeMap<NodeId, Zid>, Memory>
    ensures { IfOk result (λ by_id. by_id.entries ≡ by_node routers.now) }
{
    let mut by_id = BTreeMap::new(alloc);
    for place in (0..routers.len()).rev() {
        add_router(&mut by_id, &routers[place])?;
    }
    Ok(by_id)
}

// Routers in order of node id.
pub(crate) fn routers_in_order(
    alloc: Global,
    routers: &[(NodeId, Zid)],
) -> Result<Vec<(NodeId, Zid)>, Memory>
    ensures { IfOk result (λ ordered. ordered.items ≡ by_node routers.now) }
{
    let mut ordered = Vec::new(alloc);
    for router in routers_by_node(alloc, routers)? {
        ordered.push(router)?;
    }
    Ok(ordered)
}

// The entries in order of source, and for one source in order of router, each once.
pub(crate) fn by_source(alloc: Global, children: &[(Zid, Zid)]) -> Result<Vec<(Zid, Zid)>, Memory>
    ensures { IfOk result (λ pairs. AreBySource pairs.items children.now) }
{
    let mut pairs = children.to_vec(alloc)?;
    pairs.sort_unstable();
    pairs.dedup();
    Ok(pairs)
}

// Whether a source with a router is among entries in order. A binary search.
pub(crate) fn has_pair(pairs: &[(Zid, Zid)], source: Zid, router: Zid) -> bool
    requires { IsSorted child_cmp pairs.now }
    ensures { result ≡ list_any (λ c. zid_eq source c.0 && zid_eq router c.1) pairs.now }
{
    pairs.binary_search(&(source, router)).is_ok()
}

// How many entries have a source below this one. A binary search.
fn count_below(pairs: &[(Zid, Zid)], source: Zid) -> usize
    requires { IsNonDecreasingBy number_of_source pairs.now }
    ensures parted { IsPartitionPoint (λ c. nat_lt (number_of_source c) source.0 ≡ true)
        (λ c. nat_lt (number_of_source c) source.0 ≡ false) pairs.now result }
    ensures within { result ≤ length pairs.now }
{
    pairs.partition_point(|child| child.0.0 < source.0)
}

// How many entries have this source or one below it. A binary search.
fn count_up_to(pairs: &[(Zid, Zid)], source: Zid) -> usize
    requires { IsNonDecreasingBy number_of_source pairs.now }
    ensures parted { IsPartitionPoint (λ c. nat_le (number_of_source c) source.0 ≡ true)
        (λ c. nat_le (number_of_source c) source.0 ≡ false) pairs.now result }
    ensures within { result ≤ length pairs.now }
{
    pairs.partition_point(|child| child.0.0 <= source.0)
}

// The entries of a source, found by binary search.
pub(crate) fn entries_of(pairs: &[(Zid, Zid)], source: Zid) -> &[(Zid, Zid)]
    requires { IsSorted child_cmp pairs.now }
    ensures { HaveChildrenOf source result.now pairs.now }
{
    let first = count_below(pairs, source);
    let rest = &pairs[first..];
    let count = count_up_to(rest, source);
    &rest[..count]
}

/// Whether a router is among children, which are entries of one source.
pub fn is_child_among(router: Zid, children: &[(Zid, Zid)]) -> bool
    ensures { result ≡ list_any (λ c. zid_eq router c.1) children.now }
{
    children.iter().any(|child| router == child.1)
}
