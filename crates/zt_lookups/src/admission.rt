// Which pairs of regions are refused, looked up.
ghost use Rattle.std.specs.Prelude.{◌≡◌, IfOk};
ghost use Rattle.std.specs.List.{list_any};
ghost use Rattle.std.specs.List.Sorted.{IsSorted};
ghost use Rattle.zt_region.specs.Admission.{admits, is_pair};
ghost use Rattle.zt_lookups.specs.Refused.{ArePairsOf, pair_cmp};

use std::alloc::Global;
use std::marker::Model;
use zt_keys::Memory;
use zt_region::{Admission, Region};

// So few pairs are compared one by one, which is faster than a binary search.
const FEW: usize = 8;

/// The pairs of regions that are refused, as they are listed, with the same in order for a binary
/// search.
#[derive(Drop)]
pub struct RefusedPairs {
    listed: Admission,
    // Each pair once, in order. Where memory lacked for it, the list is searched.
    in_order: Option<Vec<(Region, Region)>>,
}

impl Model for RefusedPairs {
    ghost use Rattle.std.specs.Prelude.{IfSome, List};
    ghost use Rattle.zt_region.specs.declared.region.Region.{Region};
    ghost use Rattle.zt_lookups.specs.Refused.{ArePairsOf};

    ghost Value = { List (Region × Region) };

    ghost view = { λ r. r.listed.refused.items };

    ghost invariant = { λ r. IfSome r.in_order
        (λ pairs. ArePairsOf r.listed.refused.items pairs.items) };
}

// The pairs in order, each once.
fn in_order(alloc: Global, listed: &[(Region, Region)]) -> Result<Vec<(Region, Region)>, Memory>
    ensures { IfOk result (λ pairs. ArePairsOf listed.now pairs.items) }
{
    let mut pairs = listed.to_vec(alloc)?;
    pairs.sort_unstable();
    pairs.dedup();
    Ok(pairs)
}

// Whether it is the pair of these regions.
fn is_pair(pair: &(Region, Region), src: Region, dst: Region) -> bool
    ensures { result ≡ is_pair src dst pair.now }
{
    pair.0 == src && pair.1 == dst
}

// Whether the pair is among these. A walk.
fn is_listed(pairs: &[(Region, Region)], src: Region, dst: Region) -> bool
    ensures { result ≡ list_any (is_pair src dst) pairs.now }
{
    pairs.iter().any(|pair| is_pair(pair, src, dst))
}

// Whether the pair is among pairs in order. A binary search.
fn search_pair(pairs: &[(Region, Region)], src: Region, dst: Region) -> bool
    requires { IsSorted pair_cmp pairs.now }
    ensures { result ≡ list_any (is_pair src dst) pairs.now }
{
    pairs.binary_search(&(src, dst)).is_ok()
}

// Whether the pair is among pairs in order.
fn has_pair(pairs: &[(Region, Region)], src: Region, dst: Region) -> bool
    requires { IsSorted pair_cmp pairs.now }
    ensures { result ≡ list_any (is_pair src dst) pairs.now }
{
    if pairs.len() <= FEW {
        is_listed(pairs, src, dst)
    } else {
        search_pair(pairs, src, dst)
    }
}

impl RefusedPairs {
    /// The pairs that an admission table lists.
    pub fn new(alloc: Global, listed: Admission) -> Self
        ensures { result ≡ listed.refused.items }
    {
        let in_order = in_order(alloc, &listed.refused).ok();
        RefusedPairs { listed, in_order }
    }

    /// Whether tokens of `src` may be told to `dst`. A binary search, or a walk over few pairs.
    pub fn admits(&self, src: Region, dst: Region) -> bool
        ensures { result ≡ admits self.now src dst }
    {
        match &self.in_order {
            Some(pairs) => !has_pair(pairs, src, dst),
            None => self.listed.admits(src, dst),
        }
    }

    /// The same pairs.
    pub fn copy(&self, alloc: Global) -> Result<Self, Memory>
        ensures { IfOk result (λ copy. copy ≡ self.now) }
    {
        let refused = self.listed.refused.to_vec(alloc)?;
        let in_order = in_order(alloc, &refused)?;
        Ok(RefusedPairs {
            listed: Admission { refused },
            in_order: Some(in_order),
        })
    }
}
