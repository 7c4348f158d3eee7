// What is known together of queryables.
ghost use Rattle.std.specs.Prelude.{◌≡◌, ◌∷◌, List, map, IfOk, OnOk};
ghost use Rattle.zt_entities.specs.Known.{AreKnown};
ghost use Rattle.zt_entities.specs.Merging.{merged_with};
ghost use Rattle.zt_model.specs.Entities.{all_merged, merged};
ghost use Rattle.zt_protocol.specs.declared.messages.QueryableInfo.{QueryableInfo};

use std::alloc::Global;
use std::collections::BTreeMap;
use zt_keys::{Key, Memory};
use zt_protocol::QueryableInfo;

// The information of two queryables together.
fn merged(a: QueryableInfo, b: QueryableInfo) -> QueryableInfo
    ensures { result ≡ merged a b }
{
    QueryableInfo {
        complete: a.complete || b.complete,
        distance: a.distance.min(b.distance),
    }
}

// The information of a queryable together with what is known of others.
fn merged_with(info: QueryableInfo, known: Option<QueryableInfo>) -> QueryableInfo
    ensures { result ≡ merged_with info known }
{
    match known {
        None => info,
        Some(other) => merged(info, other),
    }
}

// What is known of all queryables together.
pub(crate) fn all_merged<K: Key>(found: &[(K, QueryableInfo)]) -> Option<QueryableInfo>
    ensures { result ≡ all_merged (map (λ q. q.1) found.now) }
{
    let mut known = None;
    for place in (0..found.len()).rev() {
        known = Some(merged_with(found[place].1, known));
    }
    known
}

// The queryable's expression is known with its information, together with what is known of others.
fn add_known<K: Key>(
    alloc: Global,
    known: &mut BTreeMap<K, QueryableInfo>,
    queryable: &(K, QueryableInfo),
) -> Result<(), Memory>
    ensures { OnOk result ((found : List (K × QueryableInfo)) →
        AreKnown K.cmp found known.old.entries →
        AreKnown K.cmp (queryable.now ∷ found) known.new.entries) }
{
    let info = merged_with(queryable.1, known.get(&queryable.0).copied());
    known.insert(queryable.0.copy(alloc)?, info)?;
    Ok(())
}

// The expressions of the queryables, each with what is known together of those that have it.
pub(crate) fn known_by_expression<K: Key>(
    alloc: Global,
    found: &[(K, QueryableInfo)],
) -> Result<BTreeMap<K, QueryableInfo>, Memory>
    ensures { IfOk result (λ known. AreKnown K.cmp found.now known.entries) }
{
    let mut known = BTreeMap::new(alloc);
    for place in (0..found.len()).rev() {
        add_known(alloc, &mut known, &found[place])?;
    }
    Ok(known)
}
