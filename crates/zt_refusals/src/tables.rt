// Why the trees of a router region, a face's entities or a moment are refused.
ghost use Rattle.std.specs.Prelude.{◌≡◌, ◌||◌, [], not, IfOk};
ghost use Rattle.std.specs.List.{list_any};
ghost use Rattle.zt_model.specs.Hat.{hat_of};
ghost use Rattle.zt_model.specs.Journal.{cause_of};
ghost use Rattle.zt_model.specs.Refusals.{is_unknown_face, names_unlisted};
ghost use Rattle.zt_model.specs.Strategy.{is_region_of};
ghost use Rattle.zt_model.specs.Trees.{counted_beside, counted_table, is_same_link};
ghost use Rattle.zt_protocol.specs.Plain.{Expire, SetEntities, SetTrees, trees_of};
ghost use Rattle.zt_refusals.specs.Unlisted.{names_others};
ghost use Rattle.zt_link_state.specs.Listed.{is_among};

use crate::dictionary::is_filled_by_entities;
use crate::regions::has_region;
use std::alloc::Global;
use std::collections::HashMap;
use zt_hats::hat_of;
use zt_keys::{Key, Memory};
use zt_link_state::{counted_links, counted_routers, is_listed};
use zt_protocol::{QueryableInfo, Refusal, TreeTable};
use zt_region::{NodeId, Region, Zid};
use zt_state::GatewayState;
use zt_tokens::find_face;

// Whether links name a router that isn't listed.
fn links_unlisted(links: &[(u32, NodeId, Zid)], listed: &HashMap<Zid, NodeId>) -> bool
    ensures { result ≡ list_any (λ l. not (is_among l.2 listed.now.entries)) links.now }
{
    links.iter().any(|link| !is_listed(listed, link.2))
}

// Whether not both of these routers are listed.
fn is_child_unlisted(child: &(Zid, Zid), listed: &HashMap<Zid, NodeId>) -> bool
    ensures { result
        ≡ (not (is_among child.now.0 listed.now.entries)
        || not (is_among child.now.1 listed.now.entries)) }
{
    !is_listed(listed, child.0) || !is_listed(listed, child.1)
}

// Whether children name a router that isn't listed.
fn children_unlisted(children: &[(Zid, Zid)], listed: &HashMap<Zid, NodeId>) -> bool
    ensures { result ≡ list_any (λ c. not (is_among c.0 listed.now.entries)
        || not (is_among c.1 listed.now.entries)) children.now }
{
    children
        .iter()
        .any(|child| is_child_unlisted(child, listed))
}

// Whether links or children name a router that isn't among these, or the gateway isn't.
fn names_others<K: Key>(
    g: &GatewayState<K>,
    links: &[(u32, NodeId, Zid)],
    children: &[(Zid, Zid)],
    listed: &HashMap<Zid, NodeId>,
) -> bool
    ensures { result ≡ names_others links.now children.now listed.now.entries g.now.zid }
{
    !is_listed(listed, g.zid())
        || links_unlisted(links, listed)
        || children_unlisted(children, listed)
}

// Whether a table names a router that it doesn't list, or doesn't list the gateway. Mostly not even
// one of all its entries does, and then it needn't be known which links count.
fn names_unlisted<K: Key>(
    alloc: Global,
    g: &GatewayState<K>,
    table: &TreeTable,
) -> Result<bool, Memory>
    ensures { IfOk result (λ is. is
        ≡ names_unlisted (counted_table (trees_of table.now)) g.now) }
{
    let listed = counted_routers(alloc, &table.routers)?;
    if !names_others(g, &table.links, &table.children, &listed.nodes) {
        return Ok(false);
    }
    let counted = counted_links(alloc, &table.links)?;
    Ok(names_others(g, &counted.links, &table.children, &listed.nodes))
}

// Whether the gateway has no such region that goes by trees.
fn lacks_region<K: Key>(g: &GatewayState<K>, region: Region) -> bool
    ensures { result
        ≡ (not (is_region_of g.now.regions region)
        || not (hat_of g.now.mode region).goes_by_trees) }
{
    !has_region(g, region) || !hat_of(g.mode(), region).goes_by_trees()
}

// Whether no open face has the number.
fn is_unknown_face<K: Key>(g: &GatewayState<K>, face: u32) -> bool
    ensures { result ≡ is_unknown_face face g.now }
{
    find_face(g, face).is_none()
}

// Whether a link that counts is for a face that isn't open. One that doesn't count clashes with one
// for the same face that does, so it needn't be known which count.
fn links_unknown_face<K: Key>(g: &GatewayState<K>, links: &[(u32, NodeId, Zid)]) -> bool
    ensures { result ≡ list_any (λ l. is_unknown_face l.0 g.now)
        (counted_beside is_same_link [] links.now) }
{
    links.iter().any(|link| is_unknown_face(g, link.0))
}

/// Why the trees of a router region are refused.
#[tactic(auto, unfolding(zt_model::specs::Journal::cause_of, zt_model::specs::Refusals::call_causes, zt_model::specs::Refusals::first_cause, zt_model::specs::Trees::counted_table))]
pub(crate) fn table_cause<K: Key>(
    alloc: Global,
    g: &GatewayState<K>,
    region: Region,
    table: &TreeTable,
) -> Result<Option<Refusal>, Memory>
    ensures { IfOk result (λ cause. cause
        ≡ cause_of K.cmp K.matching (SetTrees region (trees_of table.now)) g.now) }
{
    if links_unknown_face(g, &table.links) {
        return Ok(Some(Refusal::UnknownFace));
    }
    if lacks_region(g, region) {
        return Ok(Some(Refusal::NoSuchRegion));
    }
    if names_unlisted(alloc, g, table)? {
        return Ok(Some(Refusal::UnknownRouter));
    }
    Ok(None)
}

/// Why a face's entities are refused.
#[tactic(auto, unfolding(zt_model::specs::Journal::cause_of, zt_model::specs::Refusals::call_causes, zt_model::specs::Refusals::first_cause))]
pub(crate) fn entities_cause<K: Key>(
    alloc: Global,
    g: &GatewayState<K>,
    face: u32,
    subscribers: &[K],
    queryables: &[(K, QueryableInfo)],
) -> Result<Option<Refusal>, Memory>
    ensures { IfOk result (λ cause. cause
        ≡ cause_of K.cmp K.matching (SetEntities face subscribers.now queryables.now) g.now) }
{
    if is_unknown_face(g, face) {
        return Ok(Some(Refusal::UnknownFace));
    }
    if is_filled_by_entities(alloc, g, subscribers, queryables)? {
        return Ok(Some(Refusal::DictionaryFull));
    }
    Ok(None)
}

/// Why a moment is refused.
#[tactic(auto, unfolding(zt_model::specs::Journal::cause_of, zt_model::specs::Refusals::call_causes, zt_model::specs::Refusals::first_cause))]
pub(crate) fn moment_cause<K: Key>(g: &GatewayState<K>, now: u64) -> Option<Refusal>
    ensures { result ≡ cause_of K.cmp K.matching (Expire now) g.now }
{
    if now < g.moment() {
        return Some(Refusal::MomentBack);
    }
    None
}
