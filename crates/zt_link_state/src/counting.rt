// Which entries of a table count: of those that clash, the first one does.
ghost use Rattle.std.specs.Prelude.{◌≡◌, ◌==◌, ◌||◌, ◌++◌, ◌∷◌, [], IfOk, OnOk};
ghost use Rattle.std.specs.Prelude.{if◌then◌else◌, is_some};
ghost use Rattle.std.specs.List.{list_any};
ghost use Rattle.std.specs.Map.{lookup};
ghost use Rattle.zt_model.specs.Trees.{counted_beside, is_same_link, is_same_router};
ghost use Rattle.zt_region.specs.Region.{zid_eq};
ghost use Rattle.zt_link_state.specs.KeysOf.{AreKeysOf, node_key_eq, zid_key_eq};
ghost use Rattle.zt_link_state.specs.Listed.{AreListed};
ghost use Rattle.zt_link_state.specs.Lookups.{FindsBehind, FindsNodes};

use std::alloc::Global;
use std::collections::{HashMap, HashSet};
use zt_keys::Memory;
use zt_region::{NodeId, Zid};

// Whether a router's node id or its number is among these.
fn is_taken(
    router: &(NodeId, Zid),
    node_ids: &HashSet<NodeId>,
    nodes: &HashMap<Zid, NodeId>,
) -> bool
    ensures { result ≡ (list_any (λ k. router.now.0 == k) node_ids.now.keys
        || is_some (lookup (zid_eq router.now.1) nodes.now.entries)) }
{
    node_ids.contains(&router.0) || nodes.contains_key(&router.1)
}

// Counts a router, unless it clashes with one that counts: those have these node ids, and are found
// by their numbers.
fn count_router(
    router: &(NodeId, Zid),
    node_ids: &mut HashSet<NodeId>,
    nodes: &mut HashMap<Zid, NodeId>,
    counted: &mut Vec<(NodeId, Zid)>,
) -> Result<(), Memory>
    requires node_ids { AreKeysOf (λ a b. a == b) (λ x. x.0) node_ids.old.keys counted.old.items }
    requires nodes { FindsNodes nodes.old.entries counted.old.items }
    ensures counted { OnOk result (counted.new.items
        ≡ (if list_any (is_same_router router.now) counted.old.items then counted.old.items
        else counted.old.items ++ router.now ∷ [])) }
    ensures node_ids { OnOk result
        (AreKeysOf (λ a b. a == b) (λ x. x.0) node_ids.new.keys counted.new.items) }
    ensures nodes { OnOk result (FindsNodes nodes.new.entries counted.new.items) }
{
    if is_taken(router, node_ids, nodes) {
        return Ok(());
    }
    node_ids.insert(router.0)?;
    nodes.insert(router.1, router.0)?;
    counted.push(*router)?;
    Ok(())
}

/// The routers of a table that count.
#[derive(Drop)]
pub struct CountedRouters {
    /// In their order.
    pub routers: Vec<(NodeId, Zid)>,
    /// The node id of each, by its number.
    pub nodes: HashMap<Zid, NodeId>,
}

/// The routers that count: none of those before it clashes with one.
pub fn counted_routers(alloc: Global, routers: &[(NodeId, Zid)]) -> Result<CountedRouters, Memory>
    ensures routers { IfOk result (λ counted. counted.routers.items
        ≡ counted_beside is_same_router [] routers.now) }
    ensures nodes { IfOk result (λ counted. FindsNodes counted.nodes.entries
        (counted_beside is_same_router [] routers.now)) }
    ensures listed { IfOk result (λ counted. AreListed counted.nodes.entries
        (counted_beside is_same_router [] routers.now)) }
{
    let mut counted = Vec::with_capacity(alloc, routers.len())?;
    let mut node_ids = HashSet::with_capacity(alloc, routers.len())?;
    let mut nodes = HashMap::with_capacity(alloc, routers.len())?;
    for router in routers {
        count_router(router, &mut node_ids, &mut nodes, &mut counted)?;
    }
    Ok(CountedRouters {
        routers: counted,
        nodes,
    })
}

// Whether for its face a link's node id or its router is among these.
fn is_link_taken(
    link: &(u32, NodeId, Zid),
    behind: &HashMap<(u32, NodeId), Zid>,
    zids: &HashSet<(u32, Zid)>,
) -> bool
    ensures { result
        ≡ (is_some (lookup (node_key_eq (link.now.0, link.now.1)) behind.now.entries)
        || list_any (zid_key_eq (link.now.0, link.now.2)) zids.now.keys) }
{
    behind.contains_key(&(link.0, link.1)) || zids.contains(&(link.0, link.2))
}

// Counts a link, unless it clashes with one that counts: those are found by face and node id, and
// these are their routers, each with its face.
fn count_link(
    link: &(u32, NodeId, Zid),
    behind: &mut HashMap<(u32, NodeId), Zid>,
    zids: &mut HashSet<(u32, Zid)>,
    counted: &mut Vec<(u32, NodeId, Zid)>,
) -> Result<(), Memory>
    requires behind { FindsBehind behind.old.entries counted.old.items }
    requires zids { AreKeysOf zid_key_eq (λ x. (x.0, x.2)) zids.old.keys counted.old.items }
    ensures counted { OnOk result (counted.new.items
        ≡ (if list_any (is_same_link link.now) counted.old.items then counted.old.items
        else counted.old.items ++ link.now ∷ [])) }
    ensures behind { OnOk result (FindsBehind behind.new.entries counted.new.items) }
    ensures zids { OnOk result
        (AreKeysOf zid_key_eq (λ x. (x.0, x.2)) zids.new.keys counted.new.items) }
{
    if is_link_taken(link, behind, zids) {
        return Ok(());
    }
    behind.insert((link.0, link.1), link.2)?;
    zids.insert((link.0, link.2))?;
    counted.push(*link)?;
    Ok(())
}

/// The links of a table that count.
#[derive(Drop)]
pub struct CountedLinks {
    /// In their order.
    pub links: Vec<(u32, NodeId, Zid)>,
    /// The router of each, by face and node id.
    pub behind: HashMap<(u32, NodeId), Zid>,
}

/// The links that count: none of those before it clashes with one.
pub fn counted_links(alloc: Global, links: &[(u32, NodeId, Zid)]) -> Result<CountedLinks, Memory>
    ensures links { IfOk result (λ counted. counted.links.items
        ≡ counted_beside is_same_link [] links.now) }
    ensures behind { IfOk result (λ counted. FindsBehind counted.behind.entries
        (counted_beside is_same_link [] links.now)) }
{
    let mut counted = Vec::with_capacity(alloc, links.len())?;
    let mut behind = HashMap::with_capacity(alloc, links.len())?;
    let mut zids = HashSet::with_capacity(alloc, links.len())?;
    for link in links {
        count_link(link, &mut behind, &mut zids, &mut counted)?;
    }
    Ok(CountedLinks {
        links: counted,
        behind,
    })
}
