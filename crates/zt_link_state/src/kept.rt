// A table that is kept, and what is looked up in it.
ghost use Rattle.std.specs.Prelude.{◌≡◌, ◌==◌, ◌&&◌, [], IfOk, option_map};
ghost use Rattle.std.specs.List.{list_any};
ghost use Rattle.std.specs.Ordering.{nat_cmp};
ghost use Rattle.zt_model.specs.Lists.{first_where, in_key_order};
ghost use Rattle.zt_model.specs.Trees.{counted_table, is_listed, node_of};
ghost use Rattle.zt_protocol.specs.Plain.{trees_of};
ghost use Rattle.zt_region.specs.Region.{zid_eq};
ghost use Rattle.zt_link_state.specs.Lookups.{HaveChildrenOf};

use crate::counting::{counted_links, counted_routers};
use crate::lookups::{by_source, entries_of, has_pair, routers_in_order};
use std::alloc::Global;
use std::collections::HashMap;
use std::marker::Model;
use zt_keys::Memory;
use zt_protocol::TreeTable;
use zt_region::{NodeId, Zid};

/// The trees of a router region as they were handed in, and look-ups of those entries that count,
/// made once: a message asks them and goes over no entries but those of its source. It stands for
/// what Zenoh's link-state network hands a router: its own node ids, those of its neighbours, and
/// the trees.
#[derive(Drop)]
pub struct KeptTable {
    // The table as it was handed in.
    table: TreeTable,
    // The routers that count, in order of node id.
    in_order: Vec<(NodeId, Zid)>,
    // Their node ids, by the routers' numbers.
    nodes: HashMap<Zid, NodeId>,
    // By face and node id, the router of the link that counts.
    behind: HashMap<(u32, NodeId), Zid>,
    // Each source, with a router to which its tokens go on, in order of both: those of one source
    // stand side by side.
    by_source: Vec<(Zid, Zid)>,
}

impl Model for KeptTable {
    ghost use Rattle.zt_protocol.specs.Plain.{Trees, trees_of};
    ghost use Rattle.zt_link_state.specs.Lookups.{AreLookups};

    ghost Value = { Trees };

    ghost view = { λ t. trees_of t.table };

    ghost invariant = { λ t. AreLookups (trees_of t.table) t.in_order.items t.nodes.entries
        t.behind.entries t.by_source.items };
}

impl KeptTable {
    /// A table that lists nothing: what a region has until it is handed one.
    pub fn empty(alloc: Global) -> Self
        ensures { result ≡ record { routers = []; links = []; children = [] } }
    {
        KeptTable {
            table: TreeTable {
                routers: Vec::new(alloc),
                links: Vec::new(alloc),
                children: Vec::new(alloc),
            },
            in_order: Vec::new(alloc),
            nodes: HashMap::new(alloc),
            behind: HashMap::new(alloc),
            by_source: Vec::new(alloc),
        }
    }

    /// A table that is kept, with its look-ups.
    #[tactic(auto, unfolding(zt_model::specs::Trees::counted_table))]
    pub fn new(alloc: Global, table: TreeTable) -> Result<Self, Memory>
        ensures { IfOk result (λ kept. kept ≡ trees_of table) }
    {
        let routers = counted_routers(alloc, &table.routers)?;
        let links = counted_links(alloc, &table.links)?;
        let in_order = routers_in_order(alloc, &routers.routers)?;
        let by_source = by_source(alloc, &table.children)?;
        Ok(KeptTable {
            table,
            in_order,
            nodes: routers.nodes,
            behind: links.behind,
            by_source,
        })
    }

    /// The table as it was handed in.
    pub fn table(&self) -> &TreeTable
        ensures { trees_of result.now ≡ self.now }
    {
        &self.table
    }

    /// An equal table.
    pub fn copy(&self, alloc: Global) -> Result<Self, Memory>
        ensures { IfOk result (λ copy. copy ≡ self.now) }
    {
        Ok(KeptTable {
            table: self.table.copy(alloc)?,
            in_order: self.in_order.to_vec(alloc)?,
            nodes: self.nodes.clone()?,
            behind: self.behind.clone()?,
            by_source: self.by_source.to_vec(alloc)?,
        })
    }

    /// The gateway's own number for a router; 0 where the router isn't listed. A look-up.
    pub fn node_of(&self, zid: Zid) -> NodeId
        ensures { result ≡ node_of zid (counted_table self.now) }
    {
        match self.nodes.get(&zid) {
            None => 0,
            Some(node_id) => *node_id,
        }
    }

    /// Whether a router is listed. A look-up.
    pub fn lists(&self, zid: Zid) -> bool
        ensures { result ≡ is_listed zid (counted_table self.now) }
    {
        self.nodes.contains_key(&zid)
    }

    /// The router that a face means by a node id; `None` where it means none. A look-up.
    pub fn router_behind(&self, face: u32, node_id: NodeId) -> Option<Zid>
        ensures { result ≡ option_map (λ l. l.2) (first_where
            (λ l. (l.0 == face) && (l.1 == node_id)) (counted_table self.now).links) }
    {
        self.behind.get(&(face, node_id)).copied()
    }

    /// The entries of a source, each with a router to which its tokens go on. Found by binary
    /// search.
    pub fn children_of(&self, source: Zid) -> &[(Zid, Zid)]
        ensures { HaveChildrenOf source result.now (counted_table self.now).children }
    {
        entries_of(&self.by_source, source)
    }

    /// Whether the source's tokens go on to the router. Found by binary search.
    pub fn has_child(&self, source: Zid, router: Zid) -> bool
        ensures { result ≡ list_any
            (λ c. zid_eq source c.0 && zid_eq router c.1) (counted_table self.now).children }
    {
        has_pair(&self.by_source, source, router)
    }

    /// The routers that are listed, in order of node id.
    pub fn routers_in_order(&self) -> &[(NodeId, Zid)]
        ensures { result.now
            ≡ in_key_order (λ a b. nat_cmp a.0 b.0) (counted_table self.now).routers }
    {
        &self.in_order
    }
}
