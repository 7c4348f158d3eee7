// A table with what of it counts.
ghost use Rattle.std.specs.Prelude.{◌≡◌, ◌==◌, ◌&&◌, IfOk, option_map};
ghost use Rattle.zt_model.specs.Lists.{first_where};
ghost use Rattle.zt_model.specs.Trees.{counted_table, is_listed};
ghost use Rattle.zt_protocol.specs.Plain.{trees_of};

use crate::counting::counted;
use std::alloc::Global;
use std::marker::Model;
use zt_keys::Memory;
use zt_protocol::TreeTable;
use zt_region::{NodeId, Zid};

/// The table of a router region, as it was handed in. Which of its routers and links count is found
/// once, when it is made.
#[derive(Drop)]
pub struct ShownTable {
    table: TreeTable,
    routers: Vec<(NodeId, Zid)>,
    links: Vec<(u32, NodeId, Zid)>,
}

impl Model for ShownTable {
    ghost use Rattle.zt_protocol.specs.Plain.{Trees, trees_of};
    ghost use Rattle.zt_check_tables.specs.Counted.{AreCounted};

    ghost Value = { Trees };

    ghost view = { λ t. trees_of t.table };

    ghost invariant = { λ t. AreCounted (trees_of t.table) t.routers.items t.links.items };
}

// The router of the first link of a face by a node id.
fn router_behind(links: &[(u32, NodeId, Zid)], face: u32, node_id: NodeId) -> Option<Zid>
    ensures { result ≡ option_map (λ l. l.2)
        (first_where (λ l. (l.0 == face) && (l.1 == node_id)) links.now) }
{
    for link in links {
        if link.0 == face && link.1 == node_id {
            return Some(link.2);
        }
    }
    None
}

impl ShownTable {
    /// A table with these entries.
    pub fn new(alloc: Global, table: &TreeTable) -> Result<Self, Memory>
        ensures { IfOk result (λ shown. shown ≡ trees_of table.now) }
    {
        let routers = counted(alloc, &table.routers)?;
        let links = counted(alloc, &table.links)?;
        Ok(ShownTable {
            table: table.copy(alloc)?,
            routers,
            links,
        })
    }

    /// A table equal to this one.
    pub fn copy(&self, alloc: Global) -> Result<Self, Memory>
        ensures { IfOk result (λ copy. copy ≡ self.now) }
    {
        Ok(ShownTable {
            table: self.table.copy(alloc)?,
            routers: self.routers.to_vec(alloc)?,
            links: self.links.to_vec(alloc)?,
        })
    }

    /// Whether a router is one of those that count.
    pub fn is_listed(&self, router: Zid) -> bool
        ensures { result ≡ is_listed router (counted_table self.now) }
    {
        self.routers.iter().any(|listed| router == listed.1)
    }

    /// The links that count.
    pub fn counted_links(&self) -> &[(u32, NodeId, Zid)]
        ensures { result.now ≡ (counted_table self.now).links }
    {
        &self.links
    }

    /// Each source with a router to which its tokens go on.
    pub fn children(&self) -> &[(Zid, Zid)]
        ensures { result.now ≡ self.now.children }
    {
        &self.table.children
    }

    /// The router that a face means by a node id, by the links that count.
    pub fn router_behind(&self, face: u32, node_id: NodeId) -> Option<Zid>
        ensures { result ≡ option_map (λ l. l.2)
            (first_where (λ l. (l.0 == face) && (l.1 == node_id)) (counted_table self.now).links) }
    {
        router_behind(&self.links, face, node_id)
    }
}
