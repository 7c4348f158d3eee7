// The tables of router regions, as a gateway keeps them.
ghost use Rattle.std.specs.Prelude.{◌≡◌, ◌==◌, ◌&&◌, [], IfNone, IfOk, IfSome, option_map};
ghost use Rattle.zt_model.specs.Lists.{first_where};
ghost use Rattle.zt_model.specs.Trees.{counted_table, source_of, table_of};

use std::alloc::Global;
use zt_keys::{Key, Memory};
use zt_link_state::KeptTable;
use zt_region::{NodeId, Region, Zid};
use zt_state::{FaceState, GatewayState};

/// The table of a region; `None` where it was handed none, and nothing is listed.
#[tactic(auto, unfolding(zt_model::specs::Trees::table_of))]
pub(crate) fn table_in<K: Key>(g: &GatewayState<K>, region: Region) -> Option<&KeptTable>
    ensures some { IfSome result (λ table. counted_table table.now ≡ table_of g.now region) }
    ensures none { IfNone result (table_of g.now region
        ≡ record { routers = []; links = []; children = [] }) }
{
    g.table_of(region)
}

/// A table that counts as that of a region; an empty one where it was handed none.
#[tactic(auto, unfolding(zt_model::specs::Trees::counted_table))]
pub fn table_of<K: Key>(
    alloc: Global,
    g: &GatewayState<K>,
    region: Region,
) -> Result<KeptTable, Memory>
    ensures { IfOk result (λ table. counted_table table ≡ table_of g.now region) }
{
    match table_in(g, region) {
        None => Ok(KeptTable::empty(alloc)),
        Some(table) => table.copy(alloc),
    }
}

// The router that a face of a region means by a node id.
#[tactic(auto, unfolding(zt_model::specs::Trees::table_of))]
fn linked<K: Key>(g: &GatewayState<K>, region: Region, face: u32, node_id: NodeId) -> Option<Zid>
    ensures { result ≡ option_map (λ l. l.2)
        (first_where (λ l. (l.0 == face) && (l.1 == node_id)) (table_of g.now region).links) }
{
    match g.table_of(region) {
        None => None,
        Some(table) => table.router_behind(face, node_id),
    }
}

/// The router that a face means by a node id, where that isn't the gateway itself. A look-up.
#[tactic(auto, unfolding(zt_model::specs::Trees::source_of))]
pub fn source_of<K: Key>(g: &GatewayState<K>, f: &FaceState<K>, node_id: NodeId) -> Option<Zid>
    ensures { result ≡ source_of g.now f.now node_id }
{
    linked(g, f.region(), f.number(), node_id).filter(|zid| *zid != g.zid())
}
