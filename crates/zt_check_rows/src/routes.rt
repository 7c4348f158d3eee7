// What calls change of the tokens of router regions, and of the tables of these.
ghost use Rattle.std.specs.Prelude.{◌≡◌, None, OnOk, Some, if◌then◌else◌, option_map};
ghost use Rattle.std.specs.Option.{option_copied};
ghost use Rattle.zt_protocol.specs.Plain.{trees_of};
ghost use Rattle.zt_region.specs.Region.{region_eq, zid_eq};
ghost use Rattle.zt_model.specs.Lists.{first_where};
ghost use Rattle.zt_model.specs.Shown.{router_meant};
ghost use Rattle.zt_model.specs.Trees.{counted_table, with_routed, with_table};
ghost use Rattle.zt_model.specs.Trees.{without_left_out, without_routed};

use crate::routed::ShownRouted;
use crate::rows::ShownRows;
use crate::tables::put_table;
use std::alloc::Global;
use zt_check_faces::ShownFace;
use zt_check_tables::ShownTable;
use zt_keys::{Key, Memory};
use zt_protocol::TreeTable;
use zt_region::{NodeId, Region, Zid};

// The table of a region.
fn find_table(trees: &[(Region, ShownTable)], region: Region) -> Option<&ShownTable>
    ensures { option_copied result
        ≡ option_map (λ t. t.1) (first_where (λ t. region_eq region t.0) trees.now) }
{
    for row in trees {
        if region == row.0 {
            return Some(&row.1);
        }
    }
    None
}

// A router, where it isn't the gateway itself.
fn other_than(router: Option<Zid>, gateway: Zid) -> Option<Zid>
    ensures { result ≡ elim router [
      | None ↦ None
      | Some source ↦ if zid_eq source gateway then None else Some source
    ] }
{
    match router {
        None => None,
        Some(source) => {
            if source == gateway {
                None
            } else {
                Some(source)
            }
        }
    }
}

impl<K: Key> ShownRows<K> {
    // The table of a region.
    fn table_of(&self, region: Region) -> Option<&ShownTable>
        ensures { option_copied result
            ≡ option_map (λ t. t.1) (first_where (λ t. region_eq region t.0) self.now.trees) }
    {
        find_table(&self.trees, region)
    }

    /// The router that a face means by a node id, and never the gateway itself.
    #[tactic(auto, using(crate::proofs::Meant::meant_none, crate::proofs::Meant::meant_other))]
    pub fn router_meant(&self, face: &ShownFace<K>, node: NodeId) -> Option<Zid>
        ensures { result ≡ router_meant self.now face.now node }
    {
        let Some(table) = self.table_of(face.region()) else {
            return None;
        };
        other_than(table.router_behind(face.number(), node), self.zid())
    }

    // A router's token is added.
    #[tactic(auto, unfolding(zt_model::specs::Trees::with_routed))]
    pub(crate) fn add_source(
        &mut self,
        alloc: Global,
        region: Region,
        source: Zid,
        expr: &K,
    ) -> Result<(), Memory>
        ensures { OnOk result (self.new ≡ with_routed K.cmp region source expr.now self.old) }
    {
        let row = ShownRouted::new(region, source, expr.copy(alloc)?);
        self.routed.add(alloc, row)
    }

    // A router's token goes.
    #[tactic(auto, unfolding(zt_model::specs::Trees::without_routed))]
    pub(crate) fn drop_source(
        &mut self,
        alloc: Global,
        region: Region,
        source: Zid,
        expr: &K,
    ) -> Result<(), Memory>
        ensures { OnOk result (self.new ≡ without_routed K.cmp region source expr.now self.old) }
    {
        let gone = ShownRouted::new(region, source, expr.copy(alloc)?);
        self.routed.drop_row(&gone);
        Ok(())
    }

    /// A region gets a table, and the tokens go whose routers it doesn't list.
    pub fn set_trees(
        &mut self,
        alloc: Global,
        region: Region,
        table: &TreeTable,
    ) -> Result<(), Memory>
        ensures { OnOk result (self.new ≡ with_table K.cmp region (trees_of table.now)
            (without_left_out K.cmp region (counted_table (trees_of table.now)) self.old)) }
    {
        let shown = ShownTable::new(alloc, table)?;
        self.routed.drop_left_out(region, &shown);
        put_table(&mut self.trees, region, shown)
    }
}
