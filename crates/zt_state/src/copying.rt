// Copies of what a gateway keeps.
ghost use Rattle.std.specs.Prelude.{◌≡◌, IfOk};

use crate::gateway::GatewayState;
use std::alloc::Global;
use std::collections::BTreeMap;
use zt_keys::{Key, Memory};
use zt_link_state::KeptTable;
use zt_region::Region;

// The same tables.
fn copy_trees(
    alloc: Global,
    trees: &BTreeMap<Region, KeptTable>,
) -> Result<BTreeMap<Region, KeptTable>, Memory>
    ensures { IfOk result (λ copies. copies.entries ≡ trees.now.entries) }
{
    let mut copies = BTreeMap::new(alloc);
    for (region, table) in trees {
        copies.insert(*region, table.copy(alloc)?)?;
    }
    Ok(copies)
}

impl<K: Key> GatewayState<K> {
    /// An equal gateway.
    pub fn copy(&self, alloc: Global) -> Result<Self, Memory>
        ensures { IfOk result (λ copy. copy ≡ self.now) }
    {
        Ok(GatewayState {
            mode: self.mode,
            zid: self.zid,
            regions: self.regions.copy(alloc)?,
            admission: self.admission.copy(alloc)?,
            timeout: self.timeout,
            moment: self.moment,
            made: self.made,
            trees: copy_trees(alloc, &self.trees)?,
            routed: self.routed.copy(alloc)?,
            dictionary: self.dictionary.copy(alloc)?,
            faces: self.faces.copy(alloc)?,
            live: self.live.copy(alloc)?,
            seekers: self.seekers.copy(alloc)?,
        })
    }
}
