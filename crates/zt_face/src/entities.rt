// The entities of a face.
ghost use Rattle.std.specs.Prelude.{◌≡◌, OnOk};

use crate::copying::{copy_keys, copy_queryables};
use crate::face::FaceState;
use std::alloc::Global;
use zt_keys::{Key, Memory};
use zt_protocol::QueryableInfo;

impl<K: Key> FaceState<K> {
    /// The face's subscribers and queryables are replaced.
    pub fn set_entities(
        &mut self,
        alloc: Global,
        subscribers: &[K],
        queryables: &[(K, QueryableInfo)],
    ) -> Result<(), Memory>
        ensures { OnOk result (self.new
            ≡ record self.old { subscribers = subscribers.now; queryables = queryables.now }) }
    {
        self.rows.subscribers = copy_keys(alloc, subscribers)?;
        self.rows.queryables = copy_queryables(alloc, queryables)?;
        Ok(())
    }
}
