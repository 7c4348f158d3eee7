// What waits on links.
ghost use Rattle.std.specs.Prelude.{◌≡◌, OnOk};
ghost use Rattle.zt_model.specs.Fabric.{with_waiting, without_message};

use crate::fabric::ShownFabric;
use crate::queues::{add_printed, take_oldest};
use std::alloc::Global;
use zt_keys::{Key, Memory};
use zt_protocol::Sent;

impl<'a, K: Key> ShownFabric<'a, K> {
    /// The oldest message of a direction of a link is taken.
    pub fn take_waiting(&mut self, link: u32, back: bool)
        ensures { self.new ≡ without_message link back self.old }
    {
        let Some(link) = self.link(link) else {
            return;
        };
        let face = link.sending_end(back);
        take_oldest(&mut self.waiting, face);
    }

    /// What is printed for the faces of open links waits there.
    pub fn wait(&mut self, alloc: Global, sents: &[Sent<K>]) -> Result<(), Memory>
        ensures { OnOk result (self.new ≡ with_waiting sents.now self.old) }
    {
        add_printed(alloc, &mut self.waiting, sents)
    }
}
