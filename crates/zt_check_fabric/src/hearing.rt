// What printed messages change.
ghost use Rattle.std.specs.Prelude.{◌≡◌, OnOk};
ghost use Rattle.zt_protocol.specs.Plain.{plain_line};
ghost use Rattle.zt_model.specs.Fabric.{after_hearing, after_refusal};
ghost use Rattle.zt_check_fabric.specs.Placed.{IsPlaced};

use crate::fabric::ShownFabric;
use std::alloc::Global;
use zt_keys::{Key, Memory};
use zt_protocol::{Line, Refusal, Sent};

impl<'a, K: Key> ShownFabric<'a, K> {
    /// Faces hear what is printed for them. They are found by their places. Where each open face
    /// has one, as `laws` says of every claimed transcript, this is what the definitions say.
    pub fn hear(&mut self, alloc: Global, sents: &[Sent<K>]) -> Result<(), Memory>
        ensures { OnOk result (IsPlaced self.old
            → self.new ≡ after_hearing K.cmp sents.now self.old) }
    {
        for sent in sents {
            self.tell(alloc, sent)?;
        }
        Ok(())
    }

    /// A refused line changes nothing, but that a message whose call is refused has left its link.
    pub fn refuse(&mut self, line: &Line<K>, refusal: Refusal)
        ensures { self.new
            ≡ after_refusal K.cmp K.matching (plain_line line.now) refusal self.old }
    {
        if let Line::Step { link, back } = line {
            if 3 < refusal.number() {
                self.take_waiting(*link, *back);
            }
        }
    }
}
