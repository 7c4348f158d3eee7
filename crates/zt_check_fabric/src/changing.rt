// What changes at one gateway: its rows by a call, or what one of its faces heard.
ghost use Rattle.std.specs.Prelude.{◌≡◌, OnOk};
ghost use Rattle.zt_protocol.specs.Plain.{plain_call};
ghost use Rattle.zt_model.specs.Fabric.{with_rows};
ghost use Rattle.zt_model.specs.Shown.{rows_shown};
ghost use Rattle.zt_check_fabric.specs.Changed.{told};

use crate::fabric::{ShownFabric, ShownNode};
use crate::members::change_member;
use std::alloc::Global;
use zt_check_faces::Change;
use zt_keys::{Key, Memory};
use zt_protocol::{Call, Message, Sent};

// A call changes the rows of a gateway; an ask was sent upstream as these pendings.
#[derive(Drop)]
struct Apply<'b, K: Key> {
    pendings: &'b [(u32, u32)],
    call: &'b Call<K>,
}

impl<'a, 'b, K: Key> Change<ShownNode<'a, K>> for Apply<'b, K> {
    ghost use Rattle.zt_protocol.specs.Plain.{plain_call};
    ghost use Rattle.zt_check_fabric.specs.Changed.{node_called};

    ghost changed = { λ c. node_called K.cmp c.pendings.now (plain_call c.call.now) };

    fn change(&self, alloc: Global, member: &mut ShownNode<'a, K>) -> Result<(), Memory> {
        member.rows.apply(alloc, self.pendings, self.call)
    }
}

// A face of a gateway hears a message.
#[derive(Drop)]
struct Tell<'b, K: Key> {
    face: u32,
    message: &'b Message<K>,
}

impl<'a, 'b, K: Key> Change<ShownNode<'a, K>> for Tell<'b, K> {
    ghost use Rattle.zt_check_fabric.specs.Changed.{node_told};

    ghost changed = { λ c. node_told K.cmp c.face c.message.now };

    fn change(&self, alloc: Global, member: &mut ShownNode<'a, K>) -> Result<(), Memory> {
        member.rows.hear(alloc, self.face, self.message)
    }
}

impl<'a, K: Key> ShownFabric<'a, K> {
    /// A call changes the rows of its gateway, where there is one.
    pub(crate) fn apply(
        &mut self,
        alloc: Global,
        gateway: u32,
        pendings: &[(u32, u32)],
        call: &Call<K>,
    ) -> Result<(), Memory>
        ensures { OnOk result (self.new
            ≡ with_rows gateway (rows_shown K.cmp pendings.now (plain_call call.now)) self.old) }
    {
        change_member(
            alloc,
            &mut self.gateways,
            gateway,
            &Apply { pendings, call },
        )
    }

    /// The face that a message is printed for hears it.
    pub(crate) fn tell(&mut self, alloc: Global, sent: &Sent<K>) -> Result<(), Memory>
        ensures { OnOk result (self.new ≡ told K.cmp sent.now self.old) }
    {
        let Some(place) = self.place(sent.face) else {
            return Ok(());
        };
        let (gateway, face) = (place.gateway(), place.face());
        let message = &sent.message;
        change_member(alloc, &mut self.gateways, gateway, &Tell { face, message })
    }
}
