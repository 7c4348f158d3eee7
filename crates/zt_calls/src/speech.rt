// What a call says.
ghost use Rattle.std.specs.Prelude.{◌≡◌, ◌++◌, ◌∷◌, [], OnOk};
ghost use Rattle.zt_calls.specs.Does.{Does};
ghost use Rattle.zt_model.specs.Parts.{Say, Sends};
ghost use Rattle.zt_model.specs.Rows.{Rows};
ghost use Rattle.zt_model.specs.Trees.{but_for};

use std::alloc::Global;
use zt_keys::{Key, Memory};
use zt_protocol::Message;
use zt_state::GatewayState;

/// What a call has said so far, in the order sent, each message with the number of its face; and
/// the face that is spared, if one closes: it hears nothing of what it leaves behind.
#[derive(Drop)]
pub(crate) struct Speech<K> {
    pub(crate) said: Vec<(u32, Message<K>)>,
    pub(crate) spared: Option<u32>,
}

/// Drops the messages to a face.
pub(crate) fn spare<K: Key>(sends: &mut Vec<(u32, Message<K>)>, face: u32)
    ensures { sends.new.items ≡ but_for K.cmp face sends.old.items }
{
    sends.retain(|send| face != send.0);
}

// Messages more behind those said so far. Where none were said yet, they are taken as they are.
fn add<K: Key>(
    said: &mut Vec<(u32, Message<K>)>,
    mut sends: Vec<(u32, Message<K>)>,
) -> Result<(), Memory>
    ensures { OnOk result (said.new.items ≡ said.old.items ++ sends.items) }
{
    if said.is_empty() {
        *said = sends;
        return Ok(());
    }
    said.append(&mut sends)?;
    Ok(())
}

/// Faces are sent these messages and hear them at once, but for a face that is spared.
pub(crate) fn say<K: Key>(
    alloc: Global,
    g: &mut GatewayState<K>,
    speech: &mut Speech<K>,
    mut sends: Vec<(u32, Message<K>)>,
) -> Result<(), Memory>
    ensures { OnOk result ((rule : Rows K → Sends K) → sends.items ≡ rule g.old
        → Does K.cmp K.matching (Say rule ∷ []) g.old g.new speech.old speech.new) }
{
    if let Some(face) = speech.spared {
        spare(&mut sends, face);
    }
    g.hear_all(alloc, sends.as_slice())?;
    add(&mut speech.said, sends)
}
