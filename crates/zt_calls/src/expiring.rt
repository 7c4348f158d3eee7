// What time ends.
ghost use Rattle.std.specs.Prelude.{OnOk};
ghost use Rattle.std.specs.List.{flat_map};
ghost use Rattle.zt_calls.specs.Does.{Does};
ghost use Rattle.zt_calls.specs.Expired.{ending_each};
ghost use Rattle.zt_model.specs.Closing.{expiring};

use crate::ending::end_pending;
use crate::speech::Speech;
use std::alloc::Global;
use zt_keys::{Key, Memory};
use zt_state::GatewayState;

// One of these pendings ends.
fn end_each<K: Key>(
    alloc: Global,
    g: &mut GatewayState<K>,
    speech: &mut Speech<K>,
    row: &(u32, u32),
) -> Result<(), Memory>
    ensures { OnOk result (Does K.cmp K.matching (ending_each row.now)
        g.old g.new speech.old speech.new) }
{
    end_pending(alloc, g, speech, row.0, row.1)
}

// These pendings end.
fn end_pendings<K: Key>(
    alloc: Global,
    g: &mut GatewayState<K>,
    speech: &mut Speech<K>,
    ended: &[(u32, u32)],
) -> Result<(), Memory>
    ensures { OnOk result (Does K.cmp K.matching (flat_map ending_each ended.now)
        g.old g.new speech.old speech.new) }
{
    for row in ended {
        end_each(alloc, g, speech, row)?;
    }
    Ok(())
}

/// The gateway's moment becomes `now`, and what has waited for the timeout ends.
pub(crate) fn expire<K: Key>(
    alloc: Global,
    g: &mut GatewayState<K>,
    speech: &mut Speech<K>,
    now: u64,
) -> Result<(), Memory>
    ensures { OnOk result (Does K.cmp K.matching (expiring now g.old)
        g.old g.new speech.old speech.new) }
{
    let ended = g.expired(alloc, now)?;
    g.set_moment(now);
    end_pendings(alloc, g, speech, &ended)
}
