// A face closes: what it declared is undeclared, what it holds finalised, its asks go and its
// pendings end.
ghost use Rattle.std.specs.Prelude.{◌≡◌, OnOk};
ghost use Rattle.std.specs.List.{flat_map};
ghost use Rattle.zt_calls.specs.Does.{Does};
ghost use Rattle.zt_calls.specs.Leaving.{leaving_interest, leaving_pending, leaving_token};
ghost use Rattle.zt_model.specs.Closing.{leaving};

use crate::ending::{end_pending, finalise};
use crate::speech::Speech;
use crate::tokens::{hide_token, undeclare_found};
use std::alloc::Global;
use zt_keys::{Key, Memory};
use zt_protocol::TokenId;
use zt_state::{FaceState, GatewayState, PendingInterest, RemoteInterest, RowsById};

// One of the tokens of a face that closes goes.
fn leave_token<K: Key>(
    alloc: Global,
    g: &mut GatewayState<K>,
    speech: &mut Speech<K>,
    f: &FaceState<K>,
    id: TokenId,
    expr: &K,
) -> Result<(), Memory>
    ensures { OnOk result (Does K.cmp K.matching
        (leaving_token K.cmp K.matching f.now (id, expr.now))
        g.old g.new speech.old speech.new) }
{
    undeclare_found(alloc, g, speech, f, id, &None)?;
    hide_token(alloc, g, speech, f.region(), expr)
}

// The tokens of a face that closes go.
fn leave_tokens<K: Key>(
    alloc: Global,
    g: &mut GatewayState<K>,
    speech: &mut Speech<K>,
    f: &FaceState<K>,
) -> Result<(), Memory>
    ensures { OnOk result (Does K.cmp K.matching
        (flat_map (leaving_token K.cmp K.matching f.now) f.now.live)
        g.old g.new speech.old speech.new) }
{
    for (id, expr) in f.live().iter() {
        leave_token(alloc, g, speech, f, *id, expr)?;
    }
    Ok(())
}

// What a face that closes holds is finalised.
fn leave_interests<K: Key>(
    alloc: Global,
    g: &mut GatewayState<K>,
    speech: &mut Speech<K>,
    face: u32,
    held: &RowsById<RemoteInterest<K>>,
) -> Result<(), Memory>
    ensures { OnOk result (Does K.cmp K.matching
        (flat_map (leaving_interest K.cmp K.matching face) held.now)
        g.old g.new speech.old speech.new) }
{
    for (id, interest) in held.iter() {
        finalise(alloc, g, speech, face, *id, interest)?;
    }
    Ok(())
}

// The pendings of a face that closes end.
fn leave_pendings<K: Key>(
    alloc: Global,
    g: &mut GatewayState<K>,
    speech: &mut Speech<K>,
    face: u32,
    pendings: &RowsById<PendingInterest>,
) -> Result<(), Memory>
    ensures { OnOk result (Does K.cmp K.matching
        (flat_map (leaving_pending face) pendings.now)
        g.old g.new speech.old speech.new) }
{
    for (id, _) in pendings.iter() {
        end_pending(alloc, g, speech, face, *id)?;
    }
    Ok(())
}

/// A face outside router regions leaves, as it was when it began to.
pub(crate) fn leave<K: Key>(
    alloc: Global,
    g: &mut GatewayState<K>,
    speech: &mut Speech<K>,
    f: &FaceState<K>,
) -> Result<(), Memory>
    ensures { OnOk result (Does K.cmp K.matching
        (leaving K.cmp K.matching f.now.number f.now)
        g.old g.new speech.old speech.new) }
{
    leave_tokens(alloc, g, speech, f)?;
    leave_interests(alloc, g, speech, f.number(), f.held())?;
    g.drop_asks(f.number());
    leave_pendings(alloc, g, speech, f.number(), f.pendings())
}
