// Calls, with the number that a face has at its gateway.
ghost use Rattle.std.specs.Prelude.{◌≡◌, IfOk};
ghost use Rattle.zt_protocol.specs.Plain.{plain_call};
ghost use Rattle.zt_model.specs.Fabric.{call_face, with_call_face};

use std::alloc::Global;
use zt_check_faces::{copy_keys, copy_queryables};
use zt_keys::{Key, Memory};
use zt_protocol::{Call, copy_expression};

/// The face that a call names.
pub(crate) fn call_face<K: Key>(call: &Call<K>) -> Option<u32>
    ensures { result ≡ call_face (plain_call call.now) }
{
    match call {
        Call::DeclareToken { face, .. }
        | Call::UndeclareToken { face, .. }
        | Call::Interest { face, .. }
        | Call::InterestFinal { face, .. }
        | Call::DeclareFinal { face, .. }
        | Call::CloseFace { face }
        | Call::SetEntities { face, .. } => Some(*face),
        Call::NewSession { .. }
        | Call::NewTransport { .. }
        | Call::Expire { .. }
        | Call::SetTrees { .. } => None,
    }
}

/// A call with another face.
pub(crate) fn with_call_face<K: Key>(
    alloc: Global,
    face: u32,
    call: &Call<K>,
) -> Result<Call<K>, Memory>
    ensures { IfOk result (λ copy. plain_call copy ≡ with_call_face face (plain_call call.now)) }
{
    Ok(match call {
        Call::NewSession { first } => Call::NewSession { first: *first },
        Call::NewTransport {
            zid,
            whatami,
            region,
            remote_bound,
            first,
        } => Call::NewTransport {
            zid: *zid,
            whatami: *whatami,
            region: *region,
            remote_bound: *remote_bound,
            first: *first,
        },
        Call::DeclareToken {
            face: _,
            id,
            expr,
            node_id,
            interest_id,
        } => Call::DeclareToken {
            face,
            id: *id,
            expr: expr.copy(alloc)?,
            node_id: *node_id,
            interest_id: *interest_id,
        },
        Call::UndeclareToken {
            face: _,
            id,
            expr,
            node_id,
        } => Call::UndeclareToken {
            face,
            id: *id,
            expr: copy_expression(expr, alloc)?,
            node_id: *node_id,
        },
        Call::Interest {
            face: _,
            id,
            mode,
            options,
            expr,
        } => Call::Interest {
            face,
            id: *id,
            mode: *mode,
            options: *options,
            expr: copy_expression(expr, alloc)?,
        },
        Call::InterestFinal { face: _, id } => Call::InterestFinal { face, id: *id },
        Call::DeclareFinal {
            face: _,
            interest_id,
        } => Call::DeclareFinal {
            face,
            interest_id: *interest_id,
        },
        Call::CloseFace { face: _ } => Call::CloseFace { face },
        Call::Expire { now } => Call::Expire { now: *now },
        Call::SetTrees { region, table } => Call::SetTrees {
            region: *region,
            table: table.copy(alloc)?,
        },
        Call::SetEntities {
            face: _,
            subscribers,
            queryables,
        } => Call::SetEntities {
            face,
            subscribers: copy_keys(alloc, subscribers.as_slice())?,
            queryables: copy_queryables(alloc, queryables.as_slice())?,
        },
    })
}
