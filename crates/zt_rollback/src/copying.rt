// Copies of calls.
ghost use Rattle.std.specs.Prelude.{◌≡◌, IfOk};
ghost use Rattle.zt_protocol.specs.Plain.{plain_call};

use std::alloc::Global;
use zt_face::{copy_keys, copy_queryables};
use zt_keys::{Key, Memory};
use zt_protocol::{Call, copy_expression};

/// An equal call.
pub fn copy_call<K: Key>(alloc: Global, call: &Call<K>) -> Result<Call<K>, Memory>
    ensures { IfOk result (λ copy. plain_call copy ≡ plain_call call.now) }
{
    Ok(match call {
        Call::NewSession { first } => Call::NewSession { first: *first },
        Call::NewTransport {
            zid,
            whatami,
            region,
            remote_bound,
            first,
        } => Call::NewTransport {
            zid: *zid,
            whatami: *whatami,
            region: *region,
            remote_bound: *remote_bound,
            first: *first,
        },
        Call::DeclareToken {
            face,
            id,
            expr,
            node_id,
            interest_id,
        } => Call::DeclareToken {
            face: *face,
            id: *id,
            expr: expr.copy(alloc)?,
            node_id: *node_id,
            interest_id: *interest_id,
        },
        Call::UndeclareToken {
            face,
            id,
            expr,
            node_id,
        } => Call::UndeclareToken {
            face: *face,
            id: *id,
            expr: copy_expression(expr, alloc)?,
            node_id: *node_id,
        },
        Call::Interest {
            face,
            id,
            mode,
            options,
            expr,
        } => Call::Interest {
            face: *face,
            id: *id,
            mode: *mode,
            options: *options,
            expr: copy_expression(expr, alloc)?,
        },
        Call::InterestFinal { face, id } => Call::InterestFinal {
            face: *face,
            id: *id,
        },
        Call::DeclareFinal { face, interest_id } => Call::DeclareFinal {
            face: *face,
            interest_id: *interest_id,
        },
        Call::CloseFace { face } => Call::CloseFace { face: *face },
        Call::Expire { now } => Call::Expire { now: *now },
        Call::SetTrees { region, table } => Call::SetTrees {
            region: *region,
            table: table.copy(alloc)?,
        },
        Call::SetEntities {
            face,
            subscribers,
            queryables,
        } => Call::SetEntities {
            face: *face,
            subscribers: copy_keys(alloc, subscribers.as_slice())?,
            queryables: copy_queryables(alloc, queryables.as_slice())?,
        },
    })
}
