// Calls as they are kept.
ghost use Rattle.std.specs.Prelude.{◌≡◌, IfOk};
ghost use Rattle.zt_protocol.specs.Plain.{plain_call};
ghost use Rattle.zt_rollback.specs.Kept.{kept_call};

use crate::copying::copy_call;
use std::alloc::Global;
use zt_keys::{Key, Memory};
use zt_protocol::{Call, InterestId, TokenId};

/// A call as it is kept. Those that are a few numbers and an expression take few bytes; others
/// stand in a box.
#[derive(Drop)]
pub(crate) enum KeptCall<K> {
    NewSession { first: u32 },
    /// The face declares a token, in answer to no interest and under no node id.
    DeclareToken { face: u32, id: TokenId, expr: K },
    /// The face's token under the id is gone.
    UndeclareToken { face: u32, id: TokenId },
    InterestFinal { face: u32, id: InterestId },
    DeclareFinal { face: u32, interest_id: InterestId },
    CloseFace { face: u32 },
    Expire { now: u64 },
    Other(Box<Call<K>>),
}

/// A call as it is kept.
pub(crate) fn keep_call<K: Key>(alloc: Global, call: &Call<K>) -> Result<KeptCall<K>, Memory>
    ensures { IfOk result (λ kept. kept_call kept ≡ plain_call call.now) }
{
    Ok(match call {
        Call::NewSession { first } => KeptCall::NewSession { first: *first },
        Call::DeclareToken {
            face,
            id,
            expr,
            node_id: 0,
            interest_id: None,
        } => KeptCall::DeclareToken {
            face: *face,
            id: *id,
            expr: expr.copy(alloc)?,
        },
        Call::UndeclareToken {
            face,
            id,
            expr: None,
            node_id: 0,
        } => KeptCall::UndeclareToken {
            face: *face,
            id: *id,
        },
        Call::InterestFinal { face, id } => KeptCall::InterestFinal {
            face: *face,
            id: *id,
        },
        Call::DeclareFinal { face, interest_id } => KeptCall::DeclareFinal {
            face: *face,
            interest_id: *interest_id,
        },
        Call::CloseFace { face } => KeptCall::CloseFace { face: *face },
        Call::Expire { now } => KeptCall::Expire { now: *now },
        call => KeptCall::Other(Box::new(alloc, copy_call(alloc, call)?)?),
    })
}

/// The call that is kept.
pub(crate) fn call_of<K: Key>(alloc: Global, kept: &KeptCall<K>) -> Result<Call<K>, Memory>
    ensures { IfOk result (λ call. plain_call call ≡ kept_call kept.now) }
{
    Ok(match kept {
        KeptCall::NewSession { first } => Call::NewSession { first: *first },
        KeptCall::DeclareToken { face, id, expr } => Call::DeclareToken {
            face: *face,
            id: *id,
            expr: expr.copy(alloc)?,
            node_id: 0,
            interest_id: None,
        },
        KeptCall::UndeclareToken { face, id } => Call::UndeclareToken {
            face: *face,
            id: *id,
            expr: None,
            node_id: 0,
        },
        KeptCall::InterestFinal { face, id } => Call::InterestFinal {
            face: *face,
            id: *id,
        },
        KeptCall::DeclareFinal { face, interest_id } => Call::DeclareFinal {
            face: *face,
            interest_id: *interest_id,
        },
        KeptCall::CloseFace { face } => Call::CloseFace { face: *face },
        KeptCall::Expire { now } => Call::Expire { now: *now },
        KeptCall::Other(call) => copy_call(alloc, call)?,
    })
}
