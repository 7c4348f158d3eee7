// The causes of each call, in the order in which they are tried.
ghost use Rattle.std.specs.Prelude.{◌≡◌, IfOk};
ghost use Rattle.zt_model.specs.Journal.{cause_of};
ghost use Rattle.zt_model.specs.Refusals.{spends_ids};
ghost use Rattle.zt_protocol.specs.Plain.{plain_call};

use crate::asking::asking_cause;
use crate::declaring::declaring_cause;
use crate::opening::{do_openings_spend, session_cause, transport_cause};
use crate::spending::{do_interests_spend, do_tokens_spend};
use crate::tables::{entities_cause, moment_cause, table_cause};
use crate::undeclaring::{closing_cause, finalising_cause, finishing_cause, undeclaring_cause};
use std::alloc::Global;
use zt_keys::{Key, Memory};
use zt_protocol::{Call, Refusal};
use zt_state::GatewayState;

/// The first cause for which the call is refused, if there is one.
pub fn cause_of<K: Key>(
    alloc: Global,
    g: &GatewayState<K>,
    call: &Call<K>,
) -> Result<Option<Refusal>, Memory>
    ensures { IfOk result (λ cause. cause
        ≡ cause_of K.cmp K.matching (plain_call call.now) g.now) }
{
    match call {
        Call::NewSession { first } => Ok(session_cause(g, *first)),
        Call::NewTransport {
            zid,
            whatami,
            region,
            remote_bound,
            first,
        } => transport_cause(alloc, g, *zid, *whatami, *region, *remote_bound, *first),
        Call::DeclareToken {
            face,
            id,
            expr,
            node_id,
            interest_id,
        } => declaring_cause(alloc, g, *face, *id, expr, *node_id, *interest_id),
        Call::UndeclareToken {
            face,
            id,
            expr,
            node_id,
        } => Ok(undeclaring_cause(g, *face, *id, expr, *node_id)),
        Call::Interest {
            face,
            id,
            mode,
            options,
            expr,
        } => asking_cause(alloc, g, *face, *id, *mode, *options, expr),
        Call::InterestFinal { face, id } => Ok(finalising_cause(g, *face, *id)),
        Call::DeclareFinal { face, interest_id } => Ok(finishing_cause(g, *face, *interest_id)),
        Call::CloseFace { face } => Ok(closing_cause(g, *face)),
        Call::Expire { now } => Ok(moment_cause(g, *now)),
        Call::SetTrees { region, table } => table_cause(alloc, g, *region, table),
        Call::SetEntities {
            face,
            subscribers,
            queryables,
        } => entities_cause(alloc, g, *face, subscribers, queryables),
    }
}

/// Whether for some face fewer ids are left than the call would draw.
#[tactic(auto, using(crate::proofs::LeftIds::cannot_spend), unfolding(zt_model::specs::Refusals::spends_ids, zt_model::specs::Refusals::need))]
pub fn spends_ids<K: Key>(
    alloc: Global,
    g: &GatewayState<K>,
    call: &Call<K>,
) -> Result<bool, Memory>
    ensures { IfOk result (λ spends. spends
        ≡ spends_ids K.cmp K.matching (plain_call call.now) g.now) }
{
    match call {
        Call::NewTransport {
            zid,
            whatami,
            region,
            remote_bound,
            first,
        } => do_openings_spend(alloc, g, *zid, *whatami, *region, *remote_bound, *first),
        Call::DeclareToken {
            face,
            expr,
            interest_id,
            ..
        } => do_tokens_spend(alloc, g, *face, *interest_id, expr),
        Call::Interest {
            face,
            mode,
            options,
            expr,
            ..
        } => do_interests_spend(alloc, g, *face, *mode, *options, expr),
        Call::NewSession { .. }
        | Call::UndeclareToken { .. }
        | Call::InterestFinal { .. }
        | Call::DeclareFinal { .. }
        | Call::CloseFace { .. }
        | Call::Expire { .. }
        | Call::SetTrees { .. }
        | Call::SetEntities { .. } => Ok(false),
    }
}
