// Why a call is refused.
ghost use Rattle.std.specs.Prelude.{◌≡◌, false, IfOk};
ghost use Rattle.zt_protocol.specs.Plain.{plain_call};
ghost use Rattle.zt_check_causes.specs.Causes.{call_cause};

use crate::asking::asking_cause;
use crate::closing::{closing_cause, ending_cause, finishing_cause, moment_cause};
use crate::declaring::{declaring_cause, undeclaring_cause};
use crate::entities::entities_cause;
use crate::opening::{session_cause, transport_cause};
use crate::tables::trees_cause;
use std::alloc::Global;
use zt_check_rows::ShownRows;
use zt_keys::{Key, Memory};
use zt_protocol::{Call, Refusal};

/// Why a call is refused that is made on the gateway of these rows, if enough ids are left.
pub fn call_cause<K: Key>(
    alloc: Global,
    rows: &ShownRows<K>,
    call: &Call<K>,
) -> Result<Option<Refusal>, Memory>
    ensures { IfOk result (λ cause. cause
        ≡ call_cause K.cmp K.matching (plain_call call.now) rows.now) }
{
    match call {
        Call::NewSession { first } => Ok(session_cause(rows, *first)),
        Call::NewTransport {
            zid,
            whatami,
            region,
            remote_bound,
            first,
        } => Ok(transport_cause(rows, *zid, *whatami, *region, *remote_bound, *first)),
        Call::DeclareToken {
            face,
            id,
            expr,
            node_id,
            interest_id,
        } => Ok(declaring_cause(rows, *face, *id, expr, *node_id, *interest_id)),
        Call::UndeclareToken {
            face,
            id,
            expr,
            node_id,
        } => Ok(undeclaring_cause(rows, *face, *id, expr, *node_id)),
        Call::Interest {
            face,
            id,
            mode,
            options,
            expr,
        } => Ok(asking_cause(rows, *face, *id, *mode, *options, expr)),
        Call::InterestFinal { face, id } => Ok(ending_cause(rows, *face, *id)),
        Call::DeclareFinal { face, interest_id } => Ok(finishing_cause(rows, *face, *interest_id)),
        Call::CloseFace { face } => Ok(closing_cause(rows, *face)),
        Call::Expire { now } => Ok(moment_cause(rows, *now)),
        Call::SetTrees { region, table } => trees_cause(alloc, rows, *region, table),
        Call::SetEntities {
            face,
            subscribers,
            queryables,
        } => entities_cause(alloc, rows, *face, subscribers, queryables),
    }
}
