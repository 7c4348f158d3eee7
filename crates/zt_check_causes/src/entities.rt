// Why a face's entities aren't replaced.
ghost use Rattle.std.specs.Prelude.{◌≡◌, IfOk};
ghost use Rattle.zt_protocol.specs.Plain.{SetEntities};
ghost use Rattle.zt_check_causes.specs.Causes.{call_cause};

use crate::dictionary::is_filled_by_entities;
use std::alloc::Global;
use zt_check_rows::ShownRows;
use zt_keys::{Key, Memory};
use zt_protocol::{QueryableInfo, Refusal};

/// Why a face's entities aren't replaced.
#[tactic(auto, unfolding(crate::specs::Causes::call_cause, zt_model::specs::Refusals::call_causes, zt_model::specs::Refusals::first_cause))]
pub(crate) fn entities_cause<K: Key>(
    alloc: Global,
    rows: &ShownRows<K>,
    face: u32,
    subscribers: &[K],
    queryables: &[(K, QueryableInfo)],
) -> Result<Option<Refusal>, Memory>
    ensures { IfOk result (λ cause. cause
        ≡ call_cause K.cmp K.matching (SetEntities face subscribers.now queryables.now) rows.now) }
{
    if rows.face(face).is_none() {
        return Ok(Some(Refusal::UnknownFace));
    }
    if is_filled_by_entities(alloc, rows, subscribers, queryables)? {
        return Ok(Some(Refusal::DictionaryFull));
    }
    Ok(None)
}
