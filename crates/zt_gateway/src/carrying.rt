// What a call comes to beside what a gateway keeps.
ghost use Rattle.std.specs.Prelude.{◌≡◌, ◌+◌, ◌<◌, ◌^◌, ◌≤◌, [], length, map, vec_capacity, IfErr};
ghost use Rattle.std.specs.Prelude.{IfOk, None, Ok, OnOk, true};
ghost use Rattle.zt_gateway.specs.Running.{IsRefusedBy, by_face, closed_by, sent_alone};
ghost use Rattle.zt_laws.specs.Sound.{CallHasFirstIds, opens_face};
ghost use Rattle.zt_theorem_soundness.specs.Sound.{IsSound};
ghost use Rattle.zt_model.specs.Journal.{cause_of, face_of_call, made_by, outcome_of, rows_after};
ghost use Rattle.zt_model.specs.Says.{said};
ghost use Rattle.zt_protocol.specs.Plain.{plain_call};

use std::alloc::Global;
use zt_keys::{Key, Memory};
use zt_protocol::{Call, CallError, Message};
use zt_refusals::cause_of;
use zt_rollback::{BoxedState, RestorableState};
use zt_state::GatewayState;

// The number of the face that a call makes, where it makes one.
fn face_of<K: Key>(state: &GatewayState<K>, call: &Call<K>) -> Option<u32>
    requires { opens_face (plain_call call.now) ≡ true → state.now.made + 1 < 2 ^ 32 }
    ensures { result ≡ face_of_call (plain_call call.now) state.now }
{
    match call {
        Call::NewSession { .. } | Call::NewTransport { .. } => Some(state.made() + 1),
        _ => None,
    }
}

// What a call leaves of what a gateway keeps, what it says and the face that it makes, where
// nothing refuses it. The gateway keeps what it did; it is rebuilt first, where a call before ran
// out of memory or was prepared alone.
pub(crate) fn carried<K: Key>(
    alloc: Global,
    kept: &mut RestorableState<K>,
    call: &Call<K>,
) -> Result<(BoxedState<K>, Vec<(u32, Message<K>)>, Option<u32>), CallError>
    requires first { CallHasFirstIds (plain_call call.now) }
    requires sound { IsSound K.cmp K.matching kept.old }
    ensures same { kept.new ≡ kept.old }
    ensures refused { IfErr result (IsRefusedBy K.cmp K.matching (plain_call call.now) kept.old) }
    ensures accepted { OnOk result
        (cause_of K.cmp K.matching (plain_call call.now) kept.old ≡ None) }
    ensures rows { IfOk result
        (λ r. r.0 ≡ rows_after K.cmp K.matching (plain_call call.now) kept.old) }
    ensures said { IfOk result
        (λ r. r.1.items ≡ said K.cmp K.matching (plain_call call.now) kept.old) }
    ensures made { IfOk result
        (λ r. r.2 ≡ made_by K.cmp K.matching (plain_call call.now) kept.old) }
    ensures sound { IfOk result (λ r. IsSound K.cmp K.matching r.0) }
    ensures outcome { OnOk result (outcome_of K.cmp K.matching (plain_call call.now) kept.old
        ≡ Ok (map sent_alone (by_face (said K.cmp K.matching (plain_call call.now) kept.old)))) }
{
    if kept.restore(alloc).is_err() {
        return Err(CallError::Memory);
    }
    let Some(state) = kept.state() else {
        return Err(CallError::Memory);
    };
    match cause_of(alloc, state, call) {
        Err(Memory) => return Err(CallError::Memory),
        Ok(Some(refusal)) => return Err(CallError::Refused(refusal)),
        Ok(None) => {}
    }
    let made = face_of(state, call);
    match kept.prepare(alloc, call) {
        Ok(ahead) => Ok((ahead.state, ahead.said, made)),
        Err(Memory) => Err(CallError::Memory),
    }
}

// The face that a call closes.
pub(crate) fn closed_by<K: Key>(call: &Call<K>) -> Option<u32>
    ensures { result ≡ closed_by (plain_call call.now) }
{
    match call {
        Call::CloseFace { face } => Some(*face),
        _ => None,
    }
}

// Room for so many messages.
pub(crate) fn room_for<K>(
    alloc: Global,
    waiting: &Vec<(u32, Message<K>)>,
    said: &Vec<(u32, Message<K>)>,
) -> Result<Vec<(u32, Message<K>)>, Memory>
    ensures empty { IfOk result (λ room. room.items ≡ []) }
    ensures fits { IfOk result
        (λ room. length waiting.now.items + length said.now.items ≤ vec_capacity room) }
{
    match waiting.len().checked_add(said.len()) {
        None => Err(Memory),
        Some(count) => Ok(Vec::with_capacity(alloc, count)?),
    }
}
