// Calls that are carried out at their gateways.
ghost use Rattle.std.specs.Prelude.{◌≡◌, ◌+◌, ◌<◌, Some, length, None, IfOk, OnOk, OnErr};
ghost use Rattle.zt_model.specs.Fabric.{call_at, said_at, with_place};
ghost use Rattle.zt_model.specs.Lists.{nth};
ghost use Rattle.zt_model.specs.Places.{Node};
ghost use Rattle.zt_protocol.specs.Plain.{plain_call};
ghost use Rattle.zt_laws.specs.Sound.{rows_after_call};
ghost use Rattle.zt_fabric_state.specs.Changes.{carried, said_sorted, taken_by};

use crate::printing::print_all;
use crate::sorting::sort_by_face;
use crate::state::FabricState;
use std::alloc::Global;
use zt_keys::{Key, Memory};
use zt_protocol::{Call, Sent};
use zt_rollback::BoxedState;
use zt_state::GatewayState;

/// A gateway after a call, and what the call says, as it is printed.
#[derive(Drop)]
struct Prepared<K: Key> {
    rows: BoxedState<K>,
    printed: Vec<Sent<K>>,
}

/// The oldest message of a face's link is taken, where one is named.
pub fn take_message<K: Key>(s: &mut FabricState<K>, taken: Option<u32>)
    ensures { s.new ≡ taken_by taken s.old }
{
    if let Some(face) = taken {
        s.take_waiting(face);
    }
}

/// Carries out a call at the gateway of a number, which is as before until the call is committed.
fn prepare<K: Key>(
    alloc: Global,
    s: &mut FabricState<K>,
    at: usize,
    gateway: u32,
    call: &Call<K>,
) -> Result<Prepared<K>, Memory>
    requires within { at < length s.old.gateways }
    requires counted { gateway ≡ at + 1 }
    ensures rows { IfOk result (λ prepared. (node : Node K) → nth gateway s.old.gateways ≡ Some node
        → prepared.rows ≡ rows_after_call K.cmp K.matching (plain_call call.now) node.rows) }
    ensures printed { IfOk result (λ prepared. prepared.printed.items
        ≡ said_at K.cmp K.matching s.old (call_at s.old gateway (plain_call call.now))) }
    ensures same { s.new ≡ s.old }
{
    let ahead = s.prepare_at(alloc, at, call)?;
    let printed = print_all(alloc, s.places(), gateway, ahead.said)?;
    Ok(Prepared {
        rows: ahead.state,
        printed,
    })
}

/// Carries out a call at its gateway, where the oldest message of a face's link may be taken, and
/// answers what it says, in order of face. After an error nothing is changed.
pub fn carry_at<K: Key>(
    alloc: Global,
    s: &mut FabricState<K>,
    taken: Option<u32>,
    at: usize,
    gateway: u32,
    call: &Call<K>,
) -> Result<Vec<Sent<K>>, Memory>
    requires within { at < length s.old.gateways }
    requires counted { gateway ≡ at + 1 }
    ensures says { IfOk result (λ sent. sent.items
        ≡ said_sorted K.cmp K.matching gateway (plain_call call.now) s.old) }
    ensures does { OnOk result
        (s.new ≡ carried K.cmp K.matching taken gateway (plain_call call.now) s.old) }
    ensures err { OnErr result (s.new ≡ s.old) }
{
    let prepared = prepare(alloc, s, at, gateway, call)?;
    let sent = sort_by_face(prepared.printed)?;
    s.turn_waiting(alloc, taken, sent.as_slice())?;
    s.commit_at(alloc, at, prepared.rows, call);
    Ok(sent)
}

/// The number of the face that a gateway makes next. That it has none counts as out of memory;
/// there are fewer places than numbers, so this is never so.
pub fn next_face<K: Key>(g: &GatewayState<K>) -> Result<u32, Memory>
    ensures { IfOk result (λ face. face ≡ g.now.made + 1) }
{
    g.made().checked_add(1).ok_or(Memory)
}

/// Opens a face at its gateway and answers what the call sends. The face's place is the last of the
/// fabric. If no number is left for the face, that counts as out of memory. After an error nothing
/// is changed.
pub fn open_at<K: Key>(
    alloc: Global,
    s: &mut FabricState<K>,
    at: usize,
    gateway: u32,
    call: &Call<K>,
) -> Result<Vec<Sent<K>>, Memory>
    requires within { at < length s.old.gateways }
    requires counted { gateway ≡ at + 1 }
    ensures says { IfOk result (λ sent. sent.items
        ≡ said_sorted K.cmp K.matching gateway (plain_call call.now) (with_place gateway s.old)) }
    ensures does { OnOk result (s.new
        ≡ carried K.cmp K.matching None gateway (plain_call call.now) (with_place gateway s.old)) }
    ensures err { OnErr result (s.new ≡ s.old) }
{
    let face = next_face(s.gateways()[at].rows()?)?;
    s.push_place(alloc, gateway, face)?;
    match carry_at(alloc, s, None, at, gateway, call) {
        Ok(sent) => Ok(sent),
        Err(error) => {
            s.pop_place();
            Err(error)
        }
    }
}
