// The calls of lines that make one.
ghost use Rattle.std.specs.Prelude.{◌≡◌, true, false, IfOk, IfSome, OnErr};
ghost use Rattle.zt_model.specs.Fabric.{after_hearing, altered_at, opened_at, said_at};
ghost use Rattle.zt_model.specs.Fabric.{sorted_by_face, with_waiting};
ghost use Rattle.zt_laws.specs.Order.{FabricIsInOrder};
ghost use Rattle.zt_laws.specs.Sound.{opens_face};
ghost use Rattle.zt_fabric_state.specs.Changes.{taken_by};
ghost use Rattle.zt_links.specs.Lines.{made_at};

use crate::calls::CallMade;
use std::alloc::Global;
use zt_fabric_state::{FabricState, carry_at, member_place, open_at, take_message};
use zt_keys::{Key, Memory};
use zt_protocol::Sent;

/// Makes the one call of a line that opens no face, where its gateway or face exists. The oldest
/// message of a face's link may be taken. After an error nothing is changed.
pub(crate) fn make_call<K: Key>(
    alloc: Global,
    s: &mut FabricState<K>,
    taken: Option<u32>,
    made: &Option<CallMade<K>>,
) -> Result<Vec<Sent<K>>, Memory>
    requires still { IfSome made.now (λ made. opens_face made.1 ≡ false) }
    requires order { FabricIsInOrder K.cmp K.matching s.old }
    ensures says { IfOk result (λ sent. sent.items
        ≡ sorted_by_face (said_at K.cmp K.matching s.old (made_at s.old made.now))) }
    ensures does { IfOk result (λ sent. s.new
        ≡ with_waiting sent.items (after_hearing K.cmp sent.items
        (altered_at K.cmp K.matching (taken_by taken s.old) (made_at s.old made.now)))) }
    ensures err { OnErr result (s.new ≡ s.old) }
{
    let Some(made) = made else {
        take_message(s, taken);
        return Ok(Vec::new(alloc));
    };
    match member_place(s.gateways(), made.gateway) {
        None => {
            take_message(s, taken);
            Ok(Vec::new(alloc))
        }
        Some(at) => carry_at(alloc, s, taken, at, made.gateway, &made.call),
    }
}

/// Makes the call of a line that opens a face, where its gateway exists. After an error nothing is
/// changed.
pub(crate) fn open_face<K: Key>(
    alloc: Global,
    s: &mut FabricState<K>,
    made: &Option<CallMade<K>>,
) -> Result<Vec<Sent<K>>, Memory>
    requires opens { IfSome made.now (λ made. opens_face made.1 ≡ true) }
    requires order { FabricIsInOrder K.cmp K.matching s.old }
    ensures says { IfOk result (λ sent. sent.items
        ≡ sorted_by_face (said_at K.cmp K.matching
        (opened_at K.cmp K.matching (made_at s.old made.now) s.old) (made_at s.old made.now))) }
    ensures does { IfOk result (λ sent. s.new
        ≡ with_waiting sent.items (after_hearing K.cmp sent.items
        (opened_at K.cmp K.matching (made_at s.old made.now) s.old))) }
    ensures err { OnErr result (s.new ≡ s.old) }
{
    let Some(made) = made else {
        return Ok(Vec::new(alloc));
    };
    match member_place(s.gateways(), made.gateway) {
        None => Ok(Vec::new(alloc)),
        Some(at) => open_at(alloc, s, at, made.gateway, &made.call),
    }
}
