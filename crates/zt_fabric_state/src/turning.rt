// Calls that are carried out at a gateway for a line that makes two, and undone where the line
// fails.
ghost use Rattle.std.specs.Prelude.{◌≡◌, ◌==◌, ℕ, false, length, IfOk, OnErr, OnOk};
ghost use Rattle.zt_model.specs.Fabric.{call_at, said_at, with_rows};
ghost use Rattle.zt_model.specs.Lists.{nth};
ghost use Rattle.zt_protocol.specs.Plain.{plain_call};
ghost use Rattle.zt_laws.specs.Sound.{rows_after_call};
ghost use Rattle.zt_link_queues.specs.Found.{AreBelow};
ghost use Rattle.zt_fabric_state.specs.Changes.{IsAfter, undone, without_last_place};

use crate::places::member_place;
use crate::printing::print_all;
use crate::state::FabricState;
use std::alloc::Global;
use zt_keys::{Key, Memory};
use zt_protocol::{Call, Sent};
use zt_rollback::Former;

/// A gateway where a call was carried out, what it was before, and what the call says. Where there
/// is no such gateway nothing was kept, and nothing is said.
#[derive(Drop)]
pub struct Turned<K: Key> {
    /// The number of the gateway.
    pub gateway: u32,
    /// What it was before, by which the call is undone or settled.
    pub former: Option<Former<K>>,
    /// What the call says, as it is printed.
    pub printed: Vec<Sent<K>>,
}

/// Carries out a call at its gateway, where it exists, for a line that may fail yet: the answer has
/// what undoes it. After an error nothing is changed.
pub fn hear_call<K: Key>(
    alloc: Global,
    s: &mut FabricState<K>,
    gateway: u32,
    call: &Call<K>,
) -> Result<Turned<K>, Memory>
    ensures says { IfOk result (λ turned. turned.printed.items
        ≡ said_at K.cmp K.matching s.old (call_at s.old gateway (plain_call call.now))) }
    ensures does { OnOk result
        (s.new ≡ with_rows gateway (rows_after_call K.cmp K.matching (plain_call call.now)) s.old) }
    ensures after { IfOk result
        (λ turned. IsAfter K.cmp K.matching turned.former turned.gateway s.new) }
    ensures others { IfOk result (λ turned. (n : ℕ) → (n == turned.gateway) ≡ false
        → nth n s.new.gateways ≡ nth n s.old.gateways) }
    ensures back { IfOk result (λ turned. undone turned.former turned.gateway s.new ≡ s.old) }
    ensures err { OnErr result (s.new ≡ s.old) }
{
    match member_place(s.gateways(), gateway) {
        None => Ok(Turned {
            gateway,
            former: None,
            printed: Vec::new(alloc),
        }),
        Some(at) => {
            let turn = s.turn_at(alloc, at, call)?;
            match print_all(alloc, s.places(), gateway, turn.said) {
                Ok(printed) => Ok(Turned {
                    gateway,
                    former: Some(turn.former),
                    printed,
                }),
                Err(error) => {
                    s.undo_at(at, turn.former);
                    Err(error)
                }
            }
        }
    }
}

/// A gateway is again what it was before a call; where nothing was kept, nothing is changed.
pub fn undo<K: Key>(s: &mut FabricState<K>, gateway: u32, former: Option<Former<K>>)
    ensures { s.new ≡ undone former gateway s.old }
{
    match former {
        None => {}
        Some(former) => put_back(s, gateway, former),
    }
}

fn put_back<K: Key>(s: &mut FabricState<K>, gateway: u32, former: Former<K>)
    ensures { s.new ≡ with_rows gateway (λ _. former.rows) s.old }
{
    match member_place(s.gateways(), gateway) {
        None => {}
        Some(at) => s.undo_at(at, former),
    }
}

/// A face that was opened for a link, which isn't made yet, is taken away again, and its gateway
/// is what it was before.
pub fn undo_opening<K: Key>(s: &mut FabricState<K>, gateway: u32, former: Option<Former<K>>)
    requires { AreBelow (length s.old.faces) s.old.links }
    ensures { s.new ≡ without_last_place (undone former gateway s.old) }
{
    undo(s, gateway, former);
    s.pop_place();
}

/// A call that was carried out at a gateway stays, where it is the last one there.
pub fn settle<K: Key>(s: &mut FabricState<K>, gateway: u32, former: Option<Former<K>>)
    requires { IsAfter K.cmp K.matching former gateway s.old }
    ensures { s.new ≡ s.old }
{
    let Some(former) = former else {
        return;
    };
    let Some(at) = member_place(s.gateways(), gateway) else {
        return;
    };
    s.settle_at(at, former);
}

/// A call that was carried out at a gateway stays, where a later one was at another gateway. Where
/// both were at one, the later one is settled alone, and the next call copies the gateway.
pub fn settle_apart<K: Key>(
    s: &mut FabricState<K>,
    gateway: u32,
    later: u32,
    former: Option<Former<K>>,
)
    requires { (gateway == later) ≡ false → IsAfter K.cmp K.matching former gateway s.old }
    ensures { s.new ≡ s.old }
{
    if gateway != later {
        settle(s, gateway, former);
    }
}
