// A gateway, and the calls on it.
ghost use Rattle.std.specs.Prelude.{◌≡◌, ◌+◌, ◌≤◌, ◌++◌, [], Ok, length, map, vec_capacity, IfErr};
ghost use Rattle.std.specs.Prelude.{IfOk, None, OnErr, OnOk};
ghost use Rattle.zt_gateway.specs.Running.{IsRefusedBy, by_face, called, next_waiting, oldest_for};
ghost use Rattle.zt_gateway.specs.Running.{planned, sent_alone, without_closed, without_oldest};
ghost use Rattle.zt_theorem_soundness.specs.Sound.{IsSound};
ghost use Rattle.zt_laws.specs.Sound.{CallHasFirstIds};
ghost use Rattle.zt_model.specs.Journal.{cause_of, made_by, outcome_of};
ghost use Rattle.zt_model.specs.Says.{said};
ghost use Rattle.zt_model.specs.Transcript.{FacesKeepWhatTheyShould};
ghost use Rattle.zt_protocol.specs.Plain.{plain_call};

use crate::carrying::{carried, closed_by, room_for};
use crate::copies::copy_messages;
use crate::outbox::{moved, next_waiting, take_oldest};
use crate::prepared::Prepared;
use crate::sorting::places_by_face;
use std::alloc::Global;
use std::marker::Model;
use std::mem;
use std::snapshot::Snapshot;
use zt_keys::{Key, Memory};
use zt_protocol::{Call, CallError, Message};
use zt_rollback::RestorableState;

/// A gateway: what it keeps, and the messages that it has for its faces until they are taken. Its
/// faces are numbered from 1 in order of making.
pub struct Gateway<K: Key> {
    pub(crate) alloc: Global,
    pub(crate) kept: RestorableState<K>,
    // Each with the number of its face, the oldest first.
    pub(crate) outbox: Vec<(u32, Message<K>)>,
}

// A drop of its own: the crates above prove one call, and not the drop of each field.
impl<K: Key> Drop for Gateway<K> {
    fn drop(self) {
        let Gateway {
            alloc: _,
            kept: _,
            outbox: _,
        } = self;
    }
}

impl<K: Key> Model for Gateway<K> {
    ghost use Rattle.zt_gateway.specs.Running.{Running};
    ghost use Rattle.zt_theorem_soundness.specs.Sound.{IsSound};

    ghost Value = { Running K };

    ghost view = { λ g. record { rows = g.kept; waiting = g.outbox.items } };

    ghost invariant = { λ g. IsSound K.cmp K.matching g.kept };
}

// What a call comes to at a gateway, where nothing refuses it.
fn plan<K: Key>(gateway: &mut Gateway<K>, call: &Call<K>) -> Result<Prepared<K>, CallError>
    requires { CallHasFirstIds (plain_call call.now) }
    ensures same { gateway.new ≡ gateway.old }
    ensures refused { IfErr result
        (IsRefusedBy K.cmp K.matching (plain_call call.now) gateway.old.rows) }
    ensures accepted { OnOk result
        (cause_of K.cmp K.matching (plain_call call.now) gateway.old.rows ≡ None) }
    ensures planned { IfOk result
        (λ p. p ≡ planned K.cmp K.matching (plain_call call.now) gateway.old) }
    ensures outcome { OnOk result
        (outcome_of K.cmp K.matching (plain_call call.now) gateway.old.rows
        ≡ Ok (map sent_alone
        (by_face (said K.cmp K.matching (plain_call call.now) gateway.old.rows)))) }
{
    let before = Snapshot::of(gateway);
    let alloc = gateway.alloc;
    let (state, said, made) = carried(alloc, &mut gateway.kept, call)?;
    let Ok(order) = places_by_face(alloc, said.as_slice()) else {
        return Err(CallError::Memory);
    };
    let Ok(room) = room_for(alloc, &gateway.outbox, &said) else {
        return Err(CallError::Memory);
    };
    Ok(Prepared {
        before,
        state,
        closed: closed_by(call),
        made,
        said,
        order,
        room,
    })
}

impl<K: Key> Gateway<K> {
    /// Accepts a call without carrying it out, and takes all memory that it needs; a first id is at
    /// least 1. The refusals are those of `call`, and the gateway is as before. In order of face
    /// its messages are the outcome of the call. Where the call isn't carried out, the next one
    /// first copies what the gateway kept earlier, and carries out on it the calls since.
    pub fn prepare(&mut self, call: &Call<K>) -> Result<Prepared<K>, CallError>
        requires { CallHasFirstIds (plain_call call.now) }
        ensures same { self.new ≡ self.old }
        ensures refused { IfErr result
            (IsRefusedBy K.cmp K.matching (plain_call call.now) self.old.rows) }
        ensures accepted { OnOk result
            (cause_of K.cmp K.matching (plain_call call.now) self.old.rows ≡ None) }
        ensures planned { IfOk result
            (λ p. p ≡ planned K.cmp K.matching (plain_call call.now) self.old) }
        ensures outcome { OnOk result
            (outcome_of K.cmp K.matching (plain_call call.now) self.old.rows
            ≡ Ok (map sent_alone
            (by_face (said K.cmp K.matching (plain_call call.now) self.old.rows)))) }
    {
        plan(self, call)
    }

    // Puts what a call says behind what waits, without what waits for a face that closes.
    fn enqueue(
        &mut self,
        room: Vec<(u32, Message<K>)>,
        said: Vec<(u32, Message<K>)>,
        closed: Option<u32>,
    )
        requires empty { room.items ≡ [] }
        requires fits { length self.old.waiting + length said.items ≤ vec_capacity room }
        ensures { self.new ≡ record self.old {
          waiting = without_closed closed self.old.waiting ++ said.items;
        } }
    {
        let waiting = mem::replace(&mut self.outbox, Vec::new(self.alloc));
        self.outbox = moved(room, waiting, said, closed);
    }

    /// Carries out a call that this gateway prepared and since which it didn't change. This takes
    /// no memory; the next call copies what the gateway keeps. The answer is the number of the face
    /// that the call makes, if it makes one.
    pub fn commit(&mut self, prepared: Prepared<K>) -> Option<u32>
        requires { prepared.before ≡ self.old }
        ensures done { self.new ≡ prepared.after }
        ensures made { result ≡ prepared.made }
        ensures sound { FacesKeepWhatTheyShould K.cmp K.matching self.new.rows }
    {
        let Prepared {
            state,
            closed,
            made,
            said,
            room,
            ..
        } = prepared;
        self.enqueue(room, said, closed);
        self.kept.put(state);
        made
    }

    /// Carries out a call as `commit` does, one that `prepare` accepted, and keeps a copy of the
    /// call, where memory is there for that. Then the next call copies nothing, unless such calls
    /// have come to hold too much for the rows that there are.
    pub fn commit_call(&mut self, prepared: Prepared<K>, call: &Call<K>) -> Option<u32>
        requires accepted { cause_of K.cmp K.matching (plain_call call.now) self.old.rows ≡ None }
        requires planned { prepared ≡ planned K.cmp K.matching (plain_call call.now) self.old }
        ensures done { self.new ≡ prepared.after }
        ensures made { result ≡ prepared.made }
        ensures sound { FacesKeepWhatTheyShould K.cmp K.matching self.new.rows }
    {
        let Prepared {
            state,
            closed,
            made,
            said,
            room,
            ..
        } = prepared;
        self.enqueue(room, said, closed);
        self.kept.commit(self.alloc, state, call);
        made
    }

    /// Carries out a call; a first id is at least 1. The answer is the number of the face that it
    /// makes, if it makes one. It is refused by the first cause that holds of it; after a refusal
    /// or an error nothing is changed. An accepted call leaves each face outside router regions
    /// with visible tokens alone that it seeks, and with all admitted ones that it is to be told.
    pub fn call(&mut self, call: &Call<K>) -> Result<Option<u32>, CallError>
        requires { CallHasFirstIds (plain_call call.now) }
        ensures refused { IfErr result
            (IsRefusedBy K.cmp K.matching (plain_call call.now) self.old.rows) }
        ensures accepted { OnOk result
            (cause_of K.cmp K.matching (plain_call call.now) self.old.rows ≡ None) }
        ensures done { OnOk result
            (self.new ≡ called K.cmp K.matching (plain_call call.now) self.old) }
        ensures made { IfOk result
            (λ made. made ≡ made_by K.cmp K.matching (plain_call call.now) self.old.rows) }
        ensures err { OnErr result (self.new ≡ self.old) }
        ensures sound { OnOk result (FacesKeepWhatTheyShould K.cmp K.matching self.new.rows) }
    {
        match self.prepare(call) {
            Ok(prepared) => Ok(self.commit_call(prepared, call)),
            Err(error) => Err(error),
        }
    }

    /// An equal gateway, with the messages that wait.
    pub fn copy(&self, alloc: Global) -> Result<Self, Memory>
        ensures { IfOk result (λ copy. copy ≡ self.now) }
    {
        let kept = self.kept.copy(alloc)?;
        let outbox = copy_messages(alloc, self.outbox.as_slice())?;
        Ok(Gateway {
            alloc,
            kept,
            outbox,
        })
    }

    /// Takes the oldest message that waits for the face. None exactly where there is none.
    pub fn take_outbox(&mut self, face: u32) -> Option<Message<K>>
        ensures message { result ≡ oldest_for face self.old.waiting }
        ensures left { self.new
            ≡ record self.old { waiting = without_oldest face self.old.waiting } }
    {
        take_oldest(&mut self.outbox, face)
    }

    /// Drops all messages that wait. This takes no memory.
    pub fn clear_outbox(&mut self)
        ensures { self.new ≡ record self.old { waiting = [] } }
    {
        self.outbox.clear();
    }

    /// The least face above this one for which a message waits. None exactly where there is none.
    pub fn next_outbox(&self, after: u32) -> Option<u32>
        ensures { result ≡ next_waiting after self.now.waiting }
    {
        next_waiting(self.outbox.as_slice(), after)
    }
}
