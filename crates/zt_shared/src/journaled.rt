// A gateway with its journal.
ghost use Rattle.std.specs.Prelude.{◌≡◌, ◌+◌, ◌<◌, ◌≤◌, ◌^◌, ◌++◌, [], ◌∷◌, None, Ok, Some, length};
ghost use Rattle.std.specs.Prelude.{map, option_map, slice_get, vec_capacity, vec_len, IfOk, IfSome};
ghost use Rattle.std.specs.Prelude.{OnErr, OnOk};
ghost use Rattle.zt_gateway.specs.Running.{by_face, planned, sent_alone};
ghost use Rattle.zt_laws.specs.Sound.{CallHasFirstIds};
ghost use Rattle.zt_model.specs.Journal.{cause_of, outcome_of};
ghost use Rattle.zt_model.specs.Says.{said};
ghost use Rattle.zt_protocol.specs.Plain.{plain_call};
ghost use Rattle.zt_shared.specs.Recorded.{IsRecord, answer_of, entered, entry_of, journalled};
ghost use Rattle.zt_shared.specs.Recorded.{opened};

use crate::copies::{copy_entry, sent_by};
use crate::entries::{Journal, JournalEntry, Receipt};
use std::alloc::Global;
use std::marker::Model;
use zt_gateway::{Gateway, Lookups, Prepared};
use zt_keys::{Key, Memory};
use zt_protocol::{Call, CallError, Refusal};

/// A gateway with the journal of the calls on it, from the gateway as it was handed in. No message
/// waits at it: a call's messages go into its entry.
pub struct Journaled<K: Key> {
    alloc: Global,
    opening: Gateway<K>,
    gateway: Gateway<K>,
    entries: Vec<JournalEntry<K>>,
}

// A drop of its own: the crates above prove one call, and not the drop of each field.
impl<K: Key> Drop for Journaled<K> {
    fn drop(self) {
        let Journaled {
            alloc: _,
            opening: _,
            gateway: _,
            entries: _,
        } = self;
    }
}

impl<K: Key> Model for Journaled<K> {
    ghost use Rattle.std.specs.Prelude.{map};
    ghost use Rattle.zt_shared.specs.Recorded.{IsRecord, Recorded, journalled};

    ghost Value = { Recorded K };

    ghost view = { λ j. record {
      opening = j.opening;
      gateway = j.gateway;
      entries = map journalled j.entries.items;
    } };

    ghost invariant = { λ j. IsRecord K.cmp K.matching
        (record {
          opening = j.opening;
          gateway = j.gateway;
          entries = map journalled j.entries.items;
        }) };
}

// Adds an entry for which there is room.
fn push_within<K: Drop>(entries: &mut Vec<JournalEntry<K>>, entry: JournalEntry<K>)
    requires { vec_len entries.old + 1 ≤ vec_capacity entries.old }
    ensures { entries.new.items ≡ entries.old.items ++ entry ∷ [] }
{
    let Ok(()) = entries.push(entry) else {
        unreachable!()
    };
}

impl<K: Key> Journaled<K> {
    /// A gateway at which no message waits, with an empty journal. It keeps a copy of the gateway
    /// as its opening. An error drops the gateway.
    pub fn new(alloc: Global, gateway: Gateway<K>) -> Result<Journaled<K>, Memory>
        requires { gateway.waiting ≡ [] }
        ensures { IfOk result (λ made. made ≡ opened gateway) }
    {
        let opening = gateway.copy(alloc)?;
        Ok(Journaled {
            alloc,
            opening,
            gateway,
            entries: Vec::new(alloc),
        })
    }

    // Adds the entry of a refused call.
    fn enter_refused(
        &mut self,
        pass: u32,
        call: Call<K>,
        refusal: Refusal,
    ) -> Result<Receipt, Memory>
        requires { cause_of K.cmp K.matching (plain_call call) self.old.gateway.rows
            ≡ Some refusal }
        ensures done { OnOk result
            (self.new ≡ entered K.cmp K.matching pass (plain_call call) self.old) }
        ensures place { IfOk result (λ receipt. receipt.place ≡ length self.old.entries) }
        ensures answer { IfOk result (λ receipt. receipt.answer
            ≡ answer_of K.cmp K.matching (plain_call call) self.old.gateway.rows) }
        ensures err { OnErr result (self.new ≡ self.old) }
        ensures kept { IsRecord K.cmp K.matching self.new }
        ensures room { length self.new.entries < 2 ^ 64 }
    {
        let place = self.entries.len() as u64;
        self.entries.push(JournalEntry {
            pass,
            call,
            made: None,
            outcome: Err(refusal),
        })?;
        Ok(Receipt {
            place,
            answer: Err(refusal),
        })
    }

    // Carries out a call that is prepared, and adds its entry.
    fn enter_prepared(
        &mut self,
        pass: u32,
        call: Call<K>,
        prepared: Prepared<K>,
    ) -> Result<Receipt, Memory>
        requires accepted { cause_of K.cmp K.matching (plain_call call) self.old.gateway.rows
            ≡ None }
        requires planned { prepared ≡ planned K.cmp K.matching (plain_call call) self.old.gateway }
        requires outcome { outcome_of K.cmp K.matching (plain_call call) self.old.gateway.rows
            ≡ Ok (map sent_alone
            (by_face (said K.cmp K.matching (plain_call call) self.old.gateway.rows))) }
        ensures done { OnOk result
            (self.new ≡ entered K.cmp K.matching pass (plain_call call) self.old) }
        ensures place { IfOk result (λ receipt. receipt.place ≡ length self.old.entries) }
        ensures answer { IfOk result (λ receipt. receipt.answer
            ≡ answer_of K.cmp K.matching (plain_call call) self.old.gateway.rows) }
        ensures err { OnErr result (self.new ≡ self.old) }
        ensures kept { IsRecord K.cmp K.matching self.new }
        ensures room { length self.new.entries < 2 ^ 64 }
    {
        let sent = sent_by(self.alloc, &prepared)?;
        self.entries.reserve(1)?;
        let place = self.entries.len() as u64;
        let made = self.gateway.commit_call(prepared, &call);
        self.gateway.clear_outbox();
        let entry = JournalEntry {
            pass,
            call,
            made,
            outcome: Ok(sent),
        };
        push_within(&mut self.entries, entry);
        Ok(Receipt {
            place,
            answer: Ok(made),
        })
    }

    /// Makes a call for the pass of this number; a first id is at least 1. The call, the face made
    /// and what it came to are added to the journal, and the receipt tells of that entry. After an
    /// error the gateway and the journal are as before, and the call is dropped.
    pub fn enter(&mut self, pass: u32, call: Call<K>) -> Result<Receipt, Memory>
        requires { CallHasFirstIds (plain_call call) }
        ensures done { OnOk result
            (self.new ≡ entered K.cmp K.matching pass (plain_call call) self.old) }
        ensures place { IfOk result (λ receipt. receipt.place ≡ length self.old.entries) }
        ensures answer { IfOk result (λ receipt. receipt.answer
            ≡ answer_of K.cmp K.matching (plain_call call) self.old.gateway.rows) }
        ensures err { OnErr result (self.new ≡ self.old) }
        ensures kept { IsRecord K.cmp K.matching self.new }
        ensures room { length self.new.entries < 2 ^ 64 }
    {
        match self.gateway.prepare(&call) {
            Ok(prepared) => self.enter_prepared(pass, call, prepared),
            Err(CallError::Refused(refusal)) => self.enter_refused(pass, call, refusal),
            Err(CallError::Memory) => Err(Memory),
        }
    }

    /// What the gateway keeps, to look things up in. `None` after a call that ran out of memory,
    /// until the next call or `rebuild`.
    pub fn lookups(&self) -> Option<Lookups<'_, K>>
        ensures { IfSome result (λ lookups. lookups ≡ self.now.gateway.rows) }
    {
        self.gateway.lookups()
    }

    /// Rebuilds what the gateway keeps, if a call ran out of memory. `lookups` has an answer then.
    pub fn rebuild(&mut self) -> Result<(), Memory>
        ensures { self.new ≡ self.old }
    {
        self.gateway.rebuild()
    }

    /// An equal copy of the entry at the place. None exactly where the journal is no longer than
    /// that.
    pub fn entry(&self, alloc: Global, place: u64) -> Result<Option<JournalEntry<K>>, Memory>
        ensures found { IfOk result
            (λ found. option_map journalled found ≡ slice_get self.now.entries place) }
        ensures kept { IsRecord K.cmp K.matching self.now }
    {
        match self.entries.get(place as usize) {
            None => Ok(None),
            Some(entry) => Ok(Some(copy_entry(alloc, entry)?)),
        }
    }

    /// How many entries the journal has.
    pub fn len(&self) -> u64
        ensures long { result ≡ length self.now.entries }
        ensures kept { IsRecord K.cmp K.matching self.now }
    {
        self.entries.len() as u64
    }

    /// The journal alone. This takes no memory.
    pub fn into_journal(self) -> Journal<K>
        ensures entries { map journalled result.entries.items ≡ self.entries }
        ensures kept { IsRecord K.cmp K.matching self }
    {
        let Journaled {
            alloc: _,
            opening: _,
            gateway: _,
            entries,
        } = self;
        Journal { entries }
    }
}
