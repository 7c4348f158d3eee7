// A monitor of a shared gateway.
ghost use Rattle.std.specs.Prelude.{◌≡◌, ◌<◌, ◌≤◌, List, Ok, Some, IfErr, IfOk, OnErr};
ghost use Rattle.zt_laws.specs.Order.{InKeyOrder};
ghost use Rattle.zt_protocol.specs.declared.entries.Sent.{Sent};
ghost use Rattle.zt_shared.specs.Sharing.{Enters, HasRead};
ghost use Rattle.zt_presence.specs.Polling.{Finds, HasAsked, MakesNone, Opens, OpeningFails};
ghost use Rattle.zt_presence.specs.Polling.{PollFails, Polls, outcome_at};
ghost use Rattle.zt_presence.specs.Presence.{next_ask};

use crate::tables::{Change, answers, change_of};
use std::alloc::Global;
use std::marker::Model;
use std::sync::Wait;
use zt_keys::{Key, Memory};
use zt_protocol::{Call, InterestMode, InterestOptions, Refusal, Sent, copy_expression};
use zt_shared::{JournalEntry, Pass, Receipt, SharedGateway};

/// Why a monitor wasn't opened, or a poll failed. The table is as before.
#[derive(Clone, Copy, PartialEq, Eq, Debug)]
pub enum PresenceError {
    /// The call that was made is refused. Its entry stands at the place.
    Refused { place: u64, refusal: Refusal },
    /// The monitor has made 4294967295 polls: no number is left for another.
    PollsSpent,
    /// Memory ran out.
    Memory,
}

/// Which tokens are alive, as a face of its own may know of them. A monitor asks the gateway, so
/// what it finds holds at a place of the journal.
#[derive(Drop)]
pub struct Monitor<K: Key> {
    face: u32,
    polls: u32,
    next_place: u64,
    expr: Option<K>,
    table: Vec<K>,
}

impl<K: Key> Model for Monitor<K> {
    ghost use Rattle.zt_presence.specs.Presence.{IsTable, Presence};

    ghost Value = { Presence K };

    ghost view = { λ m. record {
      face = m.face;
      polls = m.polls;
      next_place = m.next_place;
      expr = m.expr;
      table = m.table.items;
    } };

    ghost invariant = { λ m. IsTable K.cmp m.table.items };
}

// The messages of the accepted entry at a place, which the pass has.
fn read_sent<R: Wait, K: Key>(
    rt: &R,
    alloc: Global,
    shared: &SharedGateway<K>,
    pass: &mut Pass<K>,
    place: u64,
) -> Result<Vec<Sent<K>>, Memory>
    requires own { pass.old.table ≡ shared.now }
    requires accepted { (sent : List (Sent K)) × (outcome_at place pass.old ≡ Some (Ok sent)) }
    ensures read { HasRead K.cmp K.matching pass.old pass.new }
    ensures sent { IfOk result (λ sent. outcome_at place pass.new ≡ Some (Ok sent.items)) }
{
    match shared.read_entry(rt, alloc, pass, place)? {
        None => unreachable!(),
        Some(entry) => {
            let JournalEntry {
                pass: _,
                call: _,
                made: _,
                outcome,
            } = entry;
            match outcome {
                Ok(sent) => Ok(sent),
                Err(_) => unreachable!(),
            }
        }
    }
}

impl<K: Key> Monitor<K> {
    /// Opens a session for a monitor of the tokens that match the expression, or without one of
    /// all. The pass is one of the gateway, and makes one entry, which the monitor's face comes
    /// from, but none where memory runs out. `Refused` comes where the gateway has given out all
    /// numbers of faces; `PollsSpent` never does. It waits while others hold the gateway.
    pub fn open<R: Wait>(
        rt: &R,
        alloc: Global,
        shared: &SharedGateway<K>,
        pass: &mut Pass<K>,
        expr: Option<K>,
    ) -> Result<Monitor<K>, PresenceError>
        requires { pass.old.table ≡ shared.now }
        ensures ok { IfOk result (Opens K.cmp K.matching expr pass.old pass.new) }
        ensures err { IfErr result (OpeningFails K.cmp K.matching pass.old pass.new) }
        ensures own { pass.new.table ≡ shared.now }
        ensures seen { IfOk result (λ monitor. monitor.next_place ≤ pass.new.seen) }
    {
        let Ok(receipt) = shared.call(rt, pass, Call::NewSession { first: 1 }) else {
            return Err(PresenceError::Memory);
        };
        match receipt.answer {
            Err(refusal) => Err(PresenceError::Refused {
                place: receipt.place,
                refusal,
            }),
            Ok(made) => match made {
                None => unreachable!(),
                Some(face) => Ok(Monitor {
                    face,
                    polls: 0,
                    next_place: pass.seen(),
                    expr,
                    table: Vec::new(alloc),
                }),
            },
        }
    }

    /// The face that the monitor asks for.
    pub fn face(&self) -> u32
        ensures { result ≡ self.now.face }
    {
        self.face
    }

    /// How many polls made their entry.
    pub fn polls(&self) -> u32
        ensures { result ≡ self.now.polls }
    {
        self.polls
    }

    /// One more than the place of the last entry that this monitor made.
    pub fn next_place(&self) -> u64
        ensures { result ≡ self.now.next_place }
    {
        self.next_place
    }

    /// What the last poll found that found something, in key order; at first nothing.
    pub fn table(&self) -> &[K]
        ensures table { result.now ≡ self.now.table }
        ensures ordered { InKeyOrder K.cmp result.now }
    {
        self.table.as_slice()
    }

    // Makes the ask of the next poll. Where memory runs out it isn't made.
    fn ask<R: Wait>(
        &self,
        rt: &R,
        alloc: Global,
        shared: &SharedGateway<K>,
        pass: &mut Pass<K>,
    ) -> Result<Receipt, Memory>
        requires own { pass.old.table ≡ shared.now }
        requires within { self.now.polls < 4294967295 }
        ensures ok { IfOk result (λ receipt.
            Enters K.cmp K.matching (next_ask self.now) receipt pass.old pass.new) }
        ensures err { IfErr result (λ _. MakesNone pass.old pass.new) }
    {
        let call = Call::Interest {
            face: self.face,
            id: self.polls + 1,
            mode: InterestMode::Current,
            options: InterestOptions::TOKENS,
            expr: copy_expression(&self.expr, alloc)?,
        };
        shared.call(rt, pass, call)
    }

    // Takes the answers of the last ask, whose entry stands at the place, for the table. After an
    // error the monitor is as before.
    fn find<R: Wait>(
        &mut self,
        rt: &R,
        alloc: Global,
        shared: &SharedGateway<K>,
        pass: &mut Pass<K>,
        place: u64,
    ) -> Result<Change<K>, Memory>
        requires own { pass.old.table ≡ shared.now }
        requires asked { HasAsked K.cmp K.matching self.old.face self.old.polls self.old.expr
            place pass.old }
        ensures read { HasRead K.cmp K.matching pass.old pass.new }
        ensures ok { IfOk result (Finds K.cmp K.matching place pass.new self.old self.new) }
        ensures err { OnErr result (self.new ≡ self.old) }
    {
        let sent = read_sent(rt, alloc, shared, pass, place)?;
        let table = answers(alloc, self.face, self.polls, sent)?;
        let change = change_of(alloc, place, self.table.as_slice(), table.as_slice())?;
        self.table = table;
        Ok(change)
    }

    /// Asks which tokens are alive now. The pass is one of the gateway, and has seen the entries
    /// that this monitor made. What is found holds where the poll's entry stands in the journal,
    /// which is behind all that the pass had seen; the change says how it differs from the table
    /// before. `PollsSpent` comes exactly where 4294967295 polls were made, and makes no entry.
    /// `Refused` comes where the gateway refuses the ask, as where another caller closed the
    /// monitor's face or took the poll's number there, or where no id is left upstream. After an
    /// error the table is as before; if memory runs out, the poll's number is used where its entry
    /// was made. It waits while others hold the gateway.
    pub fn poll<R: Wait>(
        &mut self,
        rt: &R,
        alloc: Global,
        shared: &SharedGateway<K>,
        pass: &mut Pass<K>,
    ) -> Result<Change<K>, PresenceError>
        requires own { pass.old.table ≡ shared.now }
        requires seen { self.old.next_place ≤ pass.old.seen }
        ensures ok { IfOk result
            (Polls K.cmp K.matching pass.old pass.new self.old self.new) }
        ensures err { IfErr result
            (PollFails K.cmp K.matching pass.old pass.new self.old self.new) }
        ensures own { pass.new.table ≡ shared.now }
        ensures seen { self.new.next_place ≤ pass.new.seen }
    {
        if self.polls == u32::MAX {
            return Err(PresenceError::PollsSpent);
        }
        let Ok(receipt) = self.ask(rt, alloc, shared, pass) else {
            return Err(PresenceError::Memory);
        };
        self.polls += 1;
        self.next_place = pass.seen();
        match receipt.answer {
            Err(refusal) => Err(PresenceError::Refused {
                place: receipt.place,
                refusal,
            }),
            Ok(_) => match self.find(rt, alloc, shared, pass, receipt.place) {
                Ok(change) => Ok(change),
                Err(_) => Err(PresenceError::Memory),
            },
        }
    }
}
