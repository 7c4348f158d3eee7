// A gateway that many threads call.
ghost use Rattle.std.specs.Prelude.{◌≡◌, ◌<◌, ◌≤◌, [], length, map, option_map, slice_get, IfOk};
ghost use Rattle.std.specs.Prelude.{IfErr};
ghost use Rattle.std.specs.List.{AllByRecursion, AllZip, Contains};
ghost use Rattle.zt_gateway.specs.Running.{Running};
ghost use Rattle.zt_laws.specs.Sound.{CallHasFirstIds};
ghost use Rattle.zt_shared_value.specs.Account.{IsComplete, IsCounted, IsFoundIn};
ghost use Rattle.zt_shared_value.specs.Passes.{first_pass, made_pass, pass_counted, pass_drawn};
ghost use Rattle.zt_shared_value.specs.Passes.{pass_looked};
ghost use Rattle.zt_protocol.specs.Plain.{plain_call};
ghost use Rattle.zt_shared.specs.Recorded.{journalled, opened};
ghost use Rattle.zt_shared.specs.Sharing.{Enters, FindsJournal, HasRead, HasReplay, IsWholeJournal};

use crate::entries::{Journal, JournalEntry, Receipt};
use crate::journaled::Journaled;
use std::alloc::Global;
use std::marker::Model;
use std::sync::Wait;
use zt_gateway::Gateway;
use zt_keys::{Key, Memory};
use zt_protocol::Call;
use zt_shared_value::{SharedRecorder, Spent};

/// The right to call a shared gateway, for one thread at a time.
pub type Pass<K> = zt_shared_value::Pass<Journaled<K>>;

/// A gateway with its journal behind a lock, that passes call from any thread. Contracts see the
/// table that it stands in.
#[derive(Drop)]
pub struct SharedGateway<K: Key> {
    shared: SharedRecorder<Journaled<K>>,
}

impl<K: Key> Model for SharedGateway<K> {
    ghost use Rattle.atomic_table.specs.Seated.{TableId, table_id_coded};

    ghost Value = { TableId };

    ghost coded = { table_id_coded };

    ghost view = { λ s. s.shared };
}

/// Fewer passes were handed in than were made. All of it comes back.
#[derive(Drop)]
pub struct CloseError<K: Key> {
    /// How many numbers were drawn, as a pass found it in this call.
    pub made: u32,
    /// How many passes were handed in.
    pub handed: u32,
    /// The gateway, shared as before.
    pub shared: SharedGateway<K>,
    /// The passes, in their order.
    pub passes: Vec<Pass<K>>,
}

impl<K: Key> SharedGateway<K> {
    /// Shares a gateway at which no message waits, and gives the pass with number 0. An error drops
    /// the gateway.
    pub fn new(alloc: Global, gateway: Gateway<K>) -> Result<(SharedGateway<K>, Pass<K>), Memory>
        requires { gateway.waiting ≡ [] }
        ensures { IfOk result (λ made. made.1 ≡ first_pass made.0 (opened gateway)) }
    {
        let journaled = Journaled::new(alloc, gateway)?;
        match SharedRecorder::new(alloc, journaled) {
            Ok((shared, pass)) => Ok((SharedGateway { shared }, pass)),
            Err(_) => Err(Memory),
        }
    }

    /// Makes another pass, which has seen what the given one has. It takes no memory. `Spent` comes
    /// where 4294967295 numbers are found to be drawn, and the given pass keeps that.
    pub fn pass(&self, pass: &mut Pass<K>) -> Result<Pass<K>, Spent>
        requires own { pass.old.table ≡ self.now }
        ensures made { IfOk result (λ made. made ≡ made_pass made.number pass.old) }
        ensures drawn { IfOk result (λ made. pass.new ≡ pass_drawn made.number pass.old) }
        ensures fresh { IfOk result (λ made.
            (pass.old.known ≤ made.number) × (made.number < 4294967295)) }
        ensures spent { IfErr result (λ _. pass.new ≡ pass_counted 4294967295 pass.old) }
    {
        self.shared.pass(pass)
    }

    /// Waits for the lock and makes the call; a first id is at least 1. The call and what it came
    /// to are added to the journal, and the receipt tells of that entry, whose place is at least
    /// what the pass had seen. After an error nothing was added, and the call is dropped. Either
    /// way the pass then has the journal, which is a replay.
    pub fn call<R: Wait>(
        &self,
        rt: &R,
        pass: &mut Pass<K>,
        call: Call<K>,
    ) -> Result<Receipt, Memory>
        requires own { pass.old.table ≡ self.now }
        requires first { CallHasFirstIds (plain_call call) }
        ensures ok { IfOk result (λ receipt.
            Enters K.cmp K.matching (plain_call call) receipt pass.old pass.new) }
        ensures err { IfErr result (λ _. FindsJournal pass.old pass.new.found
            × (pass.new ≡ record pass.old { found = pass.new.found })) }
        ensures replay { IfErr result (λ _. HasReplay K.cmp K.matching pass.new) }
    {
        match self.shared.call(rt, pass, call) {
            Ok(receipt) => Ok(receipt),
            Err(_) => Err(Memory),
        }
    }

    /// How long the journal is. It waits for nobody and takes no memory.
    pub fn front(&self, pass: &mut Pass<K>) -> u64
        requires own { pass.old.table ≡ self.now }
        ensures looked { pass.new ≡ pass_looked result pass.old }
        ensures later { pass.old.seen ≤ result }
    {
        self.shared.front(pass)
    }

    /// Waits for the lock and copies the entry at the place, or answers `None` where the journal is
    /// no longer. The pass has then seen the journal.
    pub fn read_entry<R: Wait>(
        &self,
        rt: &R,
        alloc: Global,
        pass: &mut Pass<K>,
        place: u64,
    ) -> Result<Option<JournalEntry<K>>, Memory>
        requires own { pass.old.table ≡ self.now }
        ensures read { HasRead K.cmp K.matching pass.old pass.new }
        ensures copied { IfOk result (λ found.
            option_map journalled found ≡ slice_get pass.new.found.entries place) }
    {
        match self.shared.read_entry(rt, alloc, pass, place) {
            Ok(found) => Ok(found),
            Err(_) => Err(Memory),
        }
    }

    /// Ends the sharing: gives the journal where all passes that were ever made are handed in. It
    /// takes no memory.
    pub fn close(self, passes: Vec<Pass<K>>) -> Result<Journal<K>, CloseError<K>>
        requires some { 0 < length passes.items }
        requires own { AllByRecursion (λ pass. pass.table ≡ self) passes.items }
        ensures ok { IfOk result (λ journal.
            IsWholeJournal K.cmp K.matching (map journalled journal.entries.items) passes.items) }
        ensures whole { IfOk result (λ _. IsComplete passes.items) }
        ensures shared { IfErr result (λ error. error.shared ≡ self) }
        ensures passes { IfErr result (λ error. AllZip IsCounted passes.items error.passes.items) }
        ensures own { IfErr result (λ error.
            AllByRecursion (λ pass. pass.table ≡ self) error.passes.items) }
        ensures handed { IfErr result (λ error. error.handed ≡ length passes.items) }
        ensures fewer { IfErr result (λ error. error.handed < error.made) }
        ensures made { IfErr result (λ error.
            Contains (map (λ pass. pass.known) error.passes.items) error.made) }
        ensures found { IfErr result (λ error.
            IsFoundIn error.handed error.made passes.items error.passes.items) }
    {
        match self.shared.close(passes) {
            Ok(journaled) => Ok(journaled.into_journal()),
            Err(error) => Err(CloseError {
                made: error.made,
                handed: error.handed,
                shared: SharedGateway {
                    shared: error.shared,
                },
                passes: error.passes,
            }),
        }
    }
}
