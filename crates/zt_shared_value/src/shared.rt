// The shared value.
ghost use Rattle.std.specs.Prelude.{◌≡◌, ℕ, ◌<◌, ◌≤◌, [], length, IfOk, IfErr};
ghost use Rattle.zt_shared_value.specs.Passes.{Standing, first_pass, made_pass, pass_drawn, pass_looked};
ghost use Rattle.zt_shared_value.specs.Passes.{pass_counted, Finds, Adds};
ghost use Rattle.zt_shared_value.specs.Copies.{Copies};

use crate::part::View;
use crate::pass::Pass;
use crate::recorder::Recorder;
use crate::rule::Passing;
use crate::steps::{self, Drawn, draw, look};
use atomic_table::{Refused, Table};
use std::alloc::{AllocError, Global};
use std::marker::Model;
use std::snapshot::Snapshot;
use std::sync::{Mutex, Wait};

/// 4294967295 numbers were drawn: no pass can be made.
#[derive(Clone, Copy, PartialEq, Eq, Debug)]
pub struct Spent;

/// A value behind a lock, that passes call. Contracts see the table that it stands in.
///
/// The lock is a word of the table, of which the proofs know who holds it. A thread that waits for
/// it would try again and again. So threads wait for `turn` first, where they sleep, and the thread
/// that has it finds the table's lock free. No proof rests on `turn`.
#[derive(Drop)]
pub struct SharedRecorder<J: Recorder> {
    pub(crate) table: Table<J, View<J>, Snapshot<J>, Passing<J>, Global>,
    pub(crate) turn: Mutex<()>,
}

impl<J: Recorder> Model for SharedRecorder<J> {
    ghost use Rattle.atomic_table.specs.Seated.{TableId, table_id_coded};
    ghost use Rattle.zt_shared_value.specs.Seats.{IsTable};

    ghost Value = { TableId };

    ghost coded = { table_id_coded };

    ghost view = { λ shared. shared.table.shared.table_id };

    ghost invariant = { λ shared. IsTable shared.table.shared.table_id };
}

impl<J: Recorder> SharedRecorder<J> {
    /// Shares a value whose journal is empty, and gives the pass with number 0. The only error is
    /// want of memory, and it drops the value.
    pub fn new(alloc: Global, value: J) -> Result<(SharedRecorder<J>, Pass<J>), AllocError>
        requires { J.journal value ≡ [] }
        ensures { IfOk result (λ made. made.1 ≡ first_pass made.0 value) }
    {
        let opening = Snapshot::of(&value);
        let mut slots = Vec::new(alloc);
        slots.push(value)?;
        match Table::new(alloc, &[0, 1, 0], slots, &opening) {
            Ok((table, seat)) => {
                let turn = Mutex::new(());
                Ok((SharedRecorder { table, turn }, Pass::first(seat)))
            }
            Err(Refused { slots: _ }) => Err(AllocError),
        }
    }

    /// How long the journal is. It waits for nobody and takes no memory.
    pub fn front(&self, pass: &mut Pass<J>) -> u64
        requires own { pass.old.table ≡ self.now }
        ensures looked { pass.new ≡ pass_looked result pass.old }
        ensures later { pass.old.seen ≤ result }
    {
        let length = look(&self.table.shared, &mut pass.seat);
        pass.seen = length;
        length
    }

    // Makes the call, by a thread whose turn it is.
    fn call_in_turn<R: Wait>(
        &self,
        rt: &R,
        pass: &mut Pass<J>,
        call: J::Call,
    ) -> Result<J::Receipt, AllocError>
        requires own { pass.old.table ≡ self.now }
        requires valid { J.is_valid call }
        ensures ok { IfOk result (λ receipt. (place : ℕ) × (entry : J.Entered)
            × Adds J.journal J.author pass.old pass.new place entry
            × (J.author entry ≡ pass.old.number) × J.is_entry_of call entry
            × J.tells place entry receipt
            × J.is_replay (J.state pass.new.opening) (J.journal pass.new.found)) }
        ensures err { IfErr result (λ _. Finds J.journal J.author pass.old pass.new.found
            × (pass.new ≡ record pass.old { found = pass.new.found })) }
        ensures replay { IfErr result (λ _.
            J.is_replay (J.state pass.new.opening) (J.journal pass.new.found)) }
    {
        let shared = &self.table.shared;
        match steps::call(rt, shared, &mut pass.seat, pass.number, call) {
            Ok((place, receipt)) => {
                pass.seen = place + 1;
                Ok(receipt)
            }
            Err(error) => Err(error),
        }
    }

    /// Waits for the lock and makes the call. The receipt tells of the entry that was added, whose
    /// place is at least what the pass had seen. The only error is want of memory: then nothing was
    /// added, and the call is dropped. Either way the pass then has the journal.
    pub fn call<R: Wait>(
        &self,
        rt: &R,
        pass: &mut Pass<J>,
        call: J::Call,
    ) -> Result<J::Receipt, AllocError>
        requires own { pass.old.table ≡ self.now }
        requires valid { J.is_valid call }
        ensures ok { IfOk result (λ receipt. (place : ℕ) × (entry : J.Entered)
            × Adds J.journal J.author pass.old pass.new place entry
            × (J.author entry ≡ pass.old.number) × J.is_entry_of call entry
            × J.tells place entry receipt
            × J.is_replay (J.state pass.new.opening) (J.journal pass.new.found)) }
        ensures err { IfErr result (λ _. Finds J.journal J.author pass.old pass.new.found
            × (pass.new ≡ record pass.old { found = pass.new.found })) }
        ensures replay { IfErr result (λ _.
            J.is_replay (J.state pass.new.opening) (J.journal pass.new.found)) }
    {
        let _turn = self.turn.lock(rt);
        self.call_in_turn(rt, pass, call)
    }

    /// Waits for the lock and copies the entry at the place, or answers `None` where the journal is
    /// no longer. The pass has then seen the journal. The only error is want of memory.
    pub fn read_entry<R: Wait>(
        &self,
        rt: &R,
        alloc: Global,
        pass: &mut Pass<J>,
        place: u64,
    ) -> Result<Option<J::Entry>, AllocError>
        requires own { pass.old.table ≡ self.now }
        ensures finds { Finds J.journal J.author pass.old pass.new.found }
        ensures looked { let long = length (J.journal pass.new.found) in
            pass.new ≡ pass_looked long (record pass.old { found = pass.new.found }) }
        ensures copied { IfOk result (λ found.
            Copies J.journal J.shows pass.new.found place found) }
        ensures replay { J.is_replay (J.state pass.new.opening) (J.journal pass.new.found) }
    {
        let shared = &self.table.shared;
        let _turn = self.turn.lock(rt);
        let (length, entry) = steps::read(rt, shared, &mut pass.seat, alloc, place);
        pass.seen = length;
        entry
    }

    /// Makes another pass, which has seen what the given one has. It takes no memory. `Spent` comes
    /// where 4294967295 numbers are found to be drawn, and the given pass keeps that.
    pub fn pass(&self, pass: &mut Pass<J>) -> Result<Pass<J>, Spent>
        requires own { pass.old.table ≡ self.now }
        ensures made { IfOk result (λ made. made ≡ made_pass made.number pass.old) }
        ensures drawn { IfOk result (λ made. pass.new ≡ pass_drawn made.number pass.old) }
        ensures fresh { IfOk result (λ made.
            (pass.old.known ≤ made.number) × (made.number < 4294967295)) }
        ensures spent { IfErr result (λ _. pass.new ≡ pass_counted 4294967295 pass.old) }
    {
        let mut known = pass.known;
        while known < u32::MAX {
            match self.draw(pass) {
                Ok(made) => return Ok(made),
                Err(count) => known = count,
            }
        }
        Err(Spent)
    }

    // Draws the number that the pass knows to be next, or finds how many were drawn.
    fn draw(&self, pass: &mut Pass<J>) -> Result<Pass<J>, u32>
        requires own { pass.old.table ≡ self.now }
        requires room { pass.old.known < 4294967295 }
        ensures made { IfOk result (λ made. made ≡ made_pass pass.old.known pass.old) }
        ensures drawn { IfOk result (λ made. pass.new ≡ pass_drawn pass.old.known pass.old) }
        ensures other { IfErr result (λ count. pass.new ≡ pass_counted count pass.old) }
        ensures more { IfErr result (λ count. (pass.old.known < count) × (count ≤ 4294967295)) }
    {
        let number = pass.known;
        match draw(&self.table.shared, &mut pass.seat, number) {
            Drawn::Made(seat) => {
                pass.known = number + 1;
                Ok(Pass::made(seat, number, pass.seen))
            }
            Drawn::Found(count) => {
                pass.known = count;
                Err(count)
            }
        }
    }
}
