// The end of a shared value: its passes come together, and the value comes out.
ghost use Rattle.std.specs.Prelude.{◌≡◌, ◌<◌, ◌≤◌, [], length, map, MatchOption, IfErr};
ghost use Rattle.std.specs.Prelude.{IfOk, IfSome};
ghost use Rattle.std.specs.List.{AllByRecursion, AllZip, Contains};
ghost use Rattle.zt_shared_value.specs.Account.{AccountsForAll, IsComplete, IsCounted, IsFoundIn};
ghost use Rattle.zt_shared_value.specs.Handed.{AreAllHanded, IsLeft};
ghost use Rattle.zt_shared_value.specs.Passes.{pass_counted, part_of};
ghost use Rattle.zt_shared_value.specs.Seats.{IsTable};

use crate::part::View;
use crate::pass::Pass;
use crate::plays::Together;
use crate::recorder::Recorder;
use crate::rule::Passing;
use crate::shared::SharedRecorder;
use crate::steps::{Place, Top, count};
use atomic_table::Table;
use std::alloc::Global;
use std::snapshot::Snapshot;

/// Fewer passes were handed in than were made. All of it comes back.
#[derive(Drop)]
pub struct CloseError<J: Recorder> {
    /// How many numbers were drawn, as a pass found it in this call.
    pub made: u32,
    /// How many passes were handed in.
    pub handed: u32,
    /// The value, shared as before.
    pub shared: SharedRecorder<J>,
    /// The passes, in their order.
    pub passes: Vec<Pass<J>>,
}

// How many numbers were drawn.
fn counted<J: Recorder>(top: &Top<J>, pass: &mut Pass<J>) -> u32
    requires table { IsTable top.now.table_id }
    requires own { pass.old.table ≡ top.now.table_id }
    ensures counted { pass.new ≡ pass_counted result pass.old }
    ensures more { pass.old.known ≤ result }
{
    let count = count(top, &mut pass.seat) as u32;
    pass.known = count;
    count
}

// How many numbers were drawn, where a pass finds more of them than there are passes.
pub(crate) fn missing<J: Recorder>(top: &Top<J>, passes: &mut Vec<Pass<J>>) -> Option<u32>
    requires table { IsTable top.now.table_id }
    requires own { AllByRecursion (λ pass. pass.table ≡ top.now.table_id) passes.old.items }
    ensures counted { AllZip IsCounted passes.old.items passes.new.items }
    ensures missing { MatchOption result
        (AllByRecursion (λ pass. pass.known ≤ length passes.new.items) passes.new.items)
        (λ made. (length passes.new.items < made)
        × Contains (map (λ pass. pass.known) passes.new.items) made) }
    ensures found { IfSome result (λ made.
        IsFoundIn (length passes.old.items) made passes.old.items passes.new.items) }
{
    let handed = passes.len();
    for i in 0..handed {
        let pass = &mut passes[i];
        let made = counted(top, pass);
        if made as usize > handed {
            return Some(made);
        }
    }
    None
}

// One seat, which knows what all passes know.
pub(crate) fn joined<J: Recorder>(top: &Top<J>, passes: Vec<Pass<J>>) -> Place<J>
    requires table { IsTable top.now.table_id }
    requires some { 0 < length passes.items }
    requires own { AllByRecursion (λ pass. pass.table ≡ top.now.table_id) passes.items }
    ensures table { result.table_id ≡ top.now.table_id }
    ensures parts { result.me ≡ (map part_of passes.items, []) }
{
    let mut rest = passes;
    let mut seat = rest.pop().unwrap().into_seat();
    while let Some(pass) = rest.pop() {
        top.join_seat::<Together>(&mut seat, pass.into_seat());
    }
    seat
}

// The value of a table that nobody shares any more.
pub(crate) fn taken_out<J: Recorder>(
    table: Table<J, View<J>, Snapshot<J>, Passing<J>, Global>,
    seat: Place<J>,
) -> J
    requires table { IsTable table.shared.table_id × (seat.table_id ≡ table.shared.table_id) }
    requires all { AreAllHanded seat.me }
    ensures { IsLeft J.journal J.author J.state result seat.me.0 }
{
    let mut closed = table.close_with(seat);
    let value = closed.take(0);
    closed.free();
    value
}

impl<J: Recorder> SharedRecorder<J> {
    /// Ends the sharing: gives the value back where all passes that were ever made are handed in.
    /// It takes no memory.
    pub fn close(self, passes: Vec<Pass<J>>) -> Result<J, CloseError<J>>
        requires some { 0 < length passes.items }
        requires own { AllByRecursion (λ pass. pass.table ≡ self) passes.items }
        ensures ok { IfOk result (λ value.
            AccountsForAll J.journal J.author J.state value passes.items) }
        ensures whole { IfOk result (λ _. IsComplete passes.items) }
        ensures shared { IfErr result (λ error. error.shared ≡ self) }
        ensures passes { IfErr result (λ error. AllZip IsCounted passes.items error.passes.items) }
        ensures own { IfErr result (λ error.
            AllByRecursion (λ pass. pass.table ≡ self) error.passes.items) }
        ensures handed { IfErr result (λ error. error.handed ≡ length passes.items) }
        ensures fewer { IfErr result (λ error. error.handed < error.made) }
        ensures made { IfErr result (λ error.
            Contains (map (λ pass. pass.known) error.passes.items) error.made) }
        ensures found { IfErr result (λ error.
            IsFoundIn error.handed error.made passes.items error.passes.items) }
    {
        let mut passes = passes;
        match missing(&self.table.shared, &mut passes) {
            Some(made) => {
                let handed = passes.len() as u32;
                Err(CloseError {
                    made,
                    handed,
                    shared: self,
                    passes,
                })
            }
            None => {
                let SharedRecorder { table, turn: _ } = self;
                let seat = joined(&table.shared, passes);
                Ok(taken_out(table, seat))
            }
        }
    }
}
