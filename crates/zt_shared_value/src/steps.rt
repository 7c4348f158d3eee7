// What is done with a seat at the table. `p` is the seat's part as the call begins.
ghost use Rattle.std.specs.Prelude.{◌≡◌, ℕ, ◌+◌, ◌<◌, ◌≤◌, ◌^◌, [], ◌∷◌, ◌++◌, true, false, length};
ghost use Rattle.std.specs.Prelude.{IfOk, IfErr};
ghost use Rattle.zt_shared_value.specs.Plays.{alone, holding, part_locked, part_entered, part_released};
ghost use Rattle.zt_shared_value.specs.Plays.{part_looked, part_counted, Continues};
ghost use Rattle.zt_shared_value.specs.Drawing.{Draws};
ghost use Rattle.zt_shared_value.specs.Copies.{Copies};
ghost use Rattle.zt_shared_value.specs.Turns.{Entered, WasIn, HasRead};
ghost use Rattle.zt_shared_value.specs.Seats.{IsSeatOf, IsFree, HasValue, IsAhead, MayRelease};
ghost use Rattle.zt_shared_value.specs.Seats.{IsSameSeat};

use crate::part::{Part, View};
use crate::plays::{Count, Draw, Halves, Look, Publish, Release, Take};
use crate::recorder::Recorder;
use crate::rule::Passing;
use atomic_table::{Seat, Shared};
use crossbeam_utils::Backoff;
use std::alloc::{AllocError, Global};
use std::snapshot::Snapshot;
use std::sync::Wait;

pub(crate) type Top<J> = Shared<J, View<J>, Snapshot<J>, Passing<J>>;

pub(crate) type Place<J> = Seat<J, View<J>>;

// Waits for the lock, and has the value then.
fn lock<J: Recorder, R: Wait>(rt: &R, top: &Top<J>, seat: &mut Place<J>)
    requires table { IsSeatOf top.now.table_id seat.old }
    requires free { IsFree seat.old.me }
    ensures seat { IsSameSeat seat.old seat.new }
    ensures taken { (p : Part J) → seat.old.me ≡ alone p
        → (x : J) × (seat.new.me ≡ holding (part_locked x p) x)
        × Continues J.journal J.author J.state x p }
{
    let backoff = Backoff::new();
    for _ in rt.forever() {
        if top.compare_exchange::<Take>(seat, 2, 0, 1) == 0 {
            return;
        }
        backoff.snooze();
    }
    unreachable!()
}

// Enters the call into the value that the seat has.
fn enter<J: Recorder>(
    top: &Top<J>,
    seat: &mut Place<J>,
    number: u32,
    call: J::Call,
) -> Result<J::Receipt, AllocError>
    requires table { IsSeatOf top.now.table_id seat.old }
    requires value { HasValue seat.old.me }
    requires valid { J.is_valid call }
    ensures seat { IsSameSeat seat.old seat.new }
    ensures ok { IfOk result (λ receipt. (p : Part J) (x : J) → seat.old.me ≡ holding p x
        → (y : J) × (seat.new.me ≡ holding p y) × (J.state y ≡ J.state x) × ((entry : J.Entered)
        × (J.journal y ≡ J.journal x ++ entry ∷ []) × (J.author entry ≡ number)
        × J.is_entry_of call entry × J.tells (length (J.journal x)) entry receipt
        × J.is_replay (J.state y) (J.journal y) × (length (J.journal y) < 2 ^ 64))) }
    ensures err { IfErr result (λ _. (p : Part J) (x : J) → seat.old.me ≡ holding p x
        → (y : J) × (seat.new.me ≡ holding p y) × (J.state y ≡ J.state x)
        × (J.journal y ≡ J.journal x) × J.is_replay (J.state y) (J.journal y)) }
{
    let value = seat.slot_mut(top, 0);
    value.enter(number, call)
}

// Publishes the entry that the seat's value has beyond what the pass knew. Returns its place.
fn publish<J: Recorder>(top: &Top<J>, seat: &mut Place<J>) -> u64
    requires table { IsSeatOf top.now.table_id seat.old }
    requires ahead { IsAhead J.journal J.author J.state seat.old.me }
    ensures seat { IsSameSeat seat.old seat.new }
    ensures told { (p : Part J) (x : J) → seat.old.me ≡ holding p x
        → (seat.new.me ≡ holding (part_entered (result + 1) x p) x)
        × (result ≡ length (J.journal p.found)) × (p.seen ≤ result) }
{
    top.fetch_add::<Publish>(seat, 0, 1)
}

// Gives back the lock and the value.
fn release<J: Recorder>(top: &Top<J>, seat: &mut Place<J>)
    requires table { IsSeatOf top.now.table_id seat.old }
    requires may { MayRelease J.journal J.state seat.old.me }
    ensures seat { IsSameSeat seat.old seat.new }
    ensures told { (p : Part J) (x : J) → seat.old.me ≡ holding p x
        → seat.new.me ≡ alone (part_released p) }
{
    top.swap::<Release>(seat, 2, 0);
}

// Reads the length of the journal.
pub(crate) fn look<J: Recorder>(top: &Top<J>, seat: &mut Place<J>) -> u64
    requires table { IsSeatOf top.now.table_id seat.old }
    requires one { (p : Part J) × (seat.old.me.0 ≡ p ∷ []) }
    ensures seat { IsSameSeat seat.old seat.new }
    ensures told { (p : Part J) → seat.old.me.0 ≡ p ∷ []
        → (seat.new.me ≡ (part_looked result p ∷ [], seat.old.me.1)) × (p.seen ≤ result)
        × (p.locked ≡ true → result ≡ length (J.journal p.found)) }
{
    top.load::<Look>(seat, 0)
}

// Reads how many numbers were drawn.
pub(crate) fn count<J: Recorder>(top: &Top<J>, seat: &mut Place<J>) -> u64
    requires table { IsSeatOf top.now.table_id seat.old }
    requires one { (p : Part J) × (seat.old.me ≡ alone p) }
    ensures seat { IsSameSeat seat.old seat.new }
    ensures told { (p : Part J) → seat.old.me ≡ alone p
        → (seat.new.me ≡ alone (part_counted result p)) × (p.known ≤ result)
        × (result ≤ 4294967295) }
{
    top.load::<Count>(seat, 1)
}

// Enters a call under the lock. Returns the entry's place, and the receipt.
pub(crate) fn call<J: Recorder, R: Wait>(
    rt: &R,
    top: &Top<J>,
    seat: &mut Place<J>,
    number: u32,
    call: J::Call,
) -> Result<(u64, J::Receipt), AllocError>
    requires table { IsSeatOf top.now.table_id seat.old }
    requires free { (p : Part J) × (seat.old.me ≡ alone p) × (p.locked ≡ false)
        × (p.number ≡ number) }
    requires valid { J.is_valid call }
    ensures seat { IsSameSeat seat.old seat.new }
    ensures ok { IfOk result (λ made. (p : Part J) → seat.old.me ≡ alone p
        → (entry : J.Entered)
        × (turn : Entered J.journal J.author J.state p seat.new.me made.0 entry)
        × (J.author entry ≡ number) × J.is_entry_of call entry × J.tells made.0 entry made.1
        × J.is_replay (J.state turn.left) (J.journal turn.left)) }
    ensures err { IfErr result (λ _. (p : Part J) → seat.old.me ≡ alone p
        → (turn : WasIn J.journal J.author J.state p seat.new.me)
        × J.is_replay (J.state turn.taken) (J.journal turn.taken)) }
{
    lock(rt, top, seat);
    match enter(top, seat, number, call) {
        Ok(receipt) => {
            let place = publish(top, seat);
            release(top, seat);
            Ok((place, receipt))
        }
        Err(error) => {
            release(top, seat);
            Err(error)
        }
    }
}

// A copy of an entry of the value that the seat has.
fn copy<J: Recorder>(
    top: &Top<J>,
    seat: &mut Place<J>,
    alloc: Global,
    place: u64,
) -> Result<Option<J::Entry>, AllocError>
    requires table { IsSeatOf top.now.table_id seat.old }
    requires value { HasValue seat.old.me }
    ensures seat { IsSameSeat seat.old seat.new }
    ensures same { seat.new.me ≡ seat.old.me }
    ensures copied { (p : Part J) (x : J) → seat.old.me ≡ holding p x
        → IfOk result (λ found. Copies J.journal J.shows x place found) }
    ensures replay { (p : Part J) (x : J) → seat.old.me ≡ holding p x
        → J.is_replay (J.state x) (J.journal x) }
{
    let value = seat.slot_mut(top, 0);
    value.entry(alloc, place)
}

// Reads the length of the journal and an entry of it, under the lock.
pub(crate) fn read<J: Recorder, R: Wait>(
    rt: &R,
    top: &Top<J>,
    seat: &mut Place<J>,
    alloc: Global,
    place: u64,
) -> (u64, Result<Option<J::Entry>, AllocError>)
    requires table { IsSeatOf top.now.table_id seat.old }
    requires free { IsFree seat.old.me }
    ensures seat { IsSameSeat seat.old seat.new }
    ensures told { (p : Part J) → seat.old.me ≡ alone p
        → (turn : HasRead J.journal J.author J.state p seat.new.me result.0)
        × IfOk result.1 (λ found. Copies J.journal J.shows turn.taken place found)
        × J.is_replay (J.state turn.taken) (J.journal turn.taken) }
{
    lock(rt, top, seat);
    let length = look(top, seat);
    let entry = copy(top, seat, alloc, place);
    release(top, seat);
    (length, entry)
}

// What came of an attempt to draw a number.
pub(crate) enum Drawn<J> {
    // The seat of the pass that has the number.
    Made(Place<J>),
    // Another count was found.
    Found(u32),
}

// Draws the number that the seat knows to be next, and cuts off a seat that has it.
pub(crate) fn draw<J: Recorder>(top: &Top<J>, seat: &mut Place<J>, number: u32) -> Drawn<J>
    requires table { IsSeatOf top.now.table_id seat.old }
    requires next { (p : Part J) × (seat.old.me ≡ alone p) × (p.known ≡ number) }
    requires room { number < 4294967295 }
    ensures seat { IsSameSeat seat.old seat.new }
    ensures told { (p : Part J) → seat.old.me ≡ alone p
        → Draws seat.old.table_id number p seat.new.me result }
{
    let found = top.compare_exchange::<Draw>(seat, 1, number as u64, number as u64 + 1);
    if found == number as u64 {
        Drawn::Made(top.split_seat::<Halves>(seat))
    } else {
        Drawn::Found(found as u32)
    }
}
