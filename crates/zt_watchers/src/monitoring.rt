// A monitor with the pass by which it asks, and its polls.
ghost use Rattle.std.specs.Prelude.{◌≡◌, ◌≤◌, Ok, IfOk, OnOk};
ghost use Rattle.zt_watchers.specs.Text.{plain_poll};
ghost use Rattle.zt_watchers.specs.Watching.{CouldPoll, GoesOn, OpensWatch, PollsOnce};

use crate::polls::{Found, Poll};
use std::alloc::Global;
use std::sync::Wait;
use zt_keys::{Key, Memory};
use zt_presence::{Change, Monitor, PresenceError};
use zt_shared::{Pass, SharedGateway};

/// A monitor, its pass, how many polls it makes beside the workers, and its polls so far.
#[derive(Drop)]
pub struct Watching<K: Key> {
    pub monitor: Monitor<K>,
    pub pass: Pass<K>,
    pub wanted: u32,
    pub polls: Vec<Poll<K>>,
}

/// What comes of a monitor's session: it watches, or it was refused.
#[derive(Drop)]
pub enum Opened<K: Key> {
    Watching(Watching<K>),
    Refused(Pass<K>),
}

/// Opens a monitor by a pass of its own.
pub fn open_monitor<R: Wait, K: Key>(
    rt: &R,
    alloc: Global,
    shared: &SharedGateway<K>,
    pass: Pass<K>,
    wanted: u32,
    expr: Option<K>,
) -> Result<Opened<K>, Memory>
    requires { pass.table ≡ shared.now }
    ensures { IfOk result (OpensWatch K.cmp K.matching wanted expr pass) }
{
    let mut pass = pass;
    match Monitor::open(rt, alloc, shared, &mut pass, expr) {
        Ok(monitor) => Ok(Opened::Watching(Watching {
            monitor,
            pass,
            wanted,
            polls: Vec::new(alloc),
        })),
        Err(PresenceError::Refused { .. }) => Ok(Opened::Refused(pass)),
        Err(_) => Err(Memory),
    }
}

// A poll that found this, as it is printed.
fn found<K>(change: Change<K>) -> Poll<K>
    ensures place { result.place ≡ change.place }
    ensures keys { (plain_poll result).outcome ≡ Ok (change.joined.items, change.left.items) }
{
    let Change {
        place,
        joined,
        left,
    } = change;
    Poll {
        place,
        outcome: Ok(Found { joined, left }),
    }
}

// Polls once.
fn poll<R: Wait, K: Key>(
    rt: &R,
    alloc: Global,
    shared: &SharedGateway<K>,
    monitor: &mut Monitor<K>,
    pass: &mut Pass<K>,
) -> Result<Poll<K>, Memory>
    requires own { pass.old.table ≡ shared.now }
    requires seen { monitor.old.next_place ≤ pass.old.seen }
    ensures { IfOk result (PollsOnce K.cmp K.matching monitor.old monitor.new pass.old pass.new) }
{
    match monitor.poll(rt, alloc, shared, pass) {
        Ok(change) => Ok(found(change)),
        Err(PresenceError::Refused { place, refusal }) => Ok(Poll {
            place,
            outcome: Err(refusal),
        }),
        Err(_) => Err(Memory),
    }
}

/// Polls once more.
pub fn poll_once<R: Wait, K: Key>(
    rt: &R,
    alloc: Global,
    shared: &SharedGateway<K>,
    watching: &mut Watching<K>,
) -> Result<(), Memory>
    requires { CouldPoll shared.now watching.old }
    ensures { OnOk result (GoesOn K.cmp K.matching 1 watching.old watching.new) }
{
    let poll = poll(rt, alloc, shared, &mut watching.monitor, &mut watching.pass)?;
    watching.polls.push(poll)?;
    Ok(())
}
