// A shared gateway's end, with and without a monitor's polls.
ghost use Rattle.std.specs.Prelude.{◌≡◌, ℕ, ◌+◌, List, Option, [], map, IfOk};
ghost use Rattle.std.specs.List.{AllByRecursion};
ghost use Rattle.zt_protocol.specs.Plain.{PlainCall};
ghost use Rattle.zt_shared_value.specs.Passes.{Standing};
ghost use Rattle.zt_shared.specs.Recorded.{Recorded, journalled};
ghost use Rattle.zt_watchers.specs.Text.{plain_poll};
ghost use Rattle.zt_dealing.specs.Dealing.{HasMade, MayWork};
ghost use Rattle.zt_watchers.specs.Watching.{CouldPoll, IsWatching, RefusesWatch};
ghost use Rattle.zt_watchers.specs.Beside.{AreDealt, IsMadeBeside};

use crate::ending::{ended, zeros};
use crate::monitoring::{Watching, poll_once};
use crate::polling::work_beside;
use crate::polls::Poll;
use std::alloc::Global;
use std::sync::Wait;
use std::thread::Threads;
use zt_dealing::{Done, Gate, Job, journal_with_lines, work_all};
use zt_keys::{Key, Memory};
use zt_shared::{Journal, Pass, SharedGateway};

/// A journal with the lines of its entries, where a monitor's have the number 0, and the monitor's
/// polls.
#[derive(Drop)]
pub struct Watched<K> {
    pub journal: Journal<K>,
    pub lines: Vec<u64>,
    pub polls: Vec<Poll<K>>,
}

/// Lets the workers work and the monitor poll beside them and once more, and ends the sharing.
pub fn end_watched<R: Threads + Wait + Sync, K: Key + Send + Sync, G: Gate + Sync>(
    rt: &R,
    alloc: Global,
    shared: SharedGateway<K>,
    gate: &G,
    jobs: Vec<Job<K>>,
    watching: Watching<K>,
) -> Result<Watched<K>, Memory>
    requires jobs { AllByRecursion (MayWork shared) jobs.items }
    requires monitor { CouldPoll shared watching }
    requires fresh { watching.polls.items ≡ [] }
    ensures { IfOk result (λ watched. (opening : Recorded K) (workers : ℕ)
        (calls : List (ℕ × PlainCall K)) (expr : Option K)
        → AreDealt shared opening workers calls jobs.items
        → IsWatching K.cmp K.matching workers expr watching → watching.pass.opening ≡ opening
        → IsMadeBeside K.cmp K.matching workers calls (watching.wanted + 1) expr
        opening.opening.rows (map journalled watched.journal.entries.items) watched.lines.items
        (map plain_poll watched.polls.items)) }
{
    let (all, watching) = work_beside(rt, alloc, &shared, gate, jobs, watching)?;
    let mut watching = watching;
    poll_once(rt, alloc, &shared, &mut watching)?;
    let (own, polls) = ended(alloc, watching)?;
    let mut all = all;
    all.push(own)?;
    let (journal, lines) = journal_with_lines(alloc, shared, all)?;
    Ok(Watched {
        journal,
        lines,
        polls,
    })
}

/// Lets the workers work, where the session of the monitor, whose pass this is, was refused, and
/// ends the sharing.
pub fn end_unwatched<R: Threads + Wait + Sync, K: Key + Send + Sync, G: Gate + Sync>(
    rt: &R,
    alloc: Global,
    shared: SharedGateway<K>,
    gate: &G,
    jobs: Vec<Job<K>>,
    pass: Pass<K>,
) -> Result<Watched<K>, Memory>
    requires jobs { AllByRecursion (MayWork shared) jobs.items }
    requires own { pass.table ≡ shared }
    ensures { IfOk result (λ watched. (opening : Recorded K) (workers : ℕ)
        (calls : List (ℕ × PlainCall K)) (count : ℕ) (expr : Option K)
        (before : Standing (Recorded K))
        → AreDealt shared opening workers calls jobs.items
        → HasMade shared opening workers [] before → RefusesWatch before pass
        → IsMadeBeside K.cmp K.matching workers calls count expr
        opening.opening.rows (map journalled watched.journal.entries.items) watched.lines.items
        (map plain_poll watched.polls.items)) }
{
    let polls: Vec<Poll<K>> = Vec::new(alloc);
    let own = Done {
        pass,
        lines: zeros(alloc, polls.as_slice())?,
    };
    let all = work_all(rt, alloc, &shared, gate, jobs)?;
    let mut all = all;
    all.push(own)?;
    let (journal, lines) = journal_with_lines(alloc, shared, all)?;
    Ok(Watched {
        journal,
        lines,
        polls,
    })
}
