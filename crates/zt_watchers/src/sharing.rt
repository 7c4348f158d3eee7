// The calls of a script and a monitor's, made at the same time on a gateway that they share.
ghost use Rattle.std.specs.Prelude.{◌≡◌, ◌+◌, ◌<◌, [], length, map, IfOk};
ghost use Rattle.std.specs.List.{AllByRecursion};
ghost use Rattle.zt_model.specs.Transcript.{Each};
ghost use Rattle.zt_theorem_journal.specs.Alone.{Speaks};
ghost use Rattle.zt_shared.specs.Recorded.{journalled};
ghost use Rattle.zt_watchers.specs.Text.{plain_poll};
ghost use Rattle.zt_plans.specs.Plans.{call_of, numbered};
ghost use Rattle.zt_dealing.specs.Dealing.{HasMade};
ghost use Rattle.zt_watchers.specs.Beside.{IsDrawnBehind, IsMadeBeside};

use crate::monitoring::{Opened, open_monitor};
use crate::watching::{Watched, end_unwatched, end_watched};
use std::alloc::Global;
use std::sync::Wait;
use std::thread::Threads;
use zt_dealing::{Gate, Job, deal};
use zt_gateway::Gateway;
use zt_keys::{Key, Memory};
use zt_plans::Numbered;
use zt_shared::{Pass, SharedGateway};

// Draws a pass behind those of the workers.
fn pass_behind<K: Key>(
    shared: &SharedGateway<K>,
    jobs: Vec<Job<K>>,
) -> Result<(Vec<Job<K>>, Pass<K>), Memory>
    requires { AllByRecursion (λ job. job.pass.table ≡ shared.now) jobs.items }
    ensures { IfOk result
        (λ parts. IsDrawnBehind shared.now jobs.items parts.0.items parts.1) }
{
    let mut jobs = jobs;
    let Some(mut last) = jobs.pop() else {
        return Err(Memory);
    };
    let Ok(own) = shared.pass(&mut last.pass) else {
        return Err(Memory);
    };
    jobs.push(last)?;
    Ok((jobs, own))
}

// Lets workers and a monitor make their calls on a shared gateway, of which this is the first pass.
fn beside<R: Threads + Wait + Sync, K: Key + Send + Sync, G: Gate + Sync>(
    rt: &R,
    alloc: Global,
    shared: SharedGateway<K>,
    first: Pass<K>,
    calls: Vec<Numbered<K>>,
    workers: u32,
    wanted: u32,
    expr: Option<K>,
    gate: &G,
) -> Result<Watched<K>, Memory>
    requires some { 0 < workers }
    requires fresh { HasMade shared first.opening 0 [] first }
    requires begins { first.opening.entries ≡ [] }
    requires speak { Each Speaks (map call_of calls.items) }
    ensures { IfOk result (λ watched. IsMadeBeside K.cmp K.matching workers
        (map numbered calls.items) (wanted + 1) expr first.opening.opening.rows
        (map journalled watched.journal.entries.items) watched.lines.items
        (map plain_poll watched.polls.items)) }
{
    let jobs = deal(alloc, &shared, first, workers, calls)?;
    let (jobs, own) = pass_behind(&shared, jobs)?;
    match open_monitor(rt, alloc, &shared, own, wanted, expr)? {
        Opened::Watching(watching) => end_watched(rt, alloc, shared, gate, jobs, watching),
        Opened::Refused(pass) => end_unwatched(rt, alloc, shared, gate, jobs, pass),
    }
}

/// Lets workers make the calls, and beside them a monitor of the tokens that match the expression,
/// or without one of all, so many polls and then one more. The monitor's session comes first. The
/// gate is told of the polls that are made beside the workers, each as of a line 0. The only error
/// is want of memory.
pub fn journal_beside<R: Threads + Wait + Sync, K: Key + Send + Sync, G: Gate + Sync>(
    rt: &R,
    alloc: Global,
    gateway: Gateway<K>,
    calls: Vec<Numbered<K>>,
    workers: u32,
    wanted: u32,
    expr: Option<K>,
    gate: &G,
) -> Result<Watched<K>, Memory>
    requires some { 0 < workers }
    requires quiet { gateway.waiting ≡ [] }
    requires speak { Each Speaks (map call_of calls.items) }
    ensures { IfOk result (λ watched. IsMadeBeside K.cmp K.matching workers
        (map numbered calls.items) (wanted + 1) expr gateway.rows
        (map journalled watched.journal.entries.items) watched.lines.items
        (map plain_poll watched.polls.items)) }
{
    let (shared, first) = SharedGateway::new(alloc, gateway)?;
    beside(rt, alloc, shared, first, calls, workers, wanted, expr, gate)
}
