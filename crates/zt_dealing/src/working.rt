// Jobs that workers do, each on a thread of its own.
ghost use Rattle.std.specs.Prelude.{◌≡◌, IfOk, Ok, map};
ghost use Rattle.std.specs.List.{All, AllZip};
ghost use Rattle.zt_dealing.specs.Dealing.{Does, MayWork};

use crate::dealing::Job;
use crate::gate::Gate;
use std::alloc::Global;
use std::sync::Wait;
use std::thread;
use std::thread::Threads;
use zt_keys::{Key, Memory};
use zt_shared::{Pass, SharedGateway};

/// What a worker has done: its pass, and the numbers of its lines.
#[derive(Drop)]
pub struct Done<K: Key> {
    pub pass: Pass<K>,
    pub lines: Vec<u64>,
}

// Makes the calls of one worker.
fn work<R: Wait, K: Key, G: Gate>(
    rt: &R,
    alloc: Global,
    shared: &SharedGateway<K>,
    gate: &G,
    job: Job<K>,
) -> Result<Done<K>, Memory>
    requires { MayWork shared.now job }
    ensures { IfOk result (Does job) }
{
    let Job { mut pass, calls } = job;
    let mut lines = Vec::new(alloc);
    for one in calls {
        gate.before(one.line);
        shared.call(rt, &mut pass, one.call)?;
        gate.after(one.line);
        lines.push(one.line)?;
    }
    Ok(Done { pass, lines })
}

/// What does jobs, each on a thread of its own.
pub trait Worker<J, D> {
    ghost use Rattle.std.specs.Prelude.{IfOk};

    /// A worker may begin with the job.
    ghost may_begin: { Self → J → Type 0 };

    /// This is what a job is when it is done.
    ghost makes: { J → D → Type 0 };

    /// Does a job. The only error is want of memory.
    fn make(&self, job: J) -> Result<D, Memory>
        requires { may_begin self.now job }
        ensures { IfOk result (makes job) };
}

// What all workers use.
#[derive(Drop)]
struct Place<'a, R, K: Key, G> {
    rt: &'a R,
    alloc: Global,
    shared: &'a SharedGateway<K>,
    gate: &'a G,
}

impl<'a, R: Wait, K: Key, G: Gate> Worker<Job<K>, Done<K>> for Place<'a, R, K, G> {
    ghost use Rattle.zt_dealing.specs.Dealing.{Does, MayWork};

    ghost may_begin = { λ place. MayWork place.shared.now };

    ghost makes = { Does };

    fn make(&self, job: Job<K>) -> Result<Done<K>, Memory> {
        work(self.rt, self.alloc, self.shared, self.gate, job)
    }
}

// All that was done, where nobody lacked memory.
fn collected<D: Drop>(alloc: Global, results: Vec<Result<D, Memory>>) -> Result<Vec<D>, Memory>
    ensures { IfOk result (λ all. results.items ≡ map (λ done. Ok done) all.items) }
{
    let mut all = Vec::new(alloc);
    for result in results {
        all.push(result?)?;
    }
    Ok(all)
}

// Does each job on a thread of its own, and waits for all. The closure takes one reference, so that
// its proof stays small whatever the work is.
fn each_done<R: Threads + Sync, J: Send + Drop, D: Send + Drop, W: Worker<J, D> + Sync>(
    rt: &R,
    alloc: Global,
    work: &W,
    jobs: Vec<J>,
) -> Result<Vec<D>, Memory>
    requires { All (W.may_begin work.now) jobs.items }
    ensures { IfOk result (λ all. AllZip W.makes jobs.items all.items) }
{
    let results = thread::map_vec(
        rt,
        jobs,
        &|job: J| -> Result<D, Memory>
            requires { W.may_begin work.now job }
            ensures { IfOk result (W.makes job) }
        { work.make(job) },
    )?;
    collected(alloc, results)
}

/// Lets the workers work, each on a thread of its own, and waits for all. The only error is want of
/// memory.
pub fn work_all<R: Threads + Wait + Sync, K: Key + Send + Sync, G: Gate + Sync>(
    rt: &R,
    alloc: Global,
    shared: &SharedGateway<K>,
    gate: &G,
    jobs: Vec<Job<K>>,
) -> Result<Vec<Done<K>>, Memory>
    requires { All (MayWork shared.now) jobs.items }
    ensures { IfOk result (λ all. AllZip Does jobs.items all.items) }
{
    let place = Place {
        rt,
        alloc,
        shared,
        gate,
    };
    each_done(rt, alloc, &place, jobs)
}
