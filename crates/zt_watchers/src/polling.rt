// The polls of a monitor beside workers.
ghost use Rattle.std.specs.Prelude.{IfOk};
ghost use Rattle.std.specs.List.{All, AllZip};
ghost use Rattle.zt_dealing.specs.Dealing.{Does, MayWork};
ghost use Rattle.zt_watchers.specs.Watching.{CouldPoll, GoesOn};

use crate::monitoring::{Watching, poll_once};
use std::alloc::Global;
use std::sync::Wait;
use std::thread;
use std::thread::Threads;
use zt_dealing::{Done, Gate, Job, Worker, work_all};
use zt_keys::{Key, Memory};
use zt_shared::SharedGateway;

// Makes the polls that are wanted. The gate is told of each as of a line 0.
fn poll_on<R: Wait, K: Key, G: Gate>(
    rt: &R,
    alloc: Global,
    shared: &SharedGateway<K>,
    gate: &G,
    watching: Watching<K>,
) -> Result<Watching<K>, Memory>
    requires { CouldPoll shared.now watching }
    ensures { IfOk result (GoesOn K.cmp K.matching watching.wanted watching) }
{
    let mut watching = watching;
    for _ in 0..watching.wanted {
        gate.before(0);
        poll_once(rt, alloc, shared, &mut watching)?;
        gate.after(0);
    }
    Ok(watching)
}

// What a monitor uses.
#[derive(Drop)]
struct Post<'a, R, K: Key, G> {
    rt: &'a R,
    alloc: Global,
    shared: &'a SharedGateway<K>,
    gate: &'a G,
}

impl<'a, R: Wait, K: Key, G: Gate> Worker<Watching<K>, Watching<K>> for Post<'a, R, K, G> {
    ghost use Rattle.zt_watchers.specs.Watching.{CouldPoll, GoesOn};

    ghost may_begin = { λ post. CouldPoll post.shared.now };

    ghost makes = { λ before. GoesOn K.cmp K.matching before.wanted before };

    fn make(&self, watching: Watching<K>) -> Result<Watching<K>, Memory> {
        poll_on(self.rt, self.alloc, self.shared, self.gate, watching)
    }
}

// Lets the workers work, and on a thread beside them the monitor.
fn both<
    R: Threads + Wait + Sync,
    K: Key + Send + Sync,
    G: Gate + Sync,
    W: Send + Drop,
    M: Worker<W, W> + Sync,
>(
    rt: &R,
    alloc: Global,
    shared: &SharedGateway<K>,
    gate: &G,
    jobs: Vec<Job<K>>,
    monitor: &M,
    watching: W,
) -> Result<(Vec<Done<K>>, W), Memory>
    requires jobs { All (MayWork shared.now) jobs.items }
    requires monitor { M.may_begin monitor.now watching }
    ensures done { IfOk result (λ both. AllZip Does jobs.items both.0.items) }
    ensures watched { IfOk result (λ both. M.makes watching both.1) }
{
    let (watched, all) = thread::join(
        rt,
        move || -> Result<W, Memory>
            requires { M.may_begin monitor.now watching }
            ensures { IfOk result (M.makes watching) }
        { monitor.make(watching) },
        move || -> Result<Vec<Done<K>>, Memory>
            requires { All (MayWork shared.now) jobs.items }
            ensures { IfOk result (λ all. AllZip Does jobs.items all.items) }
        { work_all(rt, alloc, shared, gate, jobs) },
    );
    Ok((all?, watched?))
}

/// Lets the workers work, each on a thread of its own, and on another the monitor, which makes the
/// polls that are wanted. The only error is want of memory.
pub fn work_beside<R: Threads + Wait + Sync, K: Key + Send + Sync, G: Gate + Sync>(
    rt: &R,
    alloc: Global,
    shared: &SharedGateway<K>,
    gate: &G,
    jobs: Vec<Job<K>>,
    watching: Watching<K>,
) -> Result<(Vec<Done<K>>, Watching<K>), Memory>
    requires jobs { All (MayWork shared.now) jobs.items }
    requires monitor { CouldPoll shared.now watching }
    ensures done { IfOk result (λ both. AllZip Does jobs.items both.0.items) }
    ensures watched { IfOk result (λ both.
        GoesOn K.cmp K.matching watching.wanted watching both.1) }
{
    let post = Post {
        rt,
        alloc,
        shared,
        gate,
    };
    both(rt, alloc, shared, gate, jobs, &post, watching)
}
