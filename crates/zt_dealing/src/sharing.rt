// The calls of a script, made by workers on a gateway that they share.
ghost use Rattle.std.specs.Prelude.{◌≡◌, ℕ, ◌<◌, List, [], length, map, IfOk};
ghost use Rattle.std.specs.List.{AllByRecursion};
ghost use Rattle.zt_model.specs.Transcript.{Each};
ghost use Rattle.zt_theorem_journal.specs.Alone.{Speaks};
ghost use Rattle.zt_laws.specs.Sound.{EachFrom};
ghost use Rattle.zt_protocol.specs.Plain.{PlainCall};
ghost use Rattle.zt_shared.specs.Recorded.{Recorded, journalled};
ghost use Rattle.zt_shared.specs.Sharing.{IsWholeJournal};
ghost use Rattle.zt_dealing.specs.Dealing.{HasDone, IsMadeByPasses, IsMadeByWorkers};
ghost use Rattle.zt_plans.specs.Plans.{call_of, numbered};

use crate::dealing::deal;
use crate::gate::Gate;
use crate::ordering::lines_in_order;
use crate::working::{Done, work_all};
use std::alloc::Global;
use std::sync::Wait;
use std::thread::Threads;
use zt_gateway::Gateway;
use zt_keys::{Key, Memory};
use zt_plans::Numbered;
use zt_shared::{Journal, Pass, SharedGateway};

// The passes and the queues of lines of all workers.
fn parted<K: Key>(alloc: Global, all: Vec<Done<K>>) -> Result<(Vec<Pass<K>>, Vec<Vec<u64>>), Memory>
    ensures passes { IfOk result (λ parts. parts.0.items ≡ map (λ done. done.pass) all.items) }
    ensures queues { IfOk result (λ parts. map (λ queue. queue.items) parts.1.items
        ≡ map (λ done. done.lines.items) all.items) }
{
    let mut passes = Vec::new(alloc);
    let mut queues = Vec::new(alloc);
    for done in all {
        passes.push(done.pass)?;
        queues.push(done.lines)?;
    }
    Ok((passes, queues))
}

/// Ends the sharing, where each pass that was ever made is of one worker, and gives the journal
/// with the lines of its entries. An error comes where memory lacks, and where a pass lacks or has
/// made more calls than it has lines.
pub fn journal_with_lines<K: Key>(
    alloc: Global,
    shared: SharedGateway<K>,
    all: Vec<Done<K>>,
) -> Result<(Journal<K>, Vec<u64>), Memory>
    requires some { 0 < length all.items }
    requires own { AllByRecursion (λ done. done.pass.table ≡ shared) all.items }
    ensures whole { IfOk result (λ made. IsWholeJournal K.cmp K.matching
        (map journalled made.0.entries.items) (map (λ done. done.pass) all.items)) }
    ensures made { IfOk result (λ made. (opening : Recorded K) (dealt : ℕ → List (ℕ × PlainCall K))
        → EachFrom (HasDone shared opening dealt) 0 all.items
        → IsMadeByPasses K.cmp K.matching (length all.items) dealt opening.opening.rows
        (map journalled made.0.entries.items) made.1.items) }
{
    let (passes, queues) = parted(alloc, all)?;
    let Ok(journal) = shared.close(passes) else {
        return Err(Memory);
    };
    let lines = lines_in_order(alloc, journal.entries.as_slice(), queues.as_slice())?;
    Ok((journal, lines))
}

/// Lets workers make the calls, and gives the journal with the lines of its entries.
pub fn journal_of<R: Threads + Wait + Sync, K: Key + Send + Sync, G: Gate + Sync>(
    rt: &R,
    alloc: Global,
    gateway: Gateway<K>,
    calls: Vec<Numbered<K>>,
    workers: u32,
    gate: &G,
) -> Result<(Journal<K>, Vec<u64>), Memory>
    requires some { 0 < workers }
    requires quiet { gateway.waiting ≡ [] }
    requires speak { Each Speaks (map call_of calls.items) }
    ensures { IfOk result (λ made. IsMadeByWorkers K.cmp K.matching workers
        (map numbered calls.items) gateway.rows
        (map journalled made.0.entries.items) made.1.items) }
{
    let (shared, first) = SharedGateway::new(alloc, gateway)?;
    let jobs = deal(alloc, &shared, first, workers, calls)?;
    let all = work_all(rt, alloc, &shared, gate, jobs)?;
    journal_with_lines(alloc, shared, all)
}
