// The lines of a journal's entries.
ghost use Rattle.std.specs.Prelude.{◌≡◌, ◌+◌, ◌<◌, ◌++◌, [], ◌∷◌, length, map, take, get_or, set};
ghost use Rattle.std.specs.Prelude.{IfOk, IfSome};
ghost use Rattle.zt_shared.specs.Recorded.{journalled};
ghost use Rattle.zt_dealing.specs.Dealing.{HaveLines, NextLine};

use std::alloc::Global;
use zt_keys::{Key, Memory};
use zt_shared::JournalEntry;

// The next line of a worker, where there is one.
fn next_line(queues: &[Vec<u64>], taken: &mut Vec<usize>, worker: usize) -> Option<u64>
    requires { length taken.old.items ≡ length queues.now }
    ensures { IfSome result (NextLine (map
        (λ queue. queue.items) queues.now) taken.old.items taken.new.items worker) }
{
    let queue = queues.get(worker)?;
    let line = *queue.get(taken[worker])?;
    taken[worker] += 1;
    Some(line)
}

/// The lines of the entries, where each worker's lines stand in a queue in the order in which it
/// made their calls. An error comes where memory lacks, or where a queue has fewer lines than its
/// worker has entries.
pub fn lines_in_order<K: Key>(
    alloc: Global,
    entries: &[JournalEntry<K>],
    queues: &[Vec<u64>],
) -> Result<Vec<u64>, Memory>
    ensures { IfOk result (λ lines. HaveLines (map (λ queue. queue.items) queues.now)
        (map journalled entries.now) lines.items) }
{
    let mut taken = vec![in alloc; 0; queues.len()]?;
    let mut lines = Vec::new(alloc);
    for entry in entries {
        let Some(line) = next_line(queues, &mut taken, entry.pass as usize) else {
            return Err(Memory);
        };
        lines.push(line)?;
    }
    Ok(lines)
}
