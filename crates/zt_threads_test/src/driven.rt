//! Scripts that workers carry out.
use std::alloc::Global;
use std::sync::Wait;
use std::sync::atomic::{AtomicBool, Ordering};
use std::test::Fail;
use std::thread;
use std::thread::Threads;
use zt_keys::KeyExpr;
use zt_streams::{MemorySink, MemorySource};
use zt_workers::{Gate, MOST_WORKERS, drive};

// How often a worker that is held up looks whether it may go on.
const MOST_TURNS: u32 = 100_000_000;

const TWO_DECLARE: &str = "gateway client 1\nsession 1\nsession 1\ndeclare 1 1 a\ndeclare 2 1 b\n";

const SECOND_FIRST: &str = "1 ok\n2 ok\n3 ok\n5 ok\n4 ok\ntotal 5 0 0\n";

// Holds the worker of line 4 up until line 5 has been carried out. It gives up after so many turns,
// and lines are carried out in the order of the script then.
#[derive(Drop)]
struct FifthFirst {
    fifth_is_done: AtomicBool,
}

impl Gate for FifthFirst {
    fn before(&self, line: u64) {
        if line != 4 {
            return;
        }
        for _ in 0..MOST_TURNS {
            if self.fifth_is_done.load(Ordering::SeqCst) {
                return;
            }
            thread::yield_now();
        }
    }

    fn after(&self, line: u64) {
        if line == 5 {
            self.fifth_is_done.store(true, Ordering::SeqCst);
        }
    }
}

// What as many workers print of the script.
fn driven<R: Threads + Wait + Sync, G: Gate + Sync>(
    rt: &R,
    alloc: Global,
    script: &str,
    workers: u32,
    gate: &G,
) -> Result<String, Fail> {
    if workers == 0 || workers > MOST_WORKERS {
        return Err("workers".into());
    }
    let bytes = script.as_bytes().to_vec(alloc)?;
    let mut source = MemorySource::new(bytes, 4096, Vec::new(alloc));
    let mut sink = MemorySink::new(alloc, 4096, Vec::new(alloc))?;
    drive::<R, KeyExpr, MemorySource, MemorySink, G>(
        rt,
        alloc,
        &mut source,
        &mut sink,
        workers,
        gate,
    )?;
    let text = str::from_utf8(sink.written()).ok().ok_or("text")?;
    Ok(String::from_str(alloc, text)?)
}

#[test]
fn workers_work_at_the_same_time(rt: HostRuntime) -> Result<(), Fail> {
    let gate = FifthFirst {
        fifth_is_done: AtomicBool::new(false),
    };
    let text = driven(&rt, rt.alloc(), TWO_DECLARE, 2, &gate)?;
    assert!(rt; text.as_str() == SECOND_FIRST);
    Ok(())
}
