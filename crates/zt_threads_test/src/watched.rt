//! A script that workers carry out with a monitor beside them.
use std::alloc::Global;
use std::sync::Wait;
use std::sync::atomic::{AtomicBool, Ordering};
use std::test::Fail;
use std::thread;
use std::thread::Threads;
use zt_keys::KeyExpr;
use zt_streams::{MemorySink, MemorySource};
use zt_watch_tool::watch;
use zt_workers::Gate;

// How often a thread that is held up looks whether it may go on.
const MOST_TURNS: u32 = 100_000_000;

const TWO_DECLARE: &str = "gateway client 1\nsession 1\nsession 1\ndeclare 1 1 a\ndeclare 2 1 b\n";

// The second line is carried out before the first, and the poll between them. The last poll comes
// when all workers have ended.
const POLLED_BETWEEN: &str = "1 ok\n2 ok\n3 ok\n0 ok\n5 ok\n0 ok\n> 1 3 answer 1 0 0 b\n\
    > 1 3 final 1\n4 ok\n0 ok\n> 1 3 answer 2 0 0 a\n> 1 3 answer 2 0 0 b\n> 1 3 final 2\n\
    total 8 5 0\npoll 2\n+ b\npoll 4\n+ a\n";

// Holds the poll up until line 5 has been carried out, and line 4 until the poll has been made. It
// gives up after so many turns: the text is another one then.
#[derive(Drop)]
struct PollBetween {
    fifth_is_done: AtomicBool,
    poll_is_done: AtomicBool,
}

fn wait_for(flag: &AtomicBool) {
    for _ in 0..MOST_TURNS {
        if flag.load(Ordering::SeqCst) {
            return;
        }
        thread::yield_now();
    }
}

impl Gate for PollBetween {
    fn before(&self, line: u64) {
        match line {
            0 => wait_for(&self.fifth_is_done),
            4 => wait_for(&self.poll_is_done),
            _ => {}
        }
    }

    fn after(&self, line: u64) {
        match line {
            0 => self.poll_is_done.store(true, Ordering::SeqCst),
            5 => self.fifth_is_done.store(true, Ordering::SeqCst),
            _ => {}
        }
    }
}

// What two workers and a monitor that polls once beside them print of the script.
fn watched<R: Threads + Wait + Sync, G: Gate + Sync>(
    rt: &R,
    alloc: Global,
    script: &str,
    gate: &G,
) -> Result<String, Fail> {
    let bytes = script.as_bytes().to_vec(alloc)?;
    let mut source = MemorySource::new(bytes, 4096, Vec::new(alloc));
    let mut sink = MemorySink::new(alloc, 4096, Vec::new(alloc))?;
    watch::<R, KeyExpr, MemorySource, MemorySink, G>(
        rt,
        alloc,
        &mut source,
        &mut sink,
        2,
        1,
        None,
        gate,
    )?;
    let text = str::from_utf8(sink.written()).ok().ok_or("text")?;
    Ok(String::from_str(alloc, text)?)
}

#[test]
fn a_poll_is_made_between_two_lines(rt: HostRuntime) -> Result<(), Fail> {
    let gate = PollBetween {
        fifth_is_done: AtomicBool::new(false),
        poll_is_done: AtomicBool::new(false),
    };
    let text = watched(&rt, rt.alloc(), TWO_DECLARE, &gate)?;
    assert!(rt; text.as_str() == POLLED_BETWEEN);
    Ok(())
}
