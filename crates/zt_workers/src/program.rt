// What the program does with its words.
ghost use Rattle.std.specs.Prelude.{◌≡◌, ◌⊎◌, ℕ, ◌+◌, ◌<◌, ◌≤◌, map, string_bytes, Result, Some};
ghost use Rattle.std.specs.Prelude.{None, IfSome};
ghost use Rattle.zt_fabric.specs.Transcripts.{CountsFaults, status_of, streams};
ghost use Rattle.zt_protocol.specs.declared.entries.Report.{Report};
ghost use Rattle.zt_protocol.specs.declared.errors.RunError.{RunError};
ghost use Rattle.zt_workers.specs.Answers.{Answers, GivesDriven};
ghost use Rattle.zt_workers.specs.Words.{workers_asked};

use crate::driving::{MOST_WORKERS, drive};
use std::alloc::Global;
use std::sync::Wait;
use std::thread::Threads;
use zt_dealing::NoGate;
use zt_fields::Spelled;
use zt_keys::{Key, KeyExpr};
use zt_protocol::{Report, RunError};
use zt_streams::{Sink, Source};

// The status of a program whose words ask for nothing that it does.
const UNKNOWN_WORDS: u8 = 64;

/// All that the program does: with one word, a decimal number from 1 to 16, that many workers carry
/// out the script that the source gives. The result is its status: 0 where the whole transcript was
/// written, 1 to 5 for a bad line, a script that is too long, a fault of the source, a fault of the
/// sink and want of memory. With other words the status is 64, and nothing is read or written.
pub fn drive_tool<R: Threads + Wait + Sync, S: Source, T: Sink>(
    rt: &R,
    alloc: Global,
    words: &[String],
    source: &mut S,
    sink: &mut T,
) -> u8
    ensures drives { (workers : ℕ) → workers_asked (map string_bytes words.now)
        ≡ Some workers → (answer : Result Report RunError) × (result ≡ status_of answer)
        × Answers ⟦<KeyExpr as Ord>⟧.cmp ⟦<KeyExpr as Key>⟧.matching ⟦<KeyExpr as Key>⟧.reading
        ⟦<KeyExpr as Key>⟧.printed workers
        (streams (S.left source.old) (S.faults source.old) (T.written sink.old) (T.faults sink.old))
        (streams (S.left source.new) (S.faults source.new) (T.written sink.new)
        (T.faults sink.new)) answer
        × CountsFaults (streams (S.left source.old) (S.faults source.old) (T.written sink.old)
        (T.faults sink.old))
        (streams (S.left source.new) (S.faults source.new) (T.written sink.new)
        (T.faults sink.new)) answer }
    ensures complete { (workers : ℕ) → workers_asked (map string_bytes words.now)
        ≡ Some workers → GivesDriven ⟦<KeyExpr as Key>⟧.reading
        (streams (S.left source.old) (S.faults source.old) (T.written sink.old) (T.faults sink.old))
        (streams (S.left source.new) (S.faults source.new) (T.written sink.new)
        (T.faults sink.new)) → (result ≡ 0) ⊎ (result ≡ 5) }
    ensures reads { S.reads source.new ≤ S.reads source.old + 1048577 }
    ensures unknown { workers_asked (map string_bytes words.now) ≡ None → result ≡ 64 }
    ensures unread { workers_asked (map string_bytes words.now) ≡ None → source.new ≡ source.old }
    ensures unwritten { workers_asked (map string_bytes words.now) ≡ None → sink.new ≡ sink.old }
{
    match workers_asked(words) {
        Some(workers) => {
            let answer = drive::<R, KeyExpr, S, T, NoGate>(
                rt, alloc, source, sink, workers, &NoGate,
            );
            status(&answer)
        }
        None => UNKNOWN_WORDS,
    }
}

// The number of workers that the words ask for: one decimal number from 1 to 16.
#[tactic(auto, unfolding(crate::specs::Words::workers_asked))]
fn workers_asked(words: &[String]) -> Option<u32>
    ensures value { result ≡ workers_asked (map string_bytes words.now) }
    ensures some { IfSome result (λ workers. 0 < workers) }
    ensures few { IfSome result (λ workers. workers ≤ MOST_WORKERS) }
{
    match words {
        [word] => {
            let number = u32::read(word.as_str())?;
            if number < 1 || MOST_WORKERS < number {
                return None;
            }
            Some(number)
        }
        _ => None,
    }
}

/// The status of a program that answers this: 0, or 1 to 5 by the error.
pub fn status(answer: &Result<Report, RunError>) -> u8
    ensures { result ≡ status_of answer.now }
{
    match answer {
        Ok(_) => 0,
        Err(RunError::BadLine(_)) => 1,
        Err(RunError::TooLong) => 2,
        Err(RunError::ReadFault) => 3,
        Err(RunError::WriteFault) => 4,
        Err(RunError::Alloc) => 5,
    }
}
