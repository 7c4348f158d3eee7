// What the program does with its words.
ghost use Rattle.std.specs.Prelude.{◌≡◌, ◌⊎◌, ◌+◌, ◌≤◌, true, map, string_bytes, Result, Some, None};
ghost use Rattle.zt_keys.specs.declared.expr.KeyExpr.{KeyExpr};
ghost use Rattle.zt_fabric.specs.Transcripts.{CountsFaults, status_of, streams};
ghost use Rattle.zt_protocol.specs.declared.entries.Report.{Report};
ghost use Rattle.zt_protocol.specs.declared.errors.RunError.{RunError};
ghost use Rattle.zt_workers.specs.Answers.{GivesDriven};
ghost use Rattle.zt_watch_tool.specs.Watching.{Answers};
ghost use Rattle.zt_watch_tool.specs.Words.{may_spell_key, watch_asked};
ghost use Rattle.zt_watch_tool.specs.declared.words.Asked.{Asked};

use crate::watching::watch;
use crate::words::watch_asked;
use std::alloc::Global;
use std::sync::Wait;
use std::thread::Threads;
use zt_dealing::NoGate;
use zt_keys::{Key, KeyExpr};
use zt_streams::{Sink, Source};
use zt_workers::status;

// The status of a program that ran out of memory, and of words that ask for nothing that it does.
const NO_MEMORY: u8 = 5;

const UNKNOWN_WORDS: u8 = 64;

/// All that the program does: with a decimal number from 1 to 16, one up to 1000 and at most one
/// key, so many workers carry out the script that the source gives, and a monitor polls so often
/// beside them and once more. The result is its status: 0 where the whole text was written, 1 to 5
/// for a bad line, a script that is too long, a fault of the source, a fault of the sink and want
/// of memory. With other words the status is 64, or 5 where memory ran out while a key was read, and
/// nothing is read or written.
pub fn watch_tool<R: Threads + Wait + Sync, S: Source, T: Sink>(
    rt: &R,
    alloc: Global,
    words: &[String],
    source: &mut S,
    sink: &mut T,
) -> u8
    ensures watches { (asked : Asked KeyExpr) → watch_asked ⟦<KeyExpr as Key>⟧.reading
        (map string_bytes words.now) ≡ Some asked
        → (answer : Result Report RunError) × (result ≡ status_of answer)
        × Answers ⟦<KeyExpr as Ord>⟧.cmp ⟦<KeyExpr as Key>⟧.matching ⟦<KeyExpr as Key>⟧.reading
        ⟦<KeyExpr as Key>⟧.printed asked.workers (asked.wanted + 1) asked.expr
        (streams (S.left source.old) (S.faults source.old) (T.written sink.old) (T.faults sink.old))
        (streams (S.left source.new) (S.faults source.new) (T.written sink.new)
        (T.faults sink.new)) answer
        × CountsFaults (streams (S.left source.old) (S.faults source.old) (T.written sink.old)
        (T.faults sink.old))
        (streams (S.left source.new) (S.faults source.new) (T.written sink.new)
        (T.faults sink.new)) answer }
    ensures complete { (asked : Asked KeyExpr) → watch_asked ⟦<KeyExpr as Key>⟧.reading
        (map string_bytes words.now) ≡ Some asked → GivesDriven ⟦<KeyExpr as Key>⟧.reading
        (streams (S.left source.old) (S.faults source.old) (T.written sink.old) (T.faults sink.old))
        (streams (S.left source.new) (S.faults source.new) (T.written sink.new)
        (T.faults sink.new)) → (result ≡ 0) ⊎ (result ≡ 5) }
    ensures reads { S.reads source.new ≤ S.reads source.old + 1048577 }
    ensures unknown { watch_asked ⟦<KeyExpr as Key>⟧.reading (map string_bytes words.now) ≡ None
        → (result ≡ 64) ⊎ ((result ≡ 5) × (may_spell_key (map string_bytes words.now) ≡ true)) }
    ensures unread { watch_asked ⟦<KeyExpr as Key>⟧.reading (map string_bytes words.now) ≡ None
        → source.new ≡ source.old }
    ensures unwritten { watch_asked ⟦<KeyExpr as Key>⟧.reading (map string_bytes words.now) ≡ None
        → sink.new ≡ sink.old }
{
    match watch_asked::<KeyExpr>(alloc, words) {
        Ok(Some(asked)) => {
            let answer = watch::<R, KeyExpr, S, T, NoGate>(
                rt,
                alloc,
                source,
                sink,
                asked.workers,
                asked.wanted,
                asked.expr,
                &NoGate,
            );
            status(&answer)
        }
        Ok(None) => UNKNOWN_WORDS,
        Err(_) => NO_MEMORY,
    }
}
