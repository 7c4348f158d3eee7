//! What the program does with its words.
ghost use Rattle.std.specs.Prelude.{◌≡◌, ◌⊎◌, ℕ, ◌+◌, ◌≤◌, true, false, map, string_bytes, Result};
ghost use Rattle.std.specs.Prelude.{Some, None};
ghost use Rattle.zt_protocol.specs.declared.entries.Report.{Report};
ghost use Rattle.zt_protocol.specs.declared.errors.RunError.{RunError};
ghost use Rattle.zt_fabric.specs.Transcripts.{Answers, CountsFaults, GivesComplete, ask_to_run};
ghost use Rattle.zt_fabric.specs.Transcripts.{status_of, streams};
ghost use Rattle.zt_fabric.specs.Making.{WritesReport, made_lines, number_to_make};

use crate::carrying::Progress;
use crate::making::{make, number_to_make};
use crate::running::carry_script;
use std::alloc::Global;
use std::mem;
use zt_keys::{Key, KeyExpr};
use zt_protocol::{Report, RunError};
use zt_streams::{Sink, Source};

// The status of a program whose words ask for nothing that it does.
const UNKNOWN_WORDS: u8 = 64;

/// All that the program does: with no word, or the one word `run`, it carries out the script that
/// the source gives. The result is its status: 0 where the whole transcript was written, 1 to 5 for
/// a bad line, a script that is too long, a fault of the source, a fault of the sink and running
/// out of memory. With the words `make N`, where `N` is a decimal number from 1 to 2,000, it
/// carries out a script of its own, in which so many sessions come and go behind a router, reads
/// nothing, and writes the last line of the transcript alone. With other words the status is 64,
/// and nothing is read or written.
///
/// What gateways keep at the end isn't given back: the program ends, and it goes with it.
pub fn tool<S: Source, T: Sink>(alloc: Global, words: &[String], source: &mut S, sink: &mut T) -> u8
    ensures runs { ask_to_run (map string_bytes words.now) ≡ true
        → (answer : Result Report RunError) × (result ≡ status_of answer)
        × Answers ⟦<KeyExpr as Ord>⟧.cmp ⟦<KeyExpr as Key>⟧.matching ⟦<KeyExpr as Key>⟧.reading
        ⟦<KeyExpr as Key>⟧.printed
        (streams (S.left source.old) (S.faults source.old) (T.written sink.old) (T.faults sink.old))
        (streams (S.left source.new) (S.faults source.new) (T.written sink.new)
        (T.faults sink.new)) answer
        × CountsFaults
        (streams (S.left source.old) (S.faults source.old) (T.written sink.old) (T.faults sink.old))
        (streams (S.left source.new) (S.faults source.new) (T.written sink.new)
        (T.faults sink.new)) answer }
    ensures complete { ask_to_run (map string_bytes words.now) ≡ true
        → GivesComplete ⟦<KeyExpr as Key>⟧.reading
        (streams (S.left source.old) (S.faults source.old) (T.written sink.old) (T.faults sink.old))
        (streams (S.left source.new) (S.faults source.new) (T.written sink.new)
        (T.faults sink.new)) → (result ≡ 0) ⊎ (result ≡ 5) }
    ensures reads { S.reads source.new ≤ S.reads source.old + 1048577 }
    ensures makes { (number : ℕ) → number_to_make (map string_bytes words.now) ≡ Some number
        → (answer : Result Report RunError) × (result ≡ status_of answer)
        × WritesReport ⟦<KeyExpr as Ord>⟧.cmp ⟦<KeyExpr as Key>⟧.matching ⟦<KeyExpr as Key>⟧.reading
        (made_lines number)
        (T.written sink.old) (T.written sink.new) (T.faults sink.old) (T.faults sink.new) answer }
    ensures unknown { ask_to_run (map string_bytes words.now) ≡ false
        → number_to_make (map string_bytes words.now) ≡ None → result ≡ 64 }
    ensures unread { ask_to_run (map string_bytes words.now) ≡ false → source.new ≡ source.old }
    ensures unwritten { ask_to_run (map string_bytes words.now) ≡ false
        → number_to_make (map string_bytes words.now) ≡ None → sink.new ≡ sink.old }
{
    if asks_to_run(words) {
        let mut run = Progress::<KeyExpr>::new(alloc);
        let answer = carry_script(alloc, &mut run, source, sink);
        // The program ends: what gateways keep goes with it, and isn't given back piece by piece.
        mem::forget(run);
        return status(&answer);
    }
    match number_to_make(words) {
        Some(number) => {
            let answer = make(alloc, number, sink);
            status(&answer)
        }
        None => UNKNOWN_WORDS,
    }
}

// Whether there is no word, or the one word `run`.
fn asks_to_run(words: &[String]) -> bool
    ensures { result ≡ ask_to_run (map string_bytes words.now) }
{
    match words {
        [] => true,
        [word] => word.as_str() == "run",
        _ => false,
    }
}

fn status(answer: &Result<Report, RunError>) -> u8
    ensures { result ≡ status_of answer.now }
{
    match answer {
        Ok(_) => 0,
        Err(RunError::BadLine(_)) => 1,
        Err(RunError::TooLong) => 2,
        Err(RunError::ReadFault) => 3,
        Err(RunError::WriteFault) => 4,
        Err(RunError::Alloc) => 5,
    }
}
