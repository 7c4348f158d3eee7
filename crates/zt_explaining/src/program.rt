//! What the program does with its words.
ghost use Rattle.std.specs.Prelude.{◌≡◌, ◌≢◌, ◌+◌, ◌≤◌, [], Result, Err};
ghost use Rattle.zt_streams.specs.Streams.{HasRisen};
ghost use Rattle.zt_check.specs.Checking.{status_of};
ghost use Rattle.zt_check.specs.declared.verdict.CheckError.{CheckError};
ghost use Rattle.zt_check.specs.declared.verdict.Verdict.{Verdict};
ghost use Rattle.zt_explaining.specs.Explaining.{AnswersExplaining};

use crate::explaining::explain_input;
use std::alloc::Global;
use zt_check::{CheckError, Verdict};
use zt_keys::{Key, KeyExpr, key_expressions_have_one_spelling};
use zt_streams::{Sink, Source};

// The status of a program whose words ask for nothing that it does.
const UNKNOWN_WORDS: u8 = 64;

/// All that the program does: with no word it explains the input that the source gives, with key
/// expressions for keys. The result is its status, as that of `zt_check::check_tool`: 0 where
/// nothing is broken, 1 where something is, and 2 to 7 for a malformed script, an input that is too
/// long or has no line `---`, a fault of the source, a fault of the sink and running out of memory.
/// With any word the status is 64, and nothing is read or written.
pub fn explain_tool<S: Source, T: Sink>(
    alloc: Global,
    words: &[String],
    source: &mut S,
    sink: &mut T,
) -> u8
    ensures explains { words.now ≡ [] → (answer : Result Verdict CheckError)
        × (result ≡ status_of answer)
        × AnswersExplaining ⟦<KeyExpr as Ord>⟧.cmp ⟦<KeyExpr as Key>⟧.matching
        ⟦<KeyExpr as Key>⟧.reading ⟦<KeyExpr as Key>⟧.printed
        (S.left source.old) (S.left source.new) (T.written sink.old) (T.written sink.new) answer }
    ensures read_fault { result ≡ 5 → HasRisen (S.faults source.old) (S.faults source.new) }
    ensures write_fault { result ≡ 6 → HasRisen (T.faults sink.old) (T.faults sink.new) }
    ensures reads { S.reads source.new ≤ S.reads source.old + 16777217 }
    ensures unknown { words.now ≢ [] → result ≡ 64 }
    ensures unread { words.now ≢ [] → source.new ≡ source.old }
    ensures unwritten { words.now ≢ [] → sink.new ≡ sink.old }
{
    if !words.is_empty() {
        return UNKNOWN_WORDS;
    }
    key_expressions_have_one_spelling();
    let answer = explain_input::<KeyExpr, S, T>(alloc, source, sink);
    status(&answer)
}

fn status(answer: &Result<Verdict, CheckError>) -> u8
    ensures { result ≡ status_of answer.now }
{
    match answer {
        Ok(Verdict::Holds(_)) => 0,
        Ok(Verdict::Breaks { .. }) => 1,
        Err(CheckError::BadScript(_)) => 2,
        Err(CheckError::TooLong) => 3,
        Err(CheckError::NoTrace) => 4,
        Err(CheckError::ReadFault) => 5,
        Err(CheckError::WriteFault) => 6,
        Err(CheckError::Alloc) => 7,
    }
}
