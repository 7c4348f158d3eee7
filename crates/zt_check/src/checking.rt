//! A whole check, from the bytes of an input to the line of its verdict.
ghost use Rattle.std.specs.Prelude.{◌≡◌, ◌+◌, ◌≤◌, IfErr, Err};
ghost use Rattle.zt_keys.specs.Key.{OneSpelling};
ghost use Rattle.zt_streams.specs.Streams.{HasRisen};
ghost use Rattle.zt_check.specs.Checking.{Answers};

use crate::judging::judge;
use crate::verdict::{CheckError, Verdict, print_verdict};
use std::alloc::Global;
use zt_check_trace::{INPUT_BYTES, InputError, read_input};
use zt_keys::Key;
use zt_streams::{Sink, Source, write_all};

/// Reads a script, a line `---` and the transcript that is claimed for the script, up to the end of
/// the input, and writes one line, the verdict. The source is read at most 16,777,217 times.
///
/// After `Ok` the sink has received exactly that line, after `WriteFault` a part of it, and after
/// every other error nothing. `ReadFault` and `WriteFault` come exactly where that stream's count
/// of faults changes, which then rises. `TooLong`, `NoTrace` and `BadScript` come exactly where
/// they say, unless a fault or an error comes first.
pub fn check<K: Key, S: Source, T: Sink>(
    alloc: Global,
    source: &mut S,
    sink: &mut T,
) -> Result<Verdict, CheckError>
    requires spelling { OneSpelling K.reading K.printed }
    ensures answers { Answers K.cmp K.matching K.reading K.printed
        (S.left source.old) (S.left source.new)
        (T.written sink.old) (T.written sink.new) result }
    ensures unwritten { IfErr result
        (λ error. (error ≡ CheckError.WriteFault → ⊥) → sink.new ≡ sink.old) }
    ensures read_fault { result ≡ Err CheckError.ReadFault
        → HasRisen (S.faults source.old) (S.faults source.new) }
    ensures write_fault { result ≡ Err CheckError.WriteFault
        → HasRisen (T.faults sink.old) (T.faults sink.new) }
    ensures source_calm { (result ≡ Err CheckError.ReadFault → ⊥)
        → S.faults source.new ≡ S.faults source.old }
    ensures sink_calm { (result ≡ Err CheckError.WriteFault → ⊥)
        → T.faults sink.new ≡ T.faults sink.old }
    ensures source_counts { S.faults source.old ≤ S.faults source.new }
    ensures sink_counts { T.faults sink.old ≤ T.faults sink.new }
    ensures reads { S.reads source.new ≤ S.reads source.old + (INPUT_BYTES + 1) }
{
    let input = match read_input(alloc, source) {
        Ok(input) => input,
        Err(InputError::Fault) => return Err(CheckError::ReadFault),
        Err(InputError::Memory) => return Err(CheckError::Alloc),
    };
    if input.longer {
        return Err(CheckError::TooLong);
    }
    let verdict = match judge::<K>(alloc, &input.bytes) {
        Ok(verdict) => verdict,
        Err(error) => return Err(error),
    };
    let Ok(text) = print_verdict(alloc, &verdict) else {
        return Err(CheckError::Alloc);
    };
    if write_all(sink, text.as_bytes()).is_err() {
        return Err(CheckError::WriteFault);
    }
    Ok(verdict)
}
