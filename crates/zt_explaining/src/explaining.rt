//! Claimed transcripts explained, from the bytes of an input to sentences.
ghost use Rattle.std.specs.Prelude.{◌≡◌, ◌+◌, ◌≤◌, IfErr, IfOk, Err, string_bytes, true};
ghost use Rattle.zt_keys.specs.Key.{OneSpelling};
ghost use Rattle.zt_streams.specs.Streams.{HasRisen};
ghost use Rattle.zt_check.specs.Judging.{JudgesInput};
ghost use Rattle.zt_explaining.specs.Explaining.{AnswersExplaining, AreLed, BeginWith};
ghost use Rattle.zt_explaining.specs.Explaining.{TellsBreaks, told_of, verdict_of};

use crate::claims::breaks_of;
use std::alloc::Global;
use zt_breaks::{Break, Finding, print_breaks};
use zt_check::{CheckError, Clause, Verdict, judge};
use zt_check_trace::{INPUT_BYTES, InputError, cut, read_input, read_lines};
use zt_keys::{Key, Memory};
use zt_streams::{Sink, Source, write_all};

/// What a claimed transcript breaks.
#[derive(Drop)]
pub struct Explanation<K: Key> {
    /// What the judge says of it.
    pub verdict: Verdict,
    /// The breaks, in order of line; the first is the one that the verdict names.
    pub breaks: Vec<Break<K>>,
}

// The breaks of an input that is known to be judged.
fn breaks_in<K: Key>(alloc: Global, input: &[u8]) -> Result<Vec<Break<K>>, Memory>
    requires spelling { OneSpelling K.reading K.printed }
{
    let Some((script, claimed)) = cut(input) else {
        return Ok(Vec::new(alloc));
    };
    match read_lines::<K>(alloc, script) {
        Ok(lines) => breaks_of(alloc, &lines, claimed),
        Err(_) => Err(Memory),
    }
}

// Whether the first of these breaks is of this line and clause.
fn begin_with<K: Key>(breaks: &[Break<K>], line: u64, clause: Clause) -> bool
    ensures { result ≡ true → BeginWith line clause breaks.now }
{
    match breaks.first() {
        None => false,
        Some(first) => first.line == line && first.clause == clause,
    }
}

// Breaks of which the first is of this line and clause: where it isn't, that is put before them.
fn led_by<K: Key>(breaks: Vec<Break<K>>, line: u64, clause: Clause) -> Result<Vec<Break<K>>, Memory>
    ensures { IfOk result (λ led. BeginWith line clause led.items) }
{
    let mut breaks = breaks;
    if begin_with(breaks.as_slice(), line, clause) {
        return Ok(breaks);
    }
    breaks.insert(
        0,
        Break {
            line,
            clause,
            finding: Finding::Unnamed(clause),
        },
    )?;
    Ok(breaks)
}

// The breaks of an input of which the judge says this.
fn breaks_for<K: Key>(
    alloc: Global,
    input: &[u8],
    verdict: &Verdict,
) -> Result<Vec<Break<K>>, Memory>
    requires spelling { OneSpelling K.reading K.printed }
    ensures { IfOk result (λ breaks. AreLed verdict.now breaks.items) }
{
    match verdict {
        Verdict::Holds(_) => Ok(Vec::new(alloc)),
        Verdict::Breaks { line, clause } => led_by(breaks_in(alloc, input)?, *line, *clause),
    }
}

/// Explains an input: a script, a line `---`, and the transcript that is claimed for the script.
/// After a break of `Text` or `Cause` nothing can be followed; after the others the transcript is
/// read on, as it is printed. At most `MOST_BREAKS` are told, and what stays wrong is told once.
///
/// Errors come as they come from `judge`.
pub fn explain<K: Key>(alloc: Global, input: &[u8]) -> Result<Explanation<K>, CheckError>
    requires spelling { OneSpelling K.reading K.printed }
    ensures judged { JudgesInput K.cmp K.matching K.reading K.printed input.now
        (verdict_of result) }
    ensures led { IfOk result (λ told. AreLed told.verdict told.breaks.items) }
{
    let verdict = match judge::<K>(alloc, input) {
        Ok(verdict) => verdict,
        Err(error) => return Err(error),
    };
    match breaks_for(alloc, input, &verdict) {
        Ok(breaks) => Ok(Explanation { verdict, breaks }),
        Err(_) => Err(CheckError::Alloc),
    }
}

// The verdict on an input, and the sentences on what it breaks.
fn explained<K: Key>(alloc: Global, input: &[u8]) -> Result<(Verdict, String), CheckError>
    requires spelling { OneSpelling K.reading K.printed }
    ensures judged { JudgesInput K.cmp K.matching K.reading K.printed input.now (told_of result) }
    ensures told { IfOk result (λ told. TellsBreaks K.printed told.0 (string_bytes told.1)) }
{
    let explanation = match explain::<K>(alloc, input) {
        Ok(explanation) => explanation,
        Err(error) => return Err(error),
    };
    let Ok(text) = print_breaks(alloc, &explanation.breaks) else {
        return Err(CheckError::Alloc);
    };
    Ok((explanation.verdict, text))
}

/// Reads a script, a line `---` and the transcript that is claimed for the script, up to the end of
/// the input, and writes a line for each break, and one of how many they are. The source is read at
/// most 16,777,217 times.
///
/// After `Ok` the sink has received exactly that text, after `WriteFault` a part of it, and after
/// every other error nothing. `ReadFault` and `WriteFault` come exactly where that stream's count
/// of faults changes, which then rises. The other errors come as they come from `check`.
pub fn explain_input<K: Key, S: Source, T: Sink>(
    alloc: Global,
    source: &mut S,
    sink: &mut T,
) -> Result<Verdict, CheckError>
    requires spelling { OneSpelling K.reading K.printed }
    ensures answers { AnswersExplaining K.cmp K.matching K.reading K.printed
        (S.left source.old) (S.left source.new)
        (T.written sink.old) (T.written sink.new) result }
    ensures unwritten { IfErr result
        (λ error. (error ≡ CheckError.WriteFault → ⊥) → sink.new ≡ sink.old) }
    ensures read_fault { result ≡ Err CheckError.ReadFault
        → HasRisen (S.faults source.old) (S.faults source.new) }
    ensures write_fault { result ≡ Err CheckError.WriteFault
        → HasRisen (T.faults sink.old) (T.faults sink.new) }
    ensures source_calm { (result ≡ Err CheckError.ReadFault → ⊥)
        → S.faults source.new ≡ S.faults source.old }
    ensures sink_calm { (result ≡ Err CheckError.WriteFault → ⊥)
        → T.faults sink.new ≡ T.faults sink.old }
    ensures source_counts { S.faults source.old ≤ S.faults source.new }
    ensures sink_counts { T.faults sink.old ≤ T.faults sink.new }
    ensures reads { S.reads source.new ≤ S.reads source.old + (INPUT_BYTES + 1) }
{
    let input = match read_input(alloc, source) {
        Ok(input) => input,
        Err(InputError::Fault) => return Err(CheckError::ReadFault),
        Err(InputError::Memory) => return Err(CheckError::Alloc),
    };
    if input.longer {
        return Err(CheckError::TooLong);
    }
    let (verdict, text) = match explained::<K>(alloc, &input.bytes) {
        Ok(told) => told,
        Err(error) => return Err(error),
    };
    if write_all(sink, text.as_bytes()).is_err() {
        return Err(CheckError::WriteFault);
    }
    Ok(verdict)
}
