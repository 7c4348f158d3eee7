// A whole run with many workers, from the bytes of a script to those of its transcript.
ghost use Rattle.std.specs.Prelude.{◌≡◌, ◌+◌, ◌<◌, ◌≤◌, ◌^◌, length, map, vec_len, string_bytes};
ghost use Rattle.std.specs.Prelude.{IfErr, IfOk, IsOkUnless};
ghost use Rattle.zt_fabric.specs.Transcripts.{CountsFaults, streams};
ghost use Rattle.zt_workers.specs.Answers.{Answers, AnswersFit, GivesDriven, Transcribes, answered};
ghost use Rattle.zt_workers.specs.Answers.{totals_of, transcript_text};
ghost use Rattle.zt_plans.specs.Reading.{ReadingStops};

use crate::answering::Answer;
use crate::carrying::carry_out;
use crate::printing::print_all;
use std::alloc::Global;
use std::sync::Wait;
use std::thread::Threads;
use zt_dealing::Gate;
use zt_keys::Key;
use zt_plans::read_plan;
use zt_protocol::{Report, RunError};
use zt_streams::{SCRIPT_BYTES, Script, ScriptError, Sink, Source, read_script, write_all};

/// The most workers that carry out a script.
pub const MOST_WORKERS: u32 = 16;

// The text of the transcript of these answers, and its totals. The only error is `Alloc`.
fn printed<K: Key>(alloc: Global, answers: &[Answer<K>]) -> Result<(String, Report), RunError>
    requires { length answers.now < 2 ^ 63 }
    ensures text { IfOk result (λ made. string_bytes made.0
        ≡ transcript_text K.printed (map answered answers.now)) }
    ensures totals { IfOk result (λ made. made.1 ≡ totals_of (map answered answers.now)) }
    ensures fit { IfOk result (λ _. AnswersFit (map answered answers.now)) }
    ensures err { IfErr result (λ error. error ≡ RunError.Alloc) }
{
    match print_all(alloc, answers) {
        Ok(made) => Ok(made),
        Err(_) => Err(RunError::Alloc),
    }
}

// The text of the transcript of what was read, and its totals.
fn transcript<R: Threads + Wait + Sync, K: Key + Send + Sync, G: Gate + Sync>(
    rt: &R,
    alloc: Global,
    script: &Script,
    workers: u32,
    gate: &G,
) -> Result<(String, Report), RunError>
    requires some { 0 < workers }
    requires bound { vec_len script.now.bytes ≤ SCRIPT_BYTES }
    ensures ok { IfOk result (λ made. Transcribes K.cmp K.matching K.reading K.printed workers
        script.now.bytes.items script.now.longer (string_bytes made.0) made.1) }
    ensures err { IfErr result (ReadingStops K.reading script.now.bytes.items script.now.longer) }
{
    let plan = match read_plan::<K>(alloc, script) {
        Ok(plan) => plan,
        Err(error) => return Err(error),
    };
    let Some(plan) = plan else {
        let none = Vec::new(alloc);
        return printed::<K>(alloc, none.as_slice());
    };
    match carry_out(rt, alloc, plan, workers, gate) {
        Ok(answers) => printed(alloc, answers.as_slice()),
        Err(_) => Err(RunError::Alloc),
    }
}

/// Reads a script of one gateway whole, lets as many workers as asked for, from 1 to 16, carry it
/// out, and writes its transcript. The script is empty, or its first line makes a gateway; then
/// come lines that open faces, and then lines that speak for a face or close one.
///
/// The lines that open faces are carried out first. Each further line goes to the worker whose
/// number is that of its face, modulo the number of workers; a worker carries out its lines in
/// order, and passes the gate before and after each. The transcript is that of the lines in the
/// order in which they were carried out, so of those of one face in the order of the script; each
/// entry has the number of its line in the script. Where the gateway is refused no worker is
/// started, and the lines stand in the order of the script.
///
/// `BadLine` comes for the first line that is none of the grammar or has no place where it stands,
/// and `TooLong` for a script of more than 2^20 bytes, all of whose whole lines within these are
/// good. After these, after `ReadFault` and after `Alloc` nothing was written, and after
/// `WriteFault` a part of the transcript. It waits for the workers: its promises are those of a
/// call that returns.
pub fn drive<R: Threads + Wait + Sync, K: Key + Send + Sync, S: Source, T: Sink, G: Gate + Sync>(
    rt: &R,
    alloc: Global,
    source: &mut S,
    sink: &mut T,
    workers: u32,
    gate: &G,
) -> Result<Report, RunError>
    requires some { 0 < workers }
    requires few { workers ≤ MOST_WORKERS }
    ensures answers { Answers K.cmp K.matching K.reading K.printed workers
        (streams (S.left source.old) (S.faults source.old) (T.written sink.old) (T.faults sink.old))
        (streams (S.left source.new) (S.faults source.new) (T.written sink.new)
        (T.faults sink.new)) result }
    ensures complete { GivesDriven K.reading
        (streams (S.left source.old) (S.faults source.old) (T.written sink.old) (T.faults sink.old))
        (streams (S.left source.new) (S.faults source.new) (T.written sink.new)
        (T.faults sink.new)) → IsOkUnless result RunError.Alloc }
    ensures faults { CountsFaults
        (streams (S.left source.old) (S.faults source.old) (T.written sink.old) (T.faults sink.old))
        (streams (S.left source.new) (S.faults source.new) (T.written sink.new)
        (T.faults sink.new)) result }
    ensures reads { S.reads source.new ≤ S.reads source.old + (SCRIPT_BYTES + 1) }
{
    let script = match read_script(alloc, source) {
        Ok(script) => script,
        Err(ScriptError::Fault) => return Err(RunError::ReadFault),
        Err(ScriptError::Memory) => return Err(RunError::Alloc),
    };
    let (text, report) = match transcript::<R, K, G>(rt, alloc, &script, workers, gate) {
        Ok(printed) => printed,
        Err(error) => return Err(error),
    };
    match write_all(sink, text.as_bytes()) {
        Ok(()) => Ok(report),
        Err(_) => Err(RunError::WriteFault),
    }
}
