// A whole run with many workers and a monitor, from the bytes of a script to those of its
// transcript and of the monitor's polls.
ghost use Rattle.std.specs.Prelude.{◌≡◌, ◌+◌, ◌<◌, ◌≤◌, map, vec_len, string_bytes};
ghost use Rattle.std.specs.Prelude.{IfErr, IfOk, IsOkUnless};
ghost use Rattle.zt_fabric.specs.Transcripts.{CountsFaults, streams};
ghost use Rattle.zt_plans.specs.Reading.{ReadingStops};
ghost use Rattle.zt_workers.specs.Answers.{GivesDriven};
ghost use Rattle.zt_watch_tool.specs.Watching.{Answers, Transcribes};

use crate::carrying::carry_out;
use crate::printing::printed;
use std::alloc::Global;
use std::sync::Wait;
use std::thread::Threads;
use zt_dealing::Gate;
use zt_keys::Key;
use zt_plans::read_plan;
use zt_protocol::{Report, RunError};
use zt_streams::{SCRIPT_BYTES, Script, ScriptError, Sink, Source, read_script, write_all};
use zt_workers::MOST_WORKERS;

/// The most polls that a monitor makes beside workers.
pub const MOST_POLLS: u32 = 1000;

// The text of the transcript of what was read and of the polls, and its totals.
fn transcript<R: Threads + Wait + Sync, K: Key + Send + Sync, G: Gate + Sync>(
    rt: &R,
    alloc: Global,
    script: &Script,
    workers: u32,
    wanted: u32,
    expr: Option<K>,
    gate: &G,
) -> Result<(String, Report), RunError>
    requires some { 0 < workers }
    requires bound { vec_len script.now.bytes ≤ SCRIPT_BYTES }
    ensures ok { IfOk result (λ made. Transcribes K.cmp K.matching K.reading K.printed
        workers (wanted + 1) expr
        script.now.bytes.items script.now.longer (string_bytes made.0) made.1) }
    ensures err { IfErr result (ReadingStops K.reading script.now.bytes.items script.now.longer) }
{
    let plan = match read_plan::<K>(alloc, script) {
        Ok(plan) => plan,
        Err(error) => return Err(error),
    };
    let Some(plan) = plan else {
        let answers = Vec::new(alloc);
        let polls = Vec::new(alloc);
        return printed::<K>(alloc, answers.as_slice(), polls.as_slice());
    };
    match carry_out(rt, alloc, plan, workers, wanted, expr, gate) {
        Ok(carried) => printed(alloc, carried.answers.as_slice(), carried.polls.as_slice()),
        Err(_) => Err(RunError::Alloc),
    }
}

/// Does what `drive` does, with a monitor of the tokens that match the expression, or without one
/// of all, beside the workers. The monitor's session stands behind the lines that open faces. It
/// polls so many times while the workers work, each poll passing the gate as a line 0, and once
/// when they have ended.
///
/// The transcript has the monitor's entries under the number 0, and the totals count them. Behind
/// the totals stand the polls in their order: `poll PLACE`, where PLACE counts the entries behind
/// those of the lines that open faces, with `+ KEY` for each key that joined the monitor's table
/// and `- KEY` for each that left it; or `poll PLACE refused NAME`. Where no gateway was made, or
/// the monitor's session was refused, nothing is polled. Whatever a script does to the monitor's
/// face it does as to any other; polls are refused then.
///
/// `BadLine` comes for the first line that is none of the grammar or has no place where it stands,
/// and `TooLong` for a script of more than 2^20 bytes, all of whose whole lines within these are
/// good. After these, after `ReadFault` and after `Alloc` nothing was written, and after
/// `WriteFault` a part of the text. It waits for the workers and the monitor: its promises are
/// those of a call that returns.
pub fn watch<R: Threads + Wait + Sync, K: Key + Send + Sync, S: Source, T: Sink, G: Gate + Sync>(
    rt: &R,
    alloc: Global,
    source: &mut S,
    sink: &mut T,
    workers: u32,
    wanted: u32,
    expr: Option<K>,
    gate: &G,
) -> Result<Report, RunError>
    requires some { 0 < workers }
    requires few { workers ≤ MOST_WORKERS }
    requires polls { wanted ≤ MOST_POLLS }
    ensures answers { Answers K.cmp K.matching K.reading K.printed workers (wanted + 1) expr
        (streams (S.left source.old) (S.faults source.old) (T.written sink.old) (T.faults sink.old))
        (streams (S.left source.new) (S.faults source.new) (T.written sink.new)
        (T.faults sink.new)) result }
    ensures complete { GivesDriven K.reading
        (streams (S.left source.old) (S.faults source.old) (T.written sink.old) (T.faults sink.old))
        (streams (S.left source.new) (S.faults source.new) (T.written sink.new)
        (T.faults sink.new)) → IsOkUnless result RunError.Alloc }
    ensures faults { CountsFaults
        (streams (S.left source.old) (S.faults source.old) (T.written sink.old) (T.faults sink.old))
        (streams (S.left source.new) (S.faults source.new) (T.written sink.new)
        (T.faults sink.new)) result }
    ensures reads { S.reads source.new ≤ S.reads source.old + (SCRIPT_BYTES + 1) }
{
    let script = match read_script(alloc, source) {
        Ok(script) => script,
        Err(ScriptError::Fault) => return Err(RunError::ReadFault),
        Err(ScriptError::Memory) => return Err(RunError::Alloc),
    };
    let (text, report) = match transcript::<R, K, G>(
        rt, alloc, &script, workers, wanted, expr, gate,
    ) {
        Ok(printed) => printed,
        Err(error) => return Err(error),
    };
    match write_all(sink, text.as_bytes()) {
        Ok(()) => Ok(report),
        Err(_) => Err(RunError::WriteFault),
    }
}
