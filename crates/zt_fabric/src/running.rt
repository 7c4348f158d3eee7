//! A whole run, from the bytes of a script to those of its transcript.
ghost use Rattle.std.specs.Prelude.{◌≡◌, ◌⊎◌, ◌+◌, ◌≤◌, [], length, IfOk, IfErr, Err, IsOkUnless};
ghost use Rattle.std.specs.Prelude.{string_bytes};
ghost use Rattle.zt_streams.specs.Lines.{whole_lines, rest_of, last_line};
ghost use Rattle.zt_fabric.specs.Carrying.{Ends, EndsInPart, IsInRange, IsNew, StopsWriting};
ghost use Rattle.zt_fabric.specs.Transcripts.{Answers, CountsFaults, GivesComplete, streams};

use crate::carrying::{Progress, carry_end, carry_piece, flush};
use std::alloc::Global;
use zt_keys::Key;
use zt_protocol::{Report, RunError};
use zt_streams::{Feeder, SCRIPT_BYTES, Sink, Source};
use zt_text::write_report;

const PIECE_BYTES: usize = 4096;

// Each read gives a byte at least or is the last, and one byte too many is enough.
const MOST_READS: usize = SCRIPT_BYTES + 1;

// Carries out what is left at the end of the script, and writes the totals.
fn finish<K: Key, T: Sink>(
    alloc: Global,
    feeder: &mut Feeder,
    run: &mut Progress<K>,
    sink: &mut T,
) -> Result<Report, RunError>
    requires empty { string_bytes run.old.text ≡ [] }
    requires whole { whole_lines feeder.old ≡ [] }
    requires room { run.old.report.lines + length feeder.old ≤ SCRIPT_BYTES }
    requires range { IsInRange run.old.report }
    ensures ok { IfOk result
        (λ report. Ends K.cmp K.matching K.reading K.printed (last_line (rest_of feeder.old))
        run.old.fabric run.old.report report (T.written sink.old) (T.written sink.new)) }
    ensures err { IfErr result
        (λ error. StopsWriting K.cmp K.matching K.reading K.printed (last_line (rest_of feeder.old))
        run.old.fabric (run.old.report.lines + 1) (T.written sink.old) (T.written sink.new)
        (T.faults sink.old) (T.faults sink.new) error
        ⊎ ((error ≡ RunError.WriteFault)
        × EndsInPart K.cmp K.matching K.reading K.printed (last_line (rest_of feeder.old))
        run.old.fabric run.old.report (T.written sink.old) (T.written sink.new) (T.faults sink.old)
        (T.faults sink.new))) }
    ensures calm { (result ≡ Err RunError.WriteFault → ⊥) → T.faults sink.new ≡ T.faults sink.old }
    ensures count { T.faults sink.old ≤ T.faults sink.new }
{
    if let Err(error) = carry_end(alloc, feeder, run, sink) {
        return Err(error);
    }
    if write_report(&mut run.text, &run.report).is_err() {
        return Err(RunError::Alloc);
    }
    if flush(sink, &mut run.text).is_err() {
        return Err(RunError::WriteFault);
    }
    Ok(run.report)
}

/// Carries out a script as `run` does, from a run in which nothing is carried out yet: what gateways
/// keep at its end is left there.
pub(crate) fn carry_script<K: Key, S: Source, T: Sink>(
    alloc: Global,
    run: &mut Progress<K>,
    source: &mut S,
    sink: &mut T,
) -> Result<Report, RunError>
    requires { IsNew run.old.fabric run.old.report (string_bytes run.old.text) }
    ensures answers { Answers K.cmp K.matching K.reading K.printed
        (streams (S.left source.old) (S.faults source.old) (T.written sink.old) (T.faults sink.old))
        (streams (S.left source.new) (S.faults source.new) (T.written sink.new)
        (T.faults sink.new)) result }
    ensures complete { GivesComplete K.reading
        (streams (S.left source.old) (S.faults source.old) (T.written sink.old) (T.faults sink.old))
        (streams (S.left source.new) (S.faults source.new) (T.written sink.new)
        (T.faults sink.new)) → IsOkUnless result RunError.Alloc }
    ensures faults { CountsFaults
        (streams (S.left source.old) (S.faults source.old) (T.written sink.old) (T.faults sink.old))
        (streams (S.left source.new) (S.faults source.new) (T.written sink.new)
        (T.faults sink.new)) result }
    ensures reads { S.reads source.new ≤ S.reads source.old + MOST_READS }
{
    let mut feeder = Feeder::new(alloc);
    let mut piece = [0u8; PIECE_BYTES];
    let mut total = 0;
    for reads in 0..MOST_READS {
        let room = SCRIPT_BYTES - total;
        let part = &mut piece[..PIECE_BYTES.min(room + 1)];
        let Ok(count) = source.read(part) else {
            return Err(RunError::ReadFault);
        };
        if count == 0 {
            return finish(alloc, &mut feeder, run, sink);
        }
        let fed = &part[..count.min(room)];
        if let Err(error) = carry_piece(alloc, &mut feeder, run, sink, fed) {
            return Err(error);
        }
        if count > room {
            return Err(RunError::TooLong);
        }
        total += count;
        prove!(reads < total);
    }
    unreachable!()
}

/// Carries out a script of at most 2^20 bytes and writes its transcript, each line's entry as soon
/// as the piece is read with which the line is whole. It reads to the end of the source, or until
/// one byte too many is there, by at most 1,048,577 reads, and keeps no more of the script than the
/// unfinished line and one piece of 4,096 bytes. It stops at the first fault.
///
/// A complete script, one of at most 2^20 bytes in which each line is of the grammar, is carried
/// out to its end unless memory runs out or a stream fails.
///
/// Before `BadLine`, `TooLong` and `ReadFault` the entries of all lines before were written, before
/// `Alloc` those of the first lines, and before `WriteFault` a part of the transcript.
pub fn run<K: Key, S: Source, T: Sink>(
    alloc: Global,
    source: &mut S,
    sink: &mut T,
) -> Result<Report, RunError>
    ensures answers { Answers K.cmp K.matching K.reading K.printed
        (streams (S.left source.old) (S.faults source.old) (T.written sink.old) (T.faults sink.old))
        (streams (S.left source.new) (S.faults source.new) (T.written sink.new)
        (T.faults sink.new)) result }
    ensures complete { GivesComplete K.reading
        (streams (S.left source.old) (S.faults source.old) (T.written sink.old) (T.faults sink.old))
        (streams (S.left source.new) (S.faults source.new) (T.written sink.new)
        (T.faults sink.new)) → IsOkUnless result RunError.Alloc }
    ensures faults { CountsFaults
        (streams (S.left source.old) (S.faults source.old) (T.written sink.old) (T.faults sink.old))
        (streams (S.left source.new) (S.faults source.new) (T.written sink.new)
        (T.faults sink.new)) result }
    ensures reads { S.reads source.new ≤ S.reads source.old + MOST_READS }
{
    let mut run = Progress::<K>::new(alloc);
    carry_script(alloc, &mut run, source, sink)
}
