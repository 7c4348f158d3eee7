//! Lines carried out one after another: read, stepped, printed and counted.
ghost use Rattle.std.specs.Prelude.{◌≡◌, ◌+◌, ◌<◌, ◌≤◌, [], ◌∷◌, ◌++◌, length, OnOk, OnErr, IfOk};
ghost use Rattle.std.specs.Prelude.{IfErr, is_err, true, string_bytes};
ghost use Rattle.std.specs.Io.KnownBytes.{Appends};
ghost use Rattle.zt_streams.specs.Streams.{AppendsPart, HasRisen};
ghost use Rattle.zt_streams.specs.Lines.{whole_lines, rest_of, last_line};
ghost use Rattle.zt_protocol.specs.Plain.{plain_entry, plain_line};
ghost use Rattle.zt_lines.specs.Reading.{line_read};
ghost use Rattle.zt_fabric.specs.Carrying.{Carries, IsInRange, IsNew, LineStops, Stops};
ghost use Rattle.zt_fabric.specs.Carrying.{StopsWriting};
ghost use Rattle.zt_fabric.specs.Carrying.{Writes, with_entry};

use std::alloc::Global;
use zt_keys::Key;
use zt_lines::read_line;
use zt_links::Fabric;
use zt_protocol::{Entry, Line, LineError, Report, RunError};
use zt_streams::{Failed, Feeder, SCRIPT_BYTES, Sink, write_all};
use zt_text::write_entry;

// What a run has come to: the fabric, the totals, and the text of the entries that isn't written
// yet.
#[derive(Drop)]
pub struct Progress<K: Key> {
    pub fabric: Fabric<K>,
    pub report: Report,
    pub text: String,
}

impl<K: Key> Progress<K> {
    // Nothing is carried out yet.
    pub fn new(alloc: Global) -> Self
        ensures { IsNew result.fabric result.report (string_bytes result.text) }
    {
        Progress {
            fabric: Fabric::new(alloc),
            report: Report {
                lines: 0,
                messages: 0,
                refusals: 0,
            },
            text: String::new(alloc),
        }
    }
}

// The line that the text is.
fn good_line<K: Key>(alloc: Global, text: &[u8], number: u64) -> Result<Line<K>, RunError>
    ensures ok { IfOk result (λ line. line_read K.reading text.now ≡ Ok (plain_line line)) }
    ensures err { IfErr result
        (λ error. LineStops K.cmp K.matching K.reading K.printed text.now number error) }
{
    match read_line(alloc, text) {
        Ok(line) => Ok(line),
        Err(LineError::NotUtf8 | LineError::NotInGrammar) => Err(RunError::BadLine(number)),
        Err(LineError::Memory) => Err(RunError::Alloc),
    }
}

// Counts an entry.
fn count<K>(report: &mut Report, entry: &Entry<K>)
    requires room { report.old.lines < SCRIPT_BYTES }
    requires range { IsInRange report.old }
    ensures counted { report.new ≡ with_entry (plain_entry entry.now) report.old }
    ensures range { IsInRange report.new }
{
    report.lines += 1;
    match &entry.outcome {
        Ok(sent) => report.messages += sent.len() as u128,
        Err(_) => report.refusals += 1,
    }
}

// Carries out one line. After an error the text is as it was.
pub fn carry_line<K: Key>(alloc: Global, run: &mut Progress<K>, line: &[u8]) -> Result<(), RunError>
    requires room { run.old.report.lines < SCRIPT_BYTES }
    requires range { IsInRange run.old.report }
    ensures ok { OnOk result (Carries K.cmp K.matching K.reading K.printed (line.now ∷ [])
        run.old.fabric run.old.report (string_bytes run.old.text) run.new.fabric run.new.report
        (string_bytes run.new.text)) }
    ensures lines { OnOk result (run.new.report.lines ≡ run.old.report.lines + 1) }
    ensures range { OnOk result (IsInRange run.new.report) }
    ensures err { IfErr result
        (λ error. LineStops K.cmp K.matching K.reading K.printed line.now
        (run.old.report.lines + 1) error) }
    ensures kept { OnErr result (string_bytes run.new.text ≡ string_bytes run.old.text) }
{
    let number = run.report.lines + 1;
    let line = match good_line(alloc, line, number) {
        Ok(line) => line,
        Err(error) => return Err(error),
    };
    let Ok(entry) = run.fabric.step_line(&line) else {
        return Err(RunError::Alloc);
    };
    if write_entry(&mut run.text, number, &entry).is_err() {
        return Err(RunError::Alloc);
    }
    count(&mut run.report, &entry);
    Ok(())
}

// Carries out the whole lines that the feeder keeps.
fn carry_lines<K: Key>(
    alloc: Global,
    feeder: &mut Feeder,
    run: &mut Progress<K>,
) -> Result<(), RunError>
    requires room { run.old.report.lines + length feeder.old ≤ SCRIPT_BYTES }
    requires range { IsInRange run.old.report }
    ensures ok { OnOk result (Carries K.cmp K.matching K.reading K.printed (whole_lines feeder.old)
        run.old.fabric run.old.report (string_bytes run.old.text) run.new.fabric run.new.report
        (string_bytes run.new.text)) }
    ensures rest { OnOk result (feeder.new ≡ rest_of feeder.old) }
    ensures lines { OnOk result
        (run.new.report.lines + length feeder.new ≤ run.old.report.lines + length feeder.old) }
    ensures range { OnOk result (IsInRange run.new.report) }
    ensures err { IfErr result
        (λ error. Stops K.cmp K.matching K.reading K.printed (whole_lines feeder.old)
        run.old.fabric (run.old.report.lines + 1) (string_bytes run.old.text)
        (string_bytes run.new.text) error) }
{
    while let Some(line) = feeder.next_line() {
        if let Err(error) = carry_line(alloc, run, line) {
            return Err(error);
        }
    }
    Ok(())
}

// Carries out the unfinished last line, if there is one.
fn carry_rest<K: Key>(
    alloc: Global,
    feeder: &mut Feeder,
    run: &mut Progress<K>,
) -> Result<(), RunError>
    requires whole { whole_lines feeder.old ≡ [] }
    requires room { run.old.report.lines + length feeder.old ≤ SCRIPT_BYTES }
    requires range { IsInRange run.old.report }
    ensures ok { OnOk result
        (Carries K.cmp K.matching K.reading K.printed (last_line (rest_of feeder.old))
        run.old.fabric run.old.report (string_bytes run.old.text) run.new.fabric run.new.report
        (string_bytes run.new.text)) }
    ensures err { IfErr result
        (λ error. Stops K.cmp K.matching K.reading K.printed (last_line (rest_of feeder.old))
        run.old.fabric (run.old.report.lines + 1) (string_bytes run.old.text)
        (string_bytes run.new.text) error) }
{
    let Some(line) = feeder.finish() else {
        return Ok(());
    };
    if let Err(error) = carry_line(alloc, run, line) {
        return Err(error);
    }
    Ok(())
}

/// Writes the text, which is then empty. After an error a part of it was written.
pub fn flush<T: Sink>(sink: &mut T, text: &mut String) -> Result<(), Failed>
    ensures ok { OnOk result
        (Appends (T.written sink.old) (T.written sink.new) (string_bytes text.old)) }
    ensures emptied { OnOk result (string_bytes text.new ≡ []) }
    ensures part { OnErr result
        (AppendsPart (T.written sink.old) (T.written sink.new) (string_bytes text.old)) }
    ensures fault { OnErr result (HasRisen (T.faults sink.old) (T.faults sink.new)) }
    ensures calm { OnOk result (T.faults sink.new ≡ T.faults sink.old) }
    ensures count { T.faults sink.old ≤ T.faults sink.new }
{
    write_all(sink, text.as_bytes())?;
    text.clear();
    Ok(())
}

/// Takes the next piece of the script: carries out the lines that are whole with it, and writes
/// their entries. After an error other than that of the sink the entries of the lines before were
/// written.
pub fn carry_piece<K: Key, T: Sink>(
    alloc: Global,
    feeder: &mut Feeder,
    run: &mut Progress<K>,
    sink: &mut T,
    piece: &[u8],
) -> Result<(), RunError>
    requires empty { string_bytes run.old.text ≡ [] }
    requires room { run.old.report.lines + (length feeder.old + length piece.now) ≤ SCRIPT_BYTES }
    requires range { IsInRange run.old.report }
    ensures ok { OnOk result
        (Writes K.cmp K.matching K.reading K.printed (whole_lines (feeder.old ++ piece.now))
        run.old.fabric run.old.report run.new.fabric run.new.report (T.written sink.old)
        (T.written sink.new)) }
    ensures rest { OnOk result (feeder.new ≡ rest_of (feeder.old ++ piece.now)) }
    ensures empty { OnOk result (string_bytes run.new.text ≡ []) }
    ensures lines { OnOk result
        (run.new.report.lines + length feeder.new ≤ run.old.report.lines +
        (length feeder.old + length piece.now)) }
    ensures range { OnOk result (IsInRange run.new.report) }
    ensures err { IfErr result
        (λ error. StopsWriting K.cmp K.matching K.reading K.printed
        (whole_lines (feeder.old ++ piece.now))
        run.old.fabric (run.old.report.lines + 1) (T.written sink.old) (T.written sink.new)
        (T.faults sink.old) (T.faults sink.new) error) }
    ensures calm { OnOk result (T.faults sink.new ≡ T.faults sink.old) }
    ensures unfailed { IfErr result
        (λ error. (error ≡ RunError.WriteFault → ⊥) → T.faults sink.new ≡ T.faults sink.old) }
    ensures count { T.faults sink.old ≤ T.faults sink.new }
{
    if feeder.feed(piece).is_err() {
        return Err(RunError::Alloc);
    }
    let carried = carry_lines(alloc, feeder, run);
    if flush(sink, &mut run.text).is_err() {
        return Err(RunError::WriteFault);
    }
    carried
}

/// Carries out the unfinished last line, if there is one, and writes its entry.
pub fn carry_end<K: Key, T: Sink>(
    alloc: Global,
    feeder: &mut Feeder,
    run: &mut Progress<K>,
    sink: &mut T,
) -> Result<(), RunError>
    requires empty { string_bytes run.old.text ≡ [] }
    requires whole { whole_lines feeder.old ≡ [] }
    requires room { run.old.report.lines + length feeder.old ≤ SCRIPT_BYTES }
    requires range { IsInRange run.old.report }
    ensures ok { OnOk result
        (Writes K.cmp K.matching K.reading K.printed (last_line (rest_of feeder.old))
        run.old.fabric run.old.report run.new.fabric run.new.report (T.written sink.old)
        (T.written sink.new)) }
    ensures empty { OnOk result (string_bytes run.new.text ≡ []) }
    ensures err { IfErr result
        (λ error. StopsWriting K.cmp K.matching K.reading K.printed (last_line (rest_of feeder.old))
        run.old.fabric (run.old.report.lines + 1) (T.written sink.old) (T.written sink.new)
        (T.faults sink.old) (T.faults sink.new) error) }
    ensures calm { OnOk result (T.faults sink.new ≡ T.faults sink.old) }
    ensures unfailed { IfErr result
        (λ error. (error ≡ RunError.WriteFault → ⊥) → T.faults sink.new ≡ T.faults sink.old) }
    ensures count { T.faults sink.old ≤ T.faults sink.new }
{
    let carried = carry_rest(alloc, feeder, run);
    if flush(sink, &mut run.text).is_err() {
        return Err(RunError::WriteFault);
    }
    carried
}
