//! The script that `make` runs, and its report.
ghost use Rattle.std.specs.Prelude.{◌≡◌, ◌++◌, ◌+◌, ◌≤◌, codes, decimal, Some, IsOkUnless, IfOk};
ghost use Rattle.std.specs.Prelude.{IfErr, IfSome, OnOk, map, string_bytes};
ghost use Rattle.std.specs.Io.KnownBytes.{Appends};
ghost use Rattle.zt_streams.specs.Lines.{with_feed};
ghost use Rattle.zt_text.specs.Text.{report_text};
ghost use Rattle.zt_fabric.specs.Carrying.{IsNew};
ghost use Rattle.zt_fabric.specs.Making.{IsReportOf, NotWritten, WritesReport, closing_line};
ghost use Rattle.zt_fabric.specs.Making.{coming_lines, declaring_line, first_lines, going_lines};
ghost use Rattle.zt_fabric.specs.Making.{lines_up_to, made_lines, made_script, number_to_make};
ghost use Rattle.zt_fabric.specs.Making.{text_of};

use crate::carrying::{Progress, flush};
use crate::running::carry_script;
use itoa::Buffer;
use std::alloc::Global;
use std::marker::Model;
use std::mem;
use zt_fields::Spelled;
use zt_keys::{Key, KeyExpr, Memory};
use zt_protocol::{Report, RunError};
use zt_streams::{CountingSink, Failed, MemorySource, SCRIPT_BYTES, Sink, Source};
use zt_text::write_report;

// The greatest number that can be asked for.
const MOST: u32 = 2000;

// The number of the first session that comes is by one more.
const FACES_BEFORE: u32 = 5;

/// The number of the words `make N`.
#[tactic(auto, unfolding(crate::specs::Making::number_to_make))]
pub(crate) fn number_to_make(words: &[String]) -> Option<u32>
    ensures value { result ≡ number_to_make (map string_bytes words.now) }
    ensures bound { IfSome result (λ number. number ≤ MOST) }
{
    match words {
        [word, number] => {
            if word.as_str() != "make" {
                return None;
            }
            let number = u32::read(number.as_str())?;
            if number < 1 || MOST < number {
                return None;
            }
            Some(number)
        }
        _ => None,
    }
}

// Adds a line.
fn put_line(out: &mut String, line: &str) -> Result<(), Memory>
    ensures { OnOk result (string_bytes out.new ≡ string_bytes out.old ++ with_feed line.now) }
{
    out.push_str(line)?;
    out.push('\n')?;
    Ok(())
}

fn put_number(out: &mut String, number: u32) -> Result<(), Memory>
    ensures { OnOk result (string_bytes out.new ≡ string_bytes out.old ++ decimal number) }
{
    let mut buffer = Buffer::new();
    out.push_str(buffer.format(number))?;
    Ok(())
}

fn put_declaring(out: &mut String, number: u32) -> Result<(), Memory>
    requires { number ≤ MOST }
    ensures { OnOk result
        (string_bytes out.new ≡ string_bytes out.old ++ with_feed (declaring_line number)) }
{
    out.push_str("declare ")?;
    put_number(out, FACES_BEFORE + number)?;
    out.push_str(" 1 t/")?;
    put_number(out, number)?;
    put_line(out, "")
}

fn put_closing(out: &mut String, number: u32) -> Result<(), Memory>
    requires { number ≤ MOST }
    ensures { OnOk result
        (string_bytes out.new ≡ string_bytes out.old ++ with_feed (closing_line number)) }
{
    out.push_str("close ")?;
    put_number(out, FACES_BEFORE + number)?;
    put_line(out, "")
}

// Adds the lines in which a message goes on from the second client to the first.
fn put_steps(out: &mut String) -> Result<(), Memory>
    ensures { OnOk result
        (string_bytes out.new
        ≡ string_bytes out.old ++
        (with_feed (codes "step 2 fwd") ++ with_feed (codes "step 1 back"))) }
{
    out.push_str("step 2 fwd\nstep 1 back\n")?;
    Ok(())
}

fn put_coming(out: &mut String, number: u32) -> Result<(), Memory>
    requires { number ≤ MOST }
    ensures { OnOk result
        (string_bytes out.new ≡ string_bytes out.old ++ text_of (coming_lines number)) }
{
    put_line(out, "session 3")?;
    put_declaring(out, number)?;
    put_steps(out)
}

fn put_going(out: &mut String, number: u32) -> Result<(), Memory>
    requires { number ≤ MOST }
    ensures { OnOk result
        (string_bytes out.new ≡ string_bytes out.old ++ text_of (going_lines number)) }
{
    put_closing(out, number)?;
    put_steps(out)
}

fn put_first(out: &mut String) -> Result<(), Memory>
    ensures { OnOk result (string_bytes out.new ≡ string_bytes out.old ++ text_of first_lines) }
{
    out.push_str(
        "gateway router 1 regions=south0-client\ngateway client 2\ngateway client 3\nlink 2 1\nlink 3 1\nsession 2\ninterest 5 1 current-future t\nstep 1 fwd\nstep 1 back\n",
    )?;
    Ok(())
}

fn put_all_coming(out: &mut String, number: u32) -> Result<(), Memory>
    requires { number ≤ MOST }
    ensures { OnOk result
        (string_bytes out.new ≡ string_bytes out.old ++ text_of (lines_up_to coming_lines number)) }
{
    for before in 0..number {
        put_coming(out, before + 1)?;
    }
    Ok(())
}

fn put_all_going(out: &mut String, number: u32) -> Result<(), Memory>
    requires { number ≤ MOST }
    ensures { OnOk result
        (string_bytes out.new ≡ string_bytes out.old ++ text_of (lines_up_to going_lines number)) }
{
    for before in 0..number {
        put_going(out, before + 1)?;
    }
    Ok(())
}

fn made_script(alloc: Global, number: u32) -> Result<String, Memory>
    requires { number ≤ MOST }
    ensures { IfOk result (λ text. string_bytes text ≡ made_script number) }
{
    let mut out = String::new(alloc);
    put_first(&mut out)?;
    put_all_coming(&mut out, number)?;
    put_all_going(&mut out, number)?;
    Ok(out)
}

// A source over memory at which no call fails.
#[derive(Drop)]
struct CalmSource {
    source: MemorySource,
}

impl Model for CalmSource {
    ghost use Rattle.std.specs.Prelude.{◌≡◌, []};
    ghost use Rattle.zt_streams.specs.Streams.{Supply};

    ghost Value = { Supply };

    ghost view = { λ s. s.source };

    ghost invariant = { λ s. s.source.failing ≡ [] };
}

impl CalmSource {
    fn new(alloc: Global, text: String) -> Self
        ensures { result.left ≡ string_bytes text }
    {
        CalmSource {
            source: MemorySource::new(text.into_bytes(), SCRIPT_BYTES, Vec::new(alloc)),
        }
    }
}

impl Source for CalmSource {
    ghost left = { λ s. Some s.left };

    ghost faults = { λ _. 0 };

    ghost reads = { λ _. 0 };

    fn read(&mut self, buf: &mut [u8]) -> Result<usize, Failed> {
        match self.source.read(buf) {
            Ok(count) => Ok(count),
            Err(_) => unreachable!(),
        }
    }
}

// The report of the script's transcript, carried out in a run in which nothing is carried out yet.
fn made_report(alloc: Global, run: &mut Progress<KeyExpr>, number: u32) -> Result<Report, RunError>
    requires most { number ≤ MOST }
    requires new { IsNew run.old.fabric run.old.report (string_bytes run.old.text) }
    ensures ok { IfOk result
        (λ report. IsReportOf ⟦<KeyExpr as Ord>⟧.cmp ⟦<KeyExpr as Key>⟧.matching ⟦<KeyExpr as Key>⟧.reading (made_lines number) report) }
    ensures err { IsOkUnless result RunError.Alloc }
{
    let Ok(text) = made_script(alloc, number) else {
        return Err(RunError::Alloc);
    };
    let mut source = CalmSource::new(alloc, text);
    let mut sink = CountingSink::new();
    carry_script(alloc, run, &mut source, &mut sink)
}

// Writes a report line.
fn put_report<T: Sink>(alloc: Global, report: &Report, sink: &mut T) -> Result<(), RunError>
    ensures ok { OnOk result
        (Appends (T.written sink.old) (T.written sink.new) (report_text report.now)) }
    ensures calm { OnOk result (T.faults sink.new ≡ T.faults sink.old) }
    ensures err { IfErr result
        (λ error. NotWritten (report_text report.now) (T.written sink.old) (T.written sink.new)
        (T.faults sink.old) (T.faults sink.new) error) }
{
    let mut text = String::new(alloc);
    if write_report(&mut text, report).is_err() {
        return Err(RunError::Alloc);
    }
    if flush(sink, &mut text).is_err() {
        return Err(RunError::WriteFault);
    }
    Ok(())
}

// Runs the script of this number in a run in which nothing is carried out yet, and writes the
// report line.
fn write_made<T: Sink>(
    alloc: Global,
    run: &mut Progress<KeyExpr>,
    number: u32,
    sink: &mut T,
) -> Result<Report, RunError>
    requires most { number ≤ MOST }
    requires new { IsNew run.old.fabric run.old.report (string_bytes run.old.text) }
    ensures { WritesReport ⟦<KeyExpr as Ord>⟧.cmp ⟦<KeyExpr as Key>⟧.matching ⟦<KeyExpr as Key>⟧.reading (made_lines number)
        (T.written sink.old) (T.written sink.new) (T.faults sink.old) (T.faults sink.new) result }
{
    let report = match made_report(alloc, run, number) {
        Ok(report) => report,
        Err(error) => return Err(error),
    };
    if let Err(error) = put_report(alloc, &report, sink) {
        return Err(error);
    }
    Ok(report)
}

/// Runs the script of this number, from 1 to 2,000, and writes the report line of its transcript.
/// After `WriteFault` a part of the line was written, and after `Alloc` nothing was.
pub(crate) fn make<T: Sink>(alloc: Global, number: u32, sink: &mut T) -> Result<Report, RunError>
    requires { number ≤ MOST }
    ensures { WritesReport ⟦<KeyExpr as Ord>⟧.cmp ⟦<KeyExpr as Key>⟧.matching ⟦<KeyExpr as Key>⟧.reading (made_lines number)
        (T.written sink.old) (T.written sink.new) (T.faults sink.old) (T.faults sink.new) result }
{
    let mut run = Progress::<KeyExpr>::new(alloc);
    let answer = write_made(alloc, &mut run, number, sink);
    // The program ends: what gateways keep goes with it, and isn't given back piece by piece.
    mem::forget(run);
    answer
}
