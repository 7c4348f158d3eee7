//! `zt_fabric_trial` is for tests alone. It reads a script from standard input and prints its
//! transcript, as `zt` does: each entry as soon as its line is carried out, at the end the totals. A
//! step that ran out of memory is made again, up to 64 times: taking a piece of the script, reading
//! a line, carrying it out on the fabric, printing its entry. So what is printed is the transcript
//! whichever allocation fails, unless a step that runs out of memory changes something.
#![tactic(auto)]

mod calling;
mod fault;
mod printing;
mod script;

use crate::calling::{line_again, step_again};
use crate::fault::Fault;
use crate::printing::{entry_again, put, report_again};
use crate::script::{next_line, script_again};
use std::alloc::Global;
use std::process::ExitCode;
use zt_keys::{Key, KeyExpr};
use zt_links::Fabric;
use zt_protocol::{Entry, Report};
use zt_streams::{Sink, Source, StdSink, StdSource};

// What the lines so far have come to, and room for the text of an entry.
#[derive(Drop)]
struct Progress<K: Key> {
    fabric: Fabric<K>,
    report: Report,
    text: String,
}

fn count<K>(report: &mut Report, entry: &Entry<K>) {
    match &entry.outcome {
        Ok(sent) => report.messages = report.messages.saturating_add(sent.len() as u128),
        Err(_) => report.refusals = report.refusals.saturating_add(1),
    }
}

// Carries out a line, and writes its entry.
fn carry_line<K: Key, T: Sink>(
    alloc: Global,
    run: &mut Progress<K>,
    sink: &mut T,
    bytes: &[u8],
) -> Result<(), Fault> {
    let line = line_again(alloc, bytes)?;
    let entry = step_again(&mut run.fabric, &line)?;
    run.report.lines = run.report.lines.saturating_add(1);
    count(&mut run.report, &entry);
    entry_again(&mut run.text, run.report.lines, &entry)?;
    put(sink, &mut run.text)
}

// Carries out the lines of a script, and writes their entries and the totals.
fn carry_lines<K: Key, T: Sink>(
    alloc: Global,
    run: &mut Progress<K>,
    sink: &mut T,
    script: &[u8],
) -> Result<(), Fault> {
    let mut left = script;
    for _ in 0..script.len() {
        if left.is_empty() {
            break;
        }
        let (line, rest) = next_line(left);
        carry_line(alloc, run, sink, line)?;
        left = rest;
    }
    report_again(&mut run.text, &run.report)?;
    put(sink, &mut run.text)
}

fn carry<K: Key, S: Source, T: Sink>(
    alloc: Global,
    source: &mut S,
    sink: &mut T,
) -> Result<(), Fault> {
    let script = script_again(alloc, source)?;
    let mut run = Progress::<K> {
        fabric: Fabric::new(alloc),
        report: Report {
            lines: 0,
            messages: 0,
            refusals: 0,
        },
        text: String::new(alloc),
    };
    carry_lines(alloc, &mut run, sink, script.as_slice())
}

fn main(rt: HostRuntime) -> ExitCode {
    let mut source = StdSource::new(&rt);
    let mut sink = StdSink::new(&rt);
    match carry::<KeyExpr, _, _>(rt.alloc(), &mut source, &mut sink) {
        Ok(()) => ExitCode::from(0),
        Err(fault) => ExitCode::from(fault.status()),
    }
}
