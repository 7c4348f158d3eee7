//! `zt_gateway_trial` is for tests alone. It reads a script of one gateway, without links, and makes
//! each call on five equal gateways: by its name; prepared and carried out; prepared, dropped and
//! prepared again; prepared, dropped, and made on the rebuilt gateway; made, and then a copy takes
//! the gateway's place. All must say the same, which is printed as `zt` prints it, and the number of
//! a face that is made behind `#`. At the end they must give the same account of who declares tokens
//! and of what each face was told. A line that makes a gateway may come again: then what was there
//! ends, and faces are numbered anew.
//!
//! A step that ran out of memory is made again, up to 64 times. So what is printed is the same
//! whichever allocation fails, unless a call that runs out of memory changes something, or those
//! behind it run out of memory as well. The status is 1 where gateways differ, and what differs is
//! printed then.
#![tactic(auto)]

mod account;
mod fault;
mod gateways;
mod messages;
mod naming;
mod printing;
mod reading;
mod script;
mod ways;

use crate::fault::Fault;
use crate::gateways::{Gateways, account_of_all, gateways_again, say_all};
use crate::printing::{entry_again, put};
use crate::reading::{call_of, line_again};
use crate::script::{next_line, script_again};
use std::alloc::Global;
use std::process::ExitCode;
use zt_keys::{Key, KeyExpr};
use zt_protocol::{Entry, Line};
use zt_streams::{Sink, Source, StdSink, StdSource};

// The lines so far, and what the last gateway line made.
#[derive(Drop)]
struct Progress<K: Key> {
    line: u64,
    gateways: Option<Gateways<K>>,
}

// Asks the gateways for their account, which is the same, and writes it.
fn tell<K: Key, T: Sink>(alloc: Global, run: &mut Progress<K>, sink: &mut T) -> Result<(), Fault> {
    let Some(gateways) = &mut run.gateways else {
        return Ok(());
    };
    let text = account_of_all(alloc, gateways)?;
    put(sink, text.as_str())
}

// Ends what was begun, and makes the gateways of a line.
fn begin<K: Key, T: Sink>(
    alloc: Global,
    run: &mut Progress<K>,
    sink: &mut T,
    bytes: &[u8],
) -> Result<(), Fault> {
    tell(alloc, run, sink)?;
    run.gateways = None;
    let entry = match gateways_again(alloc, bytes)? {
        Ok(gateways) => {
            run.gateways = Some(gateways);
            Entry::<K> {
                outcome: Ok(Vec::new(alloc)),
            }
        }
        Err(refusal) => Entry {
            outcome: Err(refusal),
        },
    };
    let text = entry_again(alloc, run.line, None, &entry)?;
    put(sink, text.as_str())
}

// Makes the call of a line.
fn call<K: Key, T: Sink>(
    alloc: Global,
    run: &mut Progress<K>,
    sink: &mut T,
    line: Line<K>,
) -> Result<(), Fault> {
    let Some(gateways) = &mut run.gateways else {
        return Err(Fault::BadLine);
    };
    let call = call_of(line)?;
    let text = say_all(alloc, run.line, gateways, &call)?;
    put(sink, text.as_str())
}

// Carries out a line, and writes its entry.
fn carry_line<K: Key, T: Sink>(
    alloc: Global,
    run: &mut Progress<K>,
    sink: &mut T,
    bytes: &[u8],
) -> Result<(), Fault> {
    run.line = run.line.saturating_add(1);
    let line = line_again(alloc, bytes)?;
    if matches!(line, Line::Gateway { .. }) {
        begin(alloc, run, sink, bytes)
    } else {
        call(alloc, run, sink, line)
    }
}

// Carries out the lines of a script, and writes their entries.
fn carry_lines<K: Key, T: Sink>(
    alloc: Global,
    run: &mut Progress<K>,
    sink: &mut T,
    script: &[u8],
) -> Result<(), Fault> {
    let mut left = script;
    for _ in 0..script.len() {
        if left.is_empty() {
            break;
        }
        let (line, rest) = next_line(left);
        carry_line(alloc, run, sink, line)?;
        left = rest;
    }
    tell(alloc, run, sink)
}

fn carry<K: Key, S: Source, T: Sink>(
    alloc: Global,
    source: &mut S,
    sink: &mut T,
) -> Result<(), Fault> {
    let script = script_again(alloc, source)?;
    let mut run = Progress::<K> {
        line: 0,
        gateways: None,
    };
    carry_lines(alloc, &mut run, sink, script.as_slice())
}

// The status of a program that ended so. What differs is written.
fn status_of<T: Sink>(sink: &mut T, ended: Result<(), Fault>) -> u8 {
    match ended {
        Ok(()) => 0,
        Err(fault) => {
            if let Fault::Differs(what) = fault {
                let _ = put(sink, what);
            }
            fault.status()
        }
    }
}

fn main(rt: HostRuntime) -> ExitCode {
    let mut source = StdSource::new(&rt);
    let mut sink = StdSink::new(&rt);
    let ended = carry::<KeyExpr, _, _>(rt.alloc(), &mut source, &mut sink);
    ExitCode::from(status_of(&mut sink, ended))
}
