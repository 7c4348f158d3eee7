//! `zt_locals_trial` is for tests alone. It makes rows of calls on local resources and prints what
//! each answers, and behind a row the id that is drawn next. A call that ran out of memory is made
//! again, up to 64 times. So what is printed is the same whichever allocation fails, unless a call
//! that runs out of memory changes something or draws an id.
//!
//! A call that takes no memory is made when its line has begun and not ended. So nothing is
//! allocated amid a line unless such a call does it.
#![tactic(auto)]

mod calling;
mod counts;
mod printing;
mod row;

use crate::calling::{Answer, Fault, Resources, answer_again, answer_plain, key_again};
use crate::printing::{front_of, text_of, text_of_next};
use crate::row::{AGGREGATED, Plain, SEVERAL, SIMPLE, Step};
use std::alloc::Global;
use std::process::ExitCode;
use zt_keys::{Key, KeyExpr};
use zt_streams::{Sink, StdSink, write_all};

fn put<T: Sink>(sink: &mut T, text: &str) -> Result<(), Fault> {
    match write_all(sink, text.as_bytes()) {
        Ok(()) => Ok(()),
        Err(_) => Err(Fault::Write),
    }
}

// The call with the keys of its texts.
fn read<K: Key>(alloc: Global, call: &Plain<&str>) -> Result<Plain<K>, Fault> {
    match *call {
        Plain::EndSimple(interest) => Ok(Plain::EndSimple(interest)),
        Plain::EndAggregated(text, interest) => {
            Ok(Plain::EndAggregated(key_again(alloc, text)?, interest))
        }
        Plain::Contains(text) => Ok(Plain::Contains(key_again(alloc, text)?)),
        Plain::Clear => Ok(Plain::Clear),
    }
}

// Makes the calls of a row over resources of its own, and prints what they answer.
fn carry_row<K: Key, T: Sink>(
    alloc: Global,
    sink: &mut T,
    heading: &str,
    row: &[Step<'_>],
) -> Result<(), Fault> {
    let mut resources = Resources::<K>::new(alloc);
    let mut next = 0;
    put(sink, heading)?;
    for (at, step) in row.iter().enumerate() {
        match step {
            Step::Call(call) => {
                let answer: Answer<K> = answer_again(alloc, &mut resources, &mut next, call)?;
                put(sink, text_of(alloc, at, &answer)?.as_str())?;
            }
            Step::Plain(call) => {
                let call: Plain<K> = read(alloc, call)?;
                let front = front_of(alloc, at)?;
                put(sink, front.as_str())?;
                put(sink, answer_plain(&mut resources, &call))?;
            }
        }
    }
    put(sink, text_of_next(alloc, next)?.as_str())
}

fn carry<K: Key, T: Sink>(alloc: Global, sink: &mut T) -> Result<(), Fault> {
    carry_row::<K, T>(alloc, sink, "simple\n", &SIMPLE)?;
    carry_row::<K, T>(alloc, sink, "aggregated\n", &AGGREGATED)?;
    carry_row::<K, T>(alloc, sink, "several aggregated\n", &SEVERAL)
}

fn main(rt: HostRuntime) -> ExitCode {
    match carry::<KeyExpr, _>(rt.alloc(), &mut StdSink::new(&rt)) {
        Ok(()) => ExitCode::from(0),
        Err(fault) => ExitCode::from(fault.status()),
    }
}
