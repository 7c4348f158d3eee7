// Answers in print.
use crate::calling::{Answer, Fault, TRIES};
use crate::counts::Count;
use std::alloc::Global;
use zt_keys::{Key, Memory};

// The line of a resource that is told: its id, its text, and its count, `-` where it goes.
fn put_told<K: Key>(
    alloc: Global,
    out: &mut String,
    id: u32,
    resource: &K,
    count: Option<Count>,
) -> Result<(), Memory> {
    let front = format!(in alloc; "> {id} ")?;
    out.push_str(front.as_str())?;
    resource.print_to(out)?;
    let end = match count {
        Some(count) => format!(in alloc; " {}\n", count.number)?,
        None => String::from_str(alloc, " -\n")?,
    };
    out.push_str(end.as_str())?;
    Ok(())
}

fn try_text<K: Key>(alloc: Global, line: usize, answer: &Answer<K>) -> Result<String, Memory> {
    match answer {
        Answer::Simple(id, told) => {
            let mut text = format!(in alloc; "{line} id {id}\n")?;
            for one in told.as_slice() {
                put_told(alloc, &mut text, one.id, &one.resource, Some(one.info))?;
            }
            Ok(text)
        }
        Answer::Aggregated(id, Some(count)) => {
            Ok(format!(in alloc; "{line} id {id} count {}\n", count.number)?)
        }
        Answer::Aggregated(id, None) => Ok(format!(in alloc; "{line} id {id} count -\n")?),
        Answer::Removed(told) => {
            let mut text = format!(in alloc; "{line} removed\n")?;
            for one in told.as_slice() {
                put_told(alloc, &mut text, one.id, &one.resource, one.update)?;
            }
            Ok(text)
        }
    }
}

/// The text of what the call in this place, from 0, answered.
pub fn text_of<K: Key>(alloc: Global, at: usize, answer: &Answer<K>) -> Result<String, Fault> {
    for _ in 0..TRIES {
        if let Ok(text) = try_text(alloc, at, answer) {
            return Ok(text);
        }
    }
    Err(Fault::Memory)
}

/// The number of the call in this place, with which its line begins.
pub fn front_of(alloc: Global, at: usize) -> Result<String, Fault> {
    for _ in 0..TRIES {
        if let Ok(text) = format!(in alloc; "{at} ") {
            return Ok(text);
        }
    }
    Err(Fault::Memory)
}

/// The text of the id that is drawn next.
pub fn text_of_next(alloc: Global, next: u32) -> Result<String, Fault> {
    for _ in 0..TRIES {
        if let Ok(text) = format!(in alloc; "next {next}\n") {
            return Ok(text);
        }
    }
    Err(Fault::Memory)
}
