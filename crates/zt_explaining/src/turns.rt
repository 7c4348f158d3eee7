// What is wrong of one turn: a line with its entry, over the fabric that those before show.
use crate::asks::wrongly_answered;
use crate::endings::wrongly_finished;
use crate::keeping::wrongly_kept;
use crate::list::{tell, tell_all};
use std::alloc::Global;
use zt_breaks::{Break, Finding};
use zt_check_asks::{Told, answers_asks, told_of};
use zt_check_fabric::ShownFabric;
use zt_check_finals::{Ending, ending_by, sends_finals};
use zt_check_keeping::{Changed, Heard, changed_by, heard_by, keeps_no_less, keeps_no_more};
use zt_check_lines::{is_refused_by_cause, line_cause};
use zt_keys::{Key, Memory};
use zt_protocol::{Entry, Line, Sent};

// What asks get wrongly, before the messages are heard.
fn of_asks<'a, 'b, K: Key>(
    alloc: Global,
    fabric: &ShownFabric<'a, K>,
    told: &Told<'b, K>,
    ending: &Ending,
    sents: &[Sent<K>],
) -> Result<(Vec<Finding<K>>, Vec<Finding<K>>), Memory> {
    let mut answers = Vec::new(alloc);
    let mut finals = Vec::new(alloc);
    if !answers_asks(alloc, fabric, told)? {
        answers = wrongly_answered(alloc, fabric, told)?;
    }
    if !sends_finals(fabric, ending, sents) {
        finals = wrongly_finished(alloc, fabric, ending, sents)?;
    }
    Ok((answers, finals))
}

// Tells what faces keep wrongly.
fn tell_kept<'a, K: Key>(
    alloc: Global,
    breaks: &mut Vec<Break<K>>,
    number: u64,
    fabric: &ShownFabric<'a, K>,
    changed: &Changed<K>,
    heard: &Heard<K>,
) -> Result<(), Memory> {
    if !keeps_no_more(fabric, changed, heard) {
        tell_all(
            breaks,
            number,
            wrongly_kept(alloc, fabric, changed, heard, false)?,
        )?;
    }
    if !keeps_no_less(fabric, changed, heard) {
        tell_all(
            breaks,
            number,
            wrongly_kept(alloc, fabric, changed, heard, true)?,
        )?;
    }
    Ok(())
}

// Carries out an accepted line, and tells what is wrong of it.
fn tell_accepted<'a, K: Key>(
    alloc: Global,
    breaks: &mut Vec<Break<K>>,
    number: u64,
    fabric: &mut ShownFabric<'a, K>,
    line: &'a Line<K>,
    sents: &[Sent<K>],
) -> Result<(), Memory> {
    let found = fabric.call_of(alloc, line)?;
    let told = told_of(fabric, &found, sents);
    let ending = ending_by(alloc, fabric, line, &found, sents)?;
    let changed = changed_by(alloc, fabric, line, &found)?;
    fabric.carry_out(alloc, line, sents)?;
    let heard = heard_by(alloc, fabric, sents)?;
    let (answers, finals) = of_asks(alloc, fabric, &told, &ending, sents)?;
    fabric.hear(alloc, sents)?;
    fabric.wait(alloc, sents)?;
    tell_kept(alloc, breaks, number, fabric, &changed, &heard)?;
    tell_all(breaks, number, answers)?;
    tell_all(breaks, number, finals)
}

/// Carries out the line of the number with its entry, and tells what is wrong of it. False where
/// the line is refused without its cause, or accepted with one: then nothing behind it can be
/// followed.
pub(crate) fn tell_turn<'a, K: Key>(
    alloc: Global,
    breaks: &mut Vec<Break<K>>,
    number: u64,
    fabric: &mut ShownFabric<'a, K>,
    line: &'a Line<K>,
    entry: &Entry<K>,
) -> Result<bool, Memory> {
    if !is_refused_by_cause(alloc, fabric, line, entry)? {
        let cause = line_cause(alloc, fabric, line)?;
        let refusal = entry.outcome.as_ref().err().copied();
        tell(breaks, number, Finding::Refused { refusal, cause })?;
        return Ok(false);
    }
    match &entry.outcome {
        Ok(sents) => tell_accepted(alloc, breaks, number, fabric, line, sents)?,
        Err(refusal) => fabric.refuse(line, *refusal),
    }
    Ok(true)
}
