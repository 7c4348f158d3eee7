//! One turn of a claimed transcript: a line with its entry, and the fabric that they show.
ghost use Rattle.std.specs.Prelude.{◌≡◌, IfOk, None, Ok};
ghost use Rattle.zt_protocol.specs.Plain.{plain_entry, plain_line};
ghost use Rattle.zt_model.specs.Transcript.{IsEntry, fabric_shown};
ghost use Rattle.zt_check_fabric.specs.Placed.{IsPlaced};
ghost use Rattle.zt_check.specs.Turns.{IsKept, Tells, TellsOf, first_failed, later, turn_of};

use crate::verdict::Clause;
use std::alloc::Global;
use zt_check_asks::{answers_asks, told_of};
use zt_check_fabric::ShownFabric;
use zt_check_finals::{ending_by, sends_finals};
use zt_check_keeping::{changed_by, heard_by, keeps_no_less, keeps_no_more};
use zt_check_lines::is_refused_by_cause;
use zt_keys::{Key, Memory};
use zt_protocol::{Entry, Line, Sent};

// The first of these clauses, in their order, that a turn fails.
fn first_failed(more: bool, less: bool, answers: bool, finals: bool) -> Option<Clause>
    ensures { result ≡ first_failed more less answers finals }
{
    if !more {
        return Some(Clause::Upper);
    }
    if !less {
        return Some(Clause::Lower);
    }
    if !answers {
        return Some(Clause::Answers);
    }
    if !finals {
        return Some(Clause::Finals);
    }
    None
}

// Carries out an accepted line, and answers which clause fails, if any.
fn judge_accepted<'a, K: Key>(
    alloc: Global,
    fabric: &mut ShownFabric<'a, K>,
    line: &'a Line<K>,
    sents: &[Sent<K>],
) -> Result<Option<Clause>, Memory>
    ensures tells { IfOk result (λ failed. IsKept K.cmp K.matching fabric.old
        → TellsOf K.cmp K.matching later
        (turn_of K.cmp K.matching (plain_line line.now) (Ok sents.now) fabric.old)
        failed) }
    ensures shown { IfOk result (λ failed. IsPlaced fabric.old → fabric.new
        ≡ fabric_shown K.cmp K.matching (plain_line line.now) (Ok sents.now) fabric.old) }
{
    let found = fabric.call_of(alloc, line)?;
    let told = told_of(fabric, &found, sents);
    let ending = ending_by(alloc, fabric, line, &found, sents)?;
    let changed = changed_by(alloc, fabric, line, &found)?;
    fabric.carry_out(alloc, line, sents)?;
    let heard = heard_by(alloc, fabric, sents)?;
    let answers = answers_asks(alloc, fabric, &told)?;
    let finals = sends_finals(fabric, &ending, sents);
    fabric.hear(alloc, sents)?;
    fabric.wait(alloc, sents)?;
    let more = keeps_no_more(fabric, &changed, &heard);
    let less = keeps_no_less(fabric, &changed, &heard);
    Ok(first_failed(more, less, answers, finals))
}

/// Judges a line with its entry, after those before, and answers the first clause that it fails, if
/// any.
pub(crate) fn judge_turn<'a, K: Key>(
    alloc: Global,
    fabric: &mut ShownFabric<'a, K>,
    line: &'a Line<K>,
    entry: &Entry<K>,
) -> Result<Option<Clause>, Memory>
    ensures tells { IfOk result (λ failed. IsEntry (plain_entry entry.now)
        → IsKept K.cmp K.matching fabric.old → Tells K.cmp K.matching
        (turn_of K.cmp K.matching (plain_line line.now) (plain_entry entry.now) fabric.old)
        failed) }
    ensures shown { IfOk result (λ failed. failed ≡ None → IsPlaced fabric.old → fabric.new
        ≡ fabric_shown K.cmp K.matching
        (plain_line line.now) (plain_entry entry.now) fabric.old) }
{
    if !is_refused_by_cause(alloc, fabric, line, entry)? {
        return Ok(Some(Clause::Cause));
    }
    match &entry.outcome {
        Ok(sents) => judge_accepted(alloc, fabric, line, sents),
        Err(refusal) => {
            fabric.refuse(line, *refusal);
            Ok(None)
        }
    }
}
