// A plan carried out, from its gateway to the answers of all lines.
ghost use Rattle.std.specs.Prelude.{◌≡◌, ◌<◌, ◌^◌, length, map, IfOk};
ghost use Rattle.zt_theorem_transcript.specs.Named.{HasNamedOptions};
ghost use Rattle.zt_laws.specs.Sound.{HasFirstIds};
ghost use Rattle.zt_model.specs.Transcript.{Each};
ghost use Rattle.zt_theorem_journal.specs.Alone.{Speaks};
ghost use Rattle.zt_workers.specs.Answers.{CarriesOut, answered};
ghost use Rattle.zt_plans.specs.Plans.{IsPlan, call_of, plan_lines};

use crate::answering::{Answer, all_refused, answer_journal, answer_makings};
use crate::making::make_faces;
use std::alloc::Global;
use std::sync::Wait;
use std::thread::Threads;
use zt_dealing::{Gate, journal_of};
use zt_keys::{Key, Memory};
use zt_plans::Plan;
use zt_protocol::CallError;

/// Carries out a plan: makes its gateway, opens its faces, and lets workers make its calls.
pub fn carry_out<R: Threads + Wait + Sync, K: Key + Send + Sync, G: Gate + Sync>(
    rt: &R,
    alloc: Global,
    plan: Plan<K>,
    workers: u32,
    gate: &G,
) -> Result<Vec<Answer<K>>, Memory>
    requires some { 0 < workers }
    requires form { IsPlan plan }
    requires small { length (plan_lines plan) < 2 ^ 31 }
    requires first { Each HasFirstIds (plan_lines plan) }
    requires named { Each HasNamedOptions (plan_lines plan) }
    requires speak { Each Speaks (map call_of plan.calls.items) }
    ensures { IfOk result (λ answers. CarriesOut K.cmp K.matching workers (plan_lines plan)
        (map answered answers.items)) }
{
    let Plan {
        gateway,
        makings,
        calls,
    } = plan;
    let mut gateway = match gateway.build::<K>() {
        Ok(gateway) => gateway,
        Err(CallError::Refused(refusal)) => {
            return all_refused(alloc, refusal, makings.as_slice(), calls.as_slice());
        }
        Err(CallError::Memory) => return Err(Memory),
    };
    let entries = make_faces(alloc, &mut gateway, makings.as_slice())?;
    let mut answers = answer_makings(alloc, entries)?;
    let (journal, lines) = journal_of(rt, alloc, gateway, calls, workers, gate)?;
    answer_journal(&mut answers, journal, lines.as_slice())?;
    Ok(answers)
}
