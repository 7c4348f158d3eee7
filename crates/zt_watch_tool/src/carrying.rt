// A plan carried out by workers with a monitor beside them.
ghost use Rattle.std.specs.Prelude.{◌≡◌, ◌+◌, ◌<◌, ◌^◌, length, map, IfOk};
ghost use Rattle.zt_theorem_transcript.specs.Named.{HasNamedOptions};
ghost use Rattle.zt_laws.specs.Sound.{HasFirstIds};
ghost use Rattle.zt_model.specs.Transcript.{Each};
ghost use Rattle.zt_theorem_journal.specs.Alone.{Speaks};
ghost use Rattle.zt_plans.specs.Plans.{IsPlan, call_of, plan_lines};
ghost use Rattle.zt_watchers.specs.Text.{plain_poll};
ghost use Rattle.zt_workers.specs.Answers.{answered};
ghost use Rattle.zt_watch_tool.specs.Watching.{CarriesOut};

use std::alloc::Global;
use std::sync::Wait;
use std::thread::Threads;
use zt_dealing::Gate;
use zt_keys::{Key, Memory};
use zt_plans::Plan;
use zt_protocol::CallError;
use zt_watchers::{Poll, journal_beside};
use zt_workers::{Answer, all_refused, answer_journal, answer_makings, make_faces};

/// What the lines of a script and of a monitor came to, and the monitor's polls.
#[derive(Drop)]
pub struct Carried<K> {
    pub answers: Vec<Answer<K>>,
    pub polls: Vec<Poll<K>>,
}

/// Carries out a plan: makes its gateway, opens its faces, and lets workers make its calls beside a
/// monitor. Where the gateway is refused nobody works, and nothing is polled.
pub fn carry_out<R: Threads + Wait + Sync, K: Key + Send + Sync, G: Gate + Sync>(
    rt: &R,
    alloc: Global,
    plan: Plan<K>,
    workers: u32,
    wanted: u32,
    expr: Option<K>,
    gate: &G,
) -> Result<Carried<K>, Memory>
    requires some { 0 < workers }
    requires form { IsPlan plan }
    requires small { length (plan_lines plan) < 2 ^ 31 }
    requires first { Each HasFirstIds (plan_lines plan) }
    requires named { Each HasNamedOptions (plan_lines plan) }
    requires speak { Each Speaks (map call_of plan.calls.items) }
    ensures { IfOk result (λ carried. CarriesOut K.cmp K.matching workers (plan_lines plan)
        (wanted + 1) expr (map answered carried.answers.items)
        (map plain_poll carried.polls.items)) }
{
    let Plan {
        gateway,
        makings,
        calls,
    } = plan;
    let mut gateway = match gateway.build::<K>() {
        Ok(gateway) => gateway,
        Err(CallError::Refused(refusal)) => {
            let answers = all_refused(alloc, refusal, makings.as_slice(), calls.as_slice())?;
            return Ok(Carried {
                answers,
                polls: Vec::new(alloc),
            });
        }
        Err(CallError::Memory) => return Err(Memory),
    };
    let entries = make_faces(alloc, &mut gateway, makings.as_slice())?;
    let mut answers = answer_makings(alloc, entries)?;
    let watched = journal_beside(rt, alloc, gateway, calls, workers, wanted, expr, gate)?;
    answer_journal(&mut answers, watched.journal, watched.lines.as_slice())?;
    Ok(Carried {
        answers,
        polls: watched.polls,
    })
}
