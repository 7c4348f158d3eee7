// Lines dealt to workers, each with a pass of its own.
ghost use Rattle.std.specs.Prelude.{◌≡◌, ◌<◌, ◌++◌, [], ◌∷◌, map, vec_len, IfOk, OnOk};
ghost use Rattle.zt_laws.specs.Sound.{EachFrom};
ghost use Rattle.zt_model.specs.Fabric.{call_face};
ghost use Rattle.zt_protocol.specs.Plain.{plain_call};
ghost use Rattle.zt_theorem_journal.specs.Dealt.{worker_of};
ghost use Rattle.zt_dealing.specs.Dealing.{HasMade, HaveFirstIds, IsJob, apart, part};
ghost use Rattle.zt_plans.specs.Plans.{numbered};

use std::alloc::Global;
use zt_keys::{Key, Memory};
use zt_plans::Numbered;
use zt_protocol::Call;
use zt_shared::{Pass, SharedGateway};

/// What a worker is to do: the calls, in order, by its pass.
#[derive(Drop)]
pub struct Job<K: Key> {
    pub pass: Pass<K>,
    pub calls: Vec<Numbered<K>>,
}

// The face that a call speaks for or closes.
fn call_face<K>(call: &Call<K>) -> Option<u32>
    ensures { result ≡ call_face (plain_call call.now) }
{
    match call {
        Call::DeclareToken { face, .. }
        | Call::UndeclareToken { face, .. }
        | Call::Interest { face, .. }
        | Call::InterestFinal { face, .. }
        | Call::DeclareFinal { face, .. }
        | Call::CloseFace { face }
        | Call::SetEntities { face, .. } => Some(*face),
        Call::NewSession { .. }
        | Call::NewTransport { .. }
        | Call::Expire { .. }
        | Call::SetTrees { .. } => None,
    }
}

// The number of the worker of a call.
fn worker_of<K>(workers: u32, call: &Call<K>) -> u32
    requires { 0 < workers }
    ensures { result ≡ worker_of workers (plain_call call.now) }
{
    call_face(call).unwrap_or(0) % workers
}

// Adds the call to those of the worker, or to the others.
fn put<K: Key>(
    own: &mut Vec<Numbered<K>>,
    others: &mut Vec<Numbered<K>>,
    workers: u32,
    worker: u32,
    one: Numbered<K>,
) -> Result<(), Memory>
    requires { 0 < workers }
    ensures own { OnOk result (map numbered own.new.items
        ≡ map numbered own.old.items ++ part workers worker (numbered one ∷ [])) }
    ensures others { OnOk result (map numbered others.new.items
        ≡ map numbered others.old.items ++ apart workers worker (numbered one ∷ [])) }
{
    if worker_of(workers, &one.call) == worker {
        own.push(one)?;
    } else {
        others.push(one)?;
    }
    Ok(())
}

// The calls of one worker, and the others.
fn part_of<K: Key>(
    alloc: Global,
    workers: u32,
    worker: u32,
    calls: Vec<Numbered<K>>,
) -> Result<(Vec<Numbered<K>>, Vec<Numbered<K>>), Memory>
    requires { 0 < workers }
    ensures own { IfOk result (λ parts. map numbered parts.0.items
        ≡ part workers worker (map numbered calls.items)) }
    ensures others { IfOk result (λ parts. map numbered parts.1.items
        ≡ apart workers worker (map numbered calls.items)) }
{
    let mut own = Vec::new(alloc);
    let mut others = Vec::new(alloc);
    for one in calls {
        put(&mut own, &mut others, workers, worker, one)?;
    }
    Ok((own, others))
}

/// Deals the calls to as many workers, each of which has a pass of its own. The only error is want
/// of memory.
pub fn deal<K: Key>(
    alloc: Global,
    shared: &SharedGateway<K>,
    first: Pass<K>,
    workers: u32,
    calls: Vec<Numbered<K>>,
) -> Result<Vec<Job<K>>, Memory>
    requires some { 0 < workers }
    requires fresh { HasMade shared.now first.opening 0 [] first }
    requires begins { first.opening.entries ≡ [] }
    requires first_ids { HaveFirstIds (map numbered calls.items) }
    ensures jobs { IfOk result (λ jobs. EachFrom
        (IsJob shared.now first.opening workers (map numbered calls.items)) 0 jobs.items) }
    ensures len { IfOk result (λ jobs. vec_len jobs ≡ workers) }
{
    let mut jobs = Vec::new(alloc);
    let mut pass = first;
    let mut rest = calls;
    for worker in 0..workers - 1 {
        let Ok(next) = shared.pass(&mut pass) else {
            return Err(Memory);
        };
        let (own, others) = part_of(alloc, workers, worker, rest)?;
        jobs.push(Job { pass, calls: own })?;
        pass = next;
        rest = others;
    }
    jobs.push(Job { pass, calls: rest })?;
    Ok(jobs)
}
