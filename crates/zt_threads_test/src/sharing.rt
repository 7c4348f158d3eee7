//! Two passes that call one gateway.
ghost use Rattle.std.specs.Prelude.{◌≡◌, IfOk, OnOk};
ghost use Rattle.std.specs.List.{AllByRecursion};
ghost use Rattle.zt_laws.specs.Sound.{CallHasFirstIds};
ghost use Rattle.zt_protocol.specs.Plain.{plain_call};

use std::alloc::Global;
use std::sync::Wait;
use std::test::Fail;
use zt_gateway::GatewayBuilder;
use zt_keys::{Key, KeyError, KeyExpr, Memory};
use zt_protocol::{Call, Refusal};
use zt_region::{WhatAmI, Zid};
use zt_shared::{CloseError, Journal, JournalEntry, Pass, Receipt, SharedGateway};

// A gateway of a client without faces, shared, and its first pass.
pub fn opened(alloc: Global) -> Result<(SharedGateway<KeyExpr>, Pass<KeyExpr>), Fail>
    ensures { IfOk result (λ made. made.1.table ≡ made.0) }
{
    let gateway = GatewayBuilder::new(alloc, WhatAmI::Client, Zid(1)).build::<KeyExpr>()?;
    Ok(SharedGateway::new(alloc, gateway)?)
}

// The face declares the key `k` with the id 1.
pub fn declare(alloc: Global, face: u32) -> Result<Call<KeyExpr>, KeyError>
    ensures { IfOk result (λ call. CallHasFirstIds (plain_call call)) }
{
    Ok(Call::DeclareToken {
        face,
        id: 1,
        expr: KeyExpr::read(alloc, "k")?,
        node_id: 0,
        interest_id: None,
    })
}

// Makes the call, after which the pass is one of the gateway as before.
fn called<R: Wait>(
    rt: &R,
    shared: &SharedGateway<KeyExpr>,
    pass: &mut Pass<KeyExpr>,
    call: Call<KeyExpr>,
) -> Result<Receipt, Fail>
    requires own { pass.old.table ≡ shared.now }
    requires first { CallHasFirstIds (plain_call call) }
    ensures { OnOk result (pass.new.table ≡ shared.now) }
{
    let receipt = shared.call(rt, pass, call)?;
    Ok(receipt)
}

// Reads the entry, after which the pass is one of the gateway as before.
fn entry<R: Wait>(
    rt: &R,
    alloc: Global,
    shared: &SharedGateway<KeyExpr>,
    pass: &mut Pass<KeyExpr>,
    place: u64,
) -> Result<Option<JournalEntry<KeyExpr>>, Memory>
    requires { pass.old.table ≡ shared.now }
    ensures { pass.new.table ≡ shared.now }
{
    shared.read_entry(rt, alloc, pass, place)
}

// What comes back where one pass is handed in and another is missing.
fn refused(
    alloc: Global,
    shared: SharedGateway<KeyExpr>,
    pass: Pass<KeyExpr>,
) -> Result<CloseError<KeyExpr>, Fail>
    requires { pass.table ≡ shared }
    ensures same { IfOk result (λ error. error.shared ≡ shared) }
    ensures own { IfOk result (λ error.
        AllByRecursion (λ pass. pass.table ≡ error.shared) error.passes.items) }
{
    let mut passes = Vec::new(alloc);
    passes.push(pass)?;
    match shared.close(passes) {
        Ok(_) => Err("a pass is missing".into()),
        Err(error) => Ok(error),
    }
}

// The journal, where this is the pass that was missing.
fn closed(error: CloseError<KeyExpr>, missing: Pass<KeyExpr>) -> Result<Journal<KeyExpr>, Fail>
    requires one { missing.table ≡ error.shared }
    requires own { AllByRecursion (λ pass. pass.table ≡ error.shared) error.passes.items }
{
    let CloseError {
        made: _,
        handed: _,
        shared,
        mut passes,
    } = error;
    passes.push(missing)?;
    match shared.close(passes) {
        Ok(journal) => Ok(journal),
        Err(_) => Err("no pass is missing".into()),
    }
}

// The receipt of the entry at the place.
fn receipt(place: u64, answer: Result<Option<u32>, Refusal>) -> Receipt {
    Receipt { place, answer }
}

#[test]
fn two_passes_call_one_gateway(rt: HostRuntime) -> Result<(), Fail> {
    let alloc = rt.alloc();
    let (shared, mut first) = opened(alloc)?;
    let session = called(&rt, &shared, &mut first, Call::NewSession { first: 1 })?;
    assert!(rt; session == receipt(0, Ok(Some(1))));
    let token = called(&rt, &shared, &mut first, declare(alloc, 1)?)?;
    assert!(rt; token == receipt(1, Ok(None)));
    let mut second = shared.pass(&mut first)?;
    assert!(rt; second.number() == 1);
    assert!(rt; shared.front(&mut second) == 2);
    let unknown = called(&rt, &shared, &mut second, declare(alloc, 9)?)?;
    assert!(rt; unknown == receipt(2, Err(Refusal::UnknownFace)));
    let none = entry(&rt, alloc, &shared, &mut first, 3)?;
    assert!(rt; none.is_none());
    let copy = entry(&rt, alloc, &shared, &mut first, 2)?;
    let made_by_second = JournalEntry {
        pass: 1,
        call: declare(alloc, 9)?,
        made: None,
        outcome: Err(Refusal::UnknownFace),
    };
    assert!(rt; copy == Some(made_by_second));
    let error = refused(alloc, shared, first)?;
    assert!(rt; (error.made, error.handed) == (2, 1));
    let journal = closed(error, second)?;
    let mut numbers = Vec::new(alloc);
    for made in &journal.entries {
        numbers.push(made.pass)?;
    }
    assert!(rt; numbers.as_slice() == [0, 0, 1].as_slice());
    Ok(())
}
