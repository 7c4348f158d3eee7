//! What a monitor beside another pass is told.
ghost use Rattle.std.specs.Prelude.{◌≡◌, ◌≤◌, OnOk};
ghost use Rattle.zt_laws.specs.Sound.{CallHasFirstIds};
ghost use Rattle.zt_protocol.specs.Plain.{plain_call};

use crate::sharing::{declare, opened};
use std::alloc::Global;
use std::sync::Wait;
use std::test::Fail;
use zt_keys::{Key, KeyExpr};
use zt_presence::{Change, Monitor, PresenceError};
use zt_protocol::{Call, Refusal};
use zt_shared::{Pass, SharedGateway};

// Makes the call, after which the pass is one of the gateway as before.
fn call<R: Wait>(
    rt: &R,
    shared: &SharedGateway<KeyExpr>,
    pass: &mut Pass<KeyExpr>,
    call: Call<KeyExpr>,
) -> Result<(), Fail>
    requires own { pass.old.table ≡ shared.now }
    requires first { CallHasFirstIds (plain_call call) }
    ensures { OnOk result (pass.new.table ≡ shared.now) }
{
    shared.call(rt, pass, call)?;
    Ok(())
}

// The face's token with the id 1 is gone.
fn undeclare(face: u32) -> Call<KeyExpr>
    ensures { CallHasFirstIds (plain_call result) }
{
    Call::UndeclareToken {
        face,
        id: 1,
        expr: None,
        node_id: 0,
    }
}

// Polls, after which the next poll may be made.
fn poll<R: Wait>(
    rt: &R,
    alloc: Global,
    shared: &SharedGateway<KeyExpr>,
    monitor: &mut Monitor<KeyExpr>,
    pass: &mut Pass<KeyExpr>,
) -> Result<Change<KeyExpr>, PresenceError>
    requires own { pass.old.table ≡ shared.now }
    requires seen { monitor.old.next_place ≤ pass.old.seen }
    ensures own { pass.new.table ≡ shared.now }
    ensures seen { monitor.new.next_place ≤ pass.new.seen }
{
    monitor.poll(rt, alloc, shared, pass)
}

// Whether the change has this place, and the key `k` as often as said among what joined and left.
fn is_change(
    alloc: Global,
    change: Result<Change<KeyExpr>, PresenceError>,
    place: u64,
    joined: bool,
    left: bool,
) -> Result<bool, Fail> {
    let key = KeyExpr::read(alloc, "k")?;
    let Ok(change) = change else {
        return Ok(false);
    };
    Ok(
        change.place == place
            && are(change.joined.as_slice(), joined, &key)
            && are(change.left.as_slice(), left, &key),
    )
}

// Whether the keys are this one, or none.
fn are(keys: &[KeyExpr], some: bool, key: &KeyExpr) -> bool {
    match keys {
        [] => !some,
        [one] => some && one == key,
        _ => false,
    }
}

#[test]
fn a_monitor_follows_a_token(rt: HostRuntime) -> Result<(), Fail> {
    let alloc = rt.alloc();
    let (shared, mut other) = opened(alloc)?;
    call(&rt, &shared, &mut other, Call::NewSession { first: 1 })?;
    call(&rt, &shared, &mut other, Call::NewSession { first: 1 })?;
    let mut pass = shared.pass(&mut other)?;
    let Ok(mut monitor) = Monitor::open(&rt, alloc, &shared, &mut pass, None) else {
        return Err("the session is refused".into());
    };
    assert!(rt; (monitor.face(), monitor.polls(), monitor.next_place()) == (3, 0, 3));
    call(&rt, &shared, &mut other, declare(alloc, 1)?)?;
    let change = poll(&rt, alloc, &shared, &mut monitor, &mut pass);
    assert!(rt; is_change(alloc, change, 4, true, false)?);
    call(&rt, &shared, &mut other, declare(alloc, 2)?)?;
    let change = poll(&rt, alloc, &shared, &mut monitor, &mut pass);
    assert!(rt; is_change(alloc, change, 6, false, false)?);
    assert!(rt; monitor.table().len() == 1);
    call(&rt, &shared, &mut other, undeclare(1))?;
    call(&rt, &shared, &mut other, undeclare(2))?;
    let change = poll(&rt, alloc, &shared, &mut monitor, &mut pass);
    assert!(rt; is_change(alloc, change, 9, false, true)?);
    call(&rt, &shared, &mut other, Call::CloseFace { face: 3 })?;
    let change = poll(&rt, alloc, &shared, &mut monitor, &mut pass);
    let refused = PresenceError::Refused {
        place: 11,
        refusal: Refusal::UnknownFace,
    };
    assert!(rt; matches!(&change, Err(error) if *error == refused));
    assert!(rt; (monitor.polls(), monitor.next_place(), monitor.table().len()) == (4, 12, 0));
    Ok(())
}
