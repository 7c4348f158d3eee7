// Sessions, uplinks and time, for C.
ghost use Rattle.std.specs.Prelude.{◌≡◌, None};
ghost use Rattle.zt_handle.specs.Opening.{Opens, closed_status};
ghost use Rattle.zt_liveliness.specs.Lively.{Close, Expire};
ghost use Rattle.zt_liveliness_c.specs.Handles.{Carries, OpensSession, OpensUplinkTo};

use std::alloc::Global;
use zt_engine::status::NOT_OPEN;
use zt_engine::{close_face, expire, open_session, open_uplink};
use zt_handle::{Handle, close, open};
use zt_keys::{Key, KeyExpr};

/// Makes an engine over a new gateway of this number and mode, for a handle that has none.
#[unsafe(no_mangle)]
pub extern "C" fn zl_open(
    alloc: Global,
    engine: &mut Handle,
    zid_high: u64,
    zid_low: u64,
    mode: u32,
    timeout: u64,
) -> u32
    ensures { Opens zid_high zid_low mode timeout engine.old.value engine.new.value
        result }
{
    open(alloc, engine, zid_high, zid_low, mode, timeout)
}

/// Frees the engine, where there is one.
#[unsafe(no_mangle)]
pub extern "C" fn zl_close(alloc: Global, engine: &mut Handle) -> u32
    ensures closed { engine.new.value ≡ None }
    ensures status { result ≡ closed_status engine.old.value }
{
    close(alloc, engine)
}

/// Opens a session, and gives its number.
#[unsafe(no_mangle)]
pub extern "C" fn zl_session_open(alloc: Global, engine: &mut Handle, session: &mut u32) -> u32
    ensures { OpensSession ⟦<KeyExpr as Ord>⟧.cmp ⟦<KeyExpr as Key>⟧.matching
        engine.old.value engine.new.value session.old session.new result }
{
    let Some(mut held) = engine.take(alloc) else {
        return NOT_OPEN;
    };
    let status = open_session(&mut held.liveliness, session);
    engine.put(alloc, held);
    status
}

/// Opens an uplink to the gateway of this number, mode and bound, and gives the uplink's number.
#[unsafe(no_mangle)]
pub extern "C" fn zl_uplink_open(
    alloc: Global,
    engine: &mut Handle,
    zid_high: u64,
    zid_low: u64,
    mode: u32,
    bound: u32,
    uplink: &mut u32,
) -> u32
    ensures { OpensUplinkTo ⟦<KeyExpr as Ord>⟧.cmp ⟦<KeyExpr as Key>⟧.matching
        zid_high zid_low mode bound engine.old.value engine.new.value uplink.old uplink.new result }
{
    let Some(mut held) = engine.take(alloc) else {
        return NOT_OPEN;
    };
    let status = open_uplink(&mut held.liveliness, zid_high, zid_low, mode, bound, uplink);
    engine.put(alloc, held);
    status
}

/// Closes a session or an uplink.
#[unsafe(no_mangle)]
pub extern "C" fn zl_face_close(alloc: Global, engine: &mut Handle, face: u32) -> u32
    ensures { Carries ⟦<KeyExpr as Ord>⟧.cmp ⟦<KeyExpr as Key>⟧.matching (Close face)
        engine.old.value engine.new.value result }
{
    let Some(mut held) = engine.take(alloc) else {
        return NOT_OPEN;
    };
    let status = close_face(&mut held.liveliness, face);
    engine.put(alloc, held);
    status
}

/// Sets the moment, and ends what has waited for the timeout.
#[unsafe(no_mangle)]
pub extern "C" fn zl_expire(alloc: Global, engine: &mut Handle, now: u64) -> u32
    ensures { Carries ⟦<KeyExpr as Ord>⟧.cmp ⟦<KeyExpr as Key>⟧.matching (Expire now)
        engine.old.value engine.new.value result }
{
    let Some(mut held) = engine.take(alloc) else {
        return NOT_OPEN;
    };
    let status = expire(&mut held.liveliness, now);
    engine.put(alloc, held);
    status
}
