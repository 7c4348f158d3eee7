// How handles get an engine, and lose it. All that owns an engine is here and in the module of
// handles, so that no crate above frees one.
ghost use Rattle.std.specs.Prelude.{◌≡◌, IfErr, IfOk, None};
ghost use Rattle.zt_engine.specs.Numbers.{IsMade, IsNotMade};
ghost use Rattle.zt_handle.specs.Opening.{Opens, closed_status};

use crate::handle::Handle;
use std::alloc::Global;
use zt_engine::status::{ALREADY_OPEN, BAD_ARGUMENT, DONE, NOT_OPEN, OUT_OF_MEMORY};
use zt_engine::{Engine, new_liveliness};

// An engine in memory of its own, over a new gateway.
fn new_engine(
    alloc: Global,
    zid_high: u64,
    zid_low: u64,
    mode: u32,
    timeout: u64,
) -> Result<Box<Engine>, u32>
    ensures made { IfOk result (λ made. IsMade zid_high zid_low mode timeout
        made.value.liveliness) }
    ensures not_made { IfErr result (IsNotMade zid_high zid_low mode) }
{
    let Some(liveliness) = new_liveliness(alloc, zid_high, zid_low, mode, timeout) else {
        return Err(BAD_ARGUMENT);
    };
    match Box::new(alloc, Engine { liveliness }) {
        Ok(boxed) => Ok(boxed),
        Err(_) => Err(OUT_OF_MEMORY),
    }
}

// Makes an engine for a handle that has none.
fn open_closed(
    alloc: Global,
    handle: &mut Handle,
    zid_high: u64,
    zid_low: u64,
    mode: u32,
    timeout: u64,
) -> u32
    requires { handle.old.value ≡ None }
    ensures { Opens zid_high zid_low mode timeout handle.old.value handle.new.value result }
{
    match new_engine(alloc, zid_high, zid_low, mode, timeout) {
        Ok(made) => {
            handle.put(alloc, made);
            DONE
        }
        Err(status) => status,
    }
}

/// Makes an engine over a new gateway of this number and mode, for a handle that has none. Answers
/// the status: `DONE`, `ALREADY_OPEN`, `BAD_ARGUMENT` where no gateway has these numbers, or
/// `OUT_OF_MEMORY`.
pub fn open(
    alloc: Global,
    handle: &mut Handle,
    zid_high: u64,
    zid_low: u64,
    mode: u32,
    timeout: u64,
) -> u32
    ensures { Opens zid_high zid_low mode timeout handle.old.value handle.new.value result }
{
    match handle.take(alloc) {
        Some(held) => {
            handle.put(alloc, held);
            ALREADY_OPEN
        }
        None => open_closed(alloc, handle, zid_high, zid_low, mode, timeout),
    }
}

/// Frees the engine, where there is one, and answers the status: `DONE` or `NOT_OPEN`.
pub fn close(alloc: Global, handle: &mut Handle) -> u32
    ensures closed { handle.new.value ≡ None }
    ensures status { result ≡ closed_status handle.old.value }
{
    match handle.take(alloc) {
        Some(_) => DONE,
        None => NOT_OPEN,
    }
}
