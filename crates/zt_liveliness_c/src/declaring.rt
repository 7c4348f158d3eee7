// Tokens, queries and subscribers, for C.
ghost use Rattle.std.specs.Prelude.{◌==◌, not};
ghost use Rattle.zt_liveliness.specs.Lively.{UndeclareSubscriber, UndeclareToken};
ghost use Rattle.zt_liveliness_c.specs.Handles.{Asks, Carries, DeclaresToken, Subscribes};

use std::alloc::Global;
use zt_engine::status::NOT_OPEN;
use zt_engine::{declare_subscriber, declare_token, get, undeclare_subscriber, undeclare_token};
use zt_handle::Handle;
use zt_keys::{Key, KeyExpr};

/// Declares a token of a session, and gives its id.
#[unsafe(no_mangle)]
pub extern "C" fn zl_liveliness_declare_token(
    alloc: Global,
    engine: &mut Handle,
    session: u32,
    key: &[u8],
    token: &mut u32,
) -> u32
    ensures { DeclaresToken ⟦<KeyExpr as Ord>⟧.cmp ⟦<KeyExpr as Key>⟧.matching
        ⟦<KeyExpr as Key>⟧.reading session key.now engine.old.value engine.new.value token.old
        token.new result }
{
    let Some(mut held) = engine.take(alloc) else {
        return NOT_OPEN;
    };
    let status = declare_token(alloc, &mut held.liveliness, session, key, token);
    engine.put(alloc, held);
    status
}

/// Undeclares a token of a session.
#[unsafe(no_mangle)]
pub extern "C" fn zl_liveliness_undeclare_token(
    alloc: Global,
    engine: &mut Handle,
    session: u32,
    token: u32,
) -> u32
    ensures { Carries ⟦<KeyExpr as Ord>⟧.cmp ⟦<KeyExpr as Key>⟧.matching
        (UndeclareToken session token) engine.old.value engine.new.value result }
{
    let Some(mut held) = engine.take(alloc) else {
        return NOT_OPEN;
    };
    let status = undeclare_token(&mut held.liveliness, session, token);
    engine.put(alloc, held);
    status
}

/// Asks which tokens are there that match a key, and gives the id of the query.
#[unsafe(no_mangle)]
pub extern "C" fn zl_liveliness_get(
    alloc: Global,
    engine: &mut Handle,
    session: u32,
    key: &[u8],
    query: &mut u32,
) -> u32
    ensures { Asks ⟦<KeyExpr as Ord>⟧.cmp ⟦<KeyExpr as Key>⟧.matching
        ⟦<KeyExpr as Key>⟧.reading session key.now engine.old.value engine.new.value query.old
        query.new result }
{
    let Some(mut held) = engine.take(alloc) else {
        return NOT_OPEN;
    };
    let status = get(alloc, &mut held.liveliness, session, key, query);
    engine.put(alloc, held);
    status
}

/// Declares a subscriber of a session to the tokens that match a key, and gives its id. It begins
/// with the tokens that are there unless `history` is 0.
#[unsafe(no_mangle)]
pub extern "C" fn zl_liveliness_declare_subscriber(
    alloc: Global,
    engine: &mut Handle,
    session: u32,
    key: &[u8],
    history: u32,
    subscriber: &mut u32,
) -> u32
    ensures { Subscribes ⟦<KeyExpr as Ord>⟧.cmp ⟦<KeyExpr as Key>⟧.matching
        ⟦<KeyExpr as Key>⟧.reading session key.now (not (history == 0)) engine.old.value
        engine.new.value subscriber.old subscriber.new result }
{
    let Some(mut held) = engine.take(alloc) else {
        return NOT_OPEN;
    };
    let status = declare_subscriber(
        alloc,
        &mut held.liveliness,
        session,
        key,
        history != 0,
        subscriber,
    );
    engine.put(alloc, held);
    status
}

/// Undeclares a subscriber of a session.
#[unsafe(no_mangle)]
pub extern "C" fn zl_undeclare_subscriber(
    alloc: Global,
    engine: &mut Handle,
    session: u32,
    subscriber: u32,
) -> u32
    ensures { Carries ⟦<KeyExpr as Ord>⟧.cmp ⟦<KeyExpr as Key>⟧.matching
        (UndeclareSubscriber session subscriber) engine.old.value engine.new.value result }
{
    let Some(mut held) = engine.take(alloc) else {
        return NOT_OPEN;
    };
    let status = undeclare_subscriber(&mut held.liveliness, session, subscriber);
    engine.put(alloc, held);
    status
}
