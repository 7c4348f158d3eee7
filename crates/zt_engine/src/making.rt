// Calls that take a key and answer an id.
ghost use Rattle.std.specs.Prelude.{◌≡◌, ◌+◌};
ghost use Rattle.zt_engine.specs.Answers.{Makes, MakesOf};
ghost use Rattle.zt_liveliness.specs.Lively.{DeclareSubscriber, DeclareToken, Get};
ghost use Rattle.zt_liveliness.specs.Lively.{interests_made, tokens_made};

use crate::keys::key_in;
use crate::status::{DONE, status_of};
use std::alloc::Global;
use zt_keys::Key;
use zt_liveliness::Liveliness;

fn declare_token_of<K: Key>(
    engine: &mut Liveliness<K>,
    session: u32,
    key: &K,
    token: &mut u32,
) -> u32
    ensures { Makes K.cmp K.matching (DeclareToken session key.now)
        (tokens_made session engine.old + 1) engine.old engine.new token.old token.new result }
{
    match engine.declare_token(session, key) {
        Ok(made) => {
            *token = made.id;
            DONE
        }
        Err(error) => status_of(error),
    }
}

/// Declares a token of a session. `token` is set to its id. The status is `DONE`, `BAD_KEY`,
/// `NO_SUCH_FACE`, `SPENT`, `OUT_OF_MEMORY`, or `REFUSED` and the number of the refusal.
pub fn declare_token<K: Key>(
    alloc: Global,
    engine: &mut Liveliness<K>,
    session: u32,
    key: &[u8],
    token: &mut u32,
) -> u32
    ensures { MakesOf K.cmp K.matching K.reading (DeclareToken session)
        (tokens_made session engine.old + 1) key.now engine.old engine.new token.old token.new
        result }
{
    match key_in(alloc, key) {
        Ok(key) => declare_token_of(engine, session, &key, token),
        Err(status) => status,
    }
}

fn get_of<K: Key>(engine: &mut Liveliness<K>, session: u32, key: &K, get: &mut u32) -> u32
    ensures { Makes K.cmp K.matching (Get session key.now)
        (interests_made session engine.old + 1) engine.old engine.new get.old get.new result }
{
    match engine.get(session, key) {
        Ok(made) => {
            *get = made;
            DONE
        }
        Err(error) => status_of(error),
    }
}

/// Asks which tokens are there that match a key. `get` is set to the id of the query. The statuses
/// are those of `declare_token`.
pub fn get<K: Key>(
    alloc: Global,
    engine: &mut Liveliness<K>,
    session: u32,
    key: &[u8],
    get: &mut u32,
) -> u32
    ensures { MakesOf K.cmp K.matching K.reading (Get session)
        (interests_made session engine.old + 1) key.now engine.old engine.new get.old get.new
        result }
{
    match key_in(alloc, key) {
        Ok(key) => get_of(engine, session, &key, get),
        Err(status) => status,
    }
}

fn declare_subscriber_of<K: Key>(
    engine: &mut Liveliness<K>,
    session: u32,
    key: &K,
    history: bool,
    subscriber: &mut u32,
) -> u32
    ensures { Makes K.cmp K.matching (DeclareSubscriber session key.now history)
        (interests_made session engine.old + 1) engine.old engine.new subscriber.old subscriber.new
        result }
{
    match engine.declare_subscriber(session, key, history) {
        Ok(made) => {
            *subscriber = made;
            DONE
        }
        Err(error) => status_of(error),
    }
}

/// Declares a subscriber of a session, with history or without. `subscriber` is set to its id. The
/// statuses are those of `declare_token`.
pub fn declare_subscriber<K: Key>(
    alloc: Global,
    engine: &mut Liveliness<K>,
    session: u32,
    key: &[u8],
    history: bool,
    subscriber: &mut u32,
) -> u32
    ensures { MakesOf K.cmp K.matching K.reading (λ key. DeclareSubscriber session key history)
        (interests_made session engine.old + 1) key.now engine.old engine.new subscriber.old
        subscriber.new result }
{
    match key_in(alloc, key) {
        Ok(key) => declare_subscriber_of(engine, session, &key, history, subscriber),
        Err(status) => status,
    }
}
