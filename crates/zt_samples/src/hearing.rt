// What a message to a session changes: what the session was told, and what its subscribers are
// given.
ghost use Rattle.std.specs.Prelude.{◌≡◌, ◌==◌, ◌&&◌, ◌||◌, ◌++◌, ◌∷◌, [], IfOk, OnOk, not};
ghost use Rattle.zt_samples.specs.Samples.{gives, gone_news, keeps_beside, keeps_told, news_by};
ghost use Rattle.zt_samples.specs.Samples.{news_of, sample_of, started, told_by, with_told};
ghost use Rattle.zt_samples.specs.Samples.{has_told, news_of_gone, news_of_token, without_told};
ghost use Rattle.zt_samples.specs.Samples.{without_told_expr, without_told_id};

use crate::samples::{News, Sample, Subscriber, Told};
use std::alloc::Global;
use zt_keys::{Key, Memory};
use zt_protocol::Message;

/// A copy of what sessions were told.
pub fn copy_told<K: Key>(alloc: Global, told: &[Told<K>]) -> Result<Vec<Told<K>>, Memory>
    ensures { IfOk result (λ copy. copy.items ≡ told.now) }
{
    let mut copies = Vec::new(alloc);
    for row in told {
        copies.push(Told {
            session: row.session,
            id: row.id,
            expr: row.expr.copy(alloc)?,
        })?;
    }
    Ok(copies)
}

// Whether the session was told the pair of an id and an expression.
fn has_told<K: Key>(told: &[Told<K>], session: u32, id: u32, expr: &K) -> bool
    ensures { result ≡ has_told K.cmp session id expr.now told.now }
{
    told.iter().any(|row| session == row.session && (id == row.id && *expr == row.expr))
}

// Whether the session keeps an expression.
fn keeps_told<K: Key>(told: &[Told<K>], session: u32, expr: &K) -> bool
    ensures { result ≡ keeps_told K.cmp session expr.now told.now }
{
    told.iter()
        .any(|row| session == row.session && *expr == row.expr)
}

// Whether the session keeps an expression under another id too.
fn keeps_beside<K: Key>(told: &[Told<K>], session: u32, id: u32, expr: &K) -> bool
    ensures { result ≡ keeps_beside K.cmp session id expr.now told.now }
{
    told.iter().any(|row| session == row.session && (id != row.id && *expr == row.expr))
}

// Whether a subscriber is given what is said of an expression to a session, by whether that alters
// what the session keeps.
fn gives<K: Key>(subscriber: &Subscriber<K>, session: u32, expr: &K, alters: bool) -> bool
    ensures { result ≡ gives K.matching session expr.now alters subscriber.now }
{
    session == subscriber.session
        && subscriber.expr.matches(expr)
        && (!subscriber.history || alters)
}

// Adds a sample for a subscriber.
fn add_news<K: Key>(
    alloc: Global,
    news: &mut Vec<News<K>>,
    session: u32,
    subscriber: u32,
    is_put: bool,
    expr: &K,
) -> Result<(), Memory>
    ensures { OnOk result (news.new.items ≡ news.old.items
        ++ record {
          session = session;
          subscriber = subscriber;
          sample = sample_of is_put expr.now;
        } ∷ []) }
{
    let expr = expr.copy(alloc)?;
    let sample = if is_put {
        Sample::Put(expr)
    } else {
        Sample::Delete(expr)
    };
    news.push(News {
        session,
        subscriber,
        sample,
    })?;
    Ok(())
}

// Each subscriber that is given what is said of an expression is given it.
fn give<K: Key>(
    alloc: Global,
    subscribers: &[Subscriber<K>],
    news: &mut Vec<News<K>>,
    session: u32,
    is_put: bool,
    expr: &K,
    alters: bool,
) -> Result<(), Memory>
    ensures { OnOk result (news.new.items ≡ news.old.items
        ++ news_of K.matching session is_put expr.now alters subscribers.now) }
{
    for subscriber in subscribers {
        if gives(subscriber, session, expr, alters) {
            add_news(alloc, news, session, subscriber.id, is_put, expr)?;
        }
    }
    Ok(())
}

// What subscribers are given when the tokens that a session was told under an id are gone.
fn give_gone<K: Key>(
    alloc: Global,
    subscribers: &[Subscriber<K>],
    told: &[Told<K>],
    news: &mut Vec<News<K>>,
    session: u32,
    id: u32,
) -> Result<(), Memory>
    ensures { OnOk result (news.new.items ≡ news.old.items
        ++ gone_news K.cmp K.matching session id subscribers.now told.now told.now) }
{
    for row in told {
        if session == row.session && id == row.id {
            let alters = !keeps_beside(told, session, id, &row.expr);
            give(alloc, subscribers, news, session, false, &row.expr, alters)?;
        }
    }
    Ok(())
}

// A session is told a token.
fn tell<K: Key>(
    alloc: Global,
    told: &mut Vec<Told<K>>,
    session: u32,
    id: u32,
    expr: &K,
) -> Result<(), Memory>
    ensures { OnOk result
        (told.new.items ≡ with_told K.cmp session id expr.now told.old.items) }
{
    if id == 0 || has_told(told.as_slice(), session, id, expr) {
        return Ok(());
    }
    told.push(Told {
        session,
        id,
        expr: expr.copy(alloc)?,
    })?;
    Ok(())
}

// A session is told that an id's tokens are gone.
fn untell_id<K: Key>(told: &mut Vec<Told<K>>, session: u32, id: u32)
    ensures { told.new.items ≡ without_told_id session id told.old.items }
{
    told.retain(|row| !(session == row.session && id == row.id));
}

// A session is told that an expression's tokens are gone.
fn untell_expr<K: Key>(told: &mut Vec<Told<K>>, session: u32, expr: &K)
    ensures { told.new.items ≡ without_told_expr K.cmp session expr.now told.old.items }
{
    told.retain(|row| !(session == row.session && *expr == row.expr));
}

// A declaration comes to a session.
fn hear_token<K: Key>(
    alloc: Global,
    subscribers: &[Subscriber<K>],
    told: &mut Vec<Told<K>>,
    news: &mut Vec<News<K>>,
    session: u32,
    id: u32,
    expr: &K,
) -> Result<(), Memory>
    ensures told { OnOk result
        (told.new.items ≡ with_told K.cmp session id expr.now told.old.items) }
    ensures news { OnOk result (news.new.items ≡ news.old.items
        ++ news_of_token K.cmp K.matching session id expr.now subscribers.now told.old.items) }
{
    if id != 0 && !keeps_told(told.as_slice(), session, expr) {
        give(alloc, subscribers, news, session, true, expr, true)?;
    }
    tell(alloc, told, session, id, expr)
}

// An undeclaration comes to a session.
fn hear_gone<K: Key>(
    alloc: Global,
    subscribers: &[Subscriber<K>],
    told: &mut Vec<Told<K>>,
    news: &mut Vec<News<K>>,
    session: u32,
    id: u32,
    expr: &Option<K>,
) -> Result<(), Memory>
    ensures told { OnOk result
        (told.new.items ≡ without_told K.cmp session id expr.now told.old.items) }
    ensures news { OnOk result (news.new.items ≡ news.old.items
        ++ news_of_gone K.cmp K.matching session id expr.now subscribers.now told.old.items) }
{
    match expr {
        None => {
            give_gone(alloc, subscribers, told.as_slice(), news, session, id)?;
            untell_id(told, session, id);
        }
        Some(expr) => {
            let alters = keeps_told(told.as_slice(), session, expr);
            give(alloc, subscribers, news, session, false, expr, alters)?;
            untell_expr(told, session, expr);
        }
    }
    Ok(())
}

/// A message comes to a session: what the session was told changes, and its subscribers are given
/// samples, behind those that wait. After an error both may have changed.
pub fn hear<K: Key>(
    alloc: Global,
    subscribers: &[Subscriber<K>],
    told: &mut Vec<Told<K>>,
    news: &mut Vec<News<K>>,
    session: u32,
    message: &Message<K>,
) -> Result<(), Memory>
    ensures told { OnOk result
        (told.new.items ≡ told_by K.cmp session message.now told.old.items) }
    ensures news { OnOk result (news.new.items ≡ news.old.items
        ++ news_by K.cmp K.matching subscribers.now session message.now told.old.items) }
{
    match message {
        Message::DeclareToken { id, expr, .. } => {
            hear_token(alloc, subscribers, told, news, session, *id, expr)
        }
        Message::UndeclareToken { id, expr, .. } => {
            hear_gone(alloc, subscribers, told, news, session, *id, expr)
        }
        _ => Ok(()),
    }
}

/// What a new subscriber is given first: with history, each token that its session keeps and that
/// matches.
pub fn begin<K: Key>(
    alloc: Global,
    told: &[Told<K>],
    session: u32,
    id: u32,
    expr: &K,
    history: bool,
) -> Result<Vec<News<K>>, Memory>
    ensures { IfOk result (λ news. news.items
        ≡ started K.matching session id expr.now history told.now) }
{
    let mut news = Vec::new(alloc);
    for row in told {
        if session == row.session && history && expr.matches(&row.expr) {
            add_news(alloc, &mut news, session, id, true, &row.expr)?;
        }
    }
    Ok(news)
}
