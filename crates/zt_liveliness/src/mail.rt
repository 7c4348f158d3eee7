// What becomes of the messages of a call.
ghost use Rattle.std.specs.Prelude.{◌≡◌, ◌+◌, ◌≤◌, ◌++◌, IfOk, OnOk, filter, is_some};
ghost use Rattle.std.specs.Prelude.{vec_capacity, vec_len};
ghost use Rattle.std.specs.List.{list_any};
ghost use Rattle.zt_gateway.specs.Running.{without_closed};
ghost use Rattle.zt_liveliness.specs.Mail.{is_awaited, news_in, news_in_all, told_after};
ghost use Rattle.zt_liveliness.specs.Mail.{told_after_all};
ghost use Rattle.zt_liveliness.specs.Queues.{answer_for};

use crate::books::{Books, Query, find_session};
use crate::queues::{append, is_answer};
use std::alloc::Global;
use zt_keys::{Key, Memory};
use zt_protocol::Message;
use zt_samples::{News, Told, copy_told, hear};

// What waits, the oldest first, and what sessions were told.
#[derive(Drop)]
pub(crate) struct Mail<K> {
    // Replies and messages for uplinks, each with the number of its face.
    pub waiting: Vec<(u32, Message<K>)>,
    pub told: Vec<Told<K>>,
    pub news: Vec<News<K>>,
}

// What the messages of a call come to: those that are to wait, what sessions were told after them,
// and the samples that they give.
#[derive(Drop)]
pub(crate) struct Delivery<K> {
    pub awaited: Vec<(u32, Message<K>)>,
    pub told: Vec<Told<K>>,
    pub news: Vec<News<K>>,
}

// Whether a message answers one of these queries.
fn answers_any<K>(message: &(u32, Message<K>), queries: &[Query]) -> bool
    ensures { result
        ≡ list_any (λ q. is_some (answer_for q.session q.id message.now)) queries.now }
{
    queries
        .iter()
        .any(|query| is_answer(message, query.session, query.id))
}

// Whether a message is for an uplink, or answers a query that is open.
fn is_awaited<K>(message: &(u32, Message<K>), books: &Books<K>) -> bool
    ensures { result
        ≡ is_awaited books.now.sessions.items books.now.queries.items message.now }
{
    match find_session(books.sessions.as_slice(), message.0) {
        None => true,
        Some(_) => answers_any(message, books.queries.as_slice()),
    }
}

// Of messages those that are to wait.
fn keep_awaited<K: Drop>(sent: &mut Vec<(u32, Message<K>)>, books: &Books<K>)
    ensures { sent.new.items
        ≡ filter (is_awaited books.now.sessions.items books.now.queries.items) sent.old.items }
{
    sent.retain(|message| is_awaited(message, books));
}

// Where the face of a message is a session's, the session is told the message, and its subscribers
// are given samples.
fn hear_one<K: Key>(
    alloc: Global,
    books: &Books<K>,
    message: &(u32, Message<K>),
    told: &mut Vec<Told<K>>,
    news: &mut Vec<News<K>>,
) -> Result<(), Memory>
    ensures told { OnOk result (told.new.items
        ≡ told_after K.cmp books.now.sessions.items message.now told.old.items) }
    ensures news { OnOk result (news.new.items ≡ news.old.items
        ++ news_in K.cmp K.matching books.now.sessions.items books.now.subscribers.items
        message.now told.old.items) }
{
    match find_session(books.sessions.as_slice(), message.0) {
        None => Ok(()),
        Some(_) => hear(
            alloc,
            books.subscribers.as_slice(),
            told,
            news,
            message.0,
            &message.1,
        ),
    }
}

// The sessions among the faces of these messages are told them, and their subscribers are given
// samples.
fn hear_all<K: Key>(
    alloc: Global,
    books: &Books<K>,
    sent: &[(u32, Message<K>)],
    told: &mut Vec<Told<K>>,
    news: &mut Vec<News<K>>,
) -> Result<(), Memory>
    ensures told { OnOk result (told.new.items
        ≡ told_after_all K.cmp books.now.sessions.items sent.now told.old.items) }
    ensures news { OnOk result (news.new.items ≡ news.old.items
        ++ news_in_all K.cmp K.matching books.now.sessions.items books.now.subscribers.items
        sent.now told.old.items) }
{
    for message in sent {
        hear_one(alloc, books, message, told, news)?;
    }
    Ok(())
}

// What the messages of a call come to.
pub(crate) fn delivery_of<K: Key>(
    alloc: Global,
    books: &Books<K>,
    before: &[Told<K>],
    sent: Vec<(u32, Message<K>)>,
) -> Result<Delivery<K>, Memory>
    ensures awaited { IfOk result (λ d. d.awaited.items
        ≡ filter (is_awaited books.now.sessions.items books.now.queries.items) sent.items) }
    ensures told { IfOk result (λ d. d.told.items
        ≡ told_after_all K.cmp books.now.sessions.items sent.items before.now) }
    ensures news { IfOk result (λ d. d.news.items
        ≡ news_in_all K.cmp K.matching books.now.sessions.items books.now.subscribers.items
        sent.items before.now) }
{
    let mut awaited = sent;
    let mut told = copy_told(alloc, before)?;
    let mut news = Vec::new(alloc);
    hear_all(alloc, books, awaited.as_slice(), &mut told, &mut news)?;
    keep_awaited(&mut awaited, books);
    Ok(Delivery {
        awaited,
        told,
        news,
    })
}

// Takes room for what a call comes to. After an error all stays as it was.
pub(crate) fn reserve<K: Drop>(mail: &mut Mail<K>, delivery: &Delivery<K>) -> Result<(), Memory>
    ensures waiting { mail.new.waiting.items ≡ mail.old.waiting.items }
    ensures told { mail.new.told.items ≡ mail.old.told.items }
    ensures news { mail.new.news.items ≡ mail.old.news.items }
    ensures room { OnOk result
        (vec_len mail.new.waiting + vec_len delivery.now.awaited ≤ vec_capacity mail.new.waiting) }
    ensures news_room { OnOk result
        (vec_len mail.new.news + vec_len delivery.now.news ≤ vec_capacity mail.new.news) }
{
    mail.waiting.reserve(delivery.awaited.len())?;
    mail.news.reserve(delivery.news.len())?;
    Ok(())
}

// Delivers what a call comes to, for which there is room: what is to wait waits behind what waits
// for faces but the closed one, and samples behind samples.
pub(crate) fn deliver<K: Drop>(mail: &mut Mail<K>, delivery: Delivery<K>, closed: Option<u32>)
    requires room { vec_len mail.old.waiting + vec_len delivery.awaited
        ≤ vec_capacity mail.old.waiting }
    requires news_room { vec_len mail.old.news + vec_len delivery.news
        ≤ vec_capacity mail.old.news }
    ensures waiting { mail.new.waiting.items
        ≡ without_closed closed mail.old.waiting.items ++ delivery.awaited.items }
    ensures told { mail.new.told.items ≡ delivery.told.items }
    ensures news { mail.new.news.items ≡ mail.old.news.items ++ delivery.news.items }
{
    let Delivery {
        awaited,
        told,
        news,
    } = delivery;
    append(&mut mail.waiting, awaited, closed);
    mail.told = told;
    append_news(&mut mail.news, news);
}

// Puts samples behind those that wait, for which there is room.
fn append_news<K: Drop>(waiting: &mut Vec<News<K>>, mut given: Vec<News<K>>)
    requires { vec_len waiting.old + vec_len given ≤ vec_capacity waiting.old }
    ensures { waiting.new.items ≡ waiting.old.items ++ given.items }
{
    let Ok(()) = waiting.append(&mut given) else {
        unreachable!()
    };
}
