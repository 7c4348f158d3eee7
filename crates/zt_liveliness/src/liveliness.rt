// A gateway with its sessions and uplinks, and the calls on them.
ghost use Rattle.std.specs.Prelude.{◌≡◌, ◌+◌, [], None, IfErr, IfOk, OnErr, OnOk, false};
ghost use Rattle.zt_liveliness.specs.Lively.{Close, DeclareSubscriber, DeclareToken, Expire, Get};
ghost use Rattle.zt_liveliness.specs.Lively.{IsErrorOf, OpenSession, OpenUplink, Receive};
ghost use Rattle.zt_liveliness.specs.Lively.{TakeReply, TakeSample, TakeSent, UndeclareSubscriber};
ghost use Rattle.zt_liveliness.specs.Lively.{UndeclareToken, begun, done_by, error_in, has_token};
ghost use Rattle.zt_liveliness.specs.Lively.{interests_made, left_after, reply_of, sample_of};
ghost use Rattle.zt_liveliness.specs.Lively.{sent_of, tokens_made};

use crate::answers::{Reply, Token};
use crate::books::{Books, Session, end_query, push_within};
use crate::carrying::{call_named, carry};
use crate::errors::{ApiError, UndeclareError, api_error, token_error};
use crate::mail::Mail;
use crate::queues::{take_answer, take_oldest};
use crate::subscribing::subscription;
use std::alloc::Global;
use std::marker::Model;
use zt_gateway::Gateway;
use zt_keys::Key;
use zt_protocol::{Call, InterestMode, InterestOptions, Message};
use zt_region::{Bound, Region, WhatAmI, Zid};
use zt_samples::{Sample, take_sample};

/// A gateway with its sessions and uplinks. Sessions and uplinks are named by the numbers of their
/// faces, from 1 in order of making; a number isn't used again.
pub struct Liveliness<K: Key> {
    pub(crate) alloc: Global,
    pub(crate) gateway: Gateway<K>,
    pub(crate) books: Books<K>,
    pub(crate) mail: Mail<K>,
}

// A drop of its own: the crates above prove one call, and not the drop of each field.
impl<K: Key> Drop for Liveliness<K> {
    fn drop(self) {
        let Liveliness {
            alloc: _,
            gateway: _,
            books: _,
            mail: _,
        } = self;
    }
}

impl<K: Key> Model for Liveliness<K> {
    ghost use Rattle.zt_liveliness.specs.Lively.{Lively};

    ghost Value = { Lively K };

    ghost view = { λ l. record {
      rows = l.gateway.rows;
      waiting = l.mail.waiting.items;
      sessions = l.books.sessions.items;
      uplinks = l.books.uplinks.items;
      queries = l.books.queries.items;
      subscribers = l.books.subscribers.items;
      told = l.mail.told.items;
      news = l.mail.news.items;
    } };
}

impl<K: Key> Liveliness<K> {
    /// Sessions and uplinks over a gateway that has no open face. Messages that wait there are for
    /// faces that are closed, and go.
    pub fn new(alloc: Global, gateway: Gateway<K>) -> Self
        requires { gateway.rows.faces ≡ [] }
        ensures { result ≡ begun gateway.rows }
    {
        let mut gateway = gateway;
        gateway.clear_outbox();
        Liveliness {
            alloc,
            gateway,
            books: Books {
                sessions: Vec::new(alloc),
                uplinks: Vec::new(alloc),
                queries: Vec::new(alloc),
                subscribers: Vec::new(alloc),
            },
            mail: Mail {
                waiting: Vec::new(alloc),
                told: Vec::new(alloc),
                news: Vec::new(alloc),
            },
        }
    }

    /// Opens a session, and answers its number: in Zenoh a session of the application. Refused
    /// where all numbers are given out.
    pub fn session(&mut self) -> Result<u32, ApiError>
        ensures refused { IfErr result
            (IsErrorOf K.cmp K.matching OpenSession self.old) }
        ensures accepted { OnOk result (error_in K.cmp K.matching OpenSession self.old ≡ None) }
        ensures done { OnOk result
            (self.new ≡ done_by K.cmp K.matching OpenSession self.old) }
        ensures made { IfOk result (λ number. number ≡ self.old.rows.made + 1) }
        ensures err { OnErr result (self.new ≡ self.old) }
    {
        let Ok(()) = self.books.sessions.reserve(1) else {
            return Err(ApiError::Memory);
        };
        let call = Call::NewSession { first: 1 };
        match carry(
            self.alloc,
            &mut self.gateway,
            &self.books,
            &mut self.mail,
            &call,
        ) {
            Ok(Some(number)) => {
                let session = Session {
                    number,
                    tokens: 0,
                    interests: 0,
                };
                push_within(&mut self.books.sessions, session);
                Ok(number)
            }
            Ok(None) => unreachable!(),
            Err(error) => Err(api_error(error)),
        }
    }

    /// Opens an uplink, a face to a gateway above, and answers its number. `remote_bound` is the
    /// bound of the region in which that gateway has this one. Refused are a remote that doesn't
    /// fit, a second uplink of a client gateway, and one for which there are too few ids or no
    /// number.
    pub fn uplink(
        &mut self,
        zid: Zid,
        whatami: WhatAmI,
        remote_bound: Bound,
    ) -> Result<u32, ApiError>
        ensures refused { IfErr result
            (IsErrorOf K.cmp K.matching (OpenUplink zid whatami remote_bound) self.old) }
        ensures accepted { OnOk result
            (error_in K.cmp K.matching (OpenUplink zid whatami remote_bound) self.old ≡ None) }
        ensures done { OnOk result (self.new
            ≡ done_by K.cmp K.matching (OpenUplink zid whatami remote_bound) self.old) }
        ensures made { IfOk result (λ number. number ≡ self.old.rows.made + 1) }
        ensures err { OnErr result (self.new ≡ self.old) }
    {
        let Ok(()) = self.books.uplinks.reserve(1) else {
            return Err(ApiError::Memory);
        };
        let call = Call::NewTransport {
            zid,
            whatami,
            region: Region::North,
            remote_bound,
            first: 1,
        };
        match carry(
            self.alloc,
            &mut self.gateway,
            &self.books,
            &mut self.mail,
            &call,
        ) {
            Ok(Some(number)) => {
                push_within(&mut self.books.uplinks, number);
                Ok(number)
            }
            Ok(None) => unreachable!(),
            Err(error) => Err(api_error(error)),
        }
    }

    /// Declares a token of the session, under a new id: Zenoh's `liveliness().declare_token`. The
    /// errors are a number that is no open session's, no id that is left, and the gateway's
    /// refusal.
    pub fn declare_token(&mut self, session: u32, key: &K) -> Result<Token, ApiError>
        ensures refused { IfErr result
            (IsErrorOf K.cmp K.matching (DeclareToken session key.now) self.old) }
        ensures accepted { OnOk result
            (error_in K.cmp K.matching (DeclareToken session key.now) self.old ≡ None) }
        ensures done { OnOk result
            (self.new ≡ done_by K.cmp K.matching (DeclareToken session key.now) self.old) }
        ensures token { IfOk result
            (λ token. token ≡ record { session = session; id = tokens_made session self.old + 1 }) }
        ensures err { OnErr result (self.new ≡ self.old) }
    {
        let Some(found) = self.session_of(session) else {
            return Err(ApiError::NoSuchFace);
        };
        if found.tokens == u32::MAX {
            return Err(ApiError::Spent);
        }
        let id = found.tokens + 1;
        let Ok(expr) = key.copy(self.alloc) else {
            return Err(ApiError::Memory);
        };
        let call = Call::DeclareToken {
            face: session,
            id,
            expr,
            node_id: 0,
            interest_id: None,
        };
        match self.carry(&call) {
            Ok(()) => {
                self.count_token(session);
                Ok(Token { session, id })
            }
            Err(error) => Err(api_error(error)),
        }
    }

    /// The token is gone: Zenoh's `undeclare` of a token. The error NoSuchToken comes where its
    /// session is closed or its id isn't live there, and gives the token back.
    pub fn undeclare_token(&mut self, token: Token) -> Result<(), UndeclareError>
        ensures refused { IfErr result (λ error. IsErrorOf
            K.cmp K.matching (UndeclareToken token.session token.id) self.old error.error) }
        ensures token { IfErr result (λ error. error.token ≡ token) }
        ensures accepted { OnOk result
            (error_in K.cmp K.matching (UndeclareToken token.session token.id) self.old ≡ None) }
        ensures done { OnOk result (self.new
            ≡ done_by K.cmp K.matching (UndeclareToken token.session token.id) self.old) }
        ensures gone { OnOk result (has_token token.session token.id self.new ≡ false) }
        ensures err { OnErr result (self.new ≡ self.old) }
    {
        if self.session_of(token.session).is_none() {
            let error = ApiError::NoSuchToken;
            return Err(UndeclareError { token, error });
        }
        let call = Call::UndeclareToken {
            face: token.session,
            id: token.id,
            expr: None,
            node_id: 0,
        };
        match self.carry(&call) {
            Ok(()) => Ok(()),
            Err(error) => Err(UndeclareError {
                token,
                error: token_error(error),
            }),
        }
    }

    /// Asks which tokens are there that match the expression, and answers the id of the query:
    /// Zenoh's `liveliness().get`. The id is what `reply` is asked with. The errors are a number that
    /// is no open session's, no id that is left, and the gateway's refusal.
    pub fn get(&mut self, session: u32, expr: &K) -> Result<u32, ApiError>
        ensures refused { IfErr result
            (IsErrorOf K.cmp K.matching (Get session expr.now) self.old) }
        ensures accepted { OnOk result
            (error_in K.cmp K.matching (Get session expr.now) self.old ≡ None) }
        ensures done { OnOk result
            (self.new ≡ done_by K.cmp K.matching (Get session expr.now) self.old) }
        ensures id { IfOk result (λ id. id ≡ interests_made session self.old + 1) }
        ensures err { OnErr result (self.new ≡ self.old) }
    {
        let Some(found) = self.session_of(session) else {
            return Err(ApiError::NoSuchFace);
        };
        if found.interests == u32::MAX {
            return Err(ApiError::Spent);
        }
        let id = found.interests + 1;
        let Ok(expr) = expr.copy(self.alloc) else {
            return Err(ApiError::Memory);
        };
        let call = Call::Interest {
            face: session,
            id,
            mode: InterestMode::Current,
            options: InterestOptions::TOKENS,
            expr: Some(expr),
        };
        let Ok(()) = self.add_query(session, id) else {
            return Err(ApiError::Memory);
        };
        match self.carry(&call) {
            Ok(()) => {
                self.count_interest(session);
                Ok(id)
            }
            Err(error) => {
                self.cut_query();
                Err(api_error(error))
            }
        }
    }

    /// The next reply of a query, the oldest first, and then its end. This takes no memory.
    pub fn reply(&mut self, session: u32, get: u32) -> Reply<K>
        ensures answer { result ≡ reply_of session get self.old }
        ensures left { self.new
            ≡ left_after K.cmp K.matching (TakeReply session get) self.old }
    {
        if !self.is_asking(session, get) {
            return Reply::NoSuchGet;
        }
        match take_answer(&mut self.mail.waiting, session, get) {
            None => Reply::NotYet,
            Some(Some(expr)) => Reply::Live(expr),
            Some(None) => {
                end_query(&mut self.books.queries, session, get);
                Reply::Done
            }
        }
    }

    /// Declares a subscriber of the session to the tokens that match, and answers its id: Zenoh's
    /// `liveliness().declare_subscriber`. With history it begins with the tokens that are there, and
    /// is then given what changes these; without it is given what its session is told from then on.
    /// The errors are those of `get`.
    pub fn declare_subscriber(
        &mut self,
        session: u32,
        expr: &K,
        history: bool,
    ) -> Result<u32, ApiError>
        ensures refused { IfErr result (IsErrorOf K.cmp K.matching
            (DeclareSubscriber session expr.now history) self.old) }
        ensures accepted { OnOk result (error_in K.cmp K.matching
            (DeclareSubscriber session expr.now history) self.old ≡ None) }
        ensures done { OnOk result (self.new
            ≡ done_by K.cmp K.matching (DeclareSubscriber session expr.now history) self.old) }
        ensures id { IfOk result (λ id. id ≡ interests_made session self.old + 1) }
        ensures err { OnErr result (self.new ≡ self.old) }
    {
        let Some(found) = self.session_of(session) else {
            return Err(ApiError::NoSuchFace);
        };
        if found.interests == u32::MAX {
            return Err(ApiError::Spent);
        }
        let id = found.interests + 1;
        let Ok(call) = subscription(self.alloc, session, id, expr, history) else {
            return Err(ApiError::Memory);
        };
        let waiting = self.samples_waiting();
        let Ok(()) = self.add_subscriber(session, id, expr, history) else {
            return Err(ApiError::Memory);
        };
        match self.carry(&call) {
            Ok(()) => {
                self.count_interest(session);
                Ok(id)
            }
            Err(error) => {
                self.cut_subscriber(waiting);
                Err(api_error(error))
            }
        }
    }

    /// Takes the next sample of a subscriber, the oldest first. None exactly where there is none.
    /// This takes no memory.
    pub fn sample(&mut self, session: u32, subscriber: u32) -> Option<Sample<K>>
        ensures sample { result ≡ sample_of session subscriber self.old }
        ensures left { self.new
            ≡ left_after K.cmp K.matching (TakeSample session subscriber) self.old }
    {
        take_sample(&mut self.mail.news, session, subscriber)
    }

    /// Undeclares a subscriber, and drops the samples that it wasn't given. The errors are a number
    /// that is no open session's, and an id that none of its subscribers has.
    pub fn undeclare_subscriber(&mut self, session: u32, subscriber: u32) -> Result<(), ApiError>
        ensures refused { IfErr result (IsErrorOf K.cmp K.matching
            (UndeclareSubscriber session subscriber) self.old) }
        ensures accepted { OnOk result (error_in K.cmp K.matching
            (UndeclareSubscriber session subscriber) self.old ≡ None) }
        ensures done { OnOk result (self.new
            ≡ done_by K.cmp K.matching (UndeclareSubscriber session subscriber) self.old) }
        ensures err { OnErr result (self.new ≡ self.old) }
    {
        if self.session_of(session).is_none() {
            return Err(ApiError::NoSuchFace);
        }
        if !self.is_subscribed(session, subscriber) {
            return Err(ApiError::NoSuchSubscriber);
        }
        let call = Call::InterestFinal {
            face: session,
            id: subscriber,
        };
        match self.carry(&call) {
            Ok(()) => {
                self.drop_subscriber(session, subscriber);
                Ok(())
            }
            Err(error) => Err(api_error(error)),
        }
    }

    /// Takes a message that the gateway above the uplink sent, as the call that it names; a
    /// declaration of a subscriber or of a queryable does nothing. The errors are a number that is
    /// no open uplink's, and the gateway's refusal of that call.
    pub fn receive(&mut self, uplink: u32, message: &Message<K>) -> Result<(), ApiError>
        ensures refused { IfErr result
            (IsErrorOf K.cmp K.matching (Receive uplink message.now) self.old) }
        ensures accepted { OnOk result
            (error_in K.cmp K.matching (Receive uplink message.now) self.old ≡ None) }
        ensures done { OnOk result
            (self.new ≡ done_by K.cmp K.matching (Receive uplink message.now) self.old) }
        ensures err { OnErr result (self.new ≡ self.old) }
    {
        if !self.is_uplink(uplink) {
            return Err(ApiError::NoSuchFace);
        }
        match call_named(self.alloc, uplink, message) {
            Err(_) => Err(ApiError::Memory),
            Ok(None) => Ok(()),
            Ok(Some(call)) => {
                match self.carry(&call) {
                    Ok(()) => Ok(()),
                    Err(error) => Err(api_error(error)),
                }
            }
        }
    }

    /// Takes the oldest message for the gateway above the uplink. None exactly where there is none,
    /// or where the number is no open uplink's. This takes no memory.
    pub fn send(&mut self, uplink: u32) -> Option<Message<K>>
        ensures message { result ≡ sent_of uplink self.old }
        ensures left { self.new ≡ left_after K.cmp K.matching (TakeSent uplink) self.old }
    {
        if !self.is_uplink(uplink) {
            return None;
        }
        take_oldest(&mut self.mail.waiting, uplink)
    }

    /// Closes a session or an uplink: all that it declared and asked for is gone, and what waits for
    /// it. The error NoSuchFace comes where the number is that of neither.
    pub fn close(&mut self, face: u32) -> Result<(), ApiError>
        ensures refused { IfErr result
            (IsErrorOf K.cmp K.matching (Close face) self.old) }
        ensures accepted { OnOk result (error_in K.cmp K.matching (Close face) self.old ≡ None) }
        ensures done { OnOk result (self.new ≡ done_by K.cmp K.matching (Close face) self.old) }
        ensures err { OnErr result (self.new ≡ self.old) }
    {
        let is_session = self.session_of(face).is_some();
        if !is_session && !self.is_uplink(face) {
            return Err(ApiError::NoSuchFace);
        }
        let call = Call::CloseFace { face };
        match self.carry(&call) {
            Ok(()) => {
                self.drop_face(face);
                Ok(())
            }
            Err(error) => Err(api_error(error)),
        }
    }

    /// Sets the gateway's moment, in the unit of its timeout, and ends what has waited for the
    /// timeout. Refused is a moment before the last one.
    pub fn expire(&mut self, now: u64) -> Result<(), ApiError>
        ensures refused { IfErr result
            (IsErrorOf K.cmp K.matching (Expire now) self.old) }
        ensures accepted { OnOk result (error_in K.cmp K.matching (Expire now) self.old ≡ None) }
        ensures done { OnOk result (self.new ≡ done_by K.cmp K.matching (Expire now) self.old) }
        ensures err { OnErr result (self.new ≡ self.old) }
    {
        let call = Call::Expire { now };
        match self.carry(&call) {
            Ok(()) => Ok(()),
            Err(error) => Err(api_error(error)),
        }
    }
}
