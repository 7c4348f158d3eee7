// The steps that the calls of the interface are made of.
ghost use Rattle.std.specs.Prelude.{◌≡◌, ◌+◌, ◌<◌, ◌^◌, ◌++◌, ◌∷◌, [], List, None, IfErr, OnErr, OnOk};
ghost use Rattle.std.specs.Prelude.{length};
ghost use Rattle.zt_gateway.specs.Running.{IsRefusedBy};
ghost use Rattle.zt_laws.specs.Sound.{CallHasFirstIds};
ghost use Rattle.zt_liveliness.specs.Books.{HasIdLeft, find_session, with_interest_made};
ghost use Rattle.zt_liveliness.specs.Books.{with_session, with_token_made, without_queries};
ghost use Rattle.zt_liveliness.specs.Books.{without_session, without_subscriber};
ghost use Rattle.zt_liveliness.specs.Books.{without_subscribers, without_uplink};
ghost use Rattle.zt_liveliness.specs.Lively.{Close, Lively, UndeclareSubscriber, booked, carried};
ghost use Rattle.zt_liveliness.specs.Lively.{is_asking, is_subscribed, is_uplink};
ghost use Rattle.zt_liveliness.specs.declared.books.Query.{Query};
ghost use Rattle.zt_model.specs.Journal.{cause_of};
ghost use Rattle.zt_protocol.specs.Plain.{plain_call};
ghost use Rattle.zt_samples.specs.Samples.{started};
ghost use Rattle.zt_samples.specs.declared.samples.News.{News};
ghost use Rattle.zt_samples.specs.declared.samples.Subscriber.{Subscriber};

use crate::books::{
    Query, Session, count_interest, count_token, drop_queries, drop_session, drop_subscriber,
    drop_subscribers, drop_uplink, find_session, has_query, has_subscriber, has_uplink,
};
use crate::carrying::carry;
use crate::liveliness::Liveliness;
use crate::subscribing::add_subscriber;
use zt_keys::{Key, Memory};
use zt_protocol::{Call, CallError};
use zt_samples::{drop_news, drop_news_of_session, drop_told};

impl<K: Key> Liveliness<K> {
    // The session of a number.
    pub(crate) fn session_of(&self, number: u32) -> Option<Session>
        ensures { result ≡ find_session number self.now.sessions }
    {
        find_session(self.books.sessions.as_slice(), number)
    }

    // Whether an uplink has this number.
    pub(crate) fn is_uplink(&self, number: u32) -> bool
        ensures { result ≡ is_uplink number self.now }
    {
        has_uplink(self.books.uplinks.as_slice(), number)
    }

    // Whether the query is open.
    pub(crate) fn is_asking(&self, session: u32, id: u32) -> bool
        ensures { result ≡ is_asking session id self.now }
    {
        has_query(self.books.queries.as_slice(), session, id)
    }

    // Whether the session has a subscriber of this id.
    pub(crate) fn is_subscribed(&self, session: u32, id: u32) -> bool
        ensures { result ≡ is_subscribed session id self.now }
    {
        has_subscriber(self.books.subscribers.as_slice(), session, id)
    }

    // Carries out a call that opens no face. An error changes nothing.
    pub(crate) fn carry(&mut self, call: &Call<K>) -> Result<(), CallError>
        requires { CallHasFirstIds (plain_call call.now) }
        ensures refused { IfErr result
            (IsRefusedBy K.cmp K.matching (plain_call call.now) self.old.rows) }
        ensures accepted { OnOk result
            (cause_of K.cmp K.matching (plain_call call.now) self.old.rows ≡ None) }
        ensures done { OnOk result
            (self.new ≡ carried K.cmp K.matching (plain_call call.now) self.old) }
        ensures err { OnErr result (self.new ≡ self.old) }
    {
        match carry(
            self.alloc,
            &mut self.gateway,
            &self.books,
            &mut self.mail,
            call,
        ) {
            Ok(_) => Ok(()),
            Err(error) => Err(error),
        }
    }

    // One token more was made on a session.
    pub(crate) fn count_token(&mut self, session: u32)
        requires { HasIdLeft session (λ s. s.tokens) self.old.sessions }
        ensures { self.new ≡ record self.old {
          sessions = with_session session with_token_made self.old.sessions;
        } }
    {
        count_token(&mut self.books.sessions, session);
    }

    // One interest more was made on a session.
    pub(crate) fn count_interest(&mut self, session: u32)
        requires { HasIdLeft session (λ s. s.interests) self.old.sessions }
        ensures { self.new ≡ record self.old {
          sessions = with_session session with_interest_made self.old.sessions;
        } }
    {
        count_interest(&mut self.books.sessions, session);
    }

    // A query is open. After an error all stays as it was.
    pub(crate) fn add_query(&mut self, session: u32, id: u32) -> Result<(), Memory>
        ensures ok { OnOk result (self.new ≡ record self.old {
          queries = self.old.queries ++ record { session = session; id = id } ∷ [];
        }) }
        ensures err { OnErr result (self.new ≡ self.old) }
    {
        self.books.queries.push(Query { session, id })?;
        Ok(())
    }

    // The last query isn't open after all.
    pub(crate) fn cut_query(&mut self)
        ensures { (l : Lively K) (q : Query)
            → self.old ≡ record l { queries = l.queries ++ q ∷ [] } → self.new ≡ l }
    {
        let _ = self.books.queries.pop();
    }

    // How many samples wait.
    pub(crate) fn samples_waiting(&self) -> usize
        ensures { result ≡ length self.now.news }
    {
        self.mail.news.len()
    }

    // A subscriber is there, and is given what it begins with. After an error all stays as it was.
    pub(crate) fn add_subscriber(
        &mut self,
        session: u32,
        id: u32,
        expr: &K,
        history: bool,
    ) -> Result<(), Memory>
        ensures ok { OnOk result (self.new ≡ record self.old {
          subscribers = self.old.subscribers
              ++ record { session = session; id = id; expr = expr.now; history = history } ∷ [];
          news = self.old.news
              ++ started K.matching session id expr.now history self.old.told;
        }) }
        ensures err { OnErr result (self.new ≡ self.old) }
    {
        let subscribers = &mut self.books.subscribers;
        add_subscriber(
            self.alloc,
            subscribers,
            &mut self.mail,
            session,
            id,
            expr,
            history,
        )
    }

    // The last subscriber isn't there after all, nor what it was given behind so many samples.
    pub(crate) fn cut_subscriber(&mut self, count: usize)
        ensures { (l : Lively K) (s : Subscriber K) (first : List (News K))
            → self.old ≡ record l {
              subscribers = l.subscribers ++ s ∷ [];
              news = l.news ++ first;
            }
            → length l.news ≡ count → self.new ≡ l }
    {
        let _ = self.books.subscribers.pop();
        self.mail.news.truncate(count);
    }

    // A subscriber was undeclared.
    pub(crate) fn drop_subscriber(&mut self, session: u32, id: u32)
        ensures { (before : Lively K)
            → self.new ≡ booked (UndeclareSubscriber session id) before self.old }
    {
        drop_subscriber(&mut self.books.subscribers, session, id);
        drop_news(&mut self.mail.news, session, id);
    }

    // A face was closed.
    pub(crate) fn drop_face(&mut self, face: u32)
        ensures { (before : Lively K) → self.new ≡ booked (Close face) before self.old }
    {
        drop_session(&mut self.books.sessions, face);
        drop_uplink(&mut self.books.uplinks, face);
        drop_queries(&mut self.books.queries, face);
        drop_subscribers(&mut self.books.subscribers, face);
        drop_told(&mut self.mail.told, face);
        drop_news_of_session(&mut self.mail.news, face);
    }
}
