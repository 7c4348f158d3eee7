//! What holds over every list of calls.
ghost use Rattle.std.specs.Prelude.{◌≡◌, ◌+◌, ◌&&◌, ◌++◌, ◌∷◌, [], ℕ, List, None};
ghost use Rattle.std.specs.Prelude.{Some, false, filter, true};
ghost use Rattle.zt_liveliness.specs.Lively.{Api, DeclareSubscriber, Get, Lively, error_in};
ghost use Rattle.zt_liveliness.specs.Lively.{interests_made, left_after, reply_of, said_in};
ghost use Rattle.zt_liveliness.specs.Replies.{ComeOnce, answered, given_in, left_after_all};
ghost use Rattle.zt_liveliness.specs.Replies.{replies_in, sent_to, stands_through};
ghost use Rattle.zt_liveliness.specs.Subscribed.{IsReached, samples_sent, samples_so_far};
ghost use Rattle.zt_liveliness.specs.Subscribed.{subscribed_through};
ghost use Rattle.zt_liveliness.specs.declared.answers.Reply.TheVariants.{Done};
ghost use Rattle.zt_model.specs.Hearing.{messages_for};
ghost use Rattle.zt_model.specs.Parts.{find_face};
ghost use Rattle.zt_model.specs.Promises.{answers_in, are_new};
ghost use Rattle.zt_model.specs.Rows.{Face};
ghost use Rattle.zt_model.specs.Visible.{keeps, visible_expressions};
ghost use Rattle.zt_model.specs.Wants.{is_about};
ghost use Rattle.zt_samples.specs.Samples.{samples_for};
ghost use Rattle.zt_theorem_replies.specs.Replies.{NothingFollowsFinal};
ghost use Rattle.zt_theorem_samples.specs.Replayed.{replayed};

use zt_keys::Key;

/// While a query stands, the expressions of its replies, those given and those that wait, are
/// exactly those that its session was sent for it, in the order sent and each as often: what waited
/// at first and what the calls since sent, up to the final. Where the next answer is Done, all of
/// them were given.
pub fn replies_are_what_is_sent<K: Key>()
    ensures so_far { (session id : ℕ) (calls : List (Api K)) (l : Lively K)
        → stands_through K.cmp K.matching session id calls l ≡ true
        → given_in K.cmp K.matching session id calls l
        ++ answered id (messages_for session (left_after_all K.cmp K.matching calls l).waiting)
        ≡ answered id (messages_for session l.waiting ++ sent_to K.cmp K.matching session calls l) }
    ensures at_the_end { (session id : ℕ) (calls : List (Api K)) (l : Lively K)
        → stands_through K.cmp K.matching session id calls l ≡ true
        → reply_of session id (left_after_all K.cmp K.matching calls l) ≡ Done
        → given_in K.cmp K.matching session id calls l
        ≡ answered id (messages_for session l.waiting ++ sent_to K.cmp K.matching session calls l) }
{}

/// From `get` on, a session is sent each expression for its query at most once, even where the
/// token was undeclared and declared again in between; after the final it is sent nothing more for
/// the query. So it is given each expression once, and `Done` once: then the query is gone, as it
/// is where its session was closed.
pub fn replies_come_once<K: Key>()
    ensures sent { (session : ℕ) (expr : K) (calls : List (Api K)) (l : Lively K)
        → IsReached K.cmp K.matching l
        → error_in K.cmp K.matching (Get session expr) l ≡ None
        → are_new K.cmp K.matching [] (answers_in (interests_made session l + 1)
        (sent_to K.cmp K.matching session (Get session expr ∷ calls) l)) ≡ true }
    ensures last { (session : ℕ) (expr : K) (calls : List (Api K)) (l : Lively K)
        → IsReached K.cmp K.matching l
        → error_in K.cmp K.matching (Get session expr) l ≡ None
        → NothingFollowsFinal (interests_made session l + 1)
        (sent_to K.cmp K.matching session (Get session expr ∷ calls) l) }
    ensures given { (session : ℕ) (expr : K) (calls : List (Api K)) (l : Lively K)
        → IsReached K.cmp K.matching l
        → error_in K.cmp K.matching (Get session expr) l ≡ None
        → ComeOnce K.cmp [] (replies_in K.cmp K.matching session (interests_made session l + 1)
        calls (left_after K.cmp K.matching (Get session expr) l)) }
{}

/// A query is sent in its own call exactly the matching expressions of tokens that its session may
/// see, in key order, each once.
pub fn queries_are_answered_at_once<K: Key>()
    ensures { (session : ℕ) (expr : K) (f : Face K) (l : Lively K)
        → find_face session l.rows ≡ Some f
        → error_in K.cmp K.matching (Get session expr) l ≡ None
        → answers_in (interests_made session l + 1)
        (messages_for session (said_in K.cmp K.matching (Get session expr) l))
        ≡ filter (is_about K.matching (Some expr)) (visible_expressions K.cmp l.rows f.region) }
{}

/// While a subscriber is there, its samples, those given and those that wait, are exactly what its
/// session was sent, as samples, in the order sent: what waited at first and what the calls since
/// sent.
pub fn samples_are_what_is_sent<K: Key>()
    ensures { (session id : ℕ) (calls : List (Api K)) (l : Lively K)
        → IsReached K.cmp K.matching l
        → subscribed_through K.cmp K.matching session id calls l ≡ true
        → samples_so_far K.cmp K.matching session id calls l
        ≡ samples_for session id l.news ++ samples_sent K.cmp K.matching session id calls l }
{}

/// A subscriber with history sees, by all its samples since it was declared, exactly the matching
/// expressions that its session's face keeps: a Put shows an expression that isn't seen, and a
/// Delete hides one that is.
pub fn subscribers_see_what_is_kept<K: Key>()
    ensures { (session : ℕ) (expr e : K) (calls : List (Api K)) (f : Face K) (l : Lively K)
        → IsReached K.cmp K.matching l
        → error_in K.cmp K.matching (DeclareSubscriber session expr true) l ≡ None
        → (let id = interests_made session l + 1 in
        let after = left_after K.cmp K.matching (DeclareSubscriber session expr true) l in
        subscribed_through K.cmp K.matching session id calls after ≡ true
        → find_face session (left_after_all K.cmp K.matching calls after).rows ≡ Some f
        → replayed K.cmp e (samples_so_far K.cmp K.matching session id calls after) false
        ≡ Some (K.matching expr e && keeps K.cmp f e)) }
{}
