//! What subscribers with history make of their samples: theorems over the definitions of
//! `zt_samples`, each the contract of a function that does nothing.
#![tactic(auto)]

ghost use Rattle.std.specs.Prelude.{◌≡◌, ◌&&◌, ℕ, List, Some, false, true};
ghost use Rattle.zt_laws.specs.Sound.{NamesOnce};
ghost use Rattle.zt_protocol.specs.declared.messages.Message.{Message};
ghost use Rattle.zt_samples.specs.Samples.{keeps_told, news_by, samples_for, started, told_by};
ghost use Rattle.zt_samples.specs.Samples.{told_to};
ghost use Rattle.zt_samples.specs.declared.samples.Subscriber.{Subscriber};
ghost use Rattle.zt_samples.specs.declared.samples.Told.{Told};
ghost use Rattle.zt_theorem_samples.specs.Replayed.{IsOnly, NoPairTwice, replayed, sees};

use zt_keys::Key;

/// A subscriber with history sees just what its session keeps and what matches. From what it sees
/// before a message, the samples of the message lead to what it sees after: no Put comes of what is
/// seen, and no Delete of what isn't. It begins with what its session keeps.
pub fn samples_follow_what_is_kept<K: Key>()
    ensures message { (s : Subscriber K) (subscribers : List (Subscriber K)) (n : ℕ)
        (m : Message K) (told : List (Told K)) (e : K)
        → IsOnly s subscribers → s.history ≡ true → NoPairTwice K.cmp told
        → replayed K.cmp e
        (samples_for s.session s.id (news_by K.cmp K.matching subscribers n m told))
        (sees K.cmp K.matching s e told)
        ≡ Some (sees K.cmp K.matching s e (told_by K.cmp n m told)) }
    ensures once { (n : ℕ) (m : Message K) (told : List (Told K))
        → NoPairTwice K.cmp told → NoPairTwice K.cmp (told_by K.cmp n m told) }
    ensures start { (n id : ℕ) (k e : K) (told : List (Told K))
        → NamesOnce K.cmp (told_to n told)
        → replayed K.cmp e (samples_for n id (started K.matching n id k true told)) false
        ≡ Some (K.matching k e && keeps_told K.cmp n e told) }
{}
