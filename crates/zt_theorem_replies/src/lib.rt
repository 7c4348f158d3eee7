//! What an interest is sent over many calls of one gateway: a theorem over the definitions of
//! `zt_model`, the contract of a function that does nothing.
#![tactic(auto)]

ghost use Rattle.std.specs.Prelude.{◌≡◌, ◌∷◌, [], ℕ, List, None, Option, false, true};
ghost use Rattle.std.specs.List.{list_any};
ghost use Rattle.zt_protocol.specs.Interest.{is_current};
ghost use Rattle.zt_protocol.specs.Plain.{Interest, PlainCall};
ghost use Rattle.zt_protocol.specs.declared.interests.InterestMode.{InterestMode};
ghost use Rattle.zt_protocol.specs.declared.interests.InterestOptions.{InterestOptions};
ghost use Rattle.zt_model.specs.Journal.{cause_of};
ghost use Rattle.zt_model.specs.Promises.{answers_in, are_new};
ghost use Rattle.zt_model.specs.Rows.{Rows};
ghost use Rattle.zt_model.specs.Transcript.{Each};
ghost use Rattle.zt_laws.specs.Order.{RowsAreInOrder};
ghost use Rattle.zt_laws.specs.Sound.{CallHasFirstIds};
ghost use Rattle.zt_theorem_replies.specs.Replies.{NothingFollowsFinal, is_asking_as, sent_to};

use zt_keys::Key;

/// An accepted interest in what is there now is sent each expression at most once, from its own
/// call on and whatever is called then, even where the token was undeclared and declared again in
/// between. After its final it is sent no reply and no other final. The face asks no second time
/// under the id.
pub fn replies_come_once<K: Key>()
    ensures once { (n id : ℕ) (mode : InterestMode) (options : InterestOptions) (e : Option K)
        (calls : List (PlainCall K)) (g : Rows K)
        → RowsAreInOrder K.cmp K.matching g → Each CallHasFirstIds calls
        → is_current mode ≡ true
        → cause_of K.cmp K.matching (Interest n id mode options e) g ≡ None
        → list_any (is_asking_as n id) calls ≡ false
        → are_new K.cmp K.matching [] (answers_in id (sent_to K.cmp K.matching n
        (Interest n id mode options e ∷ calls) g)) ≡ true }
    ensures last { (n id : ℕ) (mode : InterestMode) (options : InterestOptions) (e : Option K)
        (calls : List (PlainCall K)) (g : Rows K)
        → RowsAreInOrder K.cmp K.matching g → Each CallHasFirstIds calls
        → is_current mode ≡ true
        → cause_of K.cmp K.matching (Interest n id mode options e) g ≡ None
        → list_any (is_asking_as n id) calls ≡ false
        → NothingFollowsFinal id (sent_to K.cmp K.matching n
        (Interest n id mode options e ∷ calls) g) }
{}
