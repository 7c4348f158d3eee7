//! Laws of the machine of scripts: theorems over the definitions of `zt_model`, each the contract
//! of a function that does nothing. What faces hear of the messages of phases stands here, and in
//! the modules what holds of all calls, lines and fabrics: what messages change, order and no
//! doubles, and what calls come to. `specs/Sound.antt` and `specs/Order.antt` have the words for
//! what stays true of a fabric, and `specs/Kept.antt` those for what a face keeps.
#![tactic(auto)]

ghost use Rattle.std.specs.Prelude.{◌≡◌, ◌+◌, ◌||◌, ℕ, if◌then◌else◌, List, map};
ghost use Rattle.zt_region.specs.declared.region.Region.{Region};
ghost use Rattle.zt_protocol.specs.declared.interests.InterestMode.{InterestMode};
ghost use Rattle.zt_protocol.specs.declared.messages.Message.{Message};
ghost use Rattle.zt_model.specs.Hearing.{heard_all, rows_heard};
ghost use Rattle.zt_model.specs.Rows.{Face, Rows};
ghost use Rattle.zt_model.specs.Says.{answers_from, forget_to, is_routed, is_told, tell_to};
ghost use Rattle.zt_model.specs.Says.{to_each, to_face, with_face};
ghost use Rattle.zt_model.specs.Visible.{is_visible};
ghost use Rattle.zt_laws.specs.Effects.{forgotten, told_after_answers, told_anew};
ghost use Rattle.zt_laws.specs.Sound.{IsToldInOrder, RiseFrom};

mod effects;
mod messages;
mod order;
mod shown;

pub use effects::{
    calls_draw_next_ids, closing_says_what_leaving_says, hearing_may_wait, lines_draw_next_ids,
    other_calls_draw_no_ids, repeats_change_no_row,
};
pub use messages::{
    calls_tell_by_messages_alone, interleaving_changes_nothing, lines_tell_by_messages_alone,
    sorting_keeps_each_faces_messages, told_is_kept,
};
pub use order::{calls_keep_order, lines_keep_order};
pub use shown::{transcripts_show_what_is_kept, words_of_promises_are_kept_to};
use zt_keys::Key;

/// What faces hear of a rule's messages. Where each face is sent what the rule gives for it, each
/// hears just that; where one face is, that face does, and no other face changes.
pub fn faces_hear_their_rule<K: Key>()
    ensures each { (rule : Face K → List (Message K)) (g : Rows K)
        → RiseFrom (λ f. f.number) 1 g.faces
        → rows_heard K.cmp (to_each rule g.faces) g
        ≡ record g { faces = map (λ f. heard_all K.cmp g.moment (rule f) f) g.faces } }
    ensures one { (n : ℕ) (rule : Face K → List (Message K)) (g : Rows K)
        → RiseFrom (λ f. f.number) 1 g.faces
        → rows_heard K.cmp (to_face n rule g) g
        ≡ with_face n (λ f. heard_all K.cmp g.moment (rule f) f) g }
{}

/// What each phase of a call leaves at a face. A face that is told an expression has it under its
/// next id; one that can't see an expression any more has no row of it; one that is answered has
/// the answers that it didn't keep under its next ids, where it asked for what comes later too.
pub fn phases_change_told_rows<K: Key>()
    ensures telling { (now : ℕ) (g : Rows K) (source : Region) (e : K) (f : Face K)
        → IsToldInOrder K.cmp f.told f.next
        → heard_all K.cmp now (tell_to K.cmp K.matching g source e f) f
        ≡ (if is_told K.cmp K.matching g source e f then told_anew e f else f) }
    ensures forgetting { (now : ℕ) (g : Rows K) (source : Region) (e : K) (f : Face K)
        → IsToldInOrder K.cmp f.told f.next
        → heard_all K.cmp now (forget_to K.cmp K.matching g source e f) f
        ≡ (if is_routed g f || is_visible K.cmp g f.region e then f else forgotten K.cmp e f) }
    ensures answering { (now id : ℕ) (mode : InterestMode) (es : List K) (f : Face K)
        → IsToldInOrder K.cmp f.told f.next
        → (heard_all K.cmp now (answers_from K.cmp K.matching f.next f.told mode id es) f).told
        ≡ told_after_answers K.cmp K.matching mode es f }
{}
