//! The ids that calls draw, whatever is called: theorems over the definitions of `zt_model`, each
//! the contract of a function that does nothing.
#![tactic(auto)]

ghost use Rattle.std.specs.Prelude.{◌≡◌, ◌+◌, ◌≤◌, Bool, true, Some, None, map};
ghost use Rattle.zt_protocol.specs.Plain.{PlainCall};
ghost use Rattle.zt_protocol.specs.declared.errors.Refusal.TheVariants.{IdsSpent};
ghost use Rattle.zt_model.specs.Refusals.{call_causes, can_draw, could, could_spend_ids};
ghost use Rattle.zt_model.specs.Refusals.{faces_with, first_cause, need, spends_ids};
ghost use Rattle.zt_model.specs.Rows.{Rows};
ghost use Rattle.zt_model.specs.Transcript.{Each};
ghost use Rattle.zt_laws.specs.Sound.{CallHasFirstIds, rows_after_call};
ghost use Rattle.zt_theorem_soundness.specs.Sound.{IsSound};

use zt_keys::Key;

/// An accepted call that can draw ids, which is a declaration, an interest or the opening of a
/// transport's face, draws for each face as many as it needs for it, the face that it opens
/// included.
pub fn calls_draw_what_they_need<K: Key>()
    ensures { (spent : Bool) (c : PlainCall K) (g : Rows K) → CallHasFirstIds c
        → first_cause (call_causes K.cmp K.matching spent c g) ≡ None
        → can_draw K.cmp K.matching c ≡ true → IsSound K.cmp K.matching g
        → map (λ f. f.next) (rows_after_call K.cmp K.matching c g).faces
        ≡ map (λ f. f.next + need K.cmp K.matching c g f) (faces_with K.cmp K.matching c g) }
{}

/// Where no cause before the want of ids holds, a call needs for each face at most what it could
/// draw for it, as a transcript shows it. So if it needs more ids than are left, it could spend
/// them.
pub fn need_is_within_could<K: Key>()
    ensures each { (c : PlainCall K) (g : Rows K)
        → first_cause (call_causes K.cmp K.matching true c g)
        ≡ Some IdsSpent → IsSound K.cmp K.matching g
        → Each (λ f. need K.cmp K.matching c g f ≤ could K.cmp K.matching c g f)
        (faces_with K.cmp K.matching c g) }
    ensures spends { (c : PlainCall K) (g : Rows K)
        → first_cause (call_causes K.cmp K.matching true c g) ≡ Some IdsSpent
        → IsSound K.cmp K.matching g
        → can_draw K.cmp K.matching c ≡ true → spends_ids K.cmp K.matching c g ≡ true
        → could_spend_ids K.cmp K.matching c g ≡ true }
{}
