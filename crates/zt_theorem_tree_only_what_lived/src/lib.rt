//! What asks of trees aren't answered: theorems over the definitions of `zt_model`, each the
//! contract of a function that does nothing. `specs/Tokens.antt` has the words for tokens of a
//! kind. What asks get `zt_theorem_tree_all_that_stays` proves.
#![tactic(auto)]

ghost use Rattle.std.specs.Prelude.{◌≡◌, Bool, true, List};
ghost use Rattle.zt_protocol.specs.Plain.{PlainCall, PlainLine};
ghost use Rattle.zt_model.specs.Fabric.{Fabric, empty_fabric};
ghost use Rattle.zt_model.specs.Transcript.{Each};
ghost use Rattle.zt_model.specs.TreePromises.{GetsOnlyWhatWas};
ghost use Rattle.zt_model.specs.Rows.{Rows};
ghost use Rattle.zt_model.specs.Says.{said};
ghost use Rattle.zt_laws.specs.Shown.{turns_of};
ghost use Rattle.zt_laws.specs.Sound.{HasFirstIds, rows_after_call};
ghost use Rattle.zt_theorem_soundness.specs.Lines.{EachGatewayIs};
ghost use Rattle.zt_theorem_soundness.specs.Sound.{IsSound};
ghost use Rattle.zt_theorem_tree_invariant.specs.Facts.{TreesAgree};
ghost use Rattle.zt_theorem_tree_invariant.specs.Trees.{FacesFormTrees, LeavesTrees};
ghost use Rattle.zt_theorem_tree_only_what_lived.specs.Tokens.{CallIn, IsIn, SaysIn};

use zt_keys::Key;

/// Tokens come from tokens: where each live row of a gateway and each row of another router is of a
/// kind, and the token of a call too, each token that the call declares to a face is of that kind,
/// and so are all rows that it leaves. A table that is set is to be of a region without faces.
pub fn calls_declare_what_was_declared<K: Key>()
    ensures said { (test : K → Bool) (c : PlainCall K) (g : Rows K)
        → CallIn (λ (e : K). test e ≡ true) g c → IsIn (λ (e : K). test e ≡ true) g
        → SaysIn (λ (e : K). test e ≡ true) (said K.cmp K.matching c g) }
    ensures rows { (test : K → Bool) (c : PlainCall K) (g : Rows K)
        → CallIn (λ (e : K). test e ≡ true) g c → IsIn (λ (e : K). test e ≡ true) g
        → IsIn (λ (e : K). test e ≡ true) (rows_after_call K.cmp K.matching c g) }
{}

/// What an ask of a tree doesn't get, of every list of lines: in a transcript of trees that refuses
/// no line for want of ids, a token ask of a plain face, made where all links are empty and not
/// disturbed up to its final, is answered only expressions that were live at some plain face since
/// the asking. So it is from the empty fabric on, and from each that is sound and of trees that
/// agree.
pub fn asks_get_only_what_was<K: Key>()
    ensures start { (lines : List (PlainLine K)) → Each HasFirstIds lines
        → (let turns = turns_of K.cmp K.matching lines empty_fabric in
        Each (LeavesTrees K.cmp K.matching) turns → GetsOnlyWhatWas K.cmp K.matching turns) }
    ensures later { (lines : List (PlainLine K)) (s : Fabric K) → Each HasFirstIds lines
        → EachGatewayIs K.cmp K.matching (IsSound K.cmp K.matching) s
        → TreesAgree K.cmp K.matching s → FacesFormTrees s
        → (let turns = turns_of K.cmp K.matching lines s in
        Each (LeavesTrees K.cmp K.matching) turns → GetsOnlyWhatWas K.cmp K.matching turns) }
{}
