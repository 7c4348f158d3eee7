//! What asks of trees are answered: theorems over the definitions of `zt_model`, each the contract
//! of a function that does nothing. `specs/Ways.antt` has the words for ways up a tree,
//! `specs/Steady.antt` those for what messages leave as it is.
#![tactic(auto)]

ghost use Rattle.std.specs.Prelude.{◌≡◌, List};
ghost use Rattle.zt_protocol.specs.Plain.{PlainLine};
ghost use Rattle.zt_model.specs.Fabric.{Fabric, empty_fabric};
ghost use Rattle.zt_model.specs.Transcript.{Each};
ghost use Rattle.zt_model.specs.TreePromises.{GetsWhatStays};
ghost use Rattle.zt_laws.specs.Shown.{turns_of};
ghost use Rattle.zt_laws.specs.Sound.{HasFirstIds};
ghost use Rattle.zt_theorem_soundness.specs.Lines.{EachGatewayIs};
ghost use Rattle.zt_theorem_soundness.specs.Sound.{IsSound};
ghost use Rattle.zt_theorem_tree_invariant.specs.Facts.{TreesAgree};
ghost use Rattle.zt_theorem_tree_invariant.specs.Trees.{FacesFormTrees, KeepPromisesOfTrees, LeavesTrees};

use zt_keys::Key;

/// What an ask of a tree gets, of every list of lines: in a transcript of trees that refuses no
/// line for want of ids, a token ask of a plain face, made where all links are empty and not
/// disturbed up to its final, is answered each matching expression that one plain face of its tree
/// has live from the asking to the final. So it is from the empty fabric on, and from each that is
/// sound and of trees that agree.
pub fn asks_get_what_stays<K: Key>()
    ensures start { (lines : List (PlainLine K)) → Each HasFirstIds lines
        → (let turns = turns_of K.cmp K.matching lines empty_fabric in
        Each (LeavesTrees K.cmp K.matching) turns → GetsWhatStays K.cmp K.matching turns) }
    ensures later { (lines : List (PlainLine K)) (s : Fabric K) → Each HasFirstIds lines
        → EachGatewayIs K.cmp K.matching (IsSound K.cmp K.matching) s
        → TreesAgree K.cmp K.matching s → FacesFormTrees s
        → (let turns = turns_of K.cmp K.matching lines s in
        Each (LeavesTrees K.cmp K.matching) turns → GetsWhatStays K.cmp K.matching turns) }
{}

/// The three promises over trees, of every list of lines: in a transcript of trees that refuses no
/// line for want of ids, faces that asked for now and later know their tree wherever nothing waits,
/// and asks get what stays and only what was. So it is from the empty fabric on, and from each that
/// is sound and of trees that agree.
pub fn trees_keep_their_promises<K: Key>()
    ensures start { (lines : List (PlainLine K)) → Each HasFirstIds lines
        → KeepPromisesOfTrees K.cmp K.matching (turns_of K.cmp K.matching lines empty_fabric) }
    ensures later { (lines : List (PlainLine K)) (s : Fabric K) → Each HasFirstIds lines
        → EachGatewayIs K.cmp K.matching (IsSound K.cmp K.matching) s
        → TreesAgree K.cmp K.matching s → FacesFormTrees s
        → KeepPromisesOfTrees K.cmp K.matching (turns_of K.cmp K.matching lines s) }
{}
