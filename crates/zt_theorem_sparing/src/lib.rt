//! Which tokens faces are told of, and told that they are gone, line for line: theorems over the
//! machine of `zt_model`, each the contract of a function that does nothing.
#![tactic(auto)]

ghost use Rattle.std.specs.Prelude.{List};
ghost use Rattle.zt_protocol.specs.Plain.{PlainLine};
ghost use Rattle.zt_model.specs.Fabric.{Fabric};
ghost use Rattle.zt_model.specs.Promises.{IsMoreSparing, IsSparing, UndeclaresWhatIsGone};
ghost use Rattle.zt_model.specs.Promises.{UndeclaresWhatWasKept};
ghost use Rattle.zt_model.specs.Transcript.{Each};
ghost use Rattle.zt_laws.specs.Order.{FabricIsInOrder};
ghost use Rattle.zt_laws.specs.Shown.{turns_of};
ghost use Rattle.zt_laws.specs.Sound.{HasFirstIds};

use zt_keys::Key;

/// Each turn of the machine's transcript prints an undeclaration by expression for a face
/// outside router regions only where the face can't see the expression after the line.
pub fn turns_undeclare_what_is_gone<K: Key>()
    ensures { (lines : List (PlainLine K)) (s : Fabric K) → Each HasFirstIds lines
        → FabricIsInOrder K.cmp K.matching s
        → Each (UndeclaresWhatIsGone K.cmp K.matching) (turns_of K.cmp K.matching lines s) }
{}

/// Each turn of the machine's transcript is sparing. Outside router regions a token that answers
/// nobody is printed for a face only with a real id, and only if the face seeks it then; an answer
/// only for a token ask of its id that it matches.
pub fn turns_are_sparing<K: Key>()
    ensures { (lines : List (PlainLine K)) (s : Fabric K) → Each HasFirstIds lines
        → FabricIsInOrder K.cmp K.matching s
        → Each (IsSparing K.cmp K.matching) (turns_of K.cmp K.matching lines s) }
{}

/// And it is more sparing: outside router regions a token that answers nobody is admitted to its
/// face, but where the line opens that; and an answer is printed for a face of whatever region only
/// for a token ask of its id that it matches.
pub fn turns_are_more_sparing<K: Key>()
    ensures { (lines : List (PlainLine K)) (s : Fabric K) → Each HasFirstIds lines
        → FabricIsInOrder K.cmp K.matching s
        → Each (IsMoreSparing K.cmp K.matching) (turns_of K.cmp K.matching lines s) }
{}

/// And each undeclaration by id that it prints names a pair that its face kept before the line.
pub fn turns_undeclare_what_was_kept<K: Key>()
    ensures { (lines : List (PlainLine K)) (s : Fabric K) → Each HasFirstIds lines
        → FabricIsInOrder K.cmp K.matching s
        → Each (UndeclaresWhatWasKept K.cmp K.matching) (turns_of K.cmp K.matching lines s) }
{}
