//! When asks end and which finals are printed, line for line: theorems over the machine of
//! `zt_model`, each the contract of a function that does nothing.
#![tactic(auto)]

ghost use Rattle.std.specs.Prelude.{List};
ghost use Rattle.zt_protocol.specs.Plain.{PlainLine};
ghost use Rattle.zt_model.specs.Fabric.{Fabric, empty_fabric, entry_of, fabric_after};
ghost use Rattle.zt_model.specs.Promises.{EachFace, FinishesAsks, FinishesInitial};
ghost use Rattle.zt_model.specs.Promises.{NothingFollowsFinals, printed_to, IsFinalOfSome};
ghost use Rattle.zt_model.specs.Promises.{SendsFinals, printed};
ghost use Rattle.zt_model.specs.Transcript.{Each};
ghost use Rattle.zt_laws.specs.Order.{FabricIsInOrder};
ghost use Rattle.zt_laws.specs.Shown.{turns_of};
ghost use Rattle.zt_laws.specs.Sound.{HasFirstIds};
ghost use Rattle.zt_theorem_soundness.specs.Lines.{EachGatewayIs};
ghost use Rattle.zt_theorem_finals.specs.Open.{AsksAreOpen};

use zt_keys::Key;

/// In each turn of the machine's transcript finals come last: after a final that is printed for
/// an open face, nothing that is printed for it answers the final's interest.
pub fn turns_finals_come_last<K: Key>()
    ensures { (lines : List (PlainLine K)) (s : Fabric K) → Each HasFirstIds lines
        → FabricIsInOrder K.cmp K.matching s
        → Each (λ t. EachFace (λ n g f. NothingFollowsFinals (printed_to t n f)) t.after)
        (turns_of K.cmp K.matching lines s) }
{}

/// And it finishes initial interests: for a face that its line opens, it prints one final of the id
/// 0 where the face has an initial interest, and else none.
pub fn turns_finish_initial_interests<K: Key>()
    ensures { (lines : List (PlainLine K)) (s : Fabric K) → Each HasFirstIds lines
        → FabricIsInOrder K.cmp K.matching s
        → Each (FinishesInitial K.cmp K.matching) (turns_of K.cmp K.matching lines s) }
{}

/// Every line, accepted or refused, leaves the asks of each gateway open: a pending of each ask
/// stands, and faces of router regions have none. So are they in the empty fabric.
pub fn lines_leave_asks_open<K: Key>()
    ensures start { EachGatewayIs K.cmp K.matching (AsksAreOpen K.cmp K.matching) empty_fabric }
    ensures step { (line : PlainLine K) (s : Fabric K) → HasFirstIds line
        → EachGatewayIs K.cmp K.matching (AsksAreOpen K.cmp K.matching) s
        → EachGatewayIs K.cmp K.matching (AsksAreOpen K.cmp K.matching)
        (fabric_after K.cmp K.matching line (entry_of K.cmp K.matching line s) s) }
{}

/// So each turn finishes asks: each gets one final in the turn in which its last pending ends, or
/// in which its interest is finalised, if it asked for both, or in its own turn, if it was sent to
/// nobody; and none in another. It is so from each fabric on whose asks are open, so from the empty
/// one too.
pub fn turns_finish_asks<K: Key>()
    ensures any { (lines : List (PlainLine K)) (s : Fabric K) → Each HasFirstIds lines
        → EachGatewayIs K.cmp K.matching (AsksAreOpen K.cmp K.matching) s
        → Each (FinishesAsks K.cmp K.matching) (turns_of K.cmp K.matching lines s) }
    ensures start { (lines : List (PlainLine K)) → Each HasFirstIds lines
        → Each (FinishesAsks K.cmp K.matching) (turns_of K.cmp K.matching lines empty_fabric) }
{}

/// Each final that a turn of the machine's transcript prints is that of an ask that stands at its
/// face once the line has changed what it changes, or has the id 0 and is for a mutual peer that
/// the line opens.
pub fn turns_print_no_other_finals<K: Key>()
    ensures { (lines : List (PlainLine K)) (s : Fabric K) → Each HasFirstIds lines
        → FabricIsInOrder K.cmp K.matching s
        → Each (λ t. Each (λ m. IsFinalOfSome K.cmp K.matching t m.face m.message) (printed t))
        (turns_of K.cmp K.matching lines s) }
{}

/// So each turn sends the finals that are promised: each ask gets one in the turn that ends it and
/// in no other, no others are printed, and they come last. It is so from each fabric on whose asks
/// are open, so from the empty one too.
pub fn turns_send_finals<K: Key>()
    ensures any { (lines : List (PlainLine K)) (s : Fabric K) → Each HasFirstIds lines
        → EachGatewayIs K.cmp K.matching (AsksAreOpen K.cmp K.matching) s
        → Each (SendsFinals K.cmp K.matching) (turns_of K.cmp K.matching lines s) }
    ensures start { (lines : List (PlainLine K)) → Each HasFirstIds lines
        → Each (SendsFinals K.cmp K.matching) (turns_of K.cmp K.matching lines empty_fabric) }
{}
