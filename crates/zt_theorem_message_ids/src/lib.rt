//! What the ids of messages name, line for line: theorems over the machine of `zt_model`, each the
//! contract of a function that does nothing.
#![tactic(auto)]

ghost use Rattle.std.specs.Prelude.{List};
ghost use Rattle.zt_protocol.specs.Plain.{PlainLine};
ghost use Rattle.zt_model.specs.Fabric.{Fabric};
ghost use Rattle.zt_model.specs.Promises.{DrawsNextIds, EndsWhatStands};
ghost use Rattle.zt_model.specs.Transcript.{Each};
ghost use Rattle.zt_laws.specs.Order.{FabricIsInOrder};
ghost use Rattle.zt_laws.specs.Shown.{turns_of};
ghost use Rattle.zt_laws.specs.Sound.{HasFirstIds};
ghost use Rattle.zt_theorem_message_ids.specs.Anew.{TellsWhatIsNew};

use zt_keys::Key;

/// In each turn of the machine's transcript what is ended by an id stands under it, message by
/// message: a pair that a face keeps where it is undeclared, an interest upstream where its final
/// is printed. And a token that answers nobody is told under the next id.
pub fn turns_end_what_stands<K: Key>()
    ensures { (lines : List (PlainLine K)) (s : Fabric K) → Each HasFirstIds lines
        → FabricIsInOrder K.cmp K.matching s
        → Each (EndsWhatStands K.cmp K.matching) (turns_of K.cmp K.matching lines s) }
{}

/// And its ids are drawn one after another: a token's real id is its face's next one, or that under
/// which the face keeps it, and an interest's is the next one.
pub fn turns_draw_next_ids<K: Key>()
    ensures { (lines : List (PlainLine K)) (s : Fabric K) → Each HasFirstIds lines
        → FabricIsInOrder K.cmp K.matching s
        → Each (DrawsNextIds K.cmp K.matching) (turns_of K.cmp K.matching lines s) }
{}

/// And a token that answers nobody is told only a face that doesn't keep it yet, as the face is when
/// the message comes to it.
pub fn turns_tell_what_is_new<K: Key>()
    ensures { (lines : List (PlainLine K)) (s : Fabric K) → Each HasFirstIds lines
        → FabricIsInOrder K.cmp K.matching s
        → Each (TellsWhatIsNew K.cmp K.matching) (turns_of K.cmp K.matching lines s) }
{}
