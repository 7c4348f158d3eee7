//! What each line prints exactly, stricter than the promises of `zt_model`: undeclarations by expression, subscribers and
//! queryables, and node ids. Theorems over the machine, each the contract of a function that does nothing.
#![tactic(auto)]

ghost use Rattle.std.specs.Prelude.{List};
ghost use Rattle.zt_protocol.specs.Plain.{PlainLine};
ghost use Rattle.zt_model.specs.Fabric.{Fabric};
ghost use Rattle.zt_model.specs.Transcript.{Each};
ghost use Rattle.zt_laws.specs.Order.{FabricIsInOrder};
ghost use Rattle.zt_laws.specs.Shown.{turns_of};
ghost use Rattle.zt_laws.specs.Sound.{HasFirstIds};
ghost use Rattle.zt_theorem_exact_messages.specs.Entities.{AnswersEntities};
ghost use Rattle.zt_theorem_exact_messages.specs.Exact.{PrintsExactly};
ghost use Rattle.zt_theorem_exact_messages.specs.Nodes.{PrintsGivenNodes};
ghost use Rattle.zt_theorem_exact_messages.specs.Undeclared.{UndeclaresToWhoWants};

use zt_keys::Key;

/// Each turn of the machine's transcript answers an interest in what is there now and later, in
/// its own entry, exactly the subscribers and queryables that it asks for, each once and in order.
/// It prints no others.
pub fn turns_answer_entities<K: Key>()
    ensures { (lines : List (PlainLine K)) (s : Fabric K) → Each HasFirstIds lines
        → FabricIsInOrder K.cmp K.matching s
        → Each (AnswersEntities K.cmp K.matching) (turns_of K.cmp K.matching lines s) }
{}

/// Each undeclaration by expression that a turn prints has the id 0. Outside router regions its face
/// wants the expression and doesn't keep it, as the face is when the message comes to it.
pub fn turns_undeclare_to_who_wants<K: Key>()
    ensures { (lines : List (PlainLine K)) (s : Fabric K) → Each HasFirstIds lines
        → FabricIsInOrder K.cmp K.matching s
        → Each (UndeclaresToWhoWants K.cmp K.matching) (turns_of K.cmp K.matching lines s) }
{}

/// Each node id that a turn prints in a router region is the one that the region's table gives to a
/// router whose tokens go on to the face. A token's is that of a router which has it, or of the
/// gateway itself. Elsewhere, and where an ask is answered, it is 0.
pub fn turns_print_given_nodes<K: Key>()
    ensures { (lines : List (PlainLine K)) (s : Fabric K) → Each HasFirstIds lines
        → FabricIsInOrder K.cmp K.matching s
        → Each (PrintsGivenNodes K.cmp) (turns_of K.cmp K.matching lines s) }
{}

/// So each turn keeps all three.
pub fn turns_print_exactly<K: Key>()
    ensures { (lines : List (PlainLine K)) (s : Fabric K) → Each HasFirstIds lines
        → FabricIsInOrder K.cmp K.matching s
        → Each (PrintsExactly K.cmp K.matching) (turns_of K.cmp K.matching lines s) }
{}
