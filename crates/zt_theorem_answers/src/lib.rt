//! What asks get, whatever is called: theorems over the definitions of `zt_model`, each the
//! contract of a function that does nothing.
#![tactic(auto)]

ghost use Rattle.std.specs.Prelude.{◌≡◌, ℕ, List, Option, Some};
ghost use Rattle.zt_protocol.specs.Plain.{Interest, PlainLine};
ghost use Rattle.zt_protocol.specs.declared.interests.InterestMode.{InterestMode};
ghost use Rattle.zt_protocol.specs.declared.interests.InterestOptions.{InterestOptions};
ghost use Rattle.zt_model.specs.Fabric.{Fabric};
ghost use Rattle.zt_model.specs.Hearing.{messages_for};
ghost use Rattle.zt_model.specs.Promises.{AnswersAsks, answers_in};
ghost use Rattle.zt_model.specs.Rows.{Face, Rows};
ghost use Rattle.zt_model.specs.Says.{answered_expressions, find_face, row_of, said};
ghost use Rattle.zt_model.specs.Transcript.{Each};
ghost use Rattle.zt_laws.specs.Order.{FabricIsInOrder};
ghost use Rattle.zt_laws.specs.Shown.{turns_of};
ghost use Rattle.zt_laws.specs.Sound.{HasFirstIds};

use zt_keys::Key;

/// An interest is answered in its own call: where it asks for what is there now and for tokens,
/// exactly the matching expressions visible to its face, in key order, each once; else nothing.
pub fn interests_are_answered_at_once<K: Key>()
    ensures { (n id : ℕ) (mode : InterestMode) (options : InterestOptions) (e : Option K)
        (f : Face K) (g : Rows K)
        → find_face n g ≡ Some f
        → answers_in id (messages_for n (said K.cmp K.matching
        (Interest n id mode options e) g)) ≡ answered_expressions K.cmp K.matching g
        (row_of K.cmp K.matching f mode options e) f }
{}

/// So the asks of each turn of the machine's transcript are answered. An ask for tokens is answered
/// in its own entry exactly the matching expressions visible to its face. Later it is answered an
/// expression only where that is declared under one of its pendings, and then it is, once.
pub fn turns_answer_asks<K: Key>()
    ensures { (lines : List (PlainLine K)) (s : Fabric K) → Each HasFirstIds lines
        → FabricIsInOrder K.cmp K.matching s
        → Each (AnswersAsks K.cmp K.matching) (turns_of K.cmp K.matching lines s) }
{}
