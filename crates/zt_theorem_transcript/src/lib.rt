//! What a transcript of the machine is: theorems over the machine of `zt_model`, each the contract
//! of a function that does nothing. They stand on `zt_theorem_soundness`, `zt_theorem_drawn_ids`
//! and `zt_theorem_visibility`. Each part is said of the turns of a transcript, from any fabric of
//! sound gateways on, and at the end they are put together.
#![tactic(auto)]

ghost use Rattle.std.specs.Prelude.{List};
ghost use Rattle.zt_protocol.specs.Plain.{PlainLine};
ghost use Rattle.zt_model.specs.Fabric.{Fabric, empty_fabric, entries_from};
ghost use Rattle.zt_model.specs.Transcript.{AllKeepWhatTheyShould, Each, IsEntry, IsFaithfulFrom};
ghost use Rattle.zt_model.specs.Transcript.{IsRefusedByCause, IsStrictFrom, LacksIdsByCall};
ghost use Rattle.zt_model.specs.Transcript.{NamesOpenFaces, StandInOrderOfFace, messages_of};
ghost use Rattle.zt_laws.specs.Order.{FabricIsInOrder};
ghost use Rattle.zt_laws.specs.Shown.{as_shown, turns_of};
ghost use Rattle.zt_laws.specs.Sound.{HasFirstIds};
ghost use Rattle.zt_theorem_soundness.specs.Lines.{EachGatewayIs};
ghost use Rattle.zt_theorem_soundness.specs.Sound.{IsSound};
ghost use Rattle.zt_theorem_transcript.specs.Named.{FabricHasNamedOptions, HasNamedOptions};

use zt_keys::Key;

/// After each entry faces keep what they should, and what an entry prints stands in order of face.
pub fn entries_stand_in_order<K: Key>()
    ensures keeps { (lines : List (PlainLine K)) (s : Fabric K) → Each HasFirstIds lines
        → EachGatewayIs K.cmp K.matching (IsSound K.cmp K.matching) s
        → Each (λ t. AllKeepWhatTheyShould K.cmp K.matching t.after)
        (turns_of K.cmp K.matching lines s) }
    ensures in_order { (lines : List (PlainLine K)) (s : Fabric K) → Each HasFirstIds lines
        → EachGatewayIs K.cmp K.matching (IsSound K.cmp K.matching) s
        → Each (λ t. StandInOrderOfFace (messages_of t.entry)) (turns_of K.cmp K.matching lines s) }
{}

/// Each message of an entry names an open face, as the transcript shows it after the entry, and the
/// face's gateway.
pub fn messages_name_open_faces<K: Key>()
    ensures { (lines : List (PlainLine K)) (s : Fabric K) → Each HasFirstIds lines
        → FabricIsInOrder K.cmp K.matching s
        → Each (λ t. NamesOpenFaces t.entry t.after) (turns_of K.cmp K.matching lines s) }
{}

/// Each line is refused exactly by its first cause, read over the fabric as the transcript shows
/// it; that too few ids are left is read by what the line could draw at the most. And too few are
/// left only for the line's own call, by what that could draw.
pub fn lines_are_refused_by_cause<K: Key>()
    ensures causes { (lines : List (PlainLine K)) (s : Fabric K) → Each HasFirstIds lines
        → EachGatewayIs K.cmp K.matching (IsSound K.cmp K.matching) s
        → Each (λ t. IsRefusedByCause K.cmp K.matching t.line t.entry t.before)
        (turns_of K.cmp K.matching lines s) }
    ensures ids { (lines : List (PlainLine K)) (s : Fabric K) → Each HasFirstIds lines
        → EachGatewayIs K.cmp K.matching (IsSound K.cmp K.matching) s
        → Each (λ t. LacksIdsByCall K.cmp K.matching t.line t.entry t.before)
        (turns_of K.cmp K.matching lines s) }
{}

/// What is printed for a line is an entry: in order of face, its interests with named options
/// alone. So it is where the lines speak no others, and none is held or waits before.
pub fn entries_are_right<K: Key>()
    ensures { (lines : List (PlainLine K)) (s : Fabric K) → Each HasFirstIds lines
        → Each HasNamedOptions lines → FabricIsInOrder K.cmp K.matching s
        → FabricHasNamedOptions s
        → Each (λ t. IsEntry t.entry) (turns_of K.cmp K.matching lines s) }
{}

/// The transcript theorem: whatever the lines are, the machine's entries are faithful and strict,
/// from the empty fabric on, and from each fabric of sound gateways on, as the transcript shows it.
/// First ids are at least 1, and interests that lines speak carry named options alone.
pub fn scripts_are_faithful<K: Key>()
    ensures faithful { (lines : List (PlainLine K)) → Each HasFirstIds lines
        → Each HasNamedOptions lines
        → IsFaithfulFrom K.cmp K.matching lines
        (entries_from K.cmp K.matching lines empty_fabric) empty_fabric }
    ensures strict { (lines : List (PlainLine K)) → Each HasFirstIds lines
        → IsStrictFrom K.cmp K.matching lines
        (entries_from K.cmp K.matching lines empty_fabric) empty_fabric }
    ensures faithful_from { (lines : List (PlainLine K)) (s : Fabric K) → Each HasFirstIds lines
        → Each HasNamedOptions lines → EachGatewayIs K.cmp K.matching (IsSound K.cmp K.matching) s
        → FabricHasNamedOptions s
        → IsFaithfulFrom K.cmp K.matching lines (entries_from K.cmp K.matching lines s)
        (as_shown s) }
    ensures strict_from { (lines : List (PlainLine K)) (s : Fabric K) → Each HasFirstIds lines
        → EachGatewayIs K.cmp K.matching (IsSound K.cmp K.matching) s
        → IsStrictFrom K.cmp K.matching lines (entries_from K.cmp K.matching lines s) (as_shown s) }
{}
