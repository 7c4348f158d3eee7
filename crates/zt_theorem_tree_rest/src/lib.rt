//! Trees of client gateways come to rest: theorems over the definitions of `zt_model`, each the
//! contract of a function that does nothing. `specs/Steps.antt` says how many steps can follow one
//! another at the most, and `specs/Rest.antt` what is true of trees where no step follows any more;
//! `specs/Ways.antt` has the words for which way messages go on.
#![tactic(auto)]

ghost use Rattle.std.specs.Prelude.{◌≡◌, ◌≢◌, ◌⊎◌, ◌+◌, ◌≤◌, ℕ, Bool, true, false, List, length};
ghost use Rattle.std.specs.Prelude.{Some, Err};
ghost use Rattle.zt_region.specs.Region.{is_north};
ghost use Rattle.zt_protocol.specs.Plain.{PlainCall, PlainLine, Step};
ghost use Rattle.zt_protocol.specs.declared.errors.Refusal.TheVariants.{IdsSpent};
ghost use Rattle.zt_model.specs.Fabric.{Fabric, empty_fabric, entries_from, entry_of, fabric_after};
ghost use Rattle.zt_model.specs.Parts.{find_face};
ghost use Rattle.zt_model.specs.Promises.{turns_from};
ghost use Rattle.zt_model.specs.Rows.{Face, Rows};
ghost use Rattle.zt_model.specs.Says.{said};
ghost use Rattle.zt_model.specs.Transcript.{Each};
ghost use Rattle.zt_model.specs.TreePromises.{are_links_empty};
ghost use Rattle.zt_laws.specs.Sound.{HasFirstIds};
ghost use Rattle.zt_theorem_soundness.specs.Sound.{IsSound};
ghost use Rattle.zt_theorem_tree_invariant.specs.Facts.{IsTreeGateway};
ghost use Rattle.zt_theorem_tree_invariant.specs.Trees.{FacesFormTrees, LeavesTrees};
ghost use Rattle.zt_theorem_tree_rest.specs.Rest.{IsAtRest, NoneFollows, StepsFollow, TreesStand};
ghost use Rattle.zt_theorem_tree_rest.specs.Rest.{fabric_after_all};
ghost use Rattle.zt_theorem_tree_rest.specs.Steps.{QueuesStand, messages_waiting, most_steps, plain_most};
ghost use Rattle.zt_theorem_tree_rest.specs.Steps.{takes_message};
ghost use Rattle.zt_theorem_tree_rest.specs.Ways.{ComesFromAbove, ComesFromBelow, going_up, is_for_above};

use zt_keys::Key;

/// Messages go on away from where they came, at a sound gateway of a tree. What a gateway above
/// sends makes nothing go up again. What a gateway below sends makes at most one message go up,
/// beside ends of interests.
pub fn messages_go_on_away<K: Key>()
    ensures above { (g : Rows K) (n : ℕ) (f : Face K) (c : PlainCall K)
        → IsSound K.cmp K.matching g → IsTreeGateway K.cmp K.matching g
        → find_face n g ≡ Some f → is_north f.region ≡ true → ComesFromAbove n c
        → Each (λ m. is_for_above g m ≡ false) (said K.cmp K.matching c g) }
    ensures below { (g : Rows K) (n : ℕ) (f : Face K) (c : PlainCall K)
        → IsSound K.cmp K.matching g → IsTreeGateway K.cmp K.matching g
        → find_face n g ≡ Some f → is_north f.region ≡ false → ComesFromBelow n c
        → going_up g (said K.cmp K.matching c g) ≤ 1 }
{}

/// What fabrics of trees have at first, every line leaves, be it accepted or refused, where the
/// fabric after it is still one of trees and the line wasn't refused for want of ids.
pub fn trees_stand_after_every_line<K: Key>()
    ensures start { TreesStand K.cmp K.matching empty_fabric }
    ensures step { (line : PlainLine K) (s : Fabric K)
        → HasFirstIds line → TreesStand K.cmp K.matching s
        → (let entry = entry_of K.cmp K.matching line s in
        let after = fabric_after K.cmp K.matching line entry s in
        entry ≢ Err IdsSpent → FacesFormTrees after → TreesStand K.cmp K.matching after) }
{}

/// Steps come to an end. Where nothing but steps comes, each of which takes a message and isn't
/// refused for want of ids, at most `most_steps` follow one another, and as many fewer as messages
/// still wait: `bounded`. It is the same whether a message's call is accepted or refused. `plainly`
/// has a bound in plain numbers. Where a message waits, a step takes one: `goes_on`. A step that
/// takes none changes nothing: `still`.
pub fn steps_come_to_an_end<K: Key>()
    ensures bounded { (lines : List (PlainLine K)) (s : Fabric K)
        → TreesStand K.cmp K.matching s → StepsFollow K.cmp K.matching lines s
        → (let after = fabric_after_all K.cmp K.matching lines s in
        messages_waiting after + length lines ≤ most_steps K.cmp s) }
    ensures plainly { (s : Fabric K) → TreesStand K.cmp K.matching s
        → most_steps K.cmp s ≤ plain_most K.cmp s }
    ensures goes_on { (s : Fabric K)
        → QueuesStand s → are_links_empty s ≡ false
        → (link : ℕ) × (back : Bool)
        × (takes_message (entry_of K.cmp K.matching (Step link back) s) ≡ true) }
    ensures still { (link : ℕ) (back : Bool) (s : Fabric K)
        → (let entry = entry_of K.cmp K.matching (Step link back) s in
        takes_message entry ≡ false → fabric_after K.cmp K.matching (Step link back) entry s ≡ s) }
{}

/// Everybody knows in the end. From a fabric of trees, once steps alone have followed until none
/// follows any more, or so many as `most_steps` says, nothing waits, and each open plain face
/// keeps, of what is owed to it, exactly what is live at plain faces of its gateway's tree.
pub fn trees_come_to_rest<K: Key>()
    ensures { (lines : List (PlainLine K)) (s : Fabric K)
        → TreesStand K.cmp K.matching s → FacesFormTrees s
        → StepsFollow K.cmp K.matching lines s
        → (let after = fabric_after_all K.cmp K.matching lines s in
        NoneFollows K.cmp K.matching after ⊎ (most_steps K.cmp s ≤ length lines)
        → IsAtRest K.cmp K.matching after) }
{}

/// The same of scripts, from the empty fabric on. Where a transcript of trees refuses no line for
/// want of ids, at most so many steps follow its last line, and after them all is at rest.
pub fn scripts_come_to_rest<K: Key>()
    ensures bounded { (lines steps : List (PlainLine K))
        → Each HasFirstIds lines
        → (let entries = entries_from K.cmp K.matching lines empty_fabric in
        let last = fabric_after_all K.cmp K.matching lines empty_fabric in
        let after = fabric_after_all K.cmp K.matching steps last in
        Each (LeavesTrees K.cmp K.matching) (turns_from K.cmp K.matching lines entries empty_fabric)
        → StepsFollow K.cmp K.matching steps last
        → messages_waiting after + length steps ≤ most_steps K.cmp last) }
    ensures rests { (lines steps : List (PlainLine K))
        → Each HasFirstIds lines
        → (let entries = entries_from K.cmp K.matching lines empty_fabric in
        let last = fabric_after_all K.cmp K.matching lines empty_fabric in
        let after = fabric_after_all K.cmp K.matching steps last in
        Each (LeavesTrees K.cmp K.matching) (turns_from K.cmp K.matching lines entries empty_fabric)
        → StepsFollow K.cmp K.matching steps last
        → NoneFollows K.cmp K.matching after ⊎ (most_steps K.cmp last ≤ length steps)
        → IsAtRest K.cmp K.matching after) }
{}
