//! Trees of client gateways over every schedule: theorems over the definitions of `zt_model`, each
//! the contract of a function that does nothing. `specs/Joints.antt` has the words for links,
//! `specs/Facts.antt` what is true of a fabric of trees after every line.
#![tactic(auto)]

ghost use Rattle.std.specs.Prelude.{◌≡◌, ◌≢◌, ◌≤◌, ◌+◌, ℕ, Bool, true, [], Some, Err};
ghost use Rattle.zt_region.specs.declared.region.Bound.{Bound};
ghost use Rattle.zt_region.specs.declared.region.Region.TheVariants.{North};
ghost use Rattle.zt_region.specs.declared.region.WhatAmI.{WhatAmI};
ghost use Rattle.zt_region.specs.declared.region.WhatAmI.TheVariants.{Client};
ghost use Rattle.zt_region.specs.declared.region.Zid.{Zid};
ghost use Rattle.zt_protocol.specs.Plain.{NewTransport, PlainCall, PlainLine};
ghost use Rattle.zt_protocol.specs.declared.errors.Refusal.TheVariants.{IdsSpent};
ghost use Rattle.zt_model.specs.Fabric.{Fabric, Node, empty_fabric, entry_of, fabric_after};
ghost use Rattle.zt_model.specs.Hearing.{messages_for};
ghost use Rattle.zt_model.specs.Parts.{find_face};
ghost use Rattle.zt_model.specs.Rows.{Face, Rows};
ghost use Rattle.zt_model.specs.Says.{said};
ghost use Rattle.zt_model.specs.Transcript.{AllKeepWhatTheyShould, Each, FaceAt, face_numbered};
ghost use Rattle.zt_model.specs.TreePromises.{KnowsItsTree, are_links_empty};
ghost use Rattle.zt_model.specs.TreePromises.{is_plain_number};
ghost use Rattle.zt_laws.specs.Order.{FabricIsInOrder, RowsAreInOrder};
ghost use Rattle.zt_laws.specs.Sound.{rows_after_call};
ghost use Rattle.zt_theorem_tree_invariant.specs.Facts.{IsTreeGateway, JointAgrees, TreesAgree};
ghost use Rattle.zt_theorem_tree_invariant.specs.Joints.{EachJoint, changes_no_link, is_call_or_step};
ghost use Rattle.zt_theorem_tree_invariant.specs.Trees.{FacesFormTrees};

use zt_keys::Key;

/// Before the first line all of it holds.
pub fn trees_agree_at_first<K: Key>()
    ensures { TreesAgree K.cmp K.matching empty_fabric }
{}

/// Knowledge, of one fabric: where trees agree, each face keeps what it should and nothing waits on
/// any link, an open plain face keeps, of what is owed to it, exactly what is live at plain faces
/// of its gateway's tree.
pub fn plain_faces_know_their_trees<K: Key>()
    ensures { (s : Fabric K) (n : ℕ) (x : FaceAt K) → FabricIsInOrder K.cmp K.matching s
        → TreesAgree K.cmp K.matching s
        → FacesFormTrees s → AllKeepWhatTheyShould K.cmp K.matching s → are_links_empty s ≡ true
        → face_numbered s n ≡ Some x → is_plain_number s n ≡ true
        → KnowsItsTree K.cmp K.matching s x.gateway x.face }
{}

/// Every line but those that open and close links, in any order: after it, be it accepted or
/// refused, what waits on each open link still makes of the one end's rows what the other end was
/// told. Only where a line was refused for want of ids a row may be lost.
pub fn lines_between_links_keep_joints<K: Key>()
    ensures { (line : PlainLine K) (s : Fabric K) → changes_no_link line ≡ true
        → FabricIsInOrder K.cmp K.matching s → TreesAgree K.cmp K.matching s
        → entry_of K.cmp K.matching line s ≢ Err IdsSpent
        → EachJoint (JointAgrees K.cmp)
        (fabric_after K.cmp K.matching line (entry_of K.cmp K.matching line s) s) }
{}

/// A call or a step keeps all of `TreesAgree`, where it leaves gateways of trees: links stay as
/// they were made, and no gateway comes to lie above itself. It may close a plain face.
pub fn calls_and_steps_keep_trees<K: Key>()
    ensures { (line : PlainLine K) (s : Fabric K) → is_call_or_step line ≡ true
        → FabricIsInOrder K.cmp K.matching s → TreesAgree K.cmp K.matching s
        → entry_of K.cmp K.matching line s ≢ Err IdsSpent
        → (let after = fabric_after K.cmp K.matching line (entry_of K.cmp K.matching line s) s in
        Each (λ (node : Node K). IsTreeGateway K.cmp K.matching node.rows) after.gateways
        → TreesAgree K.cmp K.matching after) }
{}

/// A link that opens agrees: the new face to the north of a client gateway, with what is said to it
/// and waits, and a new face above of which nothing is live, told, held or asked yet.
pub fn new_links_agree<K: Key>()
    ensures { (zid : Zid) (whatami : WhatAmI) (bound : Bound) (first : ℕ) (g : Rows K)
        (lower upper : Face K) → IsTreeGateway K.cmp K.matching g
        → RowsAreInOrder K.cmp K.matching g → g.mode ≡ Client → 1 ≤ first
        → (let opens : PlainCall K = NewTransport zid whatami North bound first in
        find_face (g.made + 1) (rows_after_call K.cmp K.matching opens g) ≡ Some lower
        → upper.live ≡ [] → upper.told ≡ [] → upper.held ≡ [] → upper.asks ≡ []
        → JointAgrees K.cmp lower upper
        (messages_for (g.made + 1) (said K.cmp K.matching opens g)) []) }
{}
