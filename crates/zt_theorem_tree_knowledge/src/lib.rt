//! What faces know in trees of client gateways, over every list of lines: theorems over the
//! definitions of `zt_model`, each the contract of a function that does nothing. They stand on
//! `zt_theorem_tree_invariant`, which says what is true of trees after every line. The first two
//! say what calls leave of single gateways.
#![tactic(auto)]

ghost use Rattle.std.specs.Prelude.{◌≡◌, ℕ, Bool, true, false, None, ◌≢◌, List, Err};
ghost use Rattle.std.specs.List.{list_any};
ghost use Rattle.zt_region.specs.declared.region.Bound.{Bound};
ghost use Rattle.zt_region.specs.declared.region.Bound.TheVariants.{South as SouthBound};
ghost use Rattle.zt_region.specs.declared.region.Region.TheVariants.{North, South};
ghost use Rattle.zt_region.specs.declared.region.WhatAmI.{WhatAmI};
ghost use Rattle.zt_region.specs.declared.region.WhatAmI.TheVariants.{Client};
ghost use Rattle.zt_region.specs.declared.region.Zid.{Zid};
ghost use Rattle.zt_region.specs.Region.{is_north};
ghost use Rattle.zt_protocol.specs.Plain.{NewSession, NewTransport, PlainCall, PlainLine};
ghost use Rattle.zt_model.specs.Refusals.{call_causes, first_cause};
ghost use Rattle.zt_model.specs.Rows.{Face, Rows};
ghost use Rattle.zt_laws.specs.Order.{RowsAreInOrder, FabricIsInOrder};
ghost use Rattle.zt_laws.specs.Sound.{opens_face, rows_after_call, HasFirstIds};
ghost use Rattle.zt_theorem_tree_invariant.specs.Facts.{IsTreeGateway, TreesAgree};
ghost use Rattle.zt_theorem_tree_invariant.specs.Trees.{FacesFormTrees, LeavesTrees};
ghost use Rattle.zt_protocol.specs.declared.errors.Refusal.TheVariants.{IdsSpent};
ghost use Rattle.zt_model.specs.Fabric.{Fabric, empty_fabric, entry_of, fabric_after};
ghost use Rattle.zt_model.specs.Transcript.{Each};
ghost use Rattle.zt_model.specs.TreePromises.{IsTreeTurn, KnowsTrees};
ghost use Rattle.zt_laws.specs.Shown.{turns_of};
ghost use Rattle.zt_theorem_soundness.specs.Lines.{EachGatewayIs};
ghost use Rattle.zt_theorem_soundness.specs.Sound.{IsSound};

use zt_keys::Key;

/// Every accepted call that opens no face leaves a gateway of trees one. So each interest in tokens
/// that a face below holds, now and later, stands sent up: it was sent before it was held, and it
/// ends above only with the last that asks for the same.
pub fn calls_leave_gateways_of_trees<K: Key>()
    ensures { (spent : Bool) (c : PlainCall K) (g : Rows K) → opens_face c ≡ false
        → first_cause (call_causes K.cmp K.matching spent c g) ≡ None
        → RowsAreInOrder K.cmp K.matching g → IsTreeGateway K.cmp K.matching g
        → IsTreeGateway K.cmp K.matching (rows_after_call K.cmp K.matching c g) }
{}

/// So does a call that opens a session, a client's face in a client region, or the one face of a
/// client gateway to the gateway above, which is sent all that faces below hold.
pub fn openings_leave_gateways_of_trees<K: Key>()
    ensures session { (first : ℕ) (g : Rows K) → RowsAreInOrder K.cmp K.matching g
        → IsTreeGateway K.cmp K.matching g
        → IsTreeGateway K.cmp K.matching (rows_after_call K.cmp K.matching (NewSession first) g) }
    ensures below { (zid : Zid) (id : ℕ) (bound : Bound) (first : ℕ) (g : Rows K)
        → RowsAreInOrder K.cmp K.matching g → IsTreeGateway K.cmp K.matching g
        → IsTreeGateway K.cmp K.matching
        (rows_after_call K.cmp K.matching
        (NewTransport zid Client (South id Client) bound first) g) }
    ensures above { (zid : Zid) (whatami : WhatAmI) (first : ℕ) (g : Rows K) → g.mode ≡ Client
        → list_any (λ (f : Face K). is_north f.region) g.faces ≡ false
        → RowsAreInOrder K.cmp K.matching g → IsTreeGateway K.cmp K.matching g
        → IsTreeGateway K.cmp K.matching
        (rows_after_call K.cmp K.matching (NewTransport zid whatami North SouthBound first) g) }
{}

/// Every line keeps what is true of trees, be it accepted or refused, links opening and closing in
/// any order, where the fabric after it is still one of trees and it wasn't refused for want of
/// ids. Opening a link is opening two faces and joining them; closing it is taking it out and
/// closing two faces.
pub fn lines_keep_trees<K: Key>()
    ensures { (line : PlainLine K) (s : Fabric K) → HasFirstIds line
        → FabricIsInOrder K.cmp K.matching s → TreesAgree K.cmp K.matching s
        → entry_of K.cmp K.matching line s ≢ Err IdsSpent
        → (let after = fabric_after K.cmp K.matching line (entry_of K.cmp K.matching line s) s in
        FacesFormTrees after → TreesAgree K.cmp K.matching after) }
{}

/// Knowledge, of every list of lines: in a transcript of trees that refuses no line for want of
/// ids, after each turn that leaves all links empty, each open plain face that asked for tokens now
/// and later keeps, of what is owed to it, exactly what is live at plain faces of its gateway's
/// tree. So it is from the empty fabric on, and from each that is sound and of trees that agree.
pub fn turns_know_their_trees<K: Key>()
    ensures start { (lines : List (PlainLine K)) → Each HasFirstIds lines
        → (let turns = turns_of K.cmp K.matching lines empty_fabric in
        Each (LeavesTrees K.cmp K.matching) turns → Each (KnowsTrees K.cmp K.matching) turns) }
    ensures later { (lines : List (PlainLine K)) (s : Fabric K) → Each HasFirstIds lines
        → EachGatewayIs K.cmp K.matching (IsSound K.cmp K.matching) s
        → TreesAgree K.cmp K.matching s
        → (let turns = turns_of K.cmp K.matching lines s in
        Each (LeavesTrees K.cmp K.matching) turns → Each (KnowsTrees K.cmp K.matching) turns) }
{}

/// Gateways that list client regions alone, and whose admission tables refuse nothing, leave trees:
/// in their transcripts open faces form trees after each turn. So what is promised of faces that
/// form trees holds there too, and that can be read off the lines that make gateways.
pub fn client_regions_form_trees<K: Key>()
    ensures { (lines : List (PlainLine K)) → Each HasFirstIds lines
        → (let turns = turns_of K.cmp K.matching lines empty_fabric in
        Each (IsTreeTurn K.cmp K.matching) turns → Each (LeavesTrees K.cmp K.matching) turns) }
{}
