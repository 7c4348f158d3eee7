//! What faces keep, whatever is called: theorems over the definitions of `zt_model`, each the
//! contract of a function that does nothing. `specs/Sound.antt` has the words for what stays true
//! of a gateway, and `specs/Ran.antt` says what the parts of a call run to.
#![tactic(auto)]

ghost use Rattle.std.specs.Prelude.{◌≡◌, Bool, true, [], None};
ghost use Rattle.zt_protocol.specs.Plain.{PlainCall, PlainLine};
ghost use Rattle.zt_model.specs.Fabric.{Fabric, empty_fabric, entry_of, fabric_after};
ghost use Rattle.zt_model.specs.Journal.{rows_after};
ghost use Rattle.zt_model.specs.Refusals.{call_causes, first_cause, spends_ids};
ghost use Rattle.zt_model.specs.Rows.{Face, Rows};
ghost use Rattle.zt_model.specs.Says.{is_routed, parts_of};
ghost use Rattle.zt_model.specs.Transcript.{AllKeepWhatTheyShould, Each, KeepsWhatItShould};
ghost use Rattle.zt_model.specs.Visible.{is_visible, keeps};
ghost use Rattle.zt_model.specs.Wants.{covers};
ghost use Rattle.zt_laws.specs.Sound.{CallHasFirstIds, HasFirstIds, rows_after_call};
ghost use Rattle.zt_theorem_soundness.specs.Lines.{EachGatewayIs};
ghost use Rattle.zt_theorem_soundness.specs.Ran.{ran};
ghost use Rattle.zt_theorem_soundness.specs.Sound.{IsSound};

use zt_keys::Key;

/// What a call leaves is what its parts run to, one after another: a change may wait for what was
/// said before it.
pub fn calls_run_their_parts<K: Key>()
    ensures { (c : PlainCall K) (g : Rows K)
        → rows_after_call K.cmp K.matching c g ≡ ran K.cmp (parts_of K.cmp K.matching c g) g }
{}

/// Every accepted call leaves a gateway sound: its lists in order, each face outside router regions
/// with visible tokens alone that it seeks, among them every admitted one that it covers, and each
/// ask beside what it needs. `any` says the same of a call, be it accepted or refused.
pub fn calls_leave_gateways_sound<K: Key>()
    ensures accepted { (spent : Bool) (c : PlainCall K) (g : Rows K) → CallHasFirstIds c
        → first_cause (call_causes K.cmp K.matching spent c g) ≡ None
        → IsSound K.cmp K.matching g
        → IsSound K.cmp K.matching (rows_after_call K.cmp K.matching c g) }
    ensures any { (c : PlainCall K) (g : Rows K) → CallHasFirstIds c → IsSound K.cmp K.matching g
        → IsSound K.cmp K.matching (rows_after K.cmp K.matching c g) }
{}

/// So does every line of a script, accepted or refused: all gateways of the empty fabric are sound,
/// and each line leaves them so. In sound gateways faces keep what they should.
pub fn lines_leave_gateways_sound<K: Key>()
    ensures start { EachGatewayIs K.cmp K.matching (IsSound K.cmp K.matching) empty_fabric }
    ensures step { (line : PlainLine K) (s : Fabric K) → HasFirstIds line
        → EachGatewayIs K.cmp K.matching (IsSound K.cmp K.matching) s
        → EachGatewayIs K.cmp K.matching (IsSound K.cmp K.matching)
        (fabric_after K.cmp K.matching line (entry_of K.cmp K.matching line s) s) }
    ensures keeps { (s : Fabric K) → EachGatewayIs K.cmp K.matching (IsSound K.cmp K.matching) s
        → AllKeepWhatTheyShould K.cmp K.matching s }
{}

/// Where an admission table refuses no pair, a face that keeps what it should keeps, of what it
/// covers, exactly what is visible.
pub fn admitted_faces_keep_exactly<K: Key>()
    ensures { (g : Rows K) (f : Face K) (e : K) → KeepsWhatItShould K.cmp K.matching g f
        → g.refused ≡ [] → covers K.matching g.mode f e ≡ true
        → keeps K.cmp f e ≡ is_visible K.cmp g f.region e }
{}
