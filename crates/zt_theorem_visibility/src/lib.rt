//! What the turns of a transcript keep of its promises, whatever the lines are: theorems over the
//! machine of `zt_model`, each the contract of a function that does nothing. They stand on
//! `zt_theorem_soundness`, what stays true of a gateway.
#![tactic(auto)]

ghost use Rattle.std.specs.Prelude.{◌≡◌, ℕ, Bool, true, false, List, Option, Some, None};
ghost use Rattle.zt_protocol.specs.Plain.{DeclareToken, PlainLine};
ghost use Rattle.zt_model.specs.Fabric.{Fabric, empty_fabric};
ghost use Rattle.zt_model.specs.Promises.{KeepsExactly, TellsOfRouters, TellsTheFuture};
ghost use Rattle.zt_model.specs.Promises.{TellsWhoWants};
ghost use Rattle.zt_model.specs.Refusals.{call_causes, first_cause};
ghost use Rattle.zt_model.specs.Rows.{Face, Rows};
ghost use Rattle.zt_model.specs.Says.{find_face, is_routed, registers};
ghost use Rattle.zt_model.specs.Transcript.{AllKeepWhatTheyShould, Each};
ghost use Rattle.zt_laws.specs.Order.{FabricIsInOrder, RowsAreInOrder};
ghost use Rattle.zt_laws.specs.Shown.{turns_of};
ghost use Rattle.zt_laws.specs.Sound.{HasFirstIds, rows_after_call};
ghost use Rattle.zt_theorem_soundness.specs.Lines.{EachGatewayIs};
ghost use Rattle.zt_theorem_soundness.specs.Sound.{IsSound};

use zt_keys::Key;

/// After each turn of the machine's transcript faces keep what they should; and where an admission
/// table refuses no pair, of what they cover exactly what is visible. It is so from each fabric of
/// sound gateways on, as the transcript shows it, so from the empty one too.
pub fn turns_keep_what_is_visible<K: Key>()
    ensures keeps { (lines : List (PlainLine K)) (s : Fabric K) → Each HasFirstIds lines
        → EachGatewayIs K.cmp K.matching (IsSound K.cmp K.matching) s
        → Each (λ t. AllKeepWhatTheyShould K.cmp K.matching t.after)
        (turns_of K.cmp K.matching lines s) }
    ensures exact { (lines : List (PlainLine K)) (s : Fabric K) → Each HasFirstIds lines
        → EachGatewayIs K.cmp K.matching (IsSound K.cmp K.matching) s
        → Each (KeepsExactly K.cmp K.matching) (turns_of K.cmp K.matching lines s) }
    ensures start { (lines : List (PlainLine K)) → Each HasFirstIds lines
        → Each (KeepsExactly K.cmp K.matching) (turns_of K.cmp K.matching lines empty_fabric) }
{}

/// After a declaration that registers, and after an accepted one of a router region, each face
/// outside router regions keeps the expression that wants it, if the pair of regions is admitted
/// and the region shown.
pub fn declarations_reach_who_wants<K: Key>()
    ensures plain { (n id node : ℕ) (e : K) (interest : Option ℕ) (f : Face K) (g : Rows K)
        → RowsAreInOrder K.cmp K.matching g → find_face n g ≡ Some f → is_routed g f ≡ false
        → registers f interest ≡ true
        → TellsWhoWants K.cmp K.matching f.region e (rows_after_call K.cmp K.matching
        (DeclareToken n id e node interest) g) }
    ensures routed { (spent : Bool) (n id node : ℕ) (e : K) (interest : Option ℕ) (f : Face K)
        (g : Rows K)
        → RowsAreInOrder K.cmp K.matching g
        → first_cause (call_causes K.cmp K.matching spent (DeclareToken n id e node interest) g)
        ≡ None
        → find_face n g ≡ Some f → is_routed g f ≡ true
        → TellsWhoWants K.cmp K.matching f.region e (rows_after_call K.cmp K.matching
        (DeclareToken n id e node interest) g) }
{}

/// So each turn of the machine's transcript tells the future: after an accepted declaration that
/// registers, or that is of a router region, whoever wants its token keeps it.
pub fn turns_tell_the_future<K: Key>()
    ensures future { (lines : List (PlainLine K)) (s : Fabric K) → Each HasFirstIds lines
        → FabricIsInOrder K.cmp K.matching s
        → Each (TellsTheFuture K.cmp K.matching) (turns_of K.cmp K.matching lines s) }
    ensures routers { (lines : List (PlainLine K)) (s : Fabric K) → Each HasFirstIds lines
        → FabricIsInOrder K.cmp K.matching s
        → Each (TellsOfRouters K.cmp K.matching) (turns_of K.cmp K.matching lines s) }
{}
