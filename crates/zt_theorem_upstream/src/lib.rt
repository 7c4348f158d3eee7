//! What goes upstream, whatever is called: theorems over the definitions of `zt_model`, each the
//! contract of a function that does nothing.
#![tactic(auto)]

ghost use Rattle.std.specs.Prelude.{◌≡◌, ◌≤◌, ℕ, false, List};
ghost use Rattle.zt_region.specs.declared.region.Bound.{Bound};
ghost use Rattle.zt_region.specs.declared.region.Region.{Region};
ghost use Rattle.zt_region.specs.declared.region.WhatAmI.{WhatAmI};
ghost use Rattle.zt_region.specs.declared.region.Zid.{Zid};
ghost use Rattle.zt_protocol.specs.Plain.{PlainCall, NewTransport, PlainLine};
ghost use Rattle.zt_model.specs.Fabric.{Fabric, empty_fabric};
ghost use Rattle.zt_model.specs.Hearing.{messages_for};
ghost use Rattle.zt_model.specs.Promises.{EndsUpstream, SendsUpstream, interests_due, interests_in};
ghost use Rattle.zt_model.specs.Routing.{opened};
ghost use Rattle.zt_model.specs.Rows.{Rows};
ghost use Rattle.zt_model.specs.Says.{said};
ghost use Rattle.zt_model.specs.Transcript.{Each};
ghost use Rattle.zt_laws.specs.Order.{FabricIsInOrder, RowsAreInOrder};
ghost use Rattle.zt_laws.specs.Shown.{turns_of};
ghost use Rattle.zt_laws.specs.Sound.{HasFirstIds, opens_face};

use zt_keys::Key;

/// The interests that a call says to a face are those due to it: a call's own interest to each of
/// its targets, what south-bound faces hold to a new face to the north, and no other. `opening`
/// says it of the faces that are there once a transport's face is opened, the new one included.
pub fn calls_send_interests_due<K: Key>()
    ensures each { (gateway : ℕ) (c : PlainCall K) (g : Rows K) → opens_face c ≡ false
        → RowsAreInOrder K.cmp K.matching g
        → Each (λ f. interests_in (messages_for f.number (said K.cmp K.matching c g))
        ≡ interests_due K.cmp K.matching gateway f
        (record { gateway = gateway; rows = g; call = c })) g.faces }
    ensures opening { (gateway : ℕ) (zid : Zid) (whatami : WhatAmI) (region : Region)
        (bound : Bound) (first : ℕ) (g : Rows K)
        → 1 ≤ first → RowsAreInOrder K.cmp K.matching g
        → Each (λ f. interests_in (messages_for f.number (said K.cmp K.matching
        (NewTransport zid whatami region bound first) g))
        ≡ interests_due K.cmp K.matching gateway f
        (record {
          gateway = gateway;
          rows = g;
          call = NewTransport zid whatami region bound first;
        }))
        (opened zid whatami region bound first g).faces }
{}

/// So each turn of the machine's transcript prints upstream what is due: for each open face the
/// interests that its calls send to it, in their order, and no other.
pub fn turns_send_interests_due<K: Key>()
    ensures { (lines : List (PlainLine K)) (s : Fabric K) → Each HasFirstIds lines
        → FabricIsInOrder K.cmp K.matching s
        → Each (SendsUpstream K.cmp K.matching) (turns_of K.cmp K.matching lines s) }
{}

/// And after each of its lines, from the empty fabric on, what stands sent upstream to a face that
/// is sent all is what open south-bound faces hold, as pairs of expression and options: nothing is
/// left standing that nobody holds any more.
pub fn turns_end_interests_upstream<K: Key>()
    ensures { (lines : List (PlainLine K)) → Each HasFirstIds lines
        → Each (EndsUpstream K.cmp K.matching) (turns_of K.cmp K.matching lines empty_fabric) }
{}
