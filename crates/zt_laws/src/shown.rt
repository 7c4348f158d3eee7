//! What a transcript shows of the machine: its fold over lines and printed messages, which doesn't
//! ask what a call says, comes to what the machine keeps.

ghost use Rattle.std.specs.Prelude.{◌≡◌, ℕ, Bool, Option};
ghost use Rattle.zt_region.specs.declared.region.Region.{Region};
ghost use Rattle.zt_region.specs.declared.region.WhatAmI.{WhatAmI};
ghost use Rattle.zt_protocol.specs.Plain.{PlainCall, PlainLine};
ghost use Rattle.zt_model.specs.Fabric.{Fabric, altered_by_line, empty_fabric, entry_of};
ghost use Rattle.zt_model.specs.Fabric.{fabric_after, said_by_line, sorted_by_face};
ghost use Rattle.zt_model.specs.Refusals.{would_send};
ghost use Rattle.zt_model.specs.Rows.{Face, Rows};
ghost use Rattle.zt_model.specs.Says.{altered, registers};
ghost use Rattle.zt_model.specs.Seen.{is_interested, is_owed, is_seen, is_seen_and_admitted};
ghost use Rattle.zt_model.specs.Seen.{may_hear, sees};
ghost use Rattle.zt_model.specs.Shown.{counts_as_declared, rows_shown};
ghost use Rattle.zt_model.specs.Transcript.{fabric_shown, fabric_with};
ghost use Rattle.zt_model.specs.Visible.{is_admitted, is_visible, shows};
ghost use Rattle.zt_model.specs.Wants.{covers, seeks, wants};
ghost use Rattle.zt_laws.specs.Order.{FabricIsInOrder, RowsAreInOrder};
ghost use Rattle.zt_laws.specs.Shown.{as_shown, without_own};

use zt_keys::Key;

/// What a transcript shows is what the machine keeps, but for the own rows of router regions, which
/// no transcript shows. It is so of the rows that a call changes itself, where an ask has the
/// pendings that the call sends; of the fabric that a line changes itself, by what the machine
/// prints for it; and of the fabric after each line, accepted or refused.
pub fn transcripts_show_what_is_kept<K: Key>()
    ensures call { (c : PlainCall K) (g : Rows K) → RowsAreInOrder K.cmp K.matching g
        → rows_shown K.cmp (would_send K.cmp K.matching c g) c (without_own g)
        ≡ without_own (altered K.cmp K.matching c g) }
    ensures start { as_shown empty_fabric ≡ empty_fabric {K = K} }
    ensures line { (line : PlainLine K) (s : Fabric K) → FabricIsInOrder K.cmp K.matching s
        → fabric_with K.cmp K.matching line (sorted_by_face (said_by_line K.cmp K.matching line s))
        (as_shown s)
        ≡ as_shown (altered_by_line K.cmp K.matching line s) }
    ensures entry { (line : PlainLine K) (s : Fabric K) → FabricIsInOrder K.cmp K.matching s
        → (let entry = entry_of K.cmp K.matching line s in
        fabric_shown K.cmp K.matching line entry (as_shown s)
        ≡ as_shown (fabric_after K.cmp K.matching line entry s)) }
{}

/// Promises read who wants a token and who sees it by words of their own. They come to the words
/// that the machine goes by, whatever the mode of the gateway: what counts as a declaration, what a
/// face is interested in, may hear and is owed, and what faces of a region see.
pub fn words_of_promises_are_kept_to<K: Key>()
    ensures declared { (f : Face K) (interest : Option ℕ)
        → counts_as_declared f interest ≡ registers f interest }
    ensures interested { (f : Face K) (e : K)
        → is_interested K.matching f e ≡ wants K.matching f e }
    ensures hears { (mode : WhatAmI) (f : Face K) (e : K)
        → may_hear K.matching f e ≡ seeks K.matching mode f e }
    ensures owed { (mode : WhatAmI) (f : Face K) (e : K)
        → is_owed K.matching f e ≡ covers K.matching mode f e }
    ensures regions { (mode : WhatAmI) (own source : Region)
        → sees own source ≡ shows mode own source }
    ensures seen { (g : Rows K) (own : Region) (e : K)
        → is_seen K.cmp g own e ≡ is_visible K.cmp g own e }
    ensures admitted { (g : Rows K) (own : Region) (e : K)
        → is_seen_and_admitted K.cmp g own e ≡ is_admitted K.cmp g own e }
{}
