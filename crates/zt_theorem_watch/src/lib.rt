//! A monitor beside the callers of one gateway: theorems over the machine of `zt_model`, each the
//! contract of a function that does nothing. A monitor is a session that polls which tokens are
//! alive. Its calls stand in the one journal, between those of the workers, so the transcript has
//! its lines between theirs; and what is printed of its polls is what its face may see there.
#![tactic(auto)]

ghost use Rattle.std.specs.Prelude.{◌≡◌, ◌⊎◌, ℕ, ◌+◌, Bool, true, false, List, [], ◌∷◌, length, map};
ghost use Rattle.std.specs.Prelude.{None, Option};
ghost use Rattle.zt_region.specs.South.{PlainSouth};
ghost use Rattle.zt_region.specs.declared.region.Region.{Region};
ghost use Rattle.zt_region.specs.declared.region.WhatAmI.{WhatAmI};
ghost use Rattle.zt_region.specs.declared.region.Zid.{Zid};
ghost use Rattle.zt_protocol.specs.Plain.{Gateway, PlainCall, PlainEntry, PlainLine};
ghost use Rattle.zt_model.specs.Fabric.{empty_fabric, entries_from, line_causes, new_rows};
ghost use Rattle.zt_model.specs.Journal.{IsReordered, IsReplay, Journalled, is_making};
ghost use Rattle.zt_model.specs.Refusals.{first_cause};
ghost use Rattle.zt_model.specs.Rows.{Rows};
ghost use Rattle.zt_model.specs.Transcript.{Each};
ghost use Rattle.zt_laws.specs.Order.{InKeyOrder};
ghost use Rattle.zt_laws.specs.Sound.{HasFirstIds};
ghost use Rattle.zt_theorem_journal.specs.Alone.{SpeaksOrOpens, made_entries, rows_made};
ghost use Rattle.zt_theorem_journal.specs.Dealt.{numbered_from, script_of};
ghost use Rattle.zt_theorem_watch.specs.Beside.{IsDealtBeside, Monitors, MonitorsNothing};
ghost use Rattle.zt_theorem_watch.specs.Beside.{answers_beside};
ghost use Rattle.zt_theorem_watch.specs.Tables.{PlainPoll, lacked_by, with_joined};
ghost use Rattle.zt_theorem_watch.specs.Tables.{without_left};
ghost use Rattle.zt_theorem_watch.specs.Watched.{AreWatched, makes_gateway};

use zt_keys::Key;

/// A table of keys in order is the one before it, after lines of the keys that it gained and of
/// those that it lost.
pub fn tables_follow_from_changes<K: Key>()
    ensures { (old new : List K) → InKeyOrder K.cmp old → InKeyOrder K.cmp new
        → without_left K.cmp (lacked_by K.cmp new old)
        (with_joined K.cmp (lacked_by K.cmp old new) old) ≡ new }
{}

/// A journal of workers' calls and of a monitor's is the transcript of the script's lines in
/// another order, with the monitor's lines between; and each poll of the monitor is printed as its
/// face sees the tokens there.
pub fn journals_of_monitors_are_transcripts<K: Key>()
    ensures { (mode : WhatAmI) (zid : Zid) (regions : List Region) (south : PlainSouth)
        (name : Option (List ℕ)) (timeout : ℕ) (refused : List (Region × Region))
        (makings : List (PlainLine K)) (workers : ℕ) (calls monitor : List (PlainCall K))
        (journal : List (ℕ × Journalled K)) → (let line : PlainLine K
        = Gateway mode zid regions south name timeout refused in let start : Rows K
        = rows_made K.cmp K.matching makings (new_rows mode zid regions timeout refused) in
        IsDealtBeside workers (2 + length makings) calls monitor journal
        → Each SpeaksOrOpens monitor
        → first_cause (line_causes K.cmp K.matching false line empty_fabric) ≡ None
        → Each (λ m. is_making m ≡ true) makings → Each HasFirstIds makings
        → IsReplay K.cmp K.matching (map (λ x. x.1) journal) start
        → (count : ℕ) (expr : Option K) (polls : List (PlainPoll K))
        → Monitors K.cmp K.matching workers start (map (λ x. x.1) journal) count expr monitor polls
        ⊎ MonitorsNothing K.cmp K.matching workers start (map (λ x. x.1) journal) monitor polls
        → AreWatched K.cmp K.matching (script_of line makings calls) count expr
        (answers_beside (made_entries K.cmp K.matching makings
        (new_rows mode zid regions timeout refused)) journal) polls) }
{}

/// Where no gateway is made, nobody watches: the transcript is that of the script's lines alone.
pub fn scripts_without_gateways_are_unwatched<K: Key>()
    ensures { (script : List (PlainLine K)) (count : ℕ) (expr : Option K)
        (order : List (ℕ × PlainLine K)) (answers : List (ℕ × PlainEntry K))
        → IsReordered K.cmp K.matching (numbered_from 1 script) order
        → map (λ x. x.0) answers ≡ map (λ x. x.0) order
        → map (λ x. x.1) answers
        ≡ entries_from K.cmp K.matching (map (λ x. x.1) order) empty_fabric
        → makes_gateway K.cmp K.matching script ≡ false
        → AreWatched K.cmp K.matching script count expr answers [] }
{}
