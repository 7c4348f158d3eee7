//! Calls on one gateway and the transcript of their lines: theorems over the machine of `zt_model`,
//! each the contract of a function that does nothing. A journal of calls is the transcript of lines
//! that speak; and lines that are dealt to workers come to pass in an order that keeps those of
//! each face.
#![tactic(auto)]

ghost use Rattle.std.specs.Prelude.{◌≡◌, ℕ, ◌+◌, Bool, true, false, List, ◌∷◌, length, map};
ghost use Rattle.std.specs.Prelude.{Ok, Option, Some, slice_get};
ghost use Rattle.zt_model.specs.Fabric.{Fabric, entries_from};
ghost use Rattle.zt_model.specs.Journal.{IsReordered, IsReplay, Journalled, are_makings_first};
ghost use Rattle.zt_model.specs.Journal.{is_driven, is_making, made_by, outcome_of, starts_none};
ghost use Rattle.zt_model.specs.Rows.{Rows};
ghost use Rattle.zt_model.specs.Transcript.{Each};
ghost use Rattle.zt_protocol.specs.Plain.{PlainCall, PlainLine, Speak};
ghost use Rattle.zt_protocol.specs.declared.entries.Sent.{Sent};
ghost use Rattle.zt_laws.specs.Order.{InKeyOrder};
ghost use Rattle.zt_theorem_journal.specs.Alone.{IsAlone, Speaks, SpeaksOrOpens, line_of_call};
ghost use Rattle.zt_theorem_journal.specs.Asked.{AreVisible, answers_to, rows_before, token_ask};
ghost use Rattle.zt_theorem_journal.specs.Dealt.{IsDealt, numbered_from, order_of, script_of};

use zt_keys::Key;

/// Where one gateway is there alone, lines that speak come to the outcomes of a journal of their
/// calls, each of which is the one that the journal's replay gives.
pub fn journals_are_transcripts<K: Key>()
    ensures { (entries : List (Journalled K)) (g : Rows K) (s : Fabric K)
        → Each (λ e. Speaks e.call) entries
        → IsReplay K.cmp K.matching entries g → IsAlone K.cmp K.matching g s
        → entries_from K.cmp K.matching (map (λ e. Speak e.call) entries) s
        ≡ map (λ e. e.outcome) entries }
{}

/// The same of lines that speak or open sessions of the gateway.
pub fn journals_with_sessions_are_transcripts<K: Key>()
    ensures { (entries : List (Journalled K)) (g : Rows K) (s : Fabric K)
        → Each (λ e. SpeaksOrOpens e.call) entries
        → IsReplay K.cmp K.matching entries g → IsAlone K.cmp K.matching g s
        → entries_from K.cmp K.matching (map (λ e. line_of_call e.call) entries) s
        ≡ map (λ e. e.outcome) entries }
{}

/// Where the entries of each worker are its lines in order, all of them together are the script's
/// lines in an order that keeps those of each face.
pub fn dealt_scripts_are_reordered<K: Key>()
    ensures { (workers first : ℕ) (calls : List (PlainCall K)) (journal : List (ℕ × Journalled K))
        (line : PlainLine K)
        (makings : List (PlainLine K)) → IsDealt workers first calls journal
        → first ≡ 2 + length makings
        → ((more : List (PlainLine K)) → is_driven (line ∷ more) ≡ are_makings_first more)
        → Each (λ making. is_making making ≡ true) makings
        → starts_none K.cmp K.matching (numbered_from 1 (script_of line makings calls)) ≡ false
        → IsReordered K.cmp K.matching (numbered_from 1 (script_of line makings calls))
        (order_of line makings journal) }
{}

/// Each entry of a replay has the face and the outcome that its call comes to on the rows that the
/// entries before it leave.
pub fn entries_are_what_calls_come_to<K: Key>()
    ensures { (place : ℕ) (entries : List (Journalled K)) (g : Rows K) (entry : Journalled K)
        → IsReplay K.cmp K.matching entries g → slice_get entries place ≡ Some entry
        → (let before = rows_before K.cmp K.matching place entries g in
        (entry.made ≡ made_by K.cmp K.matching entry.call before)
        × (entry.outcome ≡ outcome_of K.cmp K.matching entry.call before)) }
{}

/// An ask for the tokens that are there now, where it is accepted, is answered in its own outcome
/// the matching expressions that are visible to its face, in key order, each once.
pub fn asks_are_answered_what_is_visible<K: Key>()
    ensures visible { (face id : ℕ) (expr : Option K) (g : Rows K) (sent : List (Sent K))
        → outcome_of K.cmp K.matching (token_ask face id expr) g ≡ Ok sent
        → AreVisible K.cmp K.matching face expr g (answers_to face id sent) }
    ensures ordered { (face : ℕ) (expr : Option K) (g : Rows K) (keys : List K)
        → AreVisible K.cmp K.matching face expr g keys → InKeyOrder K.cmp keys }
{}
