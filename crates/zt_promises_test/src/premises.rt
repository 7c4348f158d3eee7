//! What the promises over trees stand on: `premises_suffice` says that the premises are those of
//! the promises. Each other law is named for its script, and says that the definitions give the
//! script its transcript, and of this what it names: that a promise is broken and one premise alone
//! fails, or that the promises are kept. The scripts that lack a premise are those of
//! `tests/premises`, where `root-with-other-regions` lacks none; the two others stand in
//! `tests/definitions`.
//!
//! Written by tools/premises_to_antt.py; change the scripts or the tool, and not this file.

ghost use Rattle.std.specs.Prelude.{ℕ, Bool, [], ◌∷◌};
ghost use Rattle.std.specs.declared.cmp.Ordering.{Ordering};
ghost use Rattle.zt_promises_test.specs.Lacking as part;
ghost use Rattle.zt_promises_test.specs.Premises.{NothingWaits, NoMoment, NoUnlinking, InterestStands, IdsAreLeft, IsOfTrees, GetsLessWithout, GetsMoreWithout, KnowsLessWithout, GetsLessOfMoving, GetsLessOfLinked, GetsAlone, KnowsAfter, SufficeForWhatStays, SufficeForWhatWas, SufficeForKnowledge};

/// The premises are those of the promises: of a transcript that keeps the promises over trees, what
/// they say holds wherever all of the premises do.
pub fn premises_suffice()
    ensures what_stays { (cmp : ℕ → ℕ → Ordering) (matching : ℕ → ℕ → Bool) → SufficeForWhatStays cmp matching }
    ensures what_was { (cmp : ℕ → ℕ → Ordering) (matching : ℕ → ℕ → Bool) → SufficeForWhatWas cmp matching }
    ensures knowledge { (cmp : ℕ → ℕ → Ordering) (matching : ℕ → ℕ → Bool) → SufficeForKnowledge cmp matching }
{}

/// Three scripts that lack no premise keep the promises: an ask gets the one token that stays, also
/// where the root lists a region of peers and refuses pairs of regions, and faces know their trees
/// after each turn of these numbers.
pub fn promises_are_kept()
    ensures asks_in_a_tree { GetsAlone 0 part.asks_in_a_tree }
    ensures root_with_other_regions { GetsAlone 0 part.root_with_other_regions }
    ensures tree_echo { KnowsAfter (14 ∷ 18 ∷ 21 ∷ 23 ∷ 28 ∷ []) part.tree_echo }
{}

/// Without the premise an ask isn't answered what stays; nor, with all premises, what moves or is
/// linked later.
pub fn asks_get_less()
    ensures answer_without_an_id { GetsLessWithout IdsAreLeft part.answer_without_an_id }
    ensures ended_before_the_final { GetsLessWithout InterestStands part.ended_before_the_final }
    ensures linked_after_the_asking { GetsLessOfLinked part.linked_after_the_asking }
    ensures moment_before_the_final { GetsLessWithout NoMoment part.moment_before_the_final }
    ensures pair_refused { GetsLessWithout IsOfTrees part.pair_refused }
    ensures token_still_on_its_way { GetsLessWithout NothingWaits part.token_still_on_its_way }
    ensures token_that_moves { GetsLessOfMoving part.token_that_moves }
    ensures unlinked_before_the_final { GetsLessWithout NoUnlinking part.unlinked_before_the_final }
{}

/// Without the premise an ask is answered what was nowhere.
pub fn asks_get_more()
    ensures answered_from_above { GetsMoreWithout IsOfTrees part.answered_from_above }
    ensures gone_and_still_told { GetsMoreWithout NothingWaits part.gone_and_still_told }
{}

/// Without the premise a face doesn't know its tree after the turn of this number.
pub fn faces_know_less()
    ensures known_only_after_the_step { KnowsLessWithout NothingWaits 7 part.known_only_after_the_step }
    ensures peer_alone { KnowsLessWithout IsOfTrees 4 part.peer_alone }
    ensures region_of_peers { KnowsLessWithout IsOfTrees 5 part.region_of_peers }
    ensures router_gone_rows_stay { KnowsLessWithout IsOfTrees 7 part.router_gone_rows_stay }
    ensures routers_without_tables { KnowsLessWithout IsOfTrees 7 part.routers_without_tables }
    ensures token_without_an_id { KnowsLessWithout IdsAreLeft 10 part.token_without_an_id }
{}
