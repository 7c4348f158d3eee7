//! The wrong transcripts of `tests/wrong`: each breaks a promise of `zt_model` or of `zt_theorem_exact_messages`, but for
//! one that has other totals than its lines and one that no promise forbids, which alone isn't the machine's own. A law
//! is named for its script, and names the promise and the line whose entry breaks it. In `premises` stand the laws of
//! scripts that lack a premise of the promises over trees.
//!
//! Written by tools/wrong_to_antt.py; change the transcripts or the tool, and not this file.
#![tactic(auto)]

pub mod premises;

ghost use Rattle.zt_model.specs.Promises.{KeepsExactly, IsSparing, IsMoreSparing, TellsTheFuture, TellsOfRouters, AnswersAsks, SendsFinals, FinishesInitial, SendsUpstream, EndsUpstream, UndeclaresWhatIsGone, UndeclaresWhatWasKept, DrawsNextIds, EndsWhatStands};
ghost use Rattle.zt_promises_test.specs.Wrong.{Refuses, Allows, ToWhoWants, EntitiesDue, GivenNodes, HasItsCause, LacksItsIds, IsInForm, NamesOpen, KeepsRightly, LacksEntries, HasOtherTotals, IsNotTheMachines};
ghost use Rattle.zt_promises_test.specs.Part1 as part1;
ghost use Rattle.zt_promises_test.specs.Part2 as part2;
ghost use Rattle.zt_promises_test.specs.Part3 as part3;

/// The promises refuse these transcripts.
pub fn part_1_is_refused()
    ensures all_faces_unknown { Refuses HasItsCause 3 part1.all_faces_unknown }
    ensures all_ids_spent { Refuses HasItsCause 3 part1.all_ids_spent }
    ensures answer_after_the_final { Refuses SendsFinals 4 part1.answer_after_the_final }
    ensures answer_lost { Refuses AnswersAsks 5 part1.answer_lost }
    ensures answer_to_no_token_ask { Refuses IsSparing 4 part1.answer_to_no_token_ask }
    ensures answered_by_a_stranger { Refuses AnswersAsks 5 part1.answered_by_a_stranger }
    ensures answered_twice { Refuses AnswersAsks 7 part1.answered_twice }
    ensures answered_what_is_nowhere { Refuses AnswersAsks 4 part1.answered_what_is_nowhere }
    ensures asked_twice { Refuses SendsUpstream 4 part1.asked_twice }
    ensures closed_face_named { Refuses NamesOpen 5 part1.closed_face_named }
    ensures declared_anew_at_each_call { IsNotTheMachines part1.declared_anew_at_each_call }
    ensures earlier_cause_passed_over { Refuses HasItsCause 3 part1.earlier_cause_passed_over }
    ensures ended_what_never_stood { Refuses EndsWhatStands 5 part1.ended_what_never_stood }
    ensures ended_while_another_mode_holds { Refuses EndsUpstream 6 part1.ended_while_another_mode_holds }
    ensures ended_while_another_region_holds { Refuses EndsUpstream 7 part1.ended_while_another_region_holds }
    ensures entities_out_of_order { Refuses EntitiesDue 5 part1.entities_out_of_order }
    ensures entity_after_the_final { Refuses EntitiesDue 5 part1.entity_after_the_final }
    ensures entity_answered_twice { Refuses EntitiesDue 5 part1.entity_answered_twice }
    ensures entity_left_out { Refuses EntitiesDue 5 part1.entity_left_out }
{}

/// The promises refuse these transcripts.
pub fn part_2_is_refused()
    ensures everybody_is_told { Refuses IsSparing 4 part2.everybody_is_told }
    ensures faces_out_of_order { Refuses IsInForm 6 part2.faces_out_of_order }
    ensures final_at_expiry_and_again { Refuses SendsFinals 6 part2.final_at_expiry_and_again }
    ensures final_at_once_and_nobody_asked { Refuses SendsUpstream 4 part2.final_at_once_and_nobody_asked }
    ensures final_at_once { Refuses SendsFinals 4 part2.final_at_once }
    ensures final_before_the_last_pending { Refuses SendsFinals 6 part2.final_before_the_last_pending }
    ensures final_never { Refuses SendsFinals 5 part2.final_never }
    ensures first_line_only { LacksEntries part2.first_line_only }
    ensures future_interest_finished { Refuses SendsFinals 3 part2.future_interest_finished }
    ensures id_passed_over { Refuses DrawsNextIds 4 part2.id_passed_over }
    ensures ids_spent_by_an_undeclaration { Refuses LacksItsIds 7 part2.ids_spent_by_an_undeclaration }
    ensures later_tokens_not_told { Refuses TellsTheFuture 4 part2.later_tokens_not_told }
    ensures never_ended_upstream { Refuses EndsUpstream 5 part2.never_ended_upstream }
    ensures never_recorded { Refuses AnswersAsks 4 part2.never_recorded }
    ensures never_undeclared { Refuses KeepsRightly 5 part2.never_undeclared }
    ensures no_initial_final { Refuses FinishesInitial 2 part2.no_initial_final }
    ensures nobody_is_told { Refuses KeepsRightly 4 part2.nobody_is_told }
    ensures node_of_another_router { Refuses GivenNodes 5 part2.node_of_another_router }
    ensures node_outside_router_regions { Refuses GivenNodes 5 part2.node_outside_router_regions }
    ensures opened_without_interests { Refuses SendsUpstream 4 part2.opened_without_interests }
{}

/// The promises refuse these transcripts.
pub fn part_3_is_refused()
    ensures opened_without_tokens { Refuses KeepsExactly 4 part3.opened_without_tokens }
    ensures other_gateway_named { Refuses NamesOpen 5 part3.other_gateway_named }
    ensures stands_when_its_declarer_closes { Refuses KeepsRightly 6 part3.stands_when_its_declarer_closes }
    ensures tokens_of_routers_not_told { Refuses TellsOfRouters 6 part3.tokens_of_routers_not_told }
    ensures told_rows_dropped_in_silence { Refuses KeepsRightly 5 part3.told_rows_dropped_in_silence }
    ensures told_though_refused { Refuses IsMoreSparing 5 part3.told_though_refused }
    ensures told_under_id_zero { Refuses IsSparing 4 part3.told_under_id_zero }
    ensures totals_of_zeros { HasOtherTotals part3.totals_of_zeros }
    ensures undeclared_by_expression_though_kept { Refuses ToWhoWants 6 part3.undeclared_by_expression_though_kept }
    ensures undeclared_by_expression_under_an_id { Refuses ToWhoWants 6 part3.undeclared_by_expression_under_an_id }
    ensures undeclared_for_who_wants_nothing { Refuses ToWhoWants 5 part3.undeclared_for_who_wants_nothing }
    ensures undeclared_unkept { Refuses UndeclaresWhatWasKept 5 part3.undeclared_unkept }
    ensures undeclared_with_the_first_declarer { Refuses KeepsRightly 7 part3.undeclared_with_the_first_declarer }
    ensures unknown_face_accepted { Refuses HasItsCause 3 part3.unknown_face_accepted }
    ensures untold_what_is_wanted { Refuses KeepsRightly 6 part3.untold_what_is_wanted }
    ensures upstream_under_another_id { Refuses DrawsNextIds 4 part3.upstream_under_another_id }
    ensures upstream_under_another_id_keeps { Allows SendsFinals 5 part3.upstream_under_another_id }
    ensures visible_undeclared { Refuses UndeclaresWhatIsGone 6 part3.visible_undeclared }
{}
