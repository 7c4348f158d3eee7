//! The scripts of `tests/definitions`, worked by the definitions of `zt_model`: each law says that they give a script its
//! transcript, entry for entry. A law is named for its script.
//!
//! Written by tools/scripts_to_antt.py; change the scripts or the tool, and not this file.
#![tactic(auto)]

ghost use Rattle.zt_model_test.specs.Script.{ComesOut};
ghost use Rattle.zt_model_test.specs.Part1 as part1;
ghost use Rattle.zt_model_test.specs.Part2 as part2;
ghost use Rattle.zt_model_test.specs.Part3 as part3;

/// The definitions give these scripts their transcripts and totals.
pub fn part_1_comes_out()
    ensures admission { ComesOut part1.admission }
    ensures aggregates { ComesOut part1.aggregates }
    ensures answers { ComesOut part1.answers }
    ensures asks_after_a_final_0 { ComesOut part1.asks_after_a_final_0 }
    ensures asks_in_a_tree { ComesOut part1.asks_in_a_tree }
    ensures bad_byte { ComesOut part1.bad_byte }
    ensures bad_byte_unended { ComesOut part1.bad_byte_unended }
    ensures bad_word { ComesOut part1.bad_word }
    ensures cancelling_across_regions { ComesOut part1.cancelling_across_regions }
    ensures client_token_repropagation { ComesOut part1.client_token_repropagation }
    ensures closing_amid_asks { ComesOut part1.closing_amid_asks }
    ensures concurrent_interests { ComesOut part1.concurrent_interests }
    ensures concurrent_interests_client_both { ComesOut part1.concurrent_interests_client_both }
    ensures concurrent_interests_client_faces { ComesOut part1.concurrent_interests_client_faces }
    ensures concurrent_interests_client_gateway { ComesOut part1.concurrent_interests_client_gateway }
    ensures current_interest_finalized_client { ComesOut part1.current_interest_finalized_client }
    ensures current_interest_finalized_peer { ComesOut part1.current_interest_finalized_peer }
    ensures current_interest_finalized_router { ComesOut part1.current_interest_finalized_router }
    ensures current_token_repropagation { ComesOut part1.current_token_repropagation }
    ensures empty_script { ComesOut part1.empty_script }
    ensures entities { ComesOut part1.entities }
    ensures entities_of_a_region { ComesOut part1.entities_of_a_region }
    ensures equal_ids_at_two_faces { ComesOut part1.equal_ids_at_two_faces }
{}

/// The definitions give these scripts their transcripts and totals.
pub fn part_2_comes_out()
    ensures expiry_at_the_timeout { ComesOut part2.expiry_at_the_timeout }
    ensures finalised_interest_forgotten { ComesOut part2.finalised_interest_forgotten }
    ensures hostile_01 { ComesOut part2.hostile_01 }
    ensures hostile_02 { ComesOut part2.hostile_02 }
    ensures hostile_03 { ComesOut part2.hostile_03 }
    ensures hostile_04 { ComesOut part2.hostile_04 }
    ensures hostile_05 { ComesOut part2.hostile_05 }
    ensures hostile_06 { ComesOut part2.hostile_06 }
    ensures hostile_07 { ComesOut part2.hostile_07 }
    ensures hostile_08 { ComesOut part2.hostile_08 }
    ensures hostile_09 { ComesOut part2.hostile_09 }
    ensures hostile_10 { ComesOut part2.hostile_10 }
    ensures hostile_11 { ComesOut part2.hostile_11 }
    ensures hostile_12 { ComesOut part2.hostile_12 }
    ensures interests_at_opening_and_closing { ComesOut part2.interests_at_opening_and_closing }
    ensures interests_sent_at_opening_client_client { ComesOut part2.interests_sent_at_opening_client_client }
    ensures interests_sent_at_opening_client_peer { ComesOut part2.interests_sent_at_opening_client_peer }
    ensures interests_sent_at_opening_peer_client { ComesOut part2.interests_sent_at_opening_peer_client }
    ensures interests_sent_at_opening_peer_peer { ComesOut part2.interests_sent_at_opening_peer_peer }
    ensures last_id { ComesOut part2.last_id }
    ensures loops_and_links { ComesOut part2.loops_and_links }
    ensures no_echo_to_source { ComesOut part2.no_echo_to_source }
    ensures north_face_closes { ComesOut part2.north_face_closes }
    ensures one_declarer_leaves { ComesOut part2.one_declarer_leaves }
    ensures own_token_shown { ComesOut part2.own_token_shown }
    ensures peer_asks { ComesOut part2.peer_asks }
{}

/// The definitions give these scripts their transcripts and totals.
pub fn part_3_comes_out()
    ensures peer_linked_to_itself { ComesOut part3.peer_linked_to_itself }
    ensures peers_finalised { ComesOut part3.peers_finalised }
    ensures peers_not_finalised { ComesOut part3.peers_not_finalised }
    ensures router_disconnect { ComesOut part3.router_disconnect }
    ensures sessions_alone { ComesOut part3.sessions_alone }
    ensures tables_and_their_trees { ComesOut part3.tables_and_their_trees }
    ensures three_routers { ComesOut part3.three_routers }
    ensures token_of_a_router_and_a_session { ComesOut part3.token_of_a_router_and_a_session }
    ensures tree_echo { ComesOut part3.tree_echo }
    ensures two_declarers_one_holder { ComesOut part3.two_declarers_one_holder }
    ensures two_links_of_a_face { ComesOut part3.two_links_of_a_face }
    ensures undeclaring_the_untold { ComesOut part3.undeclaring_the_untold }
    ensures what_matches_is_answered { ComesOut part3.what_matches_is_answered }
    ensures who_may_have_a_face { ComesOut part3.who_may_have_a_face }
    ensures who_may_not_speak { ComesOut part3.who_may_not_speak }
    ensures word_run { ComesOut part3.word_run }
{}
