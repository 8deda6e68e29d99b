//! What xt believes about the reuse of runs: what is kept of a run, when that serves a later run or a later call of the
//! same run, and what a change may be told to have cost.
//!
//! Read `specs/Instantiation.antt`, which says what a run enters; then `specs/Serving.antt`, `specs/Record.antt`,
//! `specs/Cost.antt`, and `specs/Ledger.antt` on how that is counted. There is no code here but the laws, whose functions
//! have no body.
#![tactic(auto)]

mod counts;
mod laws;

pub use counts::{
    a_call_is_counted_behind_what_it_enters, a_call_is_entered_where_there_is_a_level,
    a_part_counts_once, a_record_is_gone_along, a_record_is_gone_along_to_its_end,
    a_refused_global_is_the_last_that_is_entered, a_run_is_gone_along,
    an_evaluation_is_entered_for_a_reference, events_enter_one_after_another,
    parts_are_counted_one_after_another, what_comes_to_its_end_enters_what_does,
    what_is_at_hand_enters_nothing_new, what_is_counted_of_a_run_may_be_told,
    what_is_entered_again_repeats, what_is_entered_is_of_the_run, what_is_found_is_not_counted,
    what_was_found_is_found_again,
};
pub use laws::{
    a_call_comes_to_one_end, a_call_does_not_repeat_within_itself, a_front_that_holds_is_done,
    a_record_is_of_each_call_like_its_own, a_record_serves_again,
    a_record_that_serves_is_what_is_kept, a_record_that_serves_says_what_is_meant,
    kept_runs_are_what_is_entered, kept_runs_come_to_what_is_meant, kept_runs_stay,
    names_do_not_matter_to_what_is_entered, no_want_of_what_was_entered,
    only_nodes_of_the_world_are_entered, what_came_to_its_end_serves_again,
    what_saw_a_refusal_is_not_served,
};
