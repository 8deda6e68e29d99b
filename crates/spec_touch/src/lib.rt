//! Which questions a change marks: a question that is not marked has the same true answer before the change and after it.
//!
//! There is no code here but the laws, whose functions have no body.
#![tactic(auto)]

mod laws;

pub use laws::{
    edits_keep_plain_choices, edits_keep_space, edits_keep_the_answers_of_unmarked_questions,
    edits_lead, edits_lead_as_they_are_seen, moves_keep_plain_choices,
    moves_keep_the_answers_of_unmarked_questions, moves_make_changes,
    moves_to_another_parent_keep_the_answers_of_unmarked_questions, moves_to_another_parent_lead,
    moves_to_another_parent_lead_as_they_are_seen, plain_choices_stay,
    unmarked_by_all_keep_their_answers, unmarked_questions_keep_their_answers,
    unmarked_questions_keep_their_answers_in_worlds, what_is_not_marked_need_not_be_asked,
    what_need_not_be_asked_keeps_its_answers,
};
