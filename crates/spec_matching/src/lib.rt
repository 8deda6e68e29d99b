//! Laws of matching and of the choice of template rules (`spec_transform/specs/Match.antt`, `Position.antt`,
//! `Choice.antt`), in a crate of their own since nothing stands on them.
//!
//! Read `specs/Asked.antt` for what is asked of a step, then `specs/AsExpression.antt`, `specs/Tree.antt` and
//! `specs/Given.antt` for a pattern as an expression. There is no code here but the laws, whose functions have no body.
#![tactic(auto)]

mod laws;

pub use laws::{
    a_node_matches_where_a_node_above_gives_it, a_pattern_gives_what_its_expression_gives,
    compiled_rules_are_ranked, documents_are_trees, patterns_without_variables_need_nothing,
    steps_that_read_no_position_may_be_asked_alone, the_chosen_rule_is_the_greatest,
    what_reads_no_position_says_the_same_anywhere,
};
