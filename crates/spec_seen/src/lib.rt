//! What a transformation sees of its source: the source without the texts of white space that a stylesheet strips (XSLT 1.0, section 3.4).
//! Laws stand on functions without a body.
#![tactic(auto)]

mod laws;

pub use laws::{
    labels_do_not_matter, nothing_but_texts_is_lost, where_no_rule_strips_all_is_seen,
    without_rules_all_is_seen,
};
