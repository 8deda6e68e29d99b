//! What xt believes about trees of records that a later run may take over whole: when a tree says by itself what its call
//! comes to, wherever all of its questions have their answers.
//!
//! Read `specs/Tree.antt`, above `spec_reuse/specs/Record.antt`. There is no code here but the laws, whose functions have
//! no body.
#![tactic(auto)]

mod laws;

pub use laws::{
    a_tree_that_says_all_is_what_is_entered, a_tree_that_says_all_says_what_is_meant, trees_grow,
};
