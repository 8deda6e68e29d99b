//! What a session remembers besides the documents, so that it is said what a change costs: which instantiations of the
//! new run it counts, where what was kept of the last run serves others.
//!
//! Read `specs/Numbers.antt`, `specs/Past.antt` and `specs/Paying.antt`. There is no code here but laws, whose functions
//! have no body.
#![tactic(auto)]

mod laws;

pub use laws::{
    as_many_are_run_as_are_new, no_more_is_run_than_there_is, what_is_kept_is_not_run_again,
    what_is_marked_is_asked, what_is_new_is_run, what_keeps_a_run_is_enough,
};
