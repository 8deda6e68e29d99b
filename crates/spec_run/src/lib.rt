//! What xt believes about executing a stylesheet: what a template, a built-in rule or a global does for a node, step
//! by step, what it means with all that it enters, and which outcome documents have.
//!
//! Read `specs/Plan.antt` and `specs/Direct.antt`, on which all else stands; then `specs/Names.antt`, `specs/Copy.antt`
//! and `specs/Content.antt`, which say what each instruction does; then `specs/Meaning.antt`. How one instantiation is
//! run by itself, what is kept of it and when that holds is in `specs/Going.antt`, `specs/Trail.antt` and
//! `specs/Hold.antt`. Which documents there are and what they come to is in `specs/Documents.antt` and
//! `specs/Outcome.antt`. There is no code here but laws.
#![tactic(auto)]

mod laws;
mod outcomes;

pub use laws::{
    a_hole_keeps_what_stood_before_it, holes_are_filled, more_levels_change_nothing, reads_suffice,
};
pub use outcomes::{no_want_of_outcome, one_outcome};
