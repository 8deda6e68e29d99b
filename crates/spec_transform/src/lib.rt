//! What xt believes about the parts of transformations that ask a world: what a value template stands for, when a node
//! matches a pattern, which template rule is chosen, which nodes have a value in a key, in which order nodes are
//! sorted, and what a number counts.
//!
//! Read `specs/Expansion.antt`, `specs/Match.antt`, `specs/Choice.antt`, `specs/Key.antt`, `specs/Sorted.antt` and
//! `specs/Numbering.antt`. There is no code here but laws.
#![tactic(auto)]

mod choosing;
mod keying;
mod ordering;

pub use choosing::{matching_is_never_refused, the_first_is_the_greatest};
pub use keying::a_refusal_is_of_all_values;
pub use ordering::{rows_are_sorted, sorted_rows_are_one};
