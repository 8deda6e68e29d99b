//! Laws of programs that ask and of instantiations at the nodes of the code, and of the calls that run such programs:
//! what reads the same comes to the same. They are in a crate of their own since nothing stands on them.
//!
//! Read `specs/Results.antt`, which lists what programs of the code come to, and `specs/Calls.antt`; then the laws of
//! programs, of calls and of instantiations. There is no code here but the laws, whose functions have no body.
#![tactic(auto)]

mod calls;
mod instantiations;
mod programs;

pub use calls::{calls_agree, calls_agree_where_reads_stand, calls_tell};
pub use instantiations::{
    a_hole_keeps_what_stood_before_it, holes_are_filled, more_levels_change_nothing, reads_suffice,
    what_is_kept_suffices, what_is_made_is_true_to_keep,
};
pub use programs::{agreement, told};
