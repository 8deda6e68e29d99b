//! What xt believes about a session: the lines of bytes, commands with their bodies, how an input
//! ends, the machine that holds plain documents, its replies and their bytes, and what a source and
//! a sink of bytes tell. `docs/DEFINITIONS.md` gives the order in which to read the modules of
//! `specs/`.
//!
//! There is no code here but the laws of the machine, whose functions have no body, and the plain
//! enums that the definitions share with the code.
#![tactic(auto)]

mod kinds;
mod laws;

pub use kinds::{Asked, Ending, LineKind};
pub use laws::{each_command_has_a_step, steps_agree};
