//! What xt believes about bytes: the lines that they are cut into, those that are whole within a
//! limit, what is known of a line without memory for it, what a reader of lines has ahead, and
//! what a source and a sink of bytes tell. `docs/DEFINITIONS.md` gives the order in which to read
//! the modules of `specs/`.
//!
//! There is no code here.
#![tactic(auto)]
