//! What xt believes about the names in results: they are those that the stylesheet makes and copies, and can be read.
//! It stands on the definitions of runs and of results, and apart from both, so that nothing is proved again for it.
//!
//! There is no code here but the laws.
#![tactic(auto)]

mod laws;

pub use laws::{results_are_named, streams_are_named_well};
