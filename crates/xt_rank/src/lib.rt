//! Template rules in the order in which they count (XSLT 1.0, section 5.5).
//!
//! ```text
//! in_rank(alloc, rules)?    // by import precedence, then by priority, then the last in the stylesheet
//! ```
#![tactic(auto)]

mod rank;

pub use rank::in_rank;
