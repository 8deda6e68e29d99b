//! The faults between the elements of a stylesheet (XSLT 1.0, sections 6, 7.1.4, 11.4 and 11.5): names of variables,
//! templates and attribute sets that are not there, and names that are declared twice.
//!
//! ```text
//! let violations = violations_of(alloc, ranked.as_slice())?;
//! violations[0].code            // S17 to S22
//! violations[0].place           // the element at which it stands
//! ```
#![tactic(auto)]

mod declared;
mod doubles;
mod graph;
mod key;
mod known;
mod names;
mod outline;
mod reach;
mod report;
mod tops;
mod violation;

pub use violation::{Ranked, Violation, violations_of};
