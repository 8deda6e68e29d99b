//! Copies of nodes of a document (XSLT 1.0, section 11.3): the stream of a whole node, with its namespace
//! nodes, its attributes and all that is below it. Contracts tell a copy by the definition `copy_of`.
//!
//! ```text
//! let copy = copy_of(alloc, &document, &node)?;   // a fragment without holes
//! ```
#![tactic(auto)]

mod below;
mod copy;
mod leaf;
mod naming;
mod way;

pub use copy::copy_of;
