//! Steps along the axes of a document (XPath 1.0, sections 2.1 to 2.3), and nodes in document order (section
//! 5). The contracts say which nodes, in which order, by `stepped` and `ordered` of `spec_meaning` over the
//! listing of the document's nodes, where `ref_of` names an entry of the listing (`specs/View.antt`). That
//! expressions mean the same by these names as by places is a law, on a function without a body.
//!
//! ```text
//! let children = step(alloc, &doc, &node, Axis::Child, &Test::AnyName)?;   // child::*
//! let nodes = order(alloc, &doc, children.as_slice())?;                    // each once
//! ```
#![tactic(auto)]

mod along;
mod answer;
mod extent;
mod inner;
mod laws;
mod ordered;
mod own;
mod owner;
mod passing;

pub use answer::step;
pub use laws::same_meaning;
pub use ordered::order;
pub use xt_syntax::{Axis, Test};
