//! Documents from PYX lines, and the lines of documents. A body of lines is a document, or siblings that
//! are to stand in one; else the least of its faults is answered, with the line where it stands. What
//! makes lines a document, and which fault is answered, is said by `document_of` and `nodes_of` of the
//! definitions.
//!
//! ```text
//! let built = build(alloc, &body, &Scope::root(alloc)?, NodeId { number: 0 })?;
//! // Err(Refused(Fault { code: Unbalanced, line: 3 })): line 3 may not follow those before it
//! let again = lines(alloc, &built.document)?;   // lines that make this document again
//! ```
#![tactic(auto)]

mod balance;
mod document;
mod fault;
mod make;
mod names;
mod numbers;
mod piece;
mod read;
mod shared_names;
mod top;
mod write;

pub use document::{Built, BuiltNodes, build, build_nodes};
pub use fault::{BuildFault, Fault};
pub use names::{check_content, scope_inside};
pub use spec_document::Parent;
pub use write::lines;
pub use xt_io::Line;
