//! A world over one document, which answers truly what is asked of its tree, and keeps nothing. Its truth is
//! `answer_by` of `spec_meaning` over the listing of the document's nodes.
//!
//! ```text
//! let mut world = PlainWorld { alloc, document: &doc };
//! let text = ask_text(alloc, &mut world, node)?;
//! ```
#![tactic(auto)]

mod identifier;
mod world;

pub use world::PlainWorld;
