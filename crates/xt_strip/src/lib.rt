//! What a transformation sees of its source: all of it but the texts of white space that are stripped (XSLT 1.0,
//! section 3.4).
//!
//! ```text
//! seen(alloc, &document, &rules)?    // the document without them; its nodes keep their numbers
//! seen_edited(alloc, &rules, &edit, &before, &seen_before, &after)?    // the same after an edit, with no walk of the document
//! ```
#![tactic(auto)]

mod along;
mod copied;
mod edited;
mod place;
mod rule;
mod sighted;
mod source;
mod walk;

pub use edited::seen_edited;
pub use sighted::Sighted;
pub use source::seen;
