//! Edits of a document by path: nodes put in, taken away or moved, the content of a text, attributes and names. Each gives
//! a new document that shares with the old one all that it does not touch, or the least refusal; the old one stays.
//!
//! ```text
//! let edited = delete(alloc, &document, &path, next)?;      // Err(Refused { code: NoPlace, .. }): no such node
//! let again = rename(alloc, &edited.document, &path, &name, edited.next)?;
//! ```
#![tactic(auto)]

mod attribute;
mod attributes;
mod carrying;
mod change;
mod check;
mod deletion;
mod edit;
mod fault;
mod insertion;
mod kind;
mod labels;
mod move_change;
mod placing;
mod relocation;
mod renaming;
mod renewal;
mod reordered;
mod seam;
mod site;
mod text;

pub use attribute::{remove_attribute, set_attribute};
pub use change::{Change, change_of};
pub use deletion::delete;
pub use edit::{Edit, Edited, apply};
pub use fault::EditFault;
pub use insertion::insert;
pub use move_change::{MoveChange, move_change_of};
pub use relocation::relocate;
pub use renaming::rename;
pub use text::set_text;
pub use xt_io::Line;
