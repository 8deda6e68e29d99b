//! Results: the tree that a stream shapes, with the recoveries of XSLT 1.0 and the declarations that its
//! names need; its lines, its text and its messages.
//!
//! ```text
//! let tree = shape(&items)?;              // the stream itself, seen as the tree that it shapes
//! let lines = pyx(alloc, &tree)?;         // as PYX
//! let text = text(alloc, &tree)?;         // the string-value of its root
//! let messages = messages(alloc, &items)?;
//! is_silent(&items)                       // whether there are none
//! ```
#![tactic(auto)]

mod attributes;
mod declare;
mod escape;
mod leading;
mod lines;
mod message;
mod name;
mod opening;
mod string;
mod tree;
mod value;

pub use lines::lines_of;
pub use message::{is_silent, messages};
pub use tree::{ResultTree, pyx, shape, text};
