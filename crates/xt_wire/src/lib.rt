//! The wire of a session: the command of a line, and the text of a reply. What a line asks, and why it asks
//! nothing, is said by `request_of` of the definitions; what is written for a reply by `reply_text`.
//!
//! A command's words are parted by one space each. Its line and the lines of its body are tested first
//! (`no 2`), then its word (`no 3`), then its arguments (`no 4`); its body becomes a document elsewhere.
//!
//! ```text
//! let command = Command::read(alloc, b"module lib", body)?;      // SetModule("lib", body)
//! let text = reply(alloc, &Reply::No(EditCode::BadArguments))?;   // "no 4\n"
//! ```
#![tactic(auto)]

mod command;
mod document;
mod edits;
mod fault;
mod path;
mod replies;
mod target;
mod word;
mod write;

pub use command::Command;
pub use document::DocumentName;
pub use fault::WireFault;
pub use path::read_path;
pub use replies::{Refusal, Reply};
pub use word::{Words, first_word, next_word, only_word, read_value};
pub use write::reply;
