//! PYX: a document as lines, one event a line. This crate reads the event of a line and writes the
//! line of an event; what a document is, is said by the crates above.
//!
//! | Line | Event |
//! |---|---|
//! | `(name` | the start of an element |
//! | `Aname value` | an attribute or a namespace declaration of the element just started |
//! | `-data` | character data |
//! | `?target data` | a processing instruction |
//! | `)name` | the end of an element |
//! | `Ctext` | a comment |
//!
//! In values, data and comments a line feed is written `\n`, a tab `\t`, a carriage return `\r` and a
//! backslash `\\`; any other backslash is read as itself.
//!
//! ```text
//! let event = read_event(alloc, "Atitle two\\nlines")?;   // an attribute, its value has two lines
//! let line = write_event(alloc, &event)?;                // the same line
//! ```
#![tactic(auto)]

mod bad_line;
mod escape;
mod read;
mod write;

pub use bad_line::BadLine;
pub use escape::{push_escaped, unescape};
pub use read::read_event;
pub use write::{
    write_attribute, write_comment, write_data, write_end, write_event, write_instruction,
    write_start,
};
use xt_text::Text;

/// What one line says of a document, with texts of its own.
pub type Event = spec_document::Event<Text>;
