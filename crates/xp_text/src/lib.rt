//! The string functions of XPath (XPath 1.0, 4.2, and `lang` of 4.3). What allocates takes the allocator first
//! and refuses nothing but for want of memory.
//!
//! ```text
//! let year = before(alloc, "1999/04/01", "/")?;           // 1999
//! let words = normalize(alloc, "  a  b ")?;               // a b
//! ```
#![tactic(auto)]

mod language;
mod positions;
mod rewriting;
mod search;

pub use language::lang_matches;
pub use positions::{length, substring};
pub use rewriting::{concat, normalize, translate};
pub use search::{after, before, contains, starts_with};
