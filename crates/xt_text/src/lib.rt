//! What every crate of xt stands on: `Text`, which contracts see as a list of characters, how texts are
//! compared and cut, `Path`, which they see as a list of positions, and `Memory`, the error for want of
//! memory.
//!
//! ```text
//! let mut name = Text::from_str(alloc, "p:")?;
//! name.push_str("title")?;                   // the characters of p:title
//! let parts = split_first("p:title", ':');   // Some: p and title
//! ```
#![tactic(auto)]

mod memory;
mod order;
mod path;
mod space;
mod split;
mod text;

pub use memory::Memory;
pub use order::compare;
pub use path::Path;
pub use space::is_space;
pub use split::split_first;
pub use text::Text;
