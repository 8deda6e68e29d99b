//! What is done to streams where they are taken: their holes counted and filled, and what a variable does not
//! hold left out. What stays as it was is shared.
//!
//! ```text
//! let whole = fill(alloc, &items, parts)?;    // where there are fewer parts than holes, nothing for the rest
//! let value = quiet(alloc, &whole)?;          // without its messages
//! let fragment = fragment_of(alloc, &value)?; // as a value holds it
//! ```
#![tactic(auto)]

mod filling;
mod fragment;
mod holes;
mod item;
mod messages;

pub use filling::{fill, fragment_of};
pub use fragment::without_attributes;
pub use holes::count_holes;
pub use messages::quiet;
