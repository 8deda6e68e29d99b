//! The text of numbers, as xsl:number writes it (XSLT 1.0, section 7.7.1): a format is cut into its tokens, and a list of numbers
//! is written by it. What allocates takes the allocator first and refuses nothing but for want of memory.
//!
//! ```text
//! let format = split(alloc, "1.a")?;
//! write(alloc, &format, &numbers, None)?              // 2.c, where the numbers are 2 and 3
//! ```
#![tactic(auto)]

mod cut;
mod groups;
mod letters;
mod numerals;
mod texts;
mod writing;

pub use cut::{Format, split};
pub use groups::{Grouping, grouping_size};
pub use writing::write;
