//! How stylesheet modules import and include one another (XSLT 1.0, section 2.6): in which order they are read, which
//! of their links lead nowhere or back, and which stylesheets they make in the order of their precedence.
//!
//! ```text
//! let tree = tree(alloc, &modules, "main")?;
//! tree.modules[0].name          // main; then each module that it leads to, once
//! tree.modules[0].link_fault    // None, or the first of S03 and S04 with its place
//! let sheets = stylesheets(alloc, &modules, &main)?;   // the lowest precedence first, main's last
//! ```
#![tactic(auto)]

mod fault;
mod gather;
mod listed;
mod numbers;
mod order;
mod precedence;
mod steps;
mod table;
mod top;

pub use fault::link_fault;
pub use listed::{ImportTree, ListedModule, tree};
pub use order::reading_order;
pub use precedence::{Part, Stylesheet, stylesheets};
