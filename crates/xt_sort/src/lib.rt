//! Sorting (XSLT 1.0, section 10), in a world that evaluates expressions: how the keys of an xsl:sort compare,
//! the key of a node, and nodes in the order of their keys. Every function that asks has the clause `Runs`
//! (`xt_questions`).
//!
//! ```text
//! let by = criterion(alloc, &key, focus, &context, &supplies, world)?;                // numbers, descending
//! let value = key_value(alloc, &key, by, focus, &context, &supplies, world)?;         // of the node in focus
//! let nodes = nodes_in_order(alloc, criteria.as_slice(), rows)?;                      // nodes that tie stay as they were
//! ```
#![tactic(auto)]

mod asking;
mod comparing;
mod row;
mod sorting;

pub use asking::{criterion, key_value};
pub use row::{Criterion, KeyValue, Row};
pub use sorting::nodes_in_order;
