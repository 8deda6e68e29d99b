//! Conversions, comparisons and operations on values (XPath 1.0, sections 3.3 to 3.5 and 4), in a world that
//! is asked for the string-values of nodes. Every function that asks has the clause `Runs` (`xt_questions`).
//!
//! ```text
//! let number = to_number(alloc, &value, world)?;                     // of a node-set, by its first node
//! let sum = combine(alloc, Operator::Add, left, right, world)?;      // NaN where one is NaN
//! ```
#![tactic(auto)]

mod comparison;
mod convert;
mod operand;
mod operation;
mod stream_text;

pub use comparison::compare;
pub use convert::{count, given, to_boolean, to_nodes, to_number, to_text};
pub use operation::{combine, compute, is_decided};
