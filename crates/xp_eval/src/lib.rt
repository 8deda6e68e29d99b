//! The value of an expression in a world (XPath 1.0, sections 2 and 3). What the world is asked, and what of
//! the run is needed, is noted there in the order of evaluation, so that the reads of a value tell all that it
//! rests on.
//!
//! ```text
//! let value = eval(alloc, &expr, focus, &context, &supplies, world)?;   // D04 where nodes are wanted and there are none
//! ```
#![tactic(auto)]

mod evaluator;
mod expression;
mod find;
mod pick;

pub use evaluator::Eval;
pub use expression::eval;
