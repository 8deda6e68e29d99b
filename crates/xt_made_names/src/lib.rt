//! The names that instructions make (XSLT 1.0, sections 7.1.2, 7.1.3 and 7.3), in a world that evaluates
//! expressions: what the content of the instruction becomes, or the refusal D08. Every function that asks has
//! the clause `Runs` (`xt_questions`).
//!
//! ```text
//! let wrapping = element_meant(alloc, &made, focus, &context, &supplies, world)?;   // Nameless: its content alone
//! ```
#![tactic(auto)]

mod attribute;
mod element;
mod instruction;
mod told;

pub use attribute::attribute_meant;
pub use element::element_meant;
pub use instruction::instruction_meant;
