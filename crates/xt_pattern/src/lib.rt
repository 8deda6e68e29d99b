//! The parser of patterns (XSLT 1.0, sections 5.2 and 5.5).
//!
//! `parse_pattern` answers the one tree that a text has in the grammar, or the least refusal that stands at
//! it; which it is, `ParsesPattern` of the definitions says. `priority` answers the default priority of an
//! alternative. Tokens, and steps with their predicates, are those of expressions.
//!
//! ```text
//! let scope = Scope::root(alloc)?;
//! let pattern = parse_pattern(alloc, "chapter//para[1] | @id", &scope)?;
//! ```
#![tactic(auto)]

mod descent;
mod fault;
mod head;
mod priorities;
mod text;

pub use fault::PatternFault;
pub use priorities::priority;
pub use text::parse_pattern;
