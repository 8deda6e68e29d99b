//! Numbers (XSLT 1.0, section 7.7): the nodes that an xsl:number counts, and the text that it puts, in a world that
//! evaluates expressions. Every function that asks has the clause `Runs` (`xt_questions`).
//!
//! ```text
//! let text = number_text(alloc, &numbering, focus, &context, &supplies, world)?;   // 2.c
//! ```
#![tactic(auto)]

mod counted;
mod levels;
mod nodes;
mod text;
mod variables;

pub use text::number_text;
