//! The parser of expressions (XPath 1.0, sections 2, 3 and 3.7).
//!
//! `parse` answers the one tree that a text has in the grammar, or the least refusal that stands at
//! it; which it is, `Parses` of the definitions says.
//!
//! `tokens` cuts a text, and a `Parser` reads what tokens are from a place on: expressions, and steps, of which
//! patterns are made too. `is_deep`, `has_bad_number` and `has_undeclared` test what is past xt's profile.
//!
//! ```text
//! let scope = Scope::root(alloc)?;
//! let sum = parse(alloc, "1 + count(a//b)", &scope)?;
//! ```
#![tactic(auto)]

mod build;
mod cut;
mod descent;
mod fault;
mod front;
mod read;
mod text;
mod token;

pub use cut::tokens;
pub use fault::ParseFault;
pub use read::Parser;
pub use text::{has_bad_number, has_undeclared, is_deep, parse};
pub use token::{Name, Sign, Token};
