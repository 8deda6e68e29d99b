//! Attribute value templates (XSLT 1.0, section 7.6.2).
//!
//! `parse_avt` answers the one tree that a text has as a value template, or the least refusal of all that
//! stand at it; which it is, `ParsesTemplate` of the definitions says. `first_piece` cuts a text at its braces.
//!
//! ```text
//! let scope = Scope::root(alloc)?;
//! let width = parse_avt(alloc, "{count(a)}{{px}}", &scope)?;
//! ```
#![tactic(auto)]

mod braces;
mod expansion;
mod fault;
mod front;
mod parts;
mod template;

pub use braces::{Cut, Piece, first_piece};
pub use expansion::expand;
pub use fault::AvtFault;
pub use template::parse_avt;
