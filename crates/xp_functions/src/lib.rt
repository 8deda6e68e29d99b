//! The functions of XPath and XSLT (XPath 1.0, section 4; XSLT 1.0, sections 12 and 15): which one a call
//! names, and what it makes of its arguments in a world.
//!
//! ```text
//! let function = find(&name, 2)?;                                    // S16 where there is none
//! let value = apply(alloc, function, arguments, focus, &context, &supplies, world)?;
//! ```
#![tactic(auto)]

mod argument;
mod call;
mod context;
mod key;
mod language;
mod name;
mod nodes;
mod substring;
mod table;
mod text;
mod texts;
mod value;

pub use call::apply;
pub use spec_meaning::Function;
pub use table::find;
