//! The world of a stylesheet and a source: it answers truly what is asked of the source's tree and of its keys, for
//! copies of its nodes, for their template rules, for the units of the stylesheet and for the values that
//! parameters are given from outside. Of what it was asked it keeps the keys: all keys of a name are found for all
//! nodes when a first value is asked for. It keeps too which rules may match the nodes that it met, by what these are
//! called. `Source` is the part of it that knows the tree and the keys alone. Keys that were found already may be given.
//!
//! ```text
//! let stylesheet = Stylesheet::new(alloc, sheet, numbers)?;   // of the elements of its units, if they serve
//! let mut world = SheetWorld::new(alloc, &source, &stylesheet, &parameters, keys);      // keys that were found already
//! ```
#![tactic(auto)]

mod common;
mod found;
mod index;
mod key;
mod laws;
mod naming;
mod numbers;
mod parameters;
mod resolve;
mod source;
mod stylesheet;
mod world;

pub use common::{same_rules, same_units};
pub use found::{Found, FoundKeys};
pub use laws::{same_plain_choices, same_run};
pub use parameters::{Before, Parameters};
pub use source::Source;
pub use stylesheet::Stylesheet;
pub use world::SheetWorld;
