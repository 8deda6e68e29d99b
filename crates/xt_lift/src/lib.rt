//! Stylesheets in which the content of each xsl:for-each stands in a template of its own (`spec_items`), so that the
//! items of an xsl:for-each are run, recorded and repaired as called templates are.
//!
//! ```text
//! let sheet = with_items(alloc, sheet)?;      // it is run as before, and makes the same
//! ```
#![tactic(auto)]

mod adding;
mod bindings;
mod copies;
mod expressions;
mod item;
mod item_name;
mod left;
mod liftable;
mod loops;
mod mentioned;
mod parts;
mod plain;
mod scope;
mod sheet;
mod units;

pub use sheet::with_items;
