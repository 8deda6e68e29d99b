//! The keys of one name (XSLT 1.0, section 12.2): an index of the nodes that have a value in them. The keys are
//! asked in the order of the stylesheet, each for all nodes, so what is refused first is the same, whichever
//! value is sought. To find the nodes of a value then takes no memory and one look-up. One node may be asked by itself too,
//! and nodes of which the values are known are grouped with no question.
//!
//! ```text
//! let nodes = all_nodes(alloc, &doc)?;
//! let index = index(alloc, units, &name, nodes.as_slice(), &mut world)?;
//! let found = index.find("rose");      // the nodes that have this value, in document order
//! ```
#![tactic(auto)]

mod asking;
mod filling;
mod groups;
mod node;
mod nodes;
mod values;

pub use asking::index;
pub use groups::{KeyIndex, grouped};
pub use node::texts_at_node;
pub use nodes::all_nodes;
