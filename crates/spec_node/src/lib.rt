//! What nodes are called where documents are numbered: the node of the tree by its number, and which part of it is
//! meant. The definitions and the code share these types. `specs/Naming.antt` says what an entry of a document's
//! listing is called.
#![tactic(auto)]

mod node_ref;

pub use node_ref::{NodeId, NodeRef, Part};
