//! Documents as shared trees whose nodes have numbers. Contracts see a `Doc` as the plain tree with
//! its numbers; how a node is found by its number is nobody else's concern. Beside them stand the streams
//! that instructions write, and the values of expressions.
//!
//! ```text
//! let element = doc.at(&path);               // the node at child positions, each from 1
//! let text = doc.string_value(alloc, &node)?;   // the texts below an element
//! ```
#![tactic(auto)]

mod by_number;
mod declarations;
mod doc;
mod edit;
mod filling;
mod find;
mod indexed;
mod items;
mod keys;
mod names;
mod node;
mod part;
mod place;
mod properties;
mod remade;
mod room;
mod splice;
mod table;
mod thinned;
mod value;

pub use doc::{Doc, Nodes};
pub use find::push_texts;
pub use items::{Item, Items};
pub use node::{Content, Node, Written};
pub use spec_document::Kind;
pub use spec_node::{NodeId, NodeRef, Part};
pub use value::{Fragment, Value};
