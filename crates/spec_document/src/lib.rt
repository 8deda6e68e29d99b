//! What xt believes about documents: characters, names, the namespaces in scope, PYX lines and
//! events, forests, places, and what makes lines a document. `docs/DEFINITIONS.md` gives the order in which to read the modules of
//! `specs/`.
//!
//! There is no code here but the laws, whose functions have no body, and the types that the
//! definitions share with the code, which have texts of any type.
#![tactic(auto)]

mod axis;
mod event;
mod kind;
mod laws;
mod order;
mod parent;
mod usage;

pub use axis::Axis;
pub use event::Event;
pub use kind::Kind;
pub use laws::{
    escapes_read_back, events_have_one_forest, forests_are_computed,
    namespace_nodes_are_told_by_their_prefix, unbalanced_lines_are_the_first,
    written_forests_read_back, written_lines_read_back,
};
pub use order::{axes_part_the_tree, document_order_is_total, nodes_stand_in_order};
pub use parent::Parent;
pub use usage::AttributeUse;
