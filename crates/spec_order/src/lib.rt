//! Laws of the order of node-sets, in a crate of their own since nothing stands on them: whatever an expression means,
//! a node-set that it gives has its nodes in document order, each once, so that "the first node in document order" of
//! the standard is the first of the list.
//!
//! Read `specs/NodeSet.antt`, then `specs/First.antt` and `specs/Run.antt`. There is no code here but the laws, whose functions have no
//! body.
#![tactic(auto)]

mod laws;

pub use laws::{
    globals_are_in_order, instantiations_keep_order, node_sets_are_converted_by_their_first_node,
    node_sets_are_in_order, strings_and_names_are_of_the_first_node,
    the_first_of_the_list_is_the_first, true_answers_are_in_order,
};
