//! What xt believes about moves of a node within its document: the document afterwards with its labels, or the refusal
//! that is answered. It is apart from the edits at one path, on which documents stand, so that a change of it proves no
//! document again.
//!
//! There is no code here but the laws, whose functions have no body.
#![tactic(auto)]

mod laws;

pub use laws::{
    moved_numbers_keep_their_nodes, moves_are_judged_by_the_whole_document, moves_ask_no_labels,
    moves_keep_documents_normal, moves_keep_documents_shallow, moves_keep_documents_valid,
    moves_keep_numbers_distinct,
};
