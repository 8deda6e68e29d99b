//! What xt believes about edits by path: the document afterwards with its labels, or the refusal that is answered.
//!
//! There is no code here but the laws, whose functions have no body.
#![tactic(auto)]

mod laws;

pub use laws::{
    deletions_are_judged_by_the_whole_document, documents_begin_well, documents_stay_normal,
    documents_stay_shallow, documents_stay_valid, edits_are_judged_by_the_whole_document,
    insertions_are_judged_by_the_whole_document, kept_numbers_keep_their_nodes,
    labels_do_not_matter, numbers_stay_distinct, siblings_begin_well,
};
