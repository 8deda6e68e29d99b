//! What an edit changes for work that was done on a document: at which node, and the numbers of nodes that go and come.
//!
//! There is no code here but the laws, whose functions have no body.
#![tactic(auto)]

mod laws;

pub use laws::{changes_say_what_is_gone, edits_agree, nodes_keep_their_numbers};
