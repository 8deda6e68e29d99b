//! That what a session holds is read afresh: each document that is held is the document of the lines that are written
//! for it.
//!
//! There is no code here but the laws, whose functions have no body.
#![tactic(auto)]

mod laws;

pub use laws::{
    characters_are_read, dumped_lines_are_a_body, edits_keep_characters,
    held_documents_are_those_of_their_lines, held_documents_can_be_given_again,
    lines_make_their_document, moves_keep_characters, siblings_are_read_with_characters,
};
