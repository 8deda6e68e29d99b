//! What the libraries of cases have in common. Each answers calls of libraries, one a line, and prints what each
//! call answers, one line each. Empty lines and comments (`#`) are printed as they are, so lines and answers read
//! side by side.
//!
//! A line is the name of a call and its arguments, words that are parted by spaces. A word that begins
//! with `'` or `"` goes to the next such mark, any other to the next space. In a word `%` and two
//! hexadecimal digits stand for that byte, and `%*N` alone says that the next word stands N times. Texts
//! are printed in the same form, in `"`.
//!
//! `?` is printed where the line is no call, and `memory` for want of memory: no case wants either.
#![tactic(auto)]

mod answers;
mod documents;
mod fault;
mod show;
mod words;

pub use answers::{Answers, answer_all, name_of};
pub use documents::{body, built, document, node, push_reference};
pub use fault::Fault;
pub use show::{
    part, push_bytes, push_name, push_number, push_part, push_quoted, push_uri, push_word, push_yes,
};
pub use words::{
    Word, behind, call_of, halves, joined, number_at, number_of, one, text_at, text_of, words_of,
};
