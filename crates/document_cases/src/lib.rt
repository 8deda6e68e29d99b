//! Cases of documents: characters, names, lines, trees and what they are read from, in the form that the
//! crate `cases` tells. The head of each file says what calls it answers.
#![tactic(auto)]

mod bodies;
mod characters;
mod codes;
mod commands;
mod files;
mod names;
mod nodes;
mod parts;
mod pyx;
mod scopes;
mod streams;
mod wire;

use cases::{Answers, Fault, Word, call_of, words_of};
use std::alloc::Global;
use std::io;
use xt_text::Text;

#[derive(Clone, Copy)]
struct Documents;

/// Prints the head of a section, and the answer to each of its lines.
pub fn answer_all(rt: &impl Print, alloc: Global, section: &str) -> io::Result<()> {
    cases::answer_all(rt, alloc, section, &mut Documents)
}

impl Answers for Documents {
    fn answer(&mut self, alloc: Global, out: &mut Text, line: &str) -> Result<(), Fault> {
        let words = words_of(alloc, line)?;
        let (call, arguments) = call_of(words.as_slice())?;
        if is_answered(alloc, out, call, arguments)? {
            return Ok(());
        }
        Err(Fault::NoCase)
    }
}

// Answers the call; false where no part knows it.
fn is_answered(alloc: Global, out: &mut Text, call: &str, words: &[Word]) -> Result<bool, Fault> {
    Ok(
        characters::answer(out, call, words)?
            || names::answer(alloc, out, call, words)?
            || scopes::answer(alloc, out, call, words)?
            || pyx::answer(alloc, out, call, words)?
            || codes::answer(alloc, out, call, words)?
            || parts::answer(alloc, out, call, words)?
            || bodies::answer(alloc, out, call, words)?
            || nodes::answer(alloc, out, call, words)?
            || streams::answer(alloc, out, call, words)?
            || files::answer(alloc, out, call, words)?
            || wire::answer(alloc, out, call, words)?
            || commands::answer(alloc, out, call, words)?,
    )
}
