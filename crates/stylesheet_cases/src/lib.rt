//! Cases of the parts of stylesheets, in the form that the crate `cases` tells. The head of each file
//! says what calls it answers.
#![tactic(auto)]

mod patterns;
mod templates;

use cases::{Answers, Fault, Word, call_of, words_of};
use std::alloc::Global;
use std::io;
use xt_text::Text;

#[derive(Clone, Copy)]
struct Texts;

/// Prints the head of a section, and the answer to each of its lines.
pub fn answer_all(rt: &impl Print, alloc: Global, section: &str) -> io::Result<()> {
    cases::answer_all(rt, alloc, section, &mut Texts)
}

impl Answers for Texts {
    fn answer(&mut self, alloc: Global, out: &mut Text, line: &str) -> Result<(), Fault> {
        let words = words_of(alloc, line)?;
        let (call, arguments) = call_of(words.as_slice())?;
        if is_answered(alloc, out, call, arguments)? {
            return Ok(());
        }
        Err(Fault::NoCase)
    }
}

// Answers the call; false where no part knows it.
fn is_answered(alloc: Global, out: &mut Text, call: &str, words: &[Word]) -> Result<bool, Fault> {
    Ok(patterns::answer(alloc, out, call, words)? || templates::answer(alloc, out, call, words)?)
}
