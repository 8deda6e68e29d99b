//! Cases of expressions and stylesheets, in the form that the crate `cases` tells. The head of each file
//! says what calls it answers.
#![tactic(auto)]

mod axes;
mod instructions;
mod numbers;
mod sheets;
mod texts;
mod trees;

use cases::{Answers, Fault, Word, call_of, push_yes, words_of};
use std::alloc::Global;
use std::io;
use xt_text::Text;

#[derive(Clone, Copy)]
struct Expressions;

/// Prints the head of a section, and the answer to each of its lines.
pub fn answer_all(rt: &impl Print, alloc: Global, section: &str) -> io::Result<()> {
    cases::answer_all(rt, alloc, section, &mut Expressions)
}

impl Answers for Expressions {
    fn answer(&mut self, alloc: Global, out: &mut Text, line: &str) -> Result<(), Fault> {
        let words = words_of(alloc, line)?;
        let (call, arguments) = call_of(words.as_slice())?;
        if is_answered(alloc, out, call, arguments)? {
            return Ok(());
        }
        Err(Fault::NoCase)
    }
}

// Answers the call; false where no part knows it.
fn is_answered(alloc: Global, out: &mut Text, call: &str, words: &[Word]) -> Result<bool, Fault> {
    Ok(
        numbers::answer(alloc, out, call, words)?
            || texts::answer(alloc, out, call, words)?
            || trees::answer(alloc, out, call, words)?
            || sheets::answer(alloc, out, call, words)?
            || axes::answer(alloc, out, call, words)?,
    )
}

// Adds whether something holds; the call is answered then.
fn answer_yes(out: &mut Text, holds: bool) -> Result<bool, Fault> {
    push_yes(out, holds)?;
    Ok(true)
}
