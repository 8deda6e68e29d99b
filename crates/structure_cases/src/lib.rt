//! Cases of the structure of stylesheet modules, in the form that the crate `cases` tells. `module LINE..` gives the
//! first fault of the module whose lines these are, as `S07 /1/2`, or `well`, and then its links, as `import /1/1 "a"`.
//! `sheet LINE..` does so for a stylesheet with these children, and `body LINE..` for one whose only child is a
//! template for the root with these, so that they stand from /1/1/1 on. Both declare the prefixes xsl, p and e, for
//! urn:p and urn:e, and e names an extension namespace.
#![tactic(auto)]

mod answer;
mod modules;

use answer::push_answer;
use cases::{Answers, Fault, call_of, words_of};
use std::alloc::Global;
use std::io;
use xt_text::Text;

#[derive(Clone, Copy)]
struct Structure;

/// Prints the head of a section, and the answer to each of its lines.
pub fn answer_all(rt: &impl Print, alloc: Global, section: &str) -> io::Result<()> {
    cases::answer_all(rt, alloc, section, &mut Structure)
}

impl Answers for Structure {
    fn answer(&mut self, alloc: Global, out: &mut Text, line: &str) -> Result<(), Fault> {
        let words = words_of(alloc, line)?;
        let (call, arguments) = call_of(words.as_slice())?;
        push_answer(alloc, out, call, arguments)
    }
}
