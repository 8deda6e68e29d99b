//! Cases of how modules import and include one another, in the form that the crate `cases` tells. A line has modules,
//! as `main>a+b a> b`, each a word of its name and its links in document order: `>` with the name of a module that it
//! imports, `+` with one that it includes; `/` stands for another element. What is printed is the modules that `main`
//! leads to, in reading order, each with the fault of its links, as `main b S03/1`.
#![tactic(auto)]

mod answer;
mod modules;

use answer::push_answer;
use cases::{Answers, Fault, words_of};
use modules::modules_of;
use std::alloc::Global;
use std::io;
use xt_text::Text;

#[derive(Clone, Copy)]
struct Imports;

/// Prints the head of a section, and the answer to each of its lines.
pub fn answer_all(rt: &impl Print, alloc: Global, section: &str) -> io::Result<()> {
    cases::answer_all(rt, alloc, section, &mut Imports)
}

impl Answers for Imports {
    fn answer(&mut self, alloc: Global, out: &mut Text, line: &str) -> Result<(), Fault> {
        let words = words_of(alloc, line)?;
        let modules = modules_of(alloc, words.as_slice())?;
        Ok(push_answer(alloc, out, &modules)?)
    }
}
