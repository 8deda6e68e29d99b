//! Cases of what modules compile to, in the form that the crate `cases` tells. A line has what is asked, and then the
//! modules, of which `main` is the principal one. `sheet:NAME` begins a stylesheet whose children are what follows,
//! `body:NAME` one whose only child is a template for the root with these children, and `module:NAME` a module of these
//! nodes alone. `<value-of` starts an element of XSLT and `(a` any other, `)` ends the last one that is open,
//! `@name=value` is an attribute, and any other word is a line as documents have them. What is open at the end of a
//! module is ended there.
//!
//! A static refusal is printed as `S17 main/1/1`. Of a stylesheet `check` prints `well`, `units` each unit as
//! `PLACE^PRECEDENCE (KIND ..)`, `places` the same with the place of each element, `content` what its templates hold,
//! `rules` its rules in their rank, and `rest` its rules for white space, its output method and its aliases.
#![tactic(auto)]

mod answer;
mod instructions;
mod modules;
mod parts;
mod rules;
mod units;

use answer::push_answer;
use cases::{Answers, Fault, call_of, words_of};
use modules::modules_of;
use std::alloc::Global;
use std::io;
use xt_text::Text;

#[derive(Clone, Copy)]
struct Compilation;

/// Prints the head of a section, and the answer to each of its lines.
pub fn answer_all(rt: &impl Print, alloc: Global, section: &str) -> io::Result<()> {
    cases::answer_all(rt, alloc, section, &mut Compilation)
}

impl Answers for Compilation {
    fn answer(&mut self, alloc: Global, out: &mut Text, line: &str) -> Result<(), Fault> {
        let words = words_of(alloc, line)?;
        let (call, arguments) = call_of(words.as_slice())?;
        let modules = modules_of(alloc, arguments)?;
        push_answer(alloc, out, call, &modules)
    }
}
