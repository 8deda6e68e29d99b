// Sections, and the answers to their lines.

use crate::fault::Fault;
use std::alloc::Global;
use std::io;
use xt_text::{Memory, Text};

/// What answers the lines of a section, one after another.
pub trait Answers {
    /// Adds the answer to a line.
    fn answer(&mut self, alloc: Global, out: &mut Text, line: &str) -> Result<(), Fault>;
}

/// The name of a section, its first line.
pub fn name_of(section: &str) -> &str {
    parts_of(section).0
}

// The first line, and those behind it.
fn parts_of(section: &str) -> (&str, &str) {
    section.split_once('\n').unwrap_or((section, ""))
}

/// Prints the head of a section, and the answer to each of its lines.
pub fn answer_all<A: Answers>(
    rt: &impl Print,
    alloc: Global,
    section: &str,
    answers: &mut A,
) -> io::Result<()> {
    let (name, lines) = parts_of(section);
    rt.print("\n== ")?;
    rt.println(name)?;
    for line in lines.lines() {
        print(rt, answered(alloc, line, answers))?;
    }
    Ok(())
}

// Prints an answer, or that there was no memory for it.
fn print(rt: &impl Print, answer: Result<Text, Memory>) -> io::Result<()> {
    match answer {
        Ok(text) => rt.println(text.as_str()),
        Err(Memory) => rt.println("memory"),
    }
}

// What is printed for a line.
fn answered<A: Answers>(alloc: Global, line: &str, answers: &mut A) -> Result<Text, Memory> {
    if line.is_empty() || line.starts_with("#") {
        return Text::from_str(alloc, line);
    }
    let mut out = Text::new(alloc);
    match answers.answer(alloc, &mut out, line) {
        Ok(()) => Ok(out),
        Err(Fault::NoCase) => Text::from_str(alloc, "?"),
        Err(Fault::Memory) => Err(Memory),
    }
}
