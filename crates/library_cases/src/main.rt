//! Cases of the libraries. Reads them from standard input and prints their answers, so that lines and answers read
//! side by side. What is wanted stands in the file `stdout`.
//!
//! An empty line and a line `== NAME` begin a section, which one of the libraries answers: the head of its `lib.rt`
//! tells the form of the lines. What stands before the first section is printed as it is.
#![tactic(auto)]

use cases::name_of;
use std::alloc::Global;
use std::io;

fn main(rt: HostRuntime) -> io::Result<()> {
    let text = io::read_to_string(rt.alloc(), rt.reader())?;
    answer_all(&rt, rt.alloc(), text.as_str())
}

fn answer_all(rt: &impl Print, alloc: Global, text: &str) -> io::Result<()> {
    for section in text.split("\n\n== ") {
        answer_section(rt, alloc, section)?;
    }
    Ok(())
}

fn answer_section(rt: &impl Print, alloc: Global, section: &str) -> io::Result<()> {
    match name_of(section) {
        "documents" => document_cases::answer_all(rt, alloc, section),
        "expressions" => expression_cases::answer_all(rt, alloc, section),
        "patterns and templates" => stylesheet_cases::answer_all(rt, alloc, section),
        "evaluation" => evaluation_cases::answer_all(rt, alloc, section),
        "matching" => match_cases::answer_all(rt, alloc, section),
        "results" => result_cases::answer_all(rt, alloc, section),
        "structure" => structure_cases::answer_all(rt, alloc, section),
        "imports" => import_cases::answer_all(rt, alloc, section),
        "compilation" => compile_cases::answer_all(rt, alloc, section),
        _ => rt.println(section),
    }
}
