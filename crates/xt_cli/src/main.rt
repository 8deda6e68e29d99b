//! The program `xt`: makes the words of its command line, standard input and standard output, calls
//! `run`, and ends with its status.
#![tactic(auto)]

use std::alloc::Global;
use std::process::ExitCode;
use std::{env, io};
use xt_io::{StdSink, StdSource};
use xt_session::run;

/// The status for want of memory outside a command's work.
const NO_MEMORY: u8 = 3;

fn main(rt: HostRuntime) -> ExitCode {
    let alloc = rt.alloc();
    let Some(words) = words(&rt, alloc) else {
        return ExitCode::from(NO_MEMORY);
    };
    let mut input = StdSource::new(rt.stdin());
    let mut output = StdSink::new(rt.stdout());
    ExitCode::from(run(alloc, &words, &mut input, &mut output))
}

// The words of the command line, or none for want of memory. Words that are no text ask for nothing,
// as no words do.
fn words(rt: &HostRuntime, alloc: Global) -> Option<Vec<String>> {
    match env::args(rt) {
        Ok(words) => words.collect(alloc).ok(),
        Err(error) if error.kind() == io::ErrorKind::OutOfMemory => None,
        Err(_) => Some(Vec::new(alloc)),
    }
}
