// Patterns: `pattern TEXT` gives the tree of a text, or its refusal; `pattern-joined TEXT..` takes the texts one
// after another; `priority TEXT` gives the default priorities of the alternatives, in millionths.

use case_trees::{push_code, push_pattern, scope};
use cases::{Fault, Word, joined, push_part, text_at};
use std::alloc::Global;
use xt_pattern::{PatternFault, parse_pattern, priority};
use xt_syntax::Pattern;
use xt_text::{Memory, Text};

/// Answers the call, if it is one of these.
pub fn answer(alloc: Global, out: &mut Text, call: &str, words: &[Word]) -> Result<bool, Fault> {
    match call {
        "pattern" => push_parsed(alloc, out, text_at(words, 0)?)?,
        "pattern-joined" => push_joined(alloc, out, joined(alloc, words)?)?,
        "priority" => push_priorities(alloc, out, text_at(words, 0)?)?,
        _ => return Ok(false),
    }
    Ok(true)
}

fn push_joined(alloc: Global, out: &mut Text, text: Text) -> Result<(), Memory> {
    push_parsed(alloc, out, text.as_str())
}

fn push_parsed(alloc: Global, out: &mut Text, text: &str) -> Result<(), Memory> {
    let scope = scope(alloc)?;
    match parse_pattern(alloc, text, &scope) {
        Ok(pattern) => push_pattern(out, &pattern),
        Err(fault) => push_refusal(out, fault),
    }
}

fn push_priorities(alloc: Global, out: &mut Text, text: &str) -> Result<(), Fault> {
    let scope = scope(alloc)?;
    match parse_pattern(alloc, text, &scope) {
        Ok(pattern) => Ok(push_each_priority(alloc, out, &pattern)?),
        Err(PatternFault::Memory) => Err(Fault::Memory),
        Err(PatternFault::Refused(_)) => Err(Fault::NoCase),
    }
}

fn push_each_priority(alloc: Global, out: &mut Text, pattern: &Pattern) -> Result<(), Memory> {
    for alternative in pattern.alternatives.as_slice() {
        let number = format!(in alloc; "{}", priority(alternative))?;
        push_part(out, number.as_str())?;
    }
    Ok(())
}

fn push_refusal(out: &mut Text, fault: PatternFault) -> Result<(), Memory> {
    match fault.code() {
        None => Err(Memory),
        Some(code) => push_code(out, code),
    }
}
