// Template rules.

use cases::{Fault, Word, number_at, text_at};
use std::alloc::Global;
use xt_names::{Expanded, Scope};
use xt_pattern::{PatternFault, parse_pattern};
use xt_questions::Candidates;
use xt_syntax::{Pattern, Rule, Rules};
use xt_text::{Memory, Text};

/// The pattern of a text that is one.
pub fn pattern_of(alloc: Global, text: &str, scope: &Scope) -> Result<Pattern, Fault> {
    match parse_pattern(alloc, text, scope) {
        Ok(pattern) => Ok(pattern),
        Err(PatternFault::Memory) => Err(Fault::Memory),
        Err(PatternFault::Refused(_)) => Err(Fault::NoCase),
    }
}

/// The mode that a word names; `-` is none.
pub fn mode_of(alloc: Global, text: &str) -> Result<Option<Expanded>, Memory> {
    if text == "-" {
        return Ok(None);
    }
    let local = Text::from_str(alloc, text)?;
    Ok(Some(Expanded::new(Text::new(alloc), local)))
}

/// Adds the rule that the words behind the first name.
pub fn add_rule(
    alloc: Global,
    rules: &mut Rules,
    words: &[Word],
    scope: &Scope,
) -> Result<(), Fault> {
    let precedence = number_at(words, 2)?;
    let pattern = pattern_of(alloc, text_at(words, 3)?, scope)?;
    let mode = mode_of(alloc, text_at(words, 1)?)?;
    rules.rules.push(Rule {
        pattern,
        precedence,
        imported: precedence,
        priority: 0,
        order: 0,
        mode,
        unit: 0,
    })?;
    Ok(())
}

/// Those of a range of precedences, which two words name.
pub fn imported(words: &[Word]) -> Result<Candidates, Fault> {
    let first = number_at(words, 3)?;
    let last = number_at(words, 4)?;
    Ok(Candidates::Imported { first, last })
}
