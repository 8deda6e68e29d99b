// Trees of patterns, in the form that reads well.
//
// The alternatives are parted by ` | `. An alternative is where it starts, `anywhere`, `root`, `id("x")` or
// `key(NAME, "x")` (with `-` for no name), and its steps, each behind its separator: `/child::a`.

use crate::tree::push_step;
use cases::{push_name, push_quoted};
use xt_syntax::{Alternative, Pattern, PatternStep, Separator, Start};
use xt_text::{Memory, Text};

/// Adds a pattern.
pub fn push_pattern(out: &mut Text, pattern: &Pattern) -> Result<(), Memory> {
    for (index, alternative) in pattern.alternatives.as_slice().iter().enumerate() {
        if index > 0 {
            out.push_str(" | ")?;
        }
        push_alternative(out, alternative)?;
    }
    Ok(())
}

fn push_alternative(out: &mut Text, alternative: &Alternative) -> Result<(), Memory> {
    push_start(out, &alternative.start)?;
    for step in alternative.steps.as_slice() {
        out.push(' ')?;
        push_pattern_step(out, step)?;
    }
    Ok(())
}

fn push_start(out: &mut Text, start: &Start) -> Result<(), Memory> {
    match start {
        Start::Anywhere => out.push_str("anywhere"),
        Start::Root => out.push_str("root"),
        Start::Id(id) => {
            out.push_str("id(")?;
            push_quoted(out, id.as_str())?;
            out.push(')')
        }
        Start::Key(name, value) => {
            out.push_str("key(")?;
            match name {
                None => out.push('-')?,
                Some(name) => push_name(out, name)?,
            }
            out.push_str(", ")?;
            push_quoted(out, value.as_str())?;
            out.push(')')
        }
    }
}

fn push_pattern_step(out: &mut Text, step: &PatternStep) -> Result<(), Memory> {
    out.push_str(match step.separator {
        Separator::Child => "/",
        Separator::Descendant => "//",
    })?;
    push_step(out, &step.step)
}
