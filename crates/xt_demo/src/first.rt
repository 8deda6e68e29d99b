// The first commands of a session, and the last.
ghost use Rattle.std.specs.Prelude.{◌≡◌, ◌++◌, ◌∷◌, [], codes, IfOk, OnOk};
ghost use Rattle.spec_session.specs.Generated.{module_command, rows_lines, show_command, source_command, state_after};

use crate::command::{GeneratedCommand, push_lines, push_row};
use crate::draws::Draws;
use std::alloc::Global;
use xt_io::Line;
use xt_text::Memory;

const STYLESHEET: [&str; 20] = [
    "(xsl:stylesheet",
    "Aversion 1.0",
    "Axmlns:xsl http://www.w3.org/1999/XSL/Transform",
    "(xsl:template",
    "Amatch /",
    "(out",
    "(xsl:apply-templates",
    "Aselect t/r",
    ")xsl:apply-templates",
    ")out",
    ")xsl:template",
    "(xsl:template",
    "Amatch r",
    "(o",
    "(xsl:value-of",
    "Aselect v",
    ")xsl:value-of",
    ")o",
    ")xsl:template",
    ")xsl:stylesheet",
];

/// The command that gives the stylesheet.
pub(crate) fn module(alloc: Global) -> Result<GeneratedCommand, Memory>
    ensures { IfOk result (λ command. command ≡ module_command) }
{
    let line = Line::new(alloc, b"module main")?;
    let mut body = Vec::new(alloc);
    push_lines(alloc, &mut body, STYLESHEET.as_slice())?;
    Ok(GeneratedCommand { line, body })
}

/// The command that gives a source of so many rows, and the draws behind it.
pub(crate) fn source(
    alloc: Global,
    rows: u32,
    draws: &mut Draws,
) -> Result<GeneratedCommand, Memory>
    ensures source { IfOk result (λ command. command ≡ source_command rows draws.old.state) }
    ensures draws { OnOk result (draws.new.state ≡ state_after rows draws.old.state) }
{
    let line = Line::new(alloc, b"source")?;
    let mut body = Vec::new(alloc);
    push_lines(alloc, &mut body, ["(t"].as_slice())?;
    push_rows(alloc, &mut body, rows, draws)?;
    push_lines(alloc, &mut body, [")t"].as_slice())?;
    Ok(GeneratedCommand { line, body })
}

// Adds the lines of so many rows.
fn push_rows(
    alloc: Global,
    body: &mut Vec<Line>,
    rows: u32,
    draws: &mut Draws,
) -> Result<(), Memory>
    ensures lines { OnOk result (body.new.items ≡ body.old.items ++ rows_lines rows draws.old.state) }
    ensures draws { OnOk result (draws.new.state ≡ state_after rows draws.old.state) }
{
    let mut left = rows;
    while left > 0 {
        push_row(alloc, body, draws.value())?;
        left -= 1;
    }
    Ok(())
}

/// The request to show the result.
pub(crate) fn show(alloc: Global) -> Result<GeneratedCommand, Memory>
    ensures { IfOk result (λ command. command ≡ show_command) }
{
    let line = Line::new(alloc, b"show")?;
    Ok(GeneratedCommand::alone(alloc, line))
}
