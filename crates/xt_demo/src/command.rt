// Commands and their lines.
ghost use Rattle.std.specs.Prelude.{◌≡◌, ◌++◌, ◌∷◌, [], map, decimal, IfOk, OnOk};
ghost use Rattle.spec_session.specs.Generated.{at_row, row_lines};

use itoa::Buffer;
use std::alloc::Global;
use std::marker::Model;
use xt_io::Line;
use xt_text::Memory;

/// A command of a generated session: its line, and the lines of its body, none where it has none. Contracts see both in bytes.
#[derive(Drop)]
pub struct GeneratedCommand {
    /// The line, without its end.
    pub line: Line,
    /// The lines of the body, without their ends and without the line that ends it.
    pub body: Vec<Line>,
}

impl Model for GeneratedCommand {
    ghost use Rattle.spec_session.specs.Command.{Command};

    ghost Value = { Command };

    ghost view = { λ command. record { line = command.line; body = command.body.items } };
}

impl GeneratedCommand {
    /// The command of this line without a body.
    pub(crate) fn alone(alloc: Global, line: Line) -> GeneratedCommand
        ensures { result ≡ record { line = line; body = [] } }
    {
        GeneratedCommand {
            line,
            body: Vec::new(alloc),
        }
    }
}

/// The line of a change: its word, the path of a row, and what stands behind it.
pub(crate) fn change_line(alloc: Global, word: &[u8], row: u32, more: &[u8]) -> Result<Line, Memory>
    ensures { IfOk result (λ line. line ≡ at_row word.now row more.now) }
{
    let mut line = Vec::from_slice(alloc, word)?;
    line.extend_from_slice(b" source /1/")?;
    push_number(&mut line, row)?;
    line.extend_from_slice(more)?;
    Ok(Line::from(line))
}

/// These bytes, and behind them the decimal digits of a number.
pub(crate) fn with_number(alloc: Global, bytes: &[u8], number: u32) -> Result<Vec<u8>, Memory>
    ensures { IfOk result (λ whole. whole.items ≡ bytes.now ++ decimal number) }
{
    let mut whole = Vec::from_slice(alloc, bytes)?;
    push_number(&mut whole, number)?;
    Ok(whole)
}

// Adds the decimal digits of a number.
fn push_number(bytes: &mut Vec<u8>, number: u32) -> Result<(), Memory>
    ensures { OnOk result (bytes.new.items ≡ bytes.old.items ++ decimal number) }
{
    Ok(bytes.extend_from_slice(Buffer::new().format(number).as_bytes())?)
}

/// Adds these lines.
pub(crate) fn push_lines(alloc: Global, body: &mut Vec<Line>, lines: &[&str]) -> Result<(), Memory>
    ensures { OnOk result (body.new.items ≡ body.old.items ++ map (λ line. line.now) lines.now) }
{
    for line in lines {
        body.push(Line::new(alloc, line.as_bytes())?)?;
    }
    Ok(())
}

/// Adds the lines of a row with this value.
pub(crate) fn push_row(alloc: Global, body: &mut Vec<Line>, value: u32) -> Result<(), Memory>
    ensures { OnOk result (body.new.items ≡ body.old.items ++ row_lines (decimal value)) }
{
    push_lines(alloc, body, ["(r", "(v"].as_slice())?;
    body.push(Line::from(with_number(alloc, b"-", value)?))?;
    push_lines(alloc, body, [")v", ")r"].as_slice())
}
