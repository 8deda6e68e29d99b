// The changes of a session.
ghost use Rattle.std.specs.Prelude.{◌≡◌, ◌≤◌, ◌<◌, ◌+◌, ◌-◌, decimal, IfOk};
ghost use Rattle.spec_session.specs.Generated.{behind, change_command, delete_command, insert_command, text_command};
ghost use Rattle.xt_demo.specs.View.{IsWithin, place_of};

use crate::command::{GeneratedCommand, change_line, push_row, with_number};
use crate::draws::Draws;
use std::alloc::Global;
use xt_io::Line;
use xt_text::Memory;

/// Where the changes of a session stand.
#[derive(Clone, Copy)]
pub(crate) struct Place {
    /// The number of the next change, from 1.
    pub number: u32,
    /// How many changes are left.
    pub left: u32,
    /// The draws before it.
    pub draws: Draws,
    /// How many rows there are.
    pub rows: u32,
}

impl Place {
    /// The next change, and where the changes stand behind it.
    pub(crate) fn change(self, alloc: Global) -> Result<(GeneratedCommand, Place), Memory>
        requires some { 0 < self.left }
        requires within { IsWithin self }
        ensures change { IfOk result (λ step. step.0 ≡ change_command (place_of self)) }
        ensures place { IfOk result (λ step. place_of step.1 ≡ behind (place_of self)) }
        ensures left { IfOk result (λ step. step.1.left + 1 ≡ self.left) }
        ensures within { IfOk result (λ step. IsWithin step.1) }
    {
        let mut draws = self.draws;
        let row = draws.row(self.rows);
        match self.number % 3 {
            1 => {
                let value = draws.value();
                Ok((text(alloc, row, value)?, self.behind(draws, self.rows)))
            }
            2 => {
                let value = draws.value();
                Ok((
                    insert(alloc, row, value)?,
                    self.behind(draws, self.rows + 1),
                ))
            }
            _ => Ok((delete(alloc, row)?, self.behind(draws, self.rows - 1))),
        }
    }

    // Where they stand behind a change that leaves these draws and so many rows.
    fn behind(self, draws: Draws, rows: u32) -> Place
        requires some { 0 < self.left }
        requires within { self.number + self.left ≤ 10001 }
        ensures { result ≡ record { number = self.number + 1; left = self.left - 1; draws = draws; rows = rows } }
    {
        Place {
            number: self.number + 1,
            left: self.left - 1,
            draws,
            rows,
        }
    }
}

// The text in this row becomes another value.
fn text(alloc: Global, row: u32, value: u32) -> Result<GeneratedCommand, Memory>
    ensures { IfOk result (λ command. command ≡ text_command row (decimal value)) }
{
    let more = with_number(alloc, b"/1/1 ", value)?;
    let line = change_line(alloc, b"text", row, more.as_slice())?;
    Ok(GeneratedCommand::alone(alloc, line))
}

// A row with this value comes before this row.
fn insert(alloc: Global, row: u32, value: u32) -> Result<GeneratedCommand, Memory>
    ensures { IfOk result (λ command. command ≡ insert_command row (decimal value)) }
{
    let line = change_line(alloc, b"insert", row, b"")?;
    let mut body = Vec::new(alloc);
    push_row(alloc, &mut body, value)?;
    Ok(GeneratedCommand { line, body })
}

// This row goes.
fn delete(alloc: Global, row: u32) -> Result<GeneratedCommand, Memory>
    ensures { IfOk result (λ command. command ≡ delete_command row) }
{
    let line = change_line(alloc, b"delete", row, b"")?;
    Ok(GeneratedCommand::alone(alloc, line))
}
