// Takes commands from lines.
ghost use Rattle.std.specs.Prelude.{List, ℕ, []};
ghost use Rattle.spec_session.specs.Command.{session_of, session_with};
ghost use Rattle.xt_session.specs.Progress.{Took, HasTakenCause, IsAlone};

use crate::command::{Command, Taken};
use crate::meet::{Met, is_end, kind_of, meet, meet_head};
use spec_session::LineKind;
use std::alloc::Global;
use xt_io::{Line, Lines, Source};

/// Takes the next command. Empty lines before it are skipped.
pub(crate) fn take_command<I: Source>(alloc: Global, lines: &mut Lines, input: &mut I) -> Taken
    ensures taken { Took session_of lines.old (I.remaining input.old) result lines.new (I.remaining input.new) }
    ensures cause { HasTakenCause (I.faults input.old) (I.faults input.new) result }
{
    loop {
        match meet(lines, input) {
            Met::Line(line) => match kind_of(line.as_bytes()) {
                LineKind::Empty => {}
                LineKind::Quit => return Taken::Stopped(0),
                LineKind::WithBody => return take_body(alloc, line, lines, input),
                LineKind::Alone => return alone(alloc, line),
            },
            Met::Head(head) => match kind_of(head.as_bytes()) {
                LineKind::Empty => {}
                LineKind::Quit => return Taken::Stopped(0),
                LineKind::WithBody => return skip_body(lines, input),
                LineKind::Alone => return Taken::Skipped,
            },
            Met::End => return Taken::Stopped(0),
            Met::Over => return Taken::Stopped(5),
            Met::Failed => return Taken::Failed,
        }
    }
}

// The command of a line that has no body.
fn alone(alloc: Global, line: Line) -> Taken
    ensures { IsAlone line result }
{
    Taken::Command(Command::new(line, Vec::new(alloc)))
}

// Takes the body of the command with this line.
fn take_body<I: Source>(alloc: Global, line: Line, lines: &mut Lines, input: &mut I) -> Taken
    ensures taken { Took (session_with line []) lines.old (I.remaining input.old) result lines.new (I.remaining input.new) }
    ensures cause { HasTakenCause (I.faults input.old) (I.faults input.new) result }
{
    let mut body = Vec::new(alloc);
    loop {
        match meet(lines, input) {
            Met::Line(next) => {
                if is_end(next.as_bytes()) {
                    return Taken::Command(Command::new(line, body));
                }
                if body.push(next).is_err() {
                    return skip_body(lines, input);
                }
            }
            Met::Head(head) => {
                if is_end(head.as_bytes()) {
                    return Taken::Skipped;
                }
                return skip_body(lines, input);
            }
            Met::End => return Taken::Stopped(4),
            Met::Over => return Taken::Stopped(5),
            Met::Failed => return Taken::Failed,
        }
    }
}

// Skips the rest of the body of a command, whatever its line and the body so far: takes no memory.
fn skip_body<I: Source>(lines: &mut Lines, input: &mut I) -> Taken
    ensures taken { (line : List ℕ) (body : List (List ℕ)) → Took (session_with line body) lines.old (I.remaining input.old) result lines.new (I.remaining input.new) }
    ensures cause { HasTakenCause (I.faults input.old) (I.faults input.new) result }
{
    loop {
        match meet_head(lines, input) {
            Met::Line(next) => {
                if is_end(next.as_bytes()) {
                    return Taken::Skipped;
                }
            }
            Met::Head(head) => {
                if is_end(head.as_bytes()) {
                    return Taken::Skipped;
                }
            }
            Met::End => return Taken::Stopped(4),
            Met::Over => return Taken::Stopped(5),
            Met::Failed => return Taken::Failed,
        }
    }
}
