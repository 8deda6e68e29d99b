// Commands, as they are taken from lines.
ghost use Rattle.std.specs.Prelude.{◌≡◌};

use std::marker::Model;
use xt_io::Line;

/// A whole command: its line, and the lines of its body, none where it has none. Contracts see
/// both in bytes.
#[derive(Drop)]
pub(crate) struct Command {
    line: Line,
    body: Vec<Line>,
}

impl Model for Command {
    ghost use Rattle.spec_session.specs.Command as session;

    ghost Value = { session.Command };

    ghost view = { λ command. record { line = command.line; body = command.body.items } };
}

impl Command {
    /// The command of this line with this body.
    pub(crate) fn new(line: Line, body: Vec<Line>) -> Command
        ensures { result ≡ record { line = line; body = body.items } }
    {
        Command { line, body }
    }

    /// Its line, and the lines of its body.
    pub(crate) fn into_parts(self) -> (Line, Vec<Line>)
        ensures line { result.0 ≡ self.line }
        ensures body { result.1.items ≡ self.body }
    {
        let Command { line, body } = self;
        (line, body)
    }
}

/// What came next in the input.
#[derive(Drop)]
pub(crate) enum Taken {
    /// A whole command.
    Command(Command),
    /// A whole command for which there was no memory: it was read, and is not kept.
    Skipped,
    /// No whole command is left, and the session ends with this status.
    Stopped(u8),
    /// The source failed.
    Failed,
}
