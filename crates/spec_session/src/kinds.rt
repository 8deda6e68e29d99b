// Plain enums, which the definitions and the code share.

/// What a line between two commands is, as its first 7 bytes and their count tell.
#[derive(Clone, Copy, Debug, PartialEq, Eq)]
pub enum LineKind {
    /// An empty line, which is skipped.
    Empty,
    /// `quit`, which ends the session.
    Quit,
    /// A command whose body follows, up to a line `.`.
    WithBody,
    /// Any other command.
    Alone,
}

/// How the lines of a session end.
#[derive(Clone, Copy, Debug, PartialEq, Eq)]
pub enum Ending {
    /// With the last line of a command.
    Finished,
    /// With `quit`.
    Quit,
    /// Inside a body, whose line `.` is not there.
    Unfinished,
}

/// What the words of a command line ask.
#[derive(Clone, Copy, Debug, PartialEq, Eq)]
pub enum Asked {
    /// A session.
    Session,
    /// A demonstration of this size, from 1 to 1000.
    Demonstration(u16),
    /// Nothing that the program does.
    Nothing,
}
