// Meets the next line, with memory for it or without.
ghost use Rattle.std.specs.Prelude.{◌≡◌, bytes_eq};
ghost use Rattle.spec_session.specs.Command.{kind_of as kind_of_head, has_body as has_body_by, is_end as is_end_line};
ghost use Rattle.spec_lines.specs.Lines.{head_of, TakesUpTo};
ghost use Rattle.xt_session.specs.Progress.{Meets, met_extra, HasMetCause};

use spec_session::LineKind;
use xt_io::{Head, Line, LineFault, Lines, SkipFault, Source};

/// The next line, its head where there is no memory for it, or why there is none.
#[derive(Drop)]
pub(crate) enum Met {
    Line(Line),
    Head(Head),
    End,
    Over,
    Failed,
}

/// Takes the next line from the input, or where there is no memory for it skips it.
pub(crate) fn meet<I: Source>(lines: &mut Lines, input: &mut I) -> Met
    ensures met { Meets lines.old (I.remaining input.old) result lines.new (I.remaining input.new) }
    ensures takes { TakesUpTo (met_extra result) lines.old (I.remaining input.old) lines.new (I.remaining input.new) }
    ensures cause { HasMetCause (I.faults input.old) (I.faults input.new) result }
{
    match lines.next_line(input) {
        Ok(Some(line)) => Met::Line(line),
        Ok(None) => Met::End,
        Err(LineFault::Over) => Met::Over,
        Err(LineFault::Failed) => Met::Failed,
        Err(LineFault::Memory) => meet_head(lines, input),
    }
}

/// Skips the next line: takes no memory.
pub(crate) fn meet_head<I: Source>(lines: &mut Lines, input: &mut I) -> Met
    ensures met { Meets lines.old (I.remaining input.old) result lines.new (I.remaining input.new) }
    ensures takes { TakesUpTo (met_extra result) lines.old (I.remaining input.old) lines.new (I.remaining input.new) }
    ensures cause { HasMetCause (I.faults input.old) (I.faults input.new) result }
{
    match lines.skip_line(input) {
        Ok(Some(head)) => Met::Head(head),
        Ok(None) => Met::End,
        Err(SkipFault::Over) => Met::Over,
        Err(SkipFault::Failed) => Met::Failed,
    }
}

/// What a line between two commands is, by the line or its head.
pub(crate) fn kind_of(line: &[u8]) -> LineKind
    ensures { result ≡ kind_of_head (head_of line.now) }
{
    let head = &line[..line.len().min(7)];
    if head.is_empty() {
        LineKind::Empty
    } else if is_text(head, "quit") {
        LineKind::Quit
    } else if has_body(head) {
        LineKind::WithBody
    } else {
        LineKind::Alone
    }
}

// Whether a command with this head has a body.
fn has_body(head: &[u8]) -> bool
    ensures { result ≡ has_body_by head.now }
{
    is_text(head, "source")
        || is_text(head, "source ")
        || is_text(head, "module")
        || is_text(head, "module ")
        || is_text(head, "insert")
        || is_text(head, "insert ")
}

/// Whether this line, or the line with this head, ends a body.
pub(crate) fn is_end(line: &[u8]) -> bool
    ensures { result ≡ is_end_line line.now }
{
    is_text(line, ".")
}

/// Whether the bytes are those of this text.
pub(crate) fn is_text(bytes: &[u8], text: &str) -> bool
    ensures { result ≡ bytes_eq bytes.now text.now }
{
    bytes == text.as_bytes()
}
