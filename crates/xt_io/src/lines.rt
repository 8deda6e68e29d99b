// The lines of a source.
ghost use Rattle.std.specs.Prelude.{◌≡◌, ℕ, List, [], ◌++◌, ⊤, true, false, IfOk, IfErr, IfNone, IfSome, MatchOption, MatchResult, IsErrOf};
ghost use Rattle.spec_lines.specs.Lines.{head_of, Reader, GivesLine, IsFinished, IsKept, IsOver, TakesUpTo, HasNoNewline};
ghost use Rattle.spec_lines.specs.Outside.{HasRisen};
ghost use Rattle.xt_io.specs.Fault.{HasLineCause, HasSkipCause, line_extra, skip_extra};
ghost use Rattle.xt_io.specs.Steps.{TakesNoNewline};

use crate::fault::{LineFault, SkipFault};
use crate::head::{Front, Head};
use crate::line::Line;
use crate::line_buffer::{Filled, LineBuffer};
use crate::source::Source;
use std::alloc::Global;
use std::marker::Model;
use xt_text::Memory;

/// A reader of lines: it cuts the bytes of a source at each LF, and takes no more than a limit of
/// them. Contracts see the bytes that it has taken and not yet given, how many more it may take,
/// and whether it has seen the end of the source, which it then reads no more.
#[derive(Drop)]
pub struct Lines {
    buffer: LineBuffer,
}

impl Model for Lines {
    ghost use Rattle.spec_lines.specs.Lines.{Reader};

    ghost Value = { Reader };

    ghost use Rattle.xt_io.specs.LineBuffer.{reader_of};

    ghost view = { λ lines. reader_of lines.buffer };
}

impl Lines {
    /// A reader that may take so many bytes. Its buffer, the only memory that `skip_line` uses, is
    /// taken here.
    pub fn new(alloc: Global, limit: u64) -> Result<Lines, Memory>
        ensures { IfOk result (λ lines. lines ≡ record { kept = []; room = limit; at_end = false }) }
    {
        Ok(Lines {
            buffer: LineBuffer::new(alloc, limit)?,
        })
    }

    /// The next line, or none at the end of the source. One CR directly before the LF is no part of
    /// the line; a last line without LF keeps its CR.
    ///
    /// After `Memory` and `Failed` no byte that was taken is lost. `Over` comes where the line is not
    /// whole within the limit and the source goes on; after it the reader is of no more use.
    pub fn next_line<I: Source>(&mut self, from: &mut I) -> Result<Option<Line>, LineFault>
        // The line, or that nothing is left.
        ensures line { IfOk result (λ found. MatchOption found (IsFinished self.old (I.remaining from.old)) (λ line. GivesLine self.old (I.remaining from.old) line self.new (I.remaining from.new))) }
        ensures end { IfOk result (λ found. IfNone found ((self.new.kept ≡ []) × (self.new.at_end ≡ true))) }

        // Each fault.
        ensures memory { IsErrOf result LineFault.Memory → IsKept self.old (I.remaining from.old) self.new (I.remaining from.new) }
        ensures failed { IsErrOf result LineFault.Failed → IsKept self.old (I.remaining from.old) self.new (I.remaining from.new) }
        ensures inside { IsErrOf result LineFault.Failed → (self.new.at_end ≡ false) × HasNoNewline self.new.kept }
        ensures over { IsErrOf result LineFault.Over → IsOver self.old (I.remaining from.old) }

        // What was read.
        ensures takes { TakesUpTo (line_extra result) self.old (I.remaining from.old) self.new (I.remaining from.new) }
        ensures unread { self.old.at_end ≡ true → from.new ≡ from.old }
        ensures cause { HasLineCause (I.faults from.old) (I.faults from.new) result }
    {
        loop {
            if let Some(line) = self.buffer.take_ended()? {
                return Ok(Some(line));
            }
            match self.buffer.fill(from)? {
                Filled::More => {}
                Filled::End => return Ok(self.buffer.take_last()),
                Filled::Over => return Err(LineFault::Over),
            }
        }
    }

    /// The head of the next line, or none at the end of the source. Takes no memory, and drops the
    /// line.
    ///
    /// After `Failed` the bytes of the line that were taken are lost. `Over` comes where the line is
    /// not whole within the limit and the source goes on; after it the reader is of no more use.
    pub fn skip_line<I: Source>(&mut self, from: &mut I) -> Result<Option<Head>, SkipFault>
        // The head of the line, or that nothing is left.
        ensures line { IfOk result (λ found. MatchOption found (IsFinished self.old (I.remaining from.old)) (λ head. (line : List ℕ) × (head ≡ head_of line) × GivesLine self.old (I.remaining from.old) line self.new (I.remaining from.new))) }
        ensures end { IfOk result (λ found. IfNone found ((self.new.kept ≡ []) × (self.new.at_end ≡ true))) }

        // Each fault.
        ensures asked { IsErrOf result SkipFault.Failed → self.old.at_end ≡ false }
        ensures inside { IsErrOf result SkipFault.Failed → TakesNoNewline self.old (I.remaining from.old) (I.remaining from.new) }
        ensures over { IsErrOf result SkipFault.Over → IsOver self.old (I.remaining from.old) }

        // What was read.
        ensures takes { TakesUpTo (skip_extra result) self.old (I.remaining from.old) self.new (I.remaining from.new) }
        ensures unread { self.old.at_end ≡ true → from.new ≡ from.old }
        ensures cause { HasSkipCause (I.faults from.old) (I.faults from.new) result }
    {
        let mut front = Front::new();
        self.buffer.skip_gathered(&mut front);
        loop {
            if self.buffer.skip_ended(&mut front) {
                return Ok(Some(front.ended_head()));
            }
            match self.buffer.fill(from)? {
                Filled::More => {}
                Filled::End => return Ok(front.last_head()),
                Filled::Over => return Err(SkipFault::Over),
            }
        }
    }
}
