// The buffer of a reader of lines, and the steps that it takes.
ghost use Rattle.std.specs.Prelude.{◌≡◌, ◌<◌, [], ◌++◌, length, take, true, false, IfOk, OnErr, MatchOption, MatchBool};
ghost use Rattle.spec_lines.specs.Lines.{HasNoNewline};
ghost use Rattle.spec_lines.specs.Outside.{HasCause};
ghost use Rattle.xt_io.specs.Steps.{IsNewlineAt, EndsLine, SkipsEnded, SkipsAll};

use crate::buffer::{Buffer, ROOM};
use crate::fault::Failed;
use crate::head::{Front, without_return};
use crate::line::Line;
use crate::source::Source;
use std::alloc::Global;
use std::mem;
use xt_text::Memory;

/// What reading on came to.
#[derive(Clone, Copy)]
pub(crate) enum Filled {
    /// The buffer holds new bytes.
    More,
    /// The source is at its end.
    End,
    /// No byte may be taken any more, and the source goes on.
    Over,
}

/// The bytes taken from a source and not yet given in a line: those that were searched and have no
/// LF, then those in the buffer. `room` is how many more may be taken.
#[derive(Drop)]
pub(crate) struct LineBuffer {
    pub(crate) alloc: Global,
    pub(crate) gathered: Vec<u8>,
    pub(crate) buffer: Buffer,
    pub(crate) room: u64,
    pub(crate) at_end: bool,
    ghost searched: { HasNoNewline gathered.items },
}

// The place of the first LF.
fn find_newline(bytes: &[u8]) -> Option<usize>
    ensures { MatchOption result (HasNoNewline bytes.now) (IsNewlineAt bytes.now) }
{
    bytes.iter().position(|byte| *byte == b'\n')
}

impl LineBuffer {
    ghost use Rattle.xt_io.specs.LineBuffer.{kept, Fills, IsStill};

    pub(crate) fn new(alloc: Global, limit: u64) -> Result<LineBuffer, Memory>
        ensures { IfOk result (λ buffer. (kept buffer ≡ []) × (buffer.room ≡ limit) × (buffer.at_end ≡ false)) }
    {
        Ok(LineBuffer {
            alloc,
            gathered: Vec::new(alloc),
            buffer: Buffer::new(alloc)?,
            room: limit,
            at_end: false,
        })
    }

    /// Takes the next line out, if its LF is in the buffer; otherwise gathers all bytes. After want
    /// of memory all is as before.
    pub(crate) fn take_ended(&mut self) -> Result<Option<Line>, Memory>
        ensures ended { IfOk result (λ found. MatchOption found (HasNoNewline (kept self.old)) (λ line. EndsLine (kept self.old) line (kept self.new))) }
        ensures gathered { IfOk result (λ found. MatchOption found ((self.new.gathered.items ≡ kept self.old) × (self.new.buffer ≡ [])) (λ _. self.new.gathered.items ≡ [])) }
        ensures err { OnErr result (kept self.new ≡ kept self.old) }
        ensures still { IsStill self.old self.new }
    {
        let Some(at) = find_newline(self.buffer.bytes()) else {
            self.gathered.extend_from_slice(self.buffer.bytes())?;
            self.buffer.clear();
            return Ok(None);
        };
        self.gathered.extend_from_slice(&self.buffer.bytes()[..at])?;
        self.buffer.skip(at + 1);
        let mut line = mem::replace(&mut self.gathered, Vec::new(self.alloc));
        let length = without_return(line.as_slice()).len();
        line.truncate(length);
        Ok(Some(Line::from(line)))
    }

    /// Takes all gathered bytes out as the last line, if there are any.
    pub(crate) fn take_last(&mut self) -> Option<Line>
        requires { self.old.buffer ≡ [] }
        ensures last { MatchOption result (kept self.old ≡ []) (λ line. (0 < length (kept self.old)) × (line ≡ kept self.old)) }
        ensures empty { kept self.new ≡ [] }
        ensures still { IsStill self.old self.new }
    {
        if self.gathered.is_empty() {
            return None;
        }
        Some(Line::from(mem::replace(&mut self.gathered, Vec::new(self.alloc))))
    }

    /// Passes over the gathered bytes.
    pub(crate) fn skip_gathered(&mut self, front: &mut Front)
        ensures front { front.new ≡ take 8 (front.old ++ self.old.gathered.items) }
        ensures gathered { self.new.gathered.items ≡ [] }
        ensures buffer { self.new.buffer ≡ self.old.buffer }
        ensures still { IsStill self.old self.new }
    {
        front.extend(self.gathered.as_slice());
        self.gathered.clear();
    }

    /// Passes over the bytes up to the next LF and this itself, if it is in the buffer; otherwise
    /// over all bytes there.
    pub(crate) fn skip_ended(&mut self, front: &mut Front) -> bool
        ensures skipped { MatchBool result (SkipsEnded front.old self.old.buffer front.new self.new.buffer) (SkipsAll front.old self.old.buffer front.new self.new.buffer) }
        ensures gathered { self.new.gathered.items ≡ self.old.gathered.items }
        ensures still { IsStill self.old self.new }
    {
        let Some(at) = find_newline(self.buffer.bytes()) else {
            front.extend(self.buffer.bytes());
            self.buffer.clear();
            return false;
        };
        front.extend(&self.buffer.bytes()[..at]);
        self.buffer.skip(at + 1);
        true
    }

    /// Reads into the empty buffer, unless the end was seen. Where no more may be taken it reads
    /// one byte, to see whether the source goes on, and drops it.
    pub(crate) fn fill<I: Source>(&mut self, from: &mut I) -> Result<Filled, Failed>
        requires { self.old.buffer ≡ [] }
        ensures ok { IfOk result (λ filled. Fills filled self.old (I.remaining from.old) self.new (I.remaining from.new)) }
        ensures err { OnErr result ((self.new.buffer ≡ []) × (self.new.at_end ≡ false) × IsStill self.old self.new × (I.remaining from.new ≡ I.remaining from.old)) }
        ensures gathered { self.new.gathered.items ≡ self.old.gathered.items }
        ensures unread { self.old.at_end ≡ true → from.new ≡ from.old }
        ensures cause { HasCause (I.faults from.old) (I.faults from.new) result }
    {
        if self.at_end {
            return Ok(Filled::End);
        }
        let most = self.room.clamp(1, ROOM as u64) as usize;
        let count = self.buffer.fill(from, most)?;
        if count == 0 {
            self.at_end = true;
            return Ok(Filled::End);
        }
        if self.room == 0 {
            self.buffer.clear();
            return Ok(Filled::Over);
        }
        self.room -= count as u64;
        Ok(Filled::More)
    }
}
