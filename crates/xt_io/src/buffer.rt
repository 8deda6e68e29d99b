// Bytes read and not yet used.
ghost use Rattle.std.specs.Prelude.{◌≡◌, ◌<◌, ◌≤◌, [], length, take, drop, IfOk, OnOk, OnErr};
ghost use Rattle.spec_lines.specs.Outside.{IsAtEnd, HasCause};
ghost use Rattle.xt_io.specs.Steps.{Reads};

use crate::{Failed, Source};
use std::alloc::Global;
use std::marker::Model;
use xt_text::Memory;

/// How many bytes the buffer has room for.
pub(crate) const ROOM: usize = 8192;

/// A piece of memory of a fixed size that a source is read into. Contracts see the bytes that it
/// holds.
#[derive(Drop)]
pub(crate) struct Buffer {
    bytes: Vec<u8>,
    start: usize,
    end: usize,
}

impl Model for Buffer {
    ghost use Rattle.std.specs.Prelude.{ℕ, ◌≡◌, ◌≤◌, List, drop, take, vec_len};

    ghost Value = { List ℕ };

    ghost view = { λ buffer. drop buffer.start (take buffer.end buffer.bytes.items) };

    ghost invariant = { λ buffer. (buffer.start ≤ buffer.end) × (buffer.end ≤ 8192) × (vec_len buffer.bytes ≡ 8192) };
}

// Reads into the front of a piece, at most so many bytes.
fn read_front<I: Source>(from: &mut I, into: &mut [u8], most: usize) -> Result<usize, Failed>
    requires most { 0 < most }
    requires place { 0 < length into.old }
    ensures count { IfOk result (λ count. (count ≤ most) × (count ≤ length into.new)) }
    ensures bytes { IfOk result (λ count. Reads (I.remaining from.old) (take count into.new) (I.remaining from.new)) }
    ensures end { IfOk result (λ count. count ≡ 0 → IsAtEnd (I.remaining from.old)) }
    ensures unread { OnErr result (I.remaining from.new ≡ I.remaining from.old) }
    ensures cause { HasCause (I.faults from.old) (I.faults from.new) result }
{
    let piece = most.min(into.len());
    from.read(&mut into[..piece])
}

impl Buffer {
    /// An empty buffer.
    pub(crate) fn new(alloc: Global) -> Result<Buffer, Memory>
        ensures { IfOk result (λ buffer. buffer ≡ []) }
    {
        Ok(Buffer {
            bytes: vec![in alloc; 0; ROOM]?,
            start: 0,
            end: 0,
        })
    }

    /// The bytes that it holds.
    pub(crate) fn bytes(&self) -> &[u8]
        ensures { result.now ≡ self.now }
    {
        &self.bytes.as_slice()[self.start..self.end]
    }

    /// Drops bytes of the front.
    pub(crate) fn skip(&mut self, count: usize)
        requires { count ≤ length self.old }
        ensures { self.new ≡ drop count self.old }
    {
        self.start += count;
    }

    /// Drops all bytes.
    pub(crate) fn clear(&mut self)
        ensures { self.new ≡ [] }
    {
        self.start = self.end;
    }

    /// Reads bytes in place of those that it holds, at most so many, and answers how many.
    pub(crate) fn fill<I: Source>(&mut self, from: &mut I, most: usize) -> Result<usize, Failed>
        requires { 0 < most }
        ensures count { IfOk result (λ count. (count ≤ most) × (length self.new ≡ count)) }
        ensures bytes { OnOk result (Reads (I.remaining from.old) self.new (I.remaining from.new)) }
        ensures end { IfOk result (λ count. count ≡ 0 → IsAtEnd (I.remaining from.old)) }
        ensures unread { OnErr result ((self.new ≡ []) × (I.remaining from.new ≡ I.remaining from.old)) }
        ensures cause { HasCause (I.faults from.old) (I.faults from.new) result }
    {
        self.start = 0;
        self.end = 0;
        let count = read_front(from, self.bytes.as_mut_slice(), most)?;
        self.end = count;
        Ok(count)
    }
}
