// What is known of a line that was skipped.
ghost use Rattle.std.specs.Prelude.{◌≡◌, ◌++◌, ◌<◌, ◌≤◌, [], length, take, MatchOption};
ghost use Rattle.std.specs.Str.Lines.{strip_carriage_return};

use std::marker::Model;

/// The first 7 bytes of a line that was skipped, or all bytes of a shorter one. Contracts see the
/// list of those bytes.
#[derive(Clone, Copy, Debug)]
pub struct Head {
    bytes: [u8; 7],
    count: usize,
}

impl Model for Head {
    ghost use Rattle.std.specs.Prelude.{ℕ, ◌-◌, ◌++◌, List, length, take, replicate};
    ghost use Rattle.xt_io.specs.Front.{IsPadded, padded_again};

    ghost Value = { List ℕ };

    ghost view = { λ head. take head.count head.bytes };

    ghost invariant = { λ head. IsPadded 7 head.count head.bytes };

    ghost inverse = { λ bytes. record { bytes = bytes ++ replicate (7 - length bytes) 0; count = length bytes } };

    ghost inverse_ok = { λ head padded i. record {
      bytes = (padded_again 7 head.count head.bytes padded).0 i;
      count = (padded_again 7 head.count head.bytes padded).1 i;
    } };
}

impl Head {
    /// The head of these bytes.
    fn new(bytes: &[u8]) -> Head
        requires { length bytes.now ≤ 7 }
        ensures { result ≡ bytes.now }
    {
        let mut front = [0; 7];
        front[..bytes.len()].copy_from_slice(bytes);
        Head {
            bytes: front,
            count: bytes.len(),
        }
    }

    /// The bytes, at most 7.
    pub fn as_bytes(&self) -> &[u8]
        ensures { result.now ≡ self.now }
    {
        &self.bytes[..self.count]
    }
}

/// The bytes before the CR that they end with, or all of them.
pub(crate) fn without_return(bytes: &[u8]) -> &[u8]
    ensures { result.now ≡ strip_carriage_return bytes.now }
{
    match bytes {
        [front @ .., b'\r'] => front,
        _ => bytes,
    }
}

/// The first 8 bytes that stand before a line's end: with one byte more than a head it is known
/// whether a CR belongs to the end.
#[derive(Drop)]
pub(crate) struct Front {
    bytes: [u8; 8],
    count: usize,
}

impl Model for Front {
    ghost use Rattle.std.specs.Prelude.{ℕ, ◌≤◌, List, take};

    ghost Value = { List ℕ };

    ghost view = { λ front. take front.count front.bytes };

    ghost invariant = { λ front. front.count ≤ 8 };
}

impl Front {
    /// No byte yet.
    pub(crate) fn new() -> Front
        ensures { result ≡ [] }
    {
        Front {
            bytes: [0; 8],
            count: 0,
        }
    }

    /// Adds those of the bytes for which there is place.
    pub(crate) fn extend(&mut self, more: &[u8])
        ensures { self.new ≡ take 8 (self.old ++ more.now) }
    {
        for byte in more {
            if self.count == 8 {
                return;
            }
            self.bytes[self.count] = *byte;
            self.count += 1;
        }
    }

    /// The head of a line that an LF ends.
    pub(crate) fn ended_head(&self) -> Head
        ensures { result ≡ take 7 (strip_carriage_return self.now) }
    {
        let line = without_return(&self.bytes[..self.count]);
        Head::new(&line[..line.len().min(7)])
    }

    /// The head of a last line that no LF ends, if it has a byte.
    pub(crate) fn last_head(&self) -> Option<Head>
        ensures { MatchOption result (self.now ≡ []) (λ head. (0 < length self.now) × (head ≡ take 7 self.now)) }
    {
        if self.count == 0 {
            return None;
        }
        Some(Head::new(&self.bytes[..self.count.min(7)]))
    }
}
