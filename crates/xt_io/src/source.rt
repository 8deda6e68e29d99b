// Where bytes come from.
ghost use Rattle.std.specs.Prelude.{◌≡◌, ◌<◌, ◌≤◌, ℕ, List, Option, None, length, IfOk, OnOk, OnErr};
ghost use Rattle.spec_lines.specs.Outside.{Takes, IsAtEnd, HasCause};

use crate::Failed;

/// A source of bytes.
pub trait Source {
    /// The bytes left, where the source tells them.
    ghost remaining: { Self → Option (List ℕ) };

    /// How often it has failed, up to 2^64 - 1: it rises at each failure, and never falls.
    ghost faults: { Self → ℕ };

    /// Reads some bytes into the front of a piece and answers how many; 0 at a piece that is not
    /// empty is the end. Where the read fails no byte is taken.
    fn read(&mut self, into: &mut [u8]) -> Result<usize, Failed>
        ensures within { IfOk result (λ count. count ≤ length into.old) }
        ensures bytes { IfOk result (λ count. Takes (remaining self.old) count into.new (remaining self.new)) }
        ensures end { IfOk result (λ count. count ≡ 0 → 0 < length into.old → IsAtEnd (remaining self.old)) }
        ensures unread { OnErr result (remaining self.new ≡ remaining self.old) }
        ensures cause { HasCause (faults self.old) (faults self.new) result };
}
