// Where bytes go.
ghost use Rattle.std.specs.Prelude.{◌≡◌, ◌<◌, ◌≤◌, ℕ, List, [], Option, length, take, IfOk, OnOk, OnErr};
ghost use Rattle.spec_lines.specs.Outside.{Appends, HasCause};

use crate::Failed;

/// A sink of bytes.
pub trait Sink {
    /// The bytes written, where the sink tells them.
    ghost written: { Self → Option (List ℕ) };

    /// How often it has failed, up to 2^64 - 1: it rises at each failure, and never falls.
    ghost faults: { Self → ℕ };

    /// Writes some bytes of the front of a piece and answers how many: at least one of a piece that
    /// is not empty. Where the write fails no byte is written.
    fn write(&mut self, piece: &[u8]) -> Result<usize, Failed>
        ensures within { IfOk result (λ count. count ≤ length piece.now) }
        ensures progress { IfOk result (λ count. 0 < length piece.now → 0 < count) }
        ensures bytes { IfOk result (λ count. Appends (written self.old) (written self.new) (take count piece.now)) }
        ensures unwritten { OnErr result (Appends (written self.old) (written self.new) []) }
        ensures cause { HasCause (faults self.old) (faults self.new) result };
}

/// Writes the whole piece, as often as the sink takes a part of it. Where a write fails, a front of
/// the piece was written.
pub fn write_all<O: Sink>(to: &mut O, piece: &[u8]) -> Result<(), Failed>
    ensures ok { OnOk result (Appends (O.written to.old) (O.written to.new) piece.now) }
    ensures err { OnErr result ((count : ℕ) × Appends (O.written to.old) (O.written to.new) (take count piece.now)) }
    ensures cause { HasCause (O.faults to.old) (O.faults to.new) result }
{
    let mut done = 0;
    while done < piece.len() {
        done += to.write(&piece[done..])?;
    }
    Ok(())
}
