// One line.
ghost use Rattle.std.specs.Prelude.{◌≡◌, IfOk};

use std::alloc::Global;
use std::marker::Model;
use xt_text::Memory;

/// A line in memory of its own: its bytes without its end. Contracts see the list of its bytes.
#[derive(Debug, Drop)]
pub struct Line {
    bytes: Vec<u8>,
}

impl Model for Line {
    ghost use Rattle.std.specs.Prelude.{ℕ, List};

    ghost Value = { List ℕ };

    ghost view = { λ line. line.bytes.items };
}

impl Line {
    /// The line of a copy of these bytes.
    pub fn new(alloc: Global, bytes: &[u8]) -> Result<Line, Memory>
        ensures { IfOk result (λ line. line ≡ bytes.now) }
    {
        Ok(Line {
            bytes: Vec::from_slice(alloc, bytes)?,
        })
    }

    /// The bytes, without the line's end.
    pub fn as_bytes(&self) -> &[u8]
        ensures { result.now ≡ self.now }
    {
        self.bytes.as_slice()
    }

    /// The bytes, without the line's end, and their memory.
    pub fn into_bytes(self) -> Vec<u8>
        ensures { result.items ≡ self }
    {
        self.bytes
    }
}

/// The line of these bytes, in their memory.
impl From<Vec<u8>> for Line {
    ghost from_gives = { λ bytes line. line ≡ bytes.items };

    fn from(bytes: Vec<u8>) -> Self {
        Line { bytes }
    }
}
