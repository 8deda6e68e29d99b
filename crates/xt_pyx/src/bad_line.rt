// Why a line gave no event.
ghost use Rattle.std.specs.Prelude.{◌≡◌};
ghost use Rattle.xt_pyx.specs.declared.bad_line.BadLine.TheVariants.{Memory as OutOfMemory};

use thiserror::Error;
use xt_text::Memory;

/// Why a line gave no event.
#[derive(Clone, Copy, Debug, PartialEq, Eq, Error)]
pub enum BadLine {
    /// Want of memory: the same line may be read again.
    #[error("out of memory")]
    Memory,
    /// The line begins with none of the six signs, or holds a character that is no XML Char.
    #[error("not a line of PYX")]
    Bad,
}

impl From<Memory> for BadLine {
    ghost from_gives = { λ _ e. e ≡ OutOfMemory };

    fn from(_: Memory) -> Self {
        BadLine::Memory
    }
}
