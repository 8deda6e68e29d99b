// Why a call of this crate gives no answer.
ghost use Rattle.std.specs.Prelude.{◌≡◌};
ghost use Rattle.xt_io.specs.declared.fault.LineFault.TheVariants as line;
ghost use Rattle.xt_io.specs.declared.fault.SkipFault.TheVariants as skip;

use thiserror::Error;
use xt_text::Memory;

/// A read or a write failed.
#[derive(Clone, Copy, Debug, PartialEq, Eq, Error)]
#[error("the read or write failed")]
pub struct Failed;

/// Why there is no next line.
#[derive(Clone, Copy, Debug, PartialEq, Eq, Error)]
pub enum LineFault {
    /// Want of memory: the line is still next.
    #[error("out of memory")]
    Memory,
    /// A read failed: what was read before it is kept.
    #[error("the read failed")]
    Failed,
    /// The line is not whole within the bytes that may be read, and the source goes on after them.
    #[error("the input is longer than its limit")]
    Over,
}

/// Why the next line was not skipped.
#[derive(Clone, Copy, Debug, PartialEq, Eq, Error)]
pub enum SkipFault {
    /// A read failed: what was read of the line before it is lost.
    #[error("the read failed")]
    Failed,
    /// The line is not whole within the bytes that may be read, and the source goes on after them.
    #[error("the input is longer than its limit")]
    Over,
}

impl From<Memory> for LineFault {
    ghost from_gives = { λ _ fault. fault ≡ line.Memory };

    fn from(_: Memory) -> Self {
        LineFault::Memory
    }
}

impl From<Failed> for LineFault {
    ghost from_gives = { λ _ fault. fault ≡ line.Failed };

    fn from(_: Failed) -> Self {
        LineFault::Failed
    }
}

impl From<Failed> for SkipFault {
    ghost from_gives = { λ _ fault. fault ≡ skip.Failed };

    fn from(_: Failed) -> Self {
        SkipFault::Failed
    }
}
