// Why a change is refused.
ghost use Rattle.xt_edit.specs.declared.fault.EditFault.TheVariants.{Memory as OutOfMemory};

use thiserror::Error;
use xt_base::EditCode;
use xt_text::Memory;

/// Why a change of a document is refused.
#[derive(Clone, Copy, Debug, PartialEq, Eq, Error)]
pub enum EditFault {
    /// Want of memory: the same change may be tried again.
    #[error("out of memory")]
    Memory,
    /// The least fault of the change.
    #[error("the change is refused")]
    Refused {
        /// What is wrong: 2, or 5 to 15.
        code: EditCode,
        /// The line of the body where it stands, from 1, or 0 where it is no line's.
        line: u64,
    },
}

impl From<Memory> for EditFault {
    ghost use Rattle.std.specs.Prelude.{◌≡◌};

    ghost from_gives = { λ _ fault. fault ≡ OutOfMemory };

    fn from(_: Memory) -> Self {
        EditFault::Memory
    }
}
