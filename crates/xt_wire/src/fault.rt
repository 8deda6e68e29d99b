// Why a line is no command that is taken.
ghost use Rattle.std.specs.Prelude.{◌≡◌};
ghost use Rattle.xt_wire.specs.View.{code_of_fault};
ghost use Rattle.xt_wire.specs.declared.fault.WireFault.TheVariants.{Memory as OutOfMemory};

use thiserror::Error;
use xt_base::EditCode;
use xt_text::Memory;

/// Why a line is no command that is taken.
#[derive(Clone, Copy, Debug, PartialEq, Eq, Error)]
pub enum WireFault {
    /// Want of memory: the same line may be read again.
    #[error("out of memory")]
    Memory,
    /// The line, or a line of the body, is not UTF-8.
    #[error("not UTF-8")]
    NotUtf8,
    /// The first word is no command.
    #[error("no command")]
    UnknownCommand,
    /// What stands behind the first word does not have the command's form.
    #[error("not the form of the command")]
    BadArguments,
}

impl WireFault {
    /// The code of the reply: 1 to 4.
    pub fn code(self) -> EditCode
        ensures { result ≡ code_of_fault self }
    {
        match self {
            WireFault::Memory => EditCode::Memory,
            WireFault::NotUtf8 => EditCode::NotUtf8,
            WireFault::UnknownCommand => EditCode::UnknownCommand,
            WireFault::BadArguments => EditCode::BadArguments,
        }
    }
}

impl From<Memory> for WireFault {
    ghost from_gives = { λ _ fault. fault ≡ OutOfMemory };

    fn from(_: Memory) -> Self {
        WireFault::Memory
    }
}
