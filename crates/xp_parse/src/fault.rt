// Why a text is no expression.
ghost use Rattle.std.specs.Prelude.{◌≡◌};
ghost use Rattle.xp_parse.specs.Code.{fault_code};
ghost use Rattle.xp_parse.specs.declared.fault.ParseFault.TheVariants as faults;

use spec_expression::ExpressionRefusal;
use std::alloc::{AllocError, AllocFailed};
use thiserror::Error;
use xt_base::StaticCode;
use xt_text::Memory;

/// Why `parse` answers no tree.
#[derive(Clone, Copy, Debug, Error)]
pub enum ParseFault {
    /// Want of memory.
    #[error("out of memory")]
    Memory,
    /// The least refusal that stands at the text: S10, S12, S13 or S14.
    #[error("no expression")]
    Refused(ExpressionRefusal),
}

impl ParseFault {
    /// The code of the refusal; want of memory has none.
    pub fn code(self) -> Option<StaticCode>
        ensures { result ≡ fault_code self }
    {
        match self {
            ParseFault::Memory => None,
            ParseFault::Refused(why) => Some(why.code()),
        }
    }
}

impl From<Memory> for ParseFault {
    ghost from_gives = { λ _ e. e ≡ faults.Memory };

    fn from(_error: Memory) -> Self {
        ParseFault::Memory
    }
}

impl From<AllocError> for ParseFault {
    ghost from_gives = { λ _ e. e ≡ faults.Memory };

    fn from(_error: AllocError) -> Self {
        ParseFault::Memory
    }
}

impl<T: Drop> From<AllocFailed<T>> for ParseFault {
    ghost from_gives = { λ _ e. e ≡ faults.Memory };

    fn from(_error: AllocFailed<T>) -> Self {
        ParseFault::Memory
    }
}
