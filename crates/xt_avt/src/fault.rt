// Why a text is no value template.
ghost use Rattle.std.specs.Prelude.{◌≡◌};
ghost use Rattle.xt_avt.specs.Code.{fault_code};
ghost use Rattle.xt_avt.specs.declared.fault.AvtFault.TheVariants as faults;

use spec_static::TemplateRefusal;
use std::alloc::{AllocError, AllocFailed};
use thiserror::Error;
use xt_base::StaticCode;
use xt_text::Memory;

/// Why `parse_avt` answers no tree.
#[derive(Clone, Copy, Debug, Error)]
pub enum AvtFault {
    /// Want of memory.
    #[error("out of memory")]
    Memory,
    /// The least refusal that stands at the text: S10, S12, S13, S14 or S26.
    #[error("no value template")]
    Refused(TemplateRefusal),
}

impl AvtFault {
    /// The code of the refusal; want of memory has none.
    pub fn code(self) -> Option<StaticCode>
        ensures { result ≡ fault_code self }
    {
        match self {
            AvtFault::Memory => None,
            AvtFault::Refused(why) => Some(why.code()),
        }
    }
}

impl From<Memory> for AvtFault {
    ghost from_gives = { λ _ e. e ≡ faults.Memory };

    fn from(_error: Memory) -> Self {
        AvtFault::Memory
    }
}

impl From<AllocError> for AvtFault {
    ghost from_gives = { λ _ e. e ≡ faults.Memory };

    fn from(_error: AllocError) -> Self {
        AvtFault::Memory
    }
}

impl<T: Drop> From<AllocFailed<T>> for AvtFault {
    ghost from_gives = { λ _ e. e ≡ faults.Memory };

    fn from(_error: AllocFailed<T>) -> Self {
        AvtFault::Memory
    }
}
