// Why the attributes of an element have no values.
use spec_expression::StaticCode;
use std::alloc::{AllocError, AllocFailed};
use xt_text::Memory;

/// Why attributes have no values.
#[derive(Clone, Copy, Debug)]
pub enum AttributeFault {
    /// Want of memory. It may be tried again.
    Memory,
    /// The least code that stands at the element.
    Refused(StaticCode),
}

impl From<Memory> for AttributeFault {
    ghost use Rattle.std.specs.Prelude.{◌≡◌};
    ghost use Rattle.xt_attributes.specs.declared.fault.AttributeFault.TheVariants as fault;

    ghost from_gives = { λ _ e. e ≡ fault.Memory };

    fn from(_error: Memory) -> Self {
        AttributeFault::Memory
    }
}

impl From<AllocError> for AttributeFault {
    ghost use Rattle.std.specs.Prelude.{◌≡◌};
    ghost use Rattle.xt_attributes.specs.declared.fault.AttributeFault.TheVariants as fault;

    ghost from_gives = { λ _ e. e ≡ fault.Memory };

    fn from(_error: AllocError) -> Self {
        AttributeFault::Memory
    }
}

impl<T: Drop> From<AllocFailed<T>> for AttributeFault {
    ghost use Rattle.std.specs.Prelude.{◌≡◌};
    ghost use Rattle.xt_attributes.specs.declared.fault.AttributeFault.TheVariants as fault;

    ghost from_gives = { λ _ e. e ≡ fault.Memory };

    fn from(_error: AllocFailed<T>) -> Self {
        AttributeFault::Memory
    }
}
