// Why there is no content.
use std::alloc::{AllocError, AllocFailed};
use xt_structure::Fault;
use xt_text::Memory;

/// Why there is no content.
#[derive(Drop)]
pub enum ContentFault {
    /// Want of memory. It may be tried again.
    Memory,
    /// The first element in document order with a value that cannot be read, and the least code that stands at it.
    Refused(Fault),
}

impl From<Memory> for ContentFault {
    ghost use Rattle.std.specs.Prelude.{◌≡◌};
    ghost use Rattle.xt_content.specs.declared.fault.ContentFault.TheVariants as fault;

    ghost from_gives = { λ _ e. e ≡ fault.Memory };

    fn from(_error: Memory) -> Self {
        ContentFault::Memory
    }
}

impl From<AllocError> for ContentFault {
    ghost use Rattle.std.specs.Prelude.{◌≡◌};
    ghost use Rattle.xt_content.specs.declared.fault.ContentFault.TheVariants as fault;

    ghost from_gives = { λ _ e. e ≡ fault.Memory };

    fn from(_error: AllocError) -> Self {
        ContentFault::Memory
    }
}

impl<T: Drop> From<AllocFailed<T>> for ContentFault {
    ghost use Rattle.std.specs.Prelude.{◌≡◌};
    ghost use Rattle.xt_content.specs.declared.fault.ContentFault.TheVariants as fault;

    ghost from_gives = { λ _ e. e ≡ fault.Memory };

    fn from(_error: AllocFailed<T>) -> Self {
        ContentFault::Memory
    }
}
