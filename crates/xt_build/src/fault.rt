// Why lines make no document.
ghost use Rattle.std.specs.Prelude.{◌≡◌, ◌||◌, ◌&&◌, ◌==◌, nat_lt, Some};
ghost use Rattle.spec_document.specs.Fault.{comes_first, fault_if, least};
ghost use Rattle.xt_base.specs.Code.{edit_number};
ghost use Rattle.xt_build.specs.Least.{merged};
ghost use Rattle.xt_build.specs.View.{fault_of, found_of};
ghost use Rattle.xt_build.specs.declared.fault.BuildFault.TheVariants.{Memory as OutOfMemory};

use std::alloc::AllocFailed;
use thiserror::Error;
use xt_base::EditCode;
use xt_text::Memory;

/// A fault of a body, and the line where it stands.
#[derive(Clone, Copy, Debug, PartialEq, Eq)]
pub struct Fault {
    /// What is wrong.
    pub code: EditCode,
    /// The line of the body, from 1, or 0 where it is no line's.
    pub line: u64,
}

/// Why lines make no document.
#[derive(Clone, Copy, Debug, PartialEq, Eq, Error)]
pub enum BuildFault {
    /// Want of memory: the same lines may be built again.
    #[error("out of memory")]
    Memory,
    /// The least fault of the lines.
    #[error("the lines make no document")]
    Refused(Fault),
}

impl From<Memory> for BuildFault {
    ghost from_gives = { λ _ fault. fault ≡ OutOfMemory };

    fn from(_: Memory) -> Self {
        BuildFault::Memory
    }
}

impl<T: Drop> From<AllocFailed<T>> for BuildFault {
    ghost from_gives = { λ _ fault. fault ≡ OutOfMemory };

    fn from(_: AllocFailed<T>) -> Self {
        BuildFault::Memory
    }
}

impl Fault {
    // Whether it is answered rather than the other: it has the lesser number, or the same and the lesser
    // line.
    fn comes_first(self, other: Fault) -> bool
        ensures { result ≡ comes_first (fault_of self) (fault_of other) }
    {
        let number = self.code.number();
        let other_number = other.code.number();
        number < other_number || (number == other_number && self.line < other.line)
    }
}

/// Keeps the fault where it is to be answered rather than the one that was found before.
pub(crate) fn keep_least(found: &mut Option<Fault>, fault: Fault)
    ensures { found_of found.new ≡ merged (found_of found.old) (Some (fault_of fault)) }
{
    match found {
        None => *found = Some(fault),
        Some(other) => {
            if fault.comes_first(*other) {
                *found = Some(fault);
            }
        }
    }
}

/// The same for a fault that stands only under this condition.
pub(crate) fn keep_if(found: &mut Option<Fault>, stands: bool, code: EditCode, line: u64)
    ensures { found_of found.new ≡ merged (found_of found.old) (least (fault_if stands (edit_number code) line)) }
{
    if stands {
        keep_least(found, Fault { code, line });
    }
}
