// Why modules are no stylesheet, and which of several faults counts.
ghost use Rattle.std.specs.Prelude.{◌≡◌, Some};
ghost use Rattle.spec_compile.specs.Sheet as spec;
ghost use Rattle.xt_compile.specs.View.{refusal_in};
ghost use Rattle.xt_structure.specs.View.{fault_in, faults_in};

use spec_expression::StaticCode;
use std::alloc::{AllocError, AllocFailed};
use std::cmp::Ordering;
use xt_base::Place;
use xt_structure::Fault;
use xt_text::{Memory, Text};

/// Why modules are no stylesheet.
#[derive(Drop)]
pub enum SheetFault {
    /// Want of memory. It may be tried again.
    Memory,
    /// No module has the name of the principal one: S01, which stands nowhere.
    NoMain,
    /// Their static refusal.
    Refused(StaticRefusal),
}

/// A static refusal: the code of the first fault, and the place where it stands.
#[derive(Drop)]
pub struct StaticRefusal {
    pub code: StaticCode,
    pub place: Place,
}

impl From<Memory> for SheetFault {
    ghost use Rattle.std.specs.Prelude.{◌≡◌};
    ghost use Rattle.xt_compile.specs.declared.fault.SheetFault.TheVariants as fault;

    ghost from_gives = { λ _ e. e ≡ fault.Memory };

    fn from(_error: Memory) -> Self {
        SheetFault::Memory
    }
}

impl From<AllocError> for SheetFault {
    ghost use Rattle.std.specs.Prelude.{◌≡◌};
    ghost use Rattle.xt_compile.specs.declared.fault.SheetFault.TheVariants as fault;

    ghost from_gives = { λ _ e. e ≡ fault.Memory };

    fn from(_error: AllocError) -> Self {
        SheetFault::Memory
    }
}

impl<T: Drop> From<AllocFailed<T>> for SheetFault {
    ghost use Rattle.std.specs.Prelude.{◌≡◌};
    ghost use Rattle.xt_compile.specs.declared.fault.SheetFault.TheVariants as fault;

    ghost from_gives = { λ _ e. e ≡ fault.Memory };

    fn from(_error: AllocFailed<T>) -> Self {
        SheetFault::Memory
    }
}

/// The refusal for a fault of the module of this name.
pub(crate) fn refusal_at(name: Text, fault: Fault) -> StaticRefusal
    ensures { refusal_in result ≡ spec.refusal_at name (fault_in fault) }
{
    StaticRefusal {
        code: fault.code,
        place: Place {
            module: Some(name),
            path: fault.path,
        },
    }
}

/// The earlier of two faults of one module that may be there.
pub(crate) fn earlier_of(one: Option<Fault>, other: Option<Fault>) -> Option<Fault>
    ensures { faults_in result ≡ spec.earlier_of (faults_in one) (faults_in other) }
{
    match other {
        None => one,
        Some(other) => Some(earlier_or(one, other)),
    }
}

/// The earlier of two faults of one module, of which the first may be there.
pub(crate) fn earlier_or(one: Option<Fault>, other: Fault) -> Fault
    ensures { Some (fault_in result) ≡ spec.earlier_of (faults_in one) (Some (fault_in other)) }
{
    match one {
        None => other,
        Some(one) => earlier(one, other),
    }
}

// The earlier of two: by place in document order, then by code.
fn earlier(one: Fault, other: Fault) -> Fault
    ensures { fault_in result ≡ spec.earlier (fault_in one) (fault_in other) }
{
    match one.path.positions().cmp(other.path.positions()) {
        Ordering::Less => one,
        Ordering::Equal => by_code(one, other),
        Ordering::Greater => other,
    }
}

fn by_code(one: Fault, other: Fault) -> Fault
    ensures { fault_in result ≡ spec.by_code (fault_in one) (fault_in other) }
{
    if one.code.number() <= other.code.number() {
        one
    } else {
        other
    }
}
