// Why an evaluation ends with no value.
use crate::copies::copy_place;
use spec_expression::DynCode;
use std::alloc::{AllocError, AllocFailed, Global};
use xt_base::Place;
use xt_names::Expanded;
use xt_text::Memory;

/// A dynamic refusal, and where it stands.
#[derive(Drop)]
pub enum Refusal {
    /// At the element that holds the expression.
    Here(DynCode),
    /// At this element, which is a global, an xsl:key or an xsl:sort.
    At(DynCode, Place),
}

impl Refusal {
    ghost use Rattle.std.specs.Prelude.{◌≡◌, IfOk};
    ghost use Rattle.std.specs.Bool.{Decides};
    ghost use Rattle.xt_questions.specs.View.{refusal_of};

    /// The same refusal, in memory of its own.
    pub fn copy(&self, alloc: Global) -> Result<Refusal, Memory>
        ensures { IfOk result (λ r. refusal_of r ≡ refusal_of self.now) }
    {
        match self {
            Refusal::Here(code) => Ok(Refusal::Here(*code)),
            Refusal::At(code, place) => Ok(Refusal::At(*code, copy_place(alloc, place)?)),
        }
    }

    /// Whether both are the same refusal. Takes no memory.
    pub fn same(&self, other: &Refusal) -> bool
        ensures { Decides result (refusal_of self.now ≡ refusal_of other.now) }
    {
        match (self, other) {
            (Refusal::Here(code), Refusal::Here(other)) => code == other,
            (Refusal::At(code, place), Refusal::At(other_code, other)) => {
                code == other_code && place.same(other)
            }
            _ => false,
        }
    }
}

/// Why there is no value.
#[derive(Drop)]
pub enum EvalFault {
    /// Want of memory. It may be tried again.
    Memory,
    /// The first refusal of the evaluation.
    Refused(Refusal),
    /// The value of this global is needed and was not given for a content so deep.
    Wants(Expanded),
}

impl From<Memory> for EvalFault {
    ghost use Rattle.std.specs.Prelude.{◌≡◌};
    ghost use Rattle.xt_questions.specs.declared.fault.EvalFault.TheVariants as fault;

    ghost from_gives = { λ _ e. e ≡ fault.Memory };

    fn from(_error: Memory) -> Self {
        EvalFault::Memory
    }
}

impl From<AllocError> for EvalFault {
    ghost use Rattle.std.specs.Prelude.{◌≡◌};
    ghost use Rattle.xt_questions.specs.declared.fault.EvalFault.TheVariants as fault;

    ghost from_gives = { λ _ e. e ≡ fault.Memory };

    fn from(_error: AllocError) -> Self {
        EvalFault::Memory
    }
}

impl<T: Drop> From<AllocFailed<T>> for EvalFault {
    ghost use Rattle.std.specs.Prelude.{◌≡◌};
    ghost use Rattle.xt_questions.specs.declared.fault.EvalFault.TheVariants as fault;

    ghost from_gives = { λ _ e. e ≡ fault.Memory };

    fn from(_error: AllocFailed<T>) -> Self {
        EvalFault::Memory
    }
}
