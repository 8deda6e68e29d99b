// Why a text is no pattern.
ghost use Rattle.std.specs.Prelude.{◌≡◌};
ghost use Rattle.spec_static.specs.PatternGrammar.{pattern_code};
ghost use Rattle.xt_pattern.specs.Code.{fault_code, fault_of};
ghost use Rattle.xt_pattern.specs.declared.fault.PatternFault.TheVariants as faults;

use spec_expression::ExpressionRefusal;
use std::alloc::{AllocError, AllocFailed};
use thiserror::Error;
use xp_parse::ParseFault;
use xt_base::StaticCode;
use xt_text::Memory;

/// Why `parse_pattern` answers no tree.
#[derive(Clone, Copy, Debug, Error)]
pub enum PatternFault {
    /// Want of memory.
    #[error("out of memory")]
    Memory,
    /// The least refusal that stands at the text: S11 where it is not of the grammar, else S12, S13 or S14.
    #[error("no pattern")]
    Refused(ExpressionRefusal),
}

impl PatternFault {
    /// The code of the refusal; want of memory has none.
    pub fn code(self) -> Option<StaticCode>
        ensures { result ≡ fault_code self }
    {
        match self {
            PatternFault::Memory => None,
            PatternFault::Refused(why) => Some(code_of(why)),
        }
    }
}

/// The code of a stylesheet with such a pattern.
fn code_of(why: ExpressionRefusal) -> StaticCode
    ensures { result ≡ pattern_code why }
{
    match why {
        ExpressionRefusal::Syntax => StaticCode::BadPattern,
        ExpressionRefusal::Depth => StaticCode::TooManyBrackets,
        ExpressionRefusal::Number => StaticCode::BadNumber,
        ExpressionRefusal::Prefix => StaticCode::NoPrefix,
    }
}

impl From<ParseFault> for PatternFault {
    ghost from_gives = { λ fault e. e ≡ fault_of fault };

    fn from(fault: ParseFault) -> Self {
        match fault {
            ParseFault::Memory => PatternFault::Memory,
            ParseFault::Refused(why) => PatternFault::Refused(why),
        }
    }
}

impl From<Memory> for PatternFault {
    ghost from_gives = { λ _ e. e ≡ faults.Memory };

    fn from(_error: Memory) -> Self {
        PatternFault::Memory
    }
}

impl From<AllocError> for PatternFault {
    ghost from_gives = { λ _ e. e ≡ faults.Memory };

    fn from(_error: AllocError) -> Self {
        PatternFault::Memory
    }
}

impl<T: Drop> From<AllocFailed<T>> for PatternFault {
    ghost from_gives = { λ _ e. e ≡ faults.Memory };

    fn from(_error: AllocFailed<T>) -> Self {
        PatternFault::Memory
    }
}
