// Numbers: whole ones in the range of exact doubles, and NaN.
ghost use Rattle.std.specs.Prelude.{◌≡◌, IfOk, IfSome};
ghost use Rattle.spec_expression.specs.Number.{whole, Whole, NaN, value_of, IsInRange, sum_of, difference_of, product_of, quotient_of, remainder_of, negation_of, order_of, number_of, text_of};
ghost use Rattle.std.specs.Str.{chars};
ghost use Rattle.spec_expression.specs.Code.{fault_code};
ghost use Rattle.xt_base.specs.Fault.{Gives, fault_of};

use crate::reading;
use itoa::Buffer;
use spec_expression::DynCode;
use std::alloc::{AllocError, Global};
use std::cmp::Ordering;
use std::marker::Model;
use thiserror::Error;
use xt_text::{Memory, Text};

/// The greatest whole number, 2^53 - 1; the least is its negative.
pub const GREATEST: u64 = 9_007_199_254_740_991;

/// Why a number that XPath has is none here.
#[derive(Clone, Copy, Debug, PartialEq, Eq, Error)]
pub enum NumFault {
    /// It has a fraction.
    #[error("the number has a fraction")]
    Fraction,
    /// It is infinite.
    #[error("the number is infinite")]
    Infinite,
    /// It is over 9007199254740991 or below -9007199254740991.
    #[error("the number is out of range")]
    Wide,
}

impl NumFault {
    /// The code of a run that meets it: D01, D02 or D03.
    pub fn code(self) -> DynCode
        ensures { result ≡ fault_code (fault_of self) }
    {
        match self {
            NumFault::Fraction => DynCode::Fraction,
            NumFault::Infinite => DynCode::Infinite,
            NumFault::Wide => DynCode::Wide,
        }
    }
}

/// A number (XPath 1.0, 3.5): a whole one from -9007199254740991 to 9007199254740991, or NaN. Negative zero is
/// zero.
#[derive(Debug)]
pub struct Num {
    value: Option<i64>,
}

impl Model for Num {
    ghost use Rattle.std.specs.Prelude.{IfSome};
    ghost use Rattle.std.proofs.Common.{ap};
    ghost use Rattle.spec_expression.specs.Number.{Number, number_from, value_of, IsInRange, value_of-number_from};

    ghost Value = { Number };

    ghost view = { λ n. number_from n.value };

    ghost invariant = { λ n. IfSome n.value IsInRange };

    ghost inverse = { λ number. record { value = value_of number } };

    ghost inverse_ok = { λ n h. ap (λ v. record { value = v }) (value_of-number_from n.value) };
}

impl Clone for Num {
    ghost use Rattle.std.specs.Prelude.{◌≡◌, ⊤};

    ghost is_clone = { λ n m. m ≡ n };

    ghost is_infallible = { λ _. ⊤ };

    fn clone(&self) -> Result<Num, AllocError> {
        Ok(*self)
    }
}

impl Copy for Num {}

impl Num {
    /// The number of this value, where it is in range; else `Wide`.
    pub fn whole(value: i64) -> Result<Num, NumFault>
        ensures { Gives result (whole value) }
    {
        if value.unsigned_abs() > GREATEST {
            return Err(NumFault::Wide);
        }
        Ok(Num { value: Some(value) })
    }

    /// NaN.
    pub fn nan() -> Num
        ensures { result ≡ NaN }
    {
        Num { value: None }
    }

    /// The value, from -9007199254740991 to 9007199254740991, and none of NaN.
    pub fn get(self) -> Option<i64>
        ensures value { result ≡ value_of self }
        ensures range { IfSome result IsInRange }
    {
        self.value
    }

    /// The sum, and NaN where one is NaN. `Wide` where the sum is out of range.
    pub fn add(self, other: Num) -> Result<Num, NumFault>
        ensures { Gives result (sum_of self other) }
    {
        match (self.value, other.value) {
            (Some(a), Some(b)) => Num::whole(a + b),
            _ => Ok(Num::nan()),
        }
    }

    /// The difference, and NaN where one is NaN. `Wide` where the difference is out of range.
    pub fn sub(self, other: Num) -> Result<Num, NumFault>
        ensures { Gives result (difference_of self other) }
    {
        match (self.value, other.value) {
            (Some(a), Some(b)) => Num::whole(a - b),
            _ => Ok(Num::nan()),
        }
    }

    /// The product, and NaN where one is NaN. `Wide` where the product is out of range.
    pub fn mul(self, other: Num) -> Result<Num, NumFault>
        ensures { Gives result (product_of self other) }
    {
        match (self.value, other.value) {
            (Some(a), Some(b)) => Num::from_wide(i128::from(a) * i128::from(b)),
            _ => Ok(Num::nan()),
        }
    }

    /// The number of a value that is wider than 64 bits.
    fn from_wide(value: i128) -> Result<Num, NumFault>
        ensures { Gives result (whole value) }
    {
        if value.unsigned_abs() > u128::from(GREATEST) {
            return Err(NumFault::Wide);
        }
        Num::whole(value as i64)
    }

    /// The quotient (`div`), and NaN where one is NaN or both are 0. `Infinite` where another number is divided
    /// by 0, `Fraction` where a rest is left.
    pub fn div(self, other: Num) -> Result<Num, NumFault>
        ensures { Gives result (quotient_of self other) }
    {
        let (Some(a), Some(b)) = (self.value, other.value) else {
            return Ok(Num::nan());
        };
        if b == 0 {
            return if a == 0 {
                Ok(Num::nan())
            } else {
                Err(NumFault::Infinite)
            };
        }
        if a % b != 0 {
            return Err(NumFault::Fraction);
        }
        Ok(Num { value: Some(a / b) })
    }

    /// What a division that rounds toward zero leaves (`mod`): it has the dividend's sign. NaN where one is NaN
    /// or `other` is 0.
    pub fn rem(self, other: Num) -> Num
        ensures { result ≡ remainder_of self other }
    {
        match (self.value, other.value) {
            (Some(a), Some(b)) if b != 0 => Num { value: Some(a % b) },
            _ => Num::nan(),
        }
    }

    /// The number with the other sign, and NaN of NaN.
    pub fn neg(self) -> Num
        ensures { result ≡ negation_of self }
    {
        match self.value {
            Some(a) => Num { value: Some(-a) },
            None => Num::nan(),
        }
    }

    /// How the two compare; none exactly where one is NaN.
    pub fn compare(self, other: Num) -> Option<Ordering>
        ensures { result ≡ order_of self other }
    {
        match (self.value, other.value) {
            (Some(a), Some(b)) => Some(a.cmp(&b)),
            _ => None,
        }
    }

    /// The number of a string (XPath 1.0, 4.4): white space, `-`, a numeral as `12`, `12.`, `1.5` or `.5`, and
    /// white space; only the numeral must be there. NaN of any other string. `Wide` where the part before the
    /// point is over 9007199254740991, else `Fraction` where a digit after the point is not 0.
    pub fn read(text: &str) -> Result<Num, NumFault>
        ensures { Gives result (number_of (chars text.now)) }
    {
        reading::number(text.as_bytes())
    }

    /// The string of the number (XPath 1.0, 4.2): its decimal digits, after `-` where it is negative, or `NaN`.
    pub fn text(self, alloc: Global) -> Result<Text, Memory>
        ensures { IfOk result (λ t. t ≡ text_of self) }
    {
        match self.value {
            Some(a) => Text::from_str(alloc, Buffer::new().format(a)),
            None => Text::from_str(alloc, "NaN"),
        }
    }
}
