// The number of a string. What counts in a numeral is ASCII, so the bytes are read.
ghost use Rattle.std.specs.Prelude.{◌≡◌, ◌&&◌, ◌==◌, ◌+◌, length, nat_lt, min};
ghost use Rattle.std.specs.List.{list_all, before_first, after_first, position};
ghost use Rattle.std.specs.Char.{is_ascii_digit};
ghost use Rattle.spec_expression.specs.Number.{greatest, decimal, numeral, is_point, trimmed, without_front, without_end, signed_number, unsigned_number, number_of};
ghost use Rattle.xt_base.specs.Fault.{Gives};

use crate::{GREATEST, Num, NumFault};
use xt_text::is_space;

/// The number that the bytes of a text write.
pub(crate) fn number(text: &[u8]) -> Result<Num, NumFault>
    ensures { Gives result (number_of text.now) }
{
    signed(trimmed(text))
}

/// The number of a text without white space at its ends.
fn signed(text: &[u8]) -> Result<Num, NumFault>
    ensures { Gives result (signed_number text.now) }
{
    if !text.is_empty() && text[0] == b'-' {
        let magnitude = unsigned(&text[1..])?;
        return Ok(magnitude.neg());
    }
    unsigned(text)
}

/// The bytes without the white space at both ends.
fn trimmed(text: &[u8]) -> &[u8]
    ensures { result.now ≡ trimmed text.now }
{
    without_end(without_front(text))
}

fn without_front(text: &[u8]) -> &[u8]
    ensures { result.now ≡ without_front text.now }
{
    let mut start = 0;
    while start < text.len() && is_space(char::from(text[start])) {
        start += 1;
    }
    &text[start..]
}

fn without_end(text: &[u8]) -> &[u8]
    ensures { result.now ≡ without_end text.now }
{
    let mut end = text.len();
    while end > 0 && is_space(char::from(text[end - 1])) {
        end -= 1;
    }
    &text[..end]
}

/// The number of a text without sign: of a numeral, or NaN.
fn unsigned(text: &[u8]) -> Result<Num, NumFault>
    ensures { Gives result (unsigned_number text.now) }
{
    let whole = before_point(text);
    let fraction = after_point(text);
    if !is_numeral(whole, fraction) {
        return Ok(Num::nan());
    }
    let value = numeral(whole, fraction)?;
    Num::whole(value as i64)
}

fn before_point(text: &[u8]) -> &[u8]
    ensures { result.now ≡ before_first is_point text.now }
{
    match first_point(text) {
        Some(point) => &text[..point],
        None => text,
    }
}

fn after_point(text: &[u8]) -> &[u8]
    ensures { result.now ≡ after_first is_point text.now }
{
    match first_point(text) {
        Some(point) => &text[point + 1..],
        None => &[],
    }
}

fn first_point(text: &[u8]) -> Option<usize>
    ensures { result ≡ position is_point text.now }
{
    text.iter().position(|byte| *byte == b'.')
}

/// Whether these are the parts of a numeral before and after the point.
fn is_numeral(whole: &[u8], fraction: &[u8]) -> bool
    ensures { result ≡ (list_all is_ascii_digit whole.now && list_all is_ascii_digit fraction.now && nat_lt 0 (length whole.now + length fraction.now)) }
{
    are_digits(whole) && are_digits(fraction) && !(whole.is_empty() && fraction.is_empty())
}

fn are_zeros(text: &[u8]) -> bool
    ensures { result ≡ list_all (λ c. c == 0x30) text.now }
{
    text.iter().all(|digit| *digit == b'0')
}

fn are_digits(text: &[u8]) -> bool
    ensures { result ≡ list_all is_ascii_digit text.now }
{
    text.iter().all(|byte| byte.is_ascii_digit())
}

/// The value of the digits before a point and behind it (XPath 1.0, production 30). `Wide` where those before it
/// spell a number over 9007199254740991, else `Fraction` where one behind it is not 0.
pub fn numeral(whole: &[u8], fraction: &[u8]) -> Result<u64, NumFault>
    ensures { Gives result (numeral whole.now fraction.now) }
{
    let value = decimal(whole);
    if value > GREATEST {
        return Err(NumFault::Wide);
    }
    if !are_zeros(fraction) {
        return Err(NumFault::Fraction);
    }
    Ok(value)
}

/// The number that the digits spell, up to the greatest; one more than the greatest stands for all above it.
fn decimal(digits: &[u8]) -> u64
    ensures { result ≡ min (decimal digits.now) (greatest + 1) }
{
    let mut value = 0u64;
    for digit in digits {
        value = (value * 10 + u64::from(digit.saturating_sub(b'0'))).min(GREATEST + 1);
    }
    value
}
