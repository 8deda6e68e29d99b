// Priorities of template rules (XSLT 1.0, section 5.5).
ghost use Rattle.std.specs.Prelude.{◌≡◌, ◌≤◌, ◌+◌, ◌-◌, ◌*◌, ◌^◌, ◌==◌, ◌&&◌, Err, IfOk, IfSome, None, Ok, Some, if◌then◌else◌, length, min, pos, true};
ghost use Rattle.std.specs.List.{list_all};
ghost use Rattle.std.specs.Option.{option_map};
ghost use Rattle.std.specs.Str.{chars};
ghost use Rattle.spec_compile.specs.Value as spec;
ghost use Rattle.spec_expression.specs.Number as numbers;
ghost use Rattle.spec_expression.specs.Token.{begins, digits_at, is_digit};
ghost use Rattle.spec_expression.specs.declared.code.StaticCode.TheVariants as code;
ghost use Rattle.xt_attributes.specs.Gathering.{seen};
ghost use Rattle.xt_attributes.specs.View.{priority_by, value_in};

use crate::names::Read;
use crate::value::Value;
use spec_expression::StaticCode;
use std::alloc::Global;
use xt_text::{Memory, Text, is_space};

/// Greater than any number of nine digits.
const LIMIT: u64 = 1_000_000_000;

fn characters(alloc: Global, text: &str) -> Result<Vec<char>, Memory>
    ensures { IfOk result (λ list. list.items ≡ chars text.now) }
{
    let mut list = Vec::new(alloc);
    for character in text.chars() {
        list.push(character)?;
    }
    Ok(list)
}

fn without_front(text: &[char]) -> &[char]
    ensures { result.now ≡ numbers.without_front text.now }
{
    let mut start = 0;
    while start < text.len() && is_space(text[start]) {
        start += 1;
    }
    &text[start..]
}

fn without_end(text: &[char]) -> &[char]
    ensures { result.now ≡ numbers.without_end text.now }
{
    let mut end = text.len();
    while end > 0 && is_space(text[end - 1]) {
        end -= 1;
    }
    &text[..end]
}

fn trimmed(text: &[char]) -> &[char]
    ensures { result.now ≡ numbers.trimmed text.now }
{
    without_end(without_front(text))
}

fn is_ascii_digit(character: char) -> bool
    ensures { result ≡ is_digit character }
{
    matches!(character, '0'..='9')
}

// The digits at the front.
fn digits(text: &[char]) -> &[char]
    ensures value { result.now ≡ digits_at text.now }
    ensures digits { list_all is_digit result.now ≡ true }
{
    let mut end = 0;
    while end < text.len() && is_ascii_digit(text[end]) {
        end += 1;
    }
    &text[..end]
}

// The number that digits spell, up to the limit.
fn number(digits: &[char]) -> u64
    ensures value { result ≡ min (numbers.decimal digits.now) 1000000000 }
    ensures bound { result ≤ 1000000000 }
{
    let mut value = 0u64;
    for digit in digits {
        value = (value * 10 + value_of(*digit)).min(LIMIT);
    }
    value
}

fn value_of(digit: char) -> u64
    ensures { result ≡ digit - 0x30 }
{
    u64::from(u32::from(digit).saturating_sub(48))
}

// A fraction of so many digits, in millionths.
fn scaled(fraction: u64, places: usize) -> u64
    requires fraction { fraction ≤ 1000000000 }
    requires places { places ≤ 6 }
    ensures value { result ≡ fraction * 10 ^ (6 - places) }
    ensures bound { result ≤ 1000000000000000 }
{
    match places {
        0 => fraction * 1_000_000,
        1 => fraction * 100_000,
        2 => fraction * 10_000,
        3 => fraction * 1_000,
        4 => fraction * 100,
        5 => fraction * 10,
        _ => fraction,
    }
}

fn is_within_limits(whole: &[char], fraction: &[char]) -> bool
    ensures { result ≡ spec.is_within_limits whole.now fraction.now }
{
    whole.len() + fraction.len() >= 1 && whole.len() <= 9 && fraction.len() <= 6
}

// The digits before the point and behind it, in millionths.
fn millionths(whole: &[char], fraction: &[char]) -> u64
    requires limits { spec.is_within_limits whole.now fraction.now ≡ true }
    requires whole { list_all is_digit whole.now ≡ true }
    requires fraction { list_all is_digit fraction.now ≡ true }
    ensures value { result ≡ spec.millionths whole.now fraction.now }
    ensures bound { result ≤ 10000000000000000 }
{
    number(whole) * 1_000_000 + scaled(number(fraction), fraction.len())
}

fn limited(whole: &[char], fraction: &[char]) -> Option<u64>
    requires whole { list_all is_digit whole.now ≡ true }
    requires fraction { list_all is_digit fraction.now ≡ true }
    ensures value { result ≡ (if spec.is_within_limits whole.now fraction.now then Some (spec.millionths whole.now fraction.now) else None) }
    ensures bound { IfSome result (λ n. n ≤ 10000000000000000) }
{
    if is_within_limits(whole, fraction) {
        Some(millionths(whole, fraction))
    } else {
        None
    }
}

fn begins_with_point(text: &[char]) -> bool
    ensures { result ≡ begins 0x2E text.now }
{
    if text.is_empty() {
        return false;
    }
    text[0] == '.'
}

fn is_fraction(behind: &[char], fraction: &[char]) -> bool
    ensures { result ≡ (begins 0x2E behind.now && (length behind.now == 1 + length fraction.now)) }
{
    begins_with_point(behind) && behind.len() == 1 + fraction.len()
}

// These digits with what stands behind them.
fn with_fraction(whole: &[char], behind: &[char]) -> Option<u64>
    requires { list_all is_digit whole.now ≡ true }
    ensures value { result ≡ priority_by whole.now behind.now }
    ensures bound { IfSome result (λ n. n ≤ 10000000000000000) }
{
    if behind.is_empty() {
        return limited(whole, &[]);
    }
    let fraction = digits(&behind[1..]);
    if is_fraction(behind, fraction) {
        limited(whole, fraction)
    } else {
        None
    }
}

fn unsigned(text: &[char]) -> Option<u64>
    ensures value { result ≡ spec.unsigned_priority text.now }
    ensures bound { IfSome result (λ n. n ≤ 10000000000000000) }
{
    let whole = digits(text);
    with_fraction(whole, &text[whole.len()..])
}

fn negated(number: Option<u64>) -> Option<i64>
    requires { IfSome number (λ n. n ≤ 10000000000000000) }
    ensures { result ≡ option_map spec.negative number }
{
    match number {
        None => None,
        Some(number) => Some(-(number as i64)),
    }
}

fn kept(number: Option<u64>) -> Option<i64>
    requires { IfSome number (λ n. n ≤ 10000000000000000) }
    ensures { result ≡ option_map pos number }
{
    match number {
        None => None,
        Some(number) => Some(number as i64),
    }
}

fn signed(text: &[char]) -> Option<i64>
    ensures { result ≡ spec.signed_priority text.now }
{
    if text.is_empty() {
        return None;
    }
    if text[0] == '-' {
        return negated(unsigned(&text[1..]));
    }
    kept(unsigned(text))
}

fn found(number: Option<i64>) -> Read<Value>
    ensures { seen value_in result ≡ elim number [ None ↦ Err code.BadNumber | Some n ↦ Ok (spec.APriority n) ] }
{
    match number {
        None => Err(StaticCode::BadNumber),
        Some(millionths) => Ok(Value::Priority(millionths)),
    }
}

/// The priority that a text is, in millionths, with white space around it. S13 where it is none of at most nine digits
/// before the point and six behind it.
pub(crate) fn priority_of(alloc: Global, text: &Text) -> Result<Read<Value>, Memory>
    ensures { IfOk result (λ priority. seen value_in priority ≡ spec.priority_of text.now) }
{
    let characters = characters(alloc, text.as_str())?;
    Ok(found(signed(trimmed(characters.as_slice()))))
}
