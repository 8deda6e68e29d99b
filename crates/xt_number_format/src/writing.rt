// Numbers written by tokens, and lists of numbers by a format.
ghost use Rattle.std.specs.Prelude.{◌≡◌, ◌++◌, pos, IfOk, OnOk};
ghost use Rattle.std.specs.Str.{chars};
ghost use Rattle.spec_expression.specs.Number.{Whole, text_of};
ghost use Rattle.spec_format.specs.Format as spec;

use crate::groups::grouped;
use crate::letters::letters;
use crate::numerals::{decimal, padded, roman};
use crate::texts::{count_characters, lowercase};
use crate::{Format, Grouping};
use std::alloc::Global;
use xt_base::Num;
use xt_text::{Memory, Text};

/// The greatest number that has a Roman numeral.
const GREATEST_ROMAN: u64 = 3999;

/// The text of the numbers by the format (XSLT 1.0, section 7.7.1). Each number takes the token in its place, or the last one; before each but
/// the first stands what stands before that token, or a period where the format has no second one. No number writes nothing, prefix and suffix
/// neither.
///
/// `1` writes decimal digits, and a token like `001` with zeros before them, as long as the token; `A` and `a` write letters, as Z and AA for 26
/// and 27; `I` and `i` write Roman numerals up to 3999. NaN, a number below 1 and a number by any other token is written in decimal, neither
/// padded nor grouped. What a decimal token writes is grouped where a grouping is given, its zeros too.
pub fn write(
    alloc: Global,
    format: &Format,
    numbers: &[Num],
    grouping: Option<Grouping<'_>>,
) -> Result<Text, Memory>
    ensures { IfOk result (λ t. t ≡ spec.written format.now numbers.now grouping.entry) }
{
    let mut text = Text::new(alloc);
    let Some((first, others)) = numbers.split_first() else {
        return Ok(text);
    };
    text.push_str(format.prefix().as_str())?;
    push_number(alloc, &mut text, &grouping, format.first(), *first)?;
    push_others(alloc, &mut text, &grouping, format, others)?;
    text.push_str(format.suffix().as_str())?;
    Ok(text)
}

/// Adds the numbers behind the first, each after what stands before it.
fn push_others(
    alloc: Global,
    text: &mut Text,
    grouping: &Option<Grouping<'_>>,
    format: &Format,
    others: &[Num],
) -> Result<(), Memory>
    ensures { OnOk result (text.new ≡ text.old ++ spec.others_written grouping.now format.now 0 others.now) }
{
    for (place, number) in others.iter().enumerate() {
        let (before, token) = format.part_at(place);
        text.push_str(before)?;
        push_number(alloc, text, grouping, token, *number)?;
    }
    Ok(())
}

/// Adds a number by a token.
fn push_number(
    alloc: Global,
    text: &mut Text,
    grouping: &Option<Grouping<'_>>,
    token: &Text,
    number: Num,
) -> Result<(), Memory>
    ensures { OnOk result (text.new ≡ text.old ++ spec.number_text grouping.now token.now number) }
{
    let written = number_text(alloc, grouping, token, number)?;
    text.push_str(written.as_str())
}

/// A number by a token.
fn number_text(
    alloc: Global,
    grouping: &Option<Grouping<'_>>,
    token: &Text,
    number: Num,
) -> Result<Text, Memory>
    ensures { IfOk result (λ t. t ≡ spec.number_text grouping.now token.now number) }
{
    match number.get() {
        Some(value) if value > 0 => counted_text(alloc, grouping, token, value.unsigned_abs()),
        _ => number.text(alloc),
    }
}

/// A number from 1 on by a token.
fn counted_text(
    alloc: Global,
    grouping: &Option<Grouping<'_>>,
    token: &Text,
    number: u64,
) -> Result<Text, Memory>
    ensures { IfOk result (λ t. t ≡ spec.counted_text grouping.now token.now number) }
{
    if is_decimal(token.as_str()) {
        return digits(alloc, grouping, count_characters(token.as_str()), number);
    }
    if token.is("A") {
        return letters(alloc, number);
    }
    if token.is("a") {
        return lowercase(alloc, letters(alloc, number)?.as_str());
    }
    if token.is("I") && number <= GREATEST_ROMAN {
        return roman(alloc, number);
    }
    if token.is("i") && number <= GREATEST_ROMAN {
        return lowercase(alloc, roman(alloc, number)?.as_str());
    }
    decimal(alloc, number)
}

/// The decimal digits of a number, padded to this length and grouped.
fn digits(
    alloc: Global,
    grouping: &Option<Grouping<'_>>,
    width: usize,
    number: u64,
) -> Result<Text, Memory>
    ensures { IfOk result (λ t. t ≡ spec.grouped_by grouping.now (spec.padded width (text_of (Whole (pos number))))) }
{
    let digits = padded(alloc, width, decimal(alloc, number)?.as_str())?;
    match grouping {
        Some(grouping) => grouped(alloc, grouping, digits.as_str()),
        None => Ok(digits),
    }
}

/// Whether the token is `1`, with or without zeros before it.
fn is_decimal(token: &str) -> bool
    ensures { result ≡ spec.is_decimal (chars token.now) }
{
    let mut is_ended = false;
    for character in token.chars() {
        if is_ended {
            return false;
        }
        if character == '1' {
            is_ended = true;
        } else if character != '0' {
            return false;
        }
    }
    is_ended
}
