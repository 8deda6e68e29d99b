// Numbers in decimal and in Roman numerals.
ghost use Rattle.std.specs.Prelude.{◌≡◌, ◌++◌, ◌<◌, [], pos, map, length, slice_index_or, IfOk, OnOk};
ghost use Rattle.std.specs.Str.{chars};
ghost use Rattle.spec_expression.specs.Number.{Whole, text_of};
ghost use Rattle.spec_format.specs.Format as spec;

use crate::texts::{count_characters, push_repeated};
use itoa::Buffer;
use std::alloc::Global;
use xt_text::{Memory, Text};

/// The words of the digits 0 to 9 in the place of the hundreds, of the tens and of the ones.
const HUNDREDS: [&str; 10] = ["", "C", "CC", "CCC", "CD", "D", "DC", "DCC", "DCCC", "CM"];

const TENS: [&str; 10] = ["", "X", "XX", "XXX", "XL", "L", "LX", "LXX", "LXXX", "XC"];

const ONES: [&str; 10] = ["", "I", "II", "III", "IV", "V", "VI", "VII", "VIII", "IX"];

/// The decimal digits of a number.
pub(crate) fn decimal(alloc: Global, number: u64) -> Result<Text, Memory>
    ensures { IfOk result (λ t. t ≡ text_of (Whole (pos number))) }
{
    Text::from_str(alloc, Buffer::new().format(number))
}

/// The digits with as many zeros before them as make them this long.
pub(crate) fn padded(alloc: Global, width: usize, digits: &str) -> Result<Text, Memory>
    ensures { IfOk result (λ t. t ≡ spec.padded width (chars digits.now)) }
{
    let mut text = Text::new(alloc);
    let zeros = width.saturating_sub(count_characters(digits));
    push_repeated(&mut text, '0', zeros as u64)?;
    text.push_str(digits)?;
    Ok(text)
}

/// The Roman numeral of a number, in capitals.
pub(crate) fn roman(alloc: Global, number: u64) -> Result<Text, Memory>
    ensures { IfOk result (λ t. t ≡ spec.roman number) }
{
    let mut text = Text::new(alloc);
    push_repeated(&mut text, 'M', number / 1000)?;
    push_word(&mut text, &HUNDREDS, number / 100 % 10)?;
    push_word(&mut text, &TENS, number / 10 % 10)?;
    push_word(&mut text, &ONES, number % 10)?;
    Ok(text)
}

/// Adds the word of a digit.
fn push_word(text: &mut Text, words: &[&str], digit: u64) -> Result<(), Memory>
    requires { digit < length words.now }
    ensures { OnOk result (text.new ≡ text.old ++ slice_index_or (map (λ word. chars word.now) words.now) digit []) }
{
    text.push_str(words[digit as usize])
}
