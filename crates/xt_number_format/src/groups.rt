// Groups of digits.
ghost use Rattle.std.specs.Prelude.{◌≡◌, ◌&&◌, not, nat_lt, [], ◌∷◌, ◌++◌, if◌then◌else◌, IfOk, OnOk};
ghost use Rattle.std.specs.Char.{is_ascii_digit};
ghost use Rattle.std.specs.Str.{chars};
ghost use Rattle.spec_format.specs.Format as spec;

use crate::texts::count_characters;
use std::alloc::Global;
use std::marker::Model;
use xt_text::{Memory, Text, is_space};

/// How many digits a size may have.
const MOST_DIGITS: u32 = 9;

/// How digits are grouped, where xsl:number has both grouping-separator and grouping-size (XSLT 1.0, section 7.7.1).
#[derive(Drop)]
pub struct Grouping<'a> {
    /// What stands between two groups; it may be empty.
    pub separator: &'a str,
    /// How many digits a group has, counted from the right. With 0 nothing is grouped.
    pub size: u32,
}

impl<'a> Model for Grouping<'a> {
    ghost use Rattle.std.specs.Str.{chars};
    ghost use Rattle.spec_format.specs.Format as spec;

    ghost Value = { spec.Grouping };

    ghost view = { λ grouping. record { separator = chars grouping.separator.now; size = grouping.size } };
}

/// The size that the value of grouping-size gives: 1 to 9 digits 0 to 9, white space around them aside, of a value of 1 at least. None where
/// the value is anything else.
pub fn grouping_size(text: &str) -> Option<u32>
    ensures { result ≡ spec.grouping_size (chars text.now) }
{
    let mut size = 0;
    let mut digits = 0;
    let mut is_ended = false;
    for character in text.chars() {
        if is_space(character) {
            is_ended = digits > 0;
        } else if is_further_digit(is_ended, digits, character) {
            size = size * 10 + (character as u32 - '0' as u32);
            digits += 1;
        } else {
            return None;
        }
    }
    if size > 0 { Some(size) } else { None }
}

/// Whether the character is one more digit of a size that has so many, and has not ended.
fn is_further_digit(is_ended: bool, digits: u32, character: char) -> bool
    ensures { result ≡ (not is_ended && nat_lt digits 9 && is_ascii_digit character) }
{
    !is_ended && digits < MOST_DIGITS && character.is_ascii_digit()
}

/// The digits in groups.
pub(crate) fn grouped(alloc: Global, grouping: &Grouping<'_>, digits: &str) -> Result<Text, Memory>
    ensures { IfOk result (λ t. t ≡ spec.grouped grouping.now (chars digits.now)) }
{
    let mut text = Text::new(alloc);
    let mut behind = count_characters(digits);
    for digit in digits.chars() {
        behind -= 1;
        push_digit(&mut text, grouping, digit, behind)?;
    }
    Ok(text)
}

/// Adds a digit with so many digits behind it, and the separator where a group ends at it.
fn push_digit(
    text: &mut Text,
    grouping: &Grouping<'_>,
    digit: char,
    behind: usize,
) -> Result<(), Memory>
    ensures { OnOk result (text.new ≡ text.old ++ digit ∷ (if spec.ends_group grouping.now.size behind then grouping.now.separator else [])) }
{
    text.push(digit)?;
    if ends_group(grouping.size, behind) {
        return text.push_str(grouping.separator);
    }
    Ok(())
}

/// Whether a group ends at a digit with so many digits behind it.
fn ends_group(size: u32, behind: usize) -> bool
    ensures { result ≡ spec.ends_group size behind }
{
    behind > 0 && size > 0 && behind % size as usize == 0
}
