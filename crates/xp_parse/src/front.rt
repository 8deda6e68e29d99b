// What stands at the front of a text, character by character.
ghost use Rattle.std.specs.Prelude.{◌≡◌, [], ◌∷◌, MatchOption, false, drop, length};
ghost use Rattle.std.specs.Str.{chars};
ghost use Rattle.spec_document.specs.Character.{is_name_part};
ghost use Rattle.spec_expression.specs.Token as plain;
ghost use Rattle.xp_parse.specs.Front.{IsBehind, IsFront, IsWord};

use xt_names::{is_name_part, is_name_start};

/// The first character, and the text behind it. None of the empty text.
pub fn first_of(text: &str) -> Option<(char, &str)>
    ensures { MatchOption result (text.now ≡ []) (λ first. IsBehind first.0 first.1.now text.now) }
{
    let mut characters = text.chars();
    match characters.next() {
        Some(first) => Some((first, characters.as_str())),
        None => None,
    }
}

/// The text behind this character, where the text begins with it.
pub fn past(mark: char, text: &str) -> Option<&str>
    ensures { MatchOption result (plain.begins mark (chars text.now) ≡ false) (λ rest. chars text.now ≡ mark ∷ chars rest.now) }
{
    match first_of(text) {
        Some((first, rest)) if first == mark => Some(rest),
        _ => None,
    }
}

/// Whether it is a digit.
pub fn is_digit(character: char) -> bool
    ensures { result ≡ plain.is_digit character }
{
    matches!(character, '0'..='9')
}

/// Whether the text begins with a digit.
pub fn begins_digit(text: &str) -> bool
    ensures { result ≡ plain.is_digit (plain.first (chars text.now)) }
{
    match first_of(text) {
        Some((first, _)) => is_digit(first),
        None => false,
    }
}

/// What stands behind the digits at the front.
fn past_digits(text: &str) -> &str
    ensures { IsFront plain.is_digit text.now result.now }
{
    let mut rest = text;
    loop {
        match first_of(rest) {
            Some((first, behind)) if is_digit(first) => rest = behind,
            _ => return rest,
        }
    }
}

/// What stands behind the characters at the front that may follow in a name.
fn past_name(text: &str) -> &str
    ensures { IsFront is_name_part text.now result.now }
{
    let mut rest = text;
    loop {
        match first_of(rest) {
            Some((first, behind)) if is_name_part(first) => rest = behind,
            _ => return rest,
        }
    }
}

/// The digits at the front, and what stands behind them.
pub fn split_digits(text: &str) -> (&str, &str)
    ensures front { chars result.0.now ≡ plain.digits_at (chars text.now) }
    ensures bytes { result.0.now ≡ plain.digits_at (chars text.now) }
    ensures rest { chars result.1.now ≡ drop (length (plain.digits_at (chars text.now))) (chars text.now) }
{
    let rest = past_digits(text);
    text.split_at(text.len() - rest.len())
}

/// The NCName at the front, the longest, and what stands behind it. None where none begins there.
pub fn split_name(text: &str) -> Option<(&str, &str)>
    ensures { MatchOption result (plain.name_at (chars text.now) ≡ []) (λ name. IsWord name.0.now name.1.now (chars text.now)) }
{
    match first_of(text) {
        Some((first, _)) if is_name_start(first) => {
            let rest = past_name(text);
            Some(text.split_at(text.len() - rest.len()))
        }
        _ => None,
    }
}
