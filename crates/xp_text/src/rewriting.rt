// Texts put together, and rewritten character by character.
ghost use Rattle.std.specs.Prelude.{◌≡◌, ◌++◌, [], ◌∷◌, ◌&&◌, ◌==◌, not, length, IfOk, OnOk, option_to_list, if◌then◌else◌};
ghost use Rattle.std.specs.List.{concat};
ghost use Rattle.std.specs.Str.{chars};
ghost use Rattle.spec_expression.specs.Strings.{normalized, translation_of, translated};

use std::alloc::Global;
use xt_text::{Memory, Text, is_space};

/// The parts one after another (`concat`).
pub fn concat(alloc: Global, parts: &[Text]) -> Result<Text, Memory>
    ensures { IfOk result (λ t. t ≡ concat parts.now) }
{
    let mut whole = Text::new(alloc);
    for part in parts {
        whole.push_str(part.as_str())?;
    }
    Ok(whole)
}

/// The words of the text, parted by one space (`normalize-space`). A word is what stands between white space.
pub fn normalize(alloc: Global, text: &str) -> Result<Text, Memory>
    ensures { IfOk result (λ t. t ≡ normalized (chars text.now)) }
{
    let mut normal = Text::new(alloc);
    let mut is_apart = false;
    for character in text.chars() {
        if is_space(character) {
            is_apart = true;
        } else {
            push_word_part(&mut normal, is_apart, character)?;
            is_apart = false;
        }
    }
    Ok(normal)
}

/// Adds a character of a word, after a space where another word came before it.
fn push_word_part(normal: &mut Text, is_apart: bool, character: char) -> Result<(), Memory>
    ensures { OnOk result (normal.new ≡ normal.old ++ (if is_apart && not (length normal.old == 0) then 0x20 ∷ character ∷ [] else character ∷ [])) }
{
    if is_apart && !normal.is_empty() {
        normal.push(' ')?;
    }
    normal.push(character)
}

/// The text with each character replaced (`translate`): by the one of `to` at the first place that it has in
/// `from`, or by none where `to` is shorter. A character that is not in `from` stays.
pub fn translate(alloc: Global, text: &str, from: &str, to: &str) -> Result<Text, Memory>
    ensures { IfOk result (λ t. t ≡ translated (chars text.now) (chars from.now) (chars to.now)) }
{
    let mut translation = Text::new(alloc);
    for character in text.chars() {
        if let Some(replacement) = replacement(character, from, to) {
            translation.push(replacement)?;
        }
    }
    Ok(translation)
}

/// What stands for a character of the text, if anything does.
fn replacement(character: char, from: &str, to: &str) -> Option<char>
    ensures { option_to_list result ≡ translation_of (chars from.now) (chars to.now) character }
{
    match from.chars().position(|other| other == character) {
        Some(place) => to.chars().nth(place),
        None => Some(character),
    }
}
