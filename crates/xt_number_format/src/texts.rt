// Texts, a character at a time.
ghost use Rattle.std.specs.Prelude.{◌≡◌, ◌++◌, map, length, replicate, IfOk, OnOk};
ghost use Rattle.std.specs.Str.{chars};
ghost use Rattle.std.specs.Char.{to_ascii_lowercase};

use std::alloc::Global;
use xt_text::{Memory, Text};

/// How many characters the text has.
pub(crate) fn count_characters(text: &str) -> usize
    ensures { result ≡ length (chars text.now) }
{
    text.chars().count()
}

/// Adds a character so many times.
pub(crate) fn push_repeated(text: &mut Text, character: char, count: u64) -> Result<(), Memory>
    ensures { OnOk result (text.new ≡ text.old ++ replicate count character) }
{
    for _ in 0..count {
        text.push(character)?;
    }
    Ok(())
}

/// The text with small letters in the place of capitals.
pub(crate) fn lowercase(alloc: Global, text: &str) -> Result<Text, Memory>
    ensures { IfOk result (λ t. t ≡ map to_ascii_lowercase (chars text.now)) }
{
    let mut lowercase = Text::new(alloc);
    for character in text.chars() {
        lowercase.push(character.to_ascii_lowercase())?;
    }
    Ok(lowercase)
}
