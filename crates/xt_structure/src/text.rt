// Texts, and the words in them.
ghost use Rattle.std.specs.Prelude.{◌≡◌, ◌++◌, [], ◌∷◌, IfOk, OnOk, bytes_eq};
ghost use Rattle.std.specs.List.{filter, list_any};
ghost use Rattle.std.specs.Str.{chars};
ghost use Rattle.spec_expression.specs.Strings as spec;
ghost use Rattle.spec_structure.specs.Inside.{is_white};
ghost use Rattle.xt_structure.specs.View.{words_of};

use std::alloc::Global;
use xt_text::{Memory, Text, is_space};

/// Whether both have the same characters.
pub(crate) fn same(text: &str, other: &str) -> bool
    ensures { result ≡ bytes_eq (chars text.now) (chars other.now) }
{
    text == other
}

/// Whether it is white space. Takes no memory.
pub fn is_white(text: &Text) -> bool
    ensures { result ≡ is_white text.now }
{
    text.as_str().chars().all(|c| is_space(c))
}

/// Whether it is one of these.
pub(crate) fn is_one_of(text: &str, words: &[&str]) -> bool
    ensures { result ≡ list_any (bytes_eq (chars text.now)) (words_of words.now) }
{
    for word in words {
        if same(text, word) {
            return true;
        }
    }
    false
}

/// Whether it is one of these texts. Takes no memory.
pub fn is_among(text: &str, texts: &[Text]) -> bool
    ensures { result ≡ list_any (bytes_eq (chars text.now)) texts.now }
{
    for other in texts {
        if same(text, other.as_str()) {
            return true;
        }
    }
    false
}

/// The words of the text, which white space parts. Want of memory alone is an error.
pub fn words(alloc: Global, text: &str) -> Result<Vec<Text>, Memory>
    ensures { IfOk result (λ list. list.items ≡ spec.words (chars text.now)) }
{
    let mut list = Vec::new(alloc);
    let mut word = Text::new(alloc);
    for character in text.chars() {
        if is_space(character) {
            push_word(&mut list, word)?;
            word = Text::new(alloc);
        } else {
            word.push(character)?;
        }
    }
    push_word(&mut list, word)?;
    Ok(list)
}

// Adds a word that has ended; there is none where white space follows white space.
fn push_word(list: &mut Vec<Text>, word: Text) -> Result<(), Memory>
    ensures { OnOk result (list.new.items ≡ list.old.items ++ filter spec.is_word (word ∷ [])) }
{
    if word.is_empty() {
        return Ok(());
    }
    list.push(word)?;
    Ok(())
}
