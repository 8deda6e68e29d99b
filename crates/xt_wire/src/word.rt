// The words of a line.
ghost use Rattle.std.specs.Prelude.{◌≡◌, IfOk, bytes_eq};
ghost use Rattle.std.specs.Option.{option_map};
ghost use Rattle.std.specs.Str.{chars};
ghost use Rattle.spec_document.specs.Declaration.{is_there};
ghost use Rattle.spec_session.specs.Request as spec;
ghost use Rattle.xt_wire.specs.View.{characters, rest_of, words_in};

use std::alloc::Global;
use xt_pyx::unescape;
use xt_text::{Memory, Text, split_first};

/// A text cut at its first space.
#[derive(Clone, Copy)]
pub struct Words<'a> {
    /// The word before the space, or the whole text where there is none. It may be empty.
    pub first: &'a str,
    /// What stands behind the space, where there is one.
    pub rest: Option<&'a str>,
}

/// The text cut at its first space. Takes no memory.
pub fn first_word(text: &str) -> Words<'_>
    ensures { words_in result ≡ spec.words_of (chars text.now) }
{
    match split_first(text, ' ') {
        Some((first, rest)) => Words {
            first,
            rest: Some(rest),
        },
        None => Words {
            first: text,
            rest: None,
        },
    }
}

/// The next word of what stands behind a word, and what stands behind it in turn. None where nothing stands
/// there, or a space: a word is not empty. Takes no memory.
pub fn next_word(rest: Option<&str>) -> Option<Words<'_>>
    ensures { option_map words_in result ≡ spec.next_word (rest_of rest.entry) }
{
    let words = first_word(rest?);
    if is_there(words.first) {
        Some(words)
    } else {
        None
    }
}

/// The only word of what stands behind a word. None where no word stands there, or anything behind it, a
/// space too. Takes no memory.
pub fn only_word(rest: Option<&str>) -> Option<&str>
    ensures { option_map characters result ≡ spec.only_word (rest_of rest.entry) }
{
    let words = next_word(rest)?;
    match words.rest {
        None => Some(words.first),
        Some(_) => None,
    }
}

/// The value that is all that stands behind a word, with its escapes read: `\n`, `\t`, `\r` and `\\`; any
/// other backslash stands for itself. It is empty where nothing stands there.
pub fn read_value(alloc: Global, rest: Option<&str>) -> Result<Text, Memory>
    ensures { IfOk result (λ value. value ≡ spec.value_of (rest_of rest.entry)) }
{
    match rest {
        None => Ok(Text::new(alloc)),
        Some(escaped) => unescape(alloc, escaped),
    }
}

// Whether the text has a character.
fn is_there(text: &str) -> bool
    ensures { result ≡ is_there (chars text.now) }
{
    !text.is_empty()
}

/// Whether the word is this one.
pub(crate) fn is_word(word: &str, other: &str) -> bool
    ensures { result ≡ bytes_eq (chars word.now) (chars other.now) }
{
    word == other
}
