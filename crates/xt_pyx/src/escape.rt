// The four escapes, both ways.
ghost use Rattle.std.specs.Prelude.{◌≡◌, ◌++◌, [], ◌∷◌, IfOk, OnOk, OnErr, MatchOption};
ghost use Rattle.std.specs.Str.{chars};
ghost use Rattle.spec_document.specs.Pyx as spec;
ghost use Rattle.xt_pyx.specs.Front.{HasFront};

use std::alloc::Global;
use xt_text::{Memory, Text};

/// The text that is read where `escaped` is written.
pub fn unescape(alloc: Global, escaped: &str) -> Result<Text, Memory>
    ensures { IfOk result (λ text. text ≡ spec.unescaped (chars escaped.now)) }
{
    let mut text = Text::new(alloc);
    let mut is_behind_backslash = false;
    for character in escaped.chars() {
        if is_behind_backslash {
            push_behind_backslash(&mut text, character)?;
            is_behind_backslash = false;
        } else if character == '\\' {
            is_behind_backslash = true;
        } else {
            text.push(character)?;
        }
    }
    if is_behind_backslash {
        text.push('\\')?;
    }
    Ok(text)
}

// Adds what a backslash and this character are read as.
fn push_behind_backslash(text: &mut Text, character: char) -> Result<(), Memory>
    ensures { OnOk result (text.new ≡ text.old ++ spec.unescape character) }
{
    match character {
        'n' => text.push('\n'),
        't' => text.push('\t'),
        'r' => text.push('\r'),
        '\\' => text.push('\\'),
        _ => {
            text.push('\\')?;
            text.push(character)
        }
    }
}

/// Adds `more` at the end of `line` as it is written, with its escapes. After want of memory the line is as
/// before, or ends with a front of what was to be added.
pub fn push_escaped(line: &mut Text, more: &str) -> Result<(), Memory>
    ensures ok { OnOk result (line.new ≡ line.old ++ spec.escaped (chars more.now)) }
    ensures err { OnErr result (HasFront line.old (spec.escaped (chars more.now)) line.new) }
{
    for character in more.chars() {
        push_escape(line, character)?;
    }
    Ok(())
}

// Adds one character as it is written, or a front of that.
fn push_escape(line: &mut Text, character: char) -> Result<(), Memory>
    ensures ok { OnOk result (line.new ≡ line.old ++ spec.escape character) }
    ensures err { OnErr result (HasFront line.old (spec.escape character) line.new) }
{
    match letter(character) {
        None => line.push(character),
        Some(letter) => {
            line.push('\\')?;
            line.push(letter)
        }
    }
}

// The letter that stands behind a backslash for this character, if it is escaped.
fn letter(character: char) -> Option<char>
    ensures { MatchOption result (spec.escape character ≡ character ∷ []) (λ letter. spec.escape character ≡ 0x5C ∷ letter ∷ []) }
{
    match character {
        '\n' => Some('n'),
        '\t' => Some('t'),
        '\r' => Some('r'),
        '\\' => Some('\\'),
        _ => None,
    }
}
