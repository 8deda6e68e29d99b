// The texts of comments and processing instructions (XSLT 1.0, sections 7.3 and 7.4).
ghost use Rattle.std.specs.Prelude.{◌≡◌, ◌==◌, ◌++◌, ◌∷◌, [], IfOk, OnOk, if◌then◌else◌};
ghost use Rattle.spec_result.specs.Recovery.{comment_text, instruction_text};

use std::alloc::Global;
use xt_text::{Memory, Text};

/// The text of a comment: a space stands after each `-` that another follows, and after a last one.
pub(crate) fn comment_text(alloc: Global, text: &Text) -> Result<Text, Memory>
    ensures { IfOk result (λ parted. parted ≡ comment_text text.now) }
{
    let mut parted = Text::new(alloc);
    let mut is_behind_hyphen = false;
    for character in text.as_str().chars() {
        push_behind(&mut parted, is_behind_hyphen, '-', character)?;
        is_behind_hyphen = character == '-';
    }
    push_space(&mut parted, is_behind_hyphen)?;
    Ok(parted)
}

/// The text of a processing instruction: a space stands after each `?` that a `>` follows.
pub(crate) fn instruction_text(alloc: Global, text: &Text) -> Result<Text, Memory>
    ensures { IfOk result (λ parted. parted ≡ instruction_text text.now) }
{
    let mut parted = Text::new(alloc);
    let mut is_behind_mark = false;
    for character in text.as_str().chars() {
        push_behind(&mut parted, is_behind_mark, '>', character)?;
        is_behind_mark = character == '?';
    }
    Ok(parted)
}

// Adds a character, and before it a space where it is the one that may not stand there.
fn push_behind(
    parted: &mut Text,
    is_behind: bool,
    barred: char,
    character: char,
) -> Result<(), Memory>
    ensures { OnOk result (parted.new ≡ parted.old ++ (if is_behind then (if character == barred then 0x20 ∷ [] else []) else []) ++ character ∷ []) }
{
    if is_behind {
        push_space(parted, character == barred)?;
    }
    parted.push(character)
}

// Adds a space where one is needed.
fn push_space(parted: &mut Text, is_needed: bool) -> Result<(), Memory>
    ensures { OnOk result (parted.new ≡ parted.old ++ (if is_needed then 0x20 ∷ [] else [])) }
{
    if is_needed {
        parted.push(' ')?;
    }
    Ok(())
}
