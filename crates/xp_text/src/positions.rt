// The characters of texts by their positions.
ghost use Rattle.std.specs.Prelude.{◌≡◌, ◌+◌, IfOk};
ghost use Rattle.std.specs.Str.{chars};
ghost use Rattle.spec_expression.specs.Strings.{substring, is_selected, length_of};
ghost use Rattle.xt_base.specs.Fault.{Gives};

use std::alloc::Global;
use xt_base::{Num, NumFault};
use xt_text::{Memory, Text};

/// The characters from the position `start` on (`substring`), and with a count only those before the position
/// `start` + `count`. The first character has the position 1. With NaN there are none. The sum may be out of
/// range: nothing is refused.
pub fn substring(alloc: Global, text: &str, start: Num, count: Option<Num>) -> Result<Text, Memory>
    ensures { IfOk result (λ t. t ≡ substring (chars text.now) start count) }
{
    let mut part = Text::new(alloc);
    let mut passed: u64 = 0;
    for character in text.chars() {
        if is_selected(passed, start, &count) {
            part.push(character)?;
        }
        passed += 1;
    }
    Ok(part)
}

/// Whether the character after so many others belongs to the substring.
fn is_selected(passed: u64, start: Num, count: &Option<Num>) -> bool
    ensures { result ≡ is_selected start count.now (passed + 1) }
{
    let position = i128::from(passed) + 1;
    let Some(start) = start.get() else {
        return false;
    };
    if position < i128::from(start) {
        return false;
    }
    let Some(count) = count else {
        return true;
    };
    match count.get() {
        Some(count) => position < i128::from(start) + i128::from(count),
        None => false,
    }
}

/// How many characters the text has (`string-length`). `Wide` where they are over 9007199254740991; no other
/// fault comes.
pub fn length(text: &str) -> Result<Num, NumFault>
    ensures { Gives result (length_of (chars text.now)) }
{
    match i64::try_from(text.chars().count()) {
        Ok(count) => Num::whole(count),
        Err(_) => Err(NumFault::Wide),
    }
}
