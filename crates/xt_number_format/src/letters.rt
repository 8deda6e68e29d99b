// Numbers in letters.
ghost use Rattle.std.specs.Prelude.{◌≡◌, ◌++◌, IfOk, OnOk};
ghost use Rattle.spec_format.specs.Format as spec;

use std::alloc::Global;
use xt_text::{Memory, Text};

/// The letters of a number from 1 on, in capitals: A, B, .., Z, AA, AB, ..
pub(crate) fn letters(alloc: Global, number: u64) -> Result<Text, Memory>
    ensures { IfOk result (λ t. t ≡ spec.letters number) }
{
    let mut text = Text::new(alloc);
    push_letters(&mut text, number)?;
    Ok(text)
}

/// Adds the letters of a number, and none for 0.
fn push_letters(text: &mut Text, number: u64) -> Result<(), Memory>
    ensures { OnOk result (text.new ≡ text.old ++ spec.letters number) }
{
    if number == 0 {
        return Ok(());
    }
    push_letters(text, (number - 1) / 26)?;
    let letter = b'A' + ((number - 1) % 26) as u8;
    text.push(char::from(letter))
}
