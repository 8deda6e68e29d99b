// The texts that tell the places of nodes.
ghost use Rattle.std.specs.Prelude.{◌≡◌, ◌++◌, IfOk, OnOk, codes, decimal};
ghost use Rattle.spec_meaning.specs.Truth.{positions_text};
ghost use Rattle.xt_document_world.specs.View.{later_text, part_text};

use itoa::Buffer;
use std::alloc::Global;
use xt_text::{Memory, Path, Text};
use xt_tree::Part;

/// `n` and the positions, then the part: `a` and the number of an attribute, `s` and that of a namespace node.
pub fn identifier(alloc: Global, path: &Path, part: Part) -> Result<Text, Memory>
    ensures { IfOk result (λ text. text ≡ codes "n" ++ positions_text path.now ++ part_text part) }
{
    let mut text = Text::new(alloc);
    text.push('n')?;
    push_positions(&mut text, path.positions())?;
    push_part(&mut text, part)?;
    Ok(text)
}

// Adds the positions, parted by `c`.
fn push_positions(text: &mut Text, positions: &[u64]) -> Result<(), Memory>
    ensures { OnOk result (text.new ≡ text.old ++ positions_text positions.now) }
{
    match positions.split_first() {
        None => Ok(()),
        Some((first, later)) => {
            push_number(text, *first)?;
            push_later(text, later)
        }
    }
}

// Adds positions, each behind a `c`.
fn push_later(text: &mut Text, positions: &[u64]) -> Result<(), Memory>
    ensures { OnOk result (text.new ≡ text.old ++ later_text positions.now) }
{
    for position in positions {
        text.push('c')?;
        push_number(text, *position)?;
    }
    Ok(())
}

fn push_part(text: &mut Text, part: Part) -> Result<(), Memory>
    ensures { OnOk result (text.new ≡ text.old ++ part_text part) }
{
    match part {
        Part::Itself => Ok(()),
        Part::Attribute(number) => {
            text.push('a')?;
            push_number(text, number)
        }
        Part::Namespace(number) => {
            text.push('s')?;
            push_number(text, number)
        }
    }
}

// Adds the decimal digits of a number.
fn push_number(text: &mut Text, number: u64) -> Result<(), Memory>
    ensures { OnOk result (text.new ≡ text.old ++ decimal number) }
{
    text.push_str(Buffer::new().format(number))
}
