// The values that contents make: of attributes, comments and processing instructions.
ghost use Rattle.std.specs.Prelude.{◌≡◌, ◌++◌, IfOk, OnOk};
ghost use Rattle.spec_result.specs.Recovery.{value_of};
ghost use Rattle.xt_tree.specs.StreamView.{single_of, stream_of};

use std::alloc::Global;
use xt_text::{Memory, Text};
use xt_tree::{Item, Items};

/// The text of a value. Other nodes than texts are dropped with what is below them.
pub(crate) fn value_of(alloc: Global, content: &Items) -> Result<Text, Memory>
    ensures { IfOk result (λ value. value ≡ value_of (stream_of content.now)) }
{
    let mut value = Text::new(alloc);
    push_items(&mut value, content)?;
    Ok(value)
}

#[cycle(push)]
fn push_items(value: &mut Text, items: &Items) -> Result<(), Memory>
    ensures { OnOk result (value.new ≡ value.old ++ value_of (stream_of items.now)) }
{
    for item in items.list() {
        push_item(value, item)?;
    }
    Ok(())
}

#[cycle(push)]
fn push_item(value: &mut Text, item: &Item) -> Result<(), Memory>
    ensures { OnOk result (value.new ≡ value.old ++ value_of (single_of item.now)) }
{
    match item {
        Item::Nameless { content } => push_items(value, content),
        Item::Text(more) => value.push_str(more.as_str()),
        Item::Part(items) => push_items(value, items),
        Item::Element { .. } => Ok(()),
        Item::Attribute { .. } => Ok(()),
        Item::Namespace(_) => Ok(()),
        Item::Comment { .. } => Ok(()),
        Item::Instruction { .. } => Ok(()),
        Item::Message { .. } => Ok(()),
        Item::Hole => Ok(()),
    }
}
