// The texts of a stream.
ghost use Rattle.std.specs.Prelude.{◌≡◌, ◌++◌, OnOk};
ghost use Rattle.spec_meaning.specs.Stream.{texts_of};
ghost use Rattle.xt_tree.specs.StreamView.{single_of, stream_of};

use xt_text::{Memory, Text};
use xt_tree::{Item, Items};

/// Adds the texts in elements and beside them.
#[cycle(texts)]
pub(crate) fn push_texts(text: &mut Text, items: &Items) -> Result<(), Memory>
    ensures { OnOk result (text.new ≡ text.old ++ texts_of (stream_of items.now)) }
{
    for item in items.list() {
        push_item(text, item)?;
    }
    Ok(())
}

#[cycle(texts)]
fn push_item(text: &mut Text, item: &Item) -> Result<(), Memory>
    ensures { OnOk result (text.new ≡ text.old ++ texts_of (single_of item.now)) }
{
    match item {
        Item::Element { content, .. } => push_texts(text, content),
        Item::Nameless { content } => push_texts(text, content),
        Item::Text(more) => text.push_str(more.as_str()),
        Item::Part(items) => push_texts(text, items),
        Item::Attribute { .. } => Ok(()),
        Item::Namespace(_) => Ok(()),
        Item::Comment { .. } => Ok(()),
        Item::Instruction { .. } => Ok(()),
        Item::Message { .. } => Ok(()),
        Item::Hole => Ok(()),
    }
}
