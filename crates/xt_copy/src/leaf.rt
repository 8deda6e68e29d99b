// The copies of what has nothing below it.
ghost use Rattle.std.specs.Prelude.{◌≡◌, IfOk};
ghost use Rattle.spec_meaning.specs.Stream as stream;
ghost use Rattle.xt_tree.specs.StreamView.{single_of, stream_of};
ghost use Rattle.xt_copy.specs.Copied as copied;

use spec_document::Kind;
use std::alloc::Global;
use std::rc::Rc;
use xt_names::{Expanded, Namespace};
use xt_text::{Memory, Text};
use xt_tree::{Item, Items};

/// The stream of this item alone.
pub(crate) fn single(alloc: Global, item: Item) -> Result<Items, Memory>
    ensures { IfOk result (λ items. stream_of items ≡ single_of item) }
{
    let mut items = Items::new(alloc);
    items.push(item)?;
    Ok(items)
}

/// A text as the content of what has one.
pub(crate) fn text_content(alloc: Global, text: Text) -> Result<Rc<Items>, Memory>
    ensures { IfOk result (λ items. stream_of items.value ≡ stream.Text text stream.Ended) }
{
    let items = single(alloc, Item::Text(text))?;
    Ok(Rc::new(alloc, items)?)
}

/// The copy of a node of this kind that is no element and no root, by its name as written, its expanded name
/// and its string-value.
pub(crate) fn leaf(
    alloc: Global,
    kind: Kind,
    written: Text,
    name: Option<Expanded>,
    value: Text,
) -> Result<Item, Memory>
    ensures { IfOk result (λ item. single_of item ≡ copied.leaf_by kind written name value) }
{
    match kind {
        Kind::Attribute => attribute(alloc, written, name, value),
        Kind::Namespace => Ok(Item::Namespace(Namespace {
            prefix: written,
            uri: value,
        })),
        Kind::Comment => {
            let content = text_content(alloc, value)?;
            Ok(Item::Comment { content })
        }
        Kind::Instruction => {
            let content = text_content(alloc, value)?;
            Ok(Item::Instruction {
                target: written,
                content,
            })
        }
        Kind::Text | Kind::Element | Kind::Root => Ok(Item::Text(value)),
    }
}

fn attribute(
    alloc: Global,
    written: Text,
    name: Option<Expanded>,
    value: Text,
) -> Result<Item, Memory>
    ensures { IfOk result (λ item. single_of item ≡ stream.Attribute written (copied.uri_by name) (stream.Text value stream.Ended) stream.Ended) }
{
    let uri = uri_of(alloc, name)?;
    let content = text_content(alloc, value)?;
    Ok(Item::Attribute {
        name: written,
        uri,
        content,
    })
}

// The URI of the name, empty where there is none.
fn uri_of(alloc: Global, name: Option<Expanded>) -> Result<Text, Memory>
    ensures { IfOk result (λ uri. uri ≡ copied.uri_by name) }
{
    match name {
        None => Ok(Text::new(alloc)),
        Some(name) => name.uri().copy(alloc),
    }
}
