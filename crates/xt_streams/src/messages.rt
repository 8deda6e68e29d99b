// Streams without their messages.
ghost use Rattle.std.specs.Prelude.{◌≡◌, IfOk, OnOk};
ghost use Rattle.spec_meaning.specs.Stream.{followed};
ghost use Rattle.spec_run.specs.Direct.{quiet};
ghost use Rattle.xt_tree.specs.StreamView.{single_of, stream_of};
ghost use Rattle.xt_streams.specs.Parts.{has_message};

use crate::item::{copies, share};
use std::alloc::Global;
use std::rc::Rc;
use xt_text::Memory;
use xt_tree::{Item, Items};

/// The stream without its messages, as a variable holds it. Where it has none it is shared, and so is each
/// content that has none.
///
/// # Errors
/// Want of memory.
#[cycle(quiet)]
pub fn quiet(alloc: Global, items: &Rc<Items>) -> Result<Rc<Items>, Memory>
    ensures { IfOk result (λ rest. stream_of rest.value ≡ quiet (stream_of items.now.value)) }
{
    if !has_message(items) {
        return Ok(items.clone()?);
    }
    let mut list = Items::new(alloc);
    for item in items.list() {
        add_quiet(alloc, item, &mut list)?;
    }
    Ok(Rc::new(alloc, list)?)
}

#[cycle(quiet)]
fn add_quiet(alloc: Global, item: &Item, list: &mut Items) -> Result<(), Memory>
    ensures { OnOk result (stream_of list.new ≡ followed (stream_of list.old) (quiet (single_of item.now))) }
{
    match item {
        Item::Element {
            name,
            uri,
            namespaces,
            content,
        } => {
            let content = quiet(alloc, content)?;
            list.push(Item::Element {
                name: name.copy(alloc)?,
                uri: uri.copy(alloc)?,
                namespaces: copies(alloc, namespaces.as_slice())?,
                content,
            })
        }
        Item::Nameless { content } => {
            let content = quiet(alloc, content)?;
            list.push(Item::Nameless { content })
        }
        Item::Attribute { name, uri, content } => {
            let content = quiet(alloc, content)?;
            list.push(Item::Attribute {
                name: name.copy(alloc)?,
                uri: uri.copy(alloc)?,
                content,
            })
        }
        Item::Comment { content } => {
            let content = quiet(alloc, content)?;
            list.push(Item::Comment { content })
        }
        Item::Instruction { target, content } => {
            let content = quiet(alloc, content)?;
            list.push(Item::Instruction {
                target: target.copy(alloc)?,
                content,
            })
        }
        Item::Message { .. } => Ok(()),
        Item::Part(items) => {
            let items = quiet(alloc, items)?;
            list.push(Item::Part(items))
        }
        Item::Namespace(_) => list.push(share(alloc, item)?),
        Item::Text(_) => list.push(share(alloc, item)?),
        Item::Hole => list.push(share(alloc, item)?),
    }
}

#[cycle(has_message)]
fn has_message(items: &Items) -> bool
    ensures { result ≡ has_message (stream_of items.now) }
{
    for item in items.list() {
        if item_has_message(item) {
            return true;
        }
    }
    false
}

#[cycle(has_message)]
fn item_has_message(item: &Item) -> bool
    ensures { result ≡ has_message (single_of item.now) }
{
    match item {
        Item::Element { content, .. } => has_message(content),
        Item::Nameless { content } => has_message(content),
        Item::Attribute { content, .. } => has_message(content),
        Item::Comment { content } => has_message(content),
        Item::Instruction { content, .. } => has_message(content),
        Item::Message { .. } => true,
        Item::Part(items) => has_message(items),
        Item::Namespace(_) => false,
        Item::Text(_) => false,
        Item::Hole => false,
    }
}
