// What was written up to a refusal.
ghost use Rattle.std.specs.Prelude.{◌≡◌, ◌<◌, map, IfOk, OnOk};
ghost use Rattle.spec_meaning.specs.Stream.{followed, holes};
ghost use Rattle.spec_run.specs.Plan.{aside_of};
ghost use Rattle.spec_run.specs.Cut.{cut};
ghost use Rattle.xt_names.specs.View.{entry_of};
ghost use Rattle.xt_tree.specs.StreamView.{single_of, stream_of};

use std::alloc::Global;
use std::rc::Rc;
use xt_names::Namespace;
use xt_streams::count_holes;
use xt_text::{Memory, Text};
use xt_tree::{Item, Items};

/// What stands before the hole of this number, counted from 0, and the hole. Of what is around it messages alone
/// count, so it stands in an attribute without a name. What is before it is shared.
#[cycle(cut)]
pub fn cut(alloc: Global, items: &Items, hole: usize) -> Result<Items, Memory>
    ensures { IfOk result (λ s. stream_of s ≡ cut hole (stream_of items.now)) }
{
    let mut list = Items::new(alloc);
    let mut left = hole;
    for item in items.list() {
        let count = holes_in(item)?;
        if left < count {
            add_cut(alloc, item, left, &mut list)?;
            return Ok(list);
        }
        let whole = share(alloc, item)?;
        list.push(whole)?;
        left -= count;
    }
    Ok(list)
}

// Adds what stands before the hole in an item that has it.
#[cycle(cut)]
fn add_cut(alloc: Global, item: &Item, hole: usize, list: &mut Items) -> Result<(), Memory>
    requires { hole < holes (single_of item.now) }
    ensures { OnOk result (stream_of list.new ≡ followed (stream_of list.old) (cut hole (single_of item.now))) }
{
    match item {
        Item::Element { content, .. } => add_aside(alloc, content, hole, list),
        Item::Nameless { content } => add_aside(alloc, content, hole, list),
        Item::Attribute { content, .. } => add_aside(alloc, content, hole, list),
        Item::Comment { content } => add_aside(alloc, content, hole, list),
        Item::Instruction { content, .. } => add_aside(alloc, content, hole, list),
        Item::Message { content } => add_aside(alloc, content, hole, list),
        Item::Part(items) => {
            let before = cut(alloc, items, hole)?;
            let part = Rc::new(alloc, before)?;
            list.push(Item::Part(part))
        }
        Item::Hole => list.push(Item::Hole),
        Item::Namespace(_) => Ok(()),
        Item::Text(_) => Ok(()),
    }
}

// Adds what stands before the hole in the content of an item, which is cut short with it.
#[cycle(cut)]
fn add_aside(alloc: Global, content: &Items, hole: usize, list: &mut Items) -> Result<(), Memory>
    ensures { OnOk result (stream_of list.new ≡ followed (stream_of list.old) (aside_of (cut hole (stream_of content.now)))) }
{
    let before = cut(alloc, content, hole)?;
    let content = Rc::new(alloc, before)?;
    list.push(aside(alloc, content))
}

// What a refusal cut short.
fn aside(alloc: Global, content: Rc<Items>) -> Item
    ensures { single_of result ≡ aside_of (stream_of content.value) }
{
    Item::Attribute {
        name: Text::new(alloc),
        uri: Text::new(alloc),
        content,
    }
}

// How many holes the item has.
fn holes_in(item: &Item) -> Result<usize, Memory>
    ensures { IfOk result (λ n. n ≡ holes (single_of item.now)) }
{
    match item {
        Item::Element { content, .. } => count_holes(content),
        Item::Nameless { content } => count_holes(content),
        Item::Attribute { content, .. } => count_holes(content),
        Item::Comment { content } => count_holes(content),
        Item::Instruction { content, .. } => count_holes(content),
        Item::Message { content } => count_holes(content),
        Item::Part(items) => count_holes(items),
        Item::Hole => Ok(1),
        Item::Namespace(_) => Ok(0),
        Item::Text(_) => Ok(0),
    }
}

// The same item. What stands in it is shared.
fn share(alloc: Global, item: &Item) -> Result<Item, Memory>
    ensures { IfOk result (λ i. single_of i ≡ single_of item.now) }
{
    match item {
        Item::Element {
            name,
            uri,
            namespaces,
            content,
        } => Ok(Item::Element {
            name: name.copy(alloc)?,
            uri: uri.copy(alloc)?,
            namespaces: copies(alloc, namespaces.as_slice())?,
            content: content.clone()?,
        }),
        Item::Nameless { content } => Ok(Item::Nameless {
            content: content.clone()?,
        }),
        Item::Attribute { name, uri, content } => Ok(Item::Attribute {
            name: name.copy(alloc)?,
            uri: uri.copy(alloc)?,
            content: content.clone()?,
        }),
        Item::Namespace(namespace) => Ok(Item::Namespace(copy(alloc, namespace)?)),
        Item::Text(text) => Ok(Item::Text(text.copy(alloc)?)),
        Item::Comment { content } => Ok(Item::Comment {
            content: content.clone()?,
        }),
        Item::Instruction { target, content } => Ok(Item::Instruction {
            target: target.copy(alloc)?,
            content: content.clone()?,
        }),
        Item::Message { content } => Ok(Item::Message {
            content: content.clone()?,
        }),
        Item::Part(items) => Ok(Item::Part(items.clone()?)),
        Item::Hole => Ok(Item::Hole),
    }
}

// The same namespaces, in memory of their own.
fn copies(alloc: Global, namespaces: &[Namespace]) -> Result<Vec<Namespace>, Memory>
    ensures { IfOk result (λ list. map entry_of list.items ≡ map entry_of namespaces.now) }
{
    let mut list = Vec::new(alloc);
    for namespace in namespaces {
        list.push(copy(alloc, namespace)?)?;
    }
    Ok(list)
}

fn copy(alloc: Global, namespace: &Namespace) -> Result<Namespace, Memory>
    ensures { IfOk result (λ own. entry_of own ≡ entry_of namespace.now) }
{
    Ok(Namespace {
        prefix: namespace.prefix.copy(alloc)?,
        uri: namespace.uri.copy(alloc)?,
    })
}
