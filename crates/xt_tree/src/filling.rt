// Streams with parts in place of their holes.
ghost use Rattle.std.specs.Prelude.{◌≡◌, ◌+◌, ◌≤◌, nat_lt, length, drop, map, IfOk, OnOk};
ghost use Rattle.xt_names.specs.View.{entry_of};
ghost use Rattle.spec_meaning.specs.Stream.{holes, filled};
ghost use Rattle.xt_tree.specs.StreamView.{single_of, stream_of, streams_of};

use crate::{Item, Items};
use std::alloc::Global;
use std::rc::Rc;
use xt_names::Namespace;
use xt_text::Memory;

/// The stream with the parts from the next one on in place of its holes. The parts are shared, and so is
/// each content that has no holes.
#[cycle(filled)]
pub fn filled(
    alloc: Global,
    items: &Items,
    parts: &[Rc<Items>],
    next: &mut usize,
) -> Result<Rc<Items>, Memory>
    requires { next.old + holes (stream_of items.now) ≤ length parts.now }
    ensures next { OnOk result (next.new ≡ next.old + holes (stream_of items.now)) }
    ensures stream { IfOk result (λ whole. stream_of whole.value ≡ filled (stream_of items.now) (streams_of (drop next.old parts.now))) }
{
    let mut list = Items::new(alloc);
    for item in items.list() {
        let whole = filled_item(alloc, item, parts, next)?;
        list.push(whole)?;
    }
    Ok(Rc::new(alloc, list)?)
}

// The same for a stream that stands in an item. Where it has no holes it is shared.
#[cycle(filled)]
fn filled_content(
    alloc: Global,
    content: &Rc<Items>,
    parts: &[Rc<Items>],
    next: &mut usize,
) -> Result<Rc<Items>, Memory>
    requires { next.old + holes (stream_of content.now.value) ≤ length parts.now }
    ensures next { OnOk result (next.new ≡ next.old + holes (stream_of content.now.value)) }
    ensures stream { IfOk result (λ whole. stream_of whole.value ≡ filled (stream_of content.now.value) (streams_of (drop next.old parts.now))) }
{
    if has_hole(content) {
        filled(alloc, content, parts, next)
    } else {
        Ok(content.clone()?)
    }
}

#[cycle(filled)]
fn filled_item(
    alloc: Global,
    item: &Item,
    parts: &[Rc<Items>],
    next: &mut usize,
) -> Result<Item, Memory>
    requires { next.old + holes (single_of item.now) ≤ length parts.now }
    ensures next { OnOk result (next.new ≡ next.old + holes (single_of item.now)) }
    ensures stream { IfOk result (λ whole. single_of whole ≡ filled (single_of item.now) (streams_of (drop next.old parts.now))) }
{
    match item {
        Item::Element {
            name,
            uri,
            namespaces,
            content,
        } => {
            let content = filled_content(alloc, content, parts, next)?;
            Ok(Item::Element {
                name: name.copy(alloc)?,
                uri: uri.copy(alloc)?,
                namespaces: copies(alloc, namespaces.as_slice())?,
                content,
            })
        }
        Item::Nameless { content } => {
            let content = filled_content(alloc, content, parts, next)?;
            Ok(Item::Nameless { content })
        }
        Item::Attribute { name, uri, content } => {
            let content = filled_content(alloc, content, parts, next)?;
            Ok(Item::Attribute {
                name: name.copy(alloc)?,
                uri: uri.copy(alloc)?,
                content,
            })
        }
        Item::Comment { content } => {
            let content = filled_content(alloc, content, parts, next)?;
            Ok(Item::Comment { content })
        }
        Item::Instruction { target, content } => {
            let content = filled_content(alloc, content, parts, next)?;
            Ok(Item::Instruction {
                target: target.copy(alloc)?,
                content,
            })
        }
        Item::Message { content } => {
            let content = filled_content(alloc, content, parts, next)?;
            Ok(Item::Message { content })
        }
        Item::Part(items) => {
            let items = filled_content(alloc, items, parts, next)?;
            Ok(Item::Part(items))
        }
        Item::Hole => {
            let part = parts[*next].clone()?;
            *next += 1;
            Ok(Item::Part(part))
        }
        Item::Namespace(namespace) => Ok(Item::Namespace(copy(alloc, namespace)?)),
        Item::Text(text) => Ok(Item::Text(text.copy(alloc)?)),
    }
}

/// Whether the stream has holes.
#[cycle(has_hole)]
pub fn has_hole(items: &Items) -> bool
    ensures { result ≡ nat_lt 0 (holes (stream_of items.now)) }
{
    for item in items.list() {
        if item_has_hole(item) {
            return true;
        }
    }
    false
}

#[cycle(has_hole)]
fn item_has_hole(item: &Item) -> bool
    ensures { result ≡ nat_lt 0 (holes (single_of item.now)) }
{
    match item {
        Item::Element { content, .. } => has_hole(content),
        Item::Nameless { content } => has_hole(content),
        Item::Attribute { content, .. } => has_hole(content),
        Item::Comment { content } => has_hole(content),
        Item::Instruction { content, .. } => has_hole(content),
        Item::Message { content } => has_hole(content),
        Item::Part(items) => has_hole(items),
        Item::Hole => true,
        Item::Namespace(_) => false,
        Item::Text(_) => false,
    }
}

fn copies(alloc: Global, namespaces: &[Namespace]) -> Result<Vec<Namespace>, Memory>
    ensures { IfOk result (λ list. map entry_of list.items ≡ map entry_of namespaces.now) }
{
    let mut list = Vec::new(alloc);
    for namespace in namespaces {
        list.push(copy(alloc, namespace)?)?;
    }
    Ok(list)
}

fn copy(alloc: Global, namespace: &Namespace) -> Result<Namespace, Memory>
    ensures { IfOk result (λ own. entry_of own ≡ entry_of namespace.now) }
{
    Ok(Namespace {
        prefix: namespace.prefix.copy(alloc)?,
        uri: namespace.uri.copy(alloc)?,
    })
}
