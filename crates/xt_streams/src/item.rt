// Items by themselves.
ghost use Rattle.std.specs.Prelude.{◌≡◌, map, IfOk};
ghost use Rattle.xt_names.specs.View.{entry_of};
ghost use Rattle.xt_tree.specs.StreamView.{single_of};

use std::alloc::Global;
use xt_names::Namespace;
use xt_text::Memory;
use xt_tree::Item;

/// The same item. What stands in it is shared.
pub fn share(alloc: Global, item: &Item) -> Result<Item, Memory>
    ensures { IfOk result (λ i. single_of i ≡ single_of item.now) }
{
    match item {
        Item::Element {
            name,
            uri,
            namespaces,
            content,
        } => Ok(Item::Element {
            name: name.copy(alloc)?,
            uri: uri.copy(alloc)?,
            namespaces: copies(alloc, namespaces.as_slice())?,
            content: content.clone()?,
        }),
        Item::Nameless { content } => Ok(Item::Nameless {
            content: content.clone()?,
        }),
        Item::Attribute { name, uri, content } => Ok(Item::Attribute {
            name: name.copy(alloc)?,
            uri: uri.copy(alloc)?,
            content: content.clone()?,
        }),
        Item::Namespace(namespace) => Ok(Item::Namespace(copy(alloc, namespace)?)),
        Item::Text(text) => Ok(Item::Text(text.copy(alloc)?)),
        Item::Comment { content } => Ok(Item::Comment {
            content: content.clone()?,
        }),
        Item::Instruction { target, content } => Ok(Item::Instruction {
            target: target.copy(alloc)?,
            content: content.clone()?,
        }),
        Item::Message { content } => Ok(Item::Message {
            content: content.clone()?,
        }),
        Item::Part(items) => Ok(Item::Part(items.clone()?)),
        Item::Hole => Ok(Item::Hole),
    }
}

/// The same namespaces, in memory of their own.
pub fn copies(alloc: Global, namespaces: &[Namespace]) -> Result<Vec<Namespace>, Memory>
    ensures { IfOk result (λ list. map entry_of list.items ≡ map entry_of namespaces.now) }
{
    let mut list = Vec::new(alloc);
    for namespace in namespaces {
        list.push(copy(alloc, namespace)?)?;
    }
    Ok(list)
}

fn copy(alloc: Global, namespace: &Namespace) -> Result<Namespace, Memory>
    ensures { IfOk result (λ own. entry_of own ≡ entry_of namespace.now) }
{
    Ok(Namespace {
        prefix: namespace.prefix.copy(alloc)?,
        uri: namespace.uri.copy(alloc)?,
    })
}
