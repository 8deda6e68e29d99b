// What stands on the root of a fragment.
ghost use Rattle.std.specs.Prelude.{◌≡◌, IfOk, OnOk};
ghost use Rattle.spec_meaning.specs.Stream.{followed};
ghost use Rattle.spec_run.specs.Copy.{without_attributes};
ghost use Rattle.xt_tree.specs.StreamView.{single_of, stream_of};
ghost use Rattle.xt_streams.specs.Parts.{has_attribute};

use crate::item::share;
use std::alloc::Global;
use std::rc::Rc;
use xt_text::Memory;
use xt_tree::{Fragment, Item, Items};

/// The fragment without the attributes and namespace nodes on its root (XSLT 1.0, section 11.3), where what stands
/// in an element without a good name stands too. Where it has none it is shared.
///
/// # Errors
/// Want of memory.
pub fn without_attributes(alloc: Global, fragment: &Fragment) -> Result<Fragment, Memory>
    ensures { IfOk result (λ f. f ≡ without_attributes fragment.now) }
{
    let items = nodes(alloc, fragment.items())?;
    Ok(Fragment::new(items))
}

// The stream without those.
#[cycle(nodes)]
fn nodes(alloc: Global, items: &Rc<Items>) -> Result<Rc<Items>, Memory>
    ensures { IfOk result (λ rest. stream_of rest.value ≡ without_attributes (stream_of items.now.value)) }
{
    if !has_attribute(items) {
        return Ok(items.clone()?);
    }
    let mut list = Items::new(alloc);
    for item in items.list() {
        add_node(alloc, item, &mut list)?;
    }
    Ok(Rc::new(alloc, list)?)
}

#[cycle(nodes)]
fn add_node(alloc: Global, item: &Item, list: &mut Items) -> Result<(), Memory>
    ensures { OnOk result (stream_of list.new ≡ followed (stream_of list.old) (without_attributes (single_of item.now))) }
{
    match item {
        Item::Attribute { .. } => Ok(()),
        Item::Namespace(_) => Ok(()),
        Item::Nameless { content } => {
            let content = nodes(alloc, content)?;
            list.push(Item::Nameless { content })
        }
        Item::Part(items) => {
            let items = nodes(alloc, items)?;
            list.push(Item::Part(items))
        }
        _ => list.push(share(alloc, item)?),
    }
}

#[cycle(has_attribute)]
fn has_attribute(items: &Items) -> bool
    ensures { result ≡ has_attribute (stream_of items.now) }
{
    for item in items.list() {
        if is_attribute(item) {
            return true;
        }
    }
    false
}

#[cycle(has_attribute)]
fn is_attribute(item: &Item) -> bool
    ensures { result ≡ has_attribute (single_of item.now) }
{
    match item {
        Item::Attribute { .. } => true,
        Item::Namespace(_) => true,
        Item::Nameless { content } => has_attribute(content),
        Item::Part(items) => has_attribute(items),
        _ => false,
    }
}
