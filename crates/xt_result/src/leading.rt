// What the content of an element begins with: whether a child ends that, and its namespace nodes.
ghost use Rattle.std.specs.Prelude.{◌≡◌, IfOk, OnOk};
ghost use Rattle.spec_result.specs.Recovery.{has_child, namespaces_of};
ghost use Rattle.spec_result.specs.Shape.{with_nodes};
ghost use Rattle.xt_tree.specs.StreamView.{single_of, stream_of};
ghost use Rattle.xt_result.specs.View.{opening_of};

use crate::opening::Opening;
use std::alloc::Global;
use xt_text::Memory;
use xt_tree::{Item, Items};

/// Whether the content has a child. No more of it is looked at than what stands before that.
#[cycle(has_child)]
pub(crate) fn has_child(items: &Items) -> bool
    ensures { result ≡ has_child (stream_of items.now) }
{
    for item in items.list() {
        if is_child(item) {
            return true;
        }
    }
    false
}

#[cycle(has_child)]
fn is_child(item: &Item) -> bool
    ensures { result ≡ has_child (single_of item.now) }
{
    match item {
        Item::Nameless { content } => has_child(content),
        Item::Part(items) => has_child(items),
        Item::Text(text) => !text.is_empty(),
        Item::Element { .. } => true,
        Item::Comment { .. } => true,
        Item::Instruction { .. } => true,
        Item::Attribute { .. } => false,
        Item::Namespace(_) => false,
        Item::Message { .. } => false,
        Item::Hole => false,
    }
}

/// Copies the namespace nodes that these items begin with to the element, and says whether a child ends
/// them.
#[cycle(copy)]
pub(crate) fn copy_namespaces(
    alloc: Global,
    opening: &mut Opening,
    items: &Items,
) -> Result<bool, Memory>
    ensures child { IfOk result (λ is_ended. is_ended ≡ has_child (stream_of items.now)) }
    ensures copied { OnOk result (opening_of opening.new ≡ with_nodes (namespaces_of (stream_of items.now)) (opening_of opening.old)) }
{
    for item in items.list() {
        if copy_item(alloc, opening, item)? {
            return Ok(true);
        }
    }
    Ok(false)
}

#[cycle(copy)]
fn copy_item(alloc: Global, opening: &mut Opening, item: &Item) -> Result<bool, Memory>
    ensures child { IfOk result (λ is_ended. is_ended ≡ has_child (single_of item.now)) }
    ensures copied { OnOk result (opening_of opening.new ≡ with_nodes (namespaces_of (single_of item.now)) (opening_of opening.old)) }
{
    match item {
        Item::Namespace(node) => {
            opening.copy_node(alloc, node)?;
            Ok(false)
        }
        Item::Nameless { content } => copy_namespaces(alloc, opening, content),
        Item::Part(items) => copy_namespaces(alloc, opening, items),
        Item::Text(text) => Ok(!text.is_empty()),
        Item::Element { .. } => Ok(true),
        Item::Comment { .. } => Ok(true),
        Item::Instruction { .. } => Ok(true),
        Item::Attribute { .. } => Ok(false),
        Item::Message { .. } => Ok(false),
        Item::Hole => Ok(false),
    }
}
