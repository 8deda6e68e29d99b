// The children of the node of a change.
ghost use Rattle.std.specs.Prelude.{◌≡◌, ◌++◌, true, IfOk, OnOk};
ghost use Rattle.spec_touch.specs.Leads.{AreLooseBelow, is_element};
ghost use Rattle.xt_edit.specs.Telling.{numbers_in};
ghost use Rattle.xt_touch.specs.Loose.{loose_among, loose_tree};
ghost use Rattle.xt_touch.specs.Missing.{children_of};
ghost use Rattle.xt_tree.specs.View.{content_of, forest_of, tree_of};

use std::alloc::Global;
use std::rc::Rc;
use xt_text::Memory;
use xt_tree::{Content, Doc, Node, NodeId};

/// The nodes directly below the root or this node that are no elements: after an edit of the children of this node these
/// alone may be others where they stay. None where there is no such node.
pub fn loose_children(alloc: Global, document: &Doc, node: NodeId) -> Result<Vec<NodeId>, Memory>
    ensures { IfOk result (λ list. AreLooseBelow (numbers_in list.items) node.number document.now) }
{
    document.distinct_numbers();
    no_elements(alloc, children_at(document, node))
}

/// The nodes directly below the root or this node. None where there is no such node.
pub(crate) fn children_at(document: &Doc, node: NodeId) -> &[Rc<Node>]
    ensures { forest_of result.now ≡ children_of node.number document.now }
{
    if document.root() == node {
        return document.children();
    }
    match document.node(node) {
        None => &[],
        Some(node) => node.children(),
    }
}

// Those of these siblings that are no elements.
fn no_elements(alloc: Global, siblings: &[Rc<Node>]) -> Result<Vec<NodeId>, Memory>
    ensures { IfOk result (λ list. numbers_in list.items ≡ loose_among (forest_of siblings.now)) }
{
    let mut list = Vec::new(alloc);
    for sibling in siblings {
        push_unless_element(&mut list, sibling)?;
    }
    Ok(list)
}

fn push_unless_element(list: &mut Vec<NodeId>, node: &Rc<Node>) -> Result<(), Memory>
    ensures { OnOk result (numbers_in list.new.items ≡ numbers_in list.old.items ++ loose_tree (tree_of node.now.value)) }
{
    let node: &Node = node;
    if is_element(node.content()) {
        return Ok(());
    }
    list.push(node.id())?;
    Ok(())
}

fn is_element(content: &Content) -> bool
    ensures { result ≡ is_element (content_of content.now) }
{
    match content {
        Content::Element { .. } => true,
        Content::Text { .. } => false,
        Content::Comment { .. } => false,
        Content::Instruction { .. } => false,
    }
}
