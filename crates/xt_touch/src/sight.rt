// The change of an edit as the source is seen.
ghost use Rattle.std.specs.Prelude.{◌≡◌, ◌<◌, ℕ, List, ◌++◌, ◌∷◌, [], true, length, IfOk, OnOk};
ghost use Rattle.std.specs.List.{filter};
ghost use Rattle.spec_document.specs.Forest.{labels};
ghost use Rattle.spec_change.specs.Change.{is_among};
ghost use Rattle.spec_touch.specs.Leads as spec;
ghost use Rattle.spec_touch.specs.Leads.{AreTold, Leads};
ghost use Rattle.xt_edit.specs.Telling.{change_in, numbers_in};
ghost use Rattle.xt_touch.specs.Missing.{missing_among, missing_tree};
ghost use Rattle.xt_tree.specs.View.{forest_of, tree_of};

use crate::children::children_at;
use std::alloc::Global;
use std::rc::Rc;
use xt_edit::Change;
use xt_text::Memory;
use xt_tree::{Doc, Node, NodeId};

/// The change between two documents, the old one and the new one, as they are seen, where it leads from the one to the
/// other. Takes time for the children of the node of the change and for the nodes that go and come, but for no others.
pub fn seen_change(alloc: Global, change: &Change, old: &Doc, new: &Doc) -> Result<Change, Memory>
    ensures { IfOk result (λ seen. Leads (spec.seen_change (change_in change.now) old.now new.now) old.now new.now
        → change_in seen ≡ spec.seen_change (change_in change.now) old.now new.now) }
{
    old.distinct_numbers();
    new.distinct_numbers();
    let were = children_at(old, change.node);
    let are = children_at(new, change.node);
    let above = Vec::from_slice(alloc, change.above.as_slice())?;
    let before = those_of(alloc, old, were, change.before.as_slice())?;
    let after = those_of(alloc, new, are, change.after.as_slice())?;
    let gone = missing(alloc, differing(were, are), new)?;
    let brought = missing(alloc, differing(are, were), old)?;
    Ok(Change {
        of_attributes: change.of_attributes,
        node: change.node,
        above,
        before,
        after,
        gone,
        brought,
    })
}

// Whether the document has the node below its root.
fn has(document: &Doc, node: NodeId) -> bool
    ensures { result ≡ is_among (labels document.now.nodes) node.number }
{
    document.node(node).is_some()
}

// Those of these nodes that the document has below its root. The children, which it has, stand among them in their
// order, so only what is not the next child is looked up.
fn those_of(
    alloc: Global,
    document: &Doc,
    children: &[Rc<Node>],
    nodes: &[NodeId],
) -> Result<Vec<NodeId>, Memory>
    ensures { IfOk result (λ list. AreTold (labels document.now.nodes) (forest_of children.now)
        → numbers_in list.items ≡ filter (is_among (labels document.now.nodes)) (numbers_in nodes.now)) }
{
    let mut list = Vec::new(alloc);
    let mut next = 0;
    for node in nodes {
        next = push_if_there(&mut list, document, children, next, *node)?;
    }
    Ok(list)
}

// Adds the node where the document has it, and gives the index of the child that is the next one then.
fn push_if_there(
    list: &mut Vec<NodeId>,
    document: &Doc,
    children: &[Rc<Node>],
    next: usize,
    node: NodeId,
) -> Result<usize, Memory>
    ensures { OnOk result (AreTold (labels document.now.nodes) (forest_of children.now)
        → numbers_in list.new.items ≡ numbers_in list.old.items ++ filter (is_among (labels document.now.nodes)) (node.number ∷ [])) }
{
    if is_at(children, next, node) {
        list.push(node)?;
        return Ok(next + 1);
    }
    if has(document, node) {
        list.push(node)?;
    }
    Ok(next)
}

// Whether the sibling at this index is this node.
fn is_at(siblings: &[Rc<Node>], index: usize, node: NodeId) -> bool
    ensures bound { result ≡ true → index < length siblings.now }
    ensures told { (numbers : List ℕ) → AreTold numbers (forest_of siblings.now) → result ≡ true → is_among numbers node.number ≡ true }
{
    index < siblings.len() && id_of(&siblings[index]) == node
}

fn id_of(node: &Rc<Node>) -> NodeId
    ensures { result.number ≡ (tree_of node.now.value).number }
{
    node.id()
}

// Of these siblings those that the other document does not have, each with all below it, in document order.
fn missing(alloc: Global, siblings: &[Rc<Node>], other: &Doc) -> Result<Vec<NodeId>, Memory>
    ensures { IfOk result (λ list. numbers_in list.items ≡ missing_among (labels other.now.nodes) (forest_of siblings.now)) }
{
    let mut list = Vec::new(alloc);
    for sibling in siblings {
        push_if_missing(&mut list, sibling, other)?;
    }
    Ok(list)
}

fn push_if_missing(list: &mut Vec<NodeId>, node: &Rc<Node>, other: &Doc) -> Result<(), Memory>
    ensures { OnOk result (numbers_in list.new.items ≡ numbers_in list.old.items ++ missing_tree (labels other.now.nodes) (tree_of node.now.value)) }
{
    let node: &Node = node;
    if has(other, node.id()) {
        return Ok(());
    }
    list.push(node.id())?;
    push_all(list, node.children())
}

// Adds these siblings and all below them.
fn push_all(list: &mut Vec<NodeId>, siblings: &[Rc<Node>]) -> Result<(), Memory>
    ensures { OnOk result (numbers_in list.new.items ≡ numbers_in list.old.items ++ labels (forest_of siblings.now)) }
{
    for sibling in siblings {
        list.push(sibling.id())?;
        push_all(list, sibling.children())?;
    }
    Ok(())
}

// The siblings without those at their front and at their end that stand there among the others too, so that few are
// left to be looked up.
fn differing<'a>(siblings: &'a [Rc<Node>], others: &[Rc<Node>]) -> &'a [Rc<Node>]
    ensures { (numbers : List ℕ) → AreTold numbers (forest_of others.now)
        → missing_among numbers (forest_of result.now) ≡ missing_among numbers (forest_of siblings.now) }
{
    before_common_end(past_common_front(siblings, others), others)
}

fn past_common_front<'a>(siblings: &'a [Rc<Node>], others: &[Rc<Node>]) -> &'a [Rc<Node>]
    ensures { (numbers : List ℕ) → AreTold numbers (forest_of others.now)
        → missing_among numbers (forest_of result.now) ≡ missing_among numbers (forest_of siblings.now) }
{
    let mut count = 0;
    while count < siblings.len() {
        if !is_at(others, count, id_of(&siblings[count])) {
            return &siblings[count..];
        }
        count += 1;
    }
    &[]
}

fn before_common_end<'a>(siblings: &'a [Rc<Node>], others: &[Rc<Node>]) -> &'a [Rc<Node>]
    ensures { (numbers : List ℕ) → AreTold numbers (forest_of others.now)
        → missing_among numbers (forest_of result.now) ≡ missing_among numbers (forest_of siblings.now) }
{
    let mut left = siblings.len();
    let mut other = others.len();
    while left > 0 && other > 0 {
        if !is_at(others, other - 1, id_of(&siblings[left - 1])) {
            return &siblings[..left];
        }
        left -= 1;
        other -= 1;
    }
    &siblings[..left]
}
