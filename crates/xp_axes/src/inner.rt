// What stands at and below a node, of which each node is tested as it is walked.
ghost use Rattle.std.specs.Prelude.{◌≡◌, ◌++◌, filter, IfOk, OnOk, IsSome};
ghost use Rattle.std.specs.Option.{ForSome};
ghost use Rattle.xt_syntax.specs.View.{test_of};
ghost use Rattle.xt_tree.specs.View.{forest_of, tree_of, item_of, itself, numbered_node};
ghost use Rattle.xp_axes.specs.Along as spec;
ghost use Rattle.xp_axes.specs.View.{is_passing, IsNodeOf, AreNodesOf};

use crate::along::take_if;
use crate::extent::{Extent, below, is_itself};
use crate::passing::{passes, passes_as};
use spec_document::Axis;
use std::alloc::Global;
use std::rc::Rc;
use xt_syntax::Test;
use xt_text::Memory;
use xt_tree::{Doc, Node, NodeId, NodeRef, Part};

/// Whether the axis takes nothing but the node itself and what is below it.
pub fn is_inner(axis: Axis, part: Part) -> bool
    ensures { result ≡ spec.is_inner axis part }
{
    match part {
        Part::Itself => matches!(
            axis,
            Axis::Itself | Axis::Child | Axis::Descendant | Axis::DescendantOrSelf
        ),
        Part::Attribute(_) | Part::Namespace(_) => false,
    }
}

// The nodes directly below a node.
fn children_of(document: &Doc, id: NodeId) -> &[Rc<Node>]
    ensures { ForSome (numbered_node document.now id.number) (λ node. forest_of result.now ≡ node.children) }
{
    if document.root() == id {
        return document.children();
    }
    match document.node(id) {
        None => &[],
        Some(node) => node.children(),
    }
}

// Adds a node where it passes.
fn keep(
    found: &mut Vec<NodeRef>,
    alloc: Global,
    document: &Doc,
    axis: Axis,
    test: &Test,
    node: &Rc<Node>,
) -> Result<(), Memory>
    requires { IsNodeOf document.now (tree_of node.now.value).number (tree_of node.now.value).content
        (tree_of node.now.value).children }
    ensures { OnOk result (found.new.items ≡ found.old.items
        ++ spec.if_taken (is_passing document.now axis (test_of test.now) (itself (tree_of node.now.value).number))
        (itself (tree_of node.now.value).number)) }
{
    let name = NodeRef::of(node.id());
    let is_passing = passes_as(alloc, document, axis, test, node.content().kind(), &name)?;
    take_if(found, is_passing, name)
}

// Adds the siblings that pass.
fn keep_themselves(
    found: &mut Vec<NodeRef>,
    alloc: Global,
    document: &Doc,
    axis: Axis,
    test: &Test,
    siblings: &[Rc<Node>],
) -> Result<(), Memory>
    requires { AreNodesOf document.now (forest_of siblings.now) }
    ensures { OnOk result (found.new.items ≡ found.old.items
        ++ filter (is_passing document.now axis (test_of test.now)) (spec.themselves (forest_of siblings.now))) }
{
    for sibling in siblings {
        keep(found, alloc, document, axis, test, sibling)?;
    }
    Ok(())
}

// Adds those that pass of siblings and of all that is below them.
fn keep_all(
    found: &mut Vec<NodeRef>,
    alloc: Global,
    document: &Doc,
    axis: Axis,
    test: &Test,
    siblings: &[Rc<Node>],
) -> Result<(), Memory>
    requires { AreNodesOf document.now (forest_of siblings.now) }
    ensures { OnOk result (found.new.items ≡ found.old.items
        ++ filter (is_passing document.now axis (test_of test.now)) (spec.taken Extent.WithAllBelow (forest_of siblings.now))) }
{
    for sibling in siblings {
        keep(found, alloc, document, axis, test, sibling)?;
        keep_all(found, alloc, document, axis, test, sibling.children())?;
    }
    Ok(())
}

// Adds those that pass of what the axis takes of the children of its node.
fn keep_below(
    found: &mut Vec<NodeRef>,
    alloc: Global,
    document: &Doc,
    axis: Axis,
    test: &Test,
    children: &[Rc<Node>],
) -> Result<(), Memory>
    requires { AreNodesOf document.now (forest_of children.now) }
    ensures { OnOk result (found.new.items ≡ found.old.items
        ++ filter (is_passing document.now axis (test_of test.now)) (spec.taken (spec.below axis) (forest_of children.now))) }
{
    match below(axis) {
        Extent::Nothing => Ok(()),
        Extent::Themselves => keep_themselves(found, alloc, document, axis, test, children),
        Extent::WithAllBelow => keep_all(found, alloc, document, axis, test, children),
    }
}

// Adds the node itself where the axis takes it and it passes.
fn keep_itself(
    found: &mut Vec<NodeRef>,
    alloc: Global,
    document: &Doc,
    axis: Axis,
    test: &Test,
    node: &NodeRef,
) -> Result<(), Memory>
    requires { IsSome (item_of document.now node.now) }
    ensures { OnOk result (found.new.items ≡ found.old.items
        ++ filter (is_passing document.now axis (test_of test.now)) (spec.if_taken (spec.is_itself axis) node.now)) }
{
    if !is_itself(axis) {
        return Ok(());
    }
    let is_passing = passes(alloc, document, axis, test, node)?;
    take_if(found, is_passing, *node)
}

/// The nodes that pass of the node itself and of those below it, as far as the axis takes these, in document
/// order.
pub fn at_and_below(
    alloc: Global,
    document: &Doc,
    axis: Axis,
    test: &Test,
    node: &NodeRef,
) -> Result<Vec<NodeRef>, Memory>
    requires { IsSome (item_of document.now node.now) }
    ensures { IfOk result (λ kept. ForSome (numbered_node document.now node.now.node.number)
        (λ it. kept.items ≡ filter (is_passing document.now axis (test_of test.now))
        (spec.if_taken (spec.is_itself axis) node.now ++ spec.taken (spec.below axis) it.children))) }
{
    document.distinct_numbers();
    let mut found = Vec::new(alloc);
    let children = children_of(document, node.node);
    keep_itself(&mut found, alloc, document, axis, test, node)?;
    keep_below(&mut found, alloc, document, axis, test, children)?;
    Ok(found)
}
