// Steps (XPath 1.0, section 2.1).
ghost use Rattle.std.specs.Prelude.{◌≡◌, filter, IfOk, IsSome};
ghost use Rattle.spec_document.specs.Axis as spec;
ghost use Rattle.spec_document.specs.Order.{entries_of};
ghost use Rattle.spec_meaning.specs.Step.{stepped};
ghost use Rattle.xt_syntax.specs.View.{test_of};
ghost use Rattle.xt_tree.specs.View.{item_of};
ghost use Rattle.xp_axes.specs.Along as ways;
ghost use Rattle.xp_axes.specs.View.{is_passing, on_axis};
ghost use Rattle.spec_node.specs.Naming.{ref_of, same_ref};

use crate::along::along;
use crate::inner::{at_and_below, is_inner};
use crate::own::{attributes, namespaces};
use crate::passing::passing;
use spec_document::Axis;
use std::alloc::Global;
use xt_syntax::Test;
use xt_text::{Memory, Path};
use xt_tree::{Doc, NodeRef, Part};

// Whether the nodes of the axis are counted in reverse document order.
fn is_reverse(axis: Axis) -> bool
    ensures { result ≡ spec.is_reverse axis }
{
    matches!(
        axis,
        Axis::Ancestor | Axis::AncestorOrSelf | Axis::Preceding | Axis::PrecedingSibling
    )
}

// Nodes in document order, in the order of the axis.
fn in_axis_order(axis: Axis, mut nodes: Vec<NodeRef>) -> Vec<NodeRef>
    ensures { result.items ≡ spec.in_axis_order axis nodes.items }
{
    if is_reverse(axis) {
        nodes.reverse();
    }
    nodes
}

// The nodes of the axis of a node of a place, in document order.
fn walked(
    alloc: Global,
    document: &Doc,
    node: &NodeRef,
    axis: Axis,
    path: &Path,
) -> Result<Vec<NodeRef>, Memory>
    ensures { IfOk result (λ nodes. nodes.items ≡ ways.along axis node.now.part (ways.ended axis node.now node.now.part) path.now document.now.root document.now.nodes) }
{
    let mut found = Vec::new(alloc);
    along(
        &mut found,
        axis,
        *node,
        path.positions(),
        document.root(),
        document.children(),
    )?;
    Ok(found)
}

// The nodes of the axis, in document order, by the way from the root.
fn by_way(alloc: Global, document: &Doc, node: &NodeRef, axis: Axis) -> Result<Vec<NodeRef>, Memory>
    requires item { IsSome (item_of document.now node.now) }
    requires walked { ways.IsWalked axis node.now.part }
    ensures { IfOk result (λ nodes. nodes.items ≡ on_axis document.now axis node.now) }
{
    match document.place(alloc, node)? {
        None => Ok(Vec::new(alloc)),
        Some(path) => walked(alloc, document, node, axis, &path),
    }
}

// The nodes of the axis, in document order.
fn all_on(alloc: Global, document: &Doc, node: &NodeRef, axis: Axis) -> Result<Vec<NodeRef>, Memory>
    requires { IsSome (item_of document.now node.now) }
    ensures { IfOk result (λ nodes. nodes.items ≡ on_axis document.now axis node.now) }
{
    document.distinct_numbers();
    match node.part {
        Part::Itself => match axis {
            Axis::Attribute => attributes(alloc, document, node.node),
            Axis::Namespace => namespaces(alloc, document, node.node),
            _ => by_way(alloc, document, node, axis),
        },
        _ => by_way(alloc, document, node, axis),
    }
}

// The nodes of the axis that pass, in document order.
fn kept_on(
    alloc: Global,
    document: &Doc,
    node: &NodeRef,
    axis: Axis,
    test: &Test,
) -> Result<Vec<NodeRef>, Memory>
    requires { IsSome (item_of document.now node.now) }
    ensures { IfOk result (λ kept. kept.items
        ≡ filter (is_passing document.now axis (test_of test.now)) (on_axis document.now axis node.now)) }
{
    document.distinct_numbers();
    if is_inner(axis, node.part) {
        return at_and_below(alloc, document, axis, test, node);
    }
    let nodes = all_on(alloc, document, node, axis)?;
    passing(alloc, document, axis, test, nodes.as_slice())
}

/// The nodes of the axis of a node that pass the node test, in the order of the axis (XPath 1.0, sections
/// 2.2 and 2.3).
pub fn step(
    alloc: Global,
    document: &Doc,
    node: &NodeRef,
    axis: Axis,
    test: &Test,
) -> Result<Vec<NodeRef>, Memory>
    requires { IsSome (item_of document.now node.now) }
    ensures { IfOk result (λ nodes. nodes.items ≡ stepped ref_of same_ref (entries_of document.now) axis (test_of test.now) node.now) }
{
    document.distinct_numbers();
    let kept = kept_on(alloc, document, node, axis, test)?;
    Ok(in_axis_order(axis, kept))
}
