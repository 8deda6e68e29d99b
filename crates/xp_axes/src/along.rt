// The way from the root to a node, and what its axes take on it.
ghost use Rattle.std.specs.Prelude.{◌≡◌, ◌++◌, IfOk, OnOk};
ghost use Rattle.xt_tree.specs.View.{forest_of, itself};
ghost use Rattle.xp_axes.specs.Along as spec;

use crate::extent::{Extent, after, before, below, beside, is_above, is_itself};
use spec_document::Axis;
use std::rc::Rc;
use xt_text::Memory;
use xt_tree::{Node, NodeId, NodeRef, Part};

// Adds siblings and all that is below them.
fn take_all(found: &mut Vec<NodeRef>, siblings: &[Rc<Node>]) -> Result<(), Memory>
    ensures { OnOk result (found.new.items ≡ found.old.items ++ spec.taken Extent.WithAllBelow (forest_of siblings.now)) }
{
    for sibling in siblings {
        found.push(NodeRef::of(sibling.id()))?;
        take_all(found, sibling.children())?;
    }
    Ok(())
}

// Adds siblings themselves.
fn take_themselves(found: &mut Vec<NodeRef>, siblings: &[Rc<Node>]) -> Result<(), Memory>
    ensures { OnOk result (found.new.items ≡ found.old.items ++ spec.themselves (forest_of siblings.now)) }
{
    for sibling in siblings {
        found.push(NodeRef::of(sibling.id()))?;
    }
    Ok(())
}

// Adds siblings to this extent.
fn take(found: &mut Vec<NodeRef>, extent: Extent, siblings: &[Rc<Node>]) -> Result<(), Memory>
    ensures { OnOk result (found.new.items ≡ found.old.items ++ spec.taken extent (forest_of siblings.now)) }
{
    match extent {
        Extent::Nothing => Ok(()),
        Extent::Themselves => take_themselves(found, siblings),
        Extent::WithAllBelow => take_all(found, siblings),
    }
}

/// Adds the node where it is taken.
pub fn take_if(found: &mut Vec<NodeRef>, is_taken: bool, node: NodeRef) -> Result<(), Memory>
    ensures { OnOk result (found.new.items ≡ found.old.items ++ spec.if_taken is_taken node) }
{
    if is_taken {
        found.push(node)?;
    }
    Ok(())
}

// Whether the way ends at a node of the tree, where these positions are left.
fn is_end(part: Part, path: &[u64]) -> bool
    ensures { result ≡ spec.is_end part path.now }
{
    match part {
        Part::Itself => path.is_empty(),
        Part::Attribute(_) | Part::Namespace(_) => false,
    }
}

// Adds what the axis takes at and below the node of the tree that the way leads to.
fn end(
    found: &mut Vec<NodeRef>,
    axis: Axis,
    node: NodeRef,
    id: NodeId,
    children: &[Rc<Node>],
) -> Result<(), Memory>
    ensures { OnOk result (found.new.items ≡ found.old.items ++ spec.ended axis node node.part id.number (forest_of children.now)) }
{
    match node.part {
        Part::Itself => {
            take_if(found, is_itself(axis), node)?;
            take(found, below(axis), children)
        }
        Part::Attribute(_) | Part::Namespace(_) => {
            take_if(found, is_above(axis, true), NodeRef::of(id))?;
            take_if(found, is_itself(axis), node)?;
            take(found, beside(axis), children)
        }
    }
}

/// Adds what stands on the axis of the node, in document order, at or below the node of the tree of
/// this number, from which these positions lead to it.
pub fn along(
    found: &mut Vec<NodeRef>,
    axis: Axis,
    node: NodeRef,
    path: &[u64],
    id: NodeId,
    children: &[Rc<Node>],
) -> Result<(), Memory>
    ensures { OnOk result (found.new.items ≡ found.old.items ++ spec.along axis node.part (spec.ended axis node node.part) path.now id.number (forest_of children.now)) }
{
    match path {
        [] => end(found, axis, node, id, children),
        [position, rest @ ..] => {
            let is_end = is_end(node.part, rest);
            take_if(found, is_above(axis, is_end), NodeRef::of(id))?;
            let index = position.saturating_sub(1) as usize;
            if index >= children.len() {
                return take(found, before(axis, is_end), children);
            }
            take(found, before(axis, is_end), &children[..index])?;
            let child = &children[index];
            along(found, axis, node, rest, child.id(), child.children())?;
            take(found, after(axis, is_end), &children[index + 1..])
        }
    }
}
