// Children that were put in another order: those that are gone are told by the order of those that stay.
ghost use Rattle.std.specs.Prelude.{◌≡◌, ◌++◌, ℕ, IfOk, OnOk};
ghost use Rattle.std.specs.Option.{option_map};
ghost use Rattle.spec_document.specs.Forest.{Forest, labels};
ghost use Rattle.xt_edit.specs.MoveTelling.{node_before, number_in, reordered_among};
ghost use Rattle.xt_edit.specs.Reordered as spec;
ghost use Rattle.xt_edit.specs.Telling.{change_in, numbers_in};
ghost use Rattle.xt_tree.specs.View.{forest_of, tree_of};

use crate::change::{Change, Way, numbers, push_numbers};
use std::alloc::Global;
use std::rc::Rc;
use xt_text::Memory;
use xt_tree::{Node, NodeId};

/// The change of the node that the way leads to, among whose children the one of this number was put elsewhere, and
/// which are now these. The others that stay have kept their order.
pub(crate) fn reordered(
    alloc: Global,
    way: Way<'_>,
    moved: NodeId,
    after: &[Rc<Node>],
) -> Result<Change, Memory>
    ensures { IfOk result (λ change. change_in change
        ≡ reordered_among way.entry.node.number (numbers_in way.entry.above.items) moved.number (forest_of way.entry.children.now) (forest_of after.now)) }
{
    let before = numbers(alloc, way.children)?;
    let after = numbers(alloc, after)?;
    let gone = gone_among(alloc, way.children, after.as_slice(), moved)?;
    Ok(Change {
        of_attributes: false,
        node: way.node,
        above: way.above,
        before,
        after,
        gone,
        brought: Vec::new(alloc),
    })
}

// The numbers of those of the children, and of all below them, that are gone where these are the numbers of those
// after. One pass over both, as all but the moved one have kept their order.
fn gone_among(
    alloc: Global,
    children: &[Rc<Node>],
    after: &[NodeId],
    moved: NodeId,
) -> Result<Vec<NodeId>, Memory>
    ensures { IfOk result (λ list. numbers_in list.items ≡ spec.gone_among moved.number (numbers_in after.now) (forest_of children.now)) }
{
    let kept = others_than(alloc, after, moved)?;
    let staying = if kept.len() < after.len() {
        Some(moved)
    } else {
        None
    };
    let mut gone = Vec::new(alloc);
    push_gone(&mut gone, children, kept.as_slice(), staying)?;
    Ok(gone)
}

// The numbers but this one.
fn others_than(alloc: Global, numbers: &[NodeId], moved: NodeId) -> Result<Vec<NodeId>, Memory>
    ensures { IfOk result (λ list. numbers_in list.items ≡ spec.others_than moved.number (numbers_in numbers.now)) }
{
    let mut others = Vec::new(alloc);
    for number in numbers {
        if *number != moved {
            others.push(*number)?;
        }
    }
    Ok(others)
}

// Adds the numbers of siblings, and of all below them, that are neither the one that stays though it moved, nor among
// those that are kept, in their order.
fn push_gone(
    list: &mut Vec<NodeId>,
    siblings: &[Rc<Node>],
    kept: &[NodeId],
    staying: Option<NodeId>,
) -> Result<(), Memory>
    ensures { OnOk result (numbers_in list.new.items
        ≡ numbers_in list.old.items ++ spec.gone_from (option_map number_in staying) (numbers_in kept.now) (forest_of siblings.now)) }
{
    let mut kept = kept;
    for sibling in siblings {
        kept = pass(list, sibling, kept, staying)?;
    }
    Ok(())
}

// Adds what is gone of one sibling, and says which are kept of those behind it.
fn pass<'a>(
    list: &mut Vec<NodeId>,
    sibling: &Rc<Node>,
    kept: &'a [NodeId],
    staying: Option<NodeId>,
) -> Result<&'a [NodeId], Memory>
    ensures { IfOk result (λ rest. (behind : Forest ℕ)
        → numbers_in list.new.items ++ spec.gone_from (option_map number_in staying) (numbers_in rest.now) behind
        ≡ numbers_in list.old.items ++ spec.gone_from (option_map number_in staying) (numbers_in kept.now) (node_before sibling.now behind)) }
{
    match past_next(kept, sibling.id()) {
        Some(rest) => Ok(rest),
        None => {
            push_unless(list, sibling, staying)?;
            Ok(kept)
        }
    }
}

// The numbers behind the first, where that is this one.
fn past_next(numbers: &[NodeId], number: NodeId) -> Option<&[NodeId]>
    ensures { option_map (λ rest. numbers_in rest.now) result ≡ spec.past_next (numbers_in numbers.now) number.number }
{
    match numbers.split_first() {
        None => None,
        Some((next, rest)) => { if *next == number { Some(rest) } else { None } }
    }
}

// Adds the number of a node, and those of all below it, unless it is the one that stays.
fn push_unless(
    list: &mut Vec<NodeId>,
    node: &Rc<Node>,
    staying: Option<NodeId>,
) -> Result<(), Memory>
    ensures { OnOk result (numbers_in list.new.items ≡ numbers_in list.old.items
        ++ spec.numbers_unless (spec.is_staying (option_map number_in staying) (tree_of node.now.value).number)
        (tree_of node.now.value).number (labels (tree_of node.now.value).children)) }
{
    if is_staying(staying, node.id()) {
        return Ok(());
    }
    list.push(node.id())?;
    push_numbers(list, node.children())
}

fn is_staying(staying: Option<NodeId>, number: NodeId) -> bool
    ensures { result ≡ spec.is_staying (option_map number_in staying) number.number }
{
    match staying {
        None => false,
        Some(moved) => moved == number,
    }
}
