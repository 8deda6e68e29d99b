// What an edit changed, for work that was done on the document before.
ghost use Rattle.std.specs.Prelude.{◌≡◌, ◌≤◌, ◌==◌, ◌++◌, length, drop, reverse, Some, IfOk, OnOk};
ghost use Rattle.std.specs.Option.{option_map};
ghost use Rattle.spec_document.specs.Forest.{labels};
ghost use Rattle.spec_document.specs.Place.{node_at, root_of};
ghost use Rattle.spec_change.specs.Change as spec;
ghost use Rattle.spec_change.specs.Change.{IsEdit, passed, sibling_labels};
ghost use Rattle.spec_edit.specs.Judged as judged;
ghost use Rattle.xt_tree.specs.View.{forest_of, tree_of, tree_at};
ghost use Rattle.xt_edit.specs.View.{edit_of};
ghost use Rattle.xt_edit.specs.Telling.{change_in, numbers_in, number_of, past_common};
ghost use Rattle.xt_edit.specs.Telling as telling;

use crate::Edit;
use crate::attributes::makes_anew;
use crate::site::spot_of;
use std::alloc::Global;
use std::rc::Rc;
use xt_text::{Memory, Path};
use xt_tree::{Doc, Node, NodeId};

/// What an edit changed: attributes of one element, or which children one node has and the content of texts, comments
/// and processing instructions among them. A child that keeps its number keeps all below it.
#[derive(Drop)]
pub struct Change {
    /// Whether attributes of the node changed, rather than its children.
    pub of_attributes: bool,
    /// The node.
    pub node: NodeId,
    /// The nodes above it, the root first.
    pub above: Vec<NodeId>,
    /// Its children before, in their order.
    pub before: Vec<NodeId>,
    /// Its children after, in their order.
    pub after: Vec<NodeId>,
    /// The nodes below it that are there no more, as they were removed, made anew or joined to another text, in
    /// document order.
    pub gone: Vec<NodeId>,
    /// The nodes below it that were put in or made anew, in document order.
    pub brought: Vec<NodeId>,
}

/// What the edit that made the new document of the old one changed. Takes time for the way to the node, for its
/// children before and after, and for the nodes that are gone and brought, but for no others.
pub fn change_of(alloc: Global, old: &Doc, edit: &Edit, new: &Doc) -> Result<Change, Memory>
    requires { IsEdit (edit_of edit.now) old.now new.now }
    ensures { IfOk result (λ change. spec.change_of (edit_of edit.now) old.now new.now ≡ Some (change_in change)) }
{
    old.distinct_numbers();
    match changed_path(edit) {
        None => unreachable!(),
        Some(path) => match way_to(alloc, old, path)? {
            None => unreachable!(),
            Some(way) => match new.children_at(path) {
                None => unreachable!(),
                Some(after) => change_among(alloc, changes_attributes(edit), way, after),
            },
        },
    }
}

// The way to the node whose attributes or children change. None for the path of the root.
fn changed_path(edit: &Edit) -> Option<&[u64]>
    ensures { option_map (λ path. path.now) result ≡ spec.changed_path (edit_of edit.now) }
{
    if changes_attributes(edit) {
        Some(path_of(edit).positions())
    } else {
        spot_of(path_of(edit)).map(|spot| spot.parent)
    }
}

// Whether the element stays, with other attributes.
fn changes_attributes(edit: &Edit) -> bool
    ensures { result ≡ spec.changes_attributes (edit_of edit.now) }
{
    match edit {
        Edit::SetAttribute { name, .. } => !makes_anew(name.as_str()),
        Edit::RemoveAttribute { name, .. } => !makes_anew(name.as_str()),
        Edit::Insert { .. } => false,
        Edit::Delete { .. } => false,
        Edit::SetText { .. } => false,
        Edit::Rename { .. } => false,
    }
}

fn path_of(edit: &Edit) -> &Path
    ensures { result.now ≡ judged.path_of (edit_of edit.now) }
{
    match edit {
        Edit::Insert { path, .. } => path,
        Edit::Delete { path } => path,
        Edit::SetText { path, .. } => path,
        Edit::SetAttribute { path, .. } => path,
        Edit::RemoveAttribute { path, .. } => path,
        Edit::Rename { path, .. } => path,
    }
}

/// A node, with those above it, the root first, and those directly below it.
#[derive(Drop)]
pub(crate) struct Way<'a> {
    pub node: NodeId,
    pub above: Vec<NodeId>,
    pub children: &'a [Rc<Node>],
}

/// The way to the node that these positions lead to. None exactly where there is no such node.
pub(crate) fn way_to<'a>(
    alloc: Global,
    document: &'a Doc,
    path: &[u64],
) -> Result<Option<Way<'a>>, Memory>
    ensures { IfOk result (λ way. option_map telling.way_in way ≡ telling.way_at document.now path.now) }
{
    let mut node = document.root();
    let mut above = Vec::new(alloc);
    let mut children = document.children();
    for position in path {
        match child_at(children, *position) {
            None => return Ok(None),
            Some(child) => {
                above.push(node)?;
                node = child.id();
                children = child.children();
            }
        }
    }
    Ok(Some(Way {
        node,
        above,
        children,
    }))
}

/// The sibling at this position, from 1.
pub(crate) fn child_at(siblings: &[Rc<Node>], position: u64) -> Option<&Node>
    ensures { option_map (λ node. tree_of node.now) result ≡ tree_at (forest_of siblings.now) position }
{
    if position == 0 || position > siblings.len() as u64 {
        return None;
    }
    Some(&siblings[(position - 1) as usize])
}

/// The change of the node that the way leads to, whose children are now these.
pub(crate) fn change_among(
    alloc: Global,
    of_attributes: bool,
    way: Way<'_>,
    after: &[Rc<Node>],
) -> Result<Change, Memory>
    ensures { IfOk result (λ change. change_in change
        ≡ telling.change_among of_attributes way.entry.node.number (numbers_in way.entry.above.items) way.entry.children.now after.now) }
{
    let rests = differing(way.children, after);
    let before = numbers(alloc, way.children)?;
    let after = numbers(alloc, after)?;
    let mut gone = Vec::new(alloc);
    push_numbers(&mut gone, rests.old)?;
    let mut brought = Vec::new(alloc);
    push_numbers(&mut brought, rests.new)?;
    Ok(Change {
        of_attributes,
        node: way.node,
        above: way.above,
        before,
        after,
        gone,
        brought,
    })
}

// Siblings before and after a change.
#[derive(Clone, Copy)]
struct Rests<'a> {
    old: &'a [Rc<Node>],
    new: &'a [Rc<Node>],
}

// The siblings between those at their front and those at their end that have the same numbers before and after.
fn differing<'a>(old: &'a [Rc<Node>], new: &'a [Rc<Node>]) -> Rests<'a>
    ensures { telling.rests_in result ≡ telling.differing number_of old.now new.now }
{
    let front = common_front(old, new);
    let old = &old[front..];
    let new = &new[front..];
    let end = common_end(old, new);
    Rests {
        old: &old[..old.len() - end],
        new: &new[..new.len() - end],
    }
}

// How many siblings at the front have the same numbers in both.
fn common_front(old: &[Rc<Node>], new: &[Rc<Node>]) -> usize
    ensures within_old { result ≤ length old.now }
    ensures within_new { result ≤ length new.now }
    ensures rests { past_common number_of old.now new.now ≡ record { old = drop result old.now; new = drop result new.now } }
{
    let mut count = 0;
    while count < old.len() && count < new.len() {
        if !is_same(&old[count], &new[count]) {
            return count;
        }
        count += 1;
    }
    count
}

// How many siblings at the end have the same numbers in both.
fn common_end(old: &[Rc<Node>], new: &[Rc<Node>]) -> usize
    ensures within_old { result ≤ length old.now }
    ensures within_new { result ≤ length new.now }
    ensures rests { past_common number_of (reverse old.now) (reverse new.now)
        ≡ record { old = drop result (reverse old.now); new = drop result (reverse new.now) } }
{
    let mut count = 0;
    while count < old.len() && count < new.len() {
        if !is_same(&old[old.len() - 1 - count], &new[new.len() - 1 - count]) {
            return count;
        }
        count += 1;
    }
    count
}

fn is_same(old: &Rc<Node>, new: &Rc<Node>) -> bool
    ensures { result ≡ (number_of old.now == number_of new.now) }
{
    old.id() == new.id()
}

/// The numbers of siblings, without what is below them.
pub(crate) fn numbers(alloc: Global, siblings: &[Rc<Node>]) -> Result<Vec<NodeId>, Memory>
    ensures { IfOk result (λ list. numbers_in list.items ≡ sibling_labels (forest_of siblings.now)) }
{
    let mut list = Vec::new(alloc);
    for sibling in siblings {
        list.push(sibling.id())?;
    }
    Ok(list)
}

/// Adds the numbers of siblings and of all below them.
pub(crate) fn push_numbers(list: &mut Vec<NodeId>, siblings: &[Rc<Node>]) -> Result<(), Memory>
    ensures { OnOk result (numbers_in list.new.items ≡ numbers_in list.old.items ++ labels (forest_of siblings.now)) }
{
    for sibling in siblings {
        list.push(sibling.id())?;
        push_numbers(list, sibling.children())?;
    }
    Ok(())
}
