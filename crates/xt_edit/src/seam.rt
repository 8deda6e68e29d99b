// Nodes in place of others, where texts that become neighbours are one.
ghost use Rattle.std.specs.Prelude.{◌≡◌, ◌+◌, ◌≤◌, IfOk, OnOk};
ghost use Rattle.std.specs.Option.{ForSome};
ghost use Rattle.spec_document.specs.Forest.{followed};
ghost use Rattle.spec_document.specs.Place.{node_at};
ghost use Rattle.spec_edit.specs.Splice.{met};
ghost use Rattle.xt_edit.specs.Changed.{taken_out, with_children};
ghost use Rattle.xt_edit.specs.Seam as spec;
ghost use Rattle.xt_edit.specs.Seam.{alone, between, one_of, put_in};
ghost use Rattle.xt_edit.specs.Site.{IsThere, spot_in};
ghost use Rattle.xt_edit.specs.Standing.{Stands};
ghost use Rattle.xt_tree.specs.View.{forest_of};

use crate::kind::is_text;
use crate::site::Site;
use std::alloc::Global;
use std::rc::Rc;
use xt_text::Memory;
use xt_tree::{Doc, Node, Nodes};

/// The document without this node. Texts that become neighbours are one, with the number of the first.
pub(crate) fn take_out(alloc: Global, document: &Doc, site: Site<'_>) -> Result<Doc, Memory>
    requires there { IsThere document.now (spot_in site.spot) site.node.now }
    requires stands { Stands (taken_out document.now site) }
    ensures { IfOk result (λ new. new ≡ taken_out document.now site.entry) }
{
    let index = (site.spot.position - 1) as usize;
    let none = Nodes::new(alloc);
    put_between(
        alloc,
        document,
        site.spot.parent,
        index,
        index + 1,
        none.list(),
    )
}

/// The document in which these nodes stand in place of the children from the index `from` up to, but not including,
/// `to`, of the node that the positions lead to; an index past the last child is the one after it. Texts that become
/// neighbours are one, with the number of the first.
pub(crate) fn put_between(
    alloc: Global,
    document: &Doc,
    parent: &[u64],
    from: usize,
    to: usize,
    nodes: &[Rc<Node>],
) -> Result<Doc, Memory>
    requires order { from ≤ to }
    requires stands { Stands (with_children (put_in from to (forest_of nodes.now)) parent.now document.now) }
    ensures { IfOk result (λ new. new ≡ with_children (put_in from to (forest_of nodes.now)) parent.now document.now) }
{
    let siblings = children_of(document, parent);
    let from = from.min(siblings.len());
    let before = text_before(siblings, from);
    let after = text_at(siblings, to);
    let start = from - one_of(before);
    let end = to + one_of(after);
    let joined = between(alloc, before, nodes, after)?;
    document.spliced(alloc, parent, start, end, joined)
}

/// The nodes directly below the node that these positions lead to.
pub(crate) fn children_of<'a>(document: &'a Doc, parent: &[u64]) -> &'a [Rc<Node>]
    ensures { ForSome (node_at document.now parent.now) (λ node. forest_of result.now ≡ node.children) }
{
    document.children_at(parent).unwrap_or(&[])
}

// The sibling at this index, where it is a text.
fn text_at(siblings: &[Rc<Node>], index: usize) -> Option<&Rc<Node>>
    ensures text { alone result ≡ spec.text_at index (forest_of siblings.now) }
    ensures within { index + one_of (alone result) ≤ u64.MAX }
{
    if index >= siblings.len() {
        return None;
    }
    let sibling = &siblings[index];
    if is_text(sibling.content()) {
        Some(sibling)
    } else {
        None
    }
}

// The sibling before this index, where it is a text.
fn text_before(siblings: &[Rc<Node>], index: usize) -> Option<&Rc<Node>>
    ensures { alone result ≡ spec.text_before index (forest_of siblings.now) }
{
    if index == 0 {
        None
    } else {
        text_at(siblings, index - 1)
    }
}

fn one_of(text: Option<&Rc<Node>>) -> usize
    ensures { result ≡ one_of (alone text.entry) }
{
    match text {
        None => 0,
        Some(_) => 1,
    }
}

// These nodes between these texts.
fn between(
    alloc: Global,
    before: Option<&Rc<Node>>,
    nodes: &[Rc<Node>],
    after: Option<&Rc<Node>>,
) -> Result<Nodes, Memory>
    ensures { IfOk result (λ joined. joined ≡ between (alone before.entry) (forest_of nodes.now) (alone after.entry)) }
{
    let mut joined = Nodes::new(alloc);
    push_text(alloc, &mut joined, before)?;
    push_all(alloc, &mut joined, nodes)?;
    push_text(alloc, &mut joined, after)?;
    Ok(joined)
}

fn push_text(alloc: Global, joined: &mut Nodes, text: Option<&Rc<Node>>) -> Result<(), Memory>
    ensures { OnOk result (joined.new ≡ met joined.old (spec.begun (alone text.entry))) }
{
    match text {
        None => Ok(()),
        Some(text) => joined.push_meeting(alloc, text),
    }
}

// Only the first of the nodes meets what stands before them.
fn push_all(alloc: Global, joined: &mut Nodes, nodes: &[Rc<Node>]) -> Result<(), Memory>
    ensures { OnOk result (joined.new ≡ met joined.old (forest_of nodes.now)) }
{
    match nodes.split_first() {
        None => Ok(()),
        Some((first, others)) => {
            joined.push_meeting(alloc, first)?;
            push_others(joined, others)
        }
    }
}

fn push_others(joined: &mut Nodes, nodes: &[Rc<Node>]) -> Result<(), Memory>
    ensures { OnOk result (joined.new ≡ followed joined.old (forest_of nodes.now)) }
{
    for node in nodes {
        joined.push_shared(node)?;
    }
    Ok(())
}
