// Takes a node from one place of its document to another.
ghost use Rattle.std.specs.Prelude.{◌≡◌, ◌≢◌, ◌≤◌, ◌++◌, IfOk, OnOk};
ghost use Rattle.spec_move.specs.Move as spec;
ghost use Rattle.spec_move.specs.Move.{path_below};
ghost use Rattle.xt_edit.specs.Moving.{HasPosition, IsFewerBy, Stand, carried_in, moved_within, put_there_in, tree_in};
ghost use Rattle.xt_edit.specs.Site.{IsThere, spot_in};
ghost use Rattle.xt_edit.specs.Standing.{Stands};
ghost use Rattle.xt_tree.specs.View.{forest_of};

use crate::relocation::Ends;
use crate::seam::{children_of, put_between, take_out};
use crate::site::{Site, Spot};
use std::alloc::Global;
use std::rc::Rc;
use xt_text::Memory;
use xt_tree::{Doc, Node, Nodes};

/// The document in which the node stands before the sibling that was at this other position, or behind the last. It is
/// taken out and put in again: so the cost is the width and the depth, and the nodes below it, but none between.
pub(crate) fn move_within(
    alloc: Global,
    document: &Doc,
    site: Site<'_>,
    position: u64,
) -> Result<Doc, Memory>
    requires there { IsThere document.now (spot_in site.spot) site.node.now }
    requires apart { position ≢ site.spot.position }
    requires within { HasPosition document.now (spot_in site.spot) position }
    requires before { Stands document.now }
    requires after { Stands (moved_within document.now site position) }
    ensures { IfOk result (λ new. new ≡ moved_within document.now site.entry position) }
{
    let node = node_alone(alloc, document, site)?;
    let moved = put_within(alloc, document, site, position, node.list());
    drop(node);
    moved
}

// The same, where this is the node alone.
fn put_within(
    alloc: Global,
    document: &Doc,
    site: Site<'_>,
    position: u64,
    node: &[Rc<Node>],
) -> Result<Doc, Memory>
    requires there { IsThere document.now (spot_in site.spot) site.node.now }
    requires apart { position ≢ site.spot.position }
    requires within { HasPosition document.now (spot_in site.spot) position }
    requires before { Stands document.now }
    requires after { Stands (moved_within document.now site position) }
    requires node { forest_of node.now ≡ tree_in site.node.now }
    ensures { IfOk result (λ new. new ≡ moved_within document.now site.entry position) }
{
    let parent = site.spot.parent;
    let own = site.spot.position;
    if position - 1 == own {
        let index = (own - 1) as usize;
        return put_between(alloc, document, parent, index, index + 1, node);
    }
    let left = take_out(alloc, document, site)?;
    let fewer = fewer_by(document, &left, parent);
    let index = (position_without(own, fewer, position) - 1) as usize;
    let moved = put_between(alloc, &left, parent, index, index, node);
    drop(left);
    moved
}

/// The document in which these nodes stand below another parent, and the node is gone.
pub(crate) fn carry(
    alloc: Global,
    document: &Doc,
    ends: Ends<'_>,
    nodes: &[Rc<Node>],
) -> Result<Doc, Memory>
    requires stand { Stand document.now ends }
    requires before { Stands document.now }
    requires after { Stands (carried_in document.now ends (forest_of nodes.now)) }
    ensures { IfOk result (λ new. new ≡ carried_in document.now ends.entry (forest_of nodes.now)) }
{
    let left = take_out(alloc, document, ends.site)?;
    let fewer = fewer_by(document, &left, ends.site.spot.parent);
    let carried = put_there(alloc, &left, ends, fewer, nodes);
    drop(left);
    carried
}

// The document without the node in which these nodes stand at the other place. There are so many fewer siblings where
// the node stood.
fn put_there(
    alloc: Global,
    left: &Doc,
    ends: Ends<'_>,
    fewer: u64,
    nodes: &[Rc<Node>],
) -> Result<Doc, Memory>
    requires stands { Stands (put_there_in left.now ends fewer (forest_of nodes.now)) }
    requires position { 1 ≤ ends.to.spot.position }
    ensures { IfOk result (λ new. new ≡ put_there_in left.now ends.entry fewer (forest_of nodes.now)) }
{
    let to = ends.to.spot;
    let way = way_without(alloc, ends.site.spot, fewer, to.parent)?;
    let index = (to.position - 1) as usize;
    let put = put_between(alloc, left, way.as_slice(), index, index, nodes);
    drop(way);
    put
}

/// The positions of a path once the sibling at this spot was taken away, by which there are so many fewer.
pub(crate) fn way_without(
    alloc: Global,
    spot: Spot<'_>,
    fewer: u64,
    path: &[u64],
) -> Result<Vec<u64>, Memory>
    ensures { IfOk result (λ way. way.items ≡ path_below spot.entry.parent.now spot.entry.position fewer path.now) }
{
    let mut way = Vec::new(alloc);
    push_below(&mut way, spot.parent, spot.position, fewer, path)?;
    Ok(way)
}

// Adds the positions of a path once the sibling at this position below these was taken away.
fn push_below(
    way: &mut Vec<u64>,
    above: &[u64],
    gone: u64,
    fewer: u64,
    path: &[u64],
) -> Result<(), Memory>
    ensures { OnOk result (way.new.items ≡ way.old.items ++ path_below above.now gone fewer path.now) }
{
    match path.split_first() {
        None => Ok(()),
        Some((position, below)) => match above.split_first() {
            None => {
                way.push(position_without(gone, fewer, *position))?;
                push_positions(way, below)
            }
            Some((here, above)) => {
                way.push(*position)?;
                if *here == *position {
                    push_below(way, above, gone, fewer, below)
                } else {
                    push_positions(way, below)
                }
            }
        },
    }
}

fn push_positions(way: &mut Vec<u64>, positions: &[u64]) -> Result<(), Memory>
    ensures { OnOk result (way.new.items ≡ way.old.items ++ positions.now) }
{
    way.extend_from_slice(positions)?;
    Ok(())
}

fn position_without(gone: u64, fewer: u64, position: u64) -> u64
    ensures { result ≡ spec.position_without gone fewer position }
{
    if gone < position {
        position.saturating_sub(fewer)
    } else {
        position
    }
}

/// By how many nodes there are fewer below the node that these positions lead to in both.
pub(crate) fn fewer_by(document: &Doc, left: &Doc, path: &[u64]) -> u64
    ensures { IsFewerBy document.now left.now path.now result }
{
    let before = children_of(document, path).len();
    let after = children_of(left, path).len();
    before.saturating_sub(after) as u64
}

/// The node alone, shared.
pub(crate) fn node_alone(alloc: Global, document: &Doc, site: Site<'_>) -> Result<Nodes, Memory>
    requires { IsThere document.now (spot_in site.spot) site.node.now }
    ensures { IfOk result (λ nodes. nodes ≡ tree_in site.entry.node.now) }
{
    let siblings = children_of(document, site.spot.parent);
    let index = (site.spot.position - 1) as usize;
    let mut nodes = Nodes::new(alloc);
    nodes.push_shared(&siblings[index])?;
    Ok(nodes)
}
