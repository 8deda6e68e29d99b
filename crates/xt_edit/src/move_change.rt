// What a move changed, for work that was done on the document before.
ghost use Rattle.std.specs.Prelude.{◌≡◌, false, IfOk};
ghost use Rattle.std.specs.Option.{option_map};
ghost use Rattle.spec_change.specs.Change.{change_at};
ghost use Rattle.spec_move.specs.Changed.{IsMove, in_order, move_change};
ghost use Rattle.xt_edit.specs.Changed.{taken_out};
ghost use Rattle.xt_edit.specs.MoveTelling.{AreReorderedAt, AreToldAt, AreToldBetween, between_in, move_change_in};
ghost use Rattle.xt_edit.specs.Site.{IsThere, spot_in};
ghost use Rattle.xt_edit.specs.Standing.{Stands};
ghost use Rattle.xt_edit.specs.Telling.{change_in};

use crate::carrying::{fewer_by, way_without};
use crate::change::{Change, change_among, way_to};
use crate::relocation::{Ends, ends_of, is_same_way};
use crate::reordered::reordered;
use crate::seam::take_out;
use crate::site::stand;
use std::alloc::Global;
use xt_text::{Memory, Path};
use xt_tree::{Doc, NodeId};

/// What a move changed: the children of one node, or those of two.
#[derive(Drop)]
pub enum MoveChange {
    /// The node stands elsewhere below its parent, whose children are in another order.
    InOrder(Change),
    /// The node stands below another parent.
    Between {
        /// What changed where the node was taken away.
        left: Change,
        /// What changed where it was put in, from the document without the node on.
        entered: Change,
    },
}

/// What the move that made the new document of the old one changed. Takes time for the ways to both parents, for their
/// children before and after, and for the nodes that are gone and brought, but for no others. None where the way to the
/// new parent goes with a text that had nodes below it, as none has in a document that was read.
pub fn move_change_of(
    alloc: Global,
    old: &Doc,
    path: &Path,
    other: &Path,
    new: &Doc,
) -> Result<Option<MoveChange>, Memory>
    requires { IsMove path.now other.now old.now new.now }
    ensures { IfOk result (λ change. option_map move_change_in change ≡ move_change path.now other.now old.now new.now) }
{
    stand(old);
    match ends_of(old, path, other) {
        Err(_) => unreachable!(),
        Ok(ends) => {
            let from = ends.site.spot;
            if is_same_way(from.parent, ends.to.spot.parent) {
                in_order(alloc, old, from.parent, ends.site.node.id(), new)
            } else {
                between(alloc, old, ends, new)
            }
        }
    }
}

// The node of this number stands elsewhere below its parent.
fn in_order(
    alloc: Global,
    old: &Doc,
    parent: &[u64],
    moved: NodeId,
    new: &Doc,
) -> Result<Option<MoveChange>, Memory>
    requires { AreReorderedAt moved.number old.now new.now parent.now }
    ensures { IfOk result (λ change. option_map move_change_in change ≡ option_map in_order (change_at false old.now new.now parent.now)) }
{
    match way_to(alloc, old, parent)? {
        None => Ok(None),
        Some(way) => match new.children_at(parent) {
            None => Ok(None),
            Some(after) => {
                let change = reordered(alloc, way, moved, after)?;
                Ok(Some(MoveChange::InOrder(change)))
            }
        },
    }
}

// The node stands below another parent. Told by way of the document without it.
fn between(
    alloc: Global,
    old: &Doc,
    ends: Ends<'_>,
    new: &Doc,
) -> Result<Option<MoveChange>, Memory>
    requires there { IsThere old.now (spot_in ends.site.spot) ends.site.node.now }
    requires stands { Stands old.now }
    requires told { AreToldBetween old.now ends new.now }
    ensures { IfOk result (λ change. option_map move_change_in change ≡ between_in old.now ends.entry new.now) }
{
    let left = take_out(alloc, old, ends.site)?;
    let change = by_way_of(alloc, old, &left, ends, new);
    drop(left);
    change
}

// The same, where this is the document without the node.
fn by_way_of(
    alloc: Global,
    old: &Doc,
    left: &Doc,
    ends: Ends<'_>,
    new: &Doc,
) -> Result<Option<MoveChange>, Memory>
    requires there { IsThere old.now (spot_in ends.site.spot) ends.site.node.now }
    requires left { left.now ≡ taken_out old.now ends.site }
    requires told { AreToldBetween old.now ends new.now }
    ensures { IfOk result (λ change. option_map move_change_in change ≡ between_in old.now ends.entry new.now) }
{
    let spot = ends.site.spot;
    let fewer = fewer_by(old, left, spot.parent);
    let way = way_without(alloc, spot, fewer, ends.to.spot.parent)?;
    let entered = change_of_children(alloc, left, way.as_slice(), new);
    drop(way);
    match entered? {
        None => Ok(None),
        Some(entered) => match change_of_children(alloc, old, spot.parent, left)? {
            None => Ok(None),
            Some(left) => Ok(Some(MoveChange::Between { left, entered })),
        },
    }
}

// The change of the children of the node that these positions lead to. None where they lead nowhere.
fn change_of_children(
    alloc: Global,
    old: &Doc,
    path: &[u64],
    new: &Doc,
) -> Result<Option<Change>, Memory>
    requires { AreToldAt old.now new.now path.now }
    ensures { IfOk result (λ change. option_map change_in change ≡ change_at false old.now new.now path.now) }
{
    match way_to(alloc, old, path)? {
        None => Ok(None),
        Some(way) => match new.children_at(path) {
            None => Ok(None),
            Some(after) => {
                let change = change_among(alloc, false, way, after)?;
                Ok(Some(change))
            }
        },
    }
}
