// Moves a node within its document.
ghost use Rattle.std.specs.Prelude.{◌≡◌, ◌≢◌, Ok, IfOk};
ghost use Rattle.spec_document.specs.Forest.{plain};
ghost use Rattle.spec_move.specs.Move as spec;
ghost use Rattle.spec_move.specs.Move.{moved_nodes, moved_plain};
ghost use Rattle.xt_edit.specs.Moving.{AreEnds, HasPosition, IsTargetOf, Stand, moved_in, moved_within};
ghost use Rattle.xt_edit.specs.Site.{IsThere, spot_in};
ghost use Rattle.xt_edit.specs.Standing.{Permits, Stands};
ghost use Rattle.xt_edit.specs.View.{AreBelow, Edits, EditsPlain};

use crate::carrying::{carry, move_within};
use crate::check::lesser;
use crate::insertion::target_at;
use crate::labels::keeps_labels;
use crate::placing::{move_fault, next_after, placed};
use crate::site::{Site, Spot, origin_at, refused, spot_of, stand};
use crate::{EditFault, Edited};
use spec_move::moves_ask_no_labels;
use std::alloc::Global;
use xt_base::EditCode;
use xt_build::Parent;
use xt_text::Path;
use xt_tree::{Doc, NodeId};

/// A spot that a node comes to, and what stands above it.
#[derive(Clone, Copy)]
pub(crate) struct Target<'a> {
    pub spot: Spot<'a>,
    pub parent: Parent,
}

/// A node that moves, and where it comes to.
#[derive(Clone, Copy)]
pub(crate) struct Ends<'a> {
    pub site: Site<'a>,
    pub to: Target<'a>,
}

/// Moves the node at the first path, with all below it, before what is at the second, or behind the last child where
/// that path is one past it; both are read in the document before. Where the paths are equal it stays. The nodes keep
/// their numbers, unless declarations in scope (Namespaces in XML 1.0, section 6) or the xml:space in force (XML 1.0,
/// section 2.10) are others at the new place: then they are made anew and numbered from `first` on. Texts that become
/// neighbours are one, with the number of the first; white space does not stand directly below the root.
///
/// Refused as 6 where the first path leaves the tree, or the second one does or its last position is past the one after
/// the last child; else as 7 where either is that of the root, or the second leads below a node that is neither the root
/// nor an element; and as 15 where the node would stand below itself. A move to another parent is refused with the least
/// of these: 9 where the document would not have exactly one document element, or text directly below the root; 10 for
/// a name that is no QName, or a prefix that is not declared there; 11 for an element at depth 257, or a node more than
/// one level below the deepest; 12 where no number is left; and 14 where an element would have two attributes of one
/// name.
pub fn relocate(
    alloc: Global,
    document: &Doc,
    path: &Path,
    other: &Path,
    first: NodeId,
) -> Result<Edited, EditFault>
    requires { AreBelow first.number document.now }
    ensures labelled { Edits document.now first.number result (moved_nodes first.number path.now other.now document.now) }
    ensures plain { EditsPlain first.number result (moved_plain first.number path.now other.now (plain document.now.nodes)) }
    ensures below { IfOk result (λ edited. AreBelow edited.next.number edited.document) }
{
    moves_ask_no_labels();
    stand(document);
    parted(alloc, document, path, other, first)
}

// The same, parted by where the node comes to.
fn parted(
    alloc: Global,
    document: &Doc,
    path: &Path,
    other: &Path,
    first: NodeId,
) -> Result<Edited, EditFault>
    requires stands { Stands document.now }
    requires permits { Permits document.now (moved_nodes first.number path.now other.now document.now) }
    ensures { Edits document.now first.number result (moved_nodes first.number path.now other.now document.now) }
{
    match ends_of(document, path, other) {
        Err(code) => Err(refused(code)),
        Ok(ends) => {
            if path.same(other) {
                return stayed(alloc, document, first);
            }
            if is_same_way(ends.site.spot.parent, ends.to.spot.parent) {
                return within_parent(alloc, document, ends, first);
            }
            if goes_through(ends.to.spot.parent, path.positions()) {
                return Err(refused(EditCode::MoveBelowItself));
            }
            to_another(alloc, document, ends, first)
        }
    }
}

/// The node at the first path, and where the second one leads; else the least fault of the paths.
pub(crate) fn ends_of<'a>(
    document: &'a Doc,
    path: &'a Path,
    other: &'a Path,
) -> Result<Ends<'a>, EditCode>
    ensures { AreEnds document.now path.now other.now result }
{
    match origin_at(document, path) {
        Ok(site) => match target_of(document, other) {
            Ok(to) => Ok(Ends { site, to }),
            Err(code) => Err(code),
        },
        Err(code) => match target_of(document, other) {
            Ok(_) => Err(code),
            Err(next) => Err(lesser(code, Some(next))),
        },
    }
}

// Where nodes come to by this path: 7 for that of the root, and as `target_at` says.
fn target_of<'a>(document: &Doc, path: &'a Path) -> Result<Target<'a>, EditCode>
    ensures { IsTargetOf document.now path.now result }
{
    match spot_of(path) {
        None => Err(EditCode::WrongKind),
        Some(spot) => match target_at(document, spot) {
            Ok(parent) => Ok(Target { spot, parent }),
            Err(code) => Err(code),
        },
    }
}

/// Whether both lead to one node.
pub(crate) fn is_same_way(way: &[u64], other: &[u64]) -> bool
    ensures { result ≡ spec.is_path way.now other.now }
{
    way == other
}

// Whether the way leads to the node that the other one leads to, or to one below it.
fn goes_through(way: &[u64], other: &[u64]) -> bool
    ensures { result ≡ spec.goes_through way.now other.now }
{
    way.starts_with(other)
}

// The node stays where it is.
fn stayed(alloc: Global, document: &Doc, first: NodeId) -> Result<Edited, EditFault>
    ensures { Edits document.now first.number result (Ok (record { nodes = document.now.nodes; made = 0 })) }
{
    let document = document.copy(alloc)?;
    Ok(Edited {
        document,
        next: first,
    })
}

// The node stands elsewhere below its parent. Nothing is judged: names, declarations and depths are what they were.
fn within_parent(
    alloc: Global,
    document: &Doc,
    ends: Ends<'_>,
    first: NodeId,
) -> Result<Edited, EditFault>
    requires there { IsThere document.now (spot_in ends.site.spot) ends.site.node.now }
    requires apart { ends.to.spot.position ≢ ends.site.spot.position }
    requires within { HasPosition document.now (spot_in ends.site.spot) ends.to.spot.position }
    requires before { Stands document.now }
    requires after { Stands (moved_within document.now ends.site ends.to.spot.position) }
    ensures { Edits document.now first.number result
        (Ok (record { nodes = (moved_within document.now ends.entry.site ends.entry.to.spot.position).nodes; made = 0 })) }
{
    let document = move_within(alloc, document, ends.site, ends.to.spot.position)?;
    Ok(Edited {
        document,
        next: first,
    })
}

// The node stands below another parent, if it and what is below it have no fault there.
fn to_another(
    alloc: Global,
    document: &Doc,
    ends: Ends<'_>,
    first: NodeId,
) -> Result<Edited, EditFault>
    requires stand { Stand document.now ends }
    requires before { Stands document.now }
    requires permits { Permits document.now (moved_in first.number document.now ends) }
    ensures { Edits document.now first.number result (moved_in first.number document.now ends.entry) }
{
    let keeps = keeps_labels(alloc, document, ends.site.spot.parent, ends.to.spot.parent)?;
    match move_fault(alloc, document, ends, keeps, first)? {
        Some(code) => Err(refused(code)),
        None => {
            let nodes = placed(alloc, document, ends, keeps, first)?;
            let next = next_after(keeps, first, nodes.list());
            let carried = carry(alloc, document, ends, nodes.list());
            drop(nodes);
            let document = carried?;
            Ok(Edited { document, next })
        }
    }
}
