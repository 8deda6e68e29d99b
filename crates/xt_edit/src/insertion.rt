// Puts nodes in.
ghost use Rattle.std.specs.Prelude.{◌≡◌, IfOk};
ghost use Rattle.std.specs.Option.{ForSome};
ghost use Rattle.spec_document.specs.Document.{nodes_of};
ghost use Rattle.spec_document.specs.Place.{node_at, scope_at};
ghost use Rattle.spec_edit.specs.Edit as spec;
ghost use Rattle.spec_edit.specs.Edit.{Insert, edited_nodes, parent_by};
ghost use Rattle.xt_edit.specs.Inserted.{AreBuilt, Parts};
ghost use Rattle.xt_edit.specs.Moving.{IsTarget};
ghost use Rattle.xt_edit.specs.Site.{spot_in};
ghost use Rattle.xt_edit.specs.View.{AreBelow, Edits};
ghost use Rattle.xt_tree.specs.View.{forest_of};

use crate::kind::is_element;
use crate::seam::put_between;
use crate::site::{Spot, refused, spot_of, stand};
use crate::{EditFault, Edited};
use std::alloc::Global;
use std::rc::Rc;
use xt_base::EditCode;
use xt_build::{BuildFault, BuiltNodes, Parent, build_nodes};
use xt_io::Line;
use xt_text::Path;
use xt_tree::{Doc, Node, NodeId};

/// Puts the nodes of these lines before the node at the path, or after the last child where the path is one past it.
/// Texts that become neighbours are one, with the number of the first; white space directly below the root is dropped.
///
/// Refused as 2 and 8 to 14 with the least line; 6 where the path leaves the tree or its last position is past the one
/// after the last child; 7 for the root, and where the parent is neither the root nor an element.
pub fn insert(
    alloc: Global,
    document: &Doc,
    path: &Path,
    body: &[Line],
    first: NodeId,
) -> Result<Edited, EditFault>
    requires { AreBelow first.number document.now }
    ensures edit { Edits document.now first.number result (edited_nodes first.number (Insert path.now body.now) document.now) }
    ensures below { IfOk result (λ edited. AreBelow edited.next.number edited.document) }
{
    stand(document);
    match spot_of(path) {
        None => Err(refused(EditCode::WrongKind)),
        Some(spot) => {
            let parent = parent_at(document, spot)?;
            let built = built_below(alloc, document, spot.parent, body, first, parent)?;
            let index = (spot.position - 1) as usize;
            let list = built.nodes.list();
            let document = put_between(alloc, document, spot.parent, index, index, list)?;
            Ok(Edited {
                document,
                next: built.next,
            })
        }
    }
}

// What is to stand above nodes that are put there, or the refusal.
fn parent_at(document: &Doc, spot: Spot<'_>) -> Result<Parent, EditFault>
    ensures { Parts document.now (spot_in spot.entry) result }
{
    match target_at(document, spot) {
        Ok(parent) => Ok(parent),
        Err(code) => Err(refused(code)),
    }
}

/// What is to stand above nodes that come to this spot: 6 where nothing does or there is no such position, 7 where it
/// may have no nodes below it.
pub(crate) fn target_at(document: &Doc, spot: Spot<'_>) -> Result<Parent, EditCode>
    ensures { IsTarget document.now (spot_in spot.entry) result }
{
    match document.children_at(spot.parent) {
        None => Err(EditCode::NoPlace),
        Some(siblings) => match parent_of(document, spot.parent) {
            None => Err(EditCode::WrongKind),
            Some(parent) => {
                if is_position(spot.position, siblings) {
                    Ok(parent)
                } else {
                    Err(EditCode::NoPlace)
                }
            }
        },
    }
}

// What the node that these positions lead to is to nodes below it: the root or an element.
fn parent_of(document: &Doc, path: &[u64]) -> Option<Parent>
    ensures { ForSome (node_at document.now path.now) (λ node. result ≡ parent_by node.content node) }
{
    match document.node_at(path) {
        None => Some(Parent::Root {
            elements: count_elements(document.children()),
        }),
        Some(node) => {
            if is_element(node.content()) {
                Some(Parent::Element {
                    depth: path.len() as u64,
                })
            } else {
                None
            }
        }
    }
}

fn count_elements(siblings: &[Rc<Node>]) -> u64
    ensures { result ≡ spec.element_count (forest_of siblings.now) }
{
    let mut count = 0;
    for sibling in siblings {
        if is_element(sibling.content()) {
            count += 1;
        }
    }
    count
}

// Whether a child has this position, or it is the one after the last.
fn is_position(position: u64, siblings: &[Rc<Node>]) -> bool
    ensures { result ≡ spec.is_position position (forest_of siblings.now) }
{
    1 <= position && position <= siblings.len() as u64 + 1
}

// The nodes of these lines, for a parent that these positions lead to.
fn built_below(
    alloc: Global,
    document: &Doc,
    path: &[u64],
    body: &[Line],
    first: NodeId,
    parent: Parent,
) -> Result<BuiltNodes, EditFault>
    ensures { ForSome (node_at document.now path.now) (λ node. AreBuilt first.number result (nodes_of (scope_at node) first.number parent body.now)) }
{
    let scope = document.scope_at(alloc, path)?;
    match build_nodes(alloc, body, &scope, first, parent) {
        Ok(built) => Ok(built),
        Err(BuildFault::Memory) => Err(EditFault::Memory),
        Err(BuildFault::Refused(fault)) => Err(EditFault::Refused {
            code: fault.code,
            line: fault.line,
        }),
    }
}
