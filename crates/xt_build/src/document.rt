// From lines to documents.
ghost use Rattle.std.specs.Prelude.{◌≡◌, ◌+◌, IfOk};
ghost use Rattle.spec_document.specs.Forest.{size};
ghost use Rattle.spec_document.specs.Document as spec;
ghost use Rattle.spec_document.specs.Document.{document_by, document_of, nodes_by, nodes_of};
ghost use Rattle.xt_build.specs.Piece.{forest_in, IsWhole};
ghost use Rattle.xt_build.specs.View.{Builds, document_in, nodes_in, pieces_of, ReadsPieces};

use crate::balance::unbalanced;
use crate::make::make_nodes;
use crate::names::check_nodes;
use crate::numbers::{check_number, check_numbers};
use crate::piece::{Piece, pieces};
use crate::read::read_events;
use crate::top::check_top;
use crate::{BuildFault, Fault};
use spec_document::Parent;
use std::alloc::Global;
use xt_base::EditCode;
use xt_io::Line;
use xt_names::Scope;
use xt_tree::{Doc, NodeId, Nodes};

/// A document, and the first number that none of its nodes has.
#[derive(Drop)]
pub struct Built {
    pub document: Doc,
    /// The number after the last.
    pub next: NodeId,
}

/// Siblings, and the first number that none of them has, nor any node below them.
#[derive(Drop)]
pub struct BuiltNodes {
    pub nodes: Nodes,
    /// The number after the last.
    pub next: NodeId,
}

/// The document of the lines, its names read in this scope, its nodes numbered in document order from
/// `first` on, the root first. Else the least fault of the lines: a line that is not UTF-8 or no line of
/// PYX; lines that are not balanced, not exactly one document element, or text beside it that is not
/// white space; a bad name, prefix or declaration; an element at depth 257; a node that would have the
/// number 2^62; an element with two attributes of one name (XML 1.0, sections 2 and 3; Namespaces in XML
/// 1.0, sections 3 to 6).
pub fn build(
    alloc: Global,
    body: &[Line],
    scope: &Scope,
    first: NodeId,
) -> Result<Built, BuildFault>
    ensures answer { Builds document_in result (document_of scope.now first.number body.now) }
    ensures next { IfOk result (λ built. built.next.number ≡ first.number + 1 + size built.document.nodes) }
{
    let pieces = read_pieces(alloc, body)?;
    document(alloc, pieces, scope, first)
}

// The document of these pieces, or the least of its faults.
fn document(
    alloc: Global,
    pieces: Vec<Piece>,
    scope: &Scope,
    first: NodeId,
) -> Result<Built, BuildFault>
    requires { IsWhole (pieces_of pieces.items) }
    ensures answer { Builds document_in result (document_by scope.now first.number (forest_in (pieces_of pieces.items))) }
    ensures next { IfOk result (λ built. built.next.number ≡ first.number + 1 + size built.document.nodes) }
{
    let whole = pieces.as_slice();
    let mut found = None;
    check_top(alloc, whole, Some(0), &mut found)?;
    check_nodes(alloc, whole, scope, 0, &mut found)?;
    check_number(first.number, 0, &mut found);
    let second = first.number.saturating_add(1);
    check_numbers(whole, Some(0), second, &mut found);
    if let Some(fault) = found {
        return Err(BuildFault::Refused(fault));
    }
    let built = make_nodes(alloc, pieces, Some(0), second)?;
    let next = built.next;
    let document = Doc::numbered(alloc, first, built.nodes)?;
    Ok(Built { document, next })
}

/// The same for siblings that are to stand below this parent, with this scope inside it.
pub fn build_nodes(
    alloc: Global,
    body: &[Line],
    scope: &Scope,
    first: NodeId,
    parent: Parent,
) -> Result<BuiltNodes, BuildFault>
    ensures answer { Builds nodes_in result (nodes_of scope.now first.number parent body.now) }
    ensures next { IfOk result (λ built. built.next.number ≡ first.number + size built.nodes) }
{
    let pieces = read_pieces(alloc, body)?;
    siblings(alloc, pieces, scope, first.number, parent)
}

// How many elements a root has besides; None below an element.
fn elements_beside(parent: Parent) -> Option<u64>
    ensures { result ≡ spec.elements_beside parent }
{
    match parent {
        Parent::Root { elements } => Some(elements),
        Parent::Element { .. } => None,
    }
}

// How deep the parent is.
fn depth_of(parent: Parent) -> u64
    ensures { result ≡ spec.depth_of parent }
{
    match parent {
        Parent::Root { .. } => 0,
        Parent::Element { depth } => depth,
    }
}

// The siblings of these pieces, or the least of their faults.
fn siblings(
    alloc: Global,
    pieces: Vec<Piece>,
    scope: &Scope,
    first: u64,
    parent: Parent,
) -> Result<BuiltNodes, BuildFault>
    requires { IsWhole (pieces_of pieces.items) }
    ensures answer { Builds nodes_in result (nodes_by scope.now first parent (forest_in (pieces_of pieces.items))) }
    ensures next { IfOk result (λ built. built.next.number ≡ first + size built.nodes) }
{
    let elements = elements_beside(parent);
    let whole = pieces.as_slice();
    let mut found = None;
    check_top(alloc, whole, elements, &mut found)?;
    check_nodes(alloc, whole, scope, depth_of(parent), &mut found)?;
    check_numbers(whole, elements, first, &mut found);
    if let Some(fault) = found {
        return Err(BuildFault::Refused(fault));
    }
    Ok(make_nodes(alloc, pieces, elements, first)?)
}

// The pieces of the lines, where each line has an event and they are balanced.
fn read_pieces(alloc: Global, body: &[Line]) -> Result<Vec<Piece>, BuildFault>
    ensures { ReadsPieces body.now result }
{
    let events = read_events(alloc, body)?;
    if let Some(line) = unbalanced(alloc, events.as_slice())? {
        let code = EditCode::Unbalanced;
        return Err(BuildFault::Refused(Fault { code, line }));
    }
    Ok(pieces(alloc, events.as_slice())?)
}
