// The faults of nodes themselves: of their names, declarations and attributes, and of their depth
// (Namespaces in XML 1.0, sections 3, 5 and 6).
ghost use Rattle.std.specs.Prelude.{◌≡◌, ◌+◌, [], List, map, reverse, nat_lt, slice_index, IfOk, OnOk};
ghost use Rattle.std.specs.Option.{option_copied};
ghost use Rattle.spec_document.specs.Scope as spec;
ghost use Rattle.spec_document.specs.Forest.{Forest};
ghost use Rattle.spec_document.specs.Declaration.{declared_all, within};
ghost use Rattle.spec_document.specs.Fault.{least};
ghost use Rattle.spec_document.specs.Balance.{LineNumbers};
ghost use Rattle.spec_document.specs.NodeFaults.{greatest_depth, is_wrong_element, is_wrong_target, is_wrong_use, expanded_by};
ghost use Rattle.spec_document.specs.NodeFaults.{attribute_faults, content_faults, node_faults};
ghost use Rattle.xt_names.specs.View.{use_in};
ghost use Rattle.xt_tree.specs.View.{content_of, written_of};
ghost use Rattle.xt_build.specs.Least.{merged};
ghost use Rattle.xt_build.specs.Left.{open_faults};
ghost use Rattle.xt_build.specs.Piece.{forest_in, IsWhole, piece_before};
ghost use Rattle.xt_build.specs.View.{found_of, piece_of, pieces_of};

use crate::Fault;
use crate::fault::keep_if;
use crate::piece::Piece;
use std::alloc::Global;
use xt_base::EditCode;
use xt_names::{
    AttributeNames, AttributeUse, Expanded, QName, Scope, is_barred, is_ncname, is_reserved_target,
    use_of,
};
use xt_text::{Memory, Text};
use xt_tree::{Content, Written};

// How deep an element may stand; the document element has depth 1.
const GREATEST_DEPTH: u64 = 256;

/// Finds the faults of the nodes, which stand in this scope below a parent of this depth.
pub(crate) fn check_nodes(
    alloc: Global,
    pieces: &[Piece],
    scope: &Scope,
    depth: u64,
    found: &mut Option<Fault>,
) -> Result<(), Memory>
    requires { IsWhole (pieces_of pieces.now) }
    ensures { OnOk result (found_of found.new ≡ merged (found_of found.old) (least (node_faults scope.now (depth + 1) (forest_in (pieces_of pieces.now))))) }
{
    let mut scopes: Vec<Scope> = Vec::new(alloc);
    for piece in pieces {
        check_piece(alloc, piece, scope, depth, &mut scopes, found)?;
    }
    Ok(())
}

// Finds the faults at a piece, where these are the scopes of the elements that are open before it, and
// keeps those that are open behind it.
fn check_piece(
    alloc: Global,
    piece: &Piece,
    outside: &Scope,
    depth: u64,
    scopes: &mut Vec<Scope>,
    found: &mut Option<Fault>,
) -> Result<(), Memory>
    ensures { OnOk result ((behind : List (Forest LineNumbers))
        → merged (found_of found.new) (least (open_faults outside.now (depth + 1) (reverse scopes.new.items) behind))
        ≡ merged (found_of found.old) (least (open_faults outside.now (depth + 1) (reverse scopes.old.items) (piece_before (piece_of piece.now) behind)))) }
{
    match piece {
        Piece::Ends => {
            let _ = scopes.pop();
            Ok(())
        }
        Piece::Begins {
            line,
            attribute_lines,
            content,
        } => match content {
            Content::Element { .. } => {
                let around = scopes.last().unwrap_or(outside);
                let inside = scope_inside(alloc, around, content)?;
                let depth = depth_below(depth, scopes.len());
                let lines = attribute_lines.as_slice();
                check_content(alloc, &inside, depth, content, *line, lines, found)?;
                scopes.push(inside)?;
                Ok(())
            }
            Content::Instruction { .. } => {
                let lines = attribute_lines.as_slice();
                check_content(alloc, outside, depth, content, *line, lines, found)
            }
            Content::Text { .. } | Content::Comment { .. } => Ok(()),
        },
    }
}

// How deep an element stands where so many are open, the outermost below a parent of this depth; past the greatest
// depth, some depth that is past it too.
fn depth_below(depth: u64, elements: usize) -> u64
    ensures { nat_lt greatest_depth result ≡ nat_lt greatest_depth (depth + 1 + elements) }
{
    depth.saturating_add(1).saturating_add(elements as u64)
}

/// Finds the faults of a node itself, not of what is below it: a bad name, prefix or declaration, an element that
/// stands too deep, and two attributes of one name. `inside` is the scope inside the node, for an element with its own
/// declarations, and `depth` is how deep it stands, from 1 for the document element. The node stands at this line, and
/// its attributes at theirs, in their order; one without a line has 0. `found` is the least fault so far, and becomes
/// that of both.
pub fn check_content(
    alloc: Global,
    inside: &Scope,
    depth: u64,
    content: &Content,
    line: u64,
    attribute_lines: &[u64],
    found: &mut Option<Fault>,
) -> Result<(), Memory>
    ensures { OnOk result (found_of found.new ≡ merged (found_of found.old) (least (content_faults inside.now depth
        (record { first = line; attributes = attribute_lines.now }) (content_of content.now)))) }
{
    match content {
        Content::Element { name, attributes } => {
            let is_wrong = is_wrong_element(inside, name);
            keep_if(found, is_wrong, EditCode::BadName, line);
            keep_if(found, depth > GREATEST_DEPTH, EditCode::TooDeep, line);
            check_attributes(alloc, inside, attributes.as_slice(), attribute_lines, found)
        }
        Content::Instruction { target, .. } => {
            keep_if(found, is_wrong_target(target), EditCode::BadName, line);
            Ok(())
        }
        Content::Text { .. } | Content::Comment { .. } => Ok(()),
    }
}

/// The scope inside a node with this content that stands in the scope `around`: an element's declarations count in it.
pub fn scope_inside(alloc: Global, around: &Scope, content: &Content) -> Result<Scope, Memory>
    ensures { IfOk result (λ inside. inside ≡ within (content_of content.now) around.now) }
{
    match content {
        Content::Element { attributes, .. } => declared(alloc, around, attributes.as_slice()),
        _ => around.copy(),
    }
}

// The scope inside an element of these attributes.
fn declared(alloc: Global, around: &Scope, attributes: &[Written]) -> Result<Scope, Memory>
    ensures { IfOk result (λ inside. inside ≡ declared_all (map written_of attributes.now) around.now) }
{
    let mut scope = around.copy()?;
    for attribute in attributes {
        scope.declare(alloc, attribute.name.as_str(), attribute.value.as_str())?;
    }
    Ok(scope)
}

// Whether the name is no QName, or its prefix is not declared.
fn is_wrong_element(scope: &Scope, name: &Text) -> bool
    ensures { result ≡ is_wrong_element scope.now name.now }
{
    match QName::read(name.as_str()) {
        None => true,
        Some(name) => !scope.has_prefix_of(&name),
    }
}

// Whether the target is no NCName, or `xml` in any case.
fn is_wrong_target(target: &Text) -> bool
    ensures { result ≡ is_wrong_target target.now }
{
    !is_ncname(target.as_str()) || is_reserved_target(target.as_str())
}

// Finds the faults of an element's attributes, whose names are read in the scope inside it.
fn check_attributes(
    alloc: Global,
    scope: &Scope,
    attributes: &[Written],
    lines: &[u64],
    found: &mut Option<Fault>,
) -> Result<(), Memory>
    ensures { OnOk result (found_of found.new ≡ merged (found_of found.old) (least (attribute_faults scope.now [] lines.now (map written_of attributes.now)))) }
{
    let mut names = AttributeNames::new(alloc);
    for (i, attribute) in attributes.iter().enumerate() {
        let line = line_at(lines, i);
        let written = attribute.name.as_str();
        let usage = use_of(written);
        let name = expanded(alloc, scope, &usage)?;
        let is_wrong = is_wrong(&usage, name.as_ref(), &attribute.value);
        keep_if(found, is_wrong, EditCode::BadName, line);
        let is_double = names.insert(alloc, written, name.as_ref())?;
        keep_if(found, is_double, EditCode::DoubleAttribute, line);
    }
    Ok(())
}

// The line of an attribute, 0 where none is told.
fn line_at(lines: &[u64], i: usize) -> u64
    ensures { result ≡ slice_index lines.now i }
{
    lines.get(i).copied().unwrap_or(0)
}

// The expanded name of an attribute; a declaration has none.
fn expanded(
    alloc: Global,
    scope: &Scope,
    usage: &AttributeUse<'_>,
) -> Result<Option<Expanded>, Memory>
    ensures { IfOk result (λ name. name ≡ expanded_by scope.now (use_in usage.now)) }
{
    match usage {
        AttributeUse::Names { name } => scope.attribute_name(alloc, name),
        AttributeUse::Declares { .. } | AttributeUse::NoName => Ok(None),
    }
}

// Whether an attribute has no good name, or is a declaration that is barred.
fn is_wrong(usage: &AttributeUse<'_>, name: Option<&Expanded>, value: &Text) -> bool
    ensures { (scope : spec.Scope) → option_copied name.entry ≡ expanded_by scope (use_in usage.now) → result ≡ is_wrong_use scope (use_in usage.now) value.now }
{
    match usage {
        AttributeUse::Declares { prefix } => is_barred(prefix, value.as_str()),
        AttributeUse::Names { .. } => name.is_none(),
        AttributeUse::NoName => true,
    }
}
