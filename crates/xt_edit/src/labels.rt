// Whether nodes keep their numbers where they come to.
ghost use Rattle.std.specs.Prelude.{◌≡◌, map, IfOk, bytes_eq, codes};
ghost use Rattle.std.specs.Option.{ForSome};
ghost use Rattle.std.specs.Str.{chars};
ghost use Rattle.spec_document.specs.Place.{node_at, scope_at};
ghost use Rattle.spec_move.specs.Move as spec;
ghost use Rattle.xt_edit.specs.Placing as placing;
ghost use Rattle.xt_tree.specs.View.{content_of, written_of};

use crate::attributes::is_space_name;
use crate::change::child_at;
use std::alloc::Global;
use xt_text::Memory;
use xt_tree::{Content, Doc, Written};

/// Whether the declarations in scope and the xml:space in force are the same inside the nodes that these positions lead
/// to.
pub(crate) fn keeps_labels(
    alloc: Global,
    document: &Doc,
    before: &[u64],
    after: &[u64],
) -> Result<bool, Memory>
    ensures { IfOk result (λ keeps. ForSome (node_at document.now before.now) (λ old. ForSome (node_at document.now after.now) (λ new.
        keeps ≡ spec.keeps_labels old new))) }
{
    let is_same = same_truth(preserves(document, before), preserves(document, after));
    if !is_same {
        return Ok(false);
    }
    has_same_scope(alloc, document, before, after)
}

fn has_same_scope(
    alloc: Global,
    document: &Doc,
    before: &[u64],
    after: &[u64],
) -> Result<bool, Memory>
    ensures { IfOk result (λ same. ForSome (node_at document.now before.now) (λ old. ForSome (node_at document.now after.now) (λ new.
        same ≡ spec.same_scope (scope_at old) (scope_at new)))) }
{
    let old = document.scope_at(alloc, before)?;
    let new = document.scope_at(alloc, after)?;
    Ok(old.same(&new))
}

fn same_truth(one: bool, other: bool) -> bool
    ensures { result ≡ spec.same_truth one other }
{
    one == other
}

// Whether xml:space preserves white space inside the node that these positions lead to.
fn preserves(document: &Doc, path: &[u64]) -> bool
    ensures { ForSome (node_at document.now path.now) (λ node. result ≡ spec.preserves node.above) }
{
    let mut is_preserved = false;
    let mut siblings = document.children();
    for position in path {
        match child_at(siblings, *position) {
            None => return is_preserved,
            Some(node) => {
                is_preserved = preserves_inside(is_preserved, node.content());
                siblings = node.children();
            }
        }
    }
    is_preserved
}

// The same inside a node with this content, by whether it does so outside.
fn preserves_inside(outside: bool, content: &Content) -> bool
    ensures { result ≡ spec.preserves_inside outside (content_of content.now) }
{
    match content {
        Content::Element { attributes, .. } => space_by(outside, attributes.as_slice()),
        Content::Text { .. } | Content::Comment { .. } | Content::Instruction { .. } => outside,
    }
}

fn space_by(outside: bool, attributes: &[Written]) -> bool
    ensures { result ≡ spec.space_by outside (map written_of attributes.now) }
{
    for attribute in attributes {
        if is_space_name(attribute.name.as_str()) {
            return space_said(outside, attribute.value.as_str());
        }
    }
    outside
}

// What the value of xml:space says.
fn space_said(outside: bool, value: &str) -> bool
    ensures { result ≡ placing.space_said outside (chars value.now) }
{
    if is_preserve(value) {
        return true;
    }
    if is_default(value) {
        return false;
    }
    outside
}

fn is_preserve(value: &str) -> bool
    ensures { result ≡ bytes_eq (chars value.now) (codes "preserve") }
{
    value == "preserve"
}

fn is_default(value: &str) -> bool
    ensures { result ≡ bytes_eq (chars value.now) (codes "default") }
{
    value == "default"
}
