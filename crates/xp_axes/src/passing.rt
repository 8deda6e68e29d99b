// Node tests (XPath 1.0, section 2.3).
ghost use Rattle.std.specs.Prelude.{◌≡◌, filter, Some, IfOk, IsSome};
ghost use Rattle.std.specs.Option.{option_map};
ghost use Rattle.spec_meaning.specs.Step as spec;
ghost use Rattle.spec_document.specs.Place.{kind_of};
ghost use Rattle.xt_syntax.specs.View.{test_of};
ghost use Rattle.xt_tree.specs.View.{item_of};
ghost use Rattle.xp_axes.specs.View.{AreNodes, is_passing};

use crate::along::take_if;
use spec_document::{Axis, Kind};
use spec_expression::NodeType;
use std::alloc::Global;
use xt_names::Expanded;
use xt_syntax::Test;
use xt_text::{Memory, Text};
use xt_tree::{Doc, NodeRef};

// Whether nodes of this kind are those that a name on the axis is of.
fn is_principal(axis: Axis, kind: Kind) -> bool
    ensures { result ≡ spec.is_principal axis kind }
{
    match axis {
        Axis::Attribute => kind == Kind::Attribute,
        Axis::Namespace => kind == Kind::Namespace,
        _ => kind == Kind::Element,
    }
}

fn is_of_type(node_type: NodeType, kind: Kind) -> bool
    ensures { result ≡ spec.is_of_type node_type kind }
{
    match node_type {
        NodeType::Node => true,
        NodeType::Text => kind == Kind::Text,
        NodeType::Comment => kind == Kind::Comment,
        NodeType::ProcessingInstruction => kind == Kind::Instruction,
    }
}

fn is_in_namespace(uri: &Text, name: &Option<Expanded>) -> bool
    ensures { result ≡ spec.is_in_namespace uri.now name.now }
{
    match name {
        None => false,
        Some(name) => name.uri().same(uri),
    }
}

fn has_local(local: &Text, name: &Option<Expanded>) -> bool
    ensures { result ≡ spec.has_local local.now name.now }
{
    match name {
        None => false,
        Some(name) => name.local().same(local),
    }
}

/// Whether a node, which is of this kind, passes a node test. Nothing is looked up for a test without a name.
pub fn passes_as(
    alloc: Global,
    document: &Doc,
    axis: Axis,
    test: &Test,
    kind: Kind,
    node: &NodeRef,
) -> Result<bool, Memory>
    requires node { IsSome (item_of document.now node.now) }
    requires kind { option_map kind_of (item_of document.now node.now) ≡ Some kind }
    ensures { IfOk result (λ passes. passes ≡ is_passing document.now axis (test_of test.now) node.now) }
{
    match test {
        Test::AnyName => Ok(is_principal(axis, kind)),
        Test::OfType(node_type) => Ok(is_of_type(*node_type, kind)),
        Test::InNamespace(uri) => {
            if !is_principal(axis, kind) {
                return Ok(false);
            }
            let name = document.name(alloc, node)?;
            Ok(is_in_namespace(uri, &name))
        }
        Test::Named(wanted) => {
            if !is_principal(axis, kind) {
                return Ok(false);
            }
            let is_named = document.is_named(alloc, node, wanted)?;
            Ok(is_named)
        }
        Test::Instruction(target) => {
            if kind != Kind::Instruction {
                return Ok(false);
            }
            let name = document.name(alloc, node)?;
            Ok(has_local(target, &name))
        }
    }
}

/// Whether a node passes a node test.
pub fn passes(
    alloc: Global,
    document: &Doc,
    axis: Axis,
    test: &Test,
    node: &NodeRef,
) -> Result<bool, Memory>
    requires { IsSome (item_of document.now node.now) }
    ensures { IfOk result (λ passes. passes ≡ is_passing document.now axis (test_of test.now) node.now) }
{
    passes_as(alloc, document, axis, test, document.kind(node), node)
}

/// The nodes that pass, in their order.
pub fn passing(
    alloc: Global,
    document: &Doc,
    axis: Axis,
    test: &Test,
    nodes: &[NodeRef],
) -> Result<Vec<NodeRef>, Memory>
    requires { AreNodes document.now nodes.now }
    ensures { IfOk result (λ kept. kept.items ≡ filter (is_passing document.now axis (test_of test.now)) nodes.now) }
{
    let mut kept = Vec::new(alloc);
    for node in nodes {
        let is_passing = passes(alloc, document, axis, test, node)?;
        take_if(&mut kept, is_passing, *node)?;
    }
    Ok(kept)
}
