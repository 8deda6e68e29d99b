// The keys of one name, with what was asked for the values of each node.
ghost use Rattle.std.specs.Prelude.{◌≡◌, IfOk, IfSome};
ghost use Rattle.spec_run.specs.Documents.{Parameters};
ghost use Rattle.xt_world.specs.View.{truth_in};
ghost use Rattle.xt_own.specs.Keys.{AreNodesOf, IsKeyOf, nodes_of};

use crate::own_node::{OwnNode, own_node};
use std::alloc::Global;
use std::rc::Rc;
use xt_keys::all_nodes;
use xt_names::{Expanded, copy_name};
use xt_text::Memory;
use xt_tree::{Doc, NodeRef};
use xt_world::Stylesheet;

/// The keys of one name: all nodes of a source, in document order, each with its values and what was asked for them.
#[derive(Drop)]
pub struct OwnKey {
    pub(crate) name: Expanded,
    pub(crate) nodes: Vec<Rc<OwnNode>>,
}

/// What is asked for the keys of this name. None where one of them is refused or needs a global, or asks anything but the tree.
pub(crate) fn own_key(
    alloc: Global,
    document: &Doc,
    stylesheet: &Stylesheet,
    name: &Expanded,
) -> Result<Option<OwnKey>, Memory>
    ensures name { IfOk result (λ o. IfSome o (λ key. key.name ≡ name.now)) }
    ensures key { (parameters : Parameters) → IfOk result (λ o. IfSome o (λ key. IsKeyOf stylesheet.now (truth_in stylesheet.now parameters document.now) key)) }
{
    let nodes = all_nodes(alloc, document)?;
    match own_nodes(alloc, document, stylesheet, name, nodes.as_slice())? {
        None => Ok(None),
        Some(owns) => Ok(Some(key_of(alloc, name, owns)?)),
    }
}

/// The keys of this name with these nodes.
pub(crate) fn key_of(
    alloc: Global,
    name: &Expanded,
    nodes: Vec<Rc<OwnNode>>,
) -> Result<OwnKey, Memory>
    ensures name { IfOk result (λ key. key.name ≡ name.now) }
    ensures nodes { IfOk result (λ key. key.nodes ≡ nodes) }
{
    match copy_name(alloc, name) {
        Ok(name) => Ok(OwnKey { name, nodes }),
        Err(memory) => {
            drop(nodes);
            Err(memory)
        }
    }
}

// What is asked of each of these nodes.
fn own_nodes(
    alloc: Global,
    document: &Doc,
    stylesheet: &Stylesheet,
    name: &Expanded,
    nodes: &[NodeRef],
) -> Result<Option<Vec<Rc<OwnNode>>>, Memory>
    ensures nodes { IfOk result (λ o. IfSome o (λ owns. nodes_of owns.items ≡ nodes.now)) }
    ensures known { (parameters : Parameters) → IfOk result (λ o. IfSome o (λ owns. AreNodesOf stylesheet.now (truth_in stylesheet.now parameters document.now) name.now owns.items)) }
{
    let mut owns = Vec::new(alloc);
    for node in nodes {
        match own_node(alloc, document, stylesheet, name, *node)? {
            None => return Ok(None),
            Some(own) => owns.push(own)?,
        }
    }
    Ok(Some(owns))
}
