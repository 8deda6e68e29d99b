// The attributes and the namespace nodes of an element.
ghost use Rattle.std.specs.Prelude.{◌≡◌, map, length, IfOk};
ghost use Rattle.std.specs.List.{range_with_len};
ghost use Rattle.std.specs.Option.{ForSome};
ghost use Rattle.spec_document.specs.Place.{attributes_of, namespaces_of};
ghost use Rattle.xt_tree.specs.View.{numbered_node};
ghost use Rattle.spec_node.specs.declared.node_ref.Part.TheVariants as Part;

use std::alloc::Global;
use xt_text::Memory;
use xt_tree::{Doc, NodeId, NodeRef, Part};

// So many attributes of the node of this number, in their order.
fn numbered_attributes(alloc: Global, id: NodeId, count: u64) -> Result<Vec<NodeRef>, Memory>
    ensures { IfOk result (λ nodes. nodes.items ≡ map (λ n. record { node = id; part = Part.Attribute n }) (range_with_len 1 count)) }
{
    let mut nodes = Vec::new(alloc);
    for index in 0..count {
        nodes.push(NodeRef {
            node: id,
            part: Part::Attribute(index + 1),
        })?;
    }
    Ok(nodes)
}

// So many namespace nodes of it.
fn numbered_namespaces(alloc: Global, id: NodeId, count: u64) -> Result<Vec<NodeRef>, Memory>
    ensures { IfOk result (λ nodes. nodes.items ≡ map (λ n. record { node = id; part = Part.Namespace n }) (range_with_len 1 count)) }
{
    let mut nodes = Vec::new(alloc);
    for index in 0..count {
        nodes.push(NodeRef {
            node: id,
            part: Part::Namespace(index + 1),
        })?;
    }
    Ok(nodes)
}

/// The attributes of the node of this number, in document order.
pub fn attributes(alloc: Global, document: &Doc, id: NodeId) -> Result<Vec<NodeRef>, Memory>
    ensures { IfOk result (λ nodes. ForSome (numbered_node document.now id.number) (λ node. nodes.items ≡ map (λ n. record { node = id; part = Part.Attribute n }) (range_with_len 1 (length (attributes_of node))))) }
{
    let list = document.attributes(alloc, id)?;
    numbered_attributes(alloc, id, list.len() as u64)
}

/// Its namespace nodes, in document order.
pub fn namespaces(alloc: Global, document: &Doc, id: NodeId) -> Result<Vec<NodeRef>, Memory>
    ensures { IfOk result (λ nodes. ForSome (numbered_node document.now id.number) (λ node. nodes.items ≡ map (λ n. record { node = id; part = Part.Namespace n }) (range_with_len 1 (length (namespaces_of node))))) }
{
    let list = document.namespaces(alloc, id)?;
    numbered_namespaces(alloc, id, list.len() as u64)
}
