// All nodes of a document.
ghost use Rattle.std.specs.Prelude.{◌≡◌, ◌<◌, ◌≤◌, ◌+◌, ◌-◌, ◌^◌, ◌++◌, ◌∷◌, List, map, IfOk, OnOk};
ghost use Rattle.spec_document.specs.Declaration.{declared_all, namespaces_in, within};
ghost use Rattle.spec_document.specs.Forest as spec;
ghost use Rattle.spec_document.specs.Order.{entries_of};
ghost use Rattle.spec_node.specs.Naming.{ref_of};
ghost use Rattle.xt_keys.specs.Nodes.{attribute_refs, attributes_among, namespace_refs, own_refs, refs_in};
ghost use Rattle.xt_keys.specs.View.{AreNodesApart};
ghost use Rattle.xt_tree.specs.View.{content_of, forest_of, written_of};

use std::alloc::Global;
use std::rc::Rc;
use xt_names::{Scope, is_declaration};
use xt_text::Memory;
use xt_tree::{Content, Doc, Node, NodeId, NodeRef, Part, Written};

/// All nodes of a document in document order: those of the tree, each with its namespace nodes and its
/// attributes. No two of them are the same.
pub fn all_nodes(alloc: Global, document: &Doc) -> Result<Vec<NodeRef>, Memory>
    ensures nodes { IfOk result (λ nodes. nodes.items ≡ map ref_of (entries_of document.now)) }
    ensures apart { IfOk result (λ nodes. AreNodesApart nodes.items) }
{
    document.distinct_numbers();
    let mut nodes = Vec::new(alloc);
    nodes.push(NodeRef::of(document.root()))?;
    let scope = Scope::root(alloc)?;
    push_siblings(alloc, &mut nodes, document.children(), &scope)?;
    Ok(nodes)
}

// Adds siblings, which stand in this scope, and all below them.
fn push_siblings(
    alloc: Global,
    nodes: &mut Vec<NodeRef>,
    siblings: &[Rc<Node>],
    scope: &Scope,
) -> Result<(), Memory>
    ensures { OnOk result (nodes.new.items ≡ nodes.old.items ++ refs_in scope.now (forest_of siblings.now)) }
{
    for sibling in siblings {
        let inside = scope_inside(alloc, scope, sibling.content())?;
        push_own(alloc, nodes, sibling.id(), sibling.content(), &inside)?;
        push_siblings(alloc, nodes, sibling.children(), &inside)?;
    }
    Ok(())
}

// The scope inside a node with this content, which stands in this scope.
fn scope_inside(alloc: Global, scope: &Scope, content: &Content) -> Result<Scope, Memory>
    ensures { IfOk result (λ inside. inside ≡ within (content_of content.now) scope.now) }
{
    let mut inside = scope.copy()?;
    enter(alloc, &mut inside, content)?;
    Ok(inside)
}

// Adds to the scope what an element declares.
fn enter(alloc: Global, scope: &mut Scope, content: &Content) -> Result<(), Memory>
    ensures { OnOk result (scope.new ≡ within (content_of content.now) scope.old) }
{
    match content {
        Content::Element { attributes, .. } => declare_all(alloc, scope, attributes.as_slice()),
        Content::Text { .. } | Content::Comment { .. } | Content::Instruction { .. } => Ok(()),
    }
}

fn declare_all(alloc: Global, scope: &mut Scope, attributes: &[Written]) -> Result<(), Memory>
    ensures { OnOk result (scope.new ≡ declared_all (map written_of attributes.now) scope.old) }
{
    for attribute in attributes {
        scope.declare(alloc, attribute.name.as_str(), attribute.value.as_str())?;
    }
    Ok(())
}

// Adds a node with this number and content, its namespace nodes and its attributes.
fn push_own(
    alloc: Global,
    nodes: &mut Vec<NodeRef>,
    id: NodeId,
    content: &Content,
    inside: &Scope,
) -> Result<(), Memory>
    ensures { OnOk result (nodes.new.items ≡ nodes.old.items ++ own_refs id.number (content_of content.now) inside.now) }
{
    nodes.push(NodeRef::of(id))?;
    match content {
        Content::Element { attributes, .. } => {
            push_namespaces(alloc, nodes, id, inside)?;
            push_attributes(nodes, id, attributes.as_slice())
        }
        Content::Text { .. } | Content::Comment { .. } | Content::Instruction { .. } => Ok(()),
    }
}

// Adds the namespace nodes of an element with this scope inside.
fn push_namespaces(
    alloc: Global,
    nodes: &mut Vec<NodeRef>,
    id: NodeId,
    inside: &Scope,
) -> Result<(), Memory>
    ensures { OnOk result (nodes.new.items ≡ nodes.old.items ++ namespace_refs id.number 1 (namespaces_in inside.now)) }
{
    let namespaces = inside.namespaces(alloc)?;
    for index in 0..namespaces.len() {
        nodes.push(NodeRef {
            node: id,
            part: Part::Namespace(index as u64 + 1),
        })?;
    }
    Ok(())
}

// Adds the attributes of an element among these, which are no declarations.
fn push_attributes(
    nodes: &mut Vec<NodeRef>,
    id: NodeId,
    attributes: &[Written],
) -> Result<(), Memory>
    ensures { OnOk result (nodes.new.items ≡ nodes.old.items ++ attribute_refs id.number 1 (attributes_among (map written_of attributes.now))) }
{
    let mut count = 0;
    for attribute in attributes {
        count = push_attribute(nodes, id, attribute, count)?;
    }
    Ok(())
}

// Adds one of these behind so many, unless it is a declaration. How many there are then.
fn push_attribute(
    nodes: &mut Vec<NodeRef>,
    id: NodeId,
    attribute: &Written,
    count: u64,
) -> Result<u64, Memory>
    requires { count < 2 ^ 64 - 1 }
    ensures nodes { IfOk result (λ counted. (more : List spec.Written) →
        nodes.new.items ++ attribute_refs id.number (counted + 1) (attributes_among more)
        ≡ nodes.old.items ++ attribute_refs id.number (count + 1) (attributes_among (written_of attribute.now ∷ more))) }
    ensures bound { IfOk result (λ counted. counted ≤ count + 1) }
{
    if is_declaration(attribute.name.as_str()) {
        return Ok(count);
    }
    nodes.push(NodeRef {
        node: id,
        part: Part::Attribute(count + 1),
    })?;
    Ok(count + 1)
}
