// Nodes in document order (XPath 1.0, section 5).
ghost use Rattle.std.specs.Prelude.{◌≡◌, ◌++◌, ◌∷◌, [], map, IfOk, IsSome, OnOk};
ghost use Rattle.std.specs.List.{list_any};
ghost use Rattle.std.specs.List.Sorted.{IsStrictlySortedBy};
ghost use Rattle.std.specs.Option.{ForSome, option_to_list};
ghost use Rattle.std.specs.Ordering.{eq_by_cmp};
ghost use Rattle.spec_document.specs.Order.{entries_of};
ghost use Rattle.spec_meaning.specs.Step.{ordered};
ghost use Rattle.xp_axes.specs.Placed as spec;
ghost use Rattle.spec_node.specs.Naming.{ref_of, same_ref};
ghost use Rattle.spec_node.specs.declared.node_ref.Part.TheVariants as Part;
ghost use Rattle.xt_tree.specs.View.{item_of, numbered_node};

use crate::along::take_if;
use crate::owner::{Owner, count, is_among, root_owner};
use std::alloc::Global;
use std::cmp::Ordering;
use xt_text::{Memory, Path};
use xt_tree::{Doc, NodeRef, Part};

/// A node with the path to it, or to the element that it belongs to.
#[derive(Drop)]
pub struct Placed {
    pub path: Path,
    pub node: NodeRef,
}

// Where a part of a node stands among its parts: the node itself comes first, then its namespace nodes, then
// its attributes. All of them come before what is below the node.
fn rank(part: Part) -> (u64, u64)
    ensures { result ≡ spec.rank part }
{
    match part {
        Part::Itself => (0, 0),
        Part::Namespace(number) => (1, number),
        Part::Attribute(number) => (2, number),
    }
}

// How two nodes stand in document order. The number comes last, so that only one and the same compare equal.
fn compare(first: &Placed, second: &Placed) -> Ordering
    ensures { result ≡ spec.placed_cmp first.now second.now }
{
    let paths = first.path.positions().cmp(second.path.positions());
    let parts = rank(first.node.part).cmp(&rank(second.node.part));
    let numbers = first.node.node.number.cmp(&second.node.node.number);
    paths.then(parts).then(numbers)
}

// Adds a node with its path, where it is one of the document.
fn place_alone(
    placed: &mut Vec<Placed>,
    alloc: Global,
    document: &Doc,
    node: &NodeRef,
) -> Result<(), Memory>
    ensures { OnOk result (placed.new.items ≡ placed.old.items ++ option_to_list (spec.place_of document.now node.now)) }
{
    document.distinct_numbers();
    match document.place(alloc, node)? {
        None => Ok(()),
        Some(path) => {
            placed.push(Placed { path, node: *node })?;
            Ok(())
        }
    }
}

// The same of a part that its element has, if that is one of the document.
fn place_owned(
    placed: &mut Vec<Placed>,
    alloc: Global,
    document: &Doc,
    node: &NodeRef,
) -> Result<(), Memory>
    requires { ForSome (numbered_node document.now node.now.node.number) (λ element. IsSome (item_of document.now node.now)) }
    ensures { OnOk result (placed.new.items ≡ placed.old.items ++ option_to_list (spec.place_of document.now node.now)) }
{
    document.distinct_numbers();
    let element = NodeRef::of(node.node);
    match document.place(alloc, &element)? {
        None => Ok(()),
        Some(path) => {
            placed.push(Placed { path, node: *node })?;
            Ok(())
        }
    }
}

// The same of the namespace node of this number of a node that has so many.
fn place_namespace(
    placed: &mut Vec<Placed>,
    alloc: Global,
    document: &Doc,
    node: &NodeRef,
    number: u64,
    namespaces: u64,
) -> Result<(), Memory>
    requires part { node.now.part ≡ Part.Namespace number }
    requires counted { spec.HasNamespaces document.now node.now.node.number namespaces }
    ensures { OnOk result (placed.new.items ≡ placed.old.items ++ option_to_list (spec.place_of document.now node.now)) }
{
    document.distinct_numbers();
    if !is_among(number, namespaces) {
        return Ok(());
    }
    place_owned(placed, alloc, document, node)
}

// The same of any node. The namespace nodes of an element are counted once where they follow one another; the element
// whose were counted last is given back.
fn place(
    placed: &mut Vec<Placed>,
    last: Owner,
    alloc: Global,
    document: &Doc,
    node: &NodeRef,
) -> Result<Owner, Memory>
    requires { spec.HasNamespaces document.now last.id.number last.namespaces }
    ensures placed { OnOk result (placed.new.items ≡ placed.old.items ++ option_to_list (spec.place_of document.now node.now)) }
    ensures owner { IfOk result (λ owner. spec.HasNamespaces document.now owner.id.number owner.namespaces) }
{
    match node.part {
        Part::Namespace(number) => {
            let namespaces = count(alloc, document, last, node.node)?;
            place_namespace(placed, alloc, document, node, number, namespaces)?;
            Ok(Owner {
                id: node.node,
                namespaces,
            })
        }
        Part::Itself | Part::Attribute(_) => {
            place_alone(placed, alloc, document, node)?;
            Ok(last)
        }
    }
}

// The nodes that are nodes of the document, with their paths.
fn places(alloc: Global, document: &Doc, nodes: &[NodeRef]) -> Result<Vec<Placed>, Memory>
    ensures { IfOk result (λ placed. placed.items ≡ spec.places_of document.now nodes.now) }
{
    let mut placed = Vec::new(alloc);
    let mut owner = root_owner(document);
    for node in nodes {
        owner = place(&mut placed, owner, alloc, document, node)?;
    }
    Ok(placed)
}

// The same nodes in document order, each once.
fn in_order(mut placed: Vec<Placed>) -> Vec<Placed>
    ensures order { IsStrictlySortedBy spec.placed_cmp result.items }
    ensures same { (p : spec.Placed) → list_any (eq_by_cmp spec.placed_cmp p) result.items ≡ list_any (eq_by_cmp spec.placed_cmp p) placed.items }
{
    placed.sort_unstable_by(|a, b| compare(a, b));
    placed.dedup_by(|a, b| compare(a, b).is_eq());
    placed
}

// The nodes without their paths.
fn names(alloc: Global, placed: &[Placed]) -> Result<Vec<NodeRef>, Memory>
    ensures { IfOk result (λ nodes. nodes.items ≡ map (λ p. p.node) placed.now) }
{
    let mut nodes = Vec::with_capacity(alloc, placed.len())?;
    for each in placed {
        nodes.push(each.node)?;
    }
    Ok(nodes)
}

// One node, where it is one of the document.
fn order_one(alloc: Global, document: &Doc, node: &NodeRef) -> Result<Vec<NodeRef>, Memory>
    ensures { IfOk result (λ out. out.items ≡ ordered ref_of same_ref (entries_of document.now) (node.now ∷ [])) }
{
    document.distinct_numbers();
    let mut nodes = Vec::new(alloc);
    let is_there = document.has(alloc, node)?;
    take_if(&mut nodes, is_there, *node)?;
    Ok(nodes)
}

// Any nodes, by their paths.
fn order_all(alloc: Global, document: &Doc, nodes: &[NodeRef]) -> Result<Vec<NodeRef>, Memory>
    ensures { IfOk result (λ out. out.items ≡ ordered ref_of same_ref (entries_of document.now) nodes.now) }
{
    document.distinct_numbers();
    let placed = places(alloc, document, nodes)?;
    let placed = in_order(placed);
    names(alloc, placed.as_slice())
}

/// The nodes in document order (XPath 1.0, section 5), each once. What is no node of the document is left
/// out. Takes the path of each node, and as many comparisons of paths as a sort: k log k for k nodes, and k
/// where they stand in order already. One node alone takes no path.
pub fn order(alloc: Global, document: &Doc, nodes: &[NodeRef]) -> Result<Vec<NodeRef>, Memory>
    ensures { IfOk result (λ out. out.items ≡ ordered ref_of same_ref (entries_of document.now) nodes.now) }
{
    if nodes.len() == 1 {
        return order_one(alloc, document, &nodes[0]);
    }
    order_all(alloc, document, nodes)
}
