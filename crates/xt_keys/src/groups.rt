// The nodes of each value.
ghost use Rattle.std.specs.Prelude.{◌≡◌, ℕ, List, [], ◌∷◌, map, length, IfOk, OnOk, if◌then◌else◌, bytes_eq};
ghost use Rattle.std.specs.Str.{chars};
ghost use Rattle.spec_node.specs.Naming.{same_ref as is_same_ref};
ghost use Rattle.xt_questions.specs.Runs.{items};
ghost use Rattle.xt_keys.specs.View as view;
ghost use Rattle.xt_keys.specs.View.{AreNodesApart, having, nodes_found, with_each, with_node};

use indexmap::IndexMap;
use std::alloc::Global;
use xt_text::{Memory, Text};
use xt_tree::NodeRef;

/// The nodes that have a value in the keys of one name, for each value that a node has. Contracts see it by
/// `nodes_found`, the nodes of each text.
#[derive(Drop)]
pub struct KeyIndex {
    groups: IndexMap<String, Vec<NodeRef>>,
}

// Whether both name one node.
fn same_ref(one: NodeRef, other: NodeRef) -> bool
    ensures { result ≡ is_same_ref one other }
{
    one == other
}

// Whether the last of these is this node.
fn is_last(node: NodeRef, nodes: &[NodeRef]) -> bool
    ensures { result ≡ view.is_last node nodes.now }
{
    match nodes.split_last() {
        None => false,
        Some((last, _)) => same_ref(*last, node),
    }
}

// Adds a node as the last, unless the last is the same.
fn add_last(nodes: &mut Vec<NodeRef>, node: NodeRef) -> Result<(), Memory>
    ensures { OnOk result (nodes.new.items ≡ with_node node nodes.old.items) }
{
    if is_last(node, nodes.as_slice()) {
        return Ok(());
    }
    nodes.push(node)?;
    Ok(())
}

impl KeyIndex {
    // No node has a value.
    fn new(alloc: Global) -> KeyIndex
        ensures { (text : List ℕ) → nodes_found text result ≡ [] }
    {
        KeyIndex {
            groups: IndexMap::new(alloc),
        }
    }

    /// The nodes that have this value, in their order. Takes no memory.
    pub fn find(&self, text: &str) -> &[NodeRef]
        ensures { result.now ≡ nodes_found (chars text.now) self.now }
    {
        match self.groups.get(text) {
            None => &[],
            Some(nodes) => nodes.as_slice(),
        }
    }

    // Adds a node to those of a text, unless it is the last of them.
    fn add(&mut self, alloc: Global, text: &Text, node: NodeRef) -> Result<(), Memory>
        ensures { OnOk result ((sought : List ℕ) → nodes_found sought self.new ≡ (if bytes_eq text.now sought then with_node node (nodes_found sought self.old) else nodes_found sought self.old)) }
    {
        match self.groups.get_mut(text.as_str()) {
            Some(nodes) => add_last(nodes, node),
            None => self.begin(alloc, text, node),
        }
    }

    // Adds a node as the only one of a text.
    fn begin(&mut self, alloc: Global, text: &Text, node: NodeRef) -> Result<(), Memory>
        ensures { OnOk result ((sought : List ℕ) → nodes_found sought self.new ≡ (if bytes_eq text.now sought then node ∷ [] else nodes_found sought self.old)) }
    {
        let key = String::from_str(alloc, text.as_str())?;
        let mut nodes = Vec::new(alloc);
        nodes.push(node)?;
        self.groups.insert(key, nodes)?;
        Ok(())
    }

    // Adds a node to those of each of its texts.
    fn add_to_each(&mut self, alloc: Global, texts: &[Text], node: NodeRef) -> Result<(), Memory>
        ensures { OnOk result ((sought : List ℕ) → nodes_found sought self.new ≡ with_each sought node texts.now (nodes_found sought self.old)) }
    {
        for text in texts {
            self.add(alloc, text, node)?;
        }
        Ok(())
    }
}

/// The index of these nodes, no two of which are the same, by the values of each: those at its place among the lists. So
/// nodes are found that are known to have these values, with no question asked of any of them.
pub fn grouped(alloc: Global, nodes: &[NodeRef], found: &[Vec<Text>]) -> Result<KeyIndex, Memory>
    requires apart { AreNodesApart nodes.now }
    requires each { length found.now ≡ length nodes.now }
    ensures { IfOk result (λ index. (text : List ℕ) → nodes_found text index ≡ having text nodes.now (map items found.now)) }
{
    let mut index = KeyIndex::new(alloc);
    for i in 0..nodes.len() {
        index.add_to_each(alloc, found[i].as_slice(), nodes[i])?;
    }
    Ok(index)
}
