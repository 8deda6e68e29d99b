// The nodes of a document by their numbers, so that a node is found without a walk.
ghost use Rattle.std.specs.Prelude.{◌≡◌, ◌++◌, true, false, IfOk, OnOk};
ghost use Rattle.std.specs.List.{slice_get};
ghost use Rattle.std.specs.Option.{option_map};
ghost use Rattle.xt_tree.specs.ByNumber.{tree_by, trees_in, trees_of};
ghost use Rattle.xt_tree.specs.View.{forest_of, tree_of};

use crate::{Node, NodeId};
use std::alloc::Global;
use std::rc::Rc;
use xt_text::Memory;

/// All nodes of a document as it is read, whose numbers follow one another in document order; or none, where the document
/// has changed since.
#[derive(Drop)]
pub struct ByNumber {
    // Whether they are all nodes.
    is_whole: bool,
    // The number that the first of them has.
    first: u64,
    list: Vec<Rc<Node>>,
}

impl ByNumber {
    /// None. Takes no memory.
    pub fn none(alloc: Global) -> ByNumber
        ensures { result.is_whole ≡ false }
    {
        ByNumber {
            is_whole: false,
            first: 0,
            list: Vec::new(alloc),
        }
    }

    /// These siblings and all below them, which are numbered in document order from `first` on. They are shared.
    pub fn of(alloc: Global, first: u64, siblings: &[Rc<Node>]) -> Result<ByNumber, Memory>
        ensures first { IfOk result (λ nodes. nodes.first ≡ first) }
        ensures list { IfOk result (λ nodes. trees_of nodes.list.items ≡ trees_in (forest_of siblings.now)) }
    {
        let mut list = Vec::new(alloc);
        push_nodes(&mut list, siblings)?;
        Ok(ByNumber {
            is_whole: true,
            first,
            list,
        })
    }

    /// Whether they are all nodes of the document.
    pub fn is_whole(&self) -> bool
        ensures { result ≡ self.now.is_whole }
    {
        self.is_whole
    }

    /// The node at this number.
    pub fn get(&self, id: NodeId) -> Option<&Node>
        ensures { option_map (λ node. tree_of node.now) result ≡ tree_by self.now id.number }
    {
        if id.number < self.first {
            return None;
        }
        node_at(self.list.as_slice(), id.number - self.first)
    }
}

// Adds these siblings and all below them.
fn push_nodes(list: &mut Vec<Rc<Node>>, siblings: &[Rc<Node>]) -> Result<(), Memory>
    ensures { OnOk result (trees_of list.new.items ≡ trees_of list.old.items ++ trees_in (forest_of siblings.now)) }
{
    for sibling in siblings {
        let shared = sibling.clone()?;
        list.push(shared)?;
        push_nodes(list, sibling.children.as_slice())?;
    }
    Ok(())
}

// The node at this index, from 0.
fn node_at(nodes: &[Rc<Node>], index: u64) -> Option<&Node>
    ensures { option_map (λ node. tree_of node.now) result ≡ slice_get (trees_of nodes.now) index }
{
    if index >= nodes.len() as u64 {
        return None;
    }
    Some(&nodes[index as usize])
}
