// Documents, and siblings that are to stand in one.
ghost use Rattle.std.specs.Prelude.{◌≡◌, ◌+◌, ◌<◌, ◌≤◌, IfOk, OnOk, OnErr};
ghost use Rattle.std.specs.Option.{option_map, option_and_then, ForSome};
ghost use Rattle.spec_document.specs.Numbering.{number_limit};
ghost use Rattle.spec_document.specs.Forest.{followed, height, numbered, size};
ghost use Rattle.spec_document.specs.NodeFaults.{greatest_depth};
ghost use Rattle.spec_document.specs.Place.{TreeNode, node_at};
ghost use Rattle.spec_edit.specs.Depth.{ElementsFit};
ghost use Rattle.xt_tree.specs.View.{itself, item_of, numbered_node, content_of, forest_of, tree_of, first_tree};
ghost use Rattle.xt_tree.specs.Numbers.{IsNumbered};
ghost use Rattle.spec_document.specs.Forest as spec;

use crate::by_number::ByNumber;
use crate::find::{find, sibling_at};
use crate::indexed::Indexed;
use crate::keys::new_keys;
use crate::names::Names;
use crate::table::Table;
use crate::{Content, Node, NodeId, NodeRef};
use std::alloc::Global;
use std::marker::Model;
use std::rc::Rc;
use xt_text::{Memory, Path};

/// A document: its root and what is below it. Its nodes have distinct numbers below 2^62, and its elements
/// stand at depths of at most 256, so each recursion over it is bounded, and dropping it is. Contracts see
/// the plain tree with the numbers as labels.
#[derive(Drop)]
pub struct Doc {
    pub(crate) root: NodeId,
    pub(crate) keys: Table,
    pub(crate) names: Rc<Names>,
    // As long as they are as they were when the document was read.
    pub(crate) by_number: Rc<ByNumber>,
    pub(crate) children: Vec<Rc<Node>>,
}

impl Model for Doc {
    ghost use Rattle.std.specs.Prelude.{ℕ, map};
    ghost use Rattle.spec_document.specs.Forest as spec;
    ghost use Rattle.xt_tree.specs.Code.{document_code};

    ghost Value = { spec.Document ℕ };

    ghost coded = { document_code };

    ghost use Rattle.xt_tree.specs.View.{forest_of};
    ghost use Rattle.xt_tree.specs.Numbers.{IsWhole};
    ghost use Rattle.xt_tree.specs.Keys.{key_by};
    ghost use Rattle.xt_tree.specs.Kept.{kept_at};

    ghost view = { λ d. record { root = d.root.number; nodes = forest_of d.children.items } };

    ghost invariant = { λ d. IsWhole (key_by d.keys) (kept_at d.names.value) d.by_number.value (record { root = d.root.number; nodes = forest_of d.children.items }) };
}

/// Siblings in their order, with what is below them. Contracts see the forest with the numbers as labels.
#[derive(Drop)]
pub struct Nodes {
    pub(crate) list: Vec<Rc<Node>>,
}

impl Model for Nodes {
    ghost use Rattle.std.specs.Prelude.{ℕ, map};
    ghost use Rattle.spec_document.specs.Forest as spec;
    ghost use Rattle.xt_tree.specs.Code.{forest_code};

    ghost Value = { spec.Forest ℕ };

    ghost coded = { forest_code };

    ghost use Rattle.xt_tree.specs.View.{forest_of};

    ghost view = { λ n. forest_of n.list.items };
}

impl Nodes {
    /// No node. Takes no memory.
    pub fn new(alloc: Global) -> Nodes
        ensures { result ≡ spec.Empty }
    {
        Nodes {
            list: Vec::new(alloc),
        }
    }

    /// Adds a node as the last sibling. After want of memory the siblings are as before.
    pub fn push(
        &mut self,
        alloc: Global,
        id: NodeId,
        content: Content,
        children: Nodes,
    ) -> Result<(), Memory>
        ensures ok { OnOk result (self.new ≡ followed self.old (spec.Node id.number (content_of content) children spec.Empty)) }
        ensures err { OnErr result (self.new ≡ self.old) }
    {
        let indexed = Indexed::new(alloc, content)?;
        let content = Rc::new(alloc, indexed)?;
        self.push_sharing(alloc, id, content, children)
    }

    // The same with a content that may be shared.
    pub(crate) fn push_sharing(
        &mut self,
        alloc: Global,
        id: NodeId,
        content: Rc<Indexed>,
        children: Nodes,
    ) -> Result<(), Memory>
        ensures ok { OnOk result (self.new ≡ followed self.old (spec.Node id.number (content_of content.value) children spec.Empty)) }
        ensures err { OnErr result (self.new ≡ self.old) }
    {
        let shared = Rc::new(alloc, node(id, content, children.into_list()))?;
        self.list.push(shared)?;
        Ok(())
    }

    /// The siblings in their order.
    pub fn list(&self) -> &[Rc<Node>]
        ensures { forest_of result.now ≡ self.now }
    {
        self.list.as_slice()
    }

    /// The siblings as the children of a node.
    pub fn into_list(self) -> Vec<Rc<Node>>
        ensures { forest_of result.items ≡ self }
    {
        self.list
    }
}

// The node of these parts.
pub(crate) fn node(id: NodeId, content: Rc<Indexed>, children: Vec<Rc<Node>>) -> Node
    ensures { tree_of result ≡ record { number = id.number; content = content_of content.value; children = forest_of children.items } }
{
    Node {
        id,
        content,
        children,
    }
}

impl Doc {
    /// The document with this root and these nodes below it.
    pub fn new(alloc: Global, root: NodeId, nodes: Nodes) -> Result<Doc, Memory>
        requires numbers { IsNumbered (record { root = root.number; nodes = nodes }) }
        requires depth { height nodes ≤ greatest_depth + 1 }
        requires fits { ElementsFit 1 nodes }
        ensures { IfOk result (λ doc. doc ≡ record { root = root.number; nodes = nodes }) }
    {
        let keys = new_keys(alloc, nodes.list())?;
        let names = Rc::new(alloc, Names::none(alloc))?;
        let unknown = ByNumber::none(alloc);
        let by_number = Rc::new(alloc, unknown)?;
        Ok(Doc {
            root,
            keys,
            names,
            by_number,
            children: nodes.into_list(),
        })
    }

    /// The document whose nodes are numbered in document order, the root first. Their expanded names, and the scopes
    /// inside its elements, are resolved here, once.
    pub fn numbered(alloc: Global, root: NodeId, nodes: Nodes) -> Result<Doc, Memory>
        requires order { numbered (root.number + 1) nodes ≡ nodes }
        requires limit { root.number + size nodes < number_limit }
        requires depth { height nodes ≤ greatest_depth + 1 }
        requires fits { ElementsFit 1 nodes }
        ensures { IfOk result (λ doc. doc ≡ record { root = root.number; nodes = nodes }) }
    {
        let keys = Table::new();
        let first = root.number + 1;
        let siblings = nodes.list();
        let named = Names::of(alloc, first, siblings)?;
        let names = Rc::new(alloc, named)?;
        let found = ByNumber::of(alloc, first, siblings)?;
        let by_number = Rc::new(alloc, found)?;
        let children = nodes.into_list();
        Ok(Doc {
            root,
            keys,
            names,
            by_number,
            children,
        })
    }

    /// The nodes directly below the root, in their order.
    pub fn children(&self) -> &[Rc<Node>]
        ensures { forest_of result.now ≡ self.now.nodes }
    {
        self.children.as_slice()
    }

    /// Does nothing: it tells proofs that the numbers of the nodes are distinct and below 2^62.
    pub fn distinct_numbers(&self)
        ensures { IsNumbered self.now }
    {
        let _ = &self.root;
    }

    /// Does nothing: it tells proofs that no element stands deeper than 256, and other nodes at most one level below
    /// the deepest.
    pub fn bounded_depth(&self)
        ensures height { height self.now.nodes ≤ greatest_depth + 1 }
        ensures fits { ElementsFit 1 self.now.nodes }
    {
        let _ = &self.root;
    }

    /// The number of the root.
    pub fn root(&self) -> NodeId
        ensures { result.number ≡ self.now.root }
    {
        self.root
    }

    /// The node that the path leads to. None exactly where it leaves the tree. Takes no memory.
    pub fn at(&self, path: &Path) -> Option<NodeRef>
        ensures number { result ≡ option_map (λ node. itself node.label) (node_at self.now path.now) }
        ensures item { option_and_then (item_of self.now) result ≡ option_map TreeNode (node_at self.now path.now) }
    {
        let mut id = self.root;
        let mut siblings = self.children.as_slice();
        for position in path.positions() {
            let node = sibling_at(siblings, *position)?;
            id = node.id;
            siblings = node.children.as_slice();
        }
        Some(NodeRef::of(id))
    }

    /// The node of this number below the root. None for the root, and where there is no such node. Takes no memory, and no
    /// walk where the document is as it was read.
    pub fn node(&self, id: NodeId) -> Option<&Node>
        ensures { option_map (λ node. tree_of node.now) result ≡ first_tree id.number self.now.nodes }
    {
        if self.by_number.is_whole() {
            return self.by_number.get(id);
        }
        find(&self.keys, self.children.as_slice(), id)
    }

    // What the node of this number is. None for the root, and where there is no such node.
    pub(crate) fn content(&self, id: NodeId) -> Option<&Content>
        ensures { ForSome (numbered_node self.now id.number) (λ node. option_map (λ c. content_of c.now) result ≡ node.content) }
    {
        if self.root == id {
            return None;
        }
        match self.node(id) {
            None => None,
            Some(node) => Some(node.content()),
        }
    }
}
