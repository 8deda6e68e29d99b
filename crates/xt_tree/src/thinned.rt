// Documents from which nodes are taken out. All that stays is shared, with its numbers, keys and names.
ghost use Rattle.std.specs.Prelude.{◌≡◌, IfOk, OnOk, OnErr};
ghost use Rattle.spec_document.specs.Forest as spec;
ghost use Rattle.spec_document.specs.Forest.{followed};
ghost use Rattle.xt_tree.specs.Thinned.{LosesNodes};
ghost use Rattle.xt_tree.specs.View.{tree_of};

use crate::by_number::ByNumber;
use crate::{Doc, Node, Nodes};
use std::alloc::Global;
use std::rc::Rc;
use xt_text::Memory;

impl Nodes {
    /// Adds a node like this one, with its number and its content, which is shared, but with these nodes below it, as
    /// the last sibling. After want of memory the siblings are as before.
    pub fn push_like(&mut self, alloc: Global, node: &Node, children: Nodes) -> Result<(), Memory>
        ensures ok { OnOk result (self.new ≡ followed self.old (spec.Node (tree_of node.now).number (tree_of node.now).content children spec.Empty)) }
        ensures err { OnErr result (self.new ≡ self.old) }
    {
        let content = node.content.clone()?;
        self.push_sharing(alloc, node.id, content, children)
    }
}

impl Doc {
    /// The document with these nodes, which are its own without some of them. Its nodes keep their numbers.
    pub fn thinned(&self, nodes: Nodes) -> Result<Doc, Memory>
        requires { LosesNodes self.now.nodes nodes }
        ensures { IfOk result (λ doc. doc ≡ record { root = self.now.root; nodes = nodes }) }
    {
        let keys = self.keys.copy()?;
        let names = self.names.clone()?;
        let alloc = *self.children.allocator();
        let unknown = ByNumber::none(alloc);
        let by_number = Rc::new(alloc, unknown)?;
        let children = nodes.into_list();
        Ok(Doc {
            root: self.root,
            keys,
            names,
            by_number,
            children,
        })
    }
}
