// Documents in which a part of another has changed. All that has not changed is shared.
ghost use Rattle.std.specs.Prelude.{◌≡◌, ◌+◌, ◌≤◌, ◌∷◌, [], IfOk, OnOk};
ghost use Rattle.std.specs.Option.{option_map, ForSome};
ghost use Rattle.spec_document.specs.Forest as spec;
ghost use Rattle.spec_document.specs.Forest.{followed, numbered, plain, size};
ghost use Rattle.spec_document.specs.Numbering.{number_limit};
ghost use Rattle.spec_document.specs.Place.{node_at, scope_at};
ghost use Rattle.spec_edit.specs.Splice.{children_changed, content_replaced, met};
ghost use Rattle.xt_tree.specs.Edit.{IsNodeAt, KeepsNames, content_below};
ghost use Rattle.xt_tree.specs.View.{content_of, forest_of};

use crate::by_number::ByNumber;
use crate::find::sibling_at;
use crate::indexed::Indexed;
use crate::part::enter;
use crate::remade::{meeting, numbered, with_content};
use crate::{Content, Doc, Node, NodeId, Nodes};
use std::alloc::Global;
use std::rc::Rc;
use xt_names::Scope;
use xt_text::Memory;

impl Nodes {
    /// Adds a node that is shared, with all below it, as the last sibling. Where it and the last are texts they
    /// become one, which has the number of the first.
    pub fn push_meeting(&mut self, alloc: Global, node: &Rc<Node>) -> Result<(), Memory>
        ensures { OnOk result (self.new ≡ met self.old (forest_of (node.now ∷ []))) }
    {
        match meeting(alloc, self.list.as_slice(), node)? {
            None => {
                let shared = node.clone()?;
                self.list.push(shared)?;
                Ok(())
            }
            Some(joined) => {
                self.list.pop();
                self.list.push(joined)?;
                Ok(())
            }
        }
    }

    /// Adds a node that is shared, with all below it, as the last sibling.
    pub fn push_shared(&mut self, node: &Rc<Node>) -> Result<(), Memory>
        ensures { OnOk result (self.new ≡ followed self.old (forest_of (node.now ∷ []))) }
    {
        let shared = node.clone()?;
        self.list.push(shared)?;
        Ok(())
    }

    /// A node of this content alone, with these nodes below it, all of them made anew: they are numbered in document
    /// order from `first` on. Their contents are shared.
    pub fn renewed(
        alloc: Global,
        first: u64,
        content: Content,
        children: &[Rc<Node>],
    ) -> Result<Nodes, Memory>
        requires { first + 1 + size (forest_of children.now) ≤ number_limit }
        ensures { IfOk result (λ nodes. nodes ≡ numbered first (spec.Node tt (content_of content) (plain (forest_of children.now)) spec.Empty)) }
    {
        let mut next = first + 1;
        let below = numbered(alloc, children, &mut next)?;
        let mut nodes = Nodes::new(alloc);
        nodes.push(alloc, NodeId { number: first }, content, below)?;
        Ok(nodes)
    }
}

impl Doc {
    /// The node below the root that these positions lead to. None exactly where there is no such node, and for the
    /// root. Takes no memory.
    pub fn node_at(&self, path: &[u64]) -> Option<&Node>
        ensures { IsNodeAt self.now path.now (option_map (λ node. node.now) result) }
    {
        let (position, above) = path.split_last()?;
        sibling_at(self.children_at(above)?, *position)
    }

    /// The nodes directly below the node that these positions lead to. None exactly where there is no such node.
    /// Takes no memory.
    pub fn children_at(&self, path: &[u64]) -> Option<&[Rc<Node>]>
        ensures { option_map (λ children. forest_of children.now) result ≡ option_map (λ node. node.children) (node_at self.now path.now) }
    {
        let mut siblings = self.children.as_slice();
        for position in path {
            siblings = sibling_at(siblings, *position)?.children();
        }
        Some(siblings)
    }

    /// The namespaces in scope inside the node that these positions lead to, where they lead to one.
    pub fn scope_at(&self, alloc: Global, path: &[u64]) -> Result<Scope, Memory>
        ensures { IfOk result (λ scope. ForSome (node_at self.now path.now) (λ node. scope ≡ scope_at node)) }
    {
        let mut scope = Scope::root(alloc)?;
        let mut siblings = self.children.as_slice();
        for position in path {
            match sibling_at(siblings, *position) {
                None => return Ok(scope),
                Some(node) => {
                    enter(alloc, &mut scope, node.content())?;
                    siblings = node.children.as_slice();
                }
            }
        }
        Ok(scope)
    }

    /// The document in which the node at this position, from 1, below the node that the positions lead to has this
    /// content. Its number stays, and so do names in it and below it.
    pub fn with_content(
        &self,
        alloc: Global,
        parent: &[u64],
        position: u64,
        content: Content,
    ) -> Result<Doc, Memory>
        requires { ForSome (content_below self.now parent.now position) (λ old. KeepsNames old (content_of content)) }
        ensures { IfOk result (λ doc. doc ≡ record { root = self.now.root; nodes = children_changed (content_replaced position (content_of content)) parent.now self.now.nodes }) }
    {
        let indexed = Indexed::new(alloc, content)?;
        let content = Rc::new(alloc, indexed)?;
        let children = with_content(alloc, self.children.as_slice(), parent, position, &content)?;
        let keys = self.keys.copy()?;
        let names = self.names.clone()?;
        let unknown = ByNumber::none(alloc);
        let by_number = Rc::new(alloc, unknown)?;
        Ok(Doc {
            root: self.root,
            keys,
            names,
            by_number,
            children,
        })
    }
}
