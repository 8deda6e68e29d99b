// Where nodes stand, and the namespaces in scope there.
ghost use Rattle.std.specs.Prelude.{ℕ, List, ◌≡◌, IfOk, IsSome, is_some, Some};
ghost use Rattle.std.specs.Option.{option_map, option_and_then, ForSome};
ghost use Rattle.spec_document.specs.Place.{node_at, scope_at, attributes_of, namespaces_of, at_number};
ghost use Rattle.xt_tree.specs.View.{IsPlaceOf, IsWayTo, item_of, numbered_node};

use crate::find::lead;
use crate::{Doc, NodeId, NodeRef, Part};
use spec_document::Kind;
use std::alloc::Global;
use xt_names::Scope;
use xt_text::{Memory, Path};

impl Doc {
    /// The path of the node, or of the element that the attribute or namespace node belongs to: the only
    /// one that leads there. None exactly where the node is none of the tree, nor an attribute or a
    /// namespace node of an element of it.
    pub fn place(&self, alloc: Global, node: &NodeRef) -> Result<Option<Path>, Memory>
        ensures place { IfOk result (λ place. IsPlaceOf self.now node.now place) }
        ensures only { IfOk result (λ place. IsSome (item_of self.now node.now)
            → (path : List ℕ) → option_map (λ n. n.label) (node_at self.now path) ≡ Some node.now.node.number → place ≡ Some path) }
    {
        match node.part {
            Part::Itself => self.way(alloc, node.node),
            Part::Attribute(_) | Part::Namespace(_) => self.owner_place(alloc, node),
        }
    }

    // The path of the element that an attribute or a namespace node belongs to.
    fn owner_place(&self, alloc: Global, node: &NodeRef) -> Result<Option<Path>, Memory>
        ensures place { IfOk result (λ place. IsPlaceOf self.now node.now place) }
        ensures only { IfOk result (λ place. IsSome (item_of self.now node.now)
            → (path : List ℕ) → option_map (λ n. n.label) (node_at self.now path) ≡ Some node.now.node.number → place ≡ Some path) }
    {
        if self.has(alloc, node)? {
            self.way(alloc, node.node)
        } else {
            Ok(None)
        }
    }

    // The path that leads to the node of this number, the only one. None where there is no such node.
    pub(crate) fn way(&self, alloc: Global, id: NodeId) -> Result<Option<Path>, Memory>
        ensures way { IfOk result (λ place. IsWayTo self.now id.number place) }
        ensures only { IfOk result (λ place. (path : List ℕ) → option_map (λ n. n.label) (node_at self.now path) ≡ Some id.number → place ≡ Some path) }
    {
        let mut path = Path::new(alloc);
        if self.root == id {
            return Ok(Some(path));
        }
        if lead(&mut path, &self.keys, self.children.as_slice(), id)? {
            return Ok(Some(path));
        }
        Ok(None)
    }

    /// Whether this is a node of the tree, or an attribute or a namespace node of an element of it.
    pub fn has(&self, alloc: Global, node: &NodeRef) -> Result<bool, Memory>
        ensures { IfOk result (λ has. has ≡ is_some (item_of self.now node.now)) }
    {
        match node.part {
            Part::Itself => Ok(self.contains(node.node)),
            Part::Attribute(number) => Ok(self.has_attribute(node.node, number)),
            Part::Namespace(number) => {
                if !self.contains(node.node) {
                    return Ok(false);
                }
                self.has_namespace(alloc, node, number)
            }
        }
    }

    // Whether a node of the tree has this number.
    fn contains(&self, id: NodeId) -> bool
        ensures { result ≡ is_some (numbered_node self.now id.number) }
    {
        self.root == id || self.node(id).is_some()
    }

    fn has_attribute(&self, id: NodeId, number: u64) -> bool
        ensures { result ≡ is_some (option_and_then (λ node. at_number number (attributes_of node)) (numbered_node self.now id.number)) }
    {
        if self.root == id {
            return false;
        }
        match self.node(id) {
            None => false,
            Some(node) => node.attribute(number).is_some(),
        }
    }

    fn has_namespace(&self, alloc: Global, node: &NodeRef, number: u64) -> Result<bool, Memory>
        ensures { IfOk result (λ has. ForSome (numbered_node self.now node.now.node.number) (λ found. has ≡ is_some (at_number number (namespaces_of found)))) }
    {
        match self.own_kind(node.node) {
            Kind::Element => {
                let scope = self.scope_of(alloc, node)?;
                Ok(scope.namespace(number).is_some())
            }
            _ => Ok(false),
        }
    }

    // The scope at the node of this number, where there is one. One that is kept is shared.
    pub(crate) fn scope_of(&self, alloc: Global, node: &NodeRef) -> Result<Scope, Memory>
        ensures { IfOk result (λ scope. ForSome (numbered_node self.now node.now.node.number) (λ node. scope ≡ scope_at node)) }
    {
        match self.names.scope(node.node) {
            Some(scope) => scope.copy(),
            None => self.scope_by_way(alloc, node),
        }
    }

    // The same by what is declared on the way from the root.
    fn scope_by_way(&self, alloc: Global, node: &NodeRef) -> Result<Scope, Memory>
        ensures { IfOk result (λ scope. ForSome (numbered_node self.now node.now.node.number) (λ node. scope ≡ scope_at node)) }
    {
        match self.way(alloc, node.node)? {
            None => Scope::root(alloc),
            Some(path) => self.scope_at(alloc, path.positions()),
        }
    }
}
