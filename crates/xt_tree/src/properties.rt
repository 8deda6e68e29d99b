// What nodes are: their kinds, names and values.
ghost use Rattle.std.specs.Prelude.{◌≡◌, map, IfOk, [], IsSome, Some};
ghost use Rattle.std.specs.Option.{option_map, option_and_then, ForSome};
ghost use Rattle.std.specs.Str.{chars};
ghost use Rattle.spec_document.specs.Name.{qname_of, same_expanded};
ghost use Rattle.spec_document.specs.Declaration.{namespaces_in, attribute_name};
ghost use Rattle.spec_document.specs.Place.{expanded_name, name_by, scope_at, kind_of, kind_by, string_value, string_value_by, written_by, written_name, attributes_of, namespaces_of, at_number};
ghost use Rattle.xt_names.specs.View.{entries_of};
ghost use Rattle.xt_tree.specs.View.{content_of, item_of, numbered_node, written_of};

use crate::find::{texts_of, value_of};
use crate::names::{has_local, is_local, is_name, is_plain_name};
use crate::part::{attribute_name, attributes_in, content_name, content_written};
use crate::{Content, Doc, NodeId, NodeRef, Part, Written};
use spec_document::Kind;
use std::alloc::Global;
use std::rc::Rc;
use xt_names::{Expanded, Namespace, copy_name_if, is_ncname};
use xt_text::{Memory, Text};

impl Doc {
    /// The kind of a node of the tree. Takes no memory.
    pub fn kind(&self, node: &NodeRef) -> Kind
        requires { IsSome (item_of self.now node.now) }
        ensures { option_map kind_of (item_of self.now node.now) ≡ Some result }
    {
        match node.part {
            Part::Attribute(_) => Kind::Attribute,
            Part::Namespace(_) => Kind::Namespace,
            Part::Itself => self.own_kind(node.node),
        }
    }

    // The kind of the node of this number, or of the root.
    pub(crate) fn own_kind(&self, id: NodeId) -> Kind
        ensures { ForSome (numbered_node self.now id.number) (λ node. result ≡ kind_by node.content) }
    {
        match self.content(id) {
            None => Kind::Root,
            Some(content) => content.kind(),
        }
    }

    /// The string-value of a node of the tree (XPath 1.0, section 5): of the root and an element the texts
    /// below, of an attribute its value, of a namespace node its URI, of any other node its content.
    pub fn string_value(&self, alloc: Global, node: &NodeRef) -> Result<Text, Memory>
        requires { IsSome (item_of self.now node.now) }
        ensures { IfOk result (λ text. option_map string_value (item_of self.now node.now) ≡ Some text) }
    {
        match node.part {
            Part::Itself => self.own_value(alloc, node.node),
            Part::Attribute(number) => self.attribute_value(alloc, node.node, number),
            Part::Namespace(number) => self.namespace_uri(alloc, node, number),
        }
    }

    fn own_value(&self, alloc: Global, id: NodeId) -> Result<Text, Memory>
        ensures { IfOk result (λ text. ForSome (numbered_node self.now id.number) (λ node. text ≡ string_value_by node.content node.children)) }
    {
        if self.root == id {
            return texts_of(alloc, self.children.as_slice());
        }
        match self.node(id) {
            None => Ok(Text::new(alloc)),
            Some(node) => value_of(alloc, node),
        }
    }

    fn attribute_value(&self, alloc: Global, id: NodeId, number: u64) -> Result<Text, Memory>
        ensures { IfOk result (λ text. ForSome (numbered_node self.now id.number) (λ node. ForSome (at_number number (attributes_of node)) (λ a. text ≡ a.value))) }
    {
        match self.attribute(id, number) {
            None => Ok(Text::new(alloc)),
            Some(attribute) => attribute.value.copy(alloc),
        }
    }

    // The namespaces in scope at a node. The condition that it is an element is the caller's.
    fn namespace_uri(&self, alloc: Global, node: &NodeRef, number: u64) -> Result<Text, Memory>
        ensures { IfOk result (λ text. ForSome (numbered_node self.now node.now.node.number) (λ found. ForSome (at_number number (namespaces_in (scope_at found))) (λ n. text ≡ n.1))) }
    {
        let scope = self.scope_of(alloc, node)?;
        match scope.namespace(number) {
            None => Ok(Text::new(alloc)),
            Some(namespace) => namespace.uri.copy(alloc),
        }
    }

    /// The attributes of a node in their order: the first is the attribute 1 of the node. Only elements have
    /// some.
    pub fn attributes(&self, alloc: Global, id: NodeId) -> Result<Vec<&Written>, Memory>
        ensures { IfOk result (λ list. ForSome (numbered_node self.now id.number) (λ node. map (λ a. written_of a.now) list.items ≡ attributes_of node)) }
    {
        match self.content(id) {
            None => Ok(Vec::new(alloc)),
            Some(content) => attributes_in(alloc, content),
        }
    }

    // The attribute of this number of the node, where there is one.
    pub(crate) fn attribute(&self, id: NodeId, number: u64) -> Option<&Written>
        ensures { ForSome (numbered_node self.now id.number) (λ node. option_map (λ a. written_of a.now) result ≡ at_number number (attributes_of node)) }
    {
        if self.root == id {
            return None;
        }
        match self.node(id) {
            None => None,
            Some(node) => node.attribute(number),
        }
    }

    /// The namespace nodes of a node in document order: the first is the namespace node 1 of the node. Only
    /// elements have some.
    pub fn namespaces(&self, alloc: Global, id: NodeId) -> Result<Vec<Rc<Namespace>>, Memory>
        ensures { IfOk result (λ list. ForSome (numbered_node self.now id.number) (λ node. entries_of list.items ≡ namespaces_of node)) }
    {
        match self.own_kind(id) {
            Kind::Element => self.scope_of(alloc, &NodeRef::of(id))?.namespaces(alloc),
            _ => Ok(Vec::new(alloc)),
        }
    }

    /// The name of a node of the tree as it is written: of an element and an attribute the QName, of a
    /// processing instruction its target, of a namespace node its prefix. Empty for any other node.
    pub fn written_name(&self, alloc: Global, node: &NodeRef) -> Result<Text, Memory>
        requires { IsSome (item_of self.now node.now) }
        ensures { IfOk result (λ text. option_map written_name (item_of self.now node.now) ≡ Some text) }
    {
        match node.part {
            Part::Itself => self.own_written(alloc, node.node),
            Part::Attribute(number) => self.attribute_written(alloc, node.node, number),
            Part::Namespace(number) => self.namespace_prefix(alloc, node, number),
        }
    }

    fn own_written(&self, alloc: Global, id: NodeId) -> Result<Text, Memory>
        ensures { IfOk result (λ text. ForSome (numbered_node self.now id.number) (λ node. text ≡ written_by node.content)) }
    {
        match self.content(id) {
            None => Ok(Text::new(alloc)),
            Some(content) => content_written(alloc, content),
        }
    }

    fn attribute_written(&self, alloc: Global, id: NodeId, number: u64) -> Result<Text, Memory>
        ensures { IfOk result (λ text. ForSome (numbered_node self.now id.number) (λ node. ForSome (at_number number (attributes_of node)) (λ a. text ≡ a.name))) }
    {
        match self.attribute(id, number) {
            None => Ok(Text::new(alloc)),
            Some(attribute) => attribute.name.copy(alloc),
        }
    }

    // The namespaces in scope at a node. The condition that it is an element is the caller's.
    fn namespace_prefix(&self, alloc: Global, node: &NodeRef, number: u64) -> Result<Text, Memory>
        ensures { IfOk result (λ text. ForSome (numbered_node self.now node.now.node.number) (λ found. ForSome (at_number number (namespaces_in (scope_at found))) (λ n. text ≡ n.0))) }
    {
        let scope = self.scope_of(alloc, node)?;
        match scope.namespace(number) {
            None => Ok(Text::new(alloc)),
            Some(namespace) => namespace.prefix.copy(alloc),
        }
    }

    /// The expanded name of a node of the tree (XPath 1.0, section 5). None exactly for the root, a text
    /// and a comment, and where a prefix is not declared; a processing instruction has its target as local
    /// part and a namespace node its prefix, both in no namespace.
    pub fn name(&self, alloc: Global, node: &NodeRef) -> Result<Option<Expanded>, Memory>
        requires { IsSome (item_of self.now node.now) }
        ensures { IfOk result (λ name. option_map expanded_name (item_of self.now node.now) ≡ Some name) }
    {
        match node.part {
            Part::Itself => self.own_name(alloc, node),
            Part::Attribute(number) => self.attribute_name(alloc, node, number),
            Part::Namespace(number) => self.namespace_name(alloc, node, number),
        }
    }

    fn own_name(&self, alloc: Global, node: &NodeRef) -> Result<Option<Expanded>, Memory>
        ensures { IfOk result (λ name. ForSome (numbered_node self.now node.now.node.number) (λ found. name ≡ name_by found.content (scope_at found))) }
    {
        match self.names.get(node.node) {
            Some(called) => copy_name_if(alloc, &called.name),
            None => self.resolved_name(alloc, node),
        }
    }

    // The same where no name is kept.
    fn resolved_name(&self, alloc: Global, node: &NodeRef) -> Result<Option<Expanded>, Memory>
        ensures { IfOk result (λ name. ForSome (numbered_node self.now node.now.node.number) (λ found. name ≡ name_by found.content (scope_at found))) }
    {
        match self.content(node.node) {
            None => Ok(None),
            Some(content) => self.name_there(alloc, node, content),
        }
    }

    // The name of a node of this content in the place of this one. A text and a comment have none, whatever the scope.
    fn name_there(
        &self,
        alloc: Global,
        node: &NodeRef,
        content: &Content,
    ) -> Result<Option<Expanded>, Memory>
        ensures { IfOk result (λ name. ForSome (numbered_node self.now node.now.node.number)
            (λ found. name ≡ name_by (Some (content_of content.now)) (scope_at found))) }
    {
        match content {
            Content::Element { .. } | Content::Instruction { .. } => {
                let scope = self.scope_of(alloc, node)?;
                content_name(alloc, content, &scope)
            }
            Content::Text { .. } | Content::Comment { .. } => Ok(None),
        }
    }

    fn attribute_name(
        &self,
        alloc: Global,
        node: &NodeRef,
        number: u64,
    ) -> Result<Option<Expanded>, Memory>
        ensures { IfOk result (λ name. ForSome (numbered_node self.now node.now.node.number) (λ found. ForSome (at_number number (attributes_of found))
            (λ a. name ≡ option_and_then (attribute_name (scope_at found)) (qname_of a.name)))) }
    {
        match self.attribute(node.node, number) {
            None => Ok(None),
            Some(attribute) => self.resolved_attribute(alloc, node, &attribute.name),
        }
    }

    // The name of an attribute of this node that is written so. Only one with a prefix needs the scope.
    fn resolved_attribute(
        &self,
        alloc: Global,
        node: &NodeRef,
        written: &Text,
    ) -> Result<Option<Expanded>, Memory>
        ensures { IfOk result (λ name. ForSome (numbered_node self.now node.now.node.number)
            (λ found. name ≡ option_and_then (attribute_name (scope_at found)) (qname_of written.now))) }
    {
        if is_ncname(written.as_str()) {
            let local = written.copy(alloc)?;
            return Ok(Some(Expanded::new(Text::new(alloc), local)));
        }
        let scope = self.scope_of(alloc, node)?;
        attribute_name(alloc, written.as_str(), &scope)
    }

    fn namespace_name(
        &self,
        alloc: Global,
        node: &NodeRef,
        number: u64,
    ) -> Result<Option<Expanded>, Memory>
        ensures { IfOk result (λ name. ForSome (numbered_node self.now node.now.node.number) (λ found. ForSome (at_number number (namespaces_in (scope_at found)))
            (λ n. name ≡ Some (record { uri = []; local = n.0 })))) }
    {
        let scope = self.scope_of(alloc, node)?;
        match scope.namespace(number) {
            None => Ok(None),
            Some(namespace) => Ok(Some(Expanded::new(
                Text::new(alloc),
                namespace.prefix.copy(alloc)?,
            ))),
        }
    }

    /// Whether the node has this expanded name. Copies no name that is kept or that needs no declaration. (XPath 1.0,
    /// 2.3)
    pub fn is_named(&self, alloc: Global, node: &NodeRef, wanted: &Expanded) -> Result<bool, Memory>
        requires { IsSome (item_of self.now node.now) }
        ensures { IfOk result (λ is. option_map (λ item. same_expanded (Some wanted.now) (expanded_name item)) (item_of self.now node.now) ≡ Some is) }
    {
        match node.part {
            Part::Itself => self.own_is_named(alloc, node, wanted),
            Part::Attribute(number) => self.attribute_is_named(alloc, node, number, wanted),
            Part::Namespace(number) => self.namespace_is_named(alloc, node, number, wanted),
        }
    }

    fn own_is_named(&self, alloc: Global, node: &NodeRef, wanted: &Expanded) -> Result<bool, Memory>
        ensures { IfOk result (λ is. ForSome (numbered_node self.now node.now.node.number)
            (λ found. is ≡ same_expanded (Some wanted.now) (name_by found.content (scope_at found)))) }
    {
        match self.names.get(node.node) {
            Some(called) => Ok(is_name(&called.name, wanted)),
            None => self.resolves_to(alloc, node, wanted),
        }
    }

    // The same where no name is kept. Where the local part is another, no scope is made.
    fn resolves_to(&self, alloc: Global, node: &NodeRef, wanted: &Expanded) -> Result<bool, Memory>
        ensures { IfOk result (λ is. ForSome (numbered_node self.now node.now.node.number)
            (λ found. is ≡ same_expanded (Some wanted.now) (name_by found.content (scope_at found)))) }
    {
        match self.content(node.node) {
            None => Ok(false),
            Some(content) => self.is_there_named(alloc, node, content, wanted),
        }
    }

    // Whether a node of this content has this name in the place of this one.
    fn is_there_named(
        &self,
        alloc: Global,
        node: &NodeRef,
        content: &Content,
        wanted: &Expanded,
    ) -> Result<bool, Memory>
        ensures { IfOk result (λ is. ForSome (numbered_node self.now node.now.node.number)
            (λ found. is ≡ same_expanded (Some wanted.now) (name_by (Some (content_of content.now)) (scope_at found)))) }
    {
        if !has_local(content, wanted.local()) {
            return Ok(false);
        }
        let scope = self.scope_of(alloc, node)?;
        let name = content_name(alloc, content, &scope)?;
        Ok(is_name(&name, wanted))
    }

    fn attribute_is_named(
        &self,
        alloc: Global,
        node: &NodeRef,
        number: u64,
        wanted: &Expanded,
    ) -> Result<bool, Memory>
        ensures { IfOk result (λ is. ForSome (numbered_node self.now node.now.node.number) (λ found. ForSome (at_number number (attributes_of found))
            (λ a. is ≡ same_expanded (Some wanted.now) (option_and_then (attribute_name (scope_at found)) (qname_of a.name))))) }
    {
        match self.attribute(node.node, number) {
            None => Ok(false),
            Some(attribute) => {
                self.attribute_means(alloc, node, attribute.name.as_str(), wanted)
            }
        }
    }

    // Whether an attribute of this node that is written so has this name.
    fn attribute_means(
        &self,
        alloc: Global,
        node: &NodeRef,
        written: &str,
        wanted: &Expanded,
    ) -> Result<bool, Memory>
        ensures { IfOk result (λ is. ForSome (numbered_node self.now node.now.node.number)
            (λ found. is ≡ same_expanded (Some wanted.now) (option_and_then (attribute_name (scope_at found)) (qname_of (chars written.now))))) }
    {
        if is_ncname(written) {
            return Ok(is_plain_name(written, wanted));
        }
        if !is_local(written, wanted.local()) {
            return Ok(false);
        }
        let scope = self.scope_of(alloc, node)?;
        let name = attribute_name(alloc, written, &scope)?;
        Ok(is_name(&name, wanted))
    }

    fn namespace_is_named(
        &self,
        alloc: Global,
        node: &NodeRef,
        number: u64,
        wanted: &Expanded,
    ) -> Result<bool, Memory>
        ensures { IfOk result (λ is. ForSome (numbered_node self.now node.now.node.number) (λ found. ForSome (at_number number (namespaces_in (scope_at found)))
            (λ n. is ≡ same_expanded (Some wanted.now) (Some (record { uri = []; local = n.0 }))))) }
    {
        let name = self.namespace_name(alloc, node, number)?;
        Ok(is_name(&name, wanted))
    }
}
