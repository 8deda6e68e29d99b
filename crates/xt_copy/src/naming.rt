// The scopes of nodes, and what names and namespaces are in them.
ghost use Rattle.std.specs.Prelude.{◌≡◌, [], map, IfOk};
ghost use Rattle.std.specs.Option.{unwrap_or};
ghost use Rattle.std.specs.Str.{chars};
ghost use Rattle.spec_document.specs.Declaration as declaration;
ghost use Rattle.spec_document.specs.Scope.{resolved};
ghost use Rattle.xt_names.specs.View.{entry_of, entries_of};
ghost use Rattle.xt_tree.specs.View.{content_of, written_of};
ghost use Rattle.xt_copy.specs.Copied as copied;

use std::alloc::Global;
use std::rc::Rc;
use xt_names::{Namespace, QName, Scope};
use xt_text::{Memory, Text};
use xt_tree::{Content, Written};

/// The scope inside a node with this content that stands in this scope.
pub(crate) fn scope_inside(alloc: Global, scope: &Scope, content: &Content) -> Result<Scope, Memory>
    ensures { IfOk result (λ inner. inner ≡ declaration.within (content_of content.now) scope.now) }
{
    match content {
        Content::Element { attributes, .. } => declared(alloc, scope, attributes.as_slice()),
        Content::Text { .. } | Content::Comment { .. } | Content::Instruction { .. } =>
            scope.copy(),
    }
}

// The scope after what these declare.
fn declared(alloc: Global, scope: &Scope, attributes: &[Written]) -> Result<Scope, Memory>
    ensures { IfOk result (λ inner. inner ≡ declaration.declared_all (map written_of attributes.now) scope.now) }
{
    let mut inner = scope.copy()?;
    for attribute in attributes {
        inner.declare(alloc, attribute.name.as_str(), attribute.value.as_str())?;
    }
    Ok(inner)
}

/// The URI of an element of this name as written; empty where the name has none.
pub(crate) fn element_uri(alloc: Global, scope: &Scope, written: &str) -> Result<Text, Memory>
    ensures { IfOk result (λ uri. uri ≡ copied.element_uri scope.now (chars written.now)) }
{
    match QName::read(written) {
        None => Ok(Text::new(alloc)),
        Some(name) => element_namespace(alloc, scope, &name),
    }
}

fn element_namespace(alloc: Global, scope: &Scope, name: &QName<'_>) -> Result<Text, Memory>
    ensures { IfOk result (λ uri. uri ≡ copied.uri_by (declaration.element_name scope.now name.now)) }
{
    match name.prefix() {
        None => prefix_uri(alloc, scope, ""),
        Some(prefix) => prefix_uri(alloc, scope, prefix),
    }
}

/// The URI of an attribute of this name as written; empty where the name has none.
pub(crate) fn attribute_uri(alloc: Global, scope: &Scope, written: &str) -> Result<Text, Memory>
    ensures { IfOk result (λ uri. uri ≡ copied.attribute_uri scope.now (chars written.now)) }
{
    match QName::read(written) {
        None => Ok(Text::new(alloc)),
        Some(name) => attribute_namespace(alloc, scope, &name),
    }
}

fn attribute_namespace(alloc: Global, scope: &Scope, name: &QName<'_>) -> Result<Text, Memory>
    ensures { IfOk result (λ uri. uri ≡ copied.uri_by (declaration.attribute_name scope.now name.now)) }
{
    match name.prefix() {
        None => Ok(Text::new(alloc)),
        Some(prefix) => prefix_uri(alloc, scope, prefix),
    }
}

// The URI of the prefix, the empty one for the default namespace; empty where there is none.
fn prefix_uri(alloc: Global, scope: &Scope, prefix: &str) -> Result<Text, Memory>
    ensures { IfOk result (λ uri. uri ≡ unwrap_or (resolved scope.now (chars prefix.now)) []) }
{
    match scope.resolve(prefix) {
        None => Ok(Text::new(alloc)),
        Some(uri) => uri.copy(alloc),
    }
}

/// The namespaces in scope, in document order.
pub(crate) fn namespaces_in(alloc: Global, scope: &Scope) -> Result<Vec<Namespace>, Memory>
    ensures { IfOk result (λ list. map entry_of list.items ≡ declaration.namespaces_in scope.now) }
{
    let shared = scope.namespaces(alloc)?;
    copy_all(alloc, shared.as_slice())
}

fn copy_all(alloc: Global, namespaces: &[Rc<Namespace>]) -> Result<Vec<Namespace>, Memory>
    ensures { IfOk result (λ list. map entry_of list.items ≡ entries_of namespaces.now) }
{
    let mut list = Vec::new(alloc);
    for namespace in namespaces {
        let copy = copy_namespace(alloc, namespace)?;
        list.push(copy)?;
    }
    Ok(list)
}

fn copy_namespace(alloc: Global, namespace: &Namespace) -> Result<Namespace, Memory>
    ensures { IfOk result (λ copy. entry_of copy ≡ entry_of namespace.now) }
{
    let prefix = namespace.prefix.copy(alloc)?;
    let uri = namespace.uri.copy(alloc)?;
    Ok(Namespace { prefix, uri })
}
