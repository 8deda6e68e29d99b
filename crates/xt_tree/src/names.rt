// The expanded names that a document keeps of its nodes, and the scopes inside its elements, so that they are resolved once.
ghost use Rattle.std.specs.Prelude.{ℕ, ◌≡◌, ◌++◌, [], None, Some, IfOk, OnOk};
ghost use Rattle.std.specs.List.{slice_get};
ghost use Rattle.std.specs.Option.{option_map};
ghost use Rattle.std.specs.Str.{chars};
ghost use Rattle.spec_document.specs.Name.{qname_of, same_expanded, same_name};
ghost use Rattle.spec_document.specs.Scope.{root_scope};
ghost use Rattle.xt_tree.specs.Kept.{called_by, kept_at, names_in, scope_by, scope_kept};
ghost use Rattle.xt_tree.specs.Local.{has_local, is_local};
ghost use Rattle.xt_tree.specs.Room.{all_suit, is_nameless, is_nothing, suits};
ghost use Rattle.xt_tree.specs.View.{content_of, forest_of};

use crate::part::{content_name, enter};
use crate::{Content, Node, NodeId};
use std::alloc::Global;
use std::rc::Rc;
use xt_names::{Expanded, QName, Scope};
use xt_text::{Memory, Text};

/// What is kept of a node: its expanded name, if it has one, and of an element the scope inside it.
#[derive(Drop)]
pub struct Called {
    pub name: Option<Expanded>,
    pub scope: Option<Scope>,
}

/// What is kept of nodes whose numbers follow one another.
#[derive(Drop)]
pub struct Names {
    // The number that the first of them has.
    first: u64,
    list: Vec<Called>,
}

impl Names {
    /// Of no node. Takes no memory.
    pub fn none(alloc: Global) -> Names
        ensures { (number : ℕ) → kept_at result number ≡ None }
    {
        Names {
            first: 0,
            list: Vec::new(alloc),
        }
    }

    /// Of these siblings below a root and of all below them, which are numbered in document order from `first` on.
    pub fn of(alloc: Global, first: u64, siblings: &[Rc<Node>]) -> Result<Names, Memory>
        ensures first { IfOk result (λ names. names.first ≡ first) }
        ensures names { IfOk result (λ names. names.list.items ≡ names_in root_scope (forest_of siblings.now)) }
    {
        let mut list = Vec::new(alloc);
        let scope = Scope::root(alloc)?;
        push_names(alloc, &mut list, siblings, &scope)?;
        Ok(Names { first, list })
    }

    /// What is kept for this number.
    pub fn get(&self, id: NodeId) -> Option<&Called>
        ensures { option_map (λ called. called.now) result ≡ kept_at self.now id.number }
    {
        if id.number < self.first {
            return None;
        }
        called_at(self.list.as_slice(), id.number - self.first)
    }

    /// The scope that is kept for this number.
    pub fn scope(&self, id: NodeId) -> Option<&Scope>
        ensures { option_map (λ scope. scope.now) result ≡ scope_kept self.now id.number }
    {
        match self.get(id) {
            None => None,
            Some(called) => scope_in(called),
        }
    }

    /// Whether what is kept for the numbers of these siblings and of all below them is right wherever they stand.
    pub fn all_suit(&self, siblings: &[Rc<Node>]) -> bool
        ensures { result ≡ all_suit (kept_at self.now) (forest_of siblings.now) }
    {
        for sibling in siblings {
            if !suits(sibling.content(), self.get(sibling.id())) {
                return false;
            }
            if !self.all_suit(sibling.children()) {
                return false;
            }
        }
        true
    }
}

// Whether a node with this content may have any place where this is kept for its number.
fn suits(content: &Content, called: Option<&Called>) -> bool
    ensures { result ≡ suits (content_of content.now) (option_map (λ called. called.now) called.entry) }
{
    match called {
        None => true,
        Some(called) => is_nameless(content) && is_nothing(called),
    }
}

// Whether a node with this content has no name, and no scope is kept of it, wherever it stands.
fn is_nameless(content: &Content) -> bool
    ensures { result ≡ is_nameless (content_of content.now) }
{
    match content {
        Content::Text { .. } | Content::Comment { .. } => true,
        Content::Element { .. } | Content::Instruction { .. } => false,
    }
}

// Whether that is what is kept.
fn is_nothing(called: &Called) -> bool
    ensures { result ≡ is_nothing called.now }
{
    called.name.is_none() && called.scope.is_none()
}

fn scope_in(called: &Called) -> Option<&Scope>
    ensures { option_map (λ scope. scope.now) result ≡ called.now.scope }
{
    match &called.scope {
        None => None,
        Some(scope) => Some(scope),
    }
}

// What stands at this index, from 0.
fn called_at(list: &[Called], index: u64) -> Option<&Called>
    ensures { option_map (λ called. called.now) result ≡ slice_get list.now index }
{
    if index >= list.len() as u64 {
        return None;
    }
    Some(&list[index as usize])
}

// Adds what is kept of these siblings, which stand in this scope, and of all below them.
fn push_names(
    alloc: Global,
    list: &mut Vec<Called>,
    siblings: &[Rc<Node>],
    scope: &Scope,
) -> Result<(), Memory>
    ensures { OnOk result (list.new.items ≡ list.old.items ++ names_in scope.now (forest_of siblings.now)) }
{
    for sibling in siblings {
        let mut inner = scope.copy()?;
        enter(alloc, &mut inner, sibling.content())?;
        let called = called_by(alloc, sibling.content(), &inner)?;
        list.push(called)?;
        push_names(alloc, list, sibling.children.as_slice(), &inner)?;
    }
    Ok(())
}

// What is kept of a node with this content, inside which this scope is.
fn called_by(alloc: Global, content: &Content, scope: &Scope) -> Result<Called, Memory>
    ensures { IfOk result (λ called. called ≡ called_by (Some (content_of content.now)) scope.now) }
{
    let name = content_name(alloc, content, scope)?;
    let Ok(scope) = scope_by(content, scope) else {
        drop(name);
        return Err(Memory);
    };
    Ok(Called { name, scope })
}

// The scope inside an element; it is kept of no other node.
fn scope_by(content: &Content, scope: &Scope) -> Result<Option<Scope>, Memory>
    ensures { IfOk result (λ own. own ≡ scope_by (Some (content_of content.now)) scope.now) }
{
    match content {
        Content::Element { .. } => Ok(Some(scope.copy()?)),
        Content::Text { .. } | Content::Comment { .. } | Content::Instruction { .. } => Ok(None),
    }
}

/// Whether a name that may be none is this one.
pub fn is_name(name: &Option<Expanded>, wanted: &Expanded) -> bool
    ensures { result ≡ same_expanded (Some wanted.now) name.now }
{
    match name {
        None => false,
        Some(name) => wanted.same(name),
    }
}

/// Whether the name of this local part in no namespace is this one.
pub fn is_plain_name(local: &str, wanted: &Expanded) -> bool
    ensures { result ≡ same_name wanted.now (record { uri = []; local = chars local.now }) }
{
    wanted.uri().is_empty() && wanted.local().is(local)
}

/// Whether the name of a node of this content has this local part, wherever it stands.
pub fn has_local(content: &Content, local: &Text) -> bool
    ensures { result ≡ has_local local.now (content_of content.now) }
{
    match content {
        Content::Element { name, .. } => is_local(name.as_str(), local),
        Content::Instruction { target, .. } => local.same(target),
        Content::Text { .. } | Content::Comment { .. } => false,
    }
}

/// Whether what is written so is a name that has this local part.
pub fn is_local(written: &str, local: &Text) -> bool
    ensures { result ≡ is_local local.now (qname_of (chars written.now)) }
{
    match QName::read(written) {
        None => false,
        Some(name) => local.is(name.local()),
    }
}
