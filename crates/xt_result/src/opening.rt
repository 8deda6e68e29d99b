// The start of an element that is being made: its declarations, its attributes, and what is in force.
ghost use Rattle.std.specs.Prelude.{◌≡◌, ◌||◌, IfOk, OnOk, bytes_eq, ℕ, List, []};
ghost use Rattle.std.specs.Str.{chars};
ghost use Rattle.xt_names.specs.NamesSoFar.{is_written, texts_in};
ghost use Rattle.xt_names.specs.View.{entry_of};
ghost use Rattle.spec_result.specs.Shape.{begun, declaration, declare, is_bound_to, needing, settle, with_node, write};
ghost use Rattle.xt_tree.specs.View.{written_of};
ghost use Rattle.xt_result.specs.View.{opening_of};

use std::alloc::Global;
use std::collections::BTreeSet;
use xt_names::{Namespace, Scope};
use xt_text::{Memory, Text};
use xt_tree::Written;

/// The start of an element so far. Contracts see it as the definition has it, by `opening_of`.
#[derive(Drop)]
pub(crate) struct Opening {
    /// In the order made.
    pub(crate) declarations: Vec<Written>,
    /// In their order, with the prefixes that they are written with.
    pub(crate) attributes: Vec<Written>,
    /// What is in force inside the element.
    pub(crate) scope: Scope,
    /// The prefixes that have their meaning here already.
    pub(crate) settled: BTreeSet<String>,
}

impl Opening {
    /// The start of an element in this scope, before any declaration.
    pub(crate) fn new(alloc: Global, scope: &Scope) -> Result<Opening, Memory>
        ensures { IfOk result (λ opening. opening_of opening ≡ begun scope.now) }
    {
        Ok(Opening {
            declarations: Vec::new(alloc),
            attributes: Vec::new(alloc),
            scope: scope.copy()?,
            settled: BTreeSet::new(alloc),
        })
    }

    /// The prefix has its meaning here, and can be declared no more.
    pub(crate) fn settle(&mut self, alloc: Global, prefix: &Text) -> Result<(), Memory>
        ensures { OnOk result (opening_of self.new ≡ settle prefix.now (opening_of self.old)) }
    {
        insert_text(&mut self.settled, alloc, prefix.as_str())
    }

    /// Whether the prefix stands for the URI, the empty one where it stands for none.
    pub(crate) fn is_bound(&self, prefix: &Text, uri: &Text) -> bool
        ensures { result ≡ is_bound_to (opening_of self.now).scope prefix.now uri.now }
    {
        match self.scope.resolve(prefix.as_str()) {
            None => uri.is_empty(),
            Some(there) => there.same(uri),
        }
    }

    /// Declares the prefix, which has its meaning here then.
    pub(crate) fn declare(&mut self, alloc: Global, prefix: &Text, uri: &Text) -> Result<(), Memory>
        ensures { OnOk result (opening_of self.new ≡ declare prefix.now uri.now (opening_of self.old)) }
    {
        let written = declaration(alloc, prefix, uri)?;
        self.declarations.push(written)?;
        self.scope.bind(alloc, prefix.as_str(), uri.as_str())?;
        self.settle(alloc, prefix)
    }

    /// Declares the prefix where it stands for another URI.
    pub(crate) fn need(&mut self, alloc: Global, prefix: &Text, uri: &Text) -> Result<(), Memory>
        ensures { OnOk result (opening_of self.new ≡ needing prefix.now uri.now (opening_of self.old)) }
    {
        if self.is_bound(prefix, uri) {
            return Ok(());
        }
        self.declare(alloc, prefix, uri)
    }

    /// Copies a namespace node: it is declared where it is not in force, and dropped where its prefix has
    /// another meaning here.
    pub(crate) fn copy_node(&mut self, alloc: Global, node: &Namespace) -> Result<(), Memory>
        ensures { OnOk result (opening_of self.new ≡ with_node (entry_of node.now) (opening_of self.old)) }
    {
        if self.is_bound(&node.prefix, &node.uri) {
            return Ok(());
        }
        if self.is_settled(&node.prefix) {
            return Ok(());
        }
        self.declare(alloc, &node.prefix, &node.uri)
    }

    /// Whether the prefix has its meaning here already.
    pub(crate) fn is_settled(&self, prefix: &Text) -> bool
        ensures { result ≡ (opening_of self.now).settled prefix.now }
    {
        is_among(&self.settled, prefix.as_str())
    }

    /// Adds an attribute as it is written.
    pub(crate) fn write(&mut self, name: Text, value: Text) -> Result<(), Memory>
        ensures { OnOk result (opening_of self.new ≡ write name value (opening_of self.old)) }
    {
        self.attributes.push(Written { name, value })?;
        Ok(())
    }
}

// The declaration of a prefix, the empty one for the default namespace.
fn declaration(alloc: Global, prefix: &Text, uri: &Text) -> Result<Written, Memory>
    ensures { IfOk result (λ written. written_of written ≡ declaration prefix.now uri.now) }
{
    Ok(Written {
        name: declaration_name(alloc, prefix)?,
        value: uri.copy(alloc)?,
    })
}

fn declaration_name(alloc: Global, prefix: &Text) -> Result<Text, Memory>
    ensures { IfOk result (λ name. name ≡ (declaration prefix.now []).name) }
{
    if prefix.is_empty() {
        return Text::from_str(alloc, "xmlns");
    }
    let mut name = Text::from_str(alloc, "xmlns:")?;
    name.push_str(prefix.as_str())?;
    Ok(name)
}

// Whether a text is among these.
fn is_among(texts: &BTreeSet<String>, text: &str) -> bool
    ensures { result ≡ is_written (texts_in texts.now.keys) (chars text.now) }
{
    texts.contains(text)
}

// Adds a text.
fn insert_text(texts: &mut BTreeSet<String>, alloc: Global, text: &str) -> Result<(), Memory>
    ensures { OnOk result ((other : List ℕ) → is_written (texts_in texts.new.keys) other ≡ (bytes_eq (chars text.now) other || is_written (texts_in texts.old.keys) other)) }
{
    let key = String::from_str(alloc, text)?;
    texts.insert(key)?;
    Ok(())
}
