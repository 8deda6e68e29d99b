// The namespaces in scope (Namespaces in XML 1.0, section 6).
ghost use Rattle.std.specs.Prelude.{◌≡◌, IfOk, OnOk, OnErr};
ghost use Rattle.std.specs.Bool.{Decides};
ghost use Rattle.std.specs.Option.{option_copied, option_map};
ghost use Rattle.std.specs.Str.{chars};
ghost use Rattle.spec_document.specs.Scope as spec;
ghost use Rattle.spec_document.specs.Declaration.{namespaces_in};
ghost use Rattle.spec_document.specs.Place.{at_number};
ghost use Rattle.xt_names.specs.View.{entries_of, entry_of};

use crate::search_tree::{Link, find, nth_namespace, push_namespaces, put, same, share};
use crate::{Namespace, XML_URI};
use std::alloc::Global;
use std::marker::Model;
use std::rc::Rc;
use xt_text::{Memory, Text};

/// Which URI each prefix stands for. The default namespace stands under the empty prefix, and the
/// empty URI there means no namespace. A scope is shared: to copy it costs as good as nothing, and one
/// with a declaration more has as good as all its memory in common with it. Contracts see the finite map
/// from prefixes to URIs.
#[derive(Drop)]
pub struct Scope {
    root: Link,
}

impl Model for Scope {
    ghost use Rattle.std.specs.Prelude.{ℕ, List};
    ghost use Rattle.std.specs.Ordering.{nat_cmp};
    ghost use Rattle.std.specs.Cmp.Lexicographic.{slice_cmp};
    ghost use Rattle.std.specs.Coded.{coded_ℕ, coded_list};
    ghost use Rattle.std.specs.FinMap as finite;

    ghost Value = { finite.FinMap (slice_cmp nat_cmp) (List ℕ) };

    ghost coded = { finite.code (coded_list coded_ℕ) (coded_list coded_ℕ) };

    ghost use Rattle.xt_names.specs.SearchTree.{link_entries, IsOrdered};

    ghost view = { λ s. finite.from_sorted (link_entries s.root) };

    ghost invariant = { λ s. IsOrdered (link_entries s.root) };
}

impl Scope {
    /// The scope before any declaration: the prefix `xml` alone.
    pub fn root(alloc: Global) -> Result<Scope, Memory>
        ensures { IfOk result (λ scope. scope ≡ spec.root_scope) }
    {
        let mut scope = Scope { root: None };
        scope.bind(alloc, "xml", XML_URI)?;
        Ok(scope)
    }

    /// Declares the prefix, the empty one for the default namespace; an older declaration of it no
    /// longer counts. Takes a logarithm of the number of prefixes. After want of memory the scope is as
    /// before.
    pub fn bind(&mut self, alloc: Global, prefix: &str, uri: &str) -> Result<(), Memory>
        ensures ok { OnOk result (self.new ≡ spec.bound self.old (chars prefix.now) (chars uri.now)) }
        ensures err { OnErr result (self.new ≡ self.old) }
    {
        let namespace = Rc::new(
            alloc,
            Namespace {
                prefix: Text::from_str(alloc, prefix)?,
                uri: Text::from_str(alloc, uri)?,
            },
        )?;
        let root = put(alloc, &self.root, namespace)?;
        self.root = Some(root);
        Ok(())
    }

    /// The URI of the prefix. None exactly where it is not declared. Takes no memory, and a logarithm of
    /// the number of prefixes.
    pub fn resolve(&self, prefix: &str) -> Option<&Text>
        ensures { option_copied result ≡ spec.resolved self.now (chars prefix.now) }
    {
        find(&self.root, prefix)
    }

    /// The same scope. It shares all memory with this one, so it costs as good as nothing.
    pub fn copy(&self) -> Result<Scope, Memory>
        ensures { IfOk result (λ scope. scope ≡ self.now) }
    {
        Ok(Scope {
            root: share(&self.root)?,
        })
    }

    /// Whether in both each prefix stands for the same URI, or for none. Takes no memory.
    pub fn same(&self, other: &Scope) -> bool
        ensures { Decides result (self.now ≡ other.now) }
    {
        same(&self.root, &other.root)
    }

    /// The namespaces in scope, shared: the default one first where it has a URI, then by prefix in code
    /// point order, `xml` among them.
    pub fn namespaces(&self, alloc: Global) -> Result<Vec<Rc<Namespace>>, Memory>
        ensures { IfOk result (λ list. entries_of list.items ≡ namespaces_in self.now) }
    {
        let mut list = Vec::new(alloc);
        push_namespaces(&mut list, &self.root)?;
        Ok(list)
    }

    /// The one of them at this number, which counts from 1. Takes no memory.
    pub fn namespace(&self, number: u64) -> Option<&Namespace>
        ensures { option_map (λ n. entry_of n.now) result ≡ at_number number (namespaces_in self.now) }
    {
        let mut left = number;
        nth_namespace(&self.root, &mut left)
    }
}
