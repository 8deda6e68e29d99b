// Sets of names.
ghost use Rattle.std.specs.Prelude.{◌≡◌, [], length, take, not, IfOk, OnOk};
ghost use Rattle.spec_compile.specs.Scoping.{is_named};
ghost use Rattle.xt_scoping.specs.Distinct.{with_name};

use crate::key::Key;
use indexmap::IndexSet;
use std::alloc::Global;
use std::marker::Model;
use xt_names::Expanded;
use xt_text::Memory;

/// A set of names, in the order in which they came. Contracts see the list of them, which has none twice.
#[derive(Drop)]
pub(crate) struct Names<'a> {
    keys: IndexSet<Key<'a>>,
}

impl<'a> Model for Names<'a> {
    ghost use Rattle.std.specs.Prelude.{List};
    ghost use Rattle.spec_document.specs.Name.{Expanded};

    ghost Value = { List Expanded };

    ghost use Rattle.xt_scoping.specs.Distinct.{names_of};

    ghost view = { λ n. names_of n.keys.keys };
}

impl<'a> Names<'a> {
    /// No names. Takes no memory.
    pub(crate) fn new(alloc: Global) -> Names<'a>
        ensures { result ≡ [] }
    {
        Names {
            keys: IndexSet::new(alloc),
        }
    }

    /// How many there are.
    pub(crate) fn len(&self) -> usize
        ensures { result ≡ length self.now }
    {
        self.keys.len()
    }

    /// Whether the name is among them.
    pub(crate) fn has(&self, name: &'a Expanded) -> bool
        ensures { result ≡ is_named self.now name.now }
    {
        self.keys.contains(&Key { name })
    }

    /// Adds a name at the end, where it is not there, and says whether it was not.
    pub(crate) fn insert(&mut self, name: &'a Expanded) -> Result<bool, Memory>
        ensures new { IfOk result (λ is_new. is_new ≡ not (is_named self.old name.now)) }
        ensures names { OnOk result (self.new ≡ with_name self.old name.now) }
    {
        let is_new = self.keys.insert(Key { name })?;
        Ok(is_new)
    }

    /// Takes away all but the first so many.
    pub(crate) fn truncate(&mut self, count: usize)
        ensures { self.new ≡ take count self.old }
    {
        self.keys.truncate(count);
    }
}
