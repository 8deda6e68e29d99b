// Names as keys of sets.
ghost use Rattle.std.specs.Cmp.{on_equiv, on_per};
ghost use Rattle.spec_document.specs.Name.{same_name};
ghost use Rattle.xt_scoping.specs.Laws.{same_names, same_names_partly, same_fed, fed_name};

use std::hash::{Hash, Hasher};
use xt_names::Expanded;

/// An expanded name as a key of a set.
#[derive(Clone, Copy)]
pub(crate) struct Key<'a> {
    pub(crate) name: &'a Expanded,
}

impl<'a> PartialEq for Key<'a> {
    ghost eq = { λ a b. same_name a.name.now b.name.now };

    ghost laws = { on_per (λ k. k.name.now) same_names_partly };

    fn eq(&self, other: &Key<'a>) -> bool {
        self.name.same(other.name)
    }
}

impl<'a> Eq for Key<'a> {
    ghost laws = { on_equiv (λ k. k.name.now) same_names };
}

impl<'a> Hash for Key<'a> {
    ghost hash_input = { λ k. fed_name k.name.now };

    ghost respects_eq = { λ a b e. same_fed a.name.now b.name.now e };

    fn hash<H: Hasher>(&self, state: &mut H) {
        self.name.uri().as_str().hash(state);
        self.name.local().as_str().hash(state);
    }
}
