// Names that instructions make, and lists of names (XSLT 1.0, section 7.1).
ghost use Rattle.std.specs.Prelude.{◌≡◌, ℕ, List};
ghost use Rattle.std.specs.Bool.{Decides};
ghost use Rattle.spec_document.specs.Name as name;
ghost use Rattle.xt_names.specs.View.{entry_of};
ghost use Rattle.xt_syntax.specs.PartView.{made_name_of};

use crate::alike::{Alike, all_alike, both_alike};
use crate::avt::Avt;
use xt_names::{Expanded, Namespace};

/// The name that an xsl:element or xsl:attribute makes (XSLT 1.0, sections 7.1.2 and 7.1.3).
#[derive(Drop)]
pub struct MadeName {
    pub name: Avt,
    /// Its namespace where one is told; else the prefix of the name finds it among those in scope.
    pub namespace: Option<Avt>,
}

impl Alike for Namespace {
    ghost Seen = { List ℕ × List ℕ };

    ghost seen = { entry_of };

    fn alike(&self, other: &Namespace) -> bool {
        self.prefix.same(&other.prefix) && self.uri.same(&other.uri)
    }
}

impl MadeName {
    /// Whether both are the same tree. Takes no memory.
    pub fn same(&self, other: &MadeName) -> bool
        ensures { Decides result (made_name_of self.now ≡ made_name_of other.now) }
    {
        self.name.same(&other.name) && both_alike(&self.namespace, &other.namespace)
    }
}

impl Alike for Expanded {
    ghost Seen = { name.Expanded };

    ghost seen = { λ n. n };

    fn alike(&self, other: &Expanded) -> bool {
        self.same(other)
    }
}

/// Whether both lists have the same names in the same order.
pub(crate) fn same_names(list: &[Expanded], others: &[Expanded]) -> bool
    ensures { Decides result (list.now ≡ others.now) }
{
    all_alike(list, others)
}

/// Whether both are the same name, or neither is one.
pub(crate) fn same_name(one: &Option<Expanded>, other: &Option<Expanded>) -> bool
    ensures { Decides result (one.now ≡ other.now) }
{
    match (one, other) {
        (None, None) => true,
        (Some(name), Some(other)) => name.same(other),
        _ => false,
    }
}
