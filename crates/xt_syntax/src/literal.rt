// Literal result elements (XSLT 1.0, section 7.1.1).
ghost use Rattle.std.specs.Prelude.{◌≡◌};
ghost use Rattle.std.specs.Bool.{Decides};
ghost use Rattle.spec_stylesheet.specs.Instruction as trees;
ghost use Rattle.xt_syntax.specs.PartView.{literal_tag_of, literal_attribute_of};

use crate::alike::{Alike, all_alike};
use crate::avt::Avt;
use crate::names::same_names;
use xt_names::{Expanded, Namespace};
use xt_text::Text;

/// A literal result element without its content (XSLT 1.0, section 7.1.1).
#[derive(Drop)]
pub struct LiteralTag {
    /// The prefix that it is written with, empty without one.
    pub prefix: Text,
    pub name: Expanded,
    /// The namespaces that it brings into the result.
    pub namespaces: Vec<Namespace>,
    /// The names of its attribute sets, in their order (XSLT 1.0, section 7.1.4).
    pub sets: Vec<Expanded>,
    pub attributes: Vec<LiteralAttribute>,
}

/// An attribute of a literal result element (XSLT 1.0, section 7.1.1).
#[derive(Drop)]
pub struct LiteralAttribute {
    /// The prefix that it is written with, empty without one.
    pub prefix: Text,
    pub name: Expanded,
    pub value: Avt,
}

impl LiteralAttribute {
    /// Whether both are the same tree. Takes no memory.
    pub fn same(&self, other: &LiteralAttribute) -> bool
        ensures { Decides result (literal_attribute_of self.now ≡ literal_attribute_of other.now) }
    {
        self.prefix.same(&other.prefix)
            && self.name.same(&other.name)
            && self.value.same(&other.value)
    }
}

impl Alike for LiteralAttribute {
    ghost Seen = { trees.LiteralAttribute };

    ghost seen = { literal_attribute_of };

    fn alike(&self, other: &LiteralAttribute) -> bool {
        self.same(other)
    }
}

impl LiteralTag {
    /// Whether both are the same tree. Takes no memory.
    pub fn same(&self, other: &LiteralTag) -> bool
        ensures { Decides result (literal_tag_of self.now ≡ literal_tag_of other.now) }
    {
        self.prefix.same(&other.prefix)
            && self.name.same(&other.name)
            && all_alike(self.namespaces.as_slice(), other.namespaces.as_slice())
            && same_names(self.sets.as_slice(), other.sets.as_slice())
            && all_alike(self.attributes.as_slice(), other.attributes.as_slice())
    }
}
