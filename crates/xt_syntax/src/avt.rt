// Attribute value templates (XSLT 1.0, section 7.6.2).
ghost use Rattle.std.specs.Prelude.{◌≡◌};
ghost use Rattle.std.specs.Bool.{Decides};
ghost use Rattle.spec_stylesheet.specs.ValueTemplate as trees;
ghost use Rattle.xt_syntax.specs.PartView.{avt_of, avt_part_of};

use crate::alike::{Alike, all_alike};
use crate::expr::Expr;
use xt_text::Text;

/// An attribute value template: parts, whose strings are joined (XSLT 1.0, section 7.6.2).
#[derive(Drop)]
pub struct Avt {
    pub parts: Vec<AvtPart>,
}

/// A part of an attribute value template (XSLT 1.0, section 7.6.2).
#[derive(Drop)]
pub enum AvtPart {
    /// Text outside the braces, where a doubled brace counts as one.
    Text(Text),
    /// An expression, which stands between braces.
    Expr(Expr),
}

impl AvtPart {
    /// Whether both are the same part. Takes no memory.
    pub fn same(&self, other: &AvtPart) -> bool
        ensures { Decides result (avt_part_of self.now ≡ avt_part_of other.now) }
    {
        match (self, other) {
            (AvtPart::Text(text), AvtPart::Text(other)) => text.same(other),
            (AvtPart::Expr(expr), AvtPart::Expr(other)) => expr.same(other),
            _ => false,
        }
    }
}

impl Alike for AvtPart {
    ghost Seen = { trees.AvtPart };

    ghost seen = { avt_part_of };

    fn alike(&self, other: &AvtPart) -> bool {
        self.same(other)
    }
}

impl Avt {
    /// Whether both are the same tree. Takes no memory.
    pub fn same(&self, other: &Avt) -> bool
        ensures { Decides result (avt_of self.now ≡ avt_of other.now) }
    {
        all_alike(self.parts.as_slice(), other.parts.as_slice())
    }
}

impl Alike for Avt {
    ghost Seen = { trees.Avt };

    ghost seen = { avt_of };

    fn alike(&self, other: &Avt) -> bool {
        self.same(other)
    }
}
