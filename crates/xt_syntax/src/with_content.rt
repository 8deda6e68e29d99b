// Instructions that make something of their one content, without it (XSLT 1.0, sections 7 to 13).
ghost use Rattle.std.specs.Prelude.{◌≡◌};
ghost use Rattle.std.specs.Bool.{Decides};
ghost use Rattle.xt_syntax.specs.PartView.{with_content_of};

use crate::alike::both_alike;
use crate::avt::Avt;
use crate::expr::Expr;
use crate::literal::LiteralTag;
use crate::names::{MadeName, same_names};
use xt_names::Expanded;

/// An instruction that makes something of its one content: a node, a value or a message. The content
/// stands beside it.
#[derive(Drop)]
pub enum WithContent {
    /// A literal result element (XSLT 1.0, section 7.1.1).
    Literal(LiteralTag),
    /// xsl:element, with the names of its attribute sets (XSLT 1.0, section 7.1.2).
    Element(MadeName, Vec<Expanded>),
    /// xsl:attribute (XSLT 1.0, section 7.1.3).
    Attribute(MadeName),
    /// xsl:comment (XSLT 1.0, section 7.4).
    Comment,
    /// xsl:processing-instruction, with its target (XSLT 1.0, section 7.3).
    ProcessingInstruction(Avt),
    /// xsl:copy, with the names of its attribute sets (XSLT 1.0, section 7.5).
    Copy(Vec<Expanded>),
    /// A local xsl:variable, with its name and what it selects; without `select` its content is its
    /// value (XSLT 1.0, section 11.2).
    Variable(Expanded, Option<Expr>),
    /// xsl:message, and whether it ends the run (XSLT 1.0, section 13).
    Message(bool),
}

impl WithContent {
    /// Whether both are the same tree. Takes no memory.
    pub fn same(&self, other: &WithContent) -> bool
        ensures { Decides result (with_content_of self.now ≡ with_content_of other.now) }
    {
        match (self, other) {
            (WithContent::Literal(tag), WithContent::Literal(other)) => tag.same(other),
            (WithContent::Element(name, sets), WithContent::Element(other, others)) => {
                name.same(other) && same_names(sets.as_slice(), others.as_slice())
            }
            (WithContent::Attribute(name), WithContent::Attribute(other)) => name.same(other),
            (WithContent::Comment, WithContent::Comment) => true,
            (
                WithContent::ProcessingInstruction(target),
                WithContent::ProcessingInstruction(other),
            ) => { target.same(other) }
            (WithContent::Copy(sets), WithContent::Copy(others)) => {
                same_names(sets.as_slice(), others.as_slice())
            }
            (WithContent::Variable(name, select), WithContent::Variable(other, other_select)) => {
                name.same(other) && both_alike(select, other_select)
            }
            (WithContent::Message(ends), WithContent::Message(other)) => ends == other,
            _ => false,
        }
    }
}
