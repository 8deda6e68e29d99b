// Instructions without a content (XSLT 1.0, sections 5 to 11).
ghost use Rattle.std.specs.Prelude.{◌≡◌};
ghost use Rattle.std.specs.Bool.{Decides};
ghost use Rattle.xt_syntax.specs.PartView.{without_content_of, numbering_of, number_source_of};

use crate::alike::both_alike;
use crate::avt::Avt;
use crate::count::Count;
use crate::expr::Expr;
use xt_text::Text;

/// An instruction that has no content.
#[derive(Drop)]
pub enum WithoutContent {
    /// A text (XSLT 1.0, section 7.2), and whether it is that of an xsl:text, which is an instruction.
    Text(Text, bool),
    /// xsl:value-of, with what it selects (XSLT 1.0, section 7.6.1).
    ValueOf(Expr),
    /// xsl:copy-of, with what it selects (XSLT 1.0, section 11.3).
    CopyOf(Expr),
    /// xsl:number (XSLT 1.0, section 7.7).
    Number(Numbering),
    /// xsl:apply-imports (XSLT 1.0, section 5.6).
    ApplyImports,
    /// xsl:fallback, which gives nothing (XSLT 1.0, section 15).
    Fallback,
}

/// An xsl:number (XSLT 1.0, section 7.7).
#[derive(Drop)]
pub struct Numbering {
    pub source: NumberSource,
    /// Its default `1` where it is missing.
    pub format: Avt,
    pub grouping_separator: Option<Avt>,
    pub grouping_size: Option<Avt>,
}

/// Where an xsl:number has its numbers from (XSLT 1.0, section 7.7).
#[derive(Drop)]
pub enum NumberSource {
    /// From the value of this expression.
    Value(Expr),
    /// From a count of nodes.
    Count(Count),
}

impl NumberSource {
    /// Whether both are the same tree. Takes no memory.
    pub fn same(&self, other: &NumberSource) -> bool
        ensures { Decides result (number_source_of self.now ≡ number_source_of other.now) }
    {
        match (self, other) {
            (NumberSource::Value(value), NumberSource::Value(other)) => value.same(other),
            (NumberSource::Count(count), NumberSource::Count(other)) => count.same(other),
            _ => false,
        }
    }
}

impl Numbering {
    /// Whether both are the same tree. Takes no memory.
    pub fn same(&self, other: &Numbering) -> bool
        ensures { Decides result (numbering_of self.now ≡ numbering_of other.now) }
    {
        self.source.same(&other.source)
            && self.format.same(&other.format)
            && both_alike(&self.grouping_separator, &other.grouping_separator)
            && both_alike(&self.grouping_size, &other.grouping_size)
    }
}

impl WithoutContent {
    /// Whether both are the same tree. Takes no memory.
    pub fn same(&self, other: &WithoutContent) -> bool
        ensures { Decides result (without_content_of self.now ≡ without_content_of other.now) }
    {
        match (self, other) {
            (WithoutContent::Text(text, _), WithoutContent::Text(other, _)) => text.same(other),
            (WithoutContent::ValueOf(select), WithoutContent::ValueOf(other)) => select.same(other),
            (WithoutContent::CopyOf(select), WithoutContent::CopyOf(other)) => select.same(other),
            (WithoutContent::Number(number), WithoutContent::Number(other)) => number.same(other),
            (WithoutContent::ApplyImports, WithoutContent::ApplyImports) => true,
            (WithoutContent::Fallback, WithoutContent::Fallback) => true,
            _ => false,
        }
    }
}
