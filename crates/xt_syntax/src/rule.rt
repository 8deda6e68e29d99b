// Template rules (XSLT 1.0, section 5).
ghost use Rattle.std.specs.Prelude.{◌≡◌};
ghost use Rattle.std.specs.Bool.{Decides};
ghost use Rattle.spec_stylesheet.specs.Sheet as trees;
ghost use Rattle.xt_syntax.specs.SheetView.{rule_of};

use crate::alike::Alike;
use crate::names::same_name;
use crate::pattern::Pattern;
use xt_names::Expanded;

/// A template rule, of one alternative of a template's pattern (XSLT 1.0, section 5.5).
#[derive(Drop)]
pub struct Rule {
    pub pattern: Pattern,
    /// The import precedence of its stylesheet, higher for what counts more (XSLT 1.0, section 2.6.2).
    pub precedence: u64,
    /// The least precedence of what its stylesheet imports; its own where that imports nothing. The
    /// precedences from this one up to its own, without that, are those that xsl:apply-imports takes.
    pub imported: u64,
    /// In millionths, negative or not.
    pub priority: i64,
    /// Its turn in the order of the stylesheet: the later of two equal rules counts.
    pub order: u64,
    /// None for the rules without a mode (XSLT 1.0, section 5.7).
    pub mode: Option<Expanded>,
    /// Which of the sheet's units it runs, counted from 0.
    pub unit: u64,
}

impl Rule {
    /// Whether both are the same tree. Takes no memory.
    pub fn same(&self, other: &Rule) -> bool
        ensures { Decides result (rule_of self.now ≡ rule_of other.now) }
    {
        self.pattern.same(&other.pattern)
            && self.precedence == other.precedence
            && self.imported == other.imported
            && self.priority == other.priority
            && self.order == other.order
            && same_name(&self.mode, &other.mode)
            && self.unit == other.unit
    }
}

impl Alike for Rule {
    ghost Seen = { trees.Rule };

    ghost seen = { rule_of };

    fn alike(&self, other: &Rule) -> bool {
        self.same(other)
    }
}
