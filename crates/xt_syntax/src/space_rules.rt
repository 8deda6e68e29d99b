// Which elements lose their texts of white space (XSLT 1.0, section 3.4).
ghost use Rattle.std.specs.Prelude.{◌≡◌};
ghost use Rattle.std.specs.Bool.{Decides};
ghost use Rattle.spec_stylesheet.specs.Sheet as trees;
ghost use Rattle.xt_syntax.specs.SheetView.{space_rules_of, space_rule_of};

use crate::alike::{Alike, all_alike};
use crate::expr::Test;

/// What the xsl:strip-space and xsl:preserve-space of a stylesheet say, one name test after the
/// other in the order of the stylesheet (XSLT 1.0, section 3.4).
#[derive(Drop)]
pub struct SpaceRules {
    pub rules: Vec<SpaceRule>,
}

/// One name test of an xsl:strip-space or xsl:preserve-space (XSLT 1.0, section 3.4).
#[derive(Drop)]
pub struct SpaceRule {
    /// Which elements it is about.
    pub test: Test,
    /// The import precedence of its stylesheet, higher for what counts more.
    pub precedence: u64,
    /// The default priority of the test, in millionths (XSLT 1.0, section 5.5).
    pub priority: i64,
    /// Whether it stands in an xsl:strip-space.
    pub strips: bool,
}

impl SpaceRule {
    /// Whether both say the same. Takes no memory.
    pub fn same(&self, other: &SpaceRule) -> bool
        ensures { Decides result (space_rule_of self.now ≡ space_rule_of other.now) }
    {
        self.test.same(&other.test)
            && self.precedence == other.precedence
            && self.priority == other.priority
            && self.strips == other.strips
    }
}

impl Alike for SpaceRule {
    ghost Seen = { trees.SpaceRule };

    ghost seen = { space_rule_of };

    fn alike(&self, other: &SpaceRule) -> bool {
        self.same(other)
    }
}

impl SpaceRules {
    /// Whether both have the same rules in the same order. Takes no memory.
    pub fn same(&self, other: &SpaceRules) -> bool
        ensures { Decides result (space_rules_of self.now ≡ space_rules_of other.now) }
    {
        all_alike(self.rules.as_slice(), other.rules.as_slice())
    }
}
