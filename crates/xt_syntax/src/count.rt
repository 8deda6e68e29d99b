// How xsl:number counts nodes (XSLT 1.0, section 7.7).
ghost use Rattle.std.specs.Prelude.{◌≡◌};
ghost use Rattle.std.specs.Bool.{Decides};
ghost use Rattle.xt_syntax.specs.PartView.{count_of};

use crate::alike::both_alike;
use crate::pattern::Pattern;
use spec_stylesheet::NumberLevel;

/// How an xsl:number without `value` counts (XSLT 1.0, section 7.7). Without `count` it counts the
/// nodes of the current node's kind and name, without `from` it starts at the root.
#[derive(Drop)]
pub struct Count {
    pub level: NumberLevel,
    pub count: Option<Pattern>,
    pub from: Option<Pattern>,
}

impl Count {
    /// Whether both are the same tree. Takes no memory.
    pub fn same(&self, other: &Count) -> bool
        ensures { Decides result (count_of self.now ≡ count_of other.now) }
    {
        self.level == other.level
            && both_alike(&self.count, &other.count)
            && both_alike(&self.from, &other.from)
    }
}
