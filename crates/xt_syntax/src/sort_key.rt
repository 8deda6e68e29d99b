// Sort keys (XSLT 1.0, section 10).
ghost use Rattle.std.specs.Prelude.{◌≡◌};
ghost use Rattle.std.specs.Bool.{Decides};
ghost use Rattle.spec_stylesheet.specs.Instruction as trees;
ghost use Rattle.xt_syntax.specs.PartView.{sort_key_of};

use crate::alike::Alike;
use crate::avt::Avt;
use crate::expr::Expr;
use crate::site::Site;

/// An xsl:sort (XSLT 1.0, section 10). A missing attribute has its default here: `.`, `text`,
/// `ascending`.
#[derive(Drop)]
pub struct SortKey {
    pub site: Site,
    pub select: Expr,
    pub data_type: Avt,
    pub order: Avt,
}

impl SortKey {
    /// Whether both are the same tree. Takes no memory.
    pub fn same(&self, other: &SortKey) -> bool
        ensures { Decides result (sort_key_of self.now ≡ sort_key_of other.now) }
    {
        self.site.same(&other.site)
            && self.select.same(&other.select)
            && self.data_type.same(&other.data_type)
            && self.order.same(&other.order)
    }
}

impl Alike for SortKey {
    ghost Seen = { trees.SortKey };

    ghost seen = { sort_key_of };

    fn alike(&self, other: &SortKey) -> bool {
        self.same(other)
    }
}
