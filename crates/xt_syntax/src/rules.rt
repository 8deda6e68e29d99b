// The template rules of a stylesheet (XSLT 1.0, section 5).
ghost use Rattle.std.specs.Prelude.{◌≡◌};
ghost use Rattle.std.specs.Bool.{Decides};
ghost use Rattle.xt_syntax.specs.SheetView.{rules_of};

use crate::alike::all_alike;
use crate::rule::Rule;

/// The template rules of a stylesheet and of all that it imports, of every mode, the one that counts for most
/// first (XSLT 1.0, sections 2.6.2 and 5.5). The built-in rules are not among them.
#[derive(Drop)]
pub struct Rules {
    pub rules: Vec<Rule>,
}

impl Rules {
    /// Whether both have the same rules in the same order. Takes no memory.
    pub fn same(&self, other: &Rules) -> bool
        ensures { Decides result (rules_of self.now ≡ rules_of other.now) }
    {
        all_alike(self.rules.as_slice(), other.rules.as_slice())
    }
}
