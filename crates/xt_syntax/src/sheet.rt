// Stylesheets (XSLT 1.0, section 2).
ghost use Rattle.std.specs.Prelude.{◌≡◌};
ghost use Rattle.std.specs.Bool.{Decides};
ghost use Rattle.spec_stylesheet.specs.Sheet as sheets;
ghost use Rattle.xt_syntax.specs.SheetView.{sheet_of, alias_of};

use crate::alike::{Alike, all_alike};
use crate::rules::Rules;
use crate::space_rules::SpaceRules;
use crate::unit::Unit;
use xt_names::Expanded;
use xt_text::Text;

/// A stylesheet with all that it imports and includes (XSLT 1.0, section 2.6).
#[derive(Drop)]
pub struct Sheet {
    /// In the order of the stylesheet: by precedence, and then by place, with includes put in place.
    pub units: Vec<Unit>,
    pub rules: Rules,
    pub space_rules: SpaceRules,
    /// None where no xsl:output names one (XSLT 1.0, section 16).
    pub method: Option<Method>,
    pub aliases: Vec<Alias>,
}

/// An output method (XSLT 1.0, section 16).
pub type Method = spec_stylesheet::Method<Expanded>;

/// An xsl:namespace-alias that counts (XSLT 1.0, section 7.1.1).
#[derive(Drop)]
pub struct Alias {
    /// The URI in the stylesheet.
    pub stylesheet: Text,
    /// The prefix in the result, empty for the default namespace.
    pub prefix: Text,
    /// The URI in the result.
    pub result: Text,
}

impl Alias {
    /// Whether both are the same alias. Takes no memory.
    pub fn same(&self, other: &Alias) -> bool
        ensures { Decides result (alias_of self.now ≡ alias_of other.now) }
    {
        self.stylesheet.same(&other.stylesheet)
            && self.prefix.same(&other.prefix)
            && self.result.same(&other.result)
    }
}

impl Alike for Alias {
    ghost Seen = { sheets.Alias };

    ghost seen = { alias_of };

    fn alike(&self, other: &Alias) -> bool {
        self.same(other)
    }
}

impl Sheet {
    /// Whether both are the same tree. Takes no memory.
    pub fn same(&self, other: &Sheet) -> bool
        ensures { Decides result (sheet_of self.now ≡ sheet_of other.now) }
    {
        all_alike(self.units.as_slice(), other.units.as_slice())
            && self.rules.same(&other.rules)
            && self.space_rules.same(&other.space_rules)
            && same_method(&self.method, &other.method)
            && all_alike(self.aliases.as_slice(), other.aliases.as_slice())
    }
}

/// Whether both are the same method, or neither is one.
fn same_method(one: &Option<Method>, other: &Option<Method>) -> bool
    ensures { Decides result (one.now ≡ other.now) }
{
    match (one, other) {
        (None, None) => true,
        (Some(Method::Xml), Some(Method::Xml)) => true,
        (Some(Method::Html), Some(Method::Html)) => true,
        (Some(Method::Text), Some(Method::Text)) => true,
        (Some(Method::Other(name)), Some(Method::Other(other))) => name.same(other),
        _ => false,
    }
}
