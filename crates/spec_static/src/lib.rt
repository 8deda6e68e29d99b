//! What xt believes of the static side of stylesheets (XSLT 1.0): which text is a pattern or a value
//! template, and which refusal a text has that is none.
//!
//! Read `specs/PatternGrammar.antt` and `specs/TemplateGrammar.antt`. There is no code here but the laws,
//! whose functions have no body, and the enums that the definitions share with the code.
#![tactic(auto)]

ghost use Rattle.std.specs.Prelude.{◌≡◌, ℕ, List, Result};
ghost use Rattle.spec_document.specs.Scope.{Scope};
ghost use Rattle.spec_expression.specs.declared.ExpressionRefusal.{ExpressionRefusal};
ghost use Rattle.spec_stylesheet.specs.Pattern.{Pattern};
ghost use Rattle.spec_stylesheet.specs.ValueTemplate.{Avt};
ghost use Rattle.spec_static.specs.PatternGrammar.{ParsesPattern};
ghost use Rattle.spec_static.specs.TemplateGrammar.{ParsesTemplate};
ghost use Rattle.spec_static.specs.declared.refusal.TemplateRefusal.{TemplateRefusal};

mod refusal;

pub use refusal::TemplateRefusal;
use spec_expression::one_answer;

/// A text gives at most one result as a value template: a tree, or the least refusal of all that stand.
pub fn one_template()
    ensures { (scope : Scope) (text : List ℕ) (r s : Result Avt TemplateRefusal) → ParsesTemplate scope text r → ParsesTemplate scope text s → r ≡ s }
{
    one_answer();
}

/// A text gives at most one answer as a pattern, a tree or the least refusal that stands at it.
pub fn one_pattern()
    ensures { (scope : Scope) (text : List ℕ) (r s : Result Pattern ExpressionRefusal) → ParsesPattern scope text r → ParsesPattern scope text s → r ≡ s }
{}
