// Why a text is no value template.
ghost use Rattle.std.specs.Prelude.{◌≡◌};
ghost use Rattle.spec_static.specs.TemplateGrammar.{template_code};

use spec_expression::{ExpressionRefusal, StaticCode};

/// Why a text is no value template (XSLT 1.0, section 7.6.2), the least first.
#[derive(Clone, Copy, Debug, PartialEq, Eq)]
pub enum TemplateRefusal {
    /// What stands between braces is no expression: S10, S12, S13 or S14.
    AnExpression(ExpressionRefusal),
    /// S26: a `}` stands alone, or a `{` is not closed.
    Braces,
}

impl TemplateRefusal {
    /// The code of a stylesheet with such a value template: S10, S12, S13, S14 or S26.
    pub fn code(self) -> StaticCode
        ensures { result ≡ template_code self }
    {
        match self {
            TemplateRefusal::AnExpression(why) => why.code(),
            TemplateRefusal::Braces => StaticCode::BadValueTemplate,
        }
    }
}
