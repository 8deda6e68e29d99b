// Value templates (XSLT 1.0, section 7.6.2).
ghost use Rattle.std.specs.Prelude.{◌≡◌, Err, IfOk, Ok, if◌then◌else◌};
ghost use Rattle.std.specs.Str.{chars};
ghost use Rattle.spec_compile.specs.Value as spec;
ghost use Rattle.spec_compile.specs.Value.{AnAvt};
ghost use Rattle.spec_compile.specs.Walk.{has_in_template, unknown_calls};
ghost use Rattle.spec_expression.specs.Grammar.{Parses};
ghost use Rattle.spec_expression.specs.declared.code.StaticCode.TheVariants as code;
ghost use Rattle.spec_static.specs.TemplateGrammar.{ParsesTemplate, pieces};
ghost use Rattle.spec_structure.specs.declared.value.ValueKind.TheVariants as kind;
ghost use Rattle.xt_syntax.specs.PartView.{avt_of};
ghost use Rattle.xt_syntax.specs.View.{expr_of};
ghost use Rattle.xt_attributes.specs.Answers.{Finds};
ghost use Rattle.xt_attributes.specs.Gathering.{seen};
ghost use Rattle.xt_attributes.specs.Stray.{IsAsked, refused_in};
ghost use Rattle.xt_attributes.specs.View.{IsAnswer, template_in};

use crate::fault::AttributeFault;
use crate::names::Read;
use crate::walk::{Sought, has, has_in_template};
use spec_expression::{ExpressionRefusal, StaticCode};
use spec_static::TemplateRefusal;
use std::alloc::Global;
use xp_parse::{ParseFault, parse};
use xt_avt::{AvtFault, Piece, first_piece, parse_avt};
use xt_names::Scope;
use xt_syntax::{Avt, Expr};
use xt_text::{Memory, Text};

/// The expression that a text is, or its refusal.
pub(crate) fn expression_in(
    alloc: Global,
    scope: &Scope,
    text: &str,
) -> Result<Result<Expr, ExpressionRefusal>, Memory>
    ensures { IfOk result (λ found. Parses scope.now (chars text.now) (seen expr_of found)) }
{
    match parse(alloc, text, scope) {
        Ok(expr) => Ok(Ok(expr)),
        Err(ParseFault::Refused(why)) => Ok(Err(why)),
        Err(ParseFault::Memory) => Err(Memory),
    }
}

// Whether it is an expression with a call that names no function.
fn calls_unknown(found: &Result<Expr, ExpressionRefusal>) -> bool
    ensures { result ≡ spec.calls_unknown (seen expr_of found.now) }
{
    match found {
        Err(_) => false,
        Ok(expr) => has(Sought::UnknownCall, expr),
    }
}

// Whether what stands between braces calls what is no function.
fn is_unknown(alloc: Global, scope: &Scope, piece: Piece<'_>) -> Result<bool, Memory>
    ensures { IfOk result (λ is. IsAsked scope.now piece.entry is) }
{
    match piece {
        Piece::Character(_) => Ok(false),
        Piece::Stray => Ok(false),
        Piece::Enclosed(text) => {
            let found = expression_in(alloc, scope, text)?;
            let unknown = calls_unknown(&found);
            drop(found);
            Ok(unknown)
        }
    }
}

// The code of a template with a brace out of place.
fn stray_code(alloc: Global, scope: &Scope, text: &str) -> Result<StaticCode, Memory>
    ensures { Finds refused_in (spec.stray_code scope.now (spec.enclosed_in (pieces 0 (chars text.now)))) result }
{
    let mut rest = text;
    while let Some(found) = first_piece(rest) {
        if is_unknown(alloc, scope, found.piece)? {
            return Ok(StaticCode::BadFunction);
        }
        rest = found.behind();
    }
    Ok(StaticCode::BadValueTemplate)
}

// The value template that a text is, or its refusal.
fn parsed_template(
    alloc: Global,
    scope: &Scope,
    text: &str,
) -> Result<Result<Avt, TemplateRefusal>, Memory>
    ensures { IfOk result (λ found. ParsesTemplate scope.now (chars text.now) (seen avt_of found)) }
{
    match parse_avt(alloc, text, scope) {
        Ok(template) => Ok(Ok(template)),
        Err(AvtFault::Refused(why)) => Ok(Err(why)),
        Err(AvtFault::Memory) => Err(Memory),
    }
}

fn unless_unknown(template: Avt) -> Read<Avt>
    ensures { seen template_in result ≡ (if has_in_template unknown_calls (avt_of template) then Err code.BadFunction else Ok (AnAvt (avt_of template))) }
{
    if has_in_template(Sought::UnknownCall, &template) {
        Err(StaticCode::BadFunction)
    } else {
        Ok(template)
    }
}

fn template_by(
    alloc: Global,
    scope: &Scope,
    text: &str,
    found: Result<Avt, TemplateRefusal>,
) -> Result<Read<Avt>, Memory>
    ensures { Finds (seen template_in) (spec.template_by scope.now (chars text.now) (seen avt_of found)) result }
{
    match found {
        Err(TemplateRefusal::AnExpression(why)) => Ok(Err(why.code())),
        Err(TemplateRefusal::Braces) => {
            let code = stray_code(alloc, scope, text)?;
            Ok(Err(code))
        }
        Ok(template) => Ok(unless_unknown(template)),
    }
}

/// The value template that a text is, or the code that counts.
pub(crate) fn read_template(alloc: Global, scope: &Scope, text: &Text) -> Result<Read<Avt>, Memory>
    ensures { Finds (seen template_in) (spec.value_of kind.Template scope.now text.now) result }
{
    let found = parsed_template(alloc, scope, text.as_str())?;
    template_by(alloc, scope, text.as_str(), found)
}

/// The value template that a text is (XSLT 1.0, section 7.6.2). Else the code that counts: S10, S12, S13, S14, S16 or S26.
pub fn template_of(alloc: Global, scope: &Scope, text: &Text) -> Result<Avt, AttributeFault>
    ensures { IsAnswer template_in (spec.value_of kind.Template scope.now text.now) result }
{
    match read_template(alloc, scope, text)? {
        Ok(template) => Ok(template),
        Err(code) => Err(AttributeFault::Refused(code)),
    }
}
