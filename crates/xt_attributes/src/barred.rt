// What may not stand in a pattern, or in a key (XSLT 1.0, sections 5.3, 12.2 and 12.4).
ghost use Rattle.std.specs.Prelude.{◌≡◌, ◌||◌, Ok, codes};
ghost use Rattle.spec_compile.specs.Value as spec;
ghost use Rattle.spec_compile.specs.Walk as walk;
ghost use Rattle.xt_syntax.specs.PartView.{pattern_of};
ghost use Rattle.xt_syntax.specs.View.{expr_of};
ghost use Rattle.xt_attributes.specs.Gathering.{seen};
ghost use Rattle.xt_attributes.specs.View.{barred_by, value_in};

use crate::names::Read;
use crate::value::Value;
use crate::walk::{Sought, has, has_in_pattern, starts_with_key};
use spec_expression::StaticCode;
use spec_structure::XsltElement;
use xt_syntax::{Expr, Pattern};

fn is_barred_of_template(pattern: &Pattern) -> bool
    ensures { result ≡ (walk.has_in_pattern walk.variables (pattern_of pattern.now) || walk.has_in_pattern (walk.calls_of (codes "current")) (pattern_of pattern.now)) }
{
    has_in_pattern(Sought::Variable, pattern) || has_in_pattern(Sought::Current, pattern)
}

fn is_barred_of_key(pattern: &Pattern) -> bool
    ensures { result ≡ (walk.has_in_pattern walk.variables (pattern_of pattern.now) || walk.has_in_pattern (walk.calls_of (codes "current")) (pattern_of pattern.now)
        || walk.has_in_pattern (walk.calls_of (codes "key")) (pattern_of pattern.now) || walk.starts_with_key (pattern_of pattern.now)) }
{
    has_in_pattern(Sought::Variable, pattern)
        || has_in_pattern(Sought::Current, pattern)
        || has_in_pattern(Sought::Key, pattern)
        || starts_with_key(pattern)
}

fn has_barred_pattern(element: XsltElement, pattern: &Pattern) -> bool
    ensures { result ≡ spec.has_barred_pattern element (pattern_of pattern.now) }
{
    match element {
        XsltElement::Template => is_barred_of_template(pattern),
        XsltElement::Key => is_barred_of_key(pattern),
        _ => has_in_pattern(Sought::Current, pattern),
    }
}

fn is_barred_use(expr: &Expr) -> bool
    ensures { result ≡ (walk.has walk.variables (expr_of expr.now) || walk.has (walk.calls_of (codes "key")) (expr_of expr.now)) }
{
    has(Sought::Variable, expr) || has(Sought::Key, expr)
}

fn has_barred_use(element: XsltElement, expr: &Expr) -> bool
    ensures { result ≡ spec.has_barred_use element (expr_of expr.now) }
{
    match element {
        XsltElement::Key => is_barred_use(expr),
        _ => false,
    }
}

fn is_barred_at(element: XsltElement, value: &Value) -> bool
    ensures { result ≡ spec.is_barred element (value_in value.now) }
{
    match value {
        Value::Pattern(pattern) => has_barred_pattern(element, pattern),
        Value::Expr(expr) => has_barred_use(element, expr),
        _ => false,
    }
}

fn is_barred(element: Option<XsltElement>, value: &Value) -> bool
    ensures { result ≡ barred_by element (value_in value.now) }
{
    match element {
        None => false,
        Some(element) => is_barred_at(element, value),
    }
}

/// The value, unless it may not stand at this element: S24. At an element that is not XSLT's none is barred.
pub(crate) fn unless_barred(element: Option<XsltElement>, value: Read<Value>) -> Read<Value>
    ensures { seen value_in result ≡ spec.unless_barred (barred_by element) (seen value_in value) }
{
    match value {
        Err(code) => Err(code),
        Ok(value) => one_unless_barred(element, value),
    }
}

fn one_unless_barred(element: Option<XsltElement>, value: Value) -> Read<Value>
    ensures { seen value_in result ≡ spec.unless_barred (barred_by element) (Ok (value_in value)) }
{
    if is_barred(element, &value) {
        drop(value);
        Err(StaticCode::BarredReference)
    } else {
        Ok(value)
    }
}
