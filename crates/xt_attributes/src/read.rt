// What the value of an attribute is, by its kind.
ghost use Rattle.std.specs.Prelude.{◌≡◌, IfOk, Ok, map};
ghost use Rattle.spec_compile.specs.Value as spec;
ghost use Rattle.spec_expression.specs.Strings as strings;
ghost use Rattle.spec_structure.specs.declared.value.ValueKind.TheVariants as kind;
ghost use Rattle.xt_syntax.specs.PartView.{pattern_of};
ghost use Rattle.xt_syntax.specs.View.{expr_of, test_of};
ghost use Rattle.xt_attributes.specs.Answers.{Finds};
ghost use Rattle.xt_attributes.specs.Gathering.{seen};
ghost use Rattle.xt_attributes.specs.View.{template_in, value_in};

use crate::names::{Read, method_of, name_of, names_of, prefix_of, prefixes_of, tests_of};
use crate::priority::priority_of;
use crate::template::{expression_in, read_template};
use crate::value::Value;
use crate::walk::{Sought, has, has_in_pattern};
use spec_expression::{ExpressionRefusal, StaticCode};
use spec_structure::ValueKind;
use std::alloc::Global;
use xt_names::{Expanded, Scope};
use xt_pattern::parse_pattern;
use xt_structure::words;
use xt_syntax::{Avt, Expr, Pattern, Test};
use xt_text::{Memory, Text};

// ---- Texts and names

fn text_value(alloc: Global, text: &Text) -> Result<Read<Value>, Memory>
    ensures { IfOk result (λ value. seen value_in value ≡ Ok (spec.AText text.now)) }
{
    let text = text.copy(alloc)?;
    Ok(Ok(Value::Text(text)))
}

fn named(name: Read<Expanded>) -> Read<Value>
    ensures { seen value_in result ≡ spec.on_ok spec.AName name }
{
    match name {
        Ok(name) => Ok(Value::Name(name)),
        Err(code) => Err(code),
    }
}

fn name_value(alloc: Global, scope: &Scope, text: &Text) -> Result<Read<Value>, Memory>
    ensures { IfOk result (λ value. seen value_in value ≡ spec.on_ok spec.AName (spec.name_of scope.now text.now)) }
{
    let name = name_of(alloc, scope, text.as_str())?;
    Ok(named(name))
}

fn all_named(names: Read<Vec<Expanded>>) -> Read<Value>
    ensures { seen value_in result ≡ spec.on_ok spec.SomeNames (seen (λ list. list.items) names) }
{
    match names {
        Ok(names) => Ok(Value::Names(names)),
        Err(code) => Err(code),
    }
}

fn names_value(alloc: Global, scope: &Scope, text: &Text) -> Result<Read<Value>, Memory>
    ensures { IfOk result (λ value. seen value_in value ≡ spec.on_ok spec.SomeNames (spec.each (spec.name_of scope.now) (strings.words text.now))) }
{
    let words = words(alloc, text.as_str())?;
    let names = names_of(alloc, scope, words.as_slice())?;
    Ok(all_named(names))
}

fn text_if(alloc: Global, text: &Text, prefixes: Read<Vec<Text>>) -> Result<Read<Value>, Memory>
    ensures { IfOk result (λ value. seen value_in value ≡ spec.on_ok (λ list. spec.AText text.now) (seen (λ list. list.items) prefixes)) }
{
    match prefixes {
        Ok(_) => text_value(alloc, text),
        Err(code) => Ok(Err(code)),
    }
}

fn prefixes_value(alloc: Global, scope: &Scope, text: &Text) -> Result<Read<Value>, Memory>
    ensures { IfOk result (λ value. seen value_in value ≡ spec.on_ok (λ list. spec.AText text.now) (spec.each (spec.prefix_of scope.now) (strings.words text.now))) }
{
    let words = words(alloc, text.as_str())?;
    let prefixes = prefixes_of(alloc, scope, words.as_slice())?;
    text_if(alloc, text, prefixes)
}

fn as_text(prefix: Read<Text>) -> Read<Value>
    ensures { seen value_in result ≡ spec.on_ok spec.AText prefix }
{
    match prefix {
        Ok(prefix) => Ok(Value::Text(prefix)),
        Err(code) => Err(code),
    }
}

fn prefix_value(alloc: Global, scope: &Scope, text: &Text) -> Result<Read<Value>, Memory>
    ensures { IfOk result (λ value. seen value_in value ≡ spec.on_ok spec.AText (spec.prefix_of scope.now text.now)) }
{
    let prefix = prefix_of(alloc, scope, text)?;
    Ok(as_text(prefix))
}

fn all_tests(tests: Read<Vec<Test>>) -> Read<Value>
    ensures { seen value_in result ≡ spec.on_ok spec.SomeTests (seen (λ list. map test_of list.items) tests) }
{
    match tests {
        Ok(tests) => Ok(Value::Tests(tests)),
        Err(code) => Err(code),
    }
}

fn tests_value(alloc: Global, scope: &Scope, text: &Text) -> Result<Read<Value>, Memory>
    ensures { IfOk result (λ value. seen value_in value ≡ spec.on_ok spec.SomeTests (spec.each (spec.test_of scope.now) (strings.words text.now))) }
{
    let words = words(alloc, text.as_str())?;
    let tests = tests_of(alloc, scope, words.as_slice())?;
    Ok(all_tests(tests))
}

// ---- Expressions, patterns and value templates

fn known_expression(expr: Expr) -> Read<Value>
    ensures { seen value_in result ≡ spec.expression_by (Ok (expr_of expr)) }
{
    if has(Sought::UnknownCall, &expr) {
        drop(expr);
        Err(StaticCode::BadFunction)
    } else {
        Ok(Value::Expr(expr))
    }
}

fn expression_by(found: Result<Expr, ExpressionRefusal>) -> Read<Value>
    ensures { seen value_in result ≡ spec.expression_by (seen expr_of found) }
{
    match found {
        Ok(expr) => known_expression(expr),
        Err(why) => Err(why.code()),
    }
}

fn expression_value(alloc: Global, scope: &Scope, text: &Text) -> Result<Read<Value>, Memory>
    ensures { Finds (seen value_in) (spec.value_of kind.Expression scope.now text.now) result }
{
    let found = expression_in(alloc, scope, text.as_str())?;
    Ok(expression_by(found))
}

fn known_pattern(pattern: Pattern) -> Read<Value>
    ensures { seen value_in result ≡ spec.pattern_by (Ok (pattern_of pattern)) }
{
    if has_in_pattern(Sought::UnknownCall, &pattern) {
        Err(StaticCode::BadFunction)
    } else {
        Ok(Value::Pattern(pattern))
    }
}

fn pattern_value(alloc: Global, scope: &Scope, text: &Text) -> Result<Read<Value>, Memory>
    ensures { Finds (seen value_in) (spec.value_of kind.Pattern scope.now text.now) result }
{
    match parse_pattern(alloc, text.as_str(), scope) {
        Ok(pattern) => Ok(known_pattern(pattern)),
        Err(fault) => match fault.code() {
            Some(code) => Ok(Err(code)),
            None => Err(Memory),
        },
    }
}

fn as_template(template: Read<Avt>) -> Read<Value>
    ensures { seen value_in result ≡ seen template_in template }
{
    match template {
        Ok(template) => Ok(Value::Avt(template)),
        Err(code) => Err(code),
    }
}

fn template_value(alloc: Global, scope: &Scope, text: &Text) -> Result<Read<Value>, Memory>
    ensures { Finds (seen value_in) (spec.value_of kind.Template scope.now text.now) result }
{
    let template = read_template(alloc, scope, text)?;
    Ok(as_template(template))
}

/// What the value of an attribute of this kind is, or the code that stands there.
pub(crate) fn value_of(
    alloc: Global,
    kind: ValueKind,
    scope: &Scope,
    text: &Text,
) -> Result<Read<Value>, Memory>
    ensures { Finds (seen value_in) (spec.value_of kind scope.now text.now) result }
{
    match kind {
        ValueKind::Any => text_value(alloc, text),
        ValueKind::Expression => expression_value(alloc, scope, text),
        ValueKind::Pattern => pattern_value(alloc, scope, text),
        ValueKind::Template => template_value(alloc, scope, text),
        ValueKind::Name => name_value(alloc, scope, text),
        ValueKind::Names => names_value(alloc, scope, text),
        ValueKind::Prefixes => prefixes_value(alloc, scope, text),
        ValueKind::Prefix => prefix_value(alloc, scope, text),
        ValueKind::Tests => tests_value(alloc, scope, text),
        ValueKind::YesNo => text_value(alloc, text),
        ValueKind::Level => text_value(alloc, text),
        ValueKind::Method => method_of(alloc, scope, text),
        ValueKind::Priority => priority_of(alloc, text),
    }
}
