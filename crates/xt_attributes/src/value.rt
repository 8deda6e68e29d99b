// What the value of an attribute is.
ghost use Rattle.std.specs.Prelude.{◌≡◌, map};
ghost use Rattle.std.specs.Option.{option_and_then, option_copied, option_map};
ghost use Rattle.spec_compile.specs.Unit as unit;
ghost use Rattle.spec_compile.specs.Value as spec;
ghost use Rattle.xt_syntax.specs.PartView.{avt_of, pattern_of};
ghost use Rattle.xt_syntax.specs.View.{expr_of, test_of};
ghost use Rattle.xt_attributes.specs.View.{value_in};

use xt_names::Expanded;
use xt_syntax::{Avt, Expr, Method, Pattern, Test};
use xt_text::Text;

/// What the value of an attribute is.
#[derive(Drop)]
pub enum Value {
    /// Any text, a word of a few, or prefixes.
    Text(Text),
    Expr(Expr),
    Pattern(Pattern),
    /// An attribute value template (XSLT 1.0, section 7.6.2).
    Avt(Avt),
    Name(Expanded),
    Names(Vec<Expanded>),
    /// The node tests of elements in a list (section 3.4).
    Tests(Vec<Test>),
    /// A priority in millionths (section 5.5).
    Priority(i64),
    /// An output method (section 16).
    Method(Method),
}

impl Value {
    /// The text that it is.
    pub fn as_text(&self) -> Option<&Text>
        ensures { option_copied result ≡ spec.text_in (value_in self.now) }
    {
        match self {
            Value::Text(text) => Some(text),
            _ => None,
        }
    }

    /// The expanded name that it is.
    pub fn as_name(&self) -> Option<&Expanded>
        ensures { option_copied result ≡ spec.name_in (value_in self.now) }
    {
        match self {
            Value::Name(name) => Some(name),
            _ => None,
        }
    }

    /// The expanded names that it is.
    pub fn as_names(&self) -> Option<&[Expanded]>
        ensures { option_copied result ≡ spec.names_in (value_in self.now) }
    {
        match self {
            Value::Names(names) => Some(names.as_slice()),
            _ => None,
        }
    }
}

/// The text that a value is.
pub fn into_text(value: Option<Value>) -> Option<Text>
    ensures { result ≡ option_and_then spec.text_in (option_map value_in value) }
{
    match value {
        Some(Value::Text(text)) => Some(text),
        other => {
            drop(other);
            None
        }
    }
}

/// The expression that a value is.
pub fn into_expr(value: Option<Value>) -> Option<Expr>
    ensures { option_map expr_of result ≡ option_and_then spec.expr_in (option_map value_in value) }
{
    match value {
        Some(Value::Expr(expr)) => Some(expr),
        other => {
            drop(other);
            None
        }
    }
}

/// The pattern that a value is.
pub fn into_pattern(value: Option<Value>) -> Option<Pattern>
    ensures { option_map pattern_of result ≡ option_and_then spec.pattern_in (option_map value_in value) }
{
    match value {
        Some(Value::Pattern(pattern)) => Some(pattern),
        other => {
            drop(other);
            None
        }
    }
}

/// The value template that a value is.
pub fn into_avt(value: Option<Value>) -> Option<Avt>
    ensures { option_map avt_of result ≡ option_and_then spec.avt_in (option_map value_in value) }
{
    match value {
        Some(Value::Avt(avt)) => Some(avt),
        other => {
            drop(other);
            None
        }
    }
}

/// The expanded name that a value is.
pub fn into_name(value: Option<Value>) -> Option<Expanded>
    ensures { result ≡ option_and_then spec.name_in (option_map value_in value) }
{
    match value {
        Some(Value::Name(name)) => Some(name),
        other => {
            drop(other);
            None
        }
    }
}

/// The expanded names that a value is.
pub fn into_names(value: Option<Value>) -> Option<Vec<Expanded>>
    ensures { option_map (λ names. names.items) result ≡ option_and_then spec.names_in (option_map value_in value) }
{
    match value {
        Some(Value::Names(names)) => Some(names),
        other => {
            drop(other);
            None
        }
    }
}

/// The node tests that a value is.
pub fn into_tests(value: Option<Value>) -> Option<Vec<Test>>
    ensures { option_map (λ tests. map test_of tests.items) result ≡ option_and_then unit.tests_in (option_map value_in value) }
{
    match value {
        Some(Value::Tests(tests)) => Some(tests),
        other => {
            drop(other);
            None
        }
    }
}

/// The priority in millionths that a value is.
pub fn into_priority(value: Option<Value>) -> Option<i64>
    ensures { result ≡ option_and_then unit.priority_in (option_map value_in value) }
{
    match value {
        None => None,
        Some(value) => {
            let priority = priority_in(&value);
            drop(value);
            priority
        }
    }
}

fn priority_in(value: &Value) -> Option<i64>
    ensures { result ≡ unit.priority_in (value_in value.now) }
{
    match value {
        Value::Priority(millionths) => Some(*millionths),
        _ => None,
    }
}

/// The output method that a value is.
pub fn into_method(value: Option<Value>) -> Option<Method>
    ensures { result ≡ option_and_then unit.method_in (option_map value_in value) }
{
    match value {
        Some(Value::Method(method)) => Some(method),
        other => {
            drop(other);
            None
        }
    }
}
