// Names, prefixes and node tests in values (XSLT 1.0, sections 2.4, 3.4, 7.1.1 and 16).
ghost use Rattle.std.specs.Prelude.{◌≡◌, ◌&&◌, Err, IfOk, None, Ok, Option, Some, bytes_eq, codes, if◌then◌else◌, map};
ghost use Rattle.std.specs.List.{after_first, before_first};
ghost use Rattle.std.specs.Option.{option_copied, option_map};
ghost use Rattle.std.specs.Str.{chars};
ghost use Rattle.spec_compile.specs.Value as spec;
ghost use Rattle.spec_document.specs.Name as name;
ghost use Rattle.xt_syntax.specs.View.{test_of};
ghost use Rattle.xt_attributes.specs.Gathering.{seen};
ghost use Rattle.xt_attributes.specs.View.{value_in};

use crate::gathered::Gathered;
use crate::value::Value;
use spec_expression::StaticCode;
use std::alloc::Global;
use xt_names::{Expanded, QName, Scope, is_ncname};
use xt_syntax::{Method, Test};
use xt_text::{Memory, Text, split_first};

/// What a part of a value is, or the code that stands where it is none.
pub(crate) type Read<T> = Result<T, StaticCode>;

fn name_by(name: Option<Expanded>) -> Read<Expanded>
    ensures { result ≡ spec.name_by name }
{
    match name {
        None => Err(StaticCode::NoPrefix),
        Some(name) => Ok(name),
    }
}

/// The expanded name that a QName stands for; without a prefix it is in no namespace. S15 where it is none, S14 where
/// its prefix is not declared. Want of memory alone is an error of the call.
pub(crate) fn name_of(alloc: Global, scope: &Scope, text: &str) -> Result<Read<Expanded>, Memory>
    ensures { IfOk result (λ name. name ≡ spec.name_of scope.now (chars text.now)) }
{
    match QName::read(text) {
        None => Ok(Err(StaticCode::BadName)),
        Some(name) => {
            let expanded = scope.attribute_name(alloc, &name)?;
            Ok(name_by(expanded))
        }
    }
}

/// The expanded names that words stand for.
pub(crate) fn names_of(
    alloc: Global,
    scope: &Scope,
    words: &[Text],
) -> Result<Read<Vec<Expanded>>, Memory>
    ensures { IfOk result (λ names. seen (λ list. list.items) names ≡ spec.each (spec.name_of scope.now) words.now) }
{
    let mut names = Gathered::new(alloc);
    for word in words {
        let name = name_of(alloc, scope, word.as_str())?;
        names.push(name)?;
    }
    Ok(names.finish())
}

// ---- Prefixes

fn is_default(word: &Text) -> bool
    ensures { result ≡ bytes_eq word.now (codes "#default") }
{
    word.is("#default")
}

fn is_name(word: &Text) -> bool
    ensures { result ≡ name.is_ncname word.now }
{
    is_ncname(word.as_str())
}

fn is_declared(scope: &Scope, word: &Text) -> bool
    ensures { result ≡ spec.is_declared scope.now word.now }
{
    scope.resolve(word.as_str()).is_some()
}

// The code that stands at a word which is no prefix that may be there.
fn prefix_fault(scope: &Scope, word: &Text) -> Option<StaticCode>
    ensures { spec.prefix_of scope.now word.now ≡ elim result [ None ↦ Ok word.now | Some code ↦ Err code ] }
{
    if is_default(word) {
        return None;
    }
    if !is_name(word) {
        return Some(StaticCode::BadName);
    }
    if !is_declared(scope, word) {
        return Some(StaticCode::NoPrefix);
    }
    None
}

/// The prefix, or `#default`. S15 where it is no name, S14 where it is not declared.
pub(crate) fn prefix_of(alloc: Global, scope: &Scope, word: &Text) -> Result<Read<Text>, Memory>
    ensures { IfOk result (λ prefix. prefix ≡ spec.prefix_of scope.now word.now) }
{
    match prefix_fault(scope, word) {
        None => {
            let prefix = word.copy(alloc)?;
            Ok(Ok(prefix))
        }
        Some(code) => Ok(Err(code)),
    }
}

/// The prefixes that words are.
pub(crate) fn prefixes_of(
    alloc: Global,
    scope: &Scope,
    words: &[Text],
) -> Result<Read<Vec<Text>>, Memory>
    ensures { IfOk result (λ prefixes. seen (λ list. list.items) prefixes ≡ spec.each (spec.prefix_of scope.now) words.now) }
{
    let mut prefixes = Gathered::new(alloc);
    for word in words {
        let prefix = prefix_of(alloc, scope, word)?;
        prefixes.push(prefix)?;
    }
    Ok(prefixes.finish())
}

// ---- Node tests

// What stands before `:*`, where that is a name.
fn namespace_prefix(word: &str) -> Option<&str>
    ensures { option_map (λ prefix. chars prefix.now) result
        ≡ (if name.is_ncname (before_first name.is_colon (chars word.now)) && bytes_eq (after_first name.is_colon (chars word.now)) (codes "*")
        then Some (before_first name.is_colon (chars word.now)) else None) }
{
    match split_first(word, ':') {
        None => None,
        Some((prefix, local)) => prefix_before(prefix, local),
    }
}

fn prefix_before<'a>(prefix: &'a str, local: &str) -> Option<&'a str>
    ensures { option_map (λ prefix. chars prefix.now) result
        ≡ (if name.is_ncname (chars prefix.now) && bytes_eq (chars local.now) (codes "*") then Some (chars prefix.now) else None) }
{
    if is_ncname(prefix) && is_star(local) {
        Some(prefix)
    } else {
        None
    }
}

fn is_star(text: &str) -> bool
    ensures { result ≡ bytes_eq (chars text.now) (codes "*") }
{
    same(text, "*")
}

fn same(text: &str, other: &str) -> bool
    ensures { result ≡ bytes_eq (chars text.now) (chars other.now) }
{
    text == other
}

fn in_namespace(alloc: Global, uri: Option<&Text>) -> Result<Read<Test>, Memory>
    ensures { IfOk result (λ test. seen test_of test ≡ spec.uri_by (option_copied uri.entry)) }
{
    match uri {
        None => Ok(Err(StaticCode::NoPrefix)),
        Some(uri) => {
            let uri = uri.copy(alloc)?;
            Ok(Ok(Test::InNamespace(uri)))
        }
    }
}

fn named_by(name: Read<Expanded>) -> Read<Test>
    ensures { seen test_of result ≡ spec.named_by name }
{
    match name {
        Err(code) => Err(code),
        Ok(name) => Ok(Test::Named(name)),
    }
}

fn is_any(word: &Text) -> bool
    ensures { result ≡ bytes_eq word.now (codes "*") }
{
    word.is("*")
}

/// The node test of elements that a word is: `*`, `p:*` or a name (section 3.4).
pub(crate) fn test_of(alloc: Global, scope: &Scope, word: &Text) -> Result<Read<Test>, Memory>
    ensures { IfOk result (λ test. seen test_of test ≡ spec.test_of scope.now word.now) }
{
    if is_any(word) {
        return Ok(Ok(Test::AnyName));
    }
    match namespace_prefix(word.as_str()) {
        None => {
            let name = name_of(alloc, scope, word.as_str())?;
            Ok(named_by(name))
        }
        Some(prefix) => in_namespace(alloc, scope.resolve(prefix)),
    }
}

/// The node tests that words are.
pub(crate) fn tests_of(
    alloc: Global,
    scope: &Scope,
    words: &[Text],
) -> Result<Read<Vec<Test>>, Memory>
    ensures { IfOk result (λ tests. seen (λ list. map test_of list.items) tests ≡ spec.each (spec.test_of scope.now) words.now) }
{
    let mut tests = Gathered::new(alloc);
    for word in words {
        let test = test_of(alloc, scope, word)?;
        tests.push(test)?;
    }
    Ok(tests.finish())
}

// ---- Output methods

fn method_by(name: Read<Expanded>) -> Read<Value>
    ensures { seen value_in result ≡ spec.method_by name }
{
    match name {
        Err(code) => Err(code),
        Ok(name) => Ok(Value::Method(Method::Other(name))),
    }
}

fn is_xml(text: &Text) -> bool
    ensures { result ≡ bytes_eq text.now (codes "xml") }
{
    text.is("xml")
}

fn is_html(text: &Text) -> bool
    ensures { result ≡ bytes_eq text.now (codes "html") }
{
    text.is("html")
}

fn is_text(text: &Text) -> bool
    ensures { result ≡ bytes_eq text.now (codes "text") }
{
    text.is("text")
}

/// The output method of this name (section 16).
pub(crate) fn method_of(alloc: Global, scope: &Scope, text: &Text) -> Result<Read<Value>, Memory>
    ensures { IfOk result (λ method. seen value_in method ≡ spec.method_of scope.now text.now) }
{
    if is_xml(text) {
        return Ok(Ok(Value::Method(Method::Xml)));
    }
    if is_html(text) {
        return Ok(Ok(Value::Method(Method::Html)));
    }
    if is_text(text) {
        return Ok(Ok(Value::Method(Method::Text)));
    }
    let name = name_of(alloc, scope, text.as_str())?;
    Ok(method_by(name))
}
