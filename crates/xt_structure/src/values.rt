// What the values of attributes may be (XSLT 1.0, sections 2.4, 3.4, 5.4, 7.1.1 and 16).
ghost use Rattle.std.specs.Prelude.{◌≡◌, ◌||◌, IfOk, bytes_eq, codes, is_some};
ghost use Rattle.std.specs.List.{list_all};
ghost use Rattle.std.specs.Str.{chars};
ghost use Rattle.spec_document.specs.Name as names;
ghost use Rattle.spec_structure.specs.Structure as spec;

use crate::text::{is_one_of, same, words};
use spec_structure::ValueKind;
use std::alloc::Global;
use xt_names::{QName, is_ncname};
use xt_text::{Memory, Text, split_first};

const YES_NO: [&str; 2] = ["yes", "no"];

const LEVELS: [&str; 3] = ["single", "multiple", "any"];

const METHODS: [&str; 3] = ["xml", "html", "text"];

fn is_yes_no(text: &str) -> bool
    ensures { result ≡ spec.is_yes_no (chars text.now) }
{
    is_one_of(text, &YES_NO)
}

fn is_level(text: &str) -> bool
    ensures { result ≡ spec.is_level (chars text.now) }
{
    is_one_of(text, &LEVELS)
}

fn is_known_method(text: &str) -> bool
    ensures { result ≡ spec.is_known_method (chars text.now) }
{
    is_one_of(text, &METHODS)
}

fn is_method(text: &str) -> bool
    ensures { result ≡ spec.is_method (chars text.now) }
{
    is_known_method(text) || has_prefix(text)
}

// Whether it is a QName with a prefix.
fn has_prefix(text: &str) -> bool
    ensures { result ≡ spec.has_prefix (names.qname_of (chars text.now)) }
{
    match QName::read(text) {
        None => false,
        Some(name) => name.prefix().is_some(),
    }
}

/// Whether the value is one of those that an attribute of this kind may have.
pub(crate) fn is_allowed(kind: ValueKind, text: &Text) -> bool
    ensures { result ≡ spec.is_allowed kind text.now }
{
    match kind {
        ValueKind::YesNo => is_yes_no(text.as_str()),
        ValueKind::Level => is_level(text.as_str()),
        ValueKind::Method => is_method(text.as_str()),
        _ => true,
    }
}

fn is_qname(text: &Text) -> bool
    ensures { result ≡ is_some (names.qname_of text.now) }
{
    QName::read(text.as_str()).is_some()
}

fn is_prefix(word: &Text) -> bool
    ensures { result ≡ spec.is_prefix word.now }
{
    is_ncname(word.as_str()) || is_default(word)
}

fn is_default(word: &Text) -> bool
    ensures { result ≡ spec.is_default word.now }
{
    word.is("#default")
}

// Whether it is `*`, a name before `:*`, or a QName (XPath 1.0, production 37).
fn is_name_test(word: &Text) -> bool
    ensures { result ≡ spec.is_name_test word.now }
{
    is_star_or_name(word) || is_any_of_prefix(word.as_str())
}

fn is_star_or_name(word: &Text) -> bool
    ensures { result ≡ (bytes_eq word.now (codes "*") || is_some (names.qname_of word.now)) }
{
    is_all(word) || is_qname(word)
}

fn is_all(word: &Text) -> bool
    ensures { result ≡ bytes_eq word.now (codes "*") }
{
    word.is("*")
}

fn is_any_of_prefix(word: &str) -> bool
    ensures { result ≡ spec.is_any_of_prefix (chars word.now) }
{
    match split_first(word, ':') {
        None => false,
        Some((prefix, local)) => is_ncname(prefix) && is_star(local),
    }
}

fn is_star(text: &str) -> bool
    ensures { result ≡ bytes_eq (chars text.now) (codes "*") }
{
    same(text, "*")
}

fn are_qnames(words: &[Text]) -> bool
    ensures { result ≡ list_all (λ word. is_some (names.qname_of word)) words.now }
{
    for word in words {
        if !is_qname(word) {
            return false;
        }
    }
    true
}

fn are_prefixes(words: &[Text]) -> bool
    ensures { result ≡ list_all spec.is_prefix words.now }
{
    for word in words {
        if !is_prefix(word) {
            return false;
        }
    }
    true
}

fn are_name_tests(words: &[Text]) -> bool
    ensures { result ≡ list_all spec.is_name_test words.now }
{
    for word in words {
        if !is_name_test(word) {
            return false;
        }
    }
    true
}

/// Whether names stand in the value of an attribute of this kind where they are to stand.
pub(crate) fn is_well_named(alloc: Global, kind: ValueKind, text: &Text) -> Result<bool, Memory>
    ensures { IfOk result (λ is. is ≡ spec.is_well_named kind text.now) }
{
    match kind {
        ValueKind::Name => Ok(is_qname(text)),
        ValueKind::Prefix => Ok(is_prefix(text)),
        ValueKind::Names => {
            let words = words(alloc, text.as_str())?;
            Ok(are_qnames(words.as_slice()))
        }
        ValueKind::Prefixes => {
            let words = words(alloc, text.as_str())?;
            Ok(are_prefixes(words.as_slice()))
        }
        ValueKind::Tests => {
            let words = words(alloc, text.as_str())?;
            Ok(are_name_tests(words.as_slice()))
        }
        _ => Ok(true),
    }
}

/// Whether it is `1.0`, with white space around it.
pub(crate) fn is_version(alloc: Global, text: &Text) -> Result<bool, Memory>
    ensures { IfOk result (λ is. is ≡ spec.is_version text.now) }
{
    let words = words(alloc, text.as_str())?;
    Ok(is_one_alone(words.as_slice()))
}

fn is_one_alone(words: &[Text]) -> bool
    ensures { result ≡ spec.is_alone (codes "1.0") words.now }
{
    if words.len() == 1 {
        is_one(&words[0])
    } else {
        false
    }
}

fn is_one(word: &Text) -> bool
    ensures { result ≡ bytes_eq word.now (codes "1.0") }
{
    word.is("1.0")
}
