// Names in a scope. What is declared stands first, then `:` and what is asked.
// `resolve` and `resolve-outer` take prefixes, which are bound by words `PREFIX=URI`; behind the word `/`
// the inner scope goes on as a copy of the outer one, and `resolve-outer` asks the outer one when all is
// bound; `same-scope` compares two scopes. `element-names`, `attribute-names` and `namespaces` take attributes, as `xmlns:p=URI`; so does
// `doubles`, which tells of each name whether the ones before it are those of an attribute like it.

use cases::{Fault, Word, halves, part, push_name, push_part, push_quoted, push_yes, text_of};
use std::alloc::Global;
use xt_names::{AttributeNames, Expanded, QName, Scope};
use xt_text::{Memory, Text};

// A scope, and the one outside it.
#[derive(Drop)]
struct Nested {
    inner: Scope,
    outer: Scope,
}

/// Answers the call, if it is one of these.
pub fn answer(alloc: Global, out: &mut Text, call: &str, words: &[Word]) -> Result<bool, Fault> {
    let (declared, asked) = halves(words);
    match call {
        "resolve" => push_uris(out, &make_scopes(alloc, declared)?.inner, asked)?,
        "resolve-outer" => push_uris(out, &make_scopes(alloc, declared)?.outer, asked)?,
        "same-scope" => {
            let scope = make_scopes(alloc, declared)?.inner;
            push_yes(out, scope.same(&make_scopes(alloc, asked)?.inner))?;
        }
        "element-names" => push_elements(alloc, out, &scope(alloc, declared)?, asked)?,
        "attribute-names" => push_attributes(alloc, out, &scope(alloc, declared)?, asked)?,
        "doubles" => push_doubles(alloc, out, &scope(alloc, declared)?, asked)?,
        "namespaces" => push_namespaces(alloc, out, &scope(alloc, declared)?)?,
        _ => return Ok(false),
    }
    Ok(true)
}

fn make_scopes(alloc: Global, words: &[Word]) -> Result<Nested, Fault> {
    let mut scopes = Nested {
        inner: Scope::root(alloc)?,
        outer: Scope::root(alloc)?,
    };
    for word in words {
        scopes.take(alloc, word)?;
    }
    Ok(scopes)
}

impl Nested {
    fn take(&mut self, alloc: Global, word: &Word) -> Result<(), Fault> {
        let text = text_of(word)?;
        if text == "/" {
            self.outer = self.inner.copy()?;
        } else {
            let (prefix, uri) = equation(text)?;
            self.inner.bind(alloc, prefix, uri)?;
        }
        Ok(())
    }
}

/// The scope that these attributes make.
pub fn scope(alloc: Global, words: &[Word]) -> Result<Scope, Fault> {
    let mut scope = Scope::root(alloc)?;
    for word in words {
        let (name, value) = equation(text_of(word)?)?;
        scope.declare(alloc, name, value)?;
    }
    Ok(scope)
}

// What stands before the first `=` and what stands behind it.
fn equation(text: &str) -> Result<(&str, &str), Fault> {
    text.split_once('=').ok_or(Fault::NoCase)
}

fn push_uris(out: &mut Text, scope: &Scope, prefixes: &[Word]) -> Result<(), Fault> {
    for prefix in prefixes {
        match scope.resolve(text_of(prefix)?) {
            None => push_part(out, "none")?,
            Some(uri) => {
                part(out)?;
                push_quoted(out, uri.as_str())?;
            }
        }
    }
    Ok(())
}

fn push_elements(
    alloc: Global,
    out: &mut Text,
    scope: &Scope,
    names: &[Word],
) -> Result<(), Fault> {
    for name in names {
        match QName::read(text_of(name)?) {
            None => return Err(Fault::NoCase),
            Some(name) => push_found(out, &scope.element_name(alloc, &name)?)?,
        }
    }
    Ok(())
}

fn push_attributes(
    alloc: Global,
    out: &mut Text,
    scope: &Scope,
    names: &[Word],
) -> Result<(), Fault> {
    for name in names {
        match QName::read(text_of(name)?) {
            None => return Err(Fault::NoCase),
            Some(name) => push_found(out, &scope.attribute_name(alloc, &name)?)?,
        }
    }
    Ok(())
}

fn push_found(out: &mut Text, name: &Option<Expanded>) -> Result<(), Memory> {
    match name {
        None => push_part(out, "none"),
        Some(name) => {
            part(out)?;
            push_name(out, name)
        }
    }
}

fn push_doubles(alloc: Global, out: &mut Text, scope: &Scope, names: &[Word]) -> Result<(), Fault> {
    let mut before = AttributeNames::new(alloc);
    for name in names {
        let is_double = insert(alloc, &mut before, scope, text_of(name)?)?;
        push_yes(out, is_double)?;
    }
    Ok(())
}

// Adds the name of an attribute, and tells whether it was there.
fn insert(
    alloc: Global,
    names: &mut AttributeNames,
    scope: &Scope,
    written: &str,
) -> Result<bool, Memory> {
    let expanded = found_attribute(alloc, scope, written)?;
    names.insert(alloc, written, expanded.as_ref())
}

fn found_attribute(
    alloc: Global,
    scope: &Scope,
    written: &str,
) -> Result<Option<Expanded>, Memory> {
    match QName::read(written) {
        None => Ok(None),
        Some(name) => scope.attribute_name(alloc, &name),
    }
}

fn push_namespaces(alloc: Global, out: &mut Text, scope: &Scope) -> Result<(), Memory> {
    for namespace in &scope.namespaces(alloc)? {
        push_part(out, namespace.prefix.as_str())?;
        out.push('=')?;
        out.push_str(namespace.uri.as_str())?;
    }
    Ok(())
}
