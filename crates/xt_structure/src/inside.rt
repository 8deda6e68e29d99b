// What is in force inside an element of a module, and what an element is by its name.
ghost use Rattle.std.specs.Prelude.{◌≡◌, ◌++◌, IfOk, OnOk, Some, map};
ghost use Rattle.std.specs.List.{flat_map};
ghost use Rattle.std.specs.Option.{option_copied, option_and_then};
ghost use Rattle.std.specs.Str.{chars};
ghost use Rattle.spec_document.specs.Declaration as declaration;
ghost use Rattle.spec_document.specs.Name.{qname_of};
ghost use Rattle.spec_structure.specs.Inside as spec;
ghost use Rattle.xt_structure.specs.View.{in_force, role_in};
ghost use Rattle.xt_tree.specs.View.{written_of};

use crate::expanded::{Meaning, meaning_of, value_of};
use crate::names::element_named;
use crate::text::{is_among, words};
use spec_structure::XsltElement;
use std::alloc::Global;
use xt_names::{Scope, XML_URI, XSLT_URI};
use xt_text::{Memory, Text};
use xt_tree::Written;

/// What is in force inside an element of a module.
#[derive(Drop)]
pub struct Inside {
    /// The namespaces in scope.
    pub scope: Scope,
    /// Whether texts of white space are kept (XSLT 1.0, section 3.4).
    pub preserves: bool,
    /// The URIs of the namespaces of extension elements (section 14.1).
    pub extensions: Vec<Text>,
}

impl Inside {
    /// What is in force at the root of a module.
    pub fn root(alloc: Global) -> Result<Inside, Memory>
        ensures { IfOk result (λ inside. in_force inside ≡ spec.outside) }
    {
        Ok(Inside {
            scope: Scope::root(alloc)?,
            preserves: false,
            extensions: Vec::new(alloc),
        })
    }
}

/// What is in force inside an element of this name and these attributes, which stands where `outer` is in force.
pub fn inside_of(
    alloc: Global,
    outer: &Inside,
    name: &str,
    attributes: &[Written],
) -> Result<Inside, Memory>
    ensures { IfOk result (λ inside. in_force inside ≡ spec.inside_of (in_force outer.now) (chars name.now) (map written_of attributes.now)) }
{
    let scope = scope_within(alloc, &outer.scope, attributes)?;
    inside_with(alloc, scope, outer, name, attributes)
}

fn inside_with(
    alloc: Global,
    scope: Scope,
    outer: &Inside,
    name: &str,
    attributes: &[Written],
) -> Result<Inside, Memory>
    ensures { IfOk result (λ inside. in_force inside ≡ spec.inside_with scope (in_force outer.now) (chars name.now) (map written_of attributes.now)) }
{
    let preserves = preserves_within(&scope, outer.preserves, attributes);
    let mut extensions = copies(alloc, outer.extensions.as_slice())?;
    push_uris(
        alloc,
        &mut extensions,
        &scope,
        extension_list(&scope, name, attributes),
    )?;
    Ok(Inside {
        scope,
        preserves,
        extensions,
    })
}

/// The namespaces in scope inside an element with these attributes.
pub fn scope_within(alloc: Global, outer: &Scope, attributes: &[Written]) -> Result<Scope, Memory>
    ensures { IfOk result (λ scope. scope ≡ declaration.declared_all (map written_of attributes.now) outer.now) }
{
    let mut scope = outer.copy()?;
    for attribute in attributes {
        scope.declare(alloc, attribute.name.as_str(), attribute.value.as_str())?;
    }
    Ok(scope)
}

/// Whether white space is kept inside an element with these attributes. Takes no memory.
pub fn preserves_within(scope: &Scope, before: bool, attributes: &[Written]) -> bool
    ensures { result ≡ spec.space_by before (spec.value_of scope.now spec.space_name (map written_of attributes.now)) }
{
    match space_in(scope, attributes) {
        None => before,
        Some(value) => preserves_by(before, value),
    }
}

fn space_in<'a>(scope: &Scope, attributes: &'a [Written]) -> Option<&'a Text>
    ensures { option_copied result ≡ spec.value_of scope.now spec.space_name (map written_of attributes.now) }
{
    value_of(scope, XML_URI, "space", attributes)
}

fn preserves_by(before: bool, value: &Text) -> bool
    ensures { result ≡ spec.space_by before (Some value.now) }
{
    if value.is("preserve") {
        return true;
    }
    if value.is("default") { false } else { before }
}

/// The texts, in memory of their own. Want of memory alone is an error.
pub fn copies(alloc: Global, texts: &[Text]) -> Result<Vec<Text>, Memory>
    ensures { IfOk result (λ list. list.items ≡ texts.now) }
{
    let mut list = Vec::new(alloc);
    for text in texts {
        list.push(text.copy(alloc)?)?;
    }
    Ok(list)
}

// ---- Extension namespaces

/// The list of the prefixes of extension namespaces: an element of XSLT has it without a prefix, another in XSLT's
/// namespace.
fn extension_list<'a>(scope: &Scope, name: &str, attributes: &'a [Written]) -> Option<&'a Text>
    ensures { option_copied result ≡ spec.value_of scope.now (spec.extension_name (spec.is_xslt_name (option_and_then (declaration.element_name scope.now) (qname_of (chars name.now))))) (map written_of attributes.now) }
{
    extensions_in(scope, is_of_xslt(scope, name), attributes)
}

/// The attribute that lists them, of an element of XSLT or of another.
pub(crate) fn extensions_in<'a>(
    scope: &Scope,
    is_xslt: bool,
    attributes: &'a [Written],
) -> Option<&'a Text>
    ensures { option_copied result ≡ spec.value_of scope.now (spec.extension_name is_xslt) (map written_of attributes.now) }
{
    if is_xslt {
        return value_of(scope, "", "extension-element-prefixes", attributes);
    }
    value_of(scope, XSLT_URI, "extension-element-prefixes", attributes)
}

// Whether an element of this name is in XSLT's namespace.
fn is_of_xslt(scope: &Scope, name: &str) -> bool
    ensures { result ≡ spec.is_xslt_name (option_and_then (declaration.element_name scope.now) (qname_of (chars name.now))) }
{
    match meaning_of(scope, name) {
        None => false,
        Some(name) => is_xslt(&name),
    }
}

fn is_xslt(name: &Meaning<'_>) -> bool
    ensures { result ≡ spec.is_xslt_name (Some name.now) }
{
    name.is_of(XSLT_URI)
}

/// Adds the URIs that the prefixes in the list stand for in this scope. Want of memory alone is an error.
pub fn push_uris(
    alloc: Global,
    uris: &mut Vec<Text>,
    scope: &Scope,
    list: Option<&Text>,
) -> Result<(), Memory>
    ensures { OnOk result (uris.new.items ≡ uris.old.items ++ spec.uris_in scope.now (option_copied list.entry)) }
{
    match list {
        None => Ok(()),
        Some(list) => {
            let prefixes = words(alloc, list.as_str())?;
            push_all(alloc, uris, scope, prefixes.as_slice())
        }
    }
}

fn push_all(
    alloc: Global,
    extensions: &mut Vec<Text>,
    scope: &Scope,
    prefixes: &[Text],
) -> Result<(), Memory>
    ensures { OnOk result (extensions.new.items ≡ extensions.old.items ++ flat_map (λ word. spec.uris_by (spec.uri_of scope.now word)) prefixes.now) }
{
    for prefix in prefixes {
        push_uri(alloc, extensions, uri_of(scope, prefix))?;
    }
    Ok(())
}

// Adds the URI, where there is one.
fn push_uri(alloc: Global, extensions: &mut Vec<Text>, uri: Option<&Text>) -> Result<(), Memory>
    ensures { OnOk result (extensions.new.items ≡ extensions.old.items ++ spec.uris_by (option_copied uri.entry)) }
{
    match uri {
        None => Ok(()),
        Some(uri) => push_copy(alloc, extensions, uri),
    }
}

fn push_copy(alloc: Global, extensions: &mut Vec<Text>, uri: &Text) -> Result<(), Memory>
    ensures { OnOk result (extensions.new.items ≡ extensions.old.items ++ spec.uris_by (Some uri.now)) }
{
    if uri.is_empty() {
        return Ok(());
    }
    extensions.push(uri.copy(alloc)?)?;
    Ok(())
}

// The URI of the prefix, where `#default` is the default namespace.
fn uri_of<'a>(scope: &'a Scope, prefix: &Text) -> Option<&'a Text>
    ensures { option_copied result ≡ spec.uri_of scope.now prefix.now }
{
    if prefix.is("#default") {
        scope.resolve("")
    } else {
        scope.resolve(prefix.as_str())
    }
}

// ---- Roles

/// What an element is by its name.
#[derive(Drop)]
pub enum Role<'a> {
    /// An element of XSLT, where there is one of this name.
    OfXslt(Option<XsltElement>),
    /// An element of an extension namespace.
    OfExtension,
    /// Any other, with the URI of its namespace, empty for none.
    OfOther(&'a str),
}

/// What an element of this name is, by what is in force inside it. Takes no memory.
pub fn role_of<'a>(inside: &'a Inside, name: &'a str) -> Role<'a>
    ensures { role_in result ≡ spec.role_of (in_force inside.now) (chars name.now) }
{
    match meaning_of(&inside.scope, name) {
        None => Role::OfOther(""),
        Some(name) => role_by(inside.extensions.as_slice(), &name),
    }
}

fn role_by<'a>(extensions: &[Text], name: &Meaning<'a>) -> Role<'a>
    ensures { role_in result ≡ spec.role_by extensions.now (Some name.now) }
{
    if name.is_of(XSLT_URI) {
        return Role::OfXslt(element_named(name.local()));
    }
    if is_among(name.uri(), extensions) {
        Role::OfExtension
    } else {
        Role::OfOther(name.uri())
    }
}
