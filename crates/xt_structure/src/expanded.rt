// What the names of elements and attributes mean where they stand (Namespaces in XML 1.0, section 6).
ghost use Rattle.std.specs.Prelude.{◌≡◌, bytes_eq, map};
ghost use Rattle.std.specs.Option.{option_and_then, option_copied};
ghost use Rattle.std.specs.Prelude.{Some, None};
ghost use Rattle.std.specs.Str.{chars};
ghost use Rattle.spec_document.specs.Declaration as declaration;
ghost use Rattle.spec_document.specs.Name.{qname_of, same_expanded};
ghost use Rattle.spec_structure.specs.Inside as spec;
ghost use Rattle.xt_tree.specs.View.{written_of};

use crate::text::same;
use std::marker::Model;
use xt_names::{QName, Scope, is_declaration};
use xt_text::Text;
use xt_tree::Written;

/// An expanded name: the URI of its namespace, empty for none, and a local part.
#[derive(Drop)]
pub struct Meaning<'a> {
    uri: &'a str,
    local: &'a str,
}

impl<'a> Model for Meaning<'a> {
    ghost use Rattle.std.specs.Str.{chars};
    ghost use Rattle.spec_document.specs.Name as names;

    ghost Value = { names.Expanded };

    ghost view = { λ name. record { uri = chars name.uri.now; local = chars name.local.now } };
}

impl<'a> Meaning<'a> {
    /// The URI of its namespace, empty for none.
    pub fn uri(&self) -> &'a str
        ensures { chars result.now ≡ self.now.uri }
    {
        self.uri
    }

    /// The local part.
    pub fn local(&self) -> &'a str
        ensures { chars result.now ≡ self.now.local }
    {
        self.local
    }

    /// Whether it is in this namespace.
    pub fn is_of(&self, uri: &str) -> bool
        ensures { result ≡ bytes_eq self.now.uri (chars uri.now) }
    {
        same(self.uri(), uri)
    }

    /// Whether it has this local part.
    fn is_called(&self, local: &str) -> bool
        ensures { result ≡ bytes_eq self.now.local (chars local.now) }
    {
        same(self.local(), local)
    }

    /// Whether it has this URI and this local part.
    fn is(&self, uri: &str, local: &str) -> bool
        ensures { result ≡ same_expanded (Some self.now) (Some (record { uri = chars uri.now; local = chars local.now })) }
    {
        self.is_of(uri) && self.is_called(local)
    }
}

// The name of this prefix and local part.
fn prefixed<'a>(scope: &'a Scope, prefix: &str, local: &'a str) -> Option<Meaning<'a>>
    ensures { result ≡ declaration.prefixed_name scope.now (chars prefix.now) (chars local.now) }
{
    match scope.resolve(prefix) {
        None => None,
        Some(uri) => Some(Meaning {
            uri: uri.as_str(),
            local,
        }),
    }
}

// A name of no namespace.
fn in_none<'a>(local: &'a str) -> Meaning<'a>
    ensures { result ≡ spec.in_no_namespace (chars local.now) }
{
    Meaning { uri: "", local }
}

// A name without a prefix, in the default namespace.
fn unprefixed<'a>(scope: &'a Scope, local: &'a str) -> Meaning<'a>
    ensures { Some result ≡ declaration.element_name scope.now (record { prefix = None; local = chars local.now }) }
{
    match scope.resolve("") {
        None => in_none(local),
        Some(uri) => Meaning {
            uri: uri.as_str(),
            local,
        },
    }
}

/// What the name of an element means. None where it is no QName or its prefix is not declared. Takes no memory.
pub fn meaning_of<'a>(scope: &'a Scope, name: &'a str) -> Option<Meaning<'a>>
    ensures { result ≡ option_and_then (declaration.element_name scope.now) (qname_of (chars name.now)) }
{
    match QName::read(name) {
        None => None,
        Some(name) => element_meaning(scope, &name),
    }
}

fn element_meaning<'a>(scope: &'a Scope, name: &QName<'a>) -> Option<Meaning<'a>>
    ensures { result ≡ declaration.element_name scope.now name.now }
{
    match name.prefix() {
        None => Some(unprefixed(scope, name.local())),
        Some(prefix) => prefixed(scope, prefix, name.local()),
    }
}

fn attribute_meaning<'a>(scope: &'a Scope, name: &QName<'a>) -> Option<Meaning<'a>>
    ensures { result ≡ declaration.attribute_name scope.now name.now }
{
    match name.prefix() {
        None => Some(in_none(name.local())),
        Some(prefix) => prefixed(scope, prefix, name.local()),
    }
}

// What the name of an attribute means.
fn meaning_in<'a>(scope: &'a Scope, name: &'a str) -> Option<Meaning<'a>>
    ensures { result ≡ option_and_then (declaration.attribute_name scope.now) (qname_of (chars name.now)) }
{
    match QName::read(name) {
        None => None,
        Some(name) => attribute_meaning(scope, &name),
    }
}

/// What the name of the attribute means. None where it is a declaration, where its name is no QName, and where the
/// prefix of that is not declared. Takes no memory.
pub fn expanded_of<'a>(scope: &'a Scope, attribute: &'a Written) -> Option<Meaning<'a>>
    ensures { result ≡ spec.expanded_of scope.now (written_of attribute.now) }
{
    if is_declaration(attribute.name.as_str()) {
        return None;
    }
    meaning_in(scope, attribute.name.as_str())
}

fn is_named(scope: &Scope, attribute: &Written, uri: &str, local: &str) -> bool
    ensures { result ≡ same_expanded (spec.expanded_of scope.now (written_of attribute.now)) (Some (record { uri = chars uri.now; local = chars local.now })) }
{
    match expanded_of(scope, attribute) {
        None => false,
        Some(name) => name.is(uri, local),
    }
}

/// The value of the attribute that has this URI, empty for no namespace, and this local part. None exactly where
/// there is none. Takes no memory.
pub fn value_of<'a>(
    scope: &Scope,
    uri: &str,
    local: &str,
    attributes: &'a [Written],
) -> Option<&'a Text>
    ensures { option_copied result ≡ spec.value_of scope.now (record { uri = chars uri.now; local = chars local.now }) (map written_of attributes.now) }
{
    for attribute in attributes {
        if is_named(scope, attribute, uri, local) {
            return Some(&attribute.value);
        }
    }
    None
}
