// What may not be declared, and what no processing instruction may be called (Namespaces in XML 1.0,
// section 3; XML 1.0, production 17).
ghost use Rattle.std.specs.Prelude.{◌≡◌, ◌||◌, ◌&&◌, not, bytes_eq};
ghost use Rattle.std.specs.Str.{chars};
ghost use Rattle.spec_document.specs.Scope.{xml_uri, xmlns_uri};
ghost use Rattle.spec_document.specs.Declaration as spec;

use crate::{XML_URI, XMLNS_URI};

/// Whether no declaration of this prefix, empty for the default namespace, with this URI may stand: no
/// prefix can be undeclared, `xml` and its URI belong to each other alone, and neither `xmlns` nor its
/// URI can be declared. Takes no memory.
pub fn is_barred(prefix: &str, uri: &str) -> bool
    ensures { result ≡ spec.is_barred (chars prefix.now) (chars uri.now) }
{
    undeclares(prefix, uri) || parts_xml(prefix, uri) || names_xmlns(prefix, uri)
}

/// Whether no processing instruction may have this target: `xml` in any case (XML 1.0, production 17).
/// Takes no memory.
pub fn is_reserved_target(target: &str) -> bool
    ensures { result ≡ spec.is_reserved_target (chars target.now) }
{
    target.eq_ignore_ascii_case("xml")
}

// Whether a prefix is undeclared, which only the default namespace can be.
fn undeclares(prefix: &str, uri: &str) -> bool
    ensures { result ≡ (spec.is_there (chars prefix.now) && not (spec.is_there (chars uri.now))) }
{
    is_there(prefix) && !is_there(uri)
}

// Whether it has a character.
fn is_there(text: &str) -> bool
    ensures { result ≡ spec.is_there (chars text.now) }
{
    !text.is_empty()
}

// Whether `xml` or its URI is declared without the other: they belong to each other alone.
fn parts_xml(prefix: &str, uri: &str) -> bool
    ensures { result ≡ ((spec.is_xml (chars prefix.now) && not (bytes_eq (chars uri.now) xml_uri)) || (not (spec.is_xml (chars prefix.now)) && bytes_eq (chars uri.now) xml_uri)) }
{
    is_same(prefix, "xml") != is_same(uri, XML_URI)
}

// Whether the prefix `xmlns` or its URI is declared, which neither can be.
fn names_xmlns(prefix: &str, uri: &str) -> bool
    ensures { result ≡ (spec.is_xmlns (chars prefix.now) || bytes_eq (chars uri.now) xmlns_uri) }
{
    is_same(prefix, "xmlns") || is_same(uri, XMLNS_URI)
}

// Whether both have the same characters.
fn is_same(text: &str, other: &str) -> bool
    ensures { result ≡ bytes_eq (chars text.now) (chars other.now) }
{
    text == other
}
