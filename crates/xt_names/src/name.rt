// Names (Namespaces in XML 1.0, productions 4 and 7 to 11).
ghost use Rattle.std.specs.Prelude.{◌≡◌, IfOk};
ghost use Rattle.std.specs.Option.{option_map};
ghost use Rattle.std.specs.Str.{chars};
ghost use Rattle.spec_document.specs.Name as spec;

use crate::character::{is_name_part, is_name_start};
use std::alloc::Global;
use std::marker::Model;
use xt_text::{Memory, Text, split_first};

/// Whether the text is an NCName: a name without a colon (production 4). Takes no memory.
pub fn is_ncname(text: &str) -> bool
    ensures { result ≡ spec.is_ncname (chars text.now) }
{
    let mut characters = text.chars();
    match characters.next() {
        None => false,
        Some(first) => is_name_start(first) && characters.all(|c| is_name_part(c)),
    }
}

/// A QName in its parts, as they stand in a text (productions 7 to 11).
#[derive(Debug, Drop)]
pub struct QName<'a> {
    prefix: Option<&'a str>,
    local: &'a str,
}

impl<'a> Model for QName<'a> {
    ghost use Rattle.std.specs.Option.{option_map};
    ghost use Rattle.std.specs.Str.{chars};
    ghost use Rattle.spec_document.specs.Name as spec;

    ghost Value = { spec.QName };

    ghost view = { λ name. record { prefix = option_map (λ p. chars p.now) name.prefix; local = chars name.local.now } };
}

impl<'a> QName<'a> {
    /// The QName that the text is: an NCName, or two of them parted by a colon. None exactly where it
    /// is neither. Takes no memory.
    pub fn read(text: &'a str) -> Option<QName<'a>>
        ensures { result ≡ spec.qname_of (chars text.now) }
    {
        if is_ncname(text) {
            return Some(QName {
                prefix: None,
                local: text,
            });
        }
        let Some((prefix, local)) = split_first(text, ':') else {
            return None;
        };
        if !is_ncname(prefix) || !is_ncname(local) {
            return None;
        }
        Some(QName {
            prefix: Some(prefix),
            local,
        })
    }

    /// The part before the colon, where there is one.
    pub fn prefix(&self) -> Option<&'a str>
        ensures { option_map (λ p. chars p.now) result ≡ self.now.prefix }
    {
        self.prefix
    }

    /// The part behind the colon, or all of the name.
    pub fn local(&self) -> &'a str
        ensures { chars result.now ≡ self.now.local }
    {
        self.local
    }
}

/// An expanded name: a namespace URI, empty for no namespace, and a local part (Namespaces in XML
/// 1.0, section 2.1).
#[derive(Debug, Drop)]
pub struct Expanded {
    uri: Text,
    local: Text,
}

impl Model for Expanded {
    ghost use Rattle.spec_document.specs.Name as spec;

    ghost Value = { spec.Expanded };

    ghost view = { λ name. record { uri = name.uri; local = name.local } };
}

impl Expanded {
    /// The name of these parts. Takes no memory.
    pub fn new(uri: Text, local: Text) -> Expanded
        ensures uri { result.uri ≡ uri }
        ensures local { result.local ≡ local }
    {
        Expanded { uri, local }
    }

    /// The URI of its namespace, empty for no namespace.
    pub fn uri(&self) -> &Text
        ensures { result.now ≡ self.now.uri }
    {
        &self.uri
    }

    /// The local part.
    pub fn local(&self) -> &Text
        ensures { result.now ≡ self.now.local }
    {
        &self.local
    }

    /// Whether both have the same URI and the same local part, character by character. Takes no
    /// memory.
    pub fn same(&self, other: &Expanded) -> bool
        ensures { result ≡ spec.same_name self.now other.now }
    {
        self.uri.same(&other.uri) && self.local.same(&other.local)
    }
}

/// The same name.
pub fn copy_name(alloc: Global, name: &Expanded) -> Result<Expanded, Memory>
    ensures { IfOk result (λ n. n ≡ name.now) }
{
    let uri = name.uri().copy(alloc)?;
    let local = name.local().copy(alloc)?;
    Ok(Expanded::new(uri, local))
}

/// The same name, where there is one.
pub fn copy_name_if(alloc: Global, name: &Option<Expanded>) -> Result<Option<Expanded>, Memory>
    ensures { IfOk result (λ n. n ≡ name.now) }
{
    match name {
        None => Ok(None),
        Some(name) => Ok(Some(copy_name(alloc, name)?)),
    }
}
