// Names as they are written, in their parts (Namespaces in XML 1.0, productions 7 to 11).
ghost use Rattle.std.specs.Prelude.{◌≡◌, ◌&&◌, ◌||◌, not, is_some, IfOk};
ghost use Rattle.std.specs.Str.{chars};
ghost use Rattle.spec_document.specs.Declaration.{is_there, is_xmlns};
ghost use Rattle.spec_document.specs.Name.{qname_of};
ghost use Rattle.spec_result.specs.Recovery.{is_attribute_name, local_of, prefix_of};
ghost use Rattle.spec_result.specs.Shape.{prefix_for, with_prefix};

use std::alloc::Global;
use xt_names::{QName, XML_URI};
use xt_text::{Memory, Text};

/// The prefix of a name, empty where it has none or is no QName.
pub(crate) fn prefix_of(name: &str) -> &str
    ensures { chars result.now ≡ prefix_of (chars name.now) }
{
    match QName::read(name) {
        None => "",
        Some(parts) => match parts.prefix() {
            None => "",
            Some(prefix) => prefix,
        },
    }
}

/// The local part of a name, all of it where it is no QName.
pub(crate) fn local_of(name: &str) -> &str
    ensures { chars result.now ≡ local_of (chars name.now) }
{
    match QName::read(name) {
        None => name,
        Some(parts) => parts.local(),
    }
}

/// Whether an attribute of this namespace may have the name: a QName other than `xmlns`, and without its prefix not
/// read as a declaration.
pub(crate) fn is_attribute_name(name: &Text, uri: &Text) -> bool
    ensures { result ≡ is_attribute_name name.now uri.now }
{
    is_qualified(name) && declares_nothing(local_of(name.as_str()), uri)
}

// Whether a name is a QName other than `xmlns`.
fn is_qualified(name: &Text) -> bool
    ensures { result ≡ (is_some (qname_of name.now) && not (is_xmlns name.now)) }
{
    QName::read(name.as_str()).is_some() && !name.is("xmlns")
}

// Whether an attribute that is written as its local part declares nothing, as it has a namespace or is not `xmlns`.
fn declares_nothing(local: &str, uri: &Text) -> bool
    ensures { result ≡ (is_there uri.now || not (is_xmlns (chars local.now))) }
{
    !uri.is_empty() || !is_xmlns(local)
}

fn is_xmlns(text: &str) -> bool
    ensures { result ≡ is_xmlns (chars text.now) }
{
    text == "xmlns"
}

/// The prefix that a name of this namespace has, where it was written with that one.
pub(crate) fn prefix_for(alloc: Global, written: &str, uri: &Text) -> Result<Text, Memory>
    ensures { IfOk result (λ prefix. prefix ≡ prefix_for (chars written.now) uri.now) }
{
    if uri.is_empty() {
        return Ok(Text::new(alloc));
    }
    if uri.is(XML_URI) {
        return Text::from_str(alloc, "xml");
    }
    Text::from_str(alloc, written)
}

/// The name with this prefix, the empty one for none.
pub(crate) fn with_prefix(alloc: Global, prefix: &Text, local: &str) -> Result<Text, Memory>
    ensures { IfOk result (λ name. name ≡ with_prefix prefix.now (chars local.now)) }
{
    if prefix.is_empty() {
        return Text::from_str(alloc, local);
    }
    let mut name = prefix.copy(alloc)?;
    name.push(':')?;
    name.push_str(local)?;
    Ok(name)
}
