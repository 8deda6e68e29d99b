// What attributes declare, and what names mean where they stand (Namespaces in XML 1.0, sections 3, 5
// and 6).
ghost use Rattle.std.specs.Prelude.{◌≡◌, [], IfOk, OnOk, OnErr, is_some};
ghost use Rattle.std.specs.Option.{unwrap_or};
ghost use Rattle.spec_document.specs.Scope.{resolved};
ghost use Rattle.std.specs.Str.{chars};
ghost use Rattle.spec_document.specs.Declaration as spec;
ghost use Rattle.xt_names.specs.View.{use_in};

use crate::{Expanded, QName, Scope};
use std::alloc::Global;
use xt_text::{Memory, Text};

/// What the name of an attribute, as written, is for: a namespace declaration, an attribute, or neither.
pub type AttributeUse<'a> = spec_document::AttributeUse<&'a str, QName<'a>>;

/// What an attribute is by its name as written. Takes no memory.
pub fn use_of(written: &str) -> AttributeUse<'_>
    ensures { use_in result ≡ spec.use_of (chars written.now) }
{
    let Some(name) = QName::read(written) else {
        return AttributeUse::NoName;
    };
    match name.prefix() {
        None => {
            if is_xmlns(name.local()) {
                return AttributeUse::Declares { prefix: "" };
            }
        }
        Some(prefix) => {
            if is_xmlns(prefix) {
                return AttributeUse::Declares {
                    prefix: name.local(),
                };
            }
        }
    }
    AttributeUse::Names { name }
}

/// Whether the attribute of this name as written is a namespace declaration. Takes no memory.
pub fn is_declaration(written: &str) -> bool
    ensures { result ≡ spec.is_declaration (record { name = chars written.now; value = [] }) }
{
    match use_of(written) {
        AttributeUse::Declares { .. } => true,
        AttributeUse::Names { .. } | AttributeUse::NoName => false,
    }
}

fn is_xmlns(text: &str) -> bool
    ensures { result ≡ spec.is_xmlns (chars text.now) }
{
    text == "xmlns"
}

impl Scope {
    /// Declares what an attribute of this name and value declares; an attribute that is no declaration
    /// changes nothing. After want of memory the scope is as before.
    pub fn declare(&mut self, alloc: Global, written: &str, value: &str) -> Result<(), Memory>
        ensures ok { OnOk result (self.new ≡ spec.declared (record { name = chars written.now; value = chars value.now }) self.old) }
        ensures err { OnErr result (self.new ≡ self.old) }
    {
        match use_of(written) {
            AttributeUse::Declares { prefix } => self.bind(alloc, prefix, value),
            AttributeUse::Names { .. } | AttributeUse::NoName => Ok(()),
        }
    }

    /// Whether the prefix of the name is declared, so that the name has an expanded one; a name without a
    /// prefix needs none. Takes no memory.
    pub fn has_prefix_of(&self, name: &QName<'_>) -> bool
        ensures element { result ≡ is_some (spec.element_name self.now name.now) }
        ensures attribute { result ≡ is_some (spec.attribute_name self.now name.now) }
    {
        match name.prefix() {
            None => true,
            Some(prefix) => self.resolve(prefix).is_some(),
        }
    }

    /// The expanded name of an element of this name: without a prefix it is in the default namespace.
    /// None exactly where the prefix is not declared.
    pub fn element_name(&self, alloc: Global, name: &QName<'_>) -> Result<Option<Expanded>, Memory>
        ensures { IfOk result (λ expanded. expanded ≡ spec.element_name self.now name.now) }
    {
        match name.prefix() {
            None => {
                let uri = self.default_uri(alloc)?;
                Ok(Some(Expanded::new(uri, Text::from_str(alloc, name.local())?)))
            }
            Some(prefix) => self.prefixed(alloc, prefix, name.local()),
        }
    }

    /// The expanded name of an attribute of this name: without a prefix it is in no namespace. None
    /// exactly where the prefix is not declared.
    pub fn attribute_name(
        &self,
        alloc: Global,
        name: &QName<'_>,
    ) -> Result<Option<Expanded>, Memory>
        ensures { IfOk result (λ expanded. expanded ≡ spec.attribute_name self.now name.now) }
    {
        match name.prefix() {
            None => Ok(Some(Expanded::new(Text::new(alloc), Text::from_str(alloc, name.local())?))),
            Some(prefix) => self.prefixed(alloc, prefix, name.local()),
        }
    }

    // The URI of the default namespace, empty where there is none.
    fn default_uri(&self, alloc: Global) -> Result<Text, Memory>
        ensures { IfOk result (λ uri. uri ≡ unwrap_or (resolved self.now []) []) }
    {
        match self.resolve("") {
            None => Ok(Text::new(alloc)),
            Some(uri) => uri.copy(alloc),
        }
    }

    // The expanded name of this prefix and local part.
    fn prefixed(&self, alloc: Global, prefix: &str, local: &str) -> Result<Option<Expanded>, Memory>
        ensures { IfOk result (λ expanded. expanded ≡ spec.prefixed_name self.now (chars prefix.now) (chars local.now)) }
    {
        match self.resolve(prefix) {
            None => Ok(None),
            Some(uri) => Ok(Some(Expanded::new(uri.copy(alloc)?, Text::from_str(alloc, local)?))),
        }
    }
}
