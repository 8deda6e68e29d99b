// Attributes and namespace declarations of an element by their written names.
ghost use Rattle.std.specs.Prelude.{◌≡◌, [], ◌∷◌, ◌++◌, map, bytes_eq, codes, IfOk, OnOk};
ghost use Rattle.std.specs.List.{list_all, list_any};
ghost use Rattle.std.specs.Str.{chars};
ghost use Rattle.spec_document.specs.Character as characters;
ghost use Rattle.spec_edit.specs.Edit as spec;
ghost use Rattle.spec_edit.specs.Edit.{is_named, with_attribute, without_attribute};
ghost use Rattle.xt_tree.specs.View.{written_of};

use std::alloc::Global;
use xt_names::{AttributeUse, is_char, use_of};
use xt_text::{Memory, Text};
use xt_tree::Written;

/// Whether an element is made anew where its attribute or declaration of this written name changes: a declaration says
/// what names below it mean, and xml:space which white space counts there (XML 1.0, section 2.10).
pub(crate) fn makes_anew(name: &str) -> bool
    ensures { result ≡ spec.makes_anew (chars name.now) }
{
    match use_of(name) {
        AttributeUse::Declares { .. } => true,
        AttributeUse::Names { .. } => is_space_name(name),
        AttributeUse::NoName => false,
    }
}

/// Whether it is the written name of xml:space.
pub(crate) fn is_space_name(name: &str) -> bool
    ensures { result ≡ bytes_eq (chars name.now) (codes "xml:space") }
{
    name == "xml:space"
}

/// Whether each character is one of XML (XML 1.0, section 2.2).
pub(crate) fn is_text_of_chars(value: &Text) -> bool
    ensures { result ≡ list_all characters.is_char value.now }
{
    value.as_str().chars().all(|character| is_char(character))
}

/// Whether one of the attributes and declarations has this written name.
pub(crate) fn has_attribute(attributes: &[Written], name: &Text) -> bool
    ensures { result ≡ list_any (is_named name.now) (map written_of attributes.now) }
{
    attributes.iter().any(|attribute| attribute.name.same(name))
}

/// The attributes and declarations with this one: in the place of that of the same written name, or last.
pub(crate) fn attributes_with(
    alloc: Global,
    attributes: &[Written],
    name: &Text,
    value: &Text,
) -> Result<Vec<Written>, Memory>
    ensures { IfOk result (λ list. map written_of list.items ≡ with_attribute name.now value.now (map written_of attributes.now)) }
{
    let mut list = Vec::new(alloc);
    for attribute in attributes {
        list.push(set_in(alloc, attribute, name, value)?)?;
    }
    if !has_attribute(attributes, name) {
        add_last(alloc, &mut list, name, value)?;
    }
    Ok(list)
}

// Adds an attribute or declaration behind the others.
#[tactic(auto, using(crate::proofs::Named::map_last))]
fn add_last(alloc: Global, list: &mut Vec<Written>, name: &Text, value: &Text) -> Result<(), Memory>
    ensures { OnOk result (map written_of list.new.items ≡ map written_of list.old.items ++ record { name = name.now; value = value.now } ∷ []) }
{
    let added = written(alloc, name, value)?;
    list.push(added)?;
    Ok(())
}

// The attribute, with this value if it has this written name.
fn set_in(alloc: Global, attribute: &Written, name: &Text, value: &Text) -> Result<Written, Memory>
    ensures { IfOk result (λ set. written_of set ≡ spec.set_in name.now value.now (written_of attribute.now)) }
{
    if attribute.name.same(name) {
        written(alloc, name, value)
    } else {
        written(alloc, &attribute.name, &attribute.value)
    }
}

/// The attributes and declarations but for that of this written name.
pub(crate) fn attributes_without(
    alloc: Global,
    attributes: &[Written],
    name: &Text,
) -> Result<Vec<Written>, Memory>
    ensures { IfOk result (λ list. map written_of list.items ≡ without_attribute name.now (map written_of attributes.now)) }
{
    let mut list = Vec::new(alloc);
    for attribute in attributes {
        if !attribute.name.same(name) {
            list.push(written(alloc, &attribute.name, &attribute.value)?)?;
        }
    }
    Ok(list)
}

/// The same attributes and declarations.
pub(crate) fn attributes_copied(
    alloc: Global,
    attributes: &[Written],
) -> Result<Vec<Written>, Memory>
    ensures { IfOk result (λ list. map written_of list.items ≡ map written_of attributes.now) }
{
    let mut list = Vec::new(alloc);
    for attribute in attributes {
        list.push(written(alloc, &attribute.name, &attribute.value)?)?;
    }
    Ok(list)
}

fn written(alloc: Global, name: &Text, value: &Text) -> Result<Written, Memory>
    ensures { IfOk result (λ made. written_of made ≡ record { name = name.now; value = value.now }) }
{
    Ok(Written {
        name: name.copy(alloc)?,
        value: value.copy(alloc)?,
    })
}
