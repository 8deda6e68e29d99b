// Parts of nodes: their attributes, and what their declarations and names mean.
ghost use Rattle.std.specs.Prelude.{◌≡◌, Some, map, not, IfOk, OnOk};
ghost use Rattle.std.specs.Option.{option_map, option_and_then};
ghost use Rattle.std.specs.Str.{chars};
ghost use Rattle.spec_document.specs.Name.{qname_of};
ghost use Rattle.spec_document.specs.Declaration as spec;
ghost use Rattle.std.specs.List.{filter};
ghost use Rattle.spec_document.specs.Declaration.{is_declaration, declared_all, within};
ghost use Rattle.spec_document.specs.Place.{attributes_in, name_by, written_by};
ghost use Rattle.xt_tree.specs.View.{written_of, content_of};

use crate::{Content, Written};
use std::alloc::Global;
use std::rc::Rc;
use xt_names::{Expanded, QName, Scope, is_declaration};
use xt_text::{Memory, Text};

/// The attributes of an element in their order. Other nodes have none.
pub fn attributes_in<'a>(alloc: Global, content: &'a Content) -> Result<Vec<&'a Written>, Memory>
    ensures { IfOk result (λ list. map (λ a. written_of a.now) list.items ≡ attributes_in (Some (content_of content.now))) }
{
    match content {
        Content::Element { attributes, .. } => own_attributes(alloc, attributes.as_slice()),
        Content::Text { .. } | Content::Comment { .. } | Content::Instruction { .. } => {
            Ok(Vec::new(alloc))
        }
    }
}

// Those that are no declarations.
fn own_attributes<'a>(alloc: Global, attributes: &'a [Written]) -> Result<Vec<&'a Written>, Memory>
    ensures { IfOk result (λ list. map (λ a. written_of a.now) list.items ≡ filter (λ a. not (is_declaration a)) (map written_of attributes.now)) }
{
    let mut list = Vec::new(alloc);
    for attribute in attributes {
        if !is_declaration(attribute.name.as_str()) {
            list.push(attribute)?;
        }
    }
    Ok(list)
}

/// Adds to the scope what an element declares.
pub fn enter(alloc: Global, scope: &mut Scope, content: &Content) -> Result<(), Memory>
    ensures { OnOk result (scope.new ≡ within (content_of content.now) scope.old) }
{
    match content {
        Content::Element { attributes, .. } => declare_all(alloc, scope, attributes.as_slice()),
        Content::Text { .. } | Content::Comment { .. } | Content::Instruction { .. } => Ok(()),
    }
}

fn declare_all(alloc: Global, scope: &mut Scope, attributes: &[Written]) -> Result<(), Memory>
    ensures { OnOk result (scope.new ≡ declared_all (map written_of attributes.now) scope.old) }
{
    for attribute in attributes {
        scope.declare(alloc, attribute.name.as_str(), attribute.value.as_str())?;
    }
    Ok(())
}

/// The name of a node of the tree with this content as it is written; empty where it has none.
pub fn content_written(alloc: Global, content: &Content) -> Result<Text, Memory>
    ensures { IfOk result (λ name. name ≡ written_by (Some (content_of content.now))) }
{
    match content {
        Content::Element { name, .. } => name.copy(alloc),
        Content::Instruction { target, .. } => target.copy(alloc),
        Content::Text { .. } | Content::Comment { .. } => Ok(Text::new(alloc)),
    }
}

/// The expanded name of a node of the tree with this content, which stands with its declarations in this
/// scope.
pub fn content_name(
    alloc: Global,
    content: &Content,
    scope: &Scope,
) -> Result<Option<Expanded>, Memory>
    ensures { IfOk result (λ name. name ≡ name_by (Some (content_of content.now)) scope.now) }
{
    match content {
        Content::Element { name, .. } => element_name(alloc, name, scope),
        Content::Instruction { target, .. } => Ok(Some(Expanded::new(
            Text::new(alloc),
            target.copy(alloc)?,
        ))),
        Content::Text { .. } | Content::Comment { .. } => Ok(None),
    }
}

fn element_name(alloc: Global, written: &Text, scope: &Scope) -> Result<Option<Expanded>, Memory>
    ensures { IfOk result (λ name. name ≡ option_and_then (spec.element_name scope.now) (qname_of written.now)) }
{
    match QName::read(written.as_str()) {
        None => Ok(None),
        Some(name) => match scope.element_name(alloc, &name)? {
            None => Ok(None),
            Some(name) => Ok(Some(sharing(alloc, name, written)?)),
        },
    }
}

// The same name. Where its local part is all of the written name, it is in the memory of that.
fn sharing(alloc: Global, name: Expanded, written: &Text) -> Result<Expanded, Memory>
    ensures { IfOk result (λ same. same ≡ name) }
{
    if name.local().same(written) {
        let uri = name.uri().copy(alloc)?;
        let local = written.copy(alloc)?;
        return Ok(Expanded::new(uri, local));
    }
    Ok(name)
}

/// The expanded name of an attribute of this written name in this scope.
pub fn attribute_name(
    alloc: Global,
    written: &str,
    scope: &Scope,
) -> Result<Option<Expanded>, Memory>
    ensures { IfOk result (λ name. name ≡ option_and_then (spec.attribute_name scope.now) (qname_of (chars written.now))) }
{
    match QName::read(written) {
        None => Ok(None),
        Some(name) => scope.attribute_name(alloc, &name),
    }
}
