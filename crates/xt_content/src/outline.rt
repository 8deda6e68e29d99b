// What elements name, for the faults between them.
ghost use Rattle.std.specs.Prelude.{◌≡◌, ◌∷◌, [], IfOk, codes, map};
ghost use Rattle.std.specs.List.{flat_map};
ghost use Rattle.std.specs.Str.{chars};
ghost use Rattle.spec_compile.specs.Content as spec;
ghost use Rattle.spec_compile.specs.Value.{at, name_in};
ghost use Rattle.spec_compile.specs.Walk.{variables_in_template};
ghost use Rattle.xt_syntax.specs.PartView.{literal_attribute_of, literal_tag_of};
ghost use Rattle.xt_attributes.specs.View.{entries_in};
ghost use Rattle.xt_content.specs.View.{uses_in};

use crate::value::or_nowhere;
use spec_structure::XsltElement;
use std::alloc::Global;
use xt_attributes::{Entries, add_template_variables};
use xt_names::{Expanded, copy_name};
use xt_syntax::{LiteralAttribute, LiteralTag, Site};
use xt_text::Memory;

/// What an element names by its attributes.
#[derive(Drop)]
pub struct Uses {
    /// Variables in its expressions, patterns and value templates.
    pub variables: Vec<Expanded>,
    /// The template that it calls.
    pub templates: Vec<Expanded>,
    /// Its attribute sets.
    pub sets: Vec<Expanded>,
}

/// Elements that are siblings, in their order. Parts that have no effect at run time are among them.
#[cycle(outline)]
#[derive(Drop)]
pub struct Outline {
    pub elements: Vec<Outlined>,
}

/// An element in its place: what it names, and the variable that it binds for its following siblings and what is
/// below them.
#[cycle(outline)]
#[derive(Drop)]
pub struct Outlined {
    pub site: Site,
    pub uses: Uses,
    pub binds: Option<Expanded>,
    pub below: Outline,
}

// ---- Names

fn copy_names(alloc: Global, names: &[Expanded]) -> Result<Vec<Expanded>, Memory>
    ensures { IfOk result (λ list. list.items ≡ names.now) }
{
    let mut list = Vec::new(alloc);
    for name in names {
        list.push(copy_name(alloc, name)?)?;
    }
    Ok(list)
}

// The name that the attribute of this name is, left where it is.
fn copied_name(alloc: Global, entries: &Entries, name: &str) -> Result<Option<Expanded>, Memory>
    ensures { IfOk result (λ n. n ≡ at name_in (chars name.now) (entries_in entries.now)) }
{
    match entries.get(name) {
        None => Ok(None),
        Some(value) => match value.as_name() {
            None => Ok(None),
            Some(name) => Ok(Some(copy_name(alloc, name)?)),
        },
    }
}

// The names that the attribute of this name is, left where they are.
fn copied_names(alloc: Global, entries: &Entries, name: &str) -> Result<Vec<Expanded>, Memory>
    ensures { IfOk result (λ list. list.items ≡ spec.sets_at (chars name.now) (entries_in entries.now)) }
{
    match entries.get(name) {
        None => Ok(Vec::new(alloc)),
        Some(value) => match value.as_names() {
            None => Ok(Vec::new(alloc)),
            Some(names) => copy_names(alloc, names),
        },
    }
}

// ---- What elements name

fn called(alloc: Global, entries: &Entries) -> Result<Vec<Expanded>, Memory>
    ensures { IfOk result (λ list. list.items ≡ spec.name_at (codes "name") (entries_in entries.now) ∷ []) }
{
    let name = copied_name(alloc, entries, "name")?;
    let mut list = Vec::new(alloc);
    list.push(or_nowhere(alloc, name))?;
    Ok(list)
}

fn templates_by(
    alloc: Global,
    element: XsltElement,
    entries: &Entries,
) -> Result<Vec<Expanded>, Memory>
    ensures { IfOk result (λ list. list.items ≡ spec.templates_by element (entries_in entries.now)) }
{
    match element {
        XsltElement::CallTemplate => called(alloc, entries),
        _ => Ok(Vec::new(alloc)),
    }
}

/// What an element of XSLT names by its attributes. Want of memory alone is an error.
pub fn uses_of(alloc: Global, element: XsltElement, entries: &Entries) -> Result<Uses, Memory>
    ensures { IfOk result (λ uses. uses_in uses ≡ spec.uses_of element (entries_in entries.now)) }
{
    let mut variables = Vec::new(alloc);
    entries.add_variables(alloc, &mut variables)?;
    let templates = templates_by(alloc, element, entries)?;
    let sets = copied_names(alloc, entries, "use-attribute-sets")?;
    Ok(Uses {
        variables,
        templates,
        sets,
    })
}

/// The variable that an element of XSLT binds.
pub(crate) fn bound_by(
    alloc: Global,
    element: XsltElement,
    entries: &Entries,
) -> Result<Option<Expanded>, Memory>
    ensures { IfOk result (λ name. name ≡ spec.bound_by element (entries_in entries.now)) }
{
    match element {
        XsltElement::Variable => copied_name(alloc, entries, "name"),
        XsltElement::Param => copied_name(alloc, entries, "name"),
        _ => Ok(None),
    }
}

fn variables_among(alloc: Global, attributes: &[LiteralAttribute]) -> Result<Vec<Expanded>, Memory>
    ensures { IfOk result (λ list. list.items ≡ flat_map (λ a. variables_in_template a.value) (map literal_attribute_of attributes.now)) }
{
    let mut variables = Vec::new(alloc);
    for attribute in attributes {
        add_template_variables(alloc, &attribute.value, &mut variables)?;
    }
    Ok(variables)
}

/// What a literal result element names by its attributes.
pub(crate) fn tag_uses(alloc: Global, tag: &LiteralTag) -> Result<Uses, Memory>
    ensures { IfOk result (λ uses. uses_in uses ≡ spec.tag_uses (literal_tag_of tag.now)) }
{
    let variables = variables_among(alloc, tag.attributes.as_slice())?;
    let sets = copy_names(alloc, tag.sets.as_slice())?;
    Ok(Uses {
        variables,
        templates: Vec::new(alloc),
        sets,
    })
}
