// What the names that stand in a unit name, and which global of a name counts.
ghost use Rattle.std.specs.Prelude.{◌≡◌, ◌++◌, None, map, IfOk, OnOk};
ghost use Rattle.std.specs.Option.{option_map};
ghost use Rattle.spec_run.specs.World as definition;
ghost use Rattle.xt_syntax.specs.PartView.{place_of};
ghost use Rattle.xt_syntax.specs.SheetView.{declared_of, global_of, unit_of};
ghost use Rattle.xt_questions.specs.View.{template_of, sets_of, resolved_of};
ghost use Rattle.xt_world.specs.Indexed.{AreGlobals, AreTemplates};
ghost use Rattle.xt_world.specs.Numbered.{element_called};
ghost use Rattle.xt_world.specs.Turned.{numbers_in, units_of};
ghost use Rattle.xt_world.specs.Units.{elements_named, place_in, plain_aliases, resolved_by};

use crate::index::Index;
use crate::key::same_place;
use crate::naming::{Names, names_in};
use crate::numbers::Numbers;
use std::alloc::Global;
use std::rc::Rc;
use xt_base::Place;
use xt_names::{Expanded, copy_name};
use xt_questions::{NamedSets, NamedTemplate, ResolvedUnit};
use xt_syntax::{Alias, Declared, GlobalBinding, Unit};
use xt_text::Memory;
use xt_tree::{NodeId, NodeRef, Part};

/// What the element at this place is called: by the number of the place.
pub fn element_called<'a>(numbers: &Numbers<'a>, place: &'a Place) -> NodeRef
    ensures { result ≡ element_called (numbers_in numbers.now) (place_of place.now) }
{
    // Attributes are counted from 1, so that no node of a source is called so.
    NodeRef {
        node: NodeId {
            number: numbers.at(place),
        },
        part: Part::Attribute(0),
    }
}

fn is_set(name: &Expanded, declared: &Declared) -> bool
    ensures { result ≡ definition.is_set name.now (declared_of declared.now) }
{
    match declared {
        Declared::AttributeSet(set) => set.name.same(name),
        _ => false,
    }
}

// Adds the template of this name, where there is one.
fn add_template<'a>(
    alloc: Global,
    index: &Index<'a>,
    name: &'a Expanded,
    templates: &mut Vec<NamedTemplate>,
) -> Result<(), Memory>
    requires templates { AreTemplates index.now }
    ensures { OnOk result (map template_of templates.new.items ≡ map template_of templates.old.items ++ definition.template_by (element_called (numbers_in index.now.numbers)) name.now (definition.last_element (definition.is_template name.now) None (units_of index.now.numbers))) }
{
    match index.last_template(name) {
        None => Ok(()),
        Some(place) => {
            let name = copy_name(alloc, name)?;
            let element = element_called(&index.numbers, place);
            templates.push(NamedTemplate { name, element })?;
            Ok(())
        }
    }
}

/// The templates of these names, where such are there.
fn templates_called<'a>(
    alloc: Global,
    index: &Index<'a>,
    names: &'a [Expanded],
) -> Result<Vec<NamedTemplate>, Memory>
    requires templates { AreTemplates index.now }
    ensures { IfOk result (λ list. map template_of list.items ≡ definition.templates_called (element_called (numbers_in index.now.numbers)) (units_of index.now.numbers) names.now) }
{
    let mut templates = Vec::new(alloc);
    for name in names {
        add_template(alloc, index, name, &mut templates)?;
    }
    Ok(templates)
}

/// The elements of all attribute sets of this name, in the order of the units (XSLT 1.0, section 7.1.4).
fn sets_named(alloc: Global, numbers: &Numbers, name: &Expanded) -> Result<Vec<NodeRef>, Memory>
    ensures { IfOk result (λ list. list.items ≡ elements_named (numbers_in numbers.now) name.now (units_of numbers.now)) }
{
    let mut elements = Vec::new(alloc);
    for unit in numbers.units {
        if is_set(name, &unit.declared) {
            elements.push(element_called(numbers, &unit.site.place))?;
        }
    }
    Ok(elements)
}

/// All attribute sets of this name.
fn named_sets(alloc: Global, numbers: &Numbers, name: Expanded) -> Result<NamedSets, Memory>
    ensures { IfOk result (λ sets. sets_of sets ≡ definition.sets_of_name (element_called (numbers_in numbers.now)) (units_of numbers.now) name) }
{
    let elements = sets_named(alloc, numbers, &name)?;
    Ok(NamedSets { name, elements })
}

/// The attribute sets of these names.
fn sets_used(
    alloc: Global,
    numbers: &Numbers,
    names: Vec<Expanded>,
) -> Result<Vec<NamedSets>, Memory>
    ensures { IfOk result (λ list. map sets_of list.items ≡ definition.sets_used (element_called (numbers_in numbers.now)) (units_of numbers.now) names.items) }
{
    let mut sets = Vec::new(alloc);
    for name in names {
        let named = named_sets(alloc, numbers, name)?;
        sets.push(named)?;
    }
    Ok(sets)
}

// Whether the last of its name is the one that stands at this place.
fn is_last(place: &Place, last: Option<&Place>) -> bool
    ensures { result ≡ definition.is_element (place_of place.now) (option_map place_in last.entry) }
{
    match last {
        None => false,
        Some(other) => same_place(place, other),
    }
}

/// The name of a global.
pub fn name_of(global: &GlobalBinding) -> &Expanded
    ensures { result.now ≡ (global_of global.now).binding.name }
{
    &global.binding.name
}

/// Of a global, whether it is the one of its name that counts.
fn counts<'a>(index: &Index<'a>, unit: &'a Unit) -> bool
    requires { AreGlobals index.now }
    ensures { result ≡ definition.counts (units_of index.now.numbers) (unit_of unit.now) }
{
    match &unit.declared {
        Declared::Global(global) => {
            let last = index.last_global(name_of(global));
            is_last(&unit.site.place, last)
        }
        Declared::Template(_) => false,
        Declared::AttributeSet(_) => false,
        Declared::Key(_) => false,
    }
}

/// A unit with what its names name. The aliases are shared.
pub fn resolve(
    alloc: Global,
    aliases: &Rc<Vec<Alias>>,
    index: &Index,
    unit: &Rc<Unit>,
) -> Result<Rc<ResolvedUnit>, Memory>
    requires templates { AreTemplates index.now }
    requires globals { AreGlobals index.now }
    ensures { IfOk result (λ r. resolved_of r.value ≡ resolved_by (numbers_in index.now.numbers) (plain_aliases aliases.now) (units_of index.now.numbers) (unit_of unit.now.value)) }
{
    let Names { called, used } = names_in(alloc, &unit.declared)?;
    let templates = templates_called(alloc, index, called.as_slice())?;
    drop(called);
    let sets = sets_used(alloc, &index.numbers, used)?;
    let counts = counts(index, unit);
    let resolved = ResolvedUnit {
        unit: unit.clone()?,
        templates,
        sets,
        aliases: aliases.clone()?,
        counts,
    };
    Ok(Rc::new(alloc, resolved)?)
}
