// The units of a stylesheet by the names of what they declare, so that none is searched for.
ghost use Rattle.std.specs.Prelude.{◌≡◌, None, Some, IfOk, OnOk, if◌then◌else◌};
ghost use Rattle.std.specs.Option.{option_map};
ghost use Rattle.spec_document.specs.Name.{same_name};
ghost use Rattle.spec_run.specs.World as definition;
ghost use Rattle.xt_syntax.specs.PartView.{place_of};
ghost use Rattle.xt_syntax.specs.SheetView.{declared_of};
ghost use Rattle.xt_world.specs.Numbered.{AreAsGiven, IsNaming};
ghost use Rattle.xt_world.specs.Turned.{numbers_in, units_of};
ghost use Rattle.xt_world.specs.Units.{place_in, plain_units};
ghost use Rattle.xt_world.specs.Indexed.{AreGlobals, AreTemplates, place_at, place_named};
ghost use Rattle.xt_world.specs.declared.key.NameKey.{NameKey};

use crate::key::NameKey;
use crate::numbers::{Numbers, numbers_of};
use indexmap::IndexMap;
use std::alloc::Global;
use std::rc::Rc;
use xt_base::Place;
use xt_names::Expanded;
use xt_syntax::{Declared, Unit};
use xt_text::Memory;

/// Units by the numbers of their places, with the place of the last of each name.
#[derive(Drop)]
pub(crate) struct Index<'a> {
    pub(crate) numbers: Numbers<'a>,
    templates: IndexMap<NameKey<'a>, &'a Place>,
    globals: IndexMap<NameKey<'a>, &'a Place>,
}

/// The index of these units, by these numbers if they serve, and else by their turns.
pub(crate) fn index_of<'a>(
    alloc: Global,
    units: &'a [Rc<Unit>],
    given: &[u64],
) -> Result<Index<'a>, Memory>
    ensures units { IfOk result (λ index. index.numbers.units.now ≡ units.now) }
    ensures naming { IfOk result (λ index. IsNaming (numbers_in index.numbers) (units_of index.numbers)) }
    ensures given { IfOk result (λ index. AreAsGiven given.now (numbers_in index.numbers) (units_of index.numbers)) }
    ensures templates { IfOk result AreTemplates }
    ensures globals { IfOk result AreGlobals }
{
    let numbers = numbers_of(alloc, units, given)?;
    let templates = templates_of(alloc, units)?;
    let globals = globals_of(alloc, units)?;
    Ok(Index {
        numbers,
        templates,
        globals,
    })
}

// The place of the last template of each name.
fn templates_of<'a>(
    alloc: Global,
    units: &'a [Rc<Unit>],
) -> Result<IndexMap<NameKey<'a>, &'a Place>, Memory>
    ensures { IfOk result (λ templates. (key : NameKey) → place_at templates.entries key ≡ definition.last_element (definition.is_template key.name.now) None (plain_units units.now)) }
{
    let mut templates = IndexMap::new(alloc);
    for unit in units {
        set_template(&mut templates, &unit.declared, &unit.site.place)?;
    }
    Ok(templates)
}

fn set_template<'a>(
    templates: &mut IndexMap<NameKey<'a>, &'a Place>,
    declared: &'a Declared,
    place: &'a Place,
) -> Result<(), Memory>
    ensures { OnOk result ((key : NameKey) → place_at templates.new.entries key ≡ (if definition.is_template key.name.now (declared_of declared.now) then Some (place_of place.now) else place_at templates.old.entries key)) }
{
    match declared {
        Declared::Template(template) => match &template.name {
            None => Ok(()),
            Some(name) => set_place(templates, name, place),
        },
        Declared::Global(_) => Ok(()),
        Declared::AttributeSet(_) => Ok(()),
        Declared::Key(_) => Ok(()),
    }
}

// The place of the last global of each name.
fn globals_of<'a>(
    alloc: Global,
    units: &'a [Rc<Unit>],
) -> Result<IndexMap<NameKey<'a>, &'a Place>, Memory>
    ensures { IfOk result (λ globals. (key : NameKey) → place_at globals.entries key ≡ definition.last_element (definition.is_global key.name.now) None (plain_units units.now)) }
{
    let mut globals = IndexMap::new(alloc);
    for unit in units {
        set_global(&mut globals, &unit.declared, &unit.site.place)?;
    }
    Ok(globals)
}

fn set_global<'a>(
    globals: &mut IndexMap<NameKey<'a>, &'a Place>,
    declared: &'a Declared,
    place: &'a Place,
) -> Result<(), Memory>
    ensures { OnOk result ((key : NameKey) → place_at globals.new.entries key ≡ (if definition.is_global key.name.now (declared_of declared.now) then Some (place_of place.now) else place_at globals.old.entries key)) }
{
    match declared {
        Declared::Global(global) => set_place(globals, &global.binding.name, place),
        Declared::Template(_) => Ok(()),
        Declared::AttributeSet(_) => Ok(()),
        Declared::Key(_) => Ok(()),
    }
}

// Sets the place of a name, in place of the one before.
fn set_place<'a>(
    places: &mut IndexMap<NameKey<'a>, &'a Place>,
    name: &'a Expanded,
    place: &'a Place,
) -> Result<(), Memory>
    ensures { OnOk result ((key : NameKey) → place_at places.new.entries key ≡ (if same_name name.now key.name.now then Some (place_of place.now) else place_at places.old.entries key)) }
{
    places.insert(NameKey { name }, place)?;
    Ok(())
}

impl<'a> Index<'a> {
    /// The place of the last template of this name.
    pub(crate) fn last_template(&self, name: &'a Expanded) -> Option<&'a Place>
        requires { AreTemplates self.now }
        ensures { option_map place_in result ≡ definition.last_element (definition.is_template name.now) None (units_of self.now.numbers) }
    {
        place_of_name(&self.templates, name)
    }

    /// The place of the last global of this name.
    pub(crate) fn last_global(&self, name: &'a Expanded) -> Option<&'a Place>
        requires { AreGlobals self.now }
        ensures { option_map place_in result ≡ definition.last_element (definition.is_global name.now) None (units_of self.now.numbers) }
    {
        place_of_name(&self.globals, name)
    }
}

fn place_of_name<'a>(
    places: &IndexMap<NameKey<'a>, &'a Place>,
    name: &'a Expanded,
) -> Option<&'a Place>
    ensures { option_map place_in result ≡ place_named places.now.entries name.now }
{
    match places.get(&NameKey { name }) {
        None => None,
        Some(place) => Some(*place),
    }
}
