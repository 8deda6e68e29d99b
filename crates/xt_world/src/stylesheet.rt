// A stylesheet that can be run.
ghost use Rattle.std.specs.Prelude.{◌≡◌, ℕ, ◌++◌, ◌∷◌, List, map, reverse, IfOk, OnOk};
ghost use Rattle.spec_stylesheet.specs.Place.{Place};
ghost use Rattle.spec_stylesheet.specs.Sheet as spec;
ghost use Rattle.xt_syntax.specs.SheetView.{sheet_of, unit_of};
ghost use Rattle.xt_questions.specs.View.{resolved_of};
ghost use Rattle.xt_engine.specs.View.{named_of};
ghost use Rattle.xt_world.specs.Alike.{unit_told};
ghost use Rattle.xt_world.specs.Answering.{AnswersGiven};
ghost use Rattle.xt_world.specs.Indexed.{AreGlobals, AreNamed, AreTemplates};
ghost use Rattle.xt_world.specs.Numbered.{IsNaming};
ghost use Rattle.xt_world.specs.PartsView.{AreParts};
ghost use Rattle.xt_world.specs.Turned.{numbers_in, units_of};
ghost use Rattle.xt_world.specs.Units.{called_among, global_before, globals_among, plain_aliases, plain_units, resolved_among};
ghost use Rattle.xt_world.specs.View.{unit_at_turn, unit_held};

use crate::index::{Index, index_of};
use crate::key::NameKey;
use crate::numbers::{Numbers, turns_of};
use crate::resolve::{element_called, name_of, resolve};
use indexmap::{IndexMap, IndexSet};
use std::alloc::Global;
use std::rc::Rc;
use xt_engine::NamedGlobal;
use xt_names::{Expanded, copy_name};
use xt_questions::ResolvedUnit;
use xt_syntax::{Alias, Declared, Rules, Sheet, Unit};
use xt_text::Memory;
use xt_tree::NodeRef;

/// A stylesheet whose units have what their names name.
#[derive(Drop)]
pub struct Stylesheet {
    /// The template rules, the one that counts for most first.
    pub rules: Rules,
    /// In the order of the stylesheet. They share its aliases.
    pub units: Vec<Rc<ResolvedUnit>>,
    /// What the element of each unit is called.
    pub elements: Vec<NodeRef>,
    /// The turn of the first unit whose element is called by each number.
    pub turns: IndexMap<u64, u64>,
    /// The globals that count, each once, in the order of the stylesheet.
    pub globals: Vec<NamedGlobal>,
}

impl Stylesheet {
    /// The stylesheet, of which the world of any source answers truly. The elements of its units are called by these
    /// numbers, one for each unit, if each place has one number and no two places have the same, and else by the turns
    /// of the units.
    pub fn new(alloc: Global, sheet: Sheet, numbers: Vec<u64>) -> Result<Stylesheet, Memory>
        ensures { IfOk result (λ s. AnswersGiven numbers.items s (sheet_of sheet)) }
    {
        let Sheet {
            units,
            rules,
            space_rules,
            method,
            aliases,
        } = sheet;
        drop(space_rules);
        drop(method);
        let aliases = Rc::new(alloc, aliases)?;
        let units = shared(alloc, units)?;
        let parts = indexed(alloc, &aliases, units.as_slice(), numbers.as_slice())?;
        Ok(Stylesheet {
            rules,
            units: parts.units,
            elements: parts.elements,
            turns: parts.turns,
            globals: parts.globals,
        })
    }

    /// The unit whose element is called so. Takes no memory.
    pub(crate) fn unit_at(&self, element: &NodeRef) -> Option<&Rc<ResolvedUnit>>
        ensures { unit_told result ≡ unit_held self.now element.now }
    {
        match self.turns.get(&element.node.number) {
            None => None,
            Some(turn) => self.unit_at_turn(element, *turn),
        }
    }

    // The unit of this turn, where its element is called so.
    fn unit_at_turn(&self, element: &NodeRef, turn: u64) -> Option<&Rc<ResolvedUnit>>
        ensures { unit_told result ≡ unit_at_turn self.now element.now turn }
    {
        let index = turn as usize;
        match (self.elements.get(index), self.units.get(index)) {
            (Some(name), Some(unit)) => { if name == element { Some(unit) } else { None } }
            _ => None,
        }
    }
}

/// The units, shared.
fn shared(alloc: Global, units: Vec<Unit>) -> Result<Vec<Rc<Unit>>, Memory>
    ensures { IfOk result (λ list. plain_units list.items ≡ map unit_of units.items) }
{
    let mut list = Vec::new(alloc);
    for unit in units {
        list.push(Rc::new(alloc, unit)?)?;
    }
    Ok(list)
}

// What is made of the units.
#[derive(Drop)]
struct Parts {
    units: Vec<Rc<ResolvedUnit>>,
    elements: Vec<NodeRef>,
    turns: IndexMap<u64, u64>,
    globals: Vec<NamedGlobal>,
}

// What is made of these units, by an index of them.
fn indexed(
    alloc: Global,
    aliases: &Rc<Vec<Alias>>,
    units: &[Rc<Unit>],
    given: &[u64],
) -> Result<Parts, Memory>
    ensures { IfOk result (λ parts. AreParts given.now (plain_aliases aliases.now) (plain_units units.now) parts) }
{
    let index = index_of(alloc, units, given)?;
    let elements = elements(alloc, &index.numbers)?;
    let turns = turns_of(alloc, &index.numbers)?;
    let globals = globals(alloc, &index.numbers)?;
    let units = resolved(alloc, aliases, &index)?;
    Ok(Parts {
        units,
        elements,
        turns,
        globals,
    })
}

/// What the elements of the units are called.
fn elements(alloc: Global, numbers: &Numbers) -> Result<Vec<NodeRef>, Memory>
    ensures { IfOk result (λ list. list.items ≡ called_among (numbers_in numbers.now) (units_of numbers.now)) }
{
    let mut elements = Vec::new(alloc);
    for unit in numbers.units {
        elements.push(element_called(numbers, &unit.site.place))?;
    }
    Ok(elements)
}

/// The globals that count. Where a module is imported twice its units stand there twice, so that a global counts
/// where it stands last.
fn globals(alloc: Global, numbers: &Numbers) -> Result<Vec<NamedGlobal>, Memory>
    ensures { IfOk result (λ list. map named_of list.items ≡ globals_among (numbers_in numbers.now) (units_of numbers.now)) }
{
    let mut later = IndexSet::new(alloc);
    let mut list = Vec::new(alloc);
    let mut left = numbers.units;
    while let Some((unit, before)) = left.split_last() {
        add_global(alloc, numbers, unit, &mut later, &mut list)?;
        left = before;
    }
    list.reverse();
    Ok(list)
}

// Adds the unit, if it is a global and none of the later ones is one of its name. The last comes first.
fn add_global<'a>(
    alloc: Global,
    numbers: &Numbers<'a>,
    unit: &'a Unit,
    later: &mut IndexSet<NameKey<'a>>,
    list: &mut Vec<NamedGlobal>,
) -> Result<(), Memory>
    ensures later { OnOk result ((rest : List spec.Unit) → AreNamed later.old.keys rest → AreNamed later.new.keys (unit_of unit.now ∷ rest)) }
    ensures list { OnOk result ((rest : List spec.Unit) → AreNamed later.old.keys rest → map named_of (reverse list.new.items) ≡ global_before (numbers_in numbers.now) (unit_of unit.now) rest ++ map named_of (reverse list.old.items)) }
{
    match &unit.declared {
        Declared::Global(global) => {
            let name = name_of(global);
            let is_last = later.insert(NameKey { name })?;
            if !is_last {
                return Ok(());
            }
            let element = element_called(numbers, &unit.site.place);
            add_named(alloc, name, element, list)
        }
        Declared::Template(_) => Ok(()),
        Declared::AttributeSet(_) => Ok(()),
        Declared::Key(_) => Ok(()),
    }
}

fn add_named(
    alloc: Global,
    name: &Expanded,
    element: NodeRef,
    list: &mut Vec<NamedGlobal>,
) -> Result<(), Memory>
    ensures { OnOk result (map named_of (reverse list.new.items) ≡ (record { name = name.now; element = element }) ∷ map named_of (reverse list.old.items)) }
{
    let name = copy_name(alloc, name)?;
    list.push(NamedGlobal { name, element })?;
    Ok(())
}

/// The units with what their names name. All of them share the aliases.
fn resolved(
    alloc: Global,
    aliases: &Rc<Vec<Alias>>,
    index: &Index,
) -> Result<Vec<Rc<ResolvedUnit>>, Memory>
    requires templates { AreTemplates index.now }
    requires globals { AreGlobals index.now }
    ensures { IfOk result (λ list. map (λ r. resolved_of r.value) list.items ≡ resolved_among (numbers_in index.now.numbers) (plain_aliases aliases.now) (units_of index.now.numbers) (units_of index.now.numbers)) }
{
    let mut list = Vec::new(alloc);
    for unit in index.numbers.units {
        list.push(resolve(alloc, aliases, index, unit)?)?;
    }
    Ok(list)
}
