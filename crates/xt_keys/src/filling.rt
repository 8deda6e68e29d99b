// The values of each of some nodes, found key by key.
ghost use Rattle.std.specs.Prelude.{◌≡◌, ◌++◌, [], length, IfOk, OnOk};
ghost use Rattle.spec_meaning.specs.Program.{Give, then as and_then};
ghost use Rattle.spec_meaning.specs.Supplies.{at_hand};
ghost use Rattle.spec_transform.specs.Key as definition;
ghost use Rattle.spec_node.specs.Naming.{same_ref};
ghost use Rattle.xt_syntax.specs.SheetView.{unit_of};
ghost use Rattle.xt_questions.specs.Runs.{Runs};
ghost use Rattle.xt_questions.specs.View.{supplies_of};
ghost use Rattle.xt_keys.specs.View.{AreNodesApart, Fills, all_texts, key_at, texts_in};
ghost use Rattle.xt_match.specs.Context.{units_in};

use crate::values::values_at;
use std::alloc::Global;
use std::rc::Rc;
use xt_names::Expanded;
use xt_questions::{EvalFault, Evaluate, ResolvedUnit, Supplies};
use xt_syntax::{Declared, Key, Site, Unit};
use xt_text::{Memory, Text};
use xt_tree::NodeRef;

// Adds these texts.
fn add_all(list: &mut Vec<Text>, mut texts: Vec<Text>) -> Result<(), Memory>
    ensures { OnOk result (list.new.items ≡ list.old.items ++ texts.items) }
{
    list.append(&mut texts)?;
    Ok(())
}

// Adds to what was found for each of these nodes its values in the key whose element is this site.
fn fill<W: Evaluate>(
    alloc: Global,
    site: &Site,
    key: &Key,
    nodes: &[NodeRef],
    found: &mut Vec<Vec<Text>>,
    supplies: &Supplies,
    world: &mut W,
) -> Result<(), EvalFault>
    requires apart { AreNodesApart nodes.now }
    requires each { length found.old.items ≡ length nodes.now }
    ensures each { length found.new.items ≡ length nodes.now }
    ensures runs { Fills (at_hand (supplies_of supplies.now) 0) (definition.indexed_by same_ref (key_at site.now key.now) nodes.now) nodes.now (texts_in found.old) (texts_in found.new) (W.state world.old) (W.state world.new) result }
    ensures name { W.name world.new ≡ W.name world.old }
{
    for i in 0..nodes.len() {
        let texts = values_at(alloc, site, key, nodes[i], supplies, world)?;
        add_all(&mut found[i], texts)?;
    }
    Ok(())
}

// The same for a unit, if it is a key of this name.
fn fill_by<W: Evaluate>(
    alloc: Global,
    unit: &Unit,
    name: &Expanded,
    nodes: &[NodeRef],
    found: &mut Vec<Vec<Text>>,
    supplies: &Supplies,
    world: &mut W,
) -> Result<(), EvalFault>
    requires apart { AreNodesApart nodes.now }
    requires each { length found.old.items ≡ length nodes.now }
    ensures each { length found.new.items ≡ length nodes.now }
    ensures runs { Fills (at_hand (supplies_of supplies.now) 0) (definition.indexed same_ref (definition.key_in name.now (unit_of unit.now) (unit_of unit.now).declared) nodes.now) nodes.now (texts_in found.old) (texts_in found.new) (W.state world.old) (W.state world.new) result }
    ensures name { W.name world.new ≡ W.name world.old }
{
    match &unit.declared {
        Declared::Key(key) => {
            if key.name.same(name) {
                fill(alloc, &unit.site, key, nodes, found, supplies, world)
            } else {
                Ok(())
            }
        }
        Declared::Template(_) => Ok(()),
        Declared::Global(_) => Ok(()),
        Declared::AttributeSet(_) => Ok(()),
    }
}

// A list without a text for each of these nodes.
fn empty_lists(alloc: Global, nodes: &[NodeRef]) -> Result<Vec<Vec<Text>>, Memory>
    ensures each { IfOk result (λ lists. length lists.items ≡ length nodes.now) }
    ensures empty { IfOk result (λ lists. texts_in lists ≡ all_texts nodes.now []) }
{
    let mut lists = Vec::with_capacity(alloc, nodes.len())?;
    for _node in nodes {
        lists.push(Vec::new(alloc))?;
    }
    Ok(lists)
}

/// For each of these nodes its values in the keys of this name.
pub(crate) fn all_values<W: Evaluate>(
    alloc: Global,
    units: &[Rc<ResolvedUnit>],
    name: &Expanded,
    nodes: &[NodeRef],
    supplies: &Supplies,
    world: &mut W,
) -> Result<Vec<Vec<Text>>, EvalFault>
    requires { AreNodesApart nodes.now }
    ensures each { IfOk result (λ found. length found.items ≡ length nodes.now) }
    ensures runs { Runs texts_in (at_hand (supplies_of supplies.now) 0) 0 (and_then (definition.indexed same_ref (definition.keys_named name.now (units_in units.now)) nodes.now []) (λ entries. Give (all_texts nodes.now entries))) (W.state world.old) (W.state world.new) result }
    ensures name { W.name world.new ≡ W.name world.old }
{
    let mut found = empty_lists(alloc, nodes)?;
    for resolved in units {
        fill_by(
            alloc,
            &resolved.unit,
            name,
            nodes,
            &mut found,
            supplies,
            world,
        )?;
    }
    Ok(found)
}
