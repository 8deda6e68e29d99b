// The values of variables.
ghost use Rattle.std.specs.Prelude.{◌≡◌, map, IfOk, Some};
ghost use Rattle.spec_meaning.specs.Context.{binding_of};
ghost use Rattle.spec_meaning.specs.Meaning.{bound_or_global};
ghost use Rattle.spec_meaning.specs.Program as program;
ghost use Rattle.spec_meaning.specs.Supplies.{at_hand, found};
ghost use Rattle.xt_tree.specs.ValueView.{value_of};
ghost use Rattle.spec_node.specs.declared.node_ref.NodeRef.{NodeRef};
ghost use Rattle.xt_questions.specs.View.{bindings_of, known_of, supplies_of};
ghost use Rattle.xt_questions.specs.Runs.{Runs};
ghost use Rattle.xp_eval.specs.View.{given_in};

use std::alloc::Global;
use xt_names::{Expanded, copy_name};
use xt_questions::{Context, EvalFault, Given, Known, Supplies, Wanted, World, copy_value};
use xt_text::Memory;
use xt_tree::Value;

/// The value of the first global of this name that was given for contents so deep.
fn find_global(
    alloc: Global,
    globals: &[Known],
    name: &Expanded,
    depth: u64,
) -> Result<Option<Value>, Memory>
    ensures { IfOk result (λ v. given_in v ≡ found name.now depth (map known_of globals.now)) }
{
    for known in globals {
        if known.name.same(name) && depth <= known.depth {
            return Ok(Some(copy_value(alloc, &known.value)?));
        }
    }
    Ok(None)
}

/// The value of a global, which the world notes as seen. `Wants` where it was not given.
fn need_global<W: World>(
    alloc: Global,
    name: &Expanded,
    depth: u64,
    supplies: &Supplies,
    world: &mut W,
) -> Result<Value, EvalFault>
    ensures runs { Runs value_of (at_hand (supplies_of supplies.now) depth) depth (program.Need (program.Global name.now) (λ g. program.Give (program.value_in g))) (W.state world.old) (W.state world.new) result }
    ensures name { W.name world.new ≡ W.name world.old }
{
    let wanted = copy_name(alloc, name)?;
    match find_global(alloc, supplies.globals.as_slice(), name, depth)? {
        None => Err(EvalFault::Wants(wanted)),
        Some(value) => see_global(alloc, wanted, depth, value, world),
    }
}

/// Has the world note the value that was given for a global.
fn see_global<W: World>(
    alloc: Global,
    name: Expanded,
    depth: u64,
    value: Value,
    world: &mut W,
) -> Result<Value, EvalFault>
    ensures runs { (supply : program.Supply NodeRef) → supply (program.Global name) ≡ Some (program.Valued (value_of value)) → Runs value_of supply depth (program.Need (program.Global name) (λ g. program.Give (program.value_in g))) (W.state world.old) (W.state world.new) result }
    ensures name { W.name world.new ≡ W.name world.old }
{
    let wanted = Wanted::Global(name);
    let given = Given::Valued(value);
    world.see(&wanted, depth, &given)?;
    Ok(given.into_value(alloc))
}

/// The value of a variable (XPath 1.0, section 3.1): of the innermost local one of this name, or of the global
/// one. `Wants` where that was not given.
pub(crate) fn variable<W: World>(
    alloc: Global,
    name: &Expanded,
    context: &Context,
    supplies: &Supplies,
    world: &mut W,
) -> Result<Value, EvalFault>
    ensures runs { Runs value_of (at_hand (supplies_of supplies.now) context.now.depth) context.now.depth (bound_or_global name.now (binding_of name.now (bindings_of context.now.bindings))) (W.state world.old) (W.state world.new) result }
    ensures name { W.name world.new ≡ W.name world.old }
{
    match context.bindings.look_up(alloc, name)? {
        Some(value) => Ok(value),
        None => need_global(alloc, name, context.depth, supplies, world),
    }
}
