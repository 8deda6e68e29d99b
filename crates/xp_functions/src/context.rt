// Functions without arguments (XPath 1.0, sections 4.1 and 4.3; XSLT 1.0, section 12.4).
ghost use Rattle.std.specs.Prelude.{◌≡◌, ℕ, [], ◌∷◌, OnErr, OnOk};
ghost use Rattle.spec_meaning.specs.Value as value;
ghost use Rattle.spec_meaning.specs.Supplies.{at_hand};
ghost use Rattle.spec_meaning.specs.Program.{Counted, Give, Position, Saw, Size, State, Supply, noted};
ghost use Rattle.spec_meaning.specs.Call.{known_or_needed, of_context};
ghost use Rattle.xt_tree.specs.ValueView.{value_of};
ghost use Rattle.spec_node.specs.declared.node_ref.NodeRef.{NodeRef};
ghost use Rattle.xt_questions.specs.View.{context_of, supplies_of, wanted_of};
ghost use Rattle.xt_questions.specs.Runs.{Runs};

use crate::argument::only;
use spec_meaning::ContextFunction;
use std::alloc::Global;
use xp_values::count;
use xt_questions::{Context, EvalFault, Focus, Given, Supplies, Wanted, World};
use xt_text::Memory;
use xt_tree::{NodeRef, Value};

/// What a function without arguments gives.
pub(crate) fn of_context<W: World>(
    alloc: Global,
    function: ContextFunction,
    focus: Focus,
    context: &Context,
    supplies: &Supplies,
    world: &mut W,
) -> Result<Value, EvalFault>
    ensures runs { Runs value_of (at_hand (supplies_of supplies.now) context.now.depth) context.now.depth (of_context function (context_of focus context.now)) (W.state world.old) (W.state world.new) result }
    ensures name { W.name world.new ≡ W.name world.old }
{
    match function {
        ContextFunction::Last => size(focus.size, context.depth, supplies, world),
        ContextFunction::Position => position(focus.position, context.depth, supplies, world),
        ContextFunction::True => Ok(Value::Boolean(true)),
        ContextFunction::False => Ok(Value::Boolean(false)),
        ContextFunction::Current => current(alloc, context.current),
    }
}

// The current node alone.
fn current(alloc: Global, node: NodeRef) -> Result<Value, EvalFault>
    ensures { (supply : Supply NodeRef) → (depth : ℕ) → (s : State NodeRef) → Runs value_of supply depth (Give (value.Nodes (node ∷ []))) s s result }
{
    let nodes = only(alloc, node)?;
    Ok(Value::Nodes(nodes))
}

// The position, or that of the instantiation where it is not known.
fn position<W: World>(
    known: Option<u64>,
    depth: u64,
    supplies: &Supplies,
    world: &mut W,
) -> Result<Value, EvalFault>
    ensures runs { Runs value_of (at_hand (supplies_of supplies.now) depth) depth (known_or_needed Position known) (W.state world.old) (W.state world.new) result }
    ensures name { W.name world.new ≡ W.name world.old }
{
    match known {
        Some(position) => count(position),
        None => {
            note_counted(Wanted::Position, depth, supplies.position, world)?;
            count(supplies.position)
        }
    }
}

// The size, or that of the instantiation where it is not known.
fn size<W: World>(
    known: Option<u64>,
    depth: u64,
    supplies: &Supplies,
    world: &mut W,
) -> Result<Value, EvalFault>
    ensures runs { Runs value_of (at_hand (supplies_of supplies.now) depth) depth (known_or_needed Size known) (W.state world.old) (W.state world.new) result }
    ensures name { W.name world.new ≡ W.name world.old }
{
    match known {
        Some(size) => count(size),
        None => {
            note_counted(Wanted::Size, depth, supplies.size, world)?;
            count(supplies.size)
        }
    }
}

// Notes that a number was needed of the run, and what was given.
fn note_counted<W: World>(
    wanted: Wanted,
    depth: u64,
    number: u64,
    world: &mut W,
) -> Result<(), Memory>
    ensures seen { OnOk result (W.state world.new ≡ noted (Saw (wanted_of wanted) depth (Counted number)) (W.state world.old)) }
    ensures err { OnErr result ((W.state world.new).truth ≡ (W.state world.old).truth) }
    ensures name { W.name world.new ≡ W.name world.old }
{
    let given = Given::Counted(number);
    let seen = world.see(&wanted, depth, &given);
    drop(given);
    drop(wanted);
    seen
}
