// What functions make of their arguments.
ghost use Rattle.std.specs.Prelude.{◌≡◌, ℕ, [], map};
ghost use Rattle.spec_meaning.specs.Program.{Give, Supply, then};
ghost use Rattle.spec_meaning.specs.Supplies.{at_hand};
ghost use Rattle.spec_meaning.specs.Convert as convert;
ghost use Rattle.spec_meaning.specs.Call as calls;
ghost use Rattle.spec_meaning.specs.Call.{called};
ghost use Rattle.xt_tree.specs.ValueView.{value_of};
ghost use Rattle.spec_node.specs.declared.node_ref.NodeRef.{NodeRef};
ghost use Rattle.xt_questions.specs.View.{context_of, supplies_of};
ghost use Rattle.xt_questions.specs.Runs.{Runs};

use crate::argument::{all_texts, value_or_node};
use crate::context::of_context;
use crate::key::key_of;
use crate::nodes::of_nodes;
use crate::substring::substring_of;
use crate::text::of_text;
use crate::texts::of_texts;
use crate::value::of_value;
use spec_expression::DynCode;
use spec_meaning::{Function, NodesFunction, TextFunction, TextsFunction, ValueFunction};
use std::alloc::Global;
use xp_values::{to_nodes, to_text};
use xt_questions::{Context, EvalFault, Focus, Refusal, Supplies, World};
use xt_tree::Value;

/// What the function makes of its arguments, which were evaluated; they are converted from left to right.
/// D01 to D03 where a number is none of those here, D04 where an argument is no node-set, D08 where a text
/// that stands for a name is none, or has an undeclared prefix. Without a function it is D08.
pub fn apply<W: World>(
    alloc: Global,
    function: Option<Function>,
    arguments: Vec<Value>,
    focus: Focus,
    context: &Context,
    supplies: &Supplies,
    world: &mut W,
) -> Result<Value, EvalFault>
    ensures runs { Runs value_of (at_hand (supplies_of supplies.now) context.now.depth) context.now.depth (called function (map value_of arguments.items) (context_of focus context.now)) (W.state world.old) (W.state world.new) result }
    ensures name { W.name world.new ≡ W.name world.old }
{
    match function {
        None => Err(EvalFault::Refused(Refusal::Here(DynCode::BadName))),
        Some(function) => applied(alloc, function, arguments, focus, context, supplies, world),
    }
}

// What a function makes of its arguments.
fn applied<W: World>(
    alloc: Global,
    function: Function,
    arguments: Vec<Value>,
    focus: Focus,
    context: &Context,
    supplies: &Supplies,
    world: &mut W,
) -> Result<Value, EvalFault>
    ensures runs { Runs value_of (at_hand (supplies_of supplies.now) context.now.depth) context.now.depth (calls.applied function (map value_of arguments.items) (context_of focus context.now)) (W.state world.old) (W.state world.new) result }
    ensures name { W.name world.new ≡ W.name world.old }
{
    match function {
        Function::OfContext(kind) => of_context(alloc, kind, focus, context, supplies, world),
        Function::OfNodes(kind) => call_of_nodes(alloc, kind, arguments, focus, context, world),
        Function::OfTexts(kind) => call_of_texts(alloc, kind, arguments, world),
        Function::OfText(kind) => call_of_text(alloc, kind, arguments, focus, context, world),
        Function::OfValue(kind) => call_of_value(alloc, kind, arguments, focus, context, world),
        Function::Substring => substring_of(alloc, arguments, world),
        Function::Key => key_of(alloc, arguments, focus, context, world),
    }
}

// A function of the node-set that is the argument, or of the context node.
fn call_of_nodes<W: World>(
    alloc: Global,
    function: NodesFunction,
    arguments: Vec<Value>,
    focus: Focus,
    context: &Context,
    world: &mut W,
) -> Result<Value, EvalFault>
    ensures runs { (supply : Supply NodeRef) → (depth : ℕ) → Runs value_of supply depth (then (convert.to_nodes (calls.value_or_node (map value_of arguments.items) (context_of focus context.now))) (calls.of_nodes function)) (W.state world.old) (W.state world.new) result }
    ensures name { W.name world.new ≡ W.name world.old }
{
    let value = value_or_node(alloc, arguments, focus, context)?;
    let nodes = to_nodes(value)?;
    of_nodes(alloc, function, nodes.as_slice(), world)
}

// A function of the texts that are the arguments.
fn call_of_texts<W: World>(
    alloc: Global,
    function: TextsFunction,
    arguments: Vec<Value>,
    world: &mut W,
) -> Result<Value, EvalFault>
    ensures runs { (supply : Supply NodeRef) → (depth : ℕ) → Runs value_of supply depth (then (calls.all_texts [] (map value_of arguments.items)) (λ ts. Give (calls.of_texts function ts))) (W.state world.old) (W.state world.new) result }
    ensures name { W.name world.new ≡ W.name world.old }
{
    let texts = all_texts(alloc, arguments, world)?;
    let value = of_texts(alloc, function, texts.as_slice())?;
    Ok(value)
}

// A function of the text that is the argument, or of the string-value of the context node.
fn call_of_text<W: World>(
    alloc: Global,
    function: TextFunction,
    arguments: Vec<Value>,
    focus: Focus,
    context: &Context,
    world: &mut W,
) -> Result<Value, EvalFault>
    ensures runs { (supply : Supply NodeRef) → (depth : ℕ) → Runs value_of supply depth (then (convert.to_text (calls.value_or_node (map value_of arguments.items) (context_of focus context.now))) (calls.of_text function (context_of focus context.now))) (W.state world.old) (W.state world.new) result }
    ensures name { W.name world.new ≡ W.name world.old }
{
    let value = value_or_node(alloc, arguments, focus, context)?;
    let text = to_text(alloc, value, world)?;
    of_text(alloc, function, &text, focus, context, world)
}

// A function of the argument, or of the context node.
fn call_of_value<W: World>(
    alloc: Global,
    function: ValueFunction,
    arguments: Vec<Value>,
    focus: Focus,
    context: &Context,
    world: &mut W,
) -> Result<Value, EvalFault>
    ensures runs { (supply : Supply NodeRef) → (depth : ℕ) → Runs value_of supply depth (calls.of_value function (calls.value_or_node (map value_of arguments.items) (context_of focus context.now))) (W.state world.old) (W.state world.new) result }
    ensures name { W.name world.new ≡ W.name world.old }
{
    let value = value_or_node(alloc, arguments, focus, context)?;
    of_value(alloc, function, value, world)
}
