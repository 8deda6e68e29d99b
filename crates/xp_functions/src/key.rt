// The function `key` (XSLT 1.0, section 12.2).
ghost use Rattle.std.specs.Prelude.{◌≡◌, ℕ, [], map};
ghost use Rattle.spec_document.specs.declared.axis.Axis.TheVariants as axis;
ghost use Rattle.spec_meaning.specs.Program.{State, Supply, then};
ghost use Rattle.spec_meaning.specs.Convert.{text_at, to_text};
ghost use Rattle.spec_meaning.specs.Call.{arranged, key_of, keyed, nodes_of_key, nodes_of_keys, nodes_or_refused};
ghost use Rattle.xt_tree.specs.ValueView.{value_of};
ghost use Rattle.spec_node.specs.declared.node_ref.NodeRef.{NodeRef};
ghost use Rattle.xt_questions.specs.View.{answer_of, context_of};
ghost use Rattle.xt_questions.specs.Runs.{Runs, items};

use crate::argument::take_first;
use crate::name::name_meant;
use std::alloc::Global;
use xp_values::to_text;
use xt_names::{Expanded, copy_name};
use xt_questions::{Answer, Context, EvalFault, Focus, Question, World, ask_order, ask_text};
use xt_text::Text;
use xt_tree::{NodeRef, Value};

/// The nodes that have the second argument in the keys of the name that the first one is; of a node-set, those
/// that have the string-value of one of its nodes.
pub(crate) fn key_of<W: World>(
    alloc: Global,
    arguments: Vec<Value>,
    focus: Focus,
    context: &Context,
    world: &mut W,
) -> Result<Value, EvalFault>
    ensures runs { (supply : Supply NodeRef) → (depth : ℕ) → Runs value_of supply depth (key_of (map value_of arguments.items) (context_of focus context.now)) (W.state world.old) (W.state world.new) result }
    ensures name { W.name world.new ≡ W.name world.old }
{
    let _ = focus;
    let mut rest = arguments;
    let first = take_first(alloc, &mut rest);
    let text = to_text(alloc, first, world)?;
    let name = name_meant(alloc, &context.scope, text.as_str())?;
    let second = take_first(alloc, &mut rest);
    let nodes = keyed(alloc, &name, second, world)?;
    Ok(Value::Nodes(nodes))
}

// The nodes that have this value in the keys of this name.
fn keyed<W: World>(
    alloc: Global,
    name: &Expanded,
    value: Value,
    world: &mut W,
) -> Result<Vec<NodeRef>, EvalFault>
    ensures runs { (supply : Supply NodeRef) → (depth : ℕ) → Runs items supply depth (keyed name.now (value_of value)) (W.state world.old) (W.state world.new) result }
    ensures name { W.name world.new ≡ W.name world.old }
{
    match value {
        Value::Nodes(nodes) => of_texts_of(alloc, name, nodes.as_slice(), world),
        Value::Number(number) => of_text_of(alloc, name, Value::Number(number), world),
        Value::Text(text) => of_text_of(alloc, name, Value::Text(text), world),
        Value::Boolean(is_true) => of_text_of(alloc, name, Value::Boolean(is_true), world),
        Value::Fragment(fragment) => of_text_of(alloc, name, Value::Fragment(fragment), world),
    }
}

// The nodes that have the string of this value in the keys of this name.
fn of_text_of<W: World>(
    alloc: Global,
    name: &Expanded,
    value: Value,
    world: &mut W,
) -> Result<Vec<NodeRef>, EvalFault>
    ensures runs { (supply : Supply NodeRef) → (depth : ℕ) → Runs items supply depth (then (to_text (value_of value)) (nodes_of_key name.now)) (W.state world.old) (W.state world.new) result }
    ensures name { W.name world.new ≡ W.name world.old }
{
    let text = to_text(alloc, value, world)?;
    nodes_of_key(alloc, name, text, world)
}

// The nodes that have the string-value of one of these in the keys of this name.
fn of_texts_of<W: World>(
    alloc: Global,
    name: &Expanded,
    nodes: &[NodeRef],
    world: &mut W,
) -> Result<Vec<NodeRef>, EvalFault>
    ensures runs { (supply : Supply NodeRef) → (depth : ℕ) → Runs items supply depth (then (nodes_of_keys name.now [] nodes.now) (arranged nodes.now axis.Child)) (W.state world.old) (W.state world.new) result }
    ensures name { W.name world.new ≡ W.name world.old }
{
    let found = nodes_of_keys(alloc, name, nodes, world)?;
    arranged(alloc, nodes, found, world)
}

// What was found from these nodes, in document order.
fn arranged<W: World>(
    alloc: Global,
    from: &[NodeRef],
    found: Vec<NodeRef>,
    world: &mut W,
) -> Result<Vec<NodeRef>, EvalFault>
    ensures runs { (supply : Supply NodeRef) → (depth : ℕ) → Runs items supply depth (arranged from.now axis.Child found.items) (W.state world.old) (W.state world.new) result }
    ensures name { W.name world.new ≡ W.name world.old }
{
    if from.len() < 2 {
        Ok(found)
    } else {
        ask_order(alloc, world, found)
    }
}

// The nodes of each of these string-values, one after another.
fn nodes_of_keys<W: World>(
    alloc: Global,
    name: &Expanded,
    nodes: &[NodeRef],
    world: &mut W,
) -> Result<Vec<NodeRef>, EvalFault>
    ensures runs { (supply : Supply NodeRef) → (depth : ℕ) → Runs items supply depth (nodes_of_keys name.now [] nodes.now) (W.state world.old) (W.state world.new) result }
    ensures name { W.name world.new ≡ W.name world.old }
{
    let mut found = Vec::new(alloc);
    for node in nodes {
        let more = nodes_at(alloc, name, *node, world)?;
        found.extend_from_slice(more.as_slice())?;
    }
    Ok(found)
}

// The nodes that have the string-value of this one in the keys of this name.
fn nodes_at<W: World>(
    alloc: Global,
    name: &Expanded,
    node: NodeRef,
    world: &mut W,
) -> Result<Vec<NodeRef>, EvalFault>
    ensures runs { (supply : Supply NodeRef) → (depth : ℕ) → Runs items supply depth (then (text_at node) (nodes_of_key name.now)) (W.state world.old) (W.state world.new) result }
    ensures name { W.name world.new ≡ W.name world.old }
{
    let text = ask_text(alloc, world, node)?;
    nodes_of_key(alloc, name, text, world)
}

// The nodes that have this text in the keys of this name.
fn nodes_of_key<W: World>(
    alloc: Global,
    name: &Expanded,
    text: Text,
    world: &mut W,
) -> Result<Vec<NodeRef>, EvalFault>
    ensures runs { (supply : Supply NodeRef) → (depth : ℕ) → Runs items supply depth (nodes_of_key name.now text) (W.state world.old) (W.state world.new) result }
    ensures name { W.name world.new ≡ W.name world.old }
{
    let name = copy_name(alloc, name)?;
    let question = Question::Key(name, text);
    let asked = world.ask(&question);
    drop(question);
    let answer = asked?;
    nodes_or_refusal(alloc, answer)
}

// The nodes of an answer, or the refusal that it is.
fn nodes_or_refusal(alloc: Global, answer: Answer) -> Result<Vec<NodeRef>, EvalFault>
    ensures { (supply : Supply NodeRef) → (depth : ℕ) → (s : State NodeRef) → Runs items supply depth (nodes_or_refused (answer_of answer)) s s result }
{
    match answer {
        Answer::Refused(why) => Err(EvalFault::Refused(why)),
        Answer::Nodes(nodes) => Ok(nodes),
        other => {
            drop(other);
            Ok(Vec::new(alloc))
        }
    }
}
