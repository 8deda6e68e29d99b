// The arguments of calls.
ghost use Rattle.std.specs.Prelude.{◌≡◌, ℕ, [], ◌∷◌, drop, map, IfOk, IfErr};
ghost use Rattle.spec_meaning.specs.Program.{Supply};
ghost use Rattle.spec_meaning.specs.Call.{all_texts, argument, value_or_node};
ghost use Rattle.spec_meaning.specs.Convert.{to_number};
ghost use Rattle.xt_tree.specs.ValueView.{value_of};
ghost use Rattle.spec_node.specs.declared.node_ref.NodeRef.{NodeRef};
ghost use Rattle.xt_questions.specs.View.{context_of};
ghost use Rattle.xt_questions.specs.Runs.{Runs, items, itself};

use std::alloc::Global;
use xp_values::{to_number, to_text};
use xt_base::Num;
use xt_questions::{Context, EvalFault, Focus, World};
use xt_text::{Memory, Text};
use xt_tree::{NodeRef, Value};

/// The first argument, or the context node.
pub(crate) fn value_or_node(
    alloc: Global,
    arguments: Vec<Value>,
    focus: Focus,
    context: &Context,
) -> Result<Value, Memory>
    ensures { IfOk result (λ v. value_of v ≡ value_or_node (map value_of arguments.items) (context_of focus context.now)) }
{
    let _ = context;
    let mut arguments = arguments;
    if arguments.as_slice().is_empty() {
        let nodes = only(alloc, focus.node)?;
        return Ok(Value::Nodes(nodes));
    }
    Ok(arguments.remove(0))
}

/// The node alone.
pub(crate) fn only(alloc: Global, node: NodeRef) -> Result<Vec<NodeRef>, Memory>
    ensures { IfOk result (λ nodes. nodes.items ≡ node ∷ []) }
{
    let mut nodes = Vec::new(alloc);
    nodes.push(node)?;
    Ok(nodes)
}

/// Takes out the first argument; where there is none it is the empty text. Takes no memory.
pub(crate) fn take_first(alloc: Global, arguments: &mut Vec<Value>) -> Value
    ensures value { value_of result ≡ argument (map value_of arguments.old.items) 0 }
    ensures rest { arguments.new.items ≡ drop 1 arguments.old.items }
{
    if arguments.as_slice().is_empty() {
        return Value::Text(Text::new(alloc));
    }
    arguments.remove(0)
}

/// The number of a value, which is let go.
pub(crate) fn number_of<W: World>(
    alloc: Global,
    value: Value,
    world: &mut W,
) -> Result<Num, EvalFault>
    ensures runs { (supply : Supply NodeRef) → (depth : ℕ) → Runs itself supply depth (to_number (value_of value)) (W.state world.old) (W.state world.new) result }
    ensures name { W.name world.new ≡ W.name world.old }
{
    let number = to_number(alloc, &value, world);
    drop(value);
    number
}

/// All arguments as texts.
pub(crate) fn all_texts<W: World>(
    alloc: Global,
    arguments: Vec<Value>,
    world: &mut W,
) -> Result<Vec<Text>, EvalFault>
    ensures runs { (supply : Supply NodeRef) → (depth : ℕ) → Runs items supply depth (all_texts [] (map value_of arguments.items)) (W.state world.old) (W.state world.new) result }
    ensures name { W.name world.new ≡ W.name world.old }
{
    let mut texts = Vec::new(alloc);
    for value in arguments {
        let text = to_text(alloc, value, world)?;
        texts.push(text)?;
    }
    Ok(texts)
}
