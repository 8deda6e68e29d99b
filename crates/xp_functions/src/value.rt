// Functions of one value (XPath 1.0, sections 4.1, 4.2, 4.3 and 4.4).
ghost use Rattle.std.specs.Prelude.{◌≡◌, ℕ};
ghost use Rattle.spec_meaning.specs.Value as values;
ghost use Rattle.spec_meaning.specs.Program.{Give, Supply, then};
ghost use Rattle.spec_meaning.specs.Convert as convert;
ghost use Rattle.spec_meaning.specs.Call.{of_value};
ghost use Rattle.xt_tree.specs.ValueView.{value_of};
ghost use Rattle.spec_node.specs.declared.node_ref.NodeRef.{NodeRef};
ghost use Rattle.xt_questions.specs.Runs.{Runs};

use crate::argument::number_of;
use spec_meaning::ValueFunction;
use std::alloc::Global;
use xp_values::{to_boolean, to_text};
use xt_questions::{EvalFault, World};
use xt_tree::Value;

/// What a function makes of one value.
pub(crate) fn of_value<W: World>(
    alloc: Global,
    function: ValueFunction,
    value: Value,
    world: &mut W,
) -> Result<Value, EvalFault>
    ensures runs { (supply : Supply NodeRef) → (depth : ℕ) → Runs value_of supply depth (of_value function (value_of value)) (W.state world.old) (W.state world.new) result }
    ensures name { W.name world.new ≡ W.name world.old }
{
    match function {
        ValueFunction::String => string(alloc, value, world),
        ValueFunction::Number => number(alloc, value, world),
        ValueFunction::Boolean => Ok(Value::Boolean(boolean(value))),
        ValueFunction::Not => Ok(Value::Boolean(!boolean(value))),
        ValueFunction::Rounded => number(alloc, value, world),
        ValueFunction::Id => {
            drop(value);
            Ok(Value::Nodes(Vec::new(alloc)))
        }
    }
}

// The string of a value, as a value.
fn string<W: World>(alloc: Global, value: Value, world: &mut W) -> Result<Value, EvalFault>
    ensures runs { (supply : Supply NodeRef) → (depth : ℕ) → Runs value_of supply depth (then (convert.to_text (value_of value)) (λ t. Give (values.Text t))) (W.state world.old) (W.state world.new) result }
    ensures name { W.name world.new ≡ W.name world.old }
{
    let text = to_text(alloc, value, world)?;
    Ok(Value::Text(text))
}

// The number of a value, as a value.
fn number<W: World>(alloc: Global, value: Value, world: &mut W) -> Result<Value, EvalFault>
    ensures runs { (supply : Supply NodeRef) → (depth : ℕ) → Runs value_of supply depth (then (convert.to_number (value_of value)) (λ n. Give (values.Number n))) (W.state world.old) (W.state world.new) result }
    ensures name { W.name world.new ≡ W.name world.old }
{
    let number = number_of(alloc, value, world)?;
    Ok(Value::Number(number))
}

fn boolean(value: Value) -> bool
    ensures { result ≡ convert.to_boolean (value_of value) }
{
    let is_true = to_boolean(&value);
    drop(value);
    is_true
}
