// What operators make of two values (XPath 1.0, sections 3.3 to 3.5).
ghost use Rattle.std.specs.Prelude.{◌≡◌, ◌≢◌, ℕ, ◌&&◌, ◌||◌};
ghost use Rattle.spec_expression.specs.declared.Operator.TheVariants as op;
ghost use Rattle.xt_base.specs.Fault.{Gives};
ghost use Rattle.spec_meaning.specs.Program.{Supply};
ghost use Rattle.spec_meaning.specs.Convert as convert;
ghost use Rattle.spec_meaning.specs.Operation as operation;
ghost use Rattle.xt_tree.specs.ValueView.{value_of};
ghost use Rattle.spec_node.specs.declared.node_ref.NodeRef.{NodeRef};
ghost use Rattle.xt_questions.specs.Runs.{Runs};
ghost use Rattle.xp_values.specs.View.{is_comparison};

use crate::{compare, given, to_boolean, to_nodes, to_number};
use spec_expression::Operator;
use std::alloc::Global;
use xt_base::{Num, NumFault};
use xt_questions::{EvalFault, World, ask_order};
use xt_tree::Value;

/// What an arithmetic operator makes of two numbers: `+`, `-`, `*`, `div` or `mod`.
pub fn compute(operator: Operator, left: Num, right: Num) -> Result<Num, NumFault>
    ensures { Gives result (operation.computed operator left right) }
{
    match operator {
        Operator::Subtract => left.sub(right),
        Operator::Multiply => left.mul(right),
        Operator::Divide => left.div(right),
        Operator::Modulo => Ok(left.rem(right)),
        _ => left.add(right),
    }
}

/// Whether the left operand of `and` or `or` decides, so that the right one is left alone. Takes no memory.
pub fn is_decided(operator: Operator, left: &Value) -> bool
    ensures { result ≡ operation.is_decided operator (value_of left.now) }
{
    match operator {
        Operator::Or => to_boolean(left),
        Operator::And => !to_boolean(left),
        _ => false,
    }
}

/// What an operator makes of two values that were evaluated. The left one is converted first.
pub fn combine<W: World>(
    alloc: Global,
    operator: Operator,
    left: Value,
    right: Value,
    world: &mut W,
) -> Result<Value, EvalFault>
    ensures runs { (supply : Supply NodeRef) → (depth : ℕ) → Runs value_of supply depth (operation.combined operator (value_of left) (value_of right)) (W.state world.old) (W.state world.new) result }
    ensures name { W.name world.new ≡ W.name world.old }
{
    match operator {
        Operator::Union => unite(alloc, left, right, world),
        _ => {
            let made = combine_lent(alloc, operator, &left, &right, world);
            drop(left);
            drop(right);
            made
        }
    }
}

// What an operator but `|` makes of two values, which only `|` takes apart.
fn combine_lent<W: World>(
    alloc: Global,
    operator: Operator,
    left: &Value,
    right: &Value,
    world: &mut W,
) -> Result<Value, EvalFault>
    ensures runs { operator ≢ op.Union → (supply : Supply NodeRef) → (depth : ℕ) → Runs value_of supply depth (operation.combined operator (value_of left.now) (value_of right.now)) (W.state world.old) (W.state world.new) result }
    ensures name { W.name world.new ≡ W.name world.old }
{
    match operator {
        Operator::Or => Ok(Value::Boolean(is_either(left, right))),
        Operator::And => Ok(Value::Boolean(are_both(left, right))),
        _ => {
            if is_comparison(operator) {
                comparison(alloc, operator, left, right, world)
            } else {
                arithmetic(alloc, operator, left, right, world)
            }
        }
    }
}

fn is_comparison(operator: Operator) -> bool
    ensures { result ≡ is_comparison operator }
{
    matches!(
        operator,
        Operator::Equal
            | Operator::NotEqual
            | Operator::Less
            | Operator::LessOrEqual
            | Operator::Greater
            | Operator::GreaterOrEqual
    )
}

fn is_either(left: &Value, right: &Value) -> bool
    ensures { result ≡ (convert.to_boolean (value_of left.now) || convert.to_boolean (value_of right.now)) }
{
    to_boolean(left) || to_boolean(right)
}

fn are_both(left: &Value, right: &Value) -> bool
    ensures { result ≡ (convert.to_boolean (value_of left.now) && convert.to_boolean (value_of right.now)) }
{
    to_boolean(left) && to_boolean(right)
}

// The nodes of both, in document order.
fn unite<W: World>(
    alloc: Global,
    left: Value,
    right: Value,
    world: &mut W,
) -> Result<Value, EvalFault>
    ensures runs { (supply : Supply NodeRef) → (depth : ℕ) → Runs value_of supply depth (operation.united (value_of left) (value_of right)) (W.state world.old) (W.state world.new) result }
    ensures name { W.name world.new ≡ W.name world.old }
{
    let mut nodes = match to_nodes(left) {
        Ok(nodes) => nodes,
        Err(fault) => {
            drop(right);
            return Err(fault);
        }
    };
    let more = to_nodes(right)?;
    nodes.extend_from_slice(more.as_slice())?;
    let ordered = ask_order(alloc, world, nodes)?;
    Ok(Value::Nodes(ordered))
}

fn comparison<W: World>(
    alloc: Global,
    operator: Operator,
    left: &Value,
    right: &Value,
    world: &mut W,
) -> Result<Value, EvalFault>
    ensures runs { (supply : Supply NodeRef) → (depth : ℕ) → Runs value_of supply depth (operation.comparison operator (value_of left.now) (value_of right.now)) (W.state world.old) (W.state world.new) result }
    ensures name { W.name world.new ≡ W.name world.old }
{
    let compares = compare(alloc, operator, left, right, world)?;
    Ok(Value::Boolean(compares))
}

fn arithmetic<W: World>(
    alloc: Global,
    operator: Operator,
    left: &Value,
    right: &Value,
    world: &mut W,
) -> Result<Value, EvalFault>
    ensures runs { (supply : Supply NodeRef) → (depth : ℕ) → Runs value_of supply depth (operation.arithmetic operator (value_of left.now) (value_of right.now)) (W.state world.old) (W.state world.new) result }
    ensures name { W.name world.new ≡ W.name world.old }
{
    let first = to_number(alloc, left, world)?;
    let second = to_number(alloc, right, world)?;
    let number = given(compute(operator, first, second))?;
    Ok(Value::Number(number))
}
