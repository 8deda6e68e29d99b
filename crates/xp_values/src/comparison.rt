// Comparisons (XPath 1.0, section 3.4).
ghost use Rattle.std.specs.Prelude.{◌≡◌, ℕ, [], map, ◌&&◌, ◌||◌};
ghost use Rattle.std.specs.List.{list_any};
ghost use Rattle.std.specs.Option.{option_map};
ghost use Rattle.spec_meaning.specs.Program.{Supply};
ghost use Rattle.spec_meaning.specs.Compare as plain;
ghost use Rattle.xt_tree.specs.ValueView.{value_of};
ghost use Rattle.spec_node.specs.declared.node_ref.NodeRef.{NodeRef};
ghost use Rattle.xt_questions.specs.Runs.{Runs, itself, items};
ghost use Rattle.xp_values.specs.OperandView.{operand_of};

use crate::operand::{Comparand, Operand, operands};
use crate::to_boolean;
use spec_expression::Operator;
use std::alloc::Global;
use xt_base::Num;
use xt_questions::{EvalFault, World};
use xt_text::Text;
use xt_tree::Value;

/// Whether two values compare: a node-set does where one of its nodes does. The nodes of the left operand are
/// gone through outside, and the search ends at the first two that compare. D01 or D03 where a string that
/// is compared as a number is one with a fraction or out of range. The operator is a comparison.
pub fn compare<W: World>(
    alloc: Global,
    operator: Operator,
    left: &Value,
    right: &Value,
    world: &mut W,
) -> Result<bool, EvalFault>
    ensures runs { (supply : Supply NodeRef) → (depth : ℕ) → Runs itself supply depth (plain.compared operator (value_of left.now) (value_of right.now)) (W.state world.old) (W.state world.new) result }
    ensures name { W.name world.new ≡ W.name world.old }
{
    if goes_by_booleans(operator, left, right) {
        let left = to_boolean(left);
        let right = to_boolean(right);
        return Ok(booleans_satisfy(operator, left, right));
    }
    let lefts = operands(alloc, left, is_boolean(right))?;
    let rights = operands(alloc, right, is_boolean(left))?;
    if goes_by_texts(operator, left, right) {
        some_pair::<Text, W>(alloc, operator, lefts.as_slice(), rights.as_slice(), world)
    } else {
        some_pair::<Num, W>(alloc, operator, lefts.as_slice(), rights.as_slice(), world)
    }
}

// `=` and `!=` compare booleans where one is a boolean.
fn goes_by_booleans(operator: Operator, left: &Value, right: &Value) -> bool
    ensures { result ≡ (plain.is_equality operator && (plain.is_boolean (value_of left.now) || plain.is_boolean (value_of right.now))) }
{
    is_equality(operator) && (is_boolean(left) || is_boolean(right))
}

// Without a boolean they compare texts unless one is a number.
fn goes_by_texts(operator: Operator, left: &Value, right: &Value) -> bool
    ensures { result ≡ plain.goes_by_texts operator (value_of left.now) (value_of right.now) }
{
    is_equality(operator) && !(is_number(left) || is_number(right))
}

fn is_equality(operator: Operator) -> bool
    ensures { result ≡ plain.is_equality operator }
{
    match operator {
        Operator::Equal => true,
        Operator::NotEqual => true,
        _ => false,
    }
}

fn is_boolean(value: &Value) -> bool
    ensures { result ≡ plain.is_boolean (value_of value.now) }
{
    match value {
        Value::Boolean(_) => true,
        _ => false,
    }
}

fn is_number(value: &Value) -> bool
    ensures { result ≡ plain.is_number (value_of value.now) }
{
    match value {
        Value::Number(_) => true,
        _ => false,
    }
}

fn booleans_satisfy(operator: Operator, left: bool, right: bool) -> bool
    ensures { result ≡ plain.booleans_satisfy operator left right }
{
    match operator {
        Operator::NotEqual => left != right,
        _ => left == right,
    }
}

// Whether some left operand and some right one compare. Each is read at most once, and none where one side is
// empty.
fn some_pair<C: Comparand, W: World>(
    alloc: Global,
    operator: Operator,
    lefts: &[Operand],
    rights: &[Operand],
    world: &mut W,
) -> Result<bool, EvalFault>
    ensures runs { (supply : Supply NodeRef) → (depth : ℕ) → Runs itself supply depth (plain.some_pair C.read (C.test operator) (map operand_of lefts.now) (map operand_of rights.now)) (W.state world.old) (W.state world.new) result }
    ensures name { W.name world.new ≡ W.name world.old }
{
    if lefts.is_empty() || rights.is_empty() {
        return Ok(false);
    }
    let first = C::read(alloc, &lefts[0], world)?;
    let found = searched(alloc, operator, &first, rights, world)?;
    match found {
        None => Ok(true),
        Some(keys) => any_left(alloc, operator, keys.as_slice(), &lefts[1..], world),
    }
}

// What the right operands are read as; none where one of them compares with the first left one.
fn searched<C: Comparand, W: World>(
    alloc: Global,
    operator: Operator,
    first: &C,
    rights: &[Operand],
    world: &mut W,
) -> Result<Option<Vec<C>>, EvalFault>
    ensures runs { (supply : Supply NodeRef) → (depth : ℕ) → Runs (option_map items) supply depth (plain.searched C.read (C.test operator first.now) [] (map operand_of rights.now)) (W.state world.old) (W.state world.new) result }
    ensures name { W.name world.new ≡ W.name world.old }
{
    let mut keys = Vec::new(alloc);
    for right in rights {
        let key = C::read(alloc, right, world)?;
        if C::passes(operator, first, &key) {
            return Ok(None);
        }
        keys.push(key)?;
    }
    Ok(Some(keys))
}

// Whether some left operand compares with one of the right ones.
fn any_left<C: Comparand, W: World>(
    alloc: Global,
    operator: Operator,
    keys: &[C],
    lefts: &[Operand],
    world: &mut W,
) -> Result<bool, EvalFault>
    ensures runs { (supply : Supply NodeRef) → (depth : ℕ) → Runs itself supply depth (plain.any_left C.read (C.test operator) keys.now (map operand_of lefts.now)) (W.state world.old) (W.state world.new) result }
    ensures name { W.name world.new ≡ W.name world.old }
{
    for left in lefts {
        let key = C::read(alloc, left, world)?;
        if passes_any(operator, &key, keys) {
            return Ok(true);
        }
    }
    Ok(false)
}

fn passes_any<C: Comparand>(operator: Operator, left: &C, keys: &[C]) -> bool
    ensures { result ≡ list_any (C.test operator left.now) keys.now }
{
    for key in keys {
        if C::passes(operator, left, key) {
            return true;
        }
    }
    false
}
