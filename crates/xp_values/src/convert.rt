// Conversions of values (XPath 1.0, section 4).
ghost use Rattle.std.specs.Prelude.{◌≡◌, ℕ, pos, IfOk};
ghost use Rattle.spec_expression.specs.Number as plain;
ghost use Rattle.xt_base.specs.Fault.{Gives};
ghost use Rattle.xp_values.specs.View.{result_of};
ghost use Rattle.spec_meaning.specs.Program.{State, Supply};
ghost use Rattle.spec_meaning.specs.Convert as convert;
ghost use Rattle.xt_tree.specs.ValueView.{value_of};
ghost use Rattle.spec_node.specs.declared.node_ref.NodeRef.{NodeRef};
ghost use Rattle.xt_questions.specs.Runs.{Runs, itself, items};
ghost use Rattle.spec_expression.specs.declared.code.DynCode.TheVariants as code;
ghost use Rattle.xt_questions.specs.declared.fault.EvalFault.TheVariants as fault;
ghost use Rattle.xt_questions.specs.declared.fault.Refusal.TheVariants as refusal;

use crate::stream_text::text_of;
use spec_expression::DynCode;
use std::alloc::Global;
use xt_base::{GREATEST, Num, NumFault};
use xt_questions::{EvalFault, Refusal, World, ask_text};
use xt_text::{Memory, Text};
use xt_tree::{NodeRef, Value};

/// The number, or the refusal that stands in its place: D01, D02 or D03.
pub fn given(number: Result<Num, NumFault>) -> Result<Num, EvalFault>
    ensures { (supply : Supply NodeRef) → (depth : ℕ) → (s : State NodeRef) → Runs itself supply depth (convert.given (result_of number)) s s result }
{
    match number {
        Ok(number) => Ok(number),
        Err(fault) => Err(EvalFault::Refused(Refusal::Here(fault.code()))),
    }
}

/// A size or position as a value. D03 where it is over 9007199254740991.
pub fn count(number: u64) -> Result<Value, EvalFault>
    ensures { (supply : Supply NodeRef) → (depth : ℕ) → (s : State NodeRef) → Runs value_of supply depth (convert.counted number) s s result }
{
    let counted = given(whole(number))?;
    Ok(Value::Number(counted))
}

fn whole(number: u64) -> Result<Num, NumFault>
    ensures { Gives result (plain.whole (pos number)) }
{
    if number > GREATEST {
        return Err(NumFault::Wide);
    }
    Num::whole(number as i64)
}

/// The string of a value (section 4.2).
pub fn to_text<W: World>(alloc: Global, value: Value, world: &mut W) -> Result<Text, EvalFault>
    ensures runs { (supply : Supply NodeRef) → (depth : ℕ) → Runs itself supply depth (convert.to_text (value_of value)) (W.state world.old) (W.state world.new) result }
    ensures name { W.name world.new ≡ W.name world.old }
{
    match value {
        Value::Number(number) => Ok(number.text(alloc)?),
        Value::Text(text) => Ok(text),
        Value::Boolean(boolean) => Ok(text_of_boolean(alloc, boolean)?),
        Value::Nodes(nodes) => first_text(alloc, nodes.as_slice(), world),
        Value::Fragment(fragment) => Ok(text_of(alloc, &fragment)?),
    }
}

fn text_of_boolean(alloc: Global, boolean: bool) -> Result<Text, Memory>
    ensures { IfOk result (λ text. text ≡ convert.text_of_boolean boolean) }
{
    if boolean {
        Text::from_str(alloc, "true")
    } else {
        Text::from_str(alloc, "false")
    }
}

// The string-value of the first node, and the empty text without one.
fn first_text<W: World>(alloc: Global, nodes: &[NodeRef], world: &mut W) -> Result<Text, EvalFault>
    ensures runs { (supply : Supply NodeRef) → (depth : ℕ) → Runs itself supply depth (convert.first_text nodes.now) (W.state world.old) (W.state world.new) result }
    ensures name { W.name world.new ≡ W.name world.old }
{
    match nodes {
        [] => Ok(Text::new(alloc)),
        [node, ..] => ask_text(alloc, world, *node),
    }
}

/// The number of a value (section 4.4). D01 or D03 where the string is a number with a fraction or out of
/// range.
pub fn to_number<W: World>(alloc: Global, value: &Value, world: &mut W) -> Result<Num, EvalFault>
    ensures runs { (supply : Supply NodeRef) → (depth : ℕ) → Runs itself supply depth (convert.to_number (value_of value.now)) (W.state world.old) (W.state world.new) result }
    ensures name { W.name world.new ≡ W.name world.old }
{
    match value {
        Value::Number(number) => Ok(*number),
        Value::Text(text) => read(text),
        Value::Boolean(boolean) => Ok(number_of_boolean(*boolean)),
        Value::Nodes(nodes) => {
            let text = first_text(alloc, nodes.as_slice(), world)?;
            read(&text)
        }
        Value::Fragment(fragment) => {
            let text = text_of(alloc, fragment)?;
            read(&text)
        }
    }
}

/// The number that a text is (section 4.4), NaN where it is none. D01 or D03 where it has a fraction or is out
/// of range.
pub(crate) fn read(text: &Text) -> Result<Num, EvalFault>
    ensures { (supply : Supply NodeRef) → (depth : ℕ) → (s : State NodeRef) → Runs itself supply depth (convert.given (plain.number_of text.now)) s s result }
{
    given(Num::read(text.as_str()))
}

/// 1 for true and 0 for false.
pub(crate) fn number_of_boolean(boolean: bool) -> Num
    ensures { result ≡ convert.number_of_boolean boolean }
{
    match Num::whole(i64::from(boolean)) {
        Ok(number) => number,
        Err(_) => Num::nan(),
    }
}

/// The boolean of a value (section 4.3). Takes no memory.
pub fn to_boolean(value: &Value) -> bool
    ensures { result ≡ convert.to_boolean (value_of value.now) }
{
    match value {
        Value::Number(number) => match number.get() {
            Some(whole) => whole != 0,
            None => false,
        },
        Value::Text(text) => !text.is_empty(),
        Value::Boolean(boolean) => *boolean,
        Value::Nodes(nodes) => !nodes.as_slice().is_empty(),
        Value::Fragment(_) => true,
    }
}

/// The nodes of a value. D04 where it is no node-set (section 3.3); a fragment is none. Takes no memory.
pub fn to_nodes(value: Value) -> Result<Vec<NodeRef>, EvalFault>
    ensures { (supply : Supply NodeRef) → (depth : ℕ) → (s : State NodeRef) → Runs items supply depth (convert.to_nodes (value_of value)) s s result }
{
    match value {
        Value::Nodes(nodes) => Ok(nodes),
        Value::Number(_) => Err(no_node_set()),
        Value::Text(_) => Err(no_node_set()),
        Value::Boolean(_) => Err(no_node_set()),
        Value::Fragment(_) => Err(no_node_set()),
    }
}

fn no_node_set() -> EvalFault
    ensures { result ≡ fault.Refused (refusal.Here code.NoNodeSet) }
{
    EvalFault::Refused(Refusal::Here(DynCode::NoNodeSet))
}
