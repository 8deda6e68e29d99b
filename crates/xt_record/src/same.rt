// What values, rules and streams have in common.
ghost use Rattle.std.specs.Prelude.{◌≡◌, true, IfOk};
ghost use Rattle.std.specs.Bool.{Decides};
ghost use Rattle.std.specs.Option.{option_map};
ghost use Rattle.xt_tree.specs.StreamView.{stream_of, streams_of};
ghost use Rattle.xt_tree.specs.ValueView.{value_of};
ghost use Rattle.xt_questions.specs.View.{current_of};
ghost use Rattle.spec_meaning.specs.Stream.{holes};
ghost use Rattle.xt_record.specs.View.{AreWhole};

use std::alloc::Global;
use std::rc::Rc;
use xt_base::Num;
use xt_names::Expanded;
use xt_questions::{Answer, CurrentRule};
use xt_text::Memory;
use xt_tree::{Fragment, Items, NodeRef, Value};

/// Whether both are the same value. Only for fragments does it take memory.
pub fn same_value(alloc: Global, value: &Value, other: &Value) -> Result<bool, Memory>
    ensures { IfOk result (λ b. Decides b (value_of value.now ≡ value_of other.now)) }
{
    match (value, other) {
        (Value::Number(number), Value::Number(other)) => Ok(same_number(*number, *other)),
        (Value::Text(text), Value::Text(other)) => Ok(text.same(other)),
        (Value::Boolean(boolean), Value::Boolean(other)) => Ok(boolean == other),
        (Value::Nodes(nodes), Value::Nodes(others)) => {
            Ok(same_nodes(nodes.as_slice(), others.as_slice()))
        }
        (Value::Fragment(fragment), Value::Fragment(other)) => {
            same_fragment(alloc, fragment, other)
        }
        _ => Ok(false),
    }
}

/// Whether both are the same current template rule, or neither is one.
pub fn same_rule_if(rule: &Option<CurrentRule>, other: &Option<CurrentRule>) -> bool
    ensures { Decides result (option_map current_of rule.now ≡ option_map current_of other.now) }
{
    match (rule, other) {
        (None, None) => true,
        (Some(rule), Some(other)) => {
            same_name_if(&rule.mode, &other.mode)
                && rule.first == other.first
                && rule.last == other.last
        }
        _ => false,
    }
}

/// Whether both are the same name, or neither is one.
pub(crate) fn same_name_if(one: &Option<Expanded>, other: &Option<Expanded>) -> bool
    ensures { Decides result (one.now ≡ other.now) }
{
    match (one, other) {
        (None, None) => true,
        (Some(name), Some(other)) => name.same(other),
        _ => false,
    }
}

/// Where it says so, the streams are the same, one by one. It does not say so of streams that have holes, and of all others
/// that are the same.
pub fn same_streams(
    alloc: Global,
    parts: &[Rc<Items>],
    others: &[Rc<Items>],
) -> Result<bool, Memory>
    ensures same { IfOk result (λ b. b ≡ true → streams_of parts.now ≡ streams_of others.now) }
    ensures whole { IfOk result (λ b. AreWhole (streams_of parts.now) → streams_of parts.now ≡ streams_of others.now → b ≡ true) }
{
    if parts.len() != others.len() {
        return Ok(false);
    }
    for (index, part) in parts.iter().enumerate() {
        if !same_stream(alloc, part, &others[index])? {
            return Ok(false);
        }
    }
    Ok(true)
}

// Where it says so, both streams are the same.
fn same_stream(alloc: Global, stream: &Rc<Items>, other: &Rc<Items>) -> Result<bool, Memory>
    ensures same { IfOk result (λ b. b ≡ true → stream_of stream.now.value ≡ stream_of other.now.value) }
    ensures whole { IfOk result (λ b. holes (stream_of stream.now.value) ≡ 0 → stream_of stream.now.value ≡ stream_of other.now.value → b ≡ true) }
{
    if stream.has_hole() || other.has_hole() {
        return Ok(false);
    }
    let stream = Fragment::new(stream.clone()?);
    let other = Fragment::new(other.clone()?);
    same_fragment(alloc, &stream, &other)
}

// Whether both are the same fragment.
fn same_fragment(alloc: Global, fragment: &Fragment, other: &Fragment) -> Result<bool, Memory>
    ensures { IfOk result (λ b. Decides b (fragment.now ≡ other.now)) }
{
    let copied = Answer::Copied(Fragment::new(fragment.items().clone()?));
    let others = Answer::Copied(Fragment::new(other.items().clone()?));
    copied.same(alloc, &others)
}

// Whether both lists have the same nodes in the same order.
fn same_nodes(nodes: &[NodeRef], others: &[NodeRef]) -> bool
    ensures { Decides result (nodes.now ≡ others.now) }
{
    if nodes.len() != others.len() {
        return false;
    }
    for (index, node) in nodes.iter().enumerate() {
        if !same_node(*node, others[index]) {
            return false;
        }
    }
    true
}

/// Whether both name one node.
pub(crate) fn same_node(node: NodeRef, other: NodeRef) -> bool
    ensures { Decides result (node ≡ other) }
{
    node == other
}

// Whether both are the same number.
fn same_number(number: Num, other: Num) -> bool
    ensures { Decides result (number ≡ other) }
{
    number.get() == other.get()
}
