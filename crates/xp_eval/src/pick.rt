// Which nodes are kept, and in which order.
ghost use Rattle.std.specs.Prelude.{◌≡◌, ℕ, pos, [], ◌∷◌, ◌++◌, IfOk, OnOk, if◌then◌else◌};
ghost use Rattle.spec_document.specs.Axis as spec;
ghost use Rattle.spec_document.specs.declared.axis.Axis.TheVariants as axis;
ghost use Rattle.spec_expression.specs.declared.NodeType.TheVariants as type;
ghost use Rattle.spec_expression.specs.Number.{Whole, order_of};
ghost use Rattle.spec_expression.specs.Syntax as syntax;
ghost use Rattle.spec_meaning.specs.Call.{arranged};
ghost use Rattle.spec_meaning.specs.Compare.{is_equal};
ghost use Rattle.spec_meaning.specs.Convert.{to_number};
ghost use Rattle.spec_meaning.specs.Function.{function_of};
ghost use Rattle.spec_meaning.specs.Meaning.{keeps, last_of, signed};
ghost use Rattle.spec_meaning.specs.Program.{Supply, Give, Ask, then as and_then};
ghost use Rattle.spec_meaning.specs.Question.{Step, nodes_in};
ghost use Rattle.spec_meaning.specs.Value as plain;
ghost use Rattle.xt_tree.specs.ValueView.{value_of};
ghost use Rattle.spec_node.specs.declared.node_ref.NodeRef.{NodeRef};
ghost use Rattle.xt_questions.specs.Runs.{Runs, items};

use spec_document::Axis;
use std::alloc::Global;
use xp_values::{to_boolean, to_number};
use xt_base::Num;
use xt_questions::{EvalFault, World, ask_nodes, ask_order};
use xt_syntax::{NodeType, Test};
use xt_text::Memory;
use xt_tree::{NodeRef, Value};

/// The node alone.
pub(crate) fn only(alloc: Global, node: NodeRef) -> Result<Vec<NodeRef>, Memory>
    ensures { IfOk result (λ nodes. nodes.items ≡ node ∷ []) }
{
    let mut nodes = Vec::new(alloc);
    nodes.push(node)?;
    Ok(nodes)
}

/// Adds nodes behind others. Where there are no others they stay in their memory.
pub(crate) fn add(nodes: &mut Vec<NodeRef>, more: Vec<NodeRef>) -> Result<(), Memory>
    ensures { OnOk result (nodes.new.items ≡ nodes.old.items ++ more.items) }
{
    if nodes.is_empty() {
        *nodes = more;
        return Ok(());
    }
    nodes.extend_from_slice(more.as_slice())?;
    Ok(())
}

/// The last node alone, and none where there is none.
fn last(alloc: Global, nodes: &[NodeRef]) -> Result<Vec<NodeRef>, Memory>
    ensures { IfOk result (λ v. v.items ≡ last_of nodes.now) }
{
    if nodes.is_empty() {
        return Ok(Vec::new(alloc));
    }
    only(alloc, nodes[nodes.len() - 1])
}

/// The root of the document of a node (XPath 1.0, section 2).
pub(crate) fn root<W: World>(
    alloc: Global,
    node: NodeRef,
    world: &mut W,
) -> Result<Value, EvalFault>
    ensures runs { (supply : Supply NodeRef) → (depth : ℕ) → Runs value_of supply depth (Ask (Step node axis.AncestorOrSelf (syntax.OfType type.Node)) (λ a. Give (plain.Nodes (last_of (nodes_in a))))) (W.state world.old) (W.state world.new) result }
    ensures name { W.name world.new ≡ W.name world.old }
{
    let test = Test::OfType(NodeType::Node);
    let nodes = ask_nodes(alloc, world, node, Axis::AncestorOrSelf, test)?;
    let root = last(alloc, nodes.as_slice())?;
    Ok(Value::Nodes(root))
}

/// The number after so many signs.
fn signed(signs: u64, number: Num) -> Num
    ensures { result ≡ signed signs number }
{
    let mut value = number;
    for _ in 0..signs {
        value = value.neg();
    }
    value
}

/// The number of a value, after so many signs (XPath 1.0, section 3.5).
pub(crate) fn negate<W: World>(
    alloc: Global,
    signs: u64,
    value: &Value,
    world: &mut W,
) -> Result<Value, EvalFault>
    ensures runs { (supply : Supply NodeRef) → (depth : ℕ) → Runs value_of supply depth (and_then (to_number (value_of value.now)) (λ n. Give (plain.Number (signed signs n)))) (W.state world.old) (W.state world.new) result }
    ensures name { W.name world.new ≡ W.name world.old }
{
    let number = to_number(alloc, value, world)?;
    Ok(Value::Number(signed(signs, number)))
}

/// Whether the number is that of the position.
fn is_position(number: Num, position: u64) -> bool
    ensures { result ≡ is_equal (order_of number (Whole (pos position))) }
{
    match number.get() {
        Some(whole) => whole >= 0 && whole as u64 == position,
        None => false,
    }
}

/// Whether a predicate of this value keeps the node at the position (XPath 1.0, section 2.4).
fn keeps(value: &Value, position: u64) -> bool
    ensures { result ≡ keeps (value_of value.now) position }
{
    match value {
        Value::Number(number) => is_position(*number, position),
        _ => to_boolean(value),
    }
}

/// Adds the node at a position where a predicate of this value keeps it.
pub(crate) fn keep(
    kept: &mut Vec<NodeRef>,
    node: NodeRef,
    value: &Value,
    position: u64,
) -> Result<(), Memory>
    ensures { OnOk result (kept.new.items ≡ (if keeps (value_of value.now) position then kept.old.items ++ node ∷ [] else kept.old.items)) }
{
    if keeps(value, position) {
        kept.push(node)?;
    }
    Ok(())
}

/// Whether the nodes of the axis are counted in reverse document order.
fn is_reverse(axis: Axis) -> bool
    ensures { result ≡ spec.is_reverse axis }
{
    matches!(
        axis,
        Axis::Ancestor | Axis::AncestorOrSelf | Axis::Preceding | Axis::PrecedingSibling
    )
}

/// Nodes in the order of an axis, in document order, or the other way round.
fn in_axis_order(axis: Axis, mut nodes: Vec<NodeRef>) -> Vec<NodeRef>
    ensures { result.items ≡ spec.in_axis_order axis nodes.items }
{
    if is_reverse(axis) {
        nodes.reverse();
    }
    nodes
}

/// What was found from some nodes along an axis, in document order, each once. From one node it stands in the
/// order of the axis.
pub(crate) fn arrange<W: World>(
    alloc: Global,
    from: &[NodeRef],
    axis: Axis,
    found: Vec<NodeRef>,
    world: &mut W,
) -> Result<Vec<NodeRef>, EvalFault>
    ensures runs { (supply : Supply NodeRef) → (depth : ℕ) → Runs items supply depth (arranged from.now axis found.items) (W.state world.old) (W.state world.new) result }
    ensures name { W.name world.new ≡ W.name world.old }
{
    if from.is_empty() {
        return Ok(found);
    }
    if from.len() == 1 {
        return Ok(in_axis_order(axis, found));
    }
    ask_order(alloc, world, found)
}
