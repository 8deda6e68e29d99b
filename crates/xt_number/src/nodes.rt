// Which nodes may be counted, the nearest first.
ghost use Rattle.std.specs.Prelude.{◌≡◌, ℕ, [], ◌∷◌, ◌++◌, IfOk};
ghost use Rattle.std.specs.Option.{option_map};
ghost use Rattle.spec_document.specs.declared.axis.Axis.TheVariants as axis;
ghost use Rattle.spec_meaning.specs.Program.{Give, Supply, then as and_then};
ghost use Rattle.spec_meaning.specs.Supplies.{at_hand};
ghost use Rattle.spec_transform.specs.Numbering as definition;
ghost use Rattle.spec_node.specs.Naming.{same_ref};
ghost use Rattle.xt_syntax.specs.PartView.{pattern_of};
ghost use Rattle.spec_node.specs.declared.node_ref.NodeRef.{NodeRef};
ghost use Rattle.xt_questions.specs.View.{context_of, supplies_of};
ghost use Rattle.xt_questions.specs.Runs.{Runs, items};
ghost use Rattle.xt_questions.specs.declared.context.Focus as code;

use spec_document::Axis;
use std::alloc::Global;
use xt_match::matches;
use xt_questions::{Context, EvalFault, Evaluate, Focus, Supplies, World, ask_nodes, ask_order};
use xt_syntax::{NodeType, Pattern, Test};
use xt_text::Memory;
use xt_tree::NodeRef;

/// The nodes of an axis, in its order.
pub(crate) fn on_axis<W: World>(
    alloc: Global,
    axis: Axis,
    node: NodeRef,
    world: &mut W,
) -> Result<Vec<NodeRef>, EvalFault>
    ensures runs { (supply : Supply NodeRef) → (depth : ℕ) → Runs items supply depth (definition.on_axis axis node) (W.state world.old) (W.state world.new) result }
    ensures name { W.name world.new ≡ W.name world.old }
{
    let test = Test::OfType(NodeType::Node);
    ask_nodes(alloc, world, node, axis, test)
}

// Those before the first that matches the pattern.
fn up_to<W: Evaluate>(
    alloc: Global,
    from: &Pattern,
    nodes: &[NodeRef],
    context: &Context,
    supplies: &Supplies,
    world: &mut W,
) -> Result<Vec<NodeRef>, EvalFault>
    ensures runs { (focus : code.Focus) → Runs items (at_hand (supplies_of supplies.now) context.now.depth) context.now.depth (definition.up_to (definition.matches_there same_ref (context_of focus context.now) (pattern_of from.now)) [] nodes.now) (W.state world.old) (W.state world.new) result }
    ensures name { W.name world.new ≡ W.name world.old }
{
    let mut nearer = Vec::new(alloc);
    for node in nodes {
        let matches = matches(alloc, from, *node, context, supplies, world)?;
        if matches {
            return Ok(nearer);
        }
        nearer.push(*node)?;
    }
    Ok(nearer)
}

// Those that are nearer than the nearest that matches `from`; all without such a one, and without `from`.
fn cut_by<W: Evaluate>(
    alloc: Global,
    from: &Option<Pattern>,
    nodes: Vec<NodeRef>,
    context: &Context,
    supplies: &Supplies,
    world: &mut W,
) -> Result<Vec<NodeRef>, EvalFault>
    ensures runs { (focus : code.Focus) → Runs items (at_hand (supplies_of supplies.now) context.now.depth) context.now.depth (definition.cut_by same_ref (context_of focus context.now) (option_map pattern_of from.now) nodes.items) (W.state world.old) (W.state world.new) result }
    ensures name { W.name world.new ≡ W.name world.old }
{
    match from {
        None => Ok(nodes),
        Some(from) => up_to(alloc, from, nodes.as_slice(), context, supplies, world),
    }
}

// A node, and others behind it.
fn with_front(alloc: Global, node: NodeRef, others: &[NodeRef]) -> Result<Vec<NodeRef>, Memory>
    ensures { IfOk result (λ nodes. nodes.items ≡ node ∷ others.now) }
{
    let mut nodes = Vec::with_capacity(alloc, others.len())?;
    nodes.push(node)?;
    nodes.extend_from_slice(others)?;
    Ok(nodes)
}

/// The node and its ancestors below the nearest that matches `from`, for `single` and `multiple`.
pub(crate) fn upward<W: Evaluate>(
    alloc: Global,
    from: &Option<Pattern>,
    focus: Focus,
    context: &Context,
    supplies: &Supplies,
    world: &mut W,
) -> Result<Vec<NodeRef>, EvalFault>
    ensures runs { Runs items (at_hand (supplies_of supplies.now) context.now.depth) context.now.depth (definition.upward same_ref (context_of focus context.now) (option_map pattern_of from.now)) (W.state world.old) (W.state world.new) result }
    ensures name { W.name world.new ≡ W.name world.old }
{
    let above = on_axis(alloc, Axis::Ancestor, focus.node, world)?;
    let below = cut_by(alloc, from, above, context, supplies, world)?;
    Ok(with_front(alloc, focus.node, below.as_slice())?)
}

// Ancestors and nodes before them, the last one in document order first, where that is of matter.
fn nearest_first<W: World>(
    alloc: Global,
    from: &Option<Pattern>,
    nodes: Vec<NodeRef>,
    world: &mut W,
) -> Result<Vec<NodeRef>, EvalFault>
    ensures runs { (supply : Supply NodeRef) → (depth : ℕ) → Runs items supply depth (definition.nearest_first (option_map pattern_of from.now) nodes.items) (W.state world.old) (W.state world.new) result }
    ensures name { W.name world.new ≡ W.name world.old }
{
    match from {
        None => Ok(nodes),
        Some(_) => {
            let mut ordered = ask_order(alloc, world, nodes)?;
            ordered.reverse();
            Ok(ordered)
        }
    }
}

// The ancestors of a node, and the nodes before it.
fn around<W: World>(alloc: Global, node: NodeRef, world: &mut W) -> Result<Vec<NodeRef>, EvalFault>
    ensures runs { (supply : Supply NodeRef) → (depth : ℕ) → Runs items supply depth (and_then (definition.on_axis axis.Ancestor node) (λ above. and_then (definition.on_axis axis.Preceding node) (λ before. Give (above ++ before)))) (W.state world.old) (W.state world.new) result }
    ensures name { W.name world.new ≡ W.name world.old }
{
    let mut above = on_axis(alloc, Axis::Ancestor, node, world)?;
    let before = on_axis(alloc, Axis::Preceding, node, world)?;
    above.extend_from_slice(before.as_slice())?;
    Ok(above)
}

/// The node, its ancestors and the nodes before it, after the nearest of these that matches `from`, for `any`.
pub(crate) fn backward<W: Evaluate>(
    alloc: Global,
    from: &Option<Pattern>,
    focus: Focus,
    context: &Context,
    supplies: &Supplies,
    world: &mut W,
) -> Result<Vec<NodeRef>, EvalFault>
    ensures runs { Runs items (at_hand (supplies_of supplies.now) context.now.depth) context.now.depth (definition.backward same_ref (context_of focus context.now) (option_map pattern_of from.now)) (W.state world.old) (W.state world.new) result }
    ensures name { W.name world.new ≡ W.name world.old }
{
    let around = around(alloc, focus.node, world)?;
    let nearest = nearest_first(alloc, from, around, world)?;
    let after = cut_by(alloc, from, nearest, context, supplies, world)?;
    Ok(with_front(alloc, focus.node, after.as_slice())?)
}
