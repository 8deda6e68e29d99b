// Predicates of a pattern's steps (XPath 1.0, section 2.4).
ghost use Rattle.std.specs.Prelude.{◌≡◌, ℕ, pos, [], ◌∷◌, ◌++◌, map, length, OnOk, if◌then◌else◌};
ghost use Rattle.spec_expression.specs.Number.{Whole, order_of};
ghost use Rattle.spec_expression.specs.Syntax.{exprs};
ghost use Rattle.spec_meaning.specs.Compare.{is_equal};
ghost use Rattle.spec_meaning.specs.Meaning as meanings;
ghost use Rattle.spec_meaning.specs.Program.{Supply, State, Program, Give, then as and_then};
ghost use Rattle.spec_meaning.specs.Supplies.{at_hand};
ghost use Rattle.spec_meaning.specs.Value as plain;
ghost use Rattle.spec_transform.specs.Match as definition;
ghost use Rattle.spec_node.specs.Naming.{same_ref};
ghost use Rattle.xt_syntax.specs.View.{expr_of};
ghost use Rattle.xt_tree.specs.ValueView.{value_of};
ghost use Rattle.spec_node.specs.declared.node_ref.NodeRef.{NodeRef};
ghost use Rattle.xt_questions.specs.View.{context_of, supplies_of};
ghost use Rattle.xt_questions.specs.Runs.{Runs, itself, items};
ghost use Rattle.xt_questions.specs.declared.context.Focus as code;

use crate::same::same_ref;
use std::alloc::Global;
use xp_values::to_boolean;
use xt_base::Num;
use xt_questions::{Context, EvalFault, Evaluate, Focus, Supplies};
use xt_syntax::Expr;
use xt_text::Memory;
use xt_tree::{NodeRef, Value};

// Whether the number is that of the position.
fn is_position(number: Num, position: u64) -> bool
    ensures { result ≡ is_equal (order_of number (Whole (pos position))) }
{
    match number.get() {
        Some(whole) => whole >= 0 && whole as u64 == position,
        None => false,
    }
}

// Whether a predicate of this value keeps the node at the position.
fn keeps(value: &Value, position: u64) -> bool
    ensures { result ≡ meanings.keeps (value_of value.now) position }
{
    match value {
        Value::Number(number) => is_position(*number, position),
        _ => to_boolean(value),
    }
}

// Whether a predicate that ends so keeps the node at the position: where it is refused, it does not.
fn caught(ended: Result<Value, EvalFault>, position: u64) -> Result<bool, EvalFault>
    ensures { (supply : Supply NodeRef) → (depth : ℕ) → (p : Program NodeRef (plain.Value NodeRef)) → (s t : State NodeRef) → Runs value_of supply depth p s t ended → Runs itself supply depth (definition.caught (and_then p (λ v. Give (meanings.keeps v position)))) s t result }
{
    match ended {
        Ok(value) => {
            let kept = keeps(&value, position);
            drop(value);
            Ok(kept)
        }
        Err(EvalFault::Refused(_)) => Ok(false),
        Err(EvalFault::Wants(name)) => Err(EvalFault::Wants(name)),
        Err(EvalFault::Memory) => Err(EvalFault::Memory),
    }
}

// Whether a predicate keeps a node that has this position of so many.
fn is_kept<W: Evaluate>(
    alloc: Global,
    predicate: &Expr,
    node: NodeRef,
    position: u64,
    size: u64,
    context: &Context,
    supplies: &Supplies,
    world: &mut W,
) -> Result<bool, EvalFault>
    ensures runs { (focus : code.Focus) → Runs itself (at_hand (supplies_of supplies.now) context.now.depth) context.now.depth (definition.is_kept (expr_of predicate.now) (context_of focus context.now) size position node) (W.state world.old) (W.state world.new) result }
    ensures name { W.name world.new ≡ W.name world.old }
{
    let focus = Focus {
        node,
        position: Some(position),
        size: Some(size),
    };
    let ended = world.value(alloc, predicate, focus, context, supplies);
    caught(ended, position)
}

// Adds a node that is kept.
fn keep_if(kept: &mut Vec<NodeRef>, node: NodeRef, is_kept: bool) -> Result<(), Memory>
    ensures { OnOk result (kept.new.items ≡ (if is_kept then kept.old.items ++ node ∷ [] else kept.old.items)) }
{
    if is_kept {
        kept.push(node)?;
    }
    Ok(())
}

// The nodes that a predicate keeps. It sees each with its position among them.
fn all_kept<W: Evaluate>(
    alloc: Global,
    predicate: &Expr,
    nodes: &[NodeRef],
    context: &Context,
    supplies: &Supplies,
    world: &mut W,
) -> Result<Vec<NodeRef>, EvalFault>
    ensures runs { (focus : code.Focus) → Runs items (at_hand (supplies_of supplies.now) context.now.depth) context.now.depth (definition.all_kept (expr_of predicate.now) (context_of focus context.now) (length nodes.now) 1 [] nodes.now) (W.state world.old) (W.state world.new) result }
    ensures name { W.name world.new ≡ W.name world.old }
{
    let size = nodes.len() as u64;
    let mut kept = Vec::new(alloc);
    for i in 0..nodes.len() {
        let node = nodes[i];
        let position = i as u64 + 1;
        let is_kept = is_kept(
            alloc, predicate, node, position, size, context, supplies, world,
        )?;
        keep_if(&mut kept, node, is_kept)?;
    }
    Ok(kept)
}

// The position of a node among others, from 1 on.
fn position_of(node: NodeRef, nodes: &[NodeRef]) -> Option<u64>
    ensures { result ≡ definition.position_of same_ref node 1 nodes.now }
{
    for i in 0..nodes.len() {
        if same_ref(node, nodes[i]) {
            return Some(i as u64 + 1);
        }
    }
    None
}

// Whether a predicate keeps a node, which is seen with its position among these; not where it is none of them.
fn is_kept_there<W: Evaluate>(
    alloc: Global,
    predicate: &Expr,
    node: NodeRef,
    nodes: &[NodeRef],
    context: &Context,
    supplies: &Supplies,
    world: &mut W,
) -> Result<bool, EvalFault>
    ensures runs { (focus : code.Focus) → Runs itself (at_hand (supplies_of supplies.now) context.now.depth) context.now.depth (definition.is_kept_there (expr_of predicate.now) (context_of focus context.now) (length nodes.now) node (definition.position_of same_ref node 1 nodes.now)) (W.state world.old) (W.state world.new) result }
    ensures name { W.name world.new ≡ W.name world.old }
{
    let size = nodes.len() as u64;
    match position_of(node, nodes) {
        None => Ok(false),
        Some(position) => is_kept(
            alloc, predicate, node, position, size, context, supplies, world,
        ),
    }
}

/// Whether predicates that read no position keep a node, asked one after another, up to the first that does not.
pub(crate) fn keep_alone<W: Evaluate>(
    alloc: Global,
    predicates: &[Expr],
    node: NodeRef,
    context: &Context,
    supplies: &Supplies,
    world: &mut W,
) -> Result<bool, EvalFault>
    ensures runs { (focus : code.Focus) → Runs itself (at_hand (supplies_of supplies.now) context.now.depth) context.now.depth (definition.keep_alone (context_of focus context.now) node (exprs (map expr_of predicates.now))) (W.state world.old) (W.state world.new) result }
    ensures name { W.name world.new ≡ W.name world.old }
{
    for predicate in predicates {
        let is_kept = is_kept(alloc, predicate, node, 1, 1, context, supplies, world)?;
        if !is_kept {
            return Ok(false);
        }
    }
    Ok(true)
}

/// Whether predicates keep a node that is one of these. Of the last predicate the node alone is asked, of those
/// before it all.
pub(crate) fn keep<W: Evaluate>(
    alloc: Global,
    predicates: &[Expr],
    node: NodeRef,
    nodes: Vec<NodeRef>,
    context: &Context,
    supplies: &Supplies,
    world: &mut W,
) -> Result<bool, EvalFault>
    ensures runs { (focus : code.Focus) → Runs itself (at_hand (supplies_of supplies.now) context.now.depth) context.now.depth (definition.keep same_ref (context_of focus context.now) node (exprs (map expr_of predicates.now)) nodes.items) (W.state world.old) (W.state world.new) result }
    ensures name { W.name world.new ≡ W.name world.old }
{
    match predicates.split_last() {
        None => Ok(true),
        Some((last, before)) => {
            keep_at_last(alloc, before, last, node, nodes, context, supplies, world)
        }
    }
}

// Whether the predicates before the last one, and that one, keep a node that is one of these.
fn keep_at_last<W: Evaluate>(
    alloc: Global,
    before: &[Expr],
    last: &Expr,
    node: NodeRef,
    nodes: Vec<NodeRef>,
    context: &Context,
    supplies: &Supplies,
    world: &mut W,
) -> Result<bool, EvalFault>
    ensures runs { (focus : code.Focus) → Runs itself (at_hand (supplies_of supplies.now) context.now.depth) context.now.depth (definition.keep same_ref (context_of focus context.now) node (exprs (map expr_of before.now ++ expr_of last.now ∷ [])) nodes.items) (W.state world.old) (W.state world.new) result }
    ensures name { W.name world.new ≡ W.name world.old }
{
    let mut rest = nodes;
    for predicate in before {
        rest = all_kept(alloc, predicate, rest.as_slice(), context, supplies, world)?;
    }
    is_kept_there(alloc, last, node, rest.as_slice(), context, supplies, world)
}
