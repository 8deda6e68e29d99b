// The value of an expression (XPath 1.0, sections 2 and 3).
ghost use Rattle.std.specs.Prelude.{◌≡◌, [], map, length};
ghost use Rattle.spec_expression.specs.Syntax.{exprs, links, steps};
ghost use Rattle.spec_meaning.specs.Call.{called};
ghost use Rattle.spec_meaning.specs.Function.{function_of};
ghost use Rattle.spec_meaning.specs.Meaning.{meaning, values_of, chained, kept, kept_by, along, stepped};
ghost use Rattle.spec_meaning.specs.Operation.{linked};
ghost use Rattle.spec_meaning.specs.Supplies.{at_hand};
ghost use Rattle.xt_syntax.specs.View.{expr_of, link_of, step_of};
ghost use Rattle.xt_tree.specs.ValueView.{value_of};
ghost use Rattle.xt_questions.specs.View.{context_of, supplies_of};
ghost use Rattle.xt_questions.specs.Runs.{Runs, items};
ghost use Rattle.xp_eval.specs.View.{values_in};
ghost use Rattle.xt_questions.specs.declared.context.Focus as code;

use crate::find::variable;
use crate::pick::{add, arrange, keep, negate, only, root};
use std::alloc::Global;
use xp_functions::{apply, find};
use xp_values::{combine, count, is_decided, to_boolean, to_nodes};
use xt_names::Expanded;
use xt_questions::{Context, EvalFault, Focus, Supplies, World, ask_nodes, copy_test};
use xt_syntax::{Expr, Link, Step};
use xt_tree::{NodeRef, Value};

/// The value of the expression at the focus. Operands, arguments, steps and predicates are evaluated from left
/// to right, and the first error ends it: want of memory; a refusal D01 to D04 or D08, as the functions and
/// operators have it; `Wants` with the first global that is needed and was not given for a content so deep.
#[cycle(eval)]
pub fn eval<W: World>(
    alloc: Global,
    expr: &Expr,
    focus: Focus,
    context: &Context,
    supplies: &Supplies,
    world: &mut W,
) -> Result<Value, EvalFault>
    ensures runs { Runs value_of (at_hand (supplies_of supplies.now) context.now.depth) context.now.depth (meaning (expr_of expr.now) (context_of focus context.now)) (W.state world.old) (W.state world.new) result }
    ensures name { W.name world.new ≡ W.name world.old }
{
    match expr {
        Expr::Number(number) => count(*number),
        Expr::Literal(text) => Ok(Value::Text(text.copy(alloc)?)),
        Expr::Variable(name) => variable(alloc, name, context, supplies, world),
        Expr::Call(name, arguments) => {
            let list = values(alloc, arguments.as_slice(), focus, context, supplies, world)?;
            call(alloc, name, list, focus, context, supplies, world)
        }
        Expr::Chain(first, links) => {
            let value = eval(alloc, first, focus, context, supplies, world)?;
            chained(
                alloc,
                links.as_slice(),
                value,
                focus,
                context,
                supplies,
                world,
            )
        }
        Expr::Negation(signs, operand) => {
            let value = eval(alloc, operand, focus, context, supplies, world)?;
            negate(alloc, *signs, &value, world)
        }
        Expr::Filter(base, predicates) => {
            let value = eval(alloc, base, focus, context, supplies, world)?;
            let nodes = to_nodes(value)?;
            let kept = kept_by(
                alloc,
                predicates.as_slice(),
                nodes,
                context,
                supplies,
                world,
            )?;
            Ok(Value::Nodes(kept))
        }
        Expr::Root => root(alloc, focus.node, world),
        Expr::Here => Ok(Value::Nodes(only(alloc, focus.node)?)),
        Expr::Path(base, steps) => {
            let value = eval(alloc, base, focus, context, supplies, world)?;
            let nodes = to_nodes(value)?;
            let reached = along(alloc, steps.as_slice(), nodes, context, supplies, world)?;
            Ok(Value::Nodes(reached))
        }
    }
}

/// What the function of this name makes of the arguments (XPath 1.0, section 3.2).
fn call<W: World>(
    alloc: Global,
    name: &Expanded,
    arguments: Vec<Value>,
    focus: Focus,
    context: &Context,
    supplies: &Supplies,
    world: &mut W,
) -> Result<Value, EvalFault>
    ensures runs { Runs value_of (at_hand (supplies_of supplies.now) context.now.depth) context.now.depth (called (function_of name.now (length (values_in arguments))) (values_in arguments) (context_of focus context.now)) (W.state world.old) (W.state world.new) result }
    ensures name { W.name world.new ≡ W.name world.old }
{
    let function = find(name, arguments.len()).ok();
    apply(alloc, function, arguments, focus, context, supplies, world)
}

/// The values of arguments.
#[cycle(eval)]
fn values<W: World>(
    alloc: Global,
    arguments: &[Expr],
    focus: Focus,
    context: &Context,
    supplies: &Supplies,
    world: &mut W,
) -> Result<Vec<Value>, EvalFault>
    ensures runs { Runs values_in (at_hand (supplies_of supplies.now) context.now.depth) context.now.depth (values_of (exprs (map expr_of arguments.now)) (context_of focus context.now) []) (W.state world.old) (W.state world.new) result }
    ensures name { W.name world.new ≡ W.name world.old }
{
    let mut done = Vec::new(alloc);
    for argument in arguments {
        let value = eval(alloc, argument, focus, context, supplies, world)?;
        done.push(value)?;
    }
    Ok(done)
}

/// The value of a chain, after that of its first operand (XPath 1.0, sections 3.3 to 3.5).
#[cycle(eval)]
fn chained<W: World>(
    alloc: Global,
    further: &[Link],
    first: Value,
    focus: Focus,
    context: &Context,
    supplies: &Supplies,
    world: &mut W,
) -> Result<Value, EvalFault>
    ensures runs { Runs value_of (at_hand (supplies_of supplies.now) context.now.depth) context.now.depth (chained (links (map link_of further.now)) (context_of focus context.now) (value_of first)) (W.state world.old) (W.state world.new) result }
    ensures name { W.name world.new ≡ W.name world.old }
{
    let mut value = first;
    for link in further {
        value = linked(alloc, link, value, focus, context, supplies, world)?;
    }
    Ok(value)
}

/// The value of an operator whose left operand was evaluated. The right one is left alone where the left one
/// decides (XPath 1.0, section 3.4).
#[cycle(eval)]
fn linked<W: World>(
    alloc: Global,
    link: &Link,
    left: Value,
    focus: Focus,
    context: &Context,
    supplies: &Supplies,
    world: &mut W,
) -> Result<Value, EvalFault>
    ensures runs { Runs value_of (at_hand (supplies_of supplies.now) context.now.depth) context.now.depth (linked (link_of link.now).operator (value_of left) (meaning (link_of link.now).operand (context_of focus context.now))) (W.state world.old) (W.state world.new) result }
    ensures name { W.name world.new ≡ W.name world.old }
{
    if is_decided(link.operator, &left) {
        return Ok(Value::Boolean(to_boolean(&left)));
    }
    let right = eval(alloc, &link.operand, focus, context, supplies, world)?;
    combine(alloc, link.operator, left, right, world)
}

/// The nodes that the predicate keeps (XPath 1.0, section 2.4). It sees each with its position among them.
#[cycle(eval)]
fn kept<W: World>(
    alloc: Global,
    predicate: &Expr,
    nodes: &[NodeRef],
    context: &Context,
    supplies: &Supplies,
    world: &mut W,
) -> Result<Vec<NodeRef>, EvalFault>
    ensures runs { (focus : code.Focus) → Runs items (at_hand (supplies_of supplies.now) context.now.depth) context.now.depth (kept (meaning (expr_of predicate.now)) (context_of focus context.now) (length nodes.now) 1 [] nodes.now) (W.state world.old) (W.state world.new) result }
    ensures name { W.name world.new ≡ W.name world.old }
{
    let mut done = Vec::new(alloc);
    for i in 0..nodes.len() {
        let node = nodes[i];
        let position = i as u64 + 1;
        let focus = Focus {
            node,
            position: Some(position),
            size: Some(nodes.len() as u64),
        };
        let value = eval(alloc, predicate, focus, context, supplies, world)?;
        keep(&mut done, node, &value, position)?;
    }
    Ok(done)
}

/// The nodes that all predicates keep, one predicate after another.
#[cycle(eval)]
fn kept_by<W: World>(
    alloc: Global,
    predicates: &[Expr],
    nodes: Vec<NodeRef>,
    context: &Context,
    supplies: &Supplies,
    world: &mut W,
) -> Result<Vec<NodeRef>, EvalFault>
    ensures runs { (focus : code.Focus) → Runs items (at_hand (supplies_of supplies.now) context.now.depth) context.now.depth (kept_by (exprs (map expr_of predicates.now)) (context_of focus context.now) nodes.items) (W.state world.old) (W.state world.new) result }
    ensures name { W.name world.new ≡ W.name world.old }
{
    let mut rest = nodes;
    for predicate in predicates {
        rest = kept(alloc, predicate, rest.as_slice(), context, supplies, world)?;
    }
    Ok(rest)
}

/// Where the steps lead from the nodes (XPath 1.0, section 2).
#[cycle(eval)]
fn along<W: World>(
    alloc: Global,
    route: &[Step],
    nodes: Vec<NodeRef>,
    context: &Context,
    supplies: &Supplies,
    world: &mut W,
) -> Result<Vec<NodeRef>, EvalFault>
    ensures runs { (focus : code.Focus) → Runs items (at_hand (supplies_of supplies.now) context.now.depth) context.now.depth (along (steps (map step_of route.now)) (context_of focus context.now) nodes.items) (W.state world.old) (W.state world.new) result }
    ensures name { W.name world.new ≡ W.name world.old }
{
    let mut at = nodes;
    for step in route {
        let found = stepped(alloc, step, at.as_slice(), context, supplies, world)?;
        at = arrange(alloc, at.as_slice(), step.axis, found, world)?;
    }
    Ok(at)
}

/// Where one step leads from each of the nodes, one after another (XPath 1.0, section 2.1).
#[cycle(eval)]
fn stepped<W: World>(
    alloc: Global,
    step: &Step,
    nodes: &[NodeRef],
    context: &Context,
    supplies: &Supplies,
    world: &mut W,
) -> Result<Vec<NodeRef>, EvalFault>
    ensures runs { (focus : code.Focus) → Runs items (at_hand (supplies_of supplies.now) context.now.depth) context.now.depth (stepped (kept_by (step_of step.now).predicates (context_of focus context.now)) (step_of step.now).axis (step_of step.now).test [] nodes.now) (W.state world.old) (W.state world.new) result }
    ensures name { W.name world.new ≡ W.name world.old }
{
    let mut done = Vec::new(alloc);
    for node in nodes {
        let test = copy_test(alloc, &step.test)?;
        let found = ask_nodes(alloc, world, *node, step.axis, test)?;
        let more = kept_by(
            alloc,
            step.predicates.as_slice(),
            found,
            context,
            supplies,
            world,
        )?;
        add(&mut done, more)?;
    }
    Ok(done)
}
