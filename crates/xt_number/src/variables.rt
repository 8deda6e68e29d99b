// The variables that stand in patterns.
ghost use Rattle.std.specs.Prelude.{◌≡◌, map, ◌++◌};
ghost use Rattle.std.specs.List.{flat_map};
ghost use Rattle.std.specs.Option.{option_map};
ghost use Rattle.spec_expression.specs.Syntax.{exprs, links, steps};
ghost use Rattle.spec_meaning.specs.Meaning.{meaning};
ghost use Rattle.spec_meaning.specs.Program.{Give, then as and_then};
ghost use Rattle.spec_meaning.specs.Supplies.{at_hand};
ghost use Rattle.spec_transform.specs.Numbering as definition;
ghost use Rattle.xt_syntax.specs.PartView.{alternative_of, pattern_of, pattern_step_of};
ghost use Rattle.xt_syntax.specs.View.{expr_of, link_of, step_of};
ghost use Rattle.xt_questions.specs.View.{context_of, supplies_of};
ghost use Rattle.xt_questions.specs.Runs.{Runs, itself};

use std::alloc::Global;
use xt_questions::{Context, EvalFault, Evaluate, Focus, Supplies};
use xt_syntax::{Alternative, Count, Expr, Link, Pattern, PatternStep, Step};

// Evaluates an expression, whose value is of no matter.
fn evaluate<W: Evaluate>(
    alloc: Global,
    expr: &Expr,
    focus: Focus,
    context: &Context,
    supplies: &Supplies,
    world: &mut W,
) -> Result<(), EvalFault>
    ensures runs { Runs itself (at_hand (supplies_of supplies.now) context.now.depth) context.now.depth (and_then (meaning (expr_of expr.now) (context_of focus context.now)) (λ v. Give tt)) (W.state world.old) (W.state world.new) result }
    ensures name { W.name world.new ≡ W.name world.old }
{
    world.value(alloc, expr, focus, context, supplies)?;
    Ok(())
}

// Refers to the variables that stand in an expression.
#[cycle(refer)]
fn refer<W: Evaluate>(
    alloc: Global,
    expr: &Expr,
    focus: Focus,
    context: &Context,
    supplies: &Supplies,
    world: &mut W,
) -> Result<(), EvalFault>
    ensures runs { Runs itself (at_hand (supplies_of supplies.now) context.now.depth) context.now.depth (definition.referred_to (definition.names_in (expr_of expr.now)) (context_of focus context.now)) (W.state world.old) (W.state world.new) result }
    ensures name { W.name world.new ≡ W.name world.old }
{
    match expr {
        Expr::Number(_) => Ok(()),
        Expr::Literal(_) => Ok(()),
        Expr::Variable(_) => evaluate(alloc, expr, focus, context, supplies, world),
        Expr::Call(_, arguments) => {
            let list = arguments.as_slice();
            refer_in_all(alloc, list, focus, context, supplies, world)
        }
        Expr::Chain(first, links) => {
            refer(alloc, first, focus, context, supplies, world)?;
            let list = links.as_slice();
            refer_in_links(alloc, list, focus, context, supplies, world)
        }
        Expr::Negation(_, operand) => refer(alloc, operand, focus, context, supplies, world),
        Expr::Filter(base, predicates) => {
            refer(alloc, base, focus, context, supplies, world)?;
            let list = predicates.as_slice();
            refer_in_all(alloc, list, focus, context, supplies, world)
        }
        Expr::Root => Ok(()),
        Expr::Here => Ok(()),
        Expr::Path(base, steps) => {
            refer(alloc, base, focus, context, supplies, world)?;
            let list = steps.as_slice();
            refer_in_steps(alloc, list, focus, context, supplies, world)
        }
    }
}

#[cycle(refer)]
fn refer_in_all<W: Evaluate>(
    alloc: Global,
    list: &[Expr],
    focus: Focus,
    context: &Context,
    supplies: &Supplies,
    world: &mut W,
) -> Result<(), EvalFault>
    ensures runs { Runs itself (at_hand (supplies_of supplies.now) context.now.depth) context.now.depth (definition.referred_to (definition.names_in_all (exprs (map expr_of list.now))) (context_of focus context.now)) (W.state world.old) (W.state world.new) result }
    ensures name { W.name world.new ≡ W.name world.old }
{
    for expr in list {
        refer(alloc, expr, focus, context, supplies, world)?;
    }
    Ok(())
}

#[cycle(refer)]
fn refer_in_links<W: Evaluate>(
    alloc: Global,
    list: &[Link],
    focus: Focus,
    context: &Context,
    supplies: &Supplies,
    world: &mut W,
) -> Result<(), EvalFault>
    ensures runs { Runs itself (at_hand (supplies_of supplies.now) context.now.depth) context.now.depth (definition.referred_to (definition.names_in_links (links (map link_of list.now))) (context_of focus context.now)) (W.state world.old) (W.state world.new) result }
    ensures name { W.name world.new ≡ W.name world.old }
{
    for link in list {
        refer(alloc, &link.operand, focus, context, supplies, world)?;
    }
    Ok(())
}

#[cycle(refer)]
fn refer_in_steps<W: Evaluate>(
    alloc: Global,
    list: &[Step],
    focus: Focus,
    context: &Context,
    supplies: &Supplies,
    world: &mut W,
) -> Result<(), EvalFault>
    ensures runs { Runs itself (at_hand (supplies_of supplies.now) context.now.depth) context.now.depth (definition.referred_to (definition.names_in_steps (steps (map step_of list.now))) (context_of focus context.now)) (W.state world.old) (W.state world.new) result }
    ensures name { W.name world.new ≡ W.name world.old }
{
    for step in list {
        let predicates = step.predicates.as_slice();
        refer_in_all(alloc, predicates, focus, context, supplies, world)?;
    }
    Ok(())
}

// Those in the steps of an alternative.
fn refer_in_alternative<W: Evaluate>(
    alloc: Global,
    steps: &[PatternStep],
    focus: Focus,
    context: &Context,
    supplies: &Supplies,
    world: &mut W,
) -> Result<(), EvalFault>
    ensures runs { Runs itself (at_hand (supplies_of supplies.now) context.now.depth) context.now.depth (definition.referred_to (flat_map (λ s. definition.names_in_all s.step.predicates) (map pattern_step_of steps.now)) (context_of focus context.now)) (W.state world.old) (W.state world.new) result }
    ensures name { W.name world.new ≡ W.name world.old }
{
    for step in steps {
        let predicates = step.step.predicates.as_slice();
        refer_in_all(alloc, predicates, focus, context, supplies, world)?;
    }
    Ok(())
}

// Those in alternatives.
fn refer_in_alternatives<W: Evaluate>(
    alloc: Global,
    alternatives: &[Alternative],
    focus: Focus,
    context: &Context,
    supplies: &Supplies,
    world: &mut W,
) -> Result<(), EvalFault>
    ensures runs { Runs itself (at_hand (supplies_of supplies.now) context.now.depth) context.now.depth (definition.referred_to (flat_map definition.names_in_alternative (map alternative_of alternatives.now)) (context_of focus context.now)) (W.state world.old) (W.state world.new) result }
    ensures name { W.name world.new ≡ W.name world.old }
{
    for alternative in alternatives {
        let steps = alternative.steps.as_slice();
        refer_in_alternative(alloc, steps, focus, context, supplies, world)?;
    }
    Ok(())
}

// Those in a pattern, where it is there.
fn refer_in_pattern<W: Evaluate>(
    alloc: Global,
    pattern: &Option<Pattern>,
    focus: Focus,
    context: &Context,
    supplies: &Supplies,
    world: &mut W,
) -> Result<(), EvalFault>
    ensures runs { Runs itself (at_hand (supplies_of supplies.now) context.now.depth) context.now.depth (definition.referred_to (definition.names_in_pattern (option_map pattern_of pattern.now)) (context_of focus context.now)) (W.state world.old) (W.state world.new) result }
    ensures name { W.name world.new ≡ W.name world.old }
{
    match pattern {
        None => Ok(()),
        Some(pattern) => {
            let alternatives = pattern.alternatives.as_slice();
            refer_in_alternatives(alloc, alternatives, focus, context, supplies, world)
        }
    }
}

/// Refers to the variables that stand in `count` and then to those in `from`, in the order of the text of each. An
/// error is want of memory, or the first global that is needed and was not given for a content so deep.
pub(crate) fn refer_to_all<W: Evaluate>(
    alloc: Global,
    count: &Count,
    focus: Focus,
    context: &Context,
    supplies: &Supplies,
    world: &mut W,
) -> Result<(), EvalFault>
    ensures runs { Runs itself (at_hand (supplies_of supplies.now) context.now.depth) context.now.depth (definition.referred_to (definition.names_in_pattern (option_map pattern_of count.now.count) ++ definition.names_in_pattern (option_map pattern_of count.now.from)) (context_of focus context.now)) (W.state world.old) (W.state world.new) result }
    ensures name { W.name world.new ≡ W.name world.old }
{
    refer_in_pattern(alloc, &count.count, focus, context, supplies, world)?;
    refer_in_pattern(alloc, &count.from, focus, context, supplies, world)
}
