// The variables that stand in expressions and patterns, in the order of their text.
ghost use Rattle.std.specs.Prelude.{◌≡◌, ◌++◌, OnOk, map};
ghost use Rattle.std.specs.List.{flat_map};
ghost use Rattle.std.specs.Option.{option_map};
ghost use Rattle.spec_expression.specs.Syntax.{exprs, links, steps};
ghost use Rattle.spec_transform.specs.Numbering as spec;
ghost use Rattle.spec_items.specs.Mentioned as definition;
ghost use Rattle.xt_syntax.specs.PartView.{alternative_of, pattern_of, pattern_step_of};
ghost use Rattle.xt_syntax.specs.View.{expr_of, link_of, step_of};

use crate::adding::add_name;
use std::alloc::Global;
use xt_names::Expanded;
use xt_syntax::{Alternative, Expr, Link, Pattern, PatternStep, Step};
use xt_text::Memory;

/// Adds those in an expression.
#[cycle(add)]
pub(crate) fn add_in(alloc: Global, expr: &Expr, into: &mut Vec<Expanded>) -> Result<(), Memory>
    ensures { OnOk result (into.new.items ≡ into.old.items ++ spec.names_in (expr_of expr.now)) }
{
    match expr {
        Expr::Number(_) => Ok(()),
        Expr::Literal(_) => Ok(()),
        Expr::Variable(name) => add_name(alloc, name, into),
        Expr::Call(_, arguments) => add_in_all(alloc, arguments.as_slice(), into),
        Expr::Chain(first, links) => {
            add_in(alloc, first, into)?;
            add_in_links(alloc, links.as_slice(), into)
        }
        Expr::Negation(_, operand) => add_in(alloc, operand, into),
        Expr::Filter(base, predicates) => {
            add_in(alloc, base, into)?;
            add_in_all(alloc, predicates.as_slice(), into)
        }
        Expr::Root => Ok(()),
        Expr::Here => Ok(()),
        Expr::Path(base, steps) => {
            add_in(alloc, base, into)?;
            add_in_steps(alloc, steps.as_slice(), into)
        }
    }
}

#[cycle(add)]
fn add_in_all(alloc: Global, list: &[Expr], into: &mut Vec<Expanded>) -> Result<(), Memory>
    ensures { OnOk result (into.new.items ≡ into.old.items ++ spec.names_in_all (exprs (map expr_of list.now))) }
{
    for expr in list {
        add_in(alloc, expr, into)?;
    }
    Ok(())
}

#[cycle(add)]
fn add_in_links(alloc: Global, list: &[Link], into: &mut Vec<Expanded>) -> Result<(), Memory>
    ensures { OnOk result (into.new.items ≡ into.old.items ++ spec.names_in_links (links (map link_of list.now))) }
{
    for link in list {
        add_in(alloc, &link.operand, into)?;
    }
    Ok(())
}

#[cycle(add)]
fn add_in_steps(alloc: Global, list: &[Step], into: &mut Vec<Expanded>) -> Result<(), Memory>
    ensures { OnOk result (into.new.items ≡ into.old.items ++ spec.names_in_steps (steps (map step_of list.now))) }
{
    for step in list {
        add_in_all(alloc, step.predicates.as_slice(), into)?;
    }
    Ok(())
}

/// Adds those in an expression, where there is one.
pub(crate) fn add_if(
    alloc: Global,
    expr: &Option<Expr>,
    into: &mut Vec<Expanded>,
) -> Result<(), Memory>
    ensures { OnOk result (into.new.items ≡ into.old.items ++ definition.names_if (option_map expr_of expr.now)) }
{
    match expr {
        None => Ok(()),
        Some(expr) => add_in(alloc, expr, into),
    }
}

/// Adds those in a pattern, where there is one.
pub(crate) fn add_in_pattern(
    alloc: Global,
    pattern: &Option<Pattern>,
    into: &mut Vec<Expanded>,
) -> Result<(), Memory>
    ensures { OnOk result (into.new.items ≡ into.old.items ++ spec.names_in_pattern (option_map pattern_of pattern.now)) }
{
    match pattern {
        None => Ok(()),
        Some(pattern) => add_in_alternatives(alloc, pattern.alternatives.as_slice(), into),
    }
}

fn add_in_alternatives(
    alloc: Global,
    alternatives: &[Alternative],
    into: &mut Vec<Expanded>,
) -> Result<(), Memory>
    ensures { OnOk result (into.new.items ≡ into.old.items ++ flat_map spec.names_in_alternative (map alternative_of alternatives.now)) }
{
    for alternative in alternatives {
        add_in_pattern_steps(alloc, alternative.steps.as_slice(), into)?;
    }
    Ok(())
}

fn add_in_pattern_steps(
    alloc: Global,
    steps: &[PatternStep],
    into: &mut Vec<Expanded>,
) -> Result<(), Memory>
    ensures { OnOk result (into.new.items ≡ into.old.items ++ flat_map (λ s. spec.names_in_all s.step.predicates) (map pattern_step_of steps.now)) }
{
    for step in steps {
        add_in_all(alloc, step.step.predicates.as_slice(), into)?;
    }
    Ok(())
}
