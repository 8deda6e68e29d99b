// The variables that stand in the value of an attribute.
ghost use Rattle.std.specs.Prelude.{◌≡◌, ◌++◌, ◌∷◌, [], OnOk, map};
ghost use Rattle.std.specs.List.{flat_map};
ghost use Rattle.spec_compile.specs.Content.{variables_by};
ghost use Rattle.spec_compile.specs.Walk as spec;
ghost use Rattle.spec_expression.specs.Syntax.{exprs, links, steps};
ghost use Rattle.xt_syntax.specs.PartView.{avt_of, avt_part_of, pattern_of, pattern_step_of};
ghost use Rattle.xt_syntax.specs.View.{expr_of, link_of, step_of};
ghost use Rattle.xt_attributes.specs.View.{value_in};

use crate::value::Value;
use std::alloc::Global;
use xt_names::Expanded;
use xt_syntax::{Avt, AvtPart, Expr, Link, Pattern, PatternStep, Step};
use xt_text::Memory;

fn add_name(alloc: Global, name: &Expanded, into: &mut Vec<Expanded>) -> Result<(), Memory>
    ensures { OnOk result (into.new.items ≡ into.old.items ++ name.now ∷ []) }
{
    let uri = name.uri().copy(alloc)?;
    let local = name.local().copy(alloc)?;
    into.push(Expanded::new(uri, local))?;
    Ok(())
}

#[cycle(add)]
fn add_in(alloc: Global, expr: &Expr, into: &mut Vec<Expanded>) -> Result<(), Memory>
    ensures { OnOk result (into.new.items ≡ into.old.items ++ spec.variables_in (expr_of expr.now)) }
{
    match expr {
        Expr::Number(_) => Ok(()),
        Expr::Literal(_) => Ok(()),
        Expr::Variable(name) => add_name(alloc, name, into),
        Expr::Call(_, arguments) => add_in_all(alloc, arguments.as_slice(), into),
        Expr::Chain(first, links) => {
            add_in(alloc, first, into)?;
            add_in_links(alloc, links.as_slice(), into)
        }
        Expr::Negation(_, operand) => add_in(alloc, operand, into),
        Expr::Filter(base, predicates) => {
            add_in(alloc, base, into)?;
            add_in_all(alloc, predicates.as_slice(), into)
        }
        Expr::Root => Ok(()),
        Expr::Here => Ok(()),
        Expr::Path(base, steps) => {
            add_in(alloc, base, into)?;
            add_in_steps(alloc, steps.as_slice(), into)
        }
    }
}

#[cycle(add)]
fn add_in_all(alloc: Global, list: &[Expr], into: &mut Vec<Expanded>) -> Result<(), Memory>
    ensures { OnOk result (into.new.items ≡ into.old.items ++ spec.variables_in_all (exprs (map expr_of list.now))) }
{
    for expr in list {
        add_in(alloc, expr, into)?;
    }
    Ok(())
}

#[cycle(add)]
fn add_in_links(alloc: Global, list: &[Link], into: &mut Vec<Expanded>) -> Result<(), Memory>
    ensures { OnOk result (into.new.items ≡ into.old.items ++ spec.variables_in_links (links (map link_of list.now))) }
{
    for link in list {
        add_in(alloc, &link.operand, into)?;
    }
    Ok(())
}

#[cycle(add)]
fn add_in_steps(alloc: Global, list: &[Step], into: &mut Vec<Expanded>) -> Result<(), Memory>
    ensures { OnOk result (into.new.items ≡ into.old.items ++ spec.variables_in_steps (steps (map step_of list.now))) }
{
    for step in list {
        add_in_all(alloc, step.predicates.as_slice(), into)?;
    }
    Ok(())
}

fn add_in_pattern_steps(
    alloc: Global,
    steps: &[PatternStep],
    into: &mut Vec<Expanded>,
) -> Result<(), Memory>
    ensures { OnOk result (into.new.items ≡ into.old.items ++ flat_map (λ s. spec.variables_in_all s.step.predicates) (map pattern_step_of steps.now)) }
{
    for step in steps {
        add_in_all(alloc, step.step.predicates.as_slice(), into)?;
    }
    Ok(())
}

fn add_in_pattern(alloc: Global, pattern: &Pattern, into: &mut Vec<Expanded>) -> Result<(), Memory>
    ensures { OnOk result (into.new.items ≡ into.old.items ++ spec.variables_in_pattern (pattern_of pattern.now)) }
{
    for alternative in pattern.alternatives.as_slice() {
        add_in_pattern_steps(alloc, alternative.steps.as_slice(), into)?;
    }
    Ok(())
}

fn add_in_part(alloc: Global, part: &AvtPart, into: &mut Vec<Expanded>) -> Result<(), Memory>
    ensures { OnOk result (into.new.items ≡ into.old.items ++ spec.variables_in_part (avt_part_of part.now)) }
{
    match part {
        AvtPart::Text(_) => Ok(()),
        AvtPart::Expr(expr) => add_in(alloc, expr, into),
    }
}

/// Adds the variables that stand in a value template. Want of memory alone is an error, after which some are added.
pub fn add_template_variables(
    alloc: Global,
    template: &Avt,
    into: &mut Vec<Expanded>,
) -> Result<(), Memory>
    ensures { OnOk result (into.new.items ≡ into.old.items ++ spec.variables_in_template (avt_of template.now)) }
{
    for part in template.parts.as_slice() {
        add_in_part(alloc, part, into)?;
    }
    Ok(())
}

/// Adds the variables that stand in a value. Want of memory alone is an error, after which some are added.
pub fn add_variables(alloc: Global, value: &Value, into: &mut Vec<Expanded>) -> Result<(), Memory>
    ensures { OnOk result (into.new.items ≡ into.old.items ++ variables_by (value_in value.now)) }
{
    match value {
        Value::Expr(expr) => add_in(alloc, expr, into),
        Value::Pattern(pattern) => add_in_pattern(alloc, pattern, into),
        Value::Avt(template) => add_template_variables(alloc, template, into),
        _ => Ok(()),
    }
}
