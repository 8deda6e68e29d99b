// Trees of expressions, in the form that reads well.
//
// A tree is written as `(path here child::a[1])`: a number as its digits, a literal in quotes, a variable
// behind `$`, `(call NAME ARGUMENT..)`, `(chain OPERAND OPERATOR OPERAND ..)` for the operators of one
// level, `(minus COUNT OPERAND)`, `(filter BASE [PREDICATE]..)`, `root`, `here`, and `(path BASE STEP..)`.

use crate::syntax::{push_axis, push_operator, push_test};
use cases::{push_name, push_number, push_quoted};
use xt_syntax::{Expr, Link, Step};
use xt_text::{Memory, Text};

/// Adds a tree.
#[cycle(tree)]
pub fn push_tree(out: &mut Text, tree: &Expr) -> Result<(), Memory> {
    match tree {
        Expr::Number(number) => push_number(out, *number),
        Expr::Literal(text) => push_quoted(out, text.as_str()),
        Expr::Variable(name) => {
            out.push('$')?;
            push_name(out, name)
        }
        Expr::Call(name, arguments) => {
            out.push_str("(call ")?;
            push_name(out, name)?;
            push_trees(out, arguments.as_slice())?;
            out.push(')')
        }
        Expr::Chain(first, links) => {
            out.push_str("(chain ")?;
            push_tree(out, first)?;
            push_links(out, links.as_slice())?;
            out.push(')')
        }
        Expr::Negation(signs, operand) => {
            out.push_str("(minus ")?;
            push_number(out, *signs)?;
            out.push(' ')?;
            push_tree(out, operand)?;
            out.push(')')
        }
        Expr::Filter(base, predicates) => {
            out.push_str("(filter ")?;
            push_tree(out, base)?;
            out.push(' ')?;
            push_predicates(out, predicates.as_slice())?;
            out.push(')')
        }
        Expr::Root => out.push_str("root"),
        Expr::Here => out.push_str("here"),
        Expr::Path(base, steps) => {
            out.push_str("(path ")?;
            push_tree(out, base)?;
            push_steps(out, steps.as_slice())?;
            out.push(')')
        }
    }
}

#[cycle(tree)]
fn push_trees(out: &mut Text, trees: &[Expr]) -> Result<(), Memory> {
    for tree in trees {
        out.push(' ')?;
        push_tree(out, tree)?;
    }
    Ok(())
}

#[cycle(tree)]
fn push_links(out: &mut Text, links: &[Link]) -> Result<(), Memory> {
    for link in links {
        out.push(' ')?;
        push_operator(out, link.operator)?;
        out.push(' ')?;
        push_tree(out, &link.operand)?;
    }
    Ok(())
}

#[cycle(tree)]
fn push_predicates(out: &mut Text, predicates: &[Expr]) -> Result<(), Memory> {
    for predicate in predicates {
        out.push('[')?;
        push_tree(out, predicate)?;
        out.push(']')?;
    }
    Ok(())
}

#[cycle(tree)]
fn push_steps(out: &mut Text, steps: &[Step]) -> Result<(), Memory> {
    for step in steps {
        out.push(' ')?;
        push_step(out, step)?;
    }
    Ok(())
}

/// Adds a step, as `child::a[1]`.
#[cycle(tree)]
pub fn push_step(out: &mut Text, step: &Step) -> Result<(), Memory> {
    push_axis(out, step.axis)?;
    out.push_str("::")?;
    push_test(out, &step.test)?;
    push_predicates(out, step.predicates.as_slice())
}
