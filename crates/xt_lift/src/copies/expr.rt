// Copies of expressions and location steps.
ghost use Rattle.std.specs.Prelude.{◌≡◌, map, IfOk};
ghost use Rattle.spec_expression.specs.Syntax as tree;
ghost use Rattle.spec_expression.specs.Syntax.{exprs, links, steps};
ghost use Rattle.xt_syntax.specs.View.{expr_of, link_of, step_of, test_of};

use crate::copies::Copied;
use std::alloc::Global;
use xt_names::copy_name;
use xt_syntax::{Expr, Link, Step, Test};
use xt_text::Memory;

impl Copied for Expr {
    ghost Seen = { tree.Expr };

    ghost seen = { expr_of };

    fn copied(&self, alloc: Global) -> Result<Expr, Memory> {
        copy_expr(alloc, self)
    }
}

/// The same expression.
#[cycle(copy)]
pub(crate) fn copy_expr(alloc: Global, expr: &Expr) -> Result<Expr, Memory>
    ensures { IfOk result (λ copy. expr_of copy ≡ expr_of expr.now) }
{
    match expr {
        Expr::Number(number) => Ok(Expr::Number(*number)),
        Expr::Literal(text) => Ok(Expr::Literal(text.copy(alloc)?)),
        Expr::Variable(name) => Ok(Expr::Variable(copy_name(alloc, name)?)),
        Expr::Call(name, arguments) => {
            let name = copy_name(alloc, name)?;
            Ok(Expr::Call(name, copy_exprs(alloc, arguments.as_slice())?))
        }
        Expr::Chain(first, links) => {
            let first = copy_boxed(alloc, first)?;
            Ok(Expr::Chain(first, copy_links(alloc, links.as_slice())?))
        }
        Expr::Negation(signs, operand) => Ok(Expr::Negation(*signs, copy_boxed(alloc, operand)?)),
        Expr::Filter(base, predicates) => {
            let base = copy_boxed(alloc, base)?;
            Ok(Expr::Filter(base, copy_exprs(alloc, predicates.as_slice())?))
        }
        Expr::Root => Ok(Expr::Root),
        Expr::Here => Ok(Expr::Here),
        Expr::Path(base, steps) => {
            let base = copy_boxed(alloc, base)?;
            Ok(Expr::Path(base, copy_steps(alloc, steps.as_slice())?))
        }
    }
}

#[cycle(copy)]
fn copy_boxed(alloc: Global, expr: &Expr) -> Result<Box<Expr>, Memory>
    ensures { IfOk result (λ copy. expr_of copy.value ≡ expr_of expr.now) }
{
    let copy = copy_expr(alloc, expr)?;
    Ok(Box::new(alloc, copy)?)
}

#[cycle(copy)]
fn copy_link(alloc: Global, link: &Link) -> Result<Link, Memory>
    ensures { IfOk result (λ copy. link_of copy ≡ link_of link.now) }
{
    let operand = copy_expr(alloc, &link.operand)?;
    Ok(Link {
        operator: link.operator,
        operand,
    })
}

/// The same step.
#[cycle(copy)]
pub(crate) fn copy_step(alloc: Global, step: &Step) -> Result<Step, Memory>
    ensures { IfOk result (λ copy. step_of copy ≡ step_of step.now) }
{
    let test = copy_test(alloc, &step.test)?;
    let predicates = copy_exprs(alloc, step.predicates.as_slice())?;
    Ok(Step {
        axis: step.axis,
        test,
        predicates,
    })
}

#[cycle(copy)]
fn copy_exprs(alloc: Global, list: &[Expr]) -> Result<Vec<Expr>, Memory>
    ensures { IfOk result (λ copies. map expr_of copies.items ≡ map expr_of list.now) }
{
    let mut copies = Vec::new(alloc);
    for expr in list {
        let copy = copy_expr(alloc, expr)?;
        copies.push(copy)?;
    }
    Ok(copies)
}

#[cycle(copy)]
fn copy_links(alloc: Global, list: &[Link]) -> Result<Vec<Link>, Memory>
    ensures { IfOk result (λ copies. map link_of copies.items ≡ map link_of list.now) }
{
    let mut copies = Vec::new(alloc);
    for link in list {
        let copy = copy_link(alloc, link)?;
        copies.push(copy)?;
    }
    Ok(copies)
}

#[cycle(copy)]
fn copy_steps(alloc: Global, list: &[Step]) -> Result<Vec<Step>, Memory>
    ensures { IfOk result (λ copies. map step_of copies.items ≡ map step_of list.now) }
{
    let mut copies = Vec::new(alloc);
    for step in list {
        let copy = copy_step(alloc, step)?;
        copies.push(copy)?;
    }
    Ok(copies)
}

fn copy_test(alloc: Global, test: &Test) -> Result<Test, Memory>
    ensures { IfOk result (λ copy. test_of copy ≡ test_of test.now) }
{
    match test {
        Test::AnyName => Ok(Test::AnyName),
        Test::InNamespace(uri) => Ok(Test::InNamespace(uri.copy(alloc)?)),
        Test::Named(name) => Ok(Test::Named(copy_name(alloc, name)?)),
        Test::OfType(node_type) => Ok(Test::OfType(*node_type)),
        Test::Instruction(target) => Ok(Test::Instruction(target.copy(alloc)?)),
    }
}
