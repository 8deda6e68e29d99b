// Whether predicates read a position, by their form (XPath 1.0, sections 2.4 and 4.1).
ghost use Rattle.std.specs.Prelude.{◌≡◌, Some, map};
ghost use Rattle.spec_expression.specs.Syntax as tree;
ghost use Rattle.spec_expression.specs.Syntax.{exprs, steps};
ghost use Rattle.spec_meaning.specs.Function.{function_of};
ghost use Rattle.spec_meaning.specs.declared.function.Function.TheVariants.{OfContext, OfNodes, OfText, OfValue};
ghost use Rattle.spec_transform.specs.Position as definition;
ghost use Rattle.xt_syntax.specs.View.{expr_of, link_of, step_of};

use spec_meaning::{ContextFunction, NodesFunction, TextFunction, ValueFunction};
use xp_functions::{Function, find};
use xt_names::Expanded;
use xt_syntax::{Expr, Link, Operator, Step};

/// Whether none of these predicates reads a position. Takes no memory.
pub(crate) fn read_no_position(predicates: &[Expr]) -> bool
    ensures { result ≡ definition.read_no_position (exprs (map expr_of predicates.now)) }
{
    for predicate in predicates {
        if !reads_no_position(predicate) {
            return false;
        }
    }
    true
}

fn reads_no_position(predicate: &Expr) -> bool
    ensures { result ≡ definition.reads_no_position (expr_of predicate.now) }
{
    !seeks(predicate) && !may_count(predicate)
}

// The function that a call names.
fn function_called(name: &Expanded, arguments: &[Expr]) -> Option<Function>
    ensures { result ≡ function_of name.now (definition.count_of (exprs (map expr_of arguments.now))) }
{
    match find(name, arguments.len()) {
        Ok(function) => Some(function),
        Err(_) => None,
    }
}

fn is_position_or_last(function: ContextFunction) -> bool
    ensures { result ≡ definition.is_positional (Some (OfContext function)) }
{
    matches!(function, ContextFunction::Last | ContextFunction::Position)
}

fn is_positional(function: Option<Function>) -> bool
    ensures { result ≡ definition.is_positional function }
{
    match function {
        Some(Function::OfContext(of_context)) => is_position_or_last(of_context),
        _ => false,
    }
}

// Whether an expression calls `position()` or `last()` anywhere in it.
#[cycle(seeks)]
fn seeks(expr: &Expr) -> bool
    ensures { result ≡ definition.seeks (expr_of expr.now) }
{
    match expr {
        Expr::Number(_) => false,
        Expr::Literal(_) => false,
        Expr::Variable(_) => false,
        Expr::Call(name, arguments) => {
            is_positional(function_called(name, arguments.as_slice()))
                || one_seeks(arguments.as_slice())
        }
        Expr::Chain(first, links) => seeks(first) || operand_seeks(links.as_slice()),
        Expr::Negation(_, operand) => seeks(operand),
        Expr::Filter(base, predicates) => seeks(base) || one_seeks(predicates.as_slice()),
        Expr::Root => false,
        Expr::Here => false,
        Expr::Path(base, steps) => seeks(base) || step_seeks(steps.as_slice()),
    }
}

#[cycle(seeks)]
fn one_seeks(list: &[Expr]) -> bool
    ensures { result ≡ definition.one_seeks (exprs (map expr_of list.now)) }
{
    for expr in list {
        if seeks(expr) {
            return true;
        }
    }
    false
}

#[cycle(seeks)]
fn operand_seeks(list: &[Link]) -> bool
    ensures { result ≡ definition.operand_seeks (tree.links (map link_of list.now)) }
{
    for link in list {
        if seeks(&link.operand) {
            return true;
        }
    }
    false
}

#[cycle(seeks)]
fn step_seeks(list: &[Step]) -> bool
    ensures { result ≡ definition.step_seeks (steps (map step_of list.now)) }
{
    for step in list {
        if one_seeks(step.predicates.as_slice()) {
            return true;
        }
    }
    false
}

fn context_may_give_number(function: ContextFunction) -> bool
    ensures { result ≡ definition.may_give_number (Some (OfContext function)) }
{
    matches!(function, ContextFunction::Last | ContextFunction::Position)
}

fn nodes_may_give_number(function: NodesFunction) -> bool
    ensures { result ≡ definition.may_give_number (Some (OfNodes function)) }
{
    matches!(function, NodesFunction::Count | NodesFunction::Sum)
}

fn text_may_give_number(function: TextFunction) -> bool
    ensures { result ≡ definition.may_give_number (Some (OfText function)) }
{
    matches!(
        function,
        TextFunction::StringLength | TextFunction::SystemProperty
    )
}

fn value_may_give_number(function: ValueFunction) -> bool
    ensures { result ≡ definition.may_give_number (Some (OfValue function)) }
{
    matches!(function, ValueFunction::Number | ValueFunction::Rounded)
}

// Whether a function may give a number. What names no function is taken for one that may.
fn may_give_number(function: Option<Function>) -> bool
    ensures { result ≡ definition.may_give_number function }
{
    match function {
        None => true,
        Some(Function::OfContext(of_context)) => context_may_give_number(of_context),
        Some(Function::OfNodes(of_nodes)) => nodes_may_give_number(of_nodes),
        Some(Function::OfTexts(_)) => false,
        Some(Function::OfText(of_text)) => text_may_give_number(of_text),
        Some(Function::OfValue(of_value)) => value_may_give_number(of_value),
        Some(Function::Substring) => false,
        Some(Function::Key) => false,
    }
}

fn is_arithmetic(operator: Operator) -> bool
    ensures { result ≡ definition.is_arithmetic operator }
{
    matches!(
        operator,
        Operator::Add
            | Operator::Subtract
            | Operator::Multiply
            | Operator::Divide
            | Operator::Modulo
    )
}

// Whether the value of a chain may be a number, where that of its first operand may be one, or not.
fn counts_after(before: bool, links: &[Link]) -> bool
    ensures { result ≡ definition.counts_after before (tree.links (map link_of links.now)) }
{
    match links.split_last() {
        None => before,
        Some((last, _)) => is_arithmetic(last.operator),
    }
}

// Whether the value of an expression may be a number.
fn may_count(expr: &Expr) -> bool
    ensures { result ≡ definition.may_count (expr_of expr.now) }
{
    match expr {
        Expr::Number(_) => true,
        Expr::Literal(_) => false,
        Expr::Variable(_) => true,
        Expr::Call(name, arguments) => {
            may_give_number(function_called(name, arguments.as_slice()))
        }
        Expr::Chain(first, links) => counts_after(may_count(first), links.as_slice()),
        Expr::Negation(_, _) => true,
        Expr::Filter(_, _) => false,
        Expr::Root => false,
        Expr::Here => false,
        Expr::Path(_, _) => false,
    }
}
