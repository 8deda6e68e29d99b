// Trees made of their parts.
ghost use Rattle.std.specs.Prelude.{◌≡◌, IfOk, map, [], unwrap_or};
ghost use Rattle.std.specs.Result.{result_ok};
ghost use Rattle.std.specs.Str.{chars};
ghost use Rattle.spec_document.specs.Scope as scopes;
ghost use Rattle.spec_expression.specs.Number.{numeral};
ghost use Rattle.spec_expression.specs.Syntax as tree;
ghost use Rattle.spec_expression.specs.Grammar as grammar;
ghost use Rattle.xt_syntax.specs.View.{expr_of, link_of, step_of};
ghost use Rattle.xp_parse.specs.View.{name_of};

use crate::token::Name;
use spec_document::Axis;
use spec_expression::NodeType;
use std::alloc::Global;
use xt_base::numeral;
use xt_names::{Expanded, Scope};
use xt_syntax::{Expr, Link, Step, Test};
use xt_text::{Memory, Text};

/// The URI of a prefix; empty for a prefix that is not declared.
pub fn uri_of(alloc: Global, scope: &Scope, prefix: &str) -> Result<Text, Memory>
    ensures { IfOk result (λ uri. uri ≡ unwrap_or (scopes.resolved scope.now (chars prefix.now)) []) }
{
    match scope.resolve(prefix) {
        Some(uri) => uri.copy(alloc),
        None => Ok(Text::new(alloc)),
    }
}

/// The expanded name.
pub fn expanded(alloc: Global, scope: &Scope, name: Name<'_>) -> Result<Expanded, Memory>
    ensures { IfOk result (λ e. e ≡ grammar.expanded scope.now (name_of name.entry)) }
{
    let uri = match name.prefix {
        Some(prefix) => uri_of(alloc, scope, prefix)?,
        None => Text::new(alloc),
    };
    let local = Text::from_str(alloc, name.local)?;
    Ok(Expanded::new(uri, local))
}

/// The value of the digits before a point and behind it; none where it is not whole or too great.
pub fn number_of(whole: &str, fraction: &str) -> Option<u64>
    ensures { result ≡ result_ok (numeral whole.now fraction.now) }
{
    numeral(whole.as_bytes(), fraction.as_bytes()).ok()
}

/// A chain, or its first operand where there is no further one.
pub fn chained(alloc: Global, first: Expr, links: Vec<Link>) -> Result<Expr, Memory>
    ensures { IfOk result (λ e. expr_of e ≡ tree.chained (expr_of first) (map link_of links.items)) }
{
    if links.is_empty() {
        return Ok(first);
    }
    Ok(Expr::Chain(Box::new(alloc, first)?, links))
}

/// An operand behind so many signs.
pub fn negated(alloc: Global, signs: u64, operand: Expr) -> Result<Expr, Memory>
    ensures { IfOk result (λ e. expr_of e ≡ tree.negated signs (expr_of operand)) }
{
    if signs == 0 {
        return Ok(operand);
    }
    Ok(Expr::Negation(signs, Box::new(alloc, operand)?))
}

/// A primary expression with its predicates.
pub fn filtered(alloc: Global, base: Expr, predicates: Vec<Expr>) -> Result<Expr, Memory>
    ensures { IfOk result (λ e. expr_of e ≡ tree.filtered (expr_of base) (map expr_of predicates.items)) }
{
    if predicates.is_empty() {
        return Ok(base);
    }
    Ok(Expr::Filter(Box::new(alloc, base)?, predicates))
}

/// The steps from an expression.
pub fn stepped(alloc: Global, base: Expr, steps: Vec<Step>) -> Result<Expr, Memory>
    ensures { IfOk result (λ e. expr_of e ≡ tree.stepped (expr_of base) (map step_of steps.items)) }
{
    if steps.is_empty() {
        return Ok(base);
    }
    Ok(Expr::Path(Box::new(alloc, base)?, steps))
}

/// The step that takes every node of an axis.
pub fn node_on(alloc: Global, axis: Axis) -> Step
    ensures { step_of result ≡ tree.node_on axis }
{
    Step {
        axis,
        test: Test::OfType(NodeType::Node),
        predicates: Vec::new(alloc),
    }
}
