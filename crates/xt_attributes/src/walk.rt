// Whether an expression, a pattern or a value template has a part of some kind.
ghost use Rattle.std.specs.Prelude.{◌≡◌, ◌&&◌, ◌||◌, [], bytes_eq, codes, map};
ghost use Rattle.std.specs.List.{list_any};
ghost use Rattle.std.specs.Str.{chars};
ghost use Rattle.spec_compile.specs.Walk as spec;
ghost use Rattle.spec_expression.specs.Syntax.{exprs, links, steps};
ghost use Rattle.xt_syntax.specs.PartView.{avt_of, avt_part_of, pattern_of, pattern_step_of};
ghost use Rattle.xt_syntax.specs.View.{expr_of, link_of, step_of};
ghost use Rattle.xt_attributes.specs.Sought.{sought_in};

use xp_functions::find;
use xt_names::Expanded;
use xt_syntax::{Avt, AvtPart, Expr, Link, Pattern, PatternStep, Start, Step};

/// What is looked for.
#[derive(Clone, Copy)]
pub(crate) enum Sought {
    /// A call that names no function.
    UnknownCall,
    Variable,
    /// A call of `current()`.
    Current,
    /// A call of `key()`.
    Key,
}

fn is_variable(sought: Sought) -> bool
    ensures { result ≡ (sought_in sought).variable }
{
    matches!(sought, Sought::Variable)
}

fn is_call(sought: Sought, name: &Expanded, arguments: usize) -> bool
    ensures { result ≡ (sought_in sought).call name.now arguments }
{
    match sought {
        Sought::UnknownCall => is_unknown(name, arguments),
        Sought::Variable => false,
        Sought::Current => is_current(name),
        Sought::Key => is_key(name),
    }
}

// Whether no function of this name takes so many arguments.
fn is_unknown(name: &Expanded, arguments: usize) -> bool
    ensures { result ≡ spec.unknown_calls.call name.now arguments }
{
    find(name, arguments).is_err()
}

fn is_in_no_namespace(name: &Expanded) -> bool
    ensures { result ≡ bytes_eq name.now.uri [] }
{
    name.uri().is("")
}

fn is_called(name: &Expanded, local: &str) -> bool
    ensures { result ≡ (bytes_eq name.now.uri [] && bytes_eq name.now.local (chars local.now)) }
{
    is_in_no_namespace(name) && name.local().is(local)
}

fn is_current(name: &Expanded) -> bool
    ensures { result ≡ (spec.calls_of (codes "current")).call name.now 0 }
{
    is_called(name, "current")
}

fn is_key(name: &Expanded) -> bool
    ensures { result ≡ (spec.calls_of (codes "key")).call name.now 0 }
{
    is_called(name, "key")
}

fn is_call_with(sought: Sought, name: &Expanded, arguments: &[Expr]) -> bool
    ensures { result ≡ (sought_in sought).call name.now (spec.count_of (exprs (map expr_of arguments.now))) }
{
    is_call(sought, name, arguments.len())
}

/// Whether the expression has such a part.
#[cycle(has)]
pub(crate) fn has(sought: Sought, expr: &Expr) -> bool
    ensures { result ≡ spec.has (sought_in sought) (expr_of expr.now) }
{
    match expr {
        Expr::Number(_) => false,
        Expr::Literal(_) => false,
        Expr::Variable(_) => is_variable(sought),
        Expr::Call(name, arguments) => {
            is_call_with(sought, name, arguments.as_slice())
                || has_one(sought, arguments.as_slice())
        }
        Expr::Chain(first, links) => has(sought, first) || has_link(sought, links.as_slice()),
        Expr::Negation(_, operand) => has(sought, operand),
        Expr::Filter(base, predicates) => {
            has(sought, base) || has_one(sought, predicates.as_slice())
        }
        Expr::Root => false,
        Expr::Here => false,
        Expr::Path(base, steps) => has(sought, base) || has_step(sought, steps.as_slice()),
    }
}

#[cycle(has)]
fn has_one(sought: Sought, list: &[Expr]) -> bool
    ensures { result ≡ spec.has_one (sought_in sought) (exprs (map expr_of list.now)) }
{
    for expr in list {
        if has(sought, expr) {
            return true;
        }
    }
    false
}

#[cycle(has)]
fn has_link(sought: Sought, list: &[Link]) -> bool
    ensures { result ≡ spec.has_link (sought_in sought) (links (map link_of list.now)) }
{
    for link in list {
        if has(sought, &link.operand) {
            return true;
        }
    }
    false
}

#[cycle(has)]
fn has_step(sought: Sought, list: &[Step]) -> bool
    ensures { result ≡ spec.has_step (sought_in sought) (steps (map step_of list.now)) }
{
    for step in list {
        if has_one(sought, step.predicates.as_slice()) {
            return true;
        }
    }
    false
}

fn has_in_steps(sought: Sought, steps: &[PatternStep]) -> bool
    ensures { result ≡ list_any (λ s. spec.has_one (sought_in sought) s.step.predicates) (map pattern_step_of steps.now) }
{
    for step in steps {
        if has_one(sought, step.step.predicates.as_slice()) {
            return true;
        }
    }
    false
}

/// Whether the pattern has such a part in its predicates.
pub(crate) fn has_in_pattern(sought: Sought, pattern: &Pattern) -> bool
    ensures { result ≡ spec.has_in_pattern (sought_in sought) (pattern_of pattern.now) }
{
    for alternative in pattern.alternatives.as_slice() {
        if has_in_steps(sought, alternative.steps.as_slice()) {
            return true;
        }
    }
    false
}

fn has_in_part(sought: Sought, part: &AvtPart) -> bool
    ensures { result ≡ spec.has_in_part (sought_in sought) (avt_part_of part.now) }
{
    match part {
        AvtPart::Text(_) => false,
        AvtPart::Expr(expr) => has(sought, expr),
    }
}

/// Whether the value template has such a part.
pub(crate) fn has_in_template(sought: Sought, template: &Avt) -> bool
    ensures { result ≡ spec.has_in_template (sought_in sought) (avt_of template.now) }
{
    for part in template.parts.as_slice() {
        if has_in_part(sought, part) {
            return true;
        }
    }
    false
}

fn is_key_start(start: &Start) -> bool
    ensures { result ≡ spec.is_key_start start.now }
{
    match start {
        Start::Anywhere => false,
        Start::Root => false,
        Start::Id(_) => false,
        Start::Key(_, _) => true,
    }
}

/// Whether the pattern begins with `key()`.
pub(crate) fn starts_with_key(pattern: &Pattern) -> bool
    ensures { result ≡ spec.starts_with_key (pattern_of pattern.now) }
{
    for alternative in pattern.alternatives.as_slice() {
        if is_key_start(&alternative.start) {
            return true;
        }
    }
    false
}
