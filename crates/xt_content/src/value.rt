// What attributes say, with the values that stand for those that are missing.
ghost use Rattle.std.specs.Prelude.{◌≡◌, ◌∷◌, [], IfOk, unwrap_or};
ghost use Rattle.std.specs.Option.{option_map};
ghost use Rattle.std.specs.Str.{chars};
ghost use Rattle.spec_expression.specs.Syntax as tree;
ghost use Rattle.spec_compile.specs.Content as spec;
ghost use Rattle.spec_compile.specs.Value.{at, avt_in, expr_in, name_in, pattern_in};
ghost use Rattle.xt_syntax.specs.PartView.{avt_of, pattern_of};
ghost use Rattle.xt_syntax.specs.View.{expr_of};
ghost use Rattle.xt_attributes.specs.View.{entries_in};
ghost use Rattle.xt_content.specs.View.{Keeps};

use spec_document::Axis;
use spec_expression::NodeType;
use std::alloc::Global;
use xt_attributes::{Entries, into_avt, into_expr, into_name, into_names, into_pattern};
use xt_names::Expanded;
use xt_syntax::{Avt, AvtPart, Expr, Pattern, Step, Test};
use xt_text::{Memory, Text};

// ---- What stands for an attribute that is missing

// The nodes of this axis.
fn on_axis(alloc: Global, axis: Axis) -> Result<Expr, Memory>
    ensures { IfOk result (λ e. expr_of e ≡ tree.path tree.here (tree.steps (tree.node_on axis ∷ []))) }
{
    let mut steps = Vec::new(alloc);
    steps.push(Step {
        axis,
        test: Test::OfType(NodeType::Node),
        predicates: Vec::new(alloc),
    })?;
    let from = Box::new(alloc, Expr::Here)?;
    Ok(Expr::Path(from, steps))
}

/// The expression, or `.` where there is none. Want of memory alone is an error.
pub fn or_itself(alloc: Global, expr: Option<Expr>) -> Result<Expr, Memory>
    ensures { IfOk result (λ e. expr_of e ≡ unwrap_or (option_map expr_of expr) spec.itself) }
{
    match expr {
        None => on_axis(alloc, Axis::Itself),
        Some(expr) => Ok(expr),
    }
}

/// The expression, or `node()` where there is none. Want of memory alone is an error.
pub(crate) fn or_children(alloc: Global, expr: Option<Expr>) -> Result<Expr, Memory>
    ensures { IfOk result (λ e. expr_of e ≡ unwrap_or (option_map expr_of expr) spec.children_nodes) }
{
    match expr {
        None => on_axis(alloc, Axis::Child),
        Some(expr) => Ok(expr),
    }
}

// The value template, or one of this text where there is none.
fn or_fixed(alloc: Global, template: Option<Avt>, default: &str) -> Result<Avt, Memory>
    ensures { IfOk result (λ a. avt_of a ≡ unwrap_or (option_map avt_of template) (spec.fixed (chars default.now))) }
{
    match template {
        None => {
            let text = Text::from_str(alloc, default)?;
            let mut parts = Vec::new(alloc);
            parts.push(AvtPart::Text(text))?;
            Ok(Avt { parts })
        }
        Some(template) => Ok(template),
    }
}

pub(crate) fn or_nowhere(alloc: Global, name: Option<Expanded>) -> Expanded
    ensures { result ≡ unwrap_or name spec.nowhere }
{
    match name {
        None => Expanded::new(Text::new(alloc), Text::new(alloc)),
        Some(name) => name,
    }
}

fn or_none(alloc: Global, names: Option<Vec<Expanded>>) -> Vec<Expanded>
    ensures { result.items ≡ unwrap_or (option_map (λ list. list.items) names) [] }
{
    match names {
        None => Vec::new(alloc),
        Some(names) => names,
    }
}

// ---- What an attribute says

/// The expression that the attribute of this name is. It is taken out of the entries.
pub fn take_expr(entries: &mut Entries, name: &str) -> Option<Expr>
    ensures taken { option_map expr_of result ≡ at expr_in (chars name.now) (entries_in entries.old) }
    ensures others { Keeps (chars name.now) (entries_in entries.old) (entries_in entries.new) }
{
    into_expr(entries.take(name))
}

/// The pattern that the attribute of this name is. It is taken out of the entries.
pub fn take_pattern(entries: &mut Entries, name: &str) -> Option<Pattern>
    ensures taken { option_map pattern_of result ≡ at pattern_in (chars name.now) (entries_in entries.old) }
    ensures others { Keeps (chars name.now) (entries_in entries.old) (entries_in entries.new) }
{
    into_pattern(entries.take(name))
}

/// The value template that the attribute of this name is. It is taken out of the entries.
pub fn take_avt(entries: &mut Entries, name: &str) -> Option<Avt>
    ensures taken { option_map avt_of result ≡ at avt_in (chars name.now) (entries_in entries.old) }
    ensures others { Keeps (chars name.now) (entries_in entries.old) (entries_in entries.new) }
{
    into_avt(entries.take(name))
}

/// The name that the attribute of this name is. It is taken out of the entries.
pub fn take_name(entries: &mut Entries, name: &str) -> Option<Expanded>
    ensures taken { result ≡ at name_in (chars name.now) (entries_in entries.old) }
    ensures others { Keeps (chars name.now) (entries_in entries.old) (entries_in entries.new) }
{
    into_name(entries.take(name))
}

/// The expression that the attribute of this name is, or `.` without one. Want of memory alone is an error.
pub fn expr_at(alloc: Global, entries: &mut Entries, name: &str) -> Result<Expr, Memory>
    ensures taken { IfOk result (λ e. expr_of e ≡ spec.expr_at (chars name.now) (entries_in entries.old)) }
    ensures others { Keeps (chars name.now) (entries_in entries.old) (entries_in entries.new) }
{
    or_itself(alloc, take_expr(entries, name))
}

/// The value template that the attribute of this name is, or the default without one.
pub(crate) fn avt_at(
    alloc: Global,
    entries: &mut Entries,
    name: &str,
    default: &str,
) -> Result<Avt, Memory>
    ensures taken { IfOk result (λ a. avt_of a ≡ spec.avt_at (chars name.now) (chars default.now) (entries_in entries.old)) }
    ensures others { Keeps (chars name.now) (entries_in entries.old) (entries_in entries.new) }
{
    or_fixed(alloc, take_avt(entries, name), default)
}

/// The name that the attribute of this name is, or an empty one without one.
pub fn name_at(alloc: Global, entries: &mut Entries, name: &str) -> Expanded
    ensures taken { result ≡ spec.name_at (chars name.now) (entries_in entries.old) }
    ensures others { Keeps (chars name.now) (entries_in entries.old) (entries_in entries.new) }
{
    or_nowhere(alloc, take_name(entries, name))
}

/// The names that the attribute of this name is, or none without one.
pub fn names_at(alloc: Global, entries: &mut Entries, name: &str) -> Vec<Expanded>
    ensures taken { result.items ≡ spec.sets_at (chars name.now) (entries_in entries.old) }
    ensures others { Keeps (chars name.now) (entries_in entries.old) (entries_in entries.new) }
{
    or_none(alloc, into_names(entries.take(name)))
}

/// Whether the attribute of this name is this text.
pub(crate) fn is_text_at(entries: &Entries, name: &str, text: &str) -> bool
    ensures { result ≡ spec.is_text_at (chars name.now) (chars text.now) (entries_in entries.now) }
{
    match entries.get(name) {
        None => false,
        Some(value) => match value.as_text() {
            None => false,
            Some(value) => value.is(text),
        },
    }
}
