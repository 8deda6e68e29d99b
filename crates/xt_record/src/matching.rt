// Which records are of a call.
ghost use Rattle.std.specs.Prelude.{◌≡◌, ◌∷◌, [], IfOk, map};
ghost use Rattle.std.specs.Bool.{Decides};
ghost use Rattle.std.specs.Option.{option_map};
ghost use Rattle.xt_tree.specs.ValueView.{value_of};
ghost use Rattle.spec_meaning.specs.Context.{binding_of};
ghost use Rattle.spec_reuse.specs.Serving.{declared_by, declared_in, IsOf, PassAlike};
ghost use Rattle.xt_syntax.specs.SheetView.{declared_of};
ghost use Rattle.xt_questions.specs.View.{bindings_of};
ghost use Rattle.xt_engine.specs.View.{call_of, event_of};
ghost use Rattle.xt_record.specs.View.{kept_in};
ghost use Rattle.xt_record.specs.Names.{names_of};

use crate::Record;
use crate::calls::same_target;
use crate::same::{same_node, same_value};
use std::alloc::Global;
use xt_engine::{Call, Event};
use xt_names::Expanded;
use xt_questions::{Answer, Bindings};
use xt_syntax::{Binding, Declared};
use xt_text::Memory;
use xt_tree::Value;

/// Whether the record is of the unit, the node and the declared parameters of this call.
pub(crate) fn is_of(alloc: Global, kept: &Record, call: &Call) -> Result<bool, Memory>
    ensures { IfOk result (λ b. Decides b (IsOf (call_of call.now) (kept_in kept.now))) }
{
    if !same_target(&kept.call.target, &call.target) {
        return Ok(false);
    }
    if !same_node(kept.call.node, call.node) {
        return Ok(false);
    }
    let names = declared_of(kept);
    pass_alike(alloc, names, &kept.call.parameters, &call.parameters)
}

// The parameters that the unit of the record declares.
fn declared_of(kept: &Record) -> &[Binding]
    ensures { names_of result.now ≡ declared_in (kept_in kept.now).trace }
{
    declared(kept.ran.events.as_slice())
}

// Those of the unit for which was asked first, as each instantiation of a unit does.
fn declared(events: &[Event]) -> &[Binding]
    ensures { names_of result.now ≡ declared_in (map event_of events.now) }
{
    if events.is_empty() {
        return &[];
    }
    declared_by(&events[0])
}

// Those of the unit that is the answer, if one is.
fn declared_by(event: &Event) -> &[Binding]
    ensures { names_of result.now ≡ declared_in (event_of event.now ∷ []) }
{
    match event {
        Event::Asked(_, Answer::Resolved(unit)) => parameters_of(&unit.unit.declared),
        _ => &[],
    }
}

// Those of a template.
fn parameters_of(declared: &Declared) -> &[Binding]
    ensures { names_of result.now ≡ declared_by (declared_of declared.now) }
{
    match declared {
        Declared::Template(template) => template.parameters.as_slice(),
        _ => &[],
    }
}

// Whether the same is passed for each of these parameters.
fn pass_alike(
    alloc: Global,
    declared: &[Binding],
    parameters: &Bindings,
    others: &Bindings,
) -> Result<bool, Memory>
    ensures { IfOk result (λ b. Decides b (PassAlike (names_of declared.now) (bindings_of parameters.now) (bindings_of others.now))) }
{
    for binding in declared {
        if !passes_alike(alloc, &binding.name, parameters, others)? {
            return Ok(false);
        }
    }
    Ok(true)
}

// Whether the same is passed for the parameter of this name, or nothing both times.
fn passes_alike(
    alloc: Global,
    name: &Expanded,
    parameters: &Bindings,
    others: &Bindings,
) -> Result<bool, Memory>
    ensures { IfOk result (λ b. Decides b (binding_of name.now (bindings_of parameters.now) ≡ binding_of name.now (bindings_of others.now))) }
{
    match (value_in(parameters, name), value_in(others, name)) {
        (None, None) => Ok(true),
        (Some(value), Some(other)) => same_value(alloc, value, other),
        _ => Ok(false),
    }
}

// The value of the innermost parameter of this name, as it stands, since many records may be looked at for one call.
fn value_in<'a>(parameters: &'a Bindings, name: &Expanded) -> Option<&'a Value>
    ensures { option_map (λ v. value_of v.now) result ≡ binding_of name.now (bindings_of parameters.now) }
{
    match parameters {
        Bindings::Empty => None,
        Bindings::More(binding) => {
            if binding.name.same(name) {
                Some(&binding.value)
            } else {
                value_in(&binding.outer, name)
            }
        }
    }
}
