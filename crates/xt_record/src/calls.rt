// What calls have in common.
ghost use Rattle.std.specs.Prelude.{◌≡◌, true, IfOk};
ghost use Rattle.std.specs.Bool.{Decides};
ghost use Rattle.xt_tree.specs.ValueView.{value_of};
ghost use Rattle.xt_syntax.specs.PartView.{place_of};
ghost use Rattle.xt_questions.specs.View.{bindings_of};
ghost use Rattle.xt_engine.specs.View.{call_of, ruling_of, target_of};

use crate::same::{same_name_if, same_rule_if, same_value};
use std::alloc::Global;
use xt_engine::{Call, Ruling, Target};
use xt_questions::{Binding, Bindings};
use xt_text::Memory;

/// Where it says so, both are the same call.
pub fn same_call(alloc: Global, call: &Call, other: &Call) -> Result<bool, Memory>
    ensures { IfOk result (λ b. b ≡ true → call_of call.now ≡ call_of other.now) }
{
    if !same_way(call, other) {
        return Ok(false);
    }
    same_bindings(alloc, &call.parameters, &other.parameters)
}

// Where it says so, the calls are the same but for their parameters.
fn same_way(call: &Call, other: &Call) -> bool
    ensures target { result ≡ true → target_of call.now.target ≡ target_of other.now.target }
    ensures node { result ≡ true → call.now.node ≡ other.now.node }
    ensures position { result ≡ true → call.now.position ≡ other.now.position }
    ensures size { result ≡ true → call.now.size ≡ other.now.size }
    ensures ruling { result ≡ true → ruling_of call.now.ruling ≡ ruling_of other.now.ruling }
    ensures by { result ≡ true → place_of call.now.by ≡ place_of other.now.by }
{
    same_target(&call.target, &other.target)
        && call.node == other.node
        && call.position == other.position
        && call.size == other.size
        && same_ruling(&call.ruling, &other.ruling)
        && call.by.same(&other.by)
}

/// Whether both are the same unit, or built-in rules in the same mode.
pub(crate) fn same_target(target: &Target, other: &Target) -> bool
    ensures { Decides result (target_of target.now ≡ target_of other.now) }
{
    match (target, other) {
        (Target::Unit(element), Target::Unit(other)) => element == other,
        (Target::BuiltIn(mode), Target::BuiltIn(other)) => same_name_if(mode, other),
        _ => false,
    }
}

// Whether both give the same current template rule.
fn same_ruling(ruling: &Ruling, other: &Ruling) -> bool
    ensures { Decides result (ruling_of ruling.now ≡ ruling_of other.now) }
{
    match (ruling, other) {
        (Ruling::Same, Ruling::Same) => true,
        (Ruling::Is(rule), Ruling::Is(other)) => same_rule_if(rule, other),
        _ => false,
    }
}

// Where it says so, both have the same names and values, one by one.
fn same_bindings(alloc: Global, bindings: &Bindings, others: &Bindings) -> Result<bool, Memory>
    ensures { IfOk result (λ b. b ≡ true → bindings_of bindings.now ≡ bindings_of others.now) }
{
    match (bindings, others) {
        (Bindings::Empty, Bindings::Empty) => Ok(true),
        (Bindings::More(binding), Bindings::More(other)) => {
            if !same_binding(alloc, binding, other)? {
                return Ok(false);
            }
            same_bindings(alloc, &binding.outer, &other.outer)
        }
        _ => Ok(false),
    }
}

// Where it says so, both have the same name and the same value.
fn same_binding(alloc: Global, binding: &Binding, other: &Binding) -> Result<bool, Memory>
    ensures name { IfOk result (λ b. b ≡ true → binding.now.name ≡ other.now.name) }
    ensures value { IfOk result (λ b. b ≡ true → value_of binding.now.value ≡ value_of other.now.value) }
{
    if !binding.name.same(&other.name) {
        return Ok(false);
    }
    same_value(alloc, &binding.value, &other.value)
}
