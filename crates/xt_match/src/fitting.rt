// Which rules may match a node by what it is called alone.
ghost use Rattle.std.specs.Prelude.{◌≡◌, ◌++◌, ◌∷◌, [], map, reverse, IfOk, OnOk, if◌then◌else◌};
ghost use Rattle.std.specs.List.{list_any};
ghost use Rattle.xt_syntax.specs.PartView.{alternative_of, pattern_step_of};
ghost use Rattle.xt_syntax.specs.SheetView.{rule_of};
ghost use Rattle.xt_syntax.specs.View.{step_of, test_of};
ghost use Rattle.xt_match.specs.Fitting as spec;
ghost use Rattle.xt_match.specs.Tabled.{called_of};

use crate::called::{CalledKey, same_name_if};
use crate::test::{is_led_to, passes_test};
use spec_document::{Axis, Kind};
use std::alloc::Global;
use xt_syntax::{Alternative, PatternStep, Rule, Start, Step, Test};
use xt_text::Memory;

// Whether an alternative without steps may match.
fn start_fits(called: &CalledKey, start: &Start) -> bool
    ensures { result ≡ spec.start_fits (called_of called.now) start.now }
{
    match start {
        Start::Anywhere => true,
        Start::Root => called.kind == Kind::Root,
        Start::Id(_) => false,
        Start::Key(_, _) => true,
    }
}

fn kind_fits(called: &CalledKey, axis: Axis, test: &Test) -> bool
    ensures { result ≡ spec.kind_fits (called_of called.now) axis (test_of test.now) }
{
    is_led_to(axis, called.kind) && passes_test(axis, test, called.kind, &called.name)
}

fn step_fits(called: &CalledKey, step: &Step) -> bool
    ensures { result ≡ spec.step_fits (called_of called.now) (step_of step.now) }
{
    kind_fits(called, step.axis, &step.test)
}

// Whether the last of these steps leads to such a node.
fn last_fits(called: &CalledKey, start: &Start, steps: &[PatternStep]) -> bool
    ensures { result ≡ spec.last_fits (called_of called.now) start.now (reverse (map pattern_step_of steps.now)) }
{
    match steps.split_last() {
        None => start_fits(called, start),
        Some((last, _)) => step_fits(called, &last.step),
    }
}

fn alternative_fits(called: &CalledKey, alternative: &Alternative) -> bool
    ensures { result ≡ spec.alternative_fits (called_of called.now) (alternative_of alternative.now) }
{
    last_fits(called, &alternative.start, alternative.steps.as_slice())
}

fn one_fits(called: &CalledKey, alternatives: &[Alternative]) -> bool
    ensures { result ≡ list_any (spec.alternative_fits (called_of called.now)) (map alternative_of alternatives.now) }
{
    for alternative in alternatives {
        if alternative_fits(called, alternative) {
            return true;
        }
    }
    false
}

// Whether a rule of the mode has such an alternative. A rule without one matches no node that is called so.
fn may_match(called: &CalledKey, rule: &Rule) -> bool
    ensures { result ≡ spec.may_match (called_of called.now) (rule_of rule.now) }
{
    same_name_if(&called.mode, &rule.mode) && one_fits(called, rule.pattern.alternatives.as_slice())
}

fn add_if(numbers: &mut Vec<u64>, number: u64, is_added: bool) -> Result<(), Memory>
    ensures { OnOk result (numbers.new.items ≡ (if is_added then numbers.old.items ++ number ∷ [] else numbers.old.items)) }
{
    if is_added {
        numbers.push(number)?;
    }
    Ok(())
}

/// The numbers of the rules that may match a node that is called so, rising.
pub(crate) fn fitting_numbers(
    alloc: Global,
    called: &CalledKey,
    rules: &[Rule],
) -> Result<Vec<u64>, Memory>
    ensures { IfOk result (λ numbers. numbers.items ≡ spec.numbers_from (called_of called.now) 0 (map rule_of rules.now)) }
{
    let mut numbers = Vec::new(alloc);
    for (number, rule) in rules.iter().enumerate() {
        let is_fitting = may_match(called, rule);
        add_if(&mut numbers, number as u64, is_fitting)?;
    }
    Ok(numbers)
}
