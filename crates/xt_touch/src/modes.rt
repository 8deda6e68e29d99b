// Modes in which the choice of a template rule asks more than what nodes are called.
ghost use Rattle.std.specs.Prelude.{◌≡◌, ◌==◌, true, false, length, IfOk, List, [], ◌∷◌, ◌++◌, Option, OnOk, map};
ghost use Rattle.std.specs.List.{list_all};
ghost use Rattle.spec_document.specs.Name as name;
ghost use Rattle.spec_expression.specs.Syntax.{exprs};
ghost use Rattle.spec_stylesheet.specs.Sheet as sheet;
ghost use Rattle.spec_touch.specs.Plain as spec;
ghost use Rattle.spec_touch.specs.Plain.{AreAsking, are_plain_in, is_mode_among};
ghost use Rattle.spec_transform.specs.Choice as choice;
ghost use Rattle.xt_syntax.specs.PartView.{alternative_of, pattern_of, pattern_step_of};
ghost use Rattle.xt_syntax.specs.SheetView.{rule_of};
ghost use Rattle.xt_syntax.specs.View.{expr_of};
ghost use Rattle.xt_touch.specs.Asked.{AreAllAsking};

use std::alloc::Global;
use std::marker::Model;
use xt_names::{Expanded, copy_name_if};
use xt_syntax::{Alternative, Expr, Pattern, PatternStep, Rule, Start};
use xt_text::Memory;

/// Modes of template rules (XSLT 1.0, section 5.7). Contracts see a list of them.
#[derive(Drop)]
pub struct Modes {
    list: Vec<Option<Expanded>>,
}

impl Model for Modes {
    ghost use Rattle.std.specs.Prelude.{List, Option};
    ghost use Rattle.spec_document.specs.Name as name;

    ghost Value = { List (Option name.Expanded) };

    ghost view = { λ m. m.list.items };
}

impl Modes {
    /// The modes of those of these rules whose patterns have a predicate or key(), each once.
    pub fn asking(alloc: Global, rules: &[Rule]) -> Result<Modes, Memory>
        ensures whole { IfOk result (λ modes. AreAsking modes (map rule_of rules.now)) }
        ensures each { IfOk result (λ modes. (mode : Option name.Expanded) → is_mode_among modes mode ≡ true → are_plain_in mode (map rule_of rules.now) ≡ false) }
    {
        let mut list = Vec::new(alloc);
        for rule in rules {
            push_if_asking(alloc, &mut list, rule)?;
        }
        Ok(Modes { list })
    }

    /// Whether there are none. Takes no memory.
    pub fn is_empty(&self) -> bool
        ensures { result ≡ (length self.now == 0) }
    {
        self.list.is_empty()
    }

    /// Whether the mode is one of them. Takes no memory.
    pub fn has(&self, mode: &Option<Expanded>) -> bool
        ensures { result ≡ spec.is_mode_among self.now mode.now }
    {
        is_among(self.list.as_slice(), mode)
    }
}

fn is_among(modes: &[Option<Expanded>], mode: &Option<Expanded>) -> bool
    ensures { result ≡ spec.is_mode_among modes.now mode.now }
{
    for other in modes {
        if same_mode(mode, other) {
            return true;
        }
    }
    false
}

// Adds the mode of the rule where its pattern has a predicate or key(), unless it is there already.
fn push_if_asking(
    alloc: Global,
    list: &mut Vec<Option<Expanded>>,
    rule: &Rule,
) -> Result<(), Memory>
    ensures { OnOk result ((rules : List sheet.Rule) → AreAllAsking list.old.items rules
        → AreAllAsking list.new.items (rules ++ rule_of rule.now ∷ [])) }
{
    if is_plain_pattern(&rule.pattern) {
        return Ok(());
    }
    if is_among(list.as_slice(), &rule.mode) {
        return Ok(());
    }
    list.push(copy_name_if(alloc, &rule.mode)?)?;
    Ok(())
}

fn same_mode(mode: &Option<Expanded>, other: &Option<Expanded>) -> bool
    ensures { result ≡ choice.same_mode mode.now other.now }
{
    match (mode, other) {
        (None, None) => true,
        (Some(mode), Some(other)) => mode.same(other),
        _ => false,
    }
}

// Whether what a node and the nodes above it are called says whether it matches.
fn is_plain_pattern(pattern: &Pattern) -> bool
    ensures { result ≡ spec.is_plain_pattern (pattern_of pattern.now) }
{
    for alternative in &pattern.alternatives {
        if !is_plain_alternative(alternative) {
            return false;
        }
    }
    true
}

fn is_plain_alternative(alternative: &Alternative) -> bool
    ensures { result ≡ spec.is_plain_alternative (alternative_of alternative.now) }
{
    is_plain_start(&alternative.start) && are_plain_steps(alternative.steps.as_slice())
}

fn is_plain_start(start: &Start) -> bool
    ensures { result ≡ spec.is_plain_start start.now }
{
    match start {
        Start::Anywhere => true,
        Start::Root => true,
        Start::Id(_) => true,
        Start::Key(_, _) => false,
    }
}

fn are_plain_steps(steps: &[PatternStep]) -> bool
    ensures { result ≡ list_all spec.is_plain_step (map pattern_step_of steps.now) }
{
    for step in steps {
        if !is_plain_step(step) {
            return false;
        }
    }
    true
}

fn is_plain_step(step: &PatternStep) -> bool
    ensures { result ≡ spec.is_plain_step (pattern_step_of step.now) }
{
    are_none(step.step.predicates.as_slice())
}

fn are_none(predicates: &[Expr]) -> bool
    ensures { result ≡ spec.are_none (exprs (map expr_of predicates.now)) }
{
    predicates.is_empty()
}
