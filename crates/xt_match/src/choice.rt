// The choice of a template rule (XSLT 1.0, sections 5.5 and 5.6).
ghost use Rattle.std.specs.Prelude.{◌≡◌, IfOk, map, slice_get};
ghost use Rattle.spec_meaning.specs.Supplies.{at_hand};
ghost use Rattle.spec_transform.specs.Choice as definition;
ghost use Rattle.spec_node.specs.Naming.{same_ref};
ghost use Rattle.xt_syntax.specs.SheetView.{rule_of, rules_of};
ghost use Rattle.xt_questions.specs.View.{answer_of, candidates_of, context_of, supplies_of};
ghost use Rattle.xt_questions.specs.Runs.{Runs, itself};
ghost use Rattle.xt_match.specs.Context.{IsContextOf, units_in};
ghost use Rattle.xt_match.specs.Fitting as trying;
ghost use Rattle.xt_match.specs.Fitting.{IsCalled};

use crate::called::{CalledKey, key_of, same_name_if};
use crate::fitting::fitting_numbers;
use crate::pattern::{ask_called, matches_one};
use crate::table::RuleTable;
use std::alloc::Global;
use std::rc::Rc;
use xt_names::{Expanded, Scope};
use xt_questions::{
    Answer, Bindings, Candidates, Context, EvalFault, Evaluate, ResolvedUnit, Supplies,
};
use xt_syntax::Rule;
use xt_text::Memory;
use xt_tree::NodeRef;

fn is_candidate(candidates: Candidates, precedence: u64) -> bool
    ensures { result ≡ definition.is_candidate (candidates_of candidates) precedence }
{
    match candidates {
        Candidates::AllRules => true,
        Candidates::Imported { first, last } => first <= precedence && precedence < last,
    }
}

fn may_be_chosen(mode: &Option<Expanded>, candidates: Candidates, rule: &Rule) -> bool
    ensures { result ≡ definition.may_be_chosen mode.now (candidates_of candidates) (rule_of rule.now) }
{
    same_name_if(mode, &rule.mode) && is_candidate(candidates, rule.precedence)
}

// The namespaces in scope at the template of a rule.
fn scope_for(alloc: Global, units: &[Rc<ResolvedUnit>], rule: &Rule) -> Result<Scope, Memory>
    ensures { IfOk result (λ scope. scope ≡ definition.scope_for (units_in units.now) (rule_of rule.now)) }
{
    match units.get(rule.unit as usize) {
        Some(resolved) => resolved.unit.site.scope.copy(),
        None => Scope::root(alloc),
    }
}

// Where the pattern of a rule stands.
fn context_for(
    alloc: Global,
    units: &[Rc<ResolvedUnit>],
    rule: &Rule,
    node: NodeRef,
) -> Result<Context, Memory>
    ensures { IfOk result (IsContextOf (units_in units.now) (rule_of rule.now) node) }
{
    let scope = scope_for(alloc, units, rule)?;
    Ok(Context {
        current: node,
        bindings: Bindings::Empty,
        scope,
        depth: 0,
    })
}

// Whether a rule is a candidate that a node which is called so matches.
fn is_chosen<W: Evaluate>(
    alloc: Global,
    rule: &Rule,
    units: &[Rc<ResolvedUnit>],
    node: NodeRef,
    called: &Answer,
    mode: &Option<Expanded>,
    candidates: Candidates,
    supplies: &Supplies,
    world: &mut W,
) -> Result<bool, EvalFault>
    ensures runs { Runs itself (at_hand (supplies_of supplies.now) 0) 0 (definition.is_chosen same_ref (definition.context_for (units_in units.now) node) mode.now (candidates_of candidates) (rule_of rule.now) node (answer_of called.now)) (W.state world.old) (W.state world.new) result }
    ensures name { W.name world.new ≡ W.name world.old }
{
    if may_be_chosen(mode, candidates, rule) {
        let context = context_for(alloc, units, rule, node)?;
        let alternatives = rule.pattern.alternatives.as_slice();
        let matches = matches_one(alloc, alternatives, node, called, &context, supplies, world);
        drop(context);
        matches
    } else {
        Ok(false)
    }
}

// The number of the first rule that a node which is called so matches.
fn first_that_matches<W: Evaluate>(
    alloc: Global,
    rules: &[Rule],
    units: &[Rc<ResolvedUnit>],
    node: NodeRef,
    called: &Answer,
    mode: &Option<Expanded>,
    candidates: Candidates,
    supplies: &Supplies,
    world: &mut W,
) -> Result<Option<u64>, EvalFault>
    ensures runs { Runs itself (at_hand (supplies_of supplies.now) 0) 0 (definition.first_that_matches same_ref (definition.context_for (units_in units.now) node) mode.now (candidates_of candidates) 0 (map rule_of rules.now) node (answer_of called.now)) (W.state world.old) (W.state world.new) result }
    ensures name { W.name world.new ≡ W.name world.old }
{
    for (number, rule) in rules.iter().enumerate() {
        let is_chosen = is_chosen(
            alloc, rule, units, node, called, mode, candidates, supplies, world,
        )?;
        if is_chosen {
            return Ok(Some(number as u64));
        }
    }
    Ok(None)
}

// Whether the rule of this number is such a one.
fn is_one_chosen<W: Evaluate>(
    alloc: Global,
    rules: &[Rule],
    number: u64,
    units: &[Rc<ResolvedUnit>],
    node: NodeRef,
    called: &Answer,
    mode: &Option<Expanded>,
    candidates: Candidates,
    supplies: &Supplies,
    world: &mut W,
) -> Result<bool, EvalFault>
    ensures runs { Runs itself (at_hand (supplies_of supplies.now) 0) 0 (trying.is_one_chosen same_ref (definition.context_for (units_in units.now) node) mode.now (candidates_of candidates) (slice_get (map rule_of rules.now) number) node (answer_of called.now)) (W.state world.old) (W.state world.new) result }
    ensures name { W.name world.new ≡ W.name world.old }
{
    match rules.get(number as usize) {
        None => Ok(false),
        Some(rule) => is_chosen(
            alloc, rule, units, node, called, mode, candidates, supplies, world,
        ),
    }
}

// The first of these numbers whose rule a node that is called so matches.
fn first_among<W: Evaluate>(
    alloc: Global,
    rules: &[Rule],
    numbers: &[u64],
    units: &[Rc<ResolvedUnit>],
    node: NodeRef,
    called: &Answer,
    mode: &Option<Expanded>,
    candidates: Candidates,
    supplies: &Supplies,
    world: &mut W,
) -> Result<Option<u64>, EvalFault>
    ensures runs { Runs itself (at_hand (supplies_of supplies.now) 0) 0 (trying.first_among same_ref (definition.context_for (units_in units.now) node) mode.now (candidates_of candidates) (map rule_of rules.now) numbers.now node (answer_of called.now)) (W.state world.old) (W.state world.new) result }
    ensures name { W.name world.new ≡ W.name world.old }
{
    for number in numbers {
        let is_chosen = is_one_chosen(
            alloc, rules, *number, units, node, called, mode, candidates, supplies, world,
        )?;
        if is_chosen {
            return Ok(Some(*number));
        }
    }
    Ok(None)
}

// The number of the first rule that a node which is called so matches. The table has no list for what it is called.
fn first_anew<'a, W: Evaluate>(
    alloc: Global,
    table: &mut RuleTable<'a>,
    key: CalledKey,
    units: &[Rc<ResolvedUnit>],
    node: NodeRef,
    called: &Answer,
    mode: &Option<Expanded>,
    candidates: Candidates,
    supplies: &Supplies,
    world: &mut W,
) -> Result<Option<u64>, EvalFault>
    requires mode { key.mode ≡ mode.now }
    requires called { IsCalled (answer_of called.now) key.kind key.name }
    ensures runs { Runs itself (at_hand (supplies_of supplies.now) 0) 0 (definition.first_that_matches same_ref (definition.context_for (units_in units.now) node) mode.now (candidates_of candidates) 0 (rules_of table.old.rules.now).rules node (answer_of called.now)) (W.state world.old) (W.state world.new) result }
    ensures name { W.name world.new ≡ W.name world.old }
    ensures same { table.new.rules.now ≡ table.old.rules.now }
{
    let rules = table.rules.rules.as_slice();
    let numbers = fitting_numbers(alloc, &key, rules)?;
    let chosen = first_among(
        alloc,
        rules,
        numbers.as_slice(),
        units,
        node,
        called,
        mode,
        candidates,
        supplies,
        world,
    );
    match table.keep(key, numbers) {
        Ok(()) => chosen,
        Err(_) => {
            drop(chosen);
            Err(EvalFault::Memory)
        }
    }
}

// The same by the table, whether or not it has a list for what the node is called.
fn first_in_table<'a, W: Evaluate>(
    alloc: Global,
    table: &mut RuleTable<'a>,
    key: CalledKey,
    units: &[Rc<ResolvedUnit>],
    node: NodeRef,
    called: &Answer,
    mode: &Option<Expanded>,
    candidates: Candidates,
    supplies: &Supplies,
    world: &mut W,
) -> Result<Option<u64>, EvalFault>
    requires mode { key.mode ≡ mode.now }
    requires called { IsCalled (answer_of called.now) key.kind key.name }
    ensures runs { Runs itself (at_hand (supplies_of supplies.now) 0) 0 (definition.first_that_matches same_ref (definition.context_for (units_in units.now) node) mode.now (candidates_of candidates) 0 (rules_of table.old.rules.now).rules node (answer_of called.now)) (W.state world.old) (W.state world.new) result }
    ensures name { W.name world.new ≡ W.name world.old }
    ensures same { table.new.rules.now ≡ table.old.rules.now }
{
    let rules = table.rules.rules.as_slice();
    match table.lists.get(&key) {
        Some(numbers) => first_among(
            alloc,
            rules,
            numbers.as_slice(),
            units,
            node,
            called,
            mode,
            candidates,
            supplies,
            world,
        ),
        None => first_anew(
            alloc, table, key, units, node, called, mode, candidates, supplies, world,
        ),
    }
}

// The number of the first rule that a node which is called so matches.
fn first_for<'a, W: Evaluate>(
    alloc: Global,
    table: &mut RuleTable<'a>,
    units: &[Rc<ResolvedUnit>],
    node: NodeRef,
    called: &Answer,
    mode: &Option<Expanded>,
    candidates: Candidates,
    supplies: &Supplies,
    world: &mut W,
) -> Result<Option<u64>, EvalFault>
    ensures runs { Runs itself (at_hand (supplies_of supplies.now) 0) 0 (definition.first_that_matches same_ref (definition.context_for (units_in units.now) node) mode.now (candidates_of candidates) 0 (rules_of table.old.rules.now).rules node (answer_of called.now)) (W.state world.old) (W.state world.new) result }
    ensures name { W.name world.new ≡ W.name world.old }
    ensures same { table.new.rules.now ≡ table.old.rules.now }
{
    match called {
        Answer::Named(kind, name, _) => {
            let key = key_of(alloc, mode, *kind, name)?;
            first_in_table(
                alloc, table, key, units, node, called, mode, candidates, supplies, world,
            )
        }
        _ => first_that_matches(
            alloc,
            table.rules.rules.as_slice(),
            units,
            node,
            called,
            mode,
            candidates,
            supplies,
            world,
        ),
    }
}

/// The number of the template rule for the node, among the candidates of the mode: of the first that matches,
/// where the rules stand ranked, the greatest first. Without one it is a built-in rule (XSLT 1.0, section
/// 5.8). The units are those of the stylesheet: a pattern is asked with the namespaces in scope at the template
/// of its rule, and with the node as the current one. Rules that match no node which is called so are not tried.
/// An error is want of memory, or the first global that is needed and was not given.
pub fn choose<'a, W: Evaluate>(
    alloc: Global,
    table: &mut RuleTable<'a>,
    units: &[Rc<ResolvedUnit>],
    node: NodeRef,
    mode: &Option<Expanded>,
    candidates: Candidates,
    supplies: &Supplies,
    world: &mut W,
) -> Result<Option<u64>, EvalFault>
    ensures runs { Runs itself (at_hand (supplies_of supplies.now) 0) 0 (definition.chosen same_ref (definition.context_for (units_in units.now) node) node mode.now (candidates_of candidates) (rules_of table.old.rules.now).rules) (W.state world.old) (W.state world.new) result }
    ensures name { W.name world.new ≡ W.name world.old }
    ensures same { table.new.rules.now ≡ table.old.rules.now }
{
    let called = ask_called(world, node)?;
    let chosen = first_for(
        alloc, table, units, node, &called, mode, candidates, supplies, world,
    );
    drop(called);
    chosen
}
