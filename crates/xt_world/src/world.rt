// A world of a stylesheet and a source.
ghost use Rattle.std.specs.Prelude.{◌≡◌, IfOk};
ghost use Rattle.std.specs.Option.{option_map};
ghost use Rattle.spec_meaning.specs.Program.{Gives};
ghost use Rattle.spec_meaning.specs.Question as question;
ghost use Rattle.xt_syntax.specs.SheetView.{rules_of};
ghost use Rattle.xt_questions.specs.View.{answer_of, candidates_of, chosen_of, question_of};
ghost use Rattle.xt_world.specs.ParameterView.{parameters_of};
ghost use Rattle.xt_world.specs.SourceView.{source_of};
ghost use Rattle.xt_world.specs.View.{GivesNumber, choice_with, copy_in, rule_held, rule_numbered, said_by, truth_with, unit_held};

use crate::found::FoundKeys;
use crate::source::Source;
use crate::{Parameters, Stylesheet};
use std::alloc::Global;
use xt_copy::copy_of;
use xt_match::{RuleTable, choose};
use xt_names::Expanded;
use xt_questions::{
    Answer, Candidates, ChosenRule, EvalFault, Given, Question, Supplies, Wanted, World,
};
use xt_text::{Memory, Text};
use xt_tree::{Doc, NodeRef};

/// A stylesheet, a source, and the values that parameters are given. Of what it is asked it keeps the keys, and of the
/// rules of the stylesheet which may match a node that is called so.
#[derive(Drop)]
pub struct SheetWorld<'a> {
    alloc: Global,
    document: &'a Doc,
    stylesheet: &'a Stylesheet,
    parameters: &'a Parameters,
    source: Source<'a>,
    table: RuleTable<'a>,
}

impl<'a> SheetWorld<'a> {
    ghost use Rattle.std.specs.Prelude.{◌≡◌};
    ghost use Rattle.xt_world.specs.ParameterView.{parameters_of};
    ghost use Rattle.xt_world.specs.SourceView.{AreFound};
    ghost use Rattle.xt_world.specs.View.{truth_in};
    ghost use Rattle.xt_world.specs.WorldView.{truth_at};

    /// The world of these, in which these keys were found already, if any. Takes no memory.
    pub fn new(
        alloc: Global,
        document: &'a Doc,
        stylesheet: &'a Stylesheet,
        parameters: &'a Parameters,
        keys: Vec<FoundKeys>,
    ) -> SheetWorld<'a>
        requires { AreFound stylesheet.now document.now keys.items }
        ensures { truth_at result ≡ truth_in stylesheet.now (parameters_of parameters.now) document.now }
    {
        let source = Source {
            alloc,
            document,
            stylesheet,
            keys,
        };
        let table = RuleTable::new(alloc, &stylesheet.rules);
        SheetWorld {
            alloc,
            document,
            stylesheet,
            parameters,
            source,
            table,
        }
    }
}

impl<'a> World for SheetWorld<'a> {
    ghost use Rattle.std.specs.Prelude.{[], None};
    ghost use Rattle.xt_world.specs.WorldView.{truth_at};

    ghost state = { λ w. record { truth = truth_at w; reads = None } };

    ghost name = { λ w. [] };

    fn ask(&mut self, question: &Question) -> Result<Answer, Memory> {
        answer(
            self.alloc,
            self.document,
            self.stylesheet,
            self.parameters,
            &mut self.source,
            &mut self.table,
            question,
        )
    }

    fn see(&mut self, _wanted: &Wanted, _depth: u64, _given: &Given) -> Result<(), Memory> {
        Ok(())
    }
}

/// The true answer.
fn answer<'a>(
    alloc: Global,
    document: &Doc,
    stylesheet: &Stylesheet,
    parameters: &Parameters,
    source: &mut Source<'a>,
    table: &mut RuleTable<'a>,
    question: &Question,
) -> Result<Answer, Memory>
    ensures answer { IfOk result (λ a. answer_of a ≡ truth_with (source_of source.old) (rules_of table.old.rules.now).rules stylesheet.now (parameters_of parameters.now) document.now (question_of question.now)) }
    ensures same { source_of source.new ≡ source_of source.old }
    ensures rules { table.new.rules.now ≡ table.old.rules.now }
{
    match question {
        Question::Copy(node) => copied(alloc, document, node),
        Question::Choice(node, mode, candidates) => chosen(
            alloc,
            document,
            stylesheet,
            source,
            table,
            *node,
            mode,
            *candidates,
        ),
        Question::Unit(element) => unit(stylesheet, element),
        Question::External(name) => passed(alloc, parameters, name),
        _ => of_source(source, question),
    }
}

// The answer of the source with its keys.
fn of_source<'a>(source: &mut Source<'a>, question: &Question) -> Result<Answer, Memory>
    ensures answer { IfOk result (λ a. answer_of a ≡ source_of source.old (question_of question.now)) }
    ensures same { source_of source.new ≡ source_of source.old }
{
    source.ask(question)
}

fn copied(alloc: Global, document: &Doc, node: &NodeRef) -> Result<Answer, Memory>
    ensures { IfOk result (λ a. answer_of a ≡ copy_in document.now node.now) }
{
    document.distinct_numbers();
    if !document.has(alloc, node)? {
        return Ok(Answer::Gone);
    }
    Ok(Answer::Copied(copy_of(alloc, document, node)?))
}

// A copy of the value of the parameter of this name, where one is given.
fn passed(alloc: Global, parameters: &Parameters, name: &Text) -> Result<Answer, Memory>
    ensures { IfOk result (λ a. answer_of a ≡ question.Passed (parameters_of parameters.now name.now)) }
{
    match parameters.get(name) {
        None => Ok(Answer::Passed(None)),
        Some(value) => Ok(Answer::Passed(Some(value.copy(alloc)?))),
    }
}

// The unit whose element is called so.
fn unit(stylesheet: &Stylesheet, element: &NodeRef) -> Result<Answer, Memory>
    ensures { IfOk result (λ a. answer_of a ≡ unit_held stylesheet.now element.now) }
{
    match stylesheet.unit_at(element) {
        None => Ok(Answer::Gone),
        Some(unit) => Ok(Answer::Resolved(unit.clone()?)),
    }
}

fn chosen<'a>(
    alloc: Global,
    document: &Doc,
    stylesheet: &Stylesheet,
    source: &mut Source<'a>,
    table: &mut RuleTable<'a>,
    node: NodeRef,
    mode: &Option<Expanded>,
    candidates: Candidates,
) -> Result<Answer, Memory>
    ensures answer { IfOk result (λ a. answer_of a ≡ choice_with (source_of source.old) (rules_of table.old.rules.now).rules stylesheet.now document.now node mode.now (candidates_of candidates)) }
    ensures same { source_of source.new ≡ source_of source.old }
    ensures rules { table.new.rules.now ≡ table.old.rules.now }
{
    document.distinct_numbers();
    if !document.has(alloc, &node)? {
        return Ok(Answer::Gone);
    }
    let number = rule(alloc, stylesheet, source, table, node, mode, candidates)?;
    Ok(Answer::Chosen(rule_numbered(stylesheet, number)))
}

/// The number of the rule for a node; none where it is a built-in rule.
fn rule<'a>(
    alloc: Global,
    stylesheet: &Stylesheet,
    source: &mut Source<'a>,
    table: &mut RuleTable<'a>,
    node: NodeRef,
    mode: &Option<Expanded>,
    candidates: Candidates,
) -> Result<Option<u64>, Memory>
    ensures number { IfOk result (λ number. rule_held stylesheet.now (said_by (source_of source.old) (rules_of table.old.rules.now).rules stylesheet.now node mode.now (candidates_of candidates)) ≡ rule_held stylesheet.now (Gives number)) }
    ensures same { source_of source.new ≡ source_of source.old }
    ensures rules { table.new.rules.now ≡ table.old.rules.now }
{
    let supplies = Supplies {
        position: 1,
        size: 1,
        rule: None,
        globals: Vec::new(alloc),
    };
    let units = stylesheet.units.as_slice();
    let chosen = choose(
        alloc, table, units, node, mode, candidates, &supplies, source,
    );
    number_of(chosen)
}

// No rule is chosen where the choice is refused, or needs a global.
fn number_of(chosen: Result<Option<u64>, EvalFault>) -> Result<Option<u64>, Memory>
    ensures { IfOk result (λ number. GivesNumber chosen number) }
{
    match chosen {
        Ok(number) => Ok(number),
        Err(EvalFault::Memory) => Err(Memory),
        Err(EvalFault::Refused(refusal)) => {
            drop(refusal);
            Ok(None)
        }
        Err(EvalFault::Wants(name)) => {
            drop(name);
            Ok(None)
        }
    }
}

/// The rule of this number, by the element of its template, with what its stylesheet imports.
fn rule_numbered(stylesheet: &Stylesheet, number: Option<u64>) -> Option<ChosenRule>
    ensures { option_map chosen_of result ≡ rule_numbered stylesheet.now number }
{
    let rule = stylesheet.rules.rules.get(number? as usize)?;
    let element = stylesheet.elements.get(rule.unit as usize)?;
    Some(ChosenRule {
        element: *element,
        first: rule.imported,
        last: rule.precedence,
    })
}
