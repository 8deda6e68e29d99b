// A world that looks everything up.
ghost use Rattle.std.specs.Prelude.{◌≡◌, IfOk, None};
ghost use Rattle.spec_document.specs.Order.{entries_of};
ghost use Rattle.spec_meaning.specs.Question as question;
ghost use Rattle.xt_syntax.specs.View.{test_of};
ghost use Rattle.xt_questions.specs.View.{answer_of, question_of};
ghost use Rattle.xt_document_world.specs.View.{truth_of};

use crate::identifier::identifier;
use std::alloc::Global;
use xp_axes::{order, step};
use xt_questions::{Answer, Given, Question, Wanted, World};
use xt_syntax::{Axis, Test};
use xt_text::{Memory, Text};
use xt_tree::{Doc, NodeRef};

/// A document, of whose tree everything is true and of keys, stylesheets and parameters nothing.
#[derive(Drop)]
pub struct PlainWorld<'a> {
    pub alloc: Global,
    pub document: &'a Doc,
}

impl<'a> World for PlainWorld<'a> {
    ghost use Rattle.std.specs.Prelude.{[], None};
    ghost use Rattle.xt_document_world.specs.View.{truth_of};

    ghost state = { λ w. record { truth = truth_of w.document.now; reads = None } };

    ghost name = { λ w. [] };

    fn ask(&mut self, question: &Question) -> Result<Answer, Memory> {
        answer(self.alloc, self.document, question)
    }

    fn see(&mut self, _wanted: &Wanted, _depth: u64, _given: &Given) -> Result<(), Memory> {
        Ok(())
    }
}

// The true answer. Questions of keys, stylesheets and parameters have none here.
fn answer(alloc: Global, document: &Doc, question: &Question) -> Result<Answer, Memory>
    ensures { IfOk result (λ a. answer_of a ≡ truth_of document.now (question_of question.now)) }
{
    match question {
        Question::Step(node, axis, test) => stepped(alloc, document, node, *axis, test),
        Question::Text(node) => text(alloc, document, node),
        Question::Name(node) => named(alloc, document, node),
        Question::Place(node) => place(alloc, document, node),
        Question::Order(nodes) => ordered(alloc, document, nodes.as_slice()),
        _ => Ok(Answer::Gone),
    }
}

fn stepped(
    alloc: Global,
    document: &Doc,
    node: &NodeRef,
    axis: Axis,
    test: &Test,
) -> Result<Answer, Memory>
    ensures { IfOk result (λ a. answer_of a ≡ truth_of document.now (question.Step node.now axis (test_of test.now))) }
{
    document.distinct_numbers();
    if !document.has(alloc, node)? {
        return Ok(Answer::Gone);
    }
    let nodes = step(alloc, document, node, axis, test)?;
    Ok(Answer::Nodes(nodes))
}

fn text(alloc: Global, document: &Doc, node: &NodeRef) -> Result<Answer, Memory>
    ensures { IfOk result (λ a. answer_of a ≡ truth_of document.now (question.Text node.now)) }
{
    document.distinct_numbers();
    if !document.has(alloc, node)? {
        return Ok(Answer::Gone);
    }
    let text = document.string_value(alloc, node)?;
    Ok(Answer::Text(text))
}

fn named(alloc: Global, document: &Doc, node: &NodeRef) -> Result<Answer, Memory>
    ensures { IfOk result (λ a. answer_of a ≡ truth_of document.now (question.Name node.now)) }
{
    document.distinct_numbers();
    if !document.has(alloc, node)? {
        return Ok(Answer::Gone);
    }
    let kind = document.kind(node);
    let name = document.name(alloc, node)?;
    let written = document.written_name(alloc, node)?;
    Ok(Answer::Named(kind, name, written))
}

fn place(alloc: Global, document: &Doc, node: &NodeRef) -> Result<Answer, Memory>
    ensures { IfOk result (λ a. answer_of a ≡ truth_of document.now (question.Place node.now)) }
{
    document.distinct_numbers();
    match document.place(alloc, node)? {
        None => Ok(Answer::Gone),
        Some(path) => {
            let text = identifier(alloc, &path, node.part)?;
            Ok(Answer::Text(text))
        }
    }
}

fn ordered(alloc: Global, document: &Doc, nodes: &[NodeRef]) -> Result<Answer, Memory>
    ensures { IfOk result (λ a. answer_of a ≡ truth_of document.now (question.Order nodes.now)) }
{
    let nodes = order(alloc, document, nodes)?;
    Ok(Answer::Nodes(nodes))
}
