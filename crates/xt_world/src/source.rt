// A source with the keys of a stylesheet.
ghost use Rattle.std.specs.Prelude.{◌≡◌, ◌++◌, ◌∷◌, [], IfOk, OnErr, OnOk};
ghost use Rattle.xt_syntax.specs.View.{expr_of};
ghost use Rattle.xt_questions.specs.View.{answer_of, question_of};
ghost use Rattle.xt_match.specs.Context.{units_in};
ghost use Rattle.xt_document_world.specs.View.{truth_of};
ghost use Rattle.xt_world.specs.KeyView.{keyed_in};
ghost use Rattle.xt_world.specs.SourceView.{keyed_by, source_in};

use crate::Stylesheet;
use crate::found::{Found, FoundKeys, answer_found, find, found_for};
use std::alloc::Global;
use xp_eval::eval;
use xt_document_world::PlainWorld;
use xt_names::{Expanded, copy_name};
use xt_questions::{
    Answer, Context, EvalFault, Evaluate, Focus, Given, Question, Supplies, Wanted, World,
};
use xt_syntax::Expr;
use xt_text::{Memory, Text};
use xt_tree::{Doc, Value};

/// A source with the keys of a stylesheet. The keys of a name are found when they are first asked for, and kept:
/// all their values for all nodes.
#[derive(Drop)]
pub struct Source<'a> {
    pub alloc: Global,
    pub document: &'a Doc,
    pub stylesheet: &'a Stylesheet,
    pub keys: Vec<FoundKeys>,
}

impl<'a> Source<'a> {
    ghost use Rattle.std.specs.Prelude.{◌≡◌, []};
    ghost use Rattle.xt_world.specs.SourceView.{source_in, source_of};

    /// This source with the keys of this stylesheet, of which none were found yet. Takes no memory.
    pub fn new(alloc: Global, document: &'a Doc, stylesheet: &'a Stylesheet) -> Source<'a>
        ensures { source_of result ≡ source_in stylesheet.now document.now [] }
    {
        Source {
            alloc,
            document,
            stylesheet,
            keys: Vec::new(alloc),
        }
    }
}

impl<'a> World for Source<'a> {
    ghost use Rattle.std.specs.Prelude.{[], None};
    ghost use Rattle.xt_world.specs.SourceView.{source_in};

    ghost state = { λ w. record { truth = source_in w.stylesheet.now w.document.now w.keys.items; reads = None } };

    ghost name = { λ w. [] };

    fn ask(&mut self, question: &Question) -> Result<Answer, Memory> {
        match question {
            Question::Key(name, text) => keyed(
                self.alloc,
                self.document,
                self.stylesheet,
                &mut self.keys,
                name,
                text,
            ),
            _ => plain(self.alloc, self.document, question),
        }
    }

    fn see(&mut self, _wanted: &Wanted, _depth: u64, _given: &Given) -> Result<(), Memory> {
        Ok(())
    }
}

impl<'a> Evaluate for Source<'a> {
    fn value(
        &mut self,
        alloc: Global,
        expr: &Expr,
        focus: Focus,
        context: &Context,
        supplies: &Supplies,
    ) -> Result<Value, EvalFault> {
        eval(alloc, expr, focus, context, supplies, self)
    }
}

// The answer of the source's tree by itself.
fn plain(alloc: Global, document: &Doc, question: &Question) -> Result<Answer, Memory>
    ensures { IfOk result (λ a. answer_of a ≡ truth_of document.now (question_of question.now)) }
{
    let mut world = PlainWorld { alloc, document };
    world.ask(question)
}

// The nodes that have this value in the keys of this name.
fn keyed(
    alloc: Global,
    document: &Doc,
    stylesheet: &Stylesheet,
    keys: &mut Vec<FoundKeys>,
    name: &Expanded,
    text: &Text,
) -> Result<Answer, Memory>
    ensures answer { IfOk result (λ a. answer_of a ≡ keyed_by stylesheet.now document.now keys.old.items name.now text.now) }
    ensures same { source_in stylesheet.now document.now keys.new.items ≡ source_in stylesheet.now document.now keys.old.items }
{
    match found_for(keys.as_slice(), name) {
        Some(found) => answer_found(alloc, found, text),
        None => keyed_first(alloc, document, stylesheet, keys, name, text),
    }
}

// The same where the keys of this name were not sought before.
fn keyed_first(
    alloc: Global,
    document: &Doc,
    stylesheet: &Stylesheet,
    keys: &mut Vec<FoundKeys>,
    name: &Expanded,
    text: &Text,
) -> Result<Answer, Memory>
    ensures answer { IfOk result (λ a. answer_of a ≡ keyed_in (units_in stylesheet.now.units.items) document.now name.now text.now) }
    ensures same { source_in stylesheet.now document.now keys.new.items ≡ source_in stylesheet.now document.now keys.old.items }
{
    let found = find(alloc, document, stylesheet.units.as_slice(), name)?;
    let answer = answer_found(alloc, &found, text);
    match keep(alloc, keys, name, found) {
        Ok(()) => answer,
        Err(_) => {
            drop(answer);
            Err(Memory)
        }
    }
}

// Keeps what was found for the keys of this name.
fn keep(
    alloc: Global,
    keys: &mut Vec<FoundKeys>,
    name: &Expanded,
    found: Found,
) -> Result<(), Memory>
    ensures ok { OnOk result (keys.new.items ≡ keys.old.items ++ (record { name = name.now; found = found }) ∷ []) }
    ensures err { OnErr result (keys.new.items ≡ keys.old.items) }
{
    let Ok(name) = copy_name(alloc, name) else {
        drop(found);
        return Err(Memory);
    };
    keys.push(FoundKeys { name, found })?;
    Ok(())
}
