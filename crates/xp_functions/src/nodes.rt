// Functions of a node-set (XPath 1.0, sections 4.1 and 4.4; XSLT 1.0, section 12.4).
ghost use Rattle.std.specs.Prelude.{◌≡◌, ℕ, pos, IfOk};
ghost use Rattle.spec_expression.specs.Number.{Whole, number_of, sum_of};
ghost use Rattle.spec_meaning.specs.Value as value;
ghost use Rattle.spec_meaning.specs.Question.{local_in, uri_in, written_in};
ghost use Rattle.spec_meaning.specs.Program.{Ask, Give, Supply, then};
ghost use Rattle.spec_meaning.specs.Convert.{given, text_at};
ghost use Rattle.spec_meaning.specs.Call.{of_first, of_nodes, summed};
ghost use Rattle.xt_tree.specs.ValueView.{value_of};
ghost use Rattle.spec_node.specs.declared.node_ref.NodeRef.{NodeRef};
ghost use Rattle.xt_questions.specs.View.{answer_of, question_of};
ghost use Rattle.xt_questions.specs.Runs.{Runs, itself};
ghost use Rattle.xp_functions.specs.Part.{asked_by, told_by};

use spec_meaning::NodesFunction;
use std::alloc::Global;
use xp_values::{count, given};
use xt_base::Num;
use xt_questions::{Answer, EvalFault, Question, World, ask_text};
use xt_text::{Memory, Text};
use xt_tree::{NodeRef, Value};

/// What is told of the first node.
#[derive(Clone, Copy)]
pub(crate) enum Part {
    /// The local part of its name.
    Local,
    /// The URI of its name's namespace.
    Uri,
    /// Its name as it is written.
    Written,
    /// The text that tells its place.
    Place,
}

/// What a function makes of a node-set.
pub(crate) fn of_nodes<W: World>(
    alloc: Global,
    function: NodesFunction,
    nodes: &[NodeRef],
    world: &mut W,
) -> Result<Value, EvalFault>
    ensures runs { (supply : Supply NodeRef) → (depth : ℕ) → Runs value_of supply depth (of_nodes function nodes.now) (W.state world.old) (W.state world.new) result }
    ensures name { W.name world.new ≡ W.name world.old }
{
    match function {
        NodesFunction::Count => count(nodes.len() as u64),
        NodesFunction::Sum => sum(alloc, nodes, world),
        NodesFunction::LocalName => of_first(alloc, Part::Local, nodes, world),
        NodesFunction::NamespaceUri => of_first(alloc, Part::Uri, nodes, world),
        NodesFunction::Name => of_first(alloc, Part::Written, nodes, world),
        NodesFunction::GenerateId => of_first(alloc, Part::Place, nodes, world),
    }
}

// The sum of the numbers of the string-values.
fn sum<W: World>(alloc: Global, nodes: &[NodeRef], world: &mut W) -> Result<Value, EvalFault>
    ensures runs { (supply : Supply NodeRef) → (depth : ℕ) → Runs value_of supply depth (summed (Whole (pos 0)) nodes.now) (W.state world.old) (W.state world.new) result }
    ensures name { W.name world.new ≡ W.name world.old }
{
    let mut total = zero();
    for node in nodes {
        total = plus_node(alloc, total, *node, world)?;
    }
    Ok(Value::Number(total))
}

fn zero() -> Num
    ensures { result ≡ Whole (pos 0) }
{
    match Num::whole(0) {
        Ok(zero) => zero,
        Err(_) => Num::nan(),
    }
}

// The total with the number of a node's string-value.
fn plus_node<W: World>(
    alloc: Global,
    total: Num,
    node: NodeRef,
    world: &mut W,
) -> Result<Num, EvalFault>
    ensures runs { (supply : Supply NodeRef) → (depth : ℕ) → Runs itself supply depth (then (text_at node) (λ t. then (given (number_of t)) (λ a. given (sum_of total a)))) (W.state world.old) (W.state world.new) result }
    ensures name { W.name world.new ≡ W.name world.old }
{
    let text = ask_text(alloc, world, node)?;
    let number = given(Num::read(text.as_str()))?;
    given(total.add(number))
}

// What is told of the first node, and nothing where there is none.
fn of_first<W: World>(
    alloc: Global,
    part: Part,
    nodes: &[NodeRef],
    world: &mut W,
) -> Result<Value, EvalFault>
    ensures runs { (supply : Supply NodeRef) → (depth : ℕ) → Runs value_of supply depth (of_first (asked_by part) (told_by part) nodes.now) (W.state world.old) (W.state world.new) result }
    ensures name { W.name world.new ≡ W.name world.old }
{
    match nodes {
        [] => Ok(Value::Text(Text::new(alloc))),
        [node, ..] => of_node(alloc, part, *node, world),
    }
}

// What is told of a node.
fn of_node<W: World>(
    alloc: Global,
    part: Part,
    node: NodeRef,
    world: &mut W,
) -> Result<Value, EvalFault>
    ensures runs { (supply : Supply NodeRef) → (depth : ℕ) → Runs value_of supply depth (Ask (asked_by part node) (λ a. Give (value.Text (told_by part a)))) (W.state world.old) (W.state world.new) result }
    ensures name { W.name world.new ≡ W.name world.old }
{
    let question = asked_by(part, node);
    let asked = world.ask(&question);
    drop(question);
    let answer = asked?;
    let text = told_by(alloc, part, answer)?;
    Ok(Value::Text(text))
}

fn asked_by(part: Part, node: NodeRef) -> Question
    ensures { question_of result ≡ asked_by part node }
{
    match part {
        Part::Local => Question::Name(node),
        Part::Uri => Question::Name(node),
        Part::Written => Question::Name(node),
        Part::Place => Question::Place(node),
    }
}

// What of the answer is told, and nothing where it is of another kind.
fn told_by(alloc: Global, part: Part, answer: Answer) -> Result<Text, Memory>
    ensures { IfOk result (λ text. text ≡ told_by part (answer_of answer)) }
{
    match part {
        Part::Local => {
            let text = local_in(alloc, &answer);
            drop(answer);
            text
        }
        Part::Uri => {
            let text = uri_in(alloc, &answer);
            drop(answer);
            text
        }
        Part::Written => Ok(written_in(alloc, answer)),
        Part::Place => Ok(answer.into_text(alloc)),
    }
}

fn local_in(alloc: Global, answer: &Answer) -> Result<Text, Memory>
    ensures { IfOk result (λ text. text ≡ local_in (answer_of answer.now)) }
{
    match answer {
        Answer::Named(_, name, _) => match name {
            Some(name) => name.local().copy(alloc),
            None => Ok(Text::new(alloc)),
        },
        _ => Ok(Text::new(alloc)),
    }
}

fn uri_in(alloc: Global, answer: &Answer) -> Result<Text, Memory>
    ensures { IfOk result (λ text. text ≡ uri_in (answer_of answer.now)) }
{
    match answer {
        Answer::Named(_, name, _) => match name {
            Some(name) => name.uri().copy(alloc),
            None => Ok(Text::new(alloc)),
        },
        _ => Ok(Text::new(alloc)),
    }
}

fn written_in(alloc: Global, answer: Answer) -> Text
    ensures { result ≡ written_in (answer_of answer) }
{
    match answer {
        Answer::Named(_, name, written) => {
            drop(name);
            written
        }
        other => {
            drop(other);
            Text::new(alloc)
        }
    }
}
