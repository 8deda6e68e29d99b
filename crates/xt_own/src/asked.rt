// The questions among what was read.
ghost use Rattle.std.specs.Prelude.{◌≡◌, ◌++◌, ◌∷◌, [], true, List, IfOk, IfSome, OnOk, map};
ghost use Rattle.spec_meaning.specs.Program as program;
ghost use Rattle.spec_node.specs.declared.node_ref.NodeRef.{NodeRef};
ghost use Rattle.xt_questions.specs.View.{question_of, read_of};
ghost use Rattle.xt_spared.specs.View.{Ask, questions_of};
ghost use Rattle.xt_own.specs.Keys.{AgreeOn};
ghost use Rattle.xt_own.specs.View.{AreAsked, is_of_source};

use std::alloc::Global;
use xt_questions::{Question, Read};
use xt_text::Memory;
use xt_tree::NodeRef;

/// The questions among what was read, each once as long as they are few. None where one of them asks more than the source
/// and its keys answer.
pub(crate) fn questions_asked(
    alloc: Global,
    reads: &[Read],
) -> Result<Option<Vec<Question>>, Memory>
    ensures { IfOk result (λ o. IfSome o (λ questions. AreAsked (questions_of questions.items) (map read_of reads.now))) }
{
    let mut questions = Vec::new(alloc);
    for read in reads {
        let is_told = add_read(alloc, &mut questions, read)?;
        if !is_told {
            return Ok(None);
        }
    }
    Ok(Some(questions))
}

// Adds the question, where it was one that was read, and says whether the source answers it.
fn add_read(alloc: Global, questions: &mut Vec<Question>, read: &Read) -> Result<bool, Memory>
    ensures { IfOk result (λ b. b ≡ true → (reads : List (program.Read NodeRef)) → AreAsked (questions_of questions.old.items) reads
        → AreAsked (questions_of questions.new.items) (reads ++ read_of read.now ∷ [])) }
{
    match read {
        Read::Saw(_, _, _) => Ok(true),
        Read::Asked(question, _) => add_asked(alloc, questions, question),
    }
}

fn add_asked(
    alloc: Global,
    questions: &mut Vec<Question>,
    question: &Question,
) -> Result<bool, Memory>
    ensures { IfOk result (λ b. b ≡ true → (is_of_source (question_of question.now) ≡ true) × ((other was : Ask) → AgreeOn other was (questions_of questions.new.items)
        → AgreeOn other was (questions_of questions.old.items) × (other (question_of question.now) ≡ was (question_of question.now)))) }
{
    if !is_of_source(question) {
        return Ok(false);
    }
    add(alloc, questions, question)?;
    Ok(true)
}

// Adds the question, unless it is there already.
fn add(alloc: Global, questions: &mut Vec<Question>, question: &Question) -> Result<(), Memory>
    ensures { OnOk result ((other was : Ask) → AgreeOn other was (questions_of questions.new.items)
        → AgreeOn other was (questions_of questions.old.items) × (other (question_of question.now) ≡ was (question_of question.now))) }
{
    if is_known(questions.as_slice(), question) {
        return Ok(());
    }
    questions.push(question.copy(alloc)?)?;
    Ok(())
}

// Where it says so, the question is among these. Many are not looked through.
fn is_known(questions: &[Question], question: &Question) -> bool
    ensures { result ≡ true → (other was : Ask) → AgreeOn other was (questions_of questions.now) → other (question_of question.now) ≡ was (question_of question.now) }
{
    questions.len() <= 64 && is_among(questions, question)
}

fn is_among(questions: &[Question], question: &Question) -> bool
    ensures { result ≡ true → (other was : Ask) → AgreeOn other was (questions_of questions.now) → other (question_of question.now) ≡ was (question_of question.now) }
{
    for known in questions {
        if is_same(known, question) {
            return true;
        }
    }
    false
}

// Where it says so, both are the same question.
fn is_same(one: &Question, other: &Question) -> bool
    ensures { result ≡ true → question_of one.now ≡ question_of other.now }
{
    match (one, other) {
        (Question::Step(node, axis, test), Question::Step(other_node, other_axis, other_test)) => {
            node == other_node && axis == other_axis && test.same(other_test)
        }
        (Question::Text(node), Question::Text(other)) => node == other,
        (Question::Name(node), Question::Name(other)) => node == other,
        (Question::Place(node), Question::Place(other)) => node == other,
        (Question::Order(nodes), Question::Order(others)) => {
            same_nodes(nodes.as_slice(), others.as_slice())
        }
        (Question::Key(name, text), Question::Key(other_name, other_text)) => {
            name.same(other_name) && text.same(other_text)
        }
        _ => false,
    }
}

fn same_nodes(nodes: &[NodeRef], others: &[NodeRef]) -> bool
    ensures { result ≡ true → nodes.now ≡ others.now }
{
    nodes == others
}

// Whether the source and its keys answer it.
fn is_of_source(question: &Question) -> bool
    ensures { result ≡ is_of_source (question_of question.now) }
{
    match question {
        Question::Step(_, _, _) => true,
        Question::Text(_) => true,
        Question::Name(_) => true,
        Question::Place(_) => true,
        Question::Order(_) => true,
        Question::Key(_, _) => true,
        Question::Choice(_, _, _) => false,
        Question::Copy(_) => false,
        Question::Unit(_) => false,
        Question::External(_) => false,
    }
}
