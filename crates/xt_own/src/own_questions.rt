// The questions that were asked for the values of a node.
ghost use Rattle.std.specs.Prelude.{◌≡◌, ◌++◌, ◌∷◌, [], map, IfOk, OnOk, if◌then◌else◌};
ghost use Rattle.std.specs.Option.{option_map};
ghost use Rattle.spec_node.specs.Naming.{same_ref as is_same_ref};
ghost use Rattle.xt_questions.specs.View.{question_of, read_of};
ghost use Rattle.xt_spared.specs.View.{questions_of};
ghost use Rattle.xt_own.specs.Keys as keys;

use std::alloc::Global;
use xt_questions::{Question, Read};
use xt_text::Memory;
use xt_tree::NodeRef;

/// The questions among reads, but for what the node is called. None where something else is read than of the tree.
pub(crate) fn own_questions(
    alloc: Global,
    node: NodeRef,
    reads: &[Read],
) -> Result<Option<Vec<Question>>, Memory>
    ensures { IfOk result (λ o. option_map (λ questions. questions_of questions.items) o ≡ keys.own_questions node [] (map read_of reads.now)) }
{
    let mut questions = Vec::new(alloc);
    for read in reads {
        if !keep(alloc, &mut questions, node, read)? {
            return Ok(None);
        }
    }
    Ok(Some(questions))
}

// Adds the question of a read, unless it is what the node is called. Whether it asks of the tree alone.
fn keep(
    alloc: Global,
    questions: &mut Vec<Question>,
    node: NodeRef,
    read: &Read,
) -> Result<bool, Memory>
    ensures { IfOk result (λ kept. keys.if_kept kept (questions_of questions.new.items) ≡ keys.kept_of node (questions_of questions.old.items) (read_of read.now)) }
{
    match read {
        Read::Asked(question, _) => {
            if is_of_tree(question) {
                keep_unless_name(alloc, questions, node, question)?;
                Ok(true)
            } else {
                Ok(false)
            }
        }
        Read::Saw(_, _, _) => Ok(false),
    }
}

fn keep_unless_name(
    alloc: Global,
    questions: &mut Vec<Question>,
    node: NodeRef,
    question: &Question,
) -> Result<(), Memory>
    ensures { OnOk result (questions_of questions.new.items ≡ (if keys.is_name_of node (question_of question.now) then questions_of questions.old.items else questions_of questions.old.items ++ question_of question.now ∷ [])) }
{
    if is_name_of(node, question) {
        return Ok(());
    }
    let question = question.copy(alloc)?;
    questions.push(question)?;
    Ok(())
}

fn is_name_of(node: NodeRef, question: &Question) -> bool
    ensures { result ≡ keys.is_name_of node (question_of question.now) }
{
    match question {
        Question::Name(other) => same_ref(node, *other),
        Question::Step(_, _, _) => false,
        Question::Text(_) => false,
        Question::Place(_) => false,
        Question::Order(_) => false,
        Question::Key(_, _) => false,
        Question::Choice(_, _, _) => false,
        Question::Copy(_) => false,
        Question::Unit(_) => false,
        Question::External(_) => false,
    }
}

/// Whether both name one node.
pub(crate) fn same_ref(one: NodeRef, other: NodeRef) -> bool
    ensures { result ≡ is_same_ref one other }
{
    one == other
}

// Whether it is asked of the tree alone.
fn is_of_tree(question: &Question) -> bool
    ensures { result ≡ keys.is_of_tree (question_of question.now) }
{
    match question {
        Question::Step(_, _, _) => true,
        Question::Text(_) => true,
        Question::Name(_) => true,
        Question::Place(_) => true,
        Question::Order(_) => true,
        Question::Key(_, _) => false,
        Question::Choice(_, _, _) => false,
        Question::Copy(_) => false,
        Question::Unit(_) => false,
        Question::External(_) => false,
    }
}
