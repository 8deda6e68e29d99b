// The namespace nodes of an element.
ghost use Rattle.std.specs.Prelude.{◌≡◌, ℕ, List, [], map, IfOk};
ghost use Rattle.spec_meaning.specs.Question as question;
ghost use Rattle.spec_meaning.specs.Program.{Supply};
ghost use Rattle.spec_run.specs.Plan.{Plan, Inquire};
ghost use Rattle.spec_run.specs.Passes.{Passes};
ghost use Rattle.spec_run.specs.Content.{namespaces_read};
ghost use Rattle.xt_names.specs.View.{entry_of};
ghost use Rattle.spec_node.specs.declared.node_ref.NodeRef.{NodeRef};
ghost use Rattle.xt_questions.specs.View.{answer_of};
ghost use Rattle.xt_progress.specs.View.{going_of};

use std::alloc::Global;
use xt_names::{Expanded, Namespace};
use xt_progress::Going;
use xt_questions::{Answer, Question, World};
use xt_text::{Memory, Text};
use xt_tree::NodeRef;

/// The namespaces that these nodes are, each by its prefix and URI.
pub(crate) fn read_namespaces<W: World>(
    alloc: Global,
    going: &mut Going,
    nodes: &[NodeRef],
    world: &mut W,
) -> Result<Vec<Namespace>, Memory>
    ensures passes { IfOk result (λ list. (hand : ℕ → Supply NodeRef) → (room : ℕ) → (k : List (List ℕ × List ℕ) → Plan NodeRef) → Passes (W.state world.old).truth hand room (namespaces_read nodes.now [] k) (going_of going.old) (k (map entry_of list.items)) (going_of going.new)) }
    ensures truth { (W.state world.new).truth ≡ (W.state world.old).truth }
    ensures name { W.name world.new ≡ W.name world.old }
{
    let mut list = Vec::new(alloc);
    for node in nodes {
        let namespace = read_namespace(alloc, going, *node, world)?;
        list.push(namespace)?;
    }
    Ok(list)
}

/// The namespace that a node is.
fn read_namespace<W: World>(
    alloc: Global,
    going: &mut Going,
    node: NodeRef,
    world: &mut W,
) -> Result<Namespace, Memory>
    ensures passes { IfOk result (λ n. (hand : ℕ → Supply NodeRef) → (room : ℕ) → (k : List ℕ × List ℕ → Plan NodeRef) → Passes (W.state world.old).truth hand room (Inquire (question.Name node) (λ name. Inquire (question.Text node) (λ uri. k (question.local_in name, question.text_in uri)))) (going_of going.old) (k (entry_of n)) (going_of going.new)) }
    ensures truth { (W.state world.new).truth ≡ (W.state world.old).truth }
    ensures name { W.name world.new ≡ W.name world.old }
{
    let called = going.ask(alloc, world, Question::Name(node))?;
    let prefix = local_in(alloc, called)?;
    let told = going.ask(alloc, world, Question::Text(node))?;
    Ok(Namespace {
        prefix,
        uri: told.into_text(alloc),
    })
}

/// The local part of the name in an answer, empty without one.
fn local_in(alloc: Global, answer: Answer) -> Result<Text, Memory>
    ensures { IfOk result (λ t. t ≡ question.local_in (answer_of answer)) }
{
    match answer {
        Answer::Named(_, name, _) => local_of(alloc, &name),
        _ => Ok(Text::new(alloc)),
    }
}

fn local_of(alloc: Global, name: &Option<Expanded>) -> Result<Text, Memory>
    ensures { IfOk result (λ t. t ≡ question.local_of name.now) }
{
    match name {
        None => Ok(Text::new(alloc)),
        Some(name) => name.local().copy(alloc),
    }
}
