// Questions that are asked often.
ghost use Rattle.std.specs.Prelude.{◌≡◌, ℕ};
ghost use Rattle.spec_meaning.specs.Question.{Step, nodes_in};
ghost use Rattle.spec_meaning.specs.Program.{Ask, Give, Supply};
ghost use Rattle.spec_meaning.specs.Convert.{text_at};
ghost use Rattle.spec_meaning.specs.Operation.{in_order};
ghost use Rattle.xt_syntax.specs.View.{test_of};
ghost use Rattle.spec_node.specs.declared.node_ref.NodeRef.{NodeRef};
ghost use Rattle.xt_questions.specs.Runs.{Runs, itself, items};

use crate::{EvalFault, Question, World};
use spec_document::Axis;
use std::alloc::Global;
use xt_syntax::Test;
use xt_text::Text;
use xt_tree::NodeRef;

/// The string-value of a node.
pub fn ask_text<W: World>(alloc: Global, world: &mut W, node: NodeRef) -> Result<Text, EvalFault>
    ensures runs { (supply : Supply NodeRef) → (depth : ℕ) → Runs itself supply depth (text_at node) (W.state world.old) (W.state world.new) result }
    ensures name { W.name world.new ≡ W.name world.old }
{
    let question = Question::Text(node);
    let answer = world.ask(&question);
    drop(question);
    Ok(answer?.into_text(alloc))
}

/// The nodes of an axis that pass a node test, in the order of the axis.
pub fn ask_nodes<W: World>(
    alloc: Global,
    world: &mut W,
    node: NodeRef,
    axis: Axis,
    test: Test,
) -> Result<Vec<NodeRef>, EvalFault>
    ensures runs { (supply : Supply NodeRef) → (depth : ℕ) → Runs items supply depth (Ask (Step node axis (test_of test)) (λ a. Give (nodes_in a))) (W.state world.old) (W.state world.new) result }
    ensures name { W.name world.new ≡ W.name world.old }
{
    let question = Question::Step(node, axis, test);
    let answer = world.ask(&question);
    drop(question);
    Ok(answer?.into_nodes(alloc))
}

/// The nodes in document order, each once.
pub fn ask_order<W: World>(
    alloc: Global,
    world: &mut W,
    nodes: Vec<NodeRef>,
) -> Result<Vec<NodeRef>, EvalFault>
    ensures runs { (supply : Supply NodeRef) → (depth : ℕ) → Runs items supply depth (in_order nodes.items) (W.state world.old) (W.state world.new) result }
    ensures name { W.name world.new ≡ W.name world.old }
{
    let question = Question::Order(nodes);
    let answer = world.ask(&question);
    drop(question);
    Ok(answer?.into_nodes(alloc))
}
