// Steps of patterns (XSLT 1.0, section 5.2).
ghost use Rattle.std.specs.Prelude.{◌≡◌};
ghost use Rattle.spec_document.specs.declared.axis.Axis.TheVariants as axis;
ghost use Rattle.spec_expression.specs.declared.NodeType.TheVariants as type;
ghost use Rattle.spec_expression.specs.Syntax.{OfType};
ghost use Rattle.spec_meaning.specs.Program.{Ask};
ghost use Rattle.spec_meaning.specs.Question as question;
ghost use Rattle.spec_meaning.specs.Supplies.{at_hand};
ghost use Rattle.spec_transform.specs.Match as definition;
ghost use Rattle.spec_node.specs.Naming.{same_ref};
ghost use Rattle.xt_syntax.specs.View.{step_of};
ghost use Rattle.xt_questions.specs.View.{answer_of, context_of, supplies_of};
ghost use Rattle.xt_questions.specs.Runs.{Runs, itself};
ghost use Rattle.xt_questions.specs.declared.context.Focus as code;

use crate::position::read_no_position;
use crate::predicate::{keep, keep_alone};
use crate::test::passes;
use spec_document::Axis;
use std::alloc::Global;
use xt_questions::{Answer, Context, EvalFault, Evaluate, Supplies, ask_nodes, copy_test};
use xt_syntax::{NodeType, Step, Test};
use xt_tree::NodeRef;

// Whether a step from this parent gives the node.
fn is_given_below<W: Evaluate>(
    alloc: Global,
    step: &Step,
    node: NodeRef,
    parent: NodeRef,
    context: &Context,
    supplies: &Supplies,
    world: &mut W,
) -> Result<bool, EvalFault>
    ensures runs { (focus : code.Focus) → Runs itself (at_hand (supplies_of supplies.now) context.now.depth) context.now.depth (definition.is_given_below same_ref (context_of focus context.now) (step_of step.now) node parent) (W.state world.old) (W.state world.new) result }
    ensures name { W.name world.new ≡ W.name world.old }
{
    let test = copy_test(alloc, &step.test)?;
    let siblings = ask_nodes(alloc, world, parent, step.axis, test)?;
    let predicates = step.predicates.as_slice();
    keep(alloc, predicates, node, siblings, context, supplies, world)
}

// Whether a step from one of these parents gives the node.
fn is_given_by_one<W: Evaluate>(
    alloc: Global,
    step: &Step,
    node: NodeRef,
    parents: &[NodeRef],
    context: &Context,
    supplies: &Supplies,
    world: &mut W,
) -> Result<bool, EvalFault>
    ensures runs { (focus : code.Focus) → Runs itself (at_hand (supplies_of supplies.now) context.now.depth) context.now.depth (definition.holds_of_one (definition.is_given_below same_ref (context_of focus context.now) (step_of step.now) node) parents.now) (W.state world.old) (W.state world.new) result }
    ensures name { W.name world.new ≡ W.name world.old }
{
    for parent in parents {
        let is_given = is_given_below(alloc, step, node, *parent, context, supplies, world)?;
        if is_given {
            return Ok(true);
        }
    }
    Ok(false)
}

// Whether a step from the node's parent gives the node.
fn is_given<W: Evaluate>(
    alloc: Global,
    step: &Step,
    node: NodeRef,
    context: &Context,
    supplies: &Supplies,
    world: &mut W,
) -> Result<bool, EvalFault>
    ensures runs { (focus : code.Focus) → Runs itself (at_hand (supplies_of supplies.now) context.now.depth) context.now.depth (Ask (question.Step node axis.Parent (OfType type.Node)) (λ a. definition.holds_of_one (definition.is_given_below same_ref (context_of focus context.now) (step_of step.now) node) (question.nodes_in a))) (W.state world.old) (W.state world.new) result }
    ensures name { W.name world.new ≡ W.name world.old }
{
    let test = Test::OfType(NodeType::Node);
    let parents = ask_nodes(alloc, world, node, Axis::Parent, test)?;
    is_given_by_one(
        alloc,
        step,
        node,
        parents.as_slice(),
        context,
        supplies,
        world,
    )
}

// Whether the predicates of a step keep the node. Where they read no position, nothing beside the node is asked for.
fn passes_predicates<W: Evaluate>(
    alloc: Global,
    step: &Step,
    node: NodeRef,
    context: &Context,
    supplies: &Supplies,
    world: &mut W,
) -> Result<bool, EvalFault>
    ensures runs { (focus : code.Focus) → Runs itself (at_hand (supplies_of supplies.now) context.now.depth) context.now.depth (definition.passes_predicates same_ref (context_of focus context.now) (step_of step.now) node) (W.state world.old) (W.state world.new) result }
    ensures name { W.name world.new ≡ W.name world.old }
{
    let predicates = step.predicates.as_slice();
    if read_no_position(predicates) {
        keep_alone(alloc, predicates, node, context, supplies, world)
    } else {
        is_given(alloc, step, node, context, supplies, world)
    }
}

/// Whether a node that is called so passes a step.
pub(crate) fn passes_step<W: Evaluate>(
    alloc: Global,
    step: &Step,
    node: NodeRef,
    called: &Answer,
    context: &Context,
    supplies: &Supplies,
    world: &mut W,
) -> Result<bool, EvalFault>
    ensures runs { (focus : code.Focus) → Runs itself (at_hand (supplies_of supplies.now) context.now.depth) context.now.depth (definition.passes_step same_ref (context_of focus context.now) (step_of step.now) node (answer_of called.now)) (W.state world.old) (W.state world.new) result }
    ensures name { W.name world.new ≡ W.name world.old }
{
    if passes(step.axis, &step.test, called) {
        passes_predicates(alloc, step, node, context, supplies, world)
    } else {
        Ok(false)
    }
}
