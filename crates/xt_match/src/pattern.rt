// Patterns (XSLT 1.0, section 5.2).
ghost use Rattle.std.specs.Prelude.{◌≡◌, ℕ, map, reverse};
ghost use Rattle.spec_expression.specs.declared.NodeType.TheVariants as type;
ghost use Rattle.spec_expression.specs.Syntax.{OfType};
ghost use Rattle.spec_document.specs.Name.{Expanded};
ghost use Rattle.spec_meaning.specs.Program.{Ask, Give, Supply};
ghost use Rattle.spec_meaning.specs.Question as question;
ghost use Rattle.spec_meaning.specs.Supplies.{at_hand};
ghost use Rattle.spec_transform.specs.Match as definition;
ghost use Rattle.spec_node.specs.Naming.{same_ref};
ghost use Rattle.xt_syntax.specs.PartView.{alternative_of, pattern_of, pattern_step_of};
ghost use Rattle.spec_node.specs.declared.node_ref.NodeRef.{NodeRef};
ghost use Rattle.xt_questions.specs.View.{answer_of, context_of, supplies_of};
ghost use Rattle.xt_questions.specs.Runs.{Runs, itself};
ghost use Rattle.xt_questions.specs.declared.context.Focus as code;

use crate::same::is_one;
use crate::step::passes_step;
use crate::test::is_root;
use spec_document::Axis;
use spec_stylesheet::Separator;
use std::alloc::Global;
use xt_names::{Expanded, copy_name};
use xt_questions::{Answer, Context, EvalFault, Evaluate, Question, Supplies, World, ask_nodes};
use xt_syntax::{Alternative, NodeType, Pattern, PatternStep, Start, Test};
use xt_text::Text;
use xt_tree::NodeRef;

/// What a node is called.
pub(crate) fn ask_called<W: World>(world: &mut W, node: NodeRef) -> Result<Answer, EvalFault>
    ensures runs { (supply : Supply NodeRef) → (depth : ℕ) → Runs answer_of supply depth (Ask (question.Name node) (λ a. Give a)) (W.state world.old) (W.state world.new) result }
    ensures name { W.name world.new ≡ W.name world.old }
{
    let question = Question::Name(node);
    let asked = world.ask(&question);
    drop(question);
    let answer = asked?;
    Ok(answer)
}

// Whether the node has this value in the keys of this name.
fn has_key<W: World>(
    alloc: Global,
    name: &Expanded,
    value: &Text,
    node: NodeRef,
    world: &mut W,
) -> Result<bool, EvalFault>
    ensures runs { (supply : Supply NodeRef) → (depth : ℕ) → Runs itself supply depth (definition.has_key same_ref name.now value.now node) (W.state world.old) (W.state world.new) result }
    ensures name { W.name world.new ≡ W.name world.old }
{
    let name = copy_name(alloc, name)?;
    let value = value.copy(alloc)?;
    let question = Question::Key(name, value);
    let asked = world.ask(&question);
    drop(question);
    let answer = asked?;
    let nodes = answer.into_nodes(alloc);
    Ok(is_one(node, nodes.as_slice()))
}

// Whether an alternative may start at a node that is called so. No element has an ID.
fn starts_at<W: World>(
    alloc: Global,
    start: &Start,
    node: NodeRef,
    called: &Answer,
    world: &mut W,
) -> Result<bool, EvalFault>
    ensures runs { (supply : Supply NodeRef) → (depth : ℕ) → Runs itself supply depth (definition.starts_at same_ref start.now node (answer_of called.now)) (W.state world.old) (W.state world.new) result }
    ensures name { W.name world.new ≡ W.name world.old }
{
    match start {
        Start::Anywhere => Ok(true),
        Start::Root => Ok(is_root(called)),
        Start::Id(_) => Ok(false),
        Start::Key(name, value) => match name {
            None => Ok(false),
            Some(name) => has_key(alloc, name, value, node, world),
        },
    }
}

// Where the nodes are that what stands before a step may match.
fn axis_above(separator: Separator) -> Axis
    ensures { result ≡ definition.axis_above separator }
{
    match separator {
        Separator::Child => Axis::Parent,
        Separator::Descendant => Axis::Ancestor,
    }
}

// Whether nothing is asked of what is above.
fn is_free(start: &Start, steps: &[PatternStep]) -> bool
    ensures { result ≡ definition.is_free start.now (reverse (map pattern_step_of steps.now)) }
{
    match start {
        Start::Anywhere => steps.is_empty(),
        _ => false,
    }
}

// Whether one of these nodes matches these steps.
#[cycle(matches_steps)]
fn one_matches<W: Evaluate>(
    alloc: Global,
    start: &Start,
    steps: &[PatternStep],
    nodes: &[NodeRef],
    context: &Context,
    supplies: &Supplies,
    world: &mut W,
) -> Result<bool, EvalFault>
    ensures runs { (focus : code.Focus) → Runs itself (at_hand (supplies_of supplies.now) context.now.depth) context.now.depth (definition.holds_of_one (definition.when_called (definition.matches_steps same_ref (context_of focus context.now) start.now (reverse (map pattern_step_of steps.now)))) nodes.now) (W.state world.old) (W.state world.new) result }
    ensures name { W.name world.new ≡ W.name world.old }
{
    for node in nodes {
        let called = ask_called(world, *node)?;
        let ended = matches_steps(
            alloc, start, steps, *node, &called, context, supplies, world,
        );
        drop(called);
        let matches = ended?;
        if matches {
            return Ok(true);
        }
    }
    Ok(false)
}

// Whether the node's parent, or one of its ancestors, matches these steps, which stand before one that the node
// passes.
#[cycle(matches_steps)]
fn matches_above<W: Evaluate>(
    alloc: Global,
    start: &Start,
    steps: &[PatternStep],
    separator: Separator,
    node: NodeRef,
    context: &Context,
    supplies: &Supplies,
    world: &mut W,
) -> Result<bool, EvalFault>
    ensures runs { (focus : code.Focus) → Runs itself (at_hand (supplies_of supplies.now) context.now.depth) context.now.depth (definition.holds_above (definition.is_free start.now (reverse (map pattern_step_of steps.now))) (definition.matches_steps same_ref (context_of focus context.now) start.now (reverse (map pattern_step_of steps.now))) separator node) (W.state world.old) (W.state world.new) result }
    ensures name { W.name world.new ≡ W.name world.old }
{
    if is_free(start, steps) {
        return Ok(true);
    }
    let axis = axis_above(separator);
    let test = Test::OfType(NodeType::Node);
    let above = ask_nodes(alloc, world, node, axis, test)?;
    one_matches(
        alloc,
        start,
        steps,
        above.as_slice(),
        context,
        supplies,
        world,
    )
}

// Whether a node that is called so matches these steps.
#[cycle(matches_steps)]
fn matches_steps<W: Evaluate>(
    alloc: Global,
    start: &Start,
    steps: &[PatternStep],
    node: NodeRef,
    called: &Answer,
    context: &Context,
    supplies: &Supplies,
    world: &mut W,
) -> Result<bool, EvalFault>
    ensures runs { (focus : code.Focus) → Runs itself (at_hand (supplies_of supplies.now) context.now.depth) context.now.depth (definition.matches_steps same_ref (context_of focus context.now) start.now (reverse (map pattern_step_of steps.now)) node (answer_of called.now)) (W.state world.old) (W.state world.new) result }
    ensures name { W.name world.new ≡ W.name world.old }
{
    match steps.split_last() {
        None => starts_at(alloc, start, node, called, world),
        Some((last, before)) => {
            let passes = passes_step(alloc, &last.step, node, called, context, supplies, world)?;
            if passes {
                let separator = last.separator;
                matches_above(
                    alloc, start, before, separator, node, context, supplies, world,
                )
            } else {
                Ok(false)
            }
        }
    }
}

// Whether a node that is called so matches the alternative.
fn matches_alternative<W: Evaluate>(
    alloc: Global,
    alternative: &Alternative,
    node: NodeRef,
    called: &Answer,
    context: &Context,
    supplies: &Supplies,
    world: &mut W,
) -> Result<bool, EvalFault>
    ensures runs { (focus : code.Focus) → Runs itself (at_hand (supplies_of supplies.now) context.now.depth) context.now.depth (definition.matches_alternative same_ref (context_of focus context.now) (alternative_of alternative.now) node (answer_of called.now)) (W.state world.old) (W.state world.new) result }
    ensures name { W.name world.new ≡ W.name world.old }
{
    let steps = alternative.steps.as_slice();
    matches_steps(
        alloc,
        &alternative.start,
        steps,
        node,
        called,
        context,
        supplies,
        world,
    )
}

/// Whether a node that is called so matches one of the alternatives.
pub(crate) fn matches_one<W: Evaluate>(
    alloc: Global,
    alternatives: &[Alternative],
    node: NodeRef,
    called: &Answer,
    context: &Context,
    supplies: &Supplies,
    world: &mut W,
) -> Result<bool, EvalFault>
    ensures runs { (focus : code.Focus) → Runs itself (at_hand (supplies_of supplies.now) context.now.depth) context.now.depth (definition.matches_one same_ref (context_of focus context.now) (map alternative_of alternatives.now) node (answer_of called.now)) (W.state world.old) (W.state world.new) result }
    ensures name { W.name world.new ≡ W.name world.old }
{
    for alternative in alternatives {
        let matches = matches_alternative(
            alloc,
            alternative,
            node,
            called,
            context,
            supplies,
            world,
        )?;
        if matches {
            return Ok(true);
        }
    }
    Ok(false)
}

/// Whether the node matches the pattern (XSLT 1.0, section 5.2). A predicate that is refused is false for its
/// node, so an error is want of memory, or the first global that is needed and was not given for a content so
/// deep.
pub fn matches<W: Evaluate>(
    alloc: Global,
    pattern: &Pattern,
    node: NodeRef,
    context: &Context,
    supplies: &Supplies,
    world: &mut W,
) -> Result<bool, EvalFault>
    ensures runs { (focus : code.Focus) → Runs itself (at_hand (supplies_of supplies.now) context.now.depth) context.now.depth (definition.matches same_ref (context_of focus context.now) (pattern_of pattern.now) node) (W.state world.old) (W.state world.new) result }
    ensures name { W.name world.new ≡ W.name world.old }
{
    let called = ask_called(world, node)?;
    let alternatives = pattern.alternatives.as_slice();
    let matches = matches_one(alloc, alternatives, node, &called, context, supplies, world);
    drop(called);
    matches
}
