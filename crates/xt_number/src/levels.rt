// The numbers of an xsl:number, by its level.
ghost use Rattle.std.specs.Prelude.{◌≡◌, ℕ, pos, [], ◌∷◌, IfOk};
ghost use Rattle.std.specs.Option.{option_map};
ghost use Rattle.spec_expression.specs.Number.{whole};
ghost use Rattle.spec_meaning.specs.Convert as convert;
ghost use Rattle.spec_meaning.specs.Program.{State, Supply};
ghost use Rattle.spec_meaning.specs.Supplies.{at_hand};
ghost use Rattle.spec_transform.specs.Numbering as definition;
ghost use Rattle.spec_node.specs.Naming.{same_ref};
ghost use Rattle.xt_syntax.specs.PartView.{count_of, pattern_of};
ghost use Rattle.spec_node.specs.declared.node_ref.NodeRef.{NodeRef};
ghost use Rattle.xt_base.specs.Fault.{Gives};
ghost use Rattle.xt_questions.specs.View.{context_of, supplies_of};
ghost use Rattle.xt_questions.specs.Runs.{Runs, itself, items};
ghost use Rattle.xt_questions.specs.declared.context.Focus as code;
ghost use Rattle.xt_number.specs.View.{counted_of};

use crate::counted::{Counted, counted_by, is_counted};
use crate::nodes::{backward, on_axis, upward};
use crate::variables::refer_to_all;
use spec_document::Axis;
use spec_stylesheet::NumberLevel;
use std::alloc::Global;
use xp_values::given;
use xt_base::{GREATEST, Num, NumFault};
use xt_questions::{Context, EvalFault, Evaluate, Focus, Supplies};
use xt_syntax::{Count, Pattern};
use xt_text::Memory;
use xt_tree::NodeRef;

fn whole(count: u64) -> Result<Num, NumFault>
    ensures { Gives result (whole (pos count)) }
{
    if count > GREATEST {
        return Err(NumFault::Wide);
    }
    Num::whole(count as i64)
}

/// A list of one number.
pub(crate) fn only(alloc: Global, number: Num) -> Result<Vec<Num>, Memory>
    ensures { IfOk result (λ numbers. numbers.items ≡ number ∷ []) }
{
    let mut numbers = Vec::new(alloc);
    numbers.push(number)?;
    Ok(numbers)
}

// How many of these nodes are counted, after so many.
fn how_many<W: Evaluate>(
    alloc: Global,
    counted: &Counted<'_>,
    first: u32,
    nodes: &[NodeRef],
    context: &Context,
    supplies: &Supplies,
    world: &mut W,
) -> Result<u64, EvalFault>
    ensures runs { (focus : code.Focus) → Runs itself (at_hand (supplies_of supplies.now) context.now.depth) context.now.depth (definition.how_many (definition.is_counted same_ref (context_of focus context.now) (counted_of counted.now)) first nodes.now) (W.state world.old) (W.state world.new) result }
    ensures name { W.name world.new ≡ W.name world.old }
{
    let mut count = first as u64;
    for node in nodes {
        let is_counted = is_counted(alloc, counted, *node, context, supplies, world)?;
        count += u64::from(is_counted);
    }
    Ok(count)
}

// The number of a node: one more than its siblings before it that are counted.
fn number_among<W: Evaluate>(
    alloc: Global,
    counted: &Counted<'_>,
    node: NodeRef,
    context: &Context,
    supplies: &Supplies,
    world: &mut W,
) -> Result<Num, EvalFault>
    ensures runs { (focus : code.Focus) → Runs itself (at_hand (supplies_of supplies.now) context.now.depth) context.now.depth (definition.number_among (definition.is_counted same_ref (context_of focus context.now) (counted_of counted.now)) node) (W.state world.old) (W.state world.new) result }
    ensures name { W.name world.new ≡ W.name world.old }
{
    let before = on_axis(alloc, Axis::PrecedingSibling, node, world)?;
    let nodes = before.as_slice();
    let count = how_many(alloc, counted, 1, nodes, context, supplies, world)?;
    given(whole(count))
}

// The number of the first of these nodes that is counted.
fn of_first<W: Evaluate>(
    alloc: Global,
    counted: &Counted<'_>,
    nodes: &[NodeRef],
    context: &Context,
    supplies: &Supplies,
    world: &mut W,
) -> Result<Vec<Num>, EvalFault>
    ensures runs { (focus : code.Focus) → Runs items (at_hand (supplies_of supplies.now) context.now.depth) context.now.depth (definition.of_first (definition.is_counted same_ref (context_of focus context.now) (counted_of counted.now)) nodes.now) (W.state world.old) (W.state world.new) result }
    ensures name { W.name world.new ≡ W.name world.old }
{
    for node in nodes {
        let is_counted = is_counted(alloc, counted, *node, context, supplies, world)?;
        if is_counted {
            let number = number_among(alloc, counted, *node, context, supplies, world)?;
            return Ok(only(alloc, number)?);
        }
    }
    Ok(Vec::new(alloc))
}

// The numbers of all of these nodes that are counted, that of the last one first.
fn of_all<W: Evaluate>(
    alloc: Global,
    counted: &Counted<'_>,
    nodes: &[NodeRef],
    context: &Context,
    supplies: &Supplies,
    world: &mut W,
) -> Result<Vec<Num>, EvalFault>
    ensures runs { (focus : code.Focus) → Runs items (at_hand (supplies_of supplies.now) context.now.depth) context.now.depth (definition.of_all (definition.is_counted same_ref (context_of focus context.now) (counted_of counted.now)) [] nodes.now) (W.state world.old) (W.state world.new) result }
    ensures name { W.name world.new ≡ W.name world.old }
{
    let mut numbers = Vec::new(alloc);
    for node in nodes {
        let is_counted = is_counted(alloc, counted, *node, context, supplies, world)?;
        if !is_counted {
            continue;
        }
        let number = number_among(alloc, counted, *node, context, supplies, world)?;
        numbers.push(number)?;
    }
    numbers.reverse();
    Ok(numbers)
}

// How many of these nodes are counted, as a list of one number.
fn of_count<W: Evaluate>(
    alloc: Global,
    counted: &Counted<'_>,
    nodes: &[NodeRef],
    context: &Context,
    supplies: &Supplies,
    world: &mut W,
) -> Result<Vec<Num>, EvalFault>
    ensures runs { (focus : code.Focus) → Runs items (at_hand (supplies_of supplies.now) context.now.depth) context.now.depth (definition.of_count (definition.is_counted same_ref (context_of focus context.now) (counted_of counted.now)) nodes.now) (W.state world.old) (W.state world.new) result }
    ensures name { W.name world.new ≡ W.name world.old }
{
    let count = how_many(alloc, counted, 0, nodes, context, supplies, world)?;
    let number = given(whole(count))?;
    Ok(only(alloc, number)?)
}

fn at_level<W: Evaluate>(
    alloc: Global,
    level: NumberLevel,
    from: &Option<Pattern>,
    counted: &Counted<'_>,
    focus: Focus,
    context: &Context,
    supplies: &Supplies,
    world: &mut W,
) -> Result<Vec<Num>, EvalFault>
    ensures runs { Runs items (at_hand (supplies_of supplies.now) context.now.depth) context.now.depth (definition.at_level same_ref (context_of focus context.now) level (option_map pattern_of from.now) (definition.is_counted same_ref (context_of focus context.now) (counted_of counted.now))) (W.state world.old) (W.state world.new) result }
    ensures name { W.name world.new ≡ W.name world.old }
{
    match level {
        NumberLevel::Single => {
            let nodes = upward(alloc, from, focus, context, supplies, world)?;
            of_first(alloc, counted, nodes.as_slice(), context, supplies, world)
        }
        NumberLevel::Multiple => {
            let nodes = upward(alloc, from, focus, context, supplies, world)?;
            of_all(alloc, counted, nodes.as_slice(), context, supplies, world)
        }
        NumberLevel::Any => {
            let nodes = backward(alloc, from, focus, context, supplies, world)?;
            of_count(alloc, counted, nodes.as_slice(), context, supplies, world)
        }
    }
}

/// The numbers of the node that is at the focus (XSLT 1.0, section 7.7). An error is want of memory; D03 where a number
/// is over 9007199254740991; or `Wants` with the first global that is needed and was not given for a content so deep.
pub(crate) fn numbers<W: Evaluate>(
    alloc: Global,
    count: &Count,
    focus: Focus,
    context: &Context,
    supplies: &Supplies,
    world: &mut W,
) -> Result<Vec<Num>, EvalFault>
    ensures runs { Runs items (at_hand (supplies_of supplies.now) context.now.depth) context.now.depth (definition.numbers same_ref (count_of count.now) (context_of focus context.now)) (W.state world.old) (W.state world.new) result }
    ensures name { W.name world.new ≡ W.name world.old }
{
    refer_to_all(alloc, count, focus, context, supplies, world)?;
    let counted = counted_by(&count.count, focus, world)?;
    let numbers = at_level(
        alloc,
        count.level,
        &count.from,
        &counted,
        focus,
        context,
        supplies,
        world,
    );
    drop(counted);
    numbers
}
