// The text of an xsl:number.
ghost use Rattle.std.specs.Prelude.{◌≡◌, ℕ, [], ◌∷◌, IfOk};
ghost use Rattle.std.specs.Option.{option_map};
ghost use Rattle.spec_format.specs.Format as spec;
ghost use Rattle.spec_stylesheet.specs.Instruction.{FromValue};
ghost use Rattle.spec_meaning.specs.Convert.{to_number};
ghost use Rattle.spec_meaning.specs.Program.{Supply};
ghost use Rattle.spec_meaning.specs.Supplies.{at_hand};
ghost use Rattle.spec_transform.specs.Numbering as definition;
ghost use Rattle.spec_node.specs.Naming.{same_ref};
ghost use Rattle.xt_syntax.specs.PartView.{avt_of, number_source_of, numbering_of};
ghost use Rattle.xt_syntax.specs.View.{expr_of};
ghost use Rattle.xt_tree.specs.ValueView.{value_of};
ghost use Rattle.spec_node.specs.declared.node_ref.NodeRef.{NodeRef};
ghost use Rattle.xt_questions.specs.View.{context_of, supplies_of};
ghost use Rattle.xt_questions.specs.Runs.{Runs, itself, items};

use crate::levels::{numbers, only};
use std::alloc::Global;
use xp_values::to_number;
use xt_avt::expand;
use xt_base::Num;
use xt_number_format::{Format, Grouping, grouping_size, split, write};
use xt_questions::{Context, EvalFault, Evaluate, Focus, Supplies, World};
use xt_syntax::{Avt, Expr, NumberSource, Numbering};
use xt_text::{Memory, Text};
use xt_tree::Value;

// The number of a value, which is let go.
fn converted<W: World>(alloc: Global, value: Value, world: &mut W) -> Result<Num, EvalFault>
    ensures runs { (supply : Supply NodeRef) → (depth : ℕ) → Runs itself supply depth (to_number (value_of value)) (W.state world.old) (W.state world.new) result }
    ensures name { W.name world.new ≡ W.name world.old }
{
    let number = to_number(alloc, &value, world);
    drop(value);
    number
}

// The number of the value of an expression, as a list of it.
fn number_of<W: Evaluate>(
    alloc: Global,
    expr: &Expr,
    focus: Focus,
    context: &Context,
    supplies: &Supplies,
    world: &mut W,
) -> Result<Vec<Num>, EvalFault>
    ensures runs { Runs items (at_hand (supplies_of supplies.now) context.now.depth) context.now.depth (definition.numbers_meant same_ref (FromValue (expr_of expr.now)) (context_of focus context.now)) (W.state world.old) (W.state world.new) result }
    ensures name { W.name world.new ≡ W.name world.old }
{
    let value = world.value(alloc, expr, focus, context, supplies)?;
    let number = converted(alloc, value, world)?;
    Ok(only(alloc, number)?)
}

// The numbers that an xsl:number has from its value or counts.
fn numbers_of<W: Evaluate>(
    alloc: Global,
    source: &NumberSource,
    focus: Focus,
    context: &Context,
    supplies: &Supplies,
    world: &mut W,
) -> Result<Vec<Num>, EvalFault>
    ensures runs { Runs items (at_hand (supplies_of supplies.now) context.now.depth) context.now.depth (definition.numbers_meant same_ref (number_source_of source.now) (context_of focus context.now)) (W.state world.old) (W.state world.new) result }
    ensures name { W.name world.new ≡ W.name world.old }
{
    match source {
        NumberSource::Value(expr) => number_of(alloc, expr, focus, context, supplies, world),
        NumberSource::Count(count) => numbers(alloc, count, focus, context, supplies, world),
    }
}

// The string of a value template, where it is there.
fn expand_if<W: Evaluate>(
    alloc: Global,
    avt: &Option<Avt>,
    focus: Focus,
    context: &Context,
    supplies: &Supplies,
    world: &mut W,
) -> Result<Option<Text>, EvalFault>
    ensures runs { Runs itself (at_hand (supplies_of supplies.now) context.now.depth) context.now.depth (definition.expanded_if (option_map avt_of avt.now) (context_of focus context.now)) (W.state world.old) (W.state world.new) result }
    ensures name { W.name world.new ≡ W.name world.old }
{
    match avt {
        None => Ok(None),
        Some(avt) => {
            let text = expand(alloc, avt, focus, context, supplies, world)?;
            Ok(Some(text))
        }
    }
}

// Numbers by a format, grouped where there is a size.
fn write_in_groups(
    alloc: Global,
    format: &Format,
    numbers: &[Num],
    separator: &Text,
    size: Option<u32>,
) -> Result<Text, Memory>
    ensures { IfOk result (λ text. text ≡ spec.written format.now numbers.now (definition.grouping_with separator.now size)) }
{
    match size {
        None => write(alloc, format, numbers, None),
        Some(size) => {
            let separator = separator.as_str();
            write(alloc, format, numbers, Some(Grouping { separator, size }))
        }
    }
}

// Numbers by the text of a format, grouped where both attributes are there and the size is one.
fn write_by(
    alloc: Global,
    format: &Text,
    numbers: &[Num],
    separator: &Option<Text>,
    size: &Option<Text>,
) -> Result<Text, Memory>
    ensures { IfOk result (λ text. text ≡ spec.written (spec.split format.now) numbers.now (definition.grouping_by separator.now size.now)) }
{
    let format = split(alloc, format.as_str())?;
    match (separator, size) {
        (Some(separator), Some(size)) => {
            let size = grouping_size(size.as_str());
            write_in_groups(alloc, &format, numbers, separator, size)
        }
        _ => write(alloc, &format, numbers, None),
    }
}

/// The text that an xsl:number puts (XSLT 1.0, section 7.7): its numbers, written by its format. The first error ends
/// it: want of memory; D01 to D04 or D08 of an expression; D03 where a number is over 9007199254740991; or `Wants` with
/// the first global that is needed and was not given for a content so deep.
pub fn number_text<W: Evaluate>(
    alloc: Global,
    numbering: &Numbering,
    focus: Focus,
    context: &Context,
    supplies: &Supplies,
    world: &mut W,
) -> Result<Text, EvalFault>
    ensures runs { Runs itself (at_hand (supplies_of supplies.now) context.now.depth) context.now.depth (definition.number_meant same_ref (numbering_of numbering.now) (context_of focus context.now)) (W.state world.old) (W.state world.new) result }
    ensures name { W.name world.new ≡ W.name world.old }
{
    let numbers = numbers_of(alloc, &numbering.source, focus, context, supplies, world)?;
    let format = expand(alloc, &numbering.format, focus, context, supplies, world)?;
    let separator = &numbering.grouping_separator;
    let separator = expand_if(alloc, separator, focus, context, supplies, world)?;
    let size = &numbering.grouping_size;
    let size = expand_if(alloc, size, focus, context, supplies, world)?;
    let list = numbers.as_slice();
    let written = write_by(alloc, &format, list, &separator, &size);
    drop(size);
    drop(separator);
    drop(format);
    drop(numbers);
    let text = written?;
    Ok(text)
}
