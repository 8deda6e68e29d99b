// The string that a value template stands for.
ghost use Rattle.std.specs.Prelude.{◌≡◌};
ghost use Rattle.spec_meaning.specs.Supplies.{at_hand};
ghost use Rattle.spec_transform.specs.Expansion.{expanded, part_text};
ghost use Rattle.xt_syntax.specs.PartView.{avt_of, avt_part_of};
ghost use Rattle.xt_questions.specs.View.{context_of, supplies_of};
ghost use Rattle.xt_questions.specs.Runs.{Runs, itself};

use std::alloc::Global;
use xp_values::to_text;
use xt_questions::{Context, EvalFault, Evaluate, Focus, Supplies};
use xt_syntax::{Avt, AvtPart};
use xt_text::Text;

/// The string that the template stands for: the strings of its parts joined, where an expression is evaluated
/// and its value converted to a string (XSLT 1.0, section 7.6.2), from left to right. The first error ends it:
/// want of memory; D01 to D04 or D08 of an expression; `Wants` with the first global that is needed and was not
/// given.
pub fn expand<W: Evaluate>(
    alloc: Global,
    avt: &Avt,
    focus: Focus,
    context: &Context,
    supplies: &Supplies,
    world: &mut W,
) -> Result<Text, EvalFault>
    ensures runs { Runs itself (at_hand (supplies_of supplies.now) context.now.depth) context.now.depth (expanded (avt_of avt.now) (context_of focus context.now)) (W.state world.old) (W.state world.new) result }
    ensures name { W.name world.new ≡ W.name world.old }
{
    let mut done = Text::new(alloc);
    for part in avt.parts.as_slice() {
        let text = text_of(alloc, part, focus, context, supplies, world)?;
        done.push_str(text.as_str())?;
    }
    Ok(done)
}

/// The string of one part.
fn text_of<W: Evaluate>(
    alloc: Global,
    part: &AvtPart,
    focus: Focus,
    context: &Context,
    supplies: &Supplies,
    world: &mut W,
) -> Result<Text, EvalFault>
    ensures runs { Runs itself (at_hand (supplies_of supplies.now) context.now.depth) context.now.depth (part_text (avt_part_of part.now) (context_of focus context.now)) (W.state world.old) (W.state world.new) result }
    ensures name { W.name world.new ≡ W.name world.old }
{
    match part {
        AvtPart::Text(text) => Ok(text.copy(alloc)?),
        AvtPart::Expr(expr) => {
            let value = world.value(alloc, expr, focus, context, supplies)?;
            to_text(alloc, value, world)
        }
    }
}
