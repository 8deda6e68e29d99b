// Processing instructions (XSLT 1.0, section 7.3).
ghost use Rattle.std.specs.Prelude.{◌≡◌, ◌||◌, ℕ, not, if◌then◌else◌};
ghost use Rattle.std.specs.Str.{chars};
ghost use Rattle.spec_document.specs.Name as document;
ghost use Rattle.spec_document.specs.Declaration as declaration;
ghost use Rattle.spec_meaning.specs.Program.{State, Supply, Give};
ghost use Rattle.spec_meaning.specs.Supplies.{at_hand};
ghost use Rattle.spec_run.specs.Names as names;
ghost use Rattle.spec_run.specs.Plan as plan;
ghost use Rattle.xt_syntax.specs.PartView.{avt_of};
ghost use Rattle.spec_node.specs.declared.node_ref.NodeRef.{NodeRef};
ghost use Rattle.xt_questions.specs.View.{context_of, supplies_of};
ghost use Rattle.xt_questions.specs.Runs.{Runs};
ghost use Rattle.xt_engine.specs.View.{wrapping_of};

use crate::told::bad_name;
use std::alloc::Global;
use xt_avt::expand;
use xt_engine::Wrapping;
use xt_names::{is_ncname, is_reserved_target};
use xt_questions::{Context, EvalFault, Evaluate, Focus, Supplies};
use xt_syntax::Avt;
use xt_text::Text;

/// The processing instruction that an xsl:processing-instruction makes (XSLT 1.0, section 7.3). D08 where its
/// target is no NCName, or is `xml` in any case. Other errors are those of the expressions.
pub fn instruction_meant<W: Evaluate>(
    alloc: Global,
    target: &Avt,
    focus: Focus,
    context: &Context,
    supplies: &Supplies,
    world: &mut W,
) -> Result<Wrapping, EvalFault>
    ensures runs { Runs wrapping_of (at_hand (supplies_of supplies.now) context.now.depth) context.now.depth (names.instruction_meant (avt_of target.now) (context_of focus context.now)) (W.state world.old) (W.state world.new) result }
    ensures name { W.name world.new ≡ W.name world.old }
{
    let target = expand(alloc, target, focus, context, supplies, world)?;
    instruction_of(target)
}

// The processing instruction of this target.
fn instruction_of(target: Text) -> Result<Wrapping, EvalFault>
    ensures { (supply : Supply NodeRef) → (depth : ℕ) → (s : State NodeRef) → Runs wrapping_of supply depth (if not (document.is_ncname target) || declaration.is_reserved_target target then names.bad_name else Give (plan.AsInstruction target)) s s result }
{
    if is_no_target(target.as_str()) {
        return Err(bad_name());
    }
    Ok(Wrapping::Instruction(target))
}

fn is_no_target(text: &str) -> bool
    ensures { result ≡ (not (document.is_ncname (chars text.now)) || declaration.is_reserved_target (chars text.now)) }
{
    !is_ncname(text) || is_reserved_target(text)
}
