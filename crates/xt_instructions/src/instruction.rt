// Instructions.
ghost use Rattle.std.specs.Prelude.{◌≡◌, ◌<◌, ◌+◌, map, slice_get, Some, IfOk};
ghost use Rattle.spec_stylesheet.specs.Instruction as made;
ghost use Rattle.spec_stylesheet.specs.Instruction.{instrs};
ghost use Rattle.spec_run.specs.Content.{plan};
ghost use Rattle.xt_syntax.specs.PartView.{site_of, with_content_of};
ghost use Rattle.xt_syntax.specs.InstrView.{instr_of};
ghost use Rattle.xt_frames.specs.declared.frame.Frame.TheVariants as Frame;
ghost use Rattle.xt_frames.specs.View.{here_of, following};
ghost use Rattle.xt_frames.specs.Left.{left_in, Performs};

use crate::control::control;
use crate::copying::copy;
use crate::literal::literal;
use crate::making::{attribute, collect, element, instruction, message};
use crate::simple::without_content;
use crate::variables::variable;
use std::alloc::Global;
use std::rc::Rc;
use xt_engine::Wrapping;
use xt_frames::{Body, Frame, Next, Run};
use xt_questions::World;
use xt_syntax::{Form, Instr, Site, WithContent};
use xt_text::Memory;

/// The next instruction of a body, whose frame was taken off.
pub fn perform<W: World>(
    alloc: Global,
    run: &mut Run,
    instr: &Instr,
    body: Body,
    world: &mut W,
) -> Result<Next, Memory>
    requires room { body.next < usize.MAX }
    requires stands { slice_get (map instr_of body.content.value.items) body.next ≡ Some (instr_of instr.now) }
    ensures does { IfOk result (Performs (W.state world.old).truth (Frame.Body body) (plan (instr_of instr.now).site (instr_of instr.now).form (here_of body.here) (following body (left_in run.old))) run.old run.new) }
    ensures truth { (W.state world.new).truth ≡ (W.state world.old).truth }
    ensures name { W.name world.new ≡ W.name world.old }
{
    match &instr.form {
        Form::WithoutContent(what) => without_content(alloc, run, &instr.site, what, body, world),
        Form::WithContent(what, content) => {
            with_content(alloc, run, &instr.site, what, content, body, world)
        }
        Form::Control(what) => control(alloc, run, &instr.site, what, body, world),
    }
}

/// An instruction that makes something of its content.
fn with_content<W: World>(
    alloc: Global,
    run: &mut Run,
    site: &Site,
    what: &WithContent,
    content: &Rc<Vec<Instr>>,
    body: Body,
    world: &mut W,
) -> Result<Next, Memory>
    requires room { body.next < usize.MAX }
    requires stands { slice_get (map instr_of body.content.value.items) body.next ≡ Some (record { site = site_of site.now; form = made.with_content (with_content_of what.now) (instrs (map instr_of content.now.value.items)) }) }
    ensures does { IfOk result (Performs (W.state world.old).truth (Frame.Body body) (plan (site_of site.now) (made.with_content (with_content_of what.now) (instrs (map instr_of content.now.value.items))) (here_of body.here) (following body (left_in run.old))) run.old run.new) }
    ensures truth { (W.state world.new).truth ≡ (W.state world.old).truth }
    ensures name { W.name world.new ≡ W.name world.old }
{
    match what {
        WithContent::Literal(tag) => literal(alloc, run, site, tag, content, body),
        WithContent::Element(name, sets) => {
            element(alloc, run, site, name, sets, content, body, world)
        }
        WithContent::Attribute(name) => attribute(alloc, run, site, name, content, body, world),
        WithContent::Comment => { collect(alloc, run, site, Wrapping::Comment, content, body) }
        WithContent::ProcessingInstruction(target) => {
            instruction(alloc, run, site, target, content, body, world)
        }
        WithContent::Copy(sets) => copy(alloc, run, site, sets, content, body, world),
        WithContent::Variable(name, select) => {
            variable(alloc, run, site, name, select, content, body, world)
        }
        WithContent::Message(terminates) => message(alloc, run, site, *terminates, content, body),
    }
}
