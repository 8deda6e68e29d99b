// What is made of contents: elements, attributes and processing instructions whose names are made, and messages
// (XSLT 1.0, sections 7.1.2, 7.1.3, 7.3 and 13).
ghost use Rattle.std.specs.Prelude.{◌≡◌, ◌<◌, ◌+◌, suc, length, map, IfOk, OnOk};
ghost use Rattle.spec_stylesheet.specs.Instruction as made;
ghost use Rattle.spec_stylesheet.specs.Instruction.{instrs};
ghost use Rattle.spec_meaning.specs.Question as question;
ghost use Rattle.spec_run.specs.Plan.{Begin, Wrap, Stop, AsMessage};
ghost use Rattle.spec_run.specs.Content.{planned_with, terminated};
ghost use Rattle.xt_syntax.specs.PartView.{site_of, made_name_of, avt_of};
ghost use Rattle.xt_syntax.specs.InstrView.{instr_of};
ghost use Rattle.spec_node.specs.declared.node_ref.NodeRef.{NodeRef};
ghost use Rattle.xt_engine.specs.View.{wrapping_of};
ghost use Rattle.xt_frames.specs.declared.frame.Frame.TheVariants as Frame;
ghost use Rattle.xt_frames.specs.View.{here_of, inside, after_body};
ghost use Rattle.xt_frames.specs.Left.{left_in, Does, Performs};
ghost use Rattle.xt_instructions.specs.Over.{HasBegun};

use crate::sets::collect_with_sets;
use crate::simple::advanced;
use std::alloc::Global;
use std::rc::Rc;
use xt_engine::Wrapping;
use xt_frames::{Body, Came, Frame, Next, Run, Standing, lack, push, sink};
use xt_names::Expanded;
use xt_questions::{World, copy_place};
use xt_syntax::{Avt, Instr, MadeName, Site};
use xt_text::Memory;

/// What collects what its content writes, and is made of that.
pub(crate) fn collect(
    alloc: Global,
    run: &mut Run,
    site: &Site,
    end: Wrapping,
    content: &Rc<Vec<Instr>>,
    body: Body,
) -> Result<Next, Memory>
    requires { body.next < usize.MAX }
    ensures { IfOk result (λ next. (ask : question.Question NodeRef → question.Answer NodeRef) → Does ask (Begin (inside (site_of site.now).place (instrs (map instr_of content.now.value.items)) (here_of body.here) (Wrap (wrapping_of end) (after_body body (left_in run.old))))) (suc (length run.old.frames.items)) run.old run.new next) }
{
    let here = body.here.share()?;
    let rest = Frame::Body(advanced(body));
    sink(alloc, run, rest, end, &site.place, content, here)
}

/// Begins a sink that ends so, before the rest of the body.
pub(crate) fn begin(alloc: Global, run: &mut Run, end: Wrapping, body: Body) -> Result<(), Memory>
    requires { body.next < usize.MAX }
    ensures { OnOk result (HasBegun end body run.old run.new) }
{
    push(run, Frame::Body(advanced(body)))?;
    push(run, Frame::Wrap(end))?;
    run.going.begin(alloc)?;
    Ok(())
}

/// xsl:element (XSLT 1.0, section 7.1.2).
pub(crate) fn element<W: World>(
    alloc: Global,
    run: &mut Run,
    site: &Site,
    name: &MadeName,
    sets: &Vec<Expanded>,
    content: &Rc<Vec<Instr>>,
    body: Body,
    world: &mut W,
) -> Result<Next, Memory>
    requires { body.next < usize.MAX }
    ensures does { IfOk result (Performs (W.state world.old).truth (Frame.Body body) (planned_with (site_of site.now) (here_of body.here) (made.Element (made_name_of name.now) sets.now.items) (inside (site_of site.now).place (instrs (map instr_of content.now.value.items)) (here_of body.here)) (after_body body (left_in run.old))) run.old run.new) }
    ensures truth { (W.state world.new).truth ≡ (W.state world.old).truth }
    ensures name { W.name world.new ≡ W.name world.old }
{
    match xt_frames::element(alloc, run, name, site, &body.here, world)? {
        Came::Is(end) => { collect_with_sets(alloc, run, site, sets, end, content, body) }
        Came::Halts(why) => Ok(Next::Halt(why)),
        Came::Lacks(name) => {
            let depth = body.here.depth;
            lack(alloc, run, Frame::Body(body), name, depth, &site.place)
        }
    }
}

/// xsl:attribute (XSLT 1.0, section 7.1.3).
pub(crate) fn attribute<W: World>(
    alloc: Global,
    run: &mut Run,
    site: &Site,
    name: &MadeName,
    content: &Rc<Vec<Instr>>,
    body: Body,
    world: &mut W,
) -> Result<Next, Memory>
    requires { body.next < usize.MAX }
    ensures does { IfOk result (Performs (W.state world.old).truth (Frame.Body body) (planned_with (site_of site.now) (here_of body.here) (made.Attribute (made_name_of name.now)) (inside (site_of site.now).place (instrs (map instr_of content.now.value.items)) (here_of body.here)) (after_body body (left_in run.old))) run.old run.new) }
    ensures truth { (W.state world.new).truth ≡ (W.state world.old).truth }
    ensures name { W.name world.new ≡ W.name world.old }
{
    match xt_frames::attribute(alloc, run, name, site, &body.here, world)? {
        Came::Is(end) => collect(alloc, run, site, end, content, body),
        Came::Halts(why) => Ok(Next::Halt(why)),
        Came::Lacks(name) => {
            let depth = body.here.depth;
            lack(alloc, run, Frame::Body(body), name, depth, &site.place)
        }
    }
}

/// xsl:processing-instruction (XSLT 1.0, section 7.3).
pub(crate) fn instruction<W: World>(
    alloc: Global,
    run: &mut Run,
    site: &Site,
    target: &Avt,
    content: &Rc<Vec<Instr>>,
    body: Body,
    world: &mut W,
) -> Result<Next, Memory>
    requires { body.next < usize.MAX }
    ensures does { IfOk result (Performs (W.state world.old).truth (Frame.Body body) (planned_with (site_of site.now) (here_of body.here) (made.ProcessingInstruction (avt_of target.now)) (inside (site_of site.now).place (instrs (map instr_of content.now.value.items)) (here_of body.here)) (after_body body (left_in run.old))) run.old run.new) }
    ensures truth { (W.state world.new).truth ≡ (W.state world.old).truth }
    ensures name { W.name world.new ≡ W.name world.old }
{
    match xt_frames::instruction(alloc, run, target, site, &body.here, world)? {
        Came::Is(end) => collect(alloc, run, site, end, content, body),
        Came::Halts(why) => Ok(Next::Halt(why)),
        Came::Lacks(name) => {
            let depth = body.here.depth;
            lack(alloc, run, Frame::Body(body), name, depth, &site.place)
        }
    }
}

/// xsl:message (XSLT 1.0, section 13).
pub(crate) fn message(
    alloc: Global,
    run: &mut Run,
    site: &Site,
    terminates: bool,
    content: &Rc<Vec<Instr>>,
    body: Body,
) -> Result<Next, Memory>
    requires { body.next < usize.MAX }
    ensures { IfOk result (λ next. (ask : question.Question NodeRef → question.Answer NodeRef) → Does ask (planned_with (site_of site.now) (here_of body.here) (made.Message terminates) (inside (site_of site.now).place (instrs (map instr_of content.now.value.items)) (here_of body.here)) (after_body body (left_in run.old))) (suc (length run.old.frames.items)) run.old run.new next) }
{
    if terminates {
        last_message(alloc, run, site, content, body.here)
    } else {
        collect(alloc, run, site, Wrapping::Message, content, body)
    }
}

/// A message that ends the run.
fn last_message(
    alloc: Global,
    run: &mut Run,
    site: &Site,
    content: &Rc<Vec<Instr>>,
    here: Standing,
) -> Result<Next, Memory>
    ensures { IfOk result (λ next. (ask : question.Question NodeRef → question.Answer NodeRef) → Does ask (Begin (inside (site_of site.now).place (instrs (map instr_of content.now.value.items)) (here_of here) (Wrap AsMessage (Stop (terminated (site_of site.now).place))))) (suc (length run.old.frames.items)) run.old run.new next) }
{
    let rest = Frame::Terminate(copy_place(alloc, &site.place)?);
    let end = Wrapping::Message;
    sink(alloc, run, rest, end, &site.place, content, here)
}
