// Variables, and parameters that are passed (XSLT 1.0, section 11).
ghost use Rattle.std.specs.Prelude.{◌≡◌, ◌<◌, ◌+◌, [], suc, length, map, IfOk};
ghost use Rattle.std.specs.Option.{option_map};
ghost use Rattle.spec_stylesheet.specs.Instruction as made;
ghost use Rattle.spec_stylesheet.specs.Instruction.{instrs};
ghost use Rattle.spec_meaning.specs.Question as question;
ghost use Rattle.spec_meaning.specs.Stream.{Ended};
ghost use Rattle.spec_run.specs.Plan.{Put};
ghost use Rattle.spec_run.specs.Content.{is_empty, passed, valued, with_variable};
ghost use Rattle.xt_syntax.specs.View.{expr_of};
ghost use Rattle.xt_syntax.specs.PartView.{site_of};
ghost use Rattle.xt_syntax.specs.InstrView.{binding_of, instr_of};
ghost use Rattle.spec_node.specs.declared.node_ref.NodeRef.{NodeRef};
ghost use Rattle.xt_frames.specs.declared.frame.Frame.TheVariants as Frame;
ghost use Rattle.xt_frames.specs.View.{here_of, inside, following, passed_to};
ghost use Rattle.xt_frames.specs.Left.{left_in, Does, Performs};

use crate::simple::advanced;
use std::alloc::Global;
use std::rc::Rc;
use xt_frames::{
    Arguments, Body, Frame, Holder, Next, Passing, Run, Standing, hold, push, share_content,
};
use xt_names::{Expanded, copy_name};
use xt_questions::{Bindings, World};
use xt_syntax::{Binding, Expr, Instr, Site};
use xt_text::Memory;

/// xsl:variable (XSLT 1.0, section 11.2). The rest of the body sees it.
pub(crate) fn variable<W: World>(
    alloc: Global,
    run: &mut Run,
    site: &Site,
    name: &Expanded,
    select: &Option<Expr>,
    content: &Rc<Vec<Instr>>,
    body: Body,
    world: &mut W,
) -> Result<Next, Memory>
    requires { body.next < usize.MAX }
    ensures does { IfOk result (Performs (W.state world.old).truth (Frame.Body body) (valued (site_of site.now) (here_of body.here) (option_map expr_of select.now) (is_empty (instrs (map instr_of content.now.value.items))) (inside (site_of site.now).place (instrs (map instr_of content.now.value.items)) (here_of body.here)) (λ v. following body (left_in run.old) (with_variable name.now v (here_of body.here)))) run.old run.new) }
    ensures truth { (W.state world.new).truth ≡ (W.state world.old).truth }
    ensures name { W.name world.new ≡ W.name world.old }
{
    let Ok(name) = copy_name(alloc, name) else {
        drop(body);
        return Err(Memory);
    };
    let Ok(shared) = share_body(&body) else {
        drop(body);
        return Err(Memory);
    };
    let Ok(here) = body.here.share() else {
        drop(shared);
        drop(body);
        return Err(Memory);
    };
    let holder = Holder::Variable(name, advanced(shared));
    let back = Frame::Body(body);
    hold(
        alloc, run, site, select, content, &here, holder, back, world,
    )
}

/// The same body, shared.
fn share_body(body: &Body) -> Result<Body, Memory>
    ensures content { IfOk result (λ b. b.content.value ≡ body.now.content.value) }
    ensures next { IfOk result (λ b. b.next ≡ body.now.next) }
    ensures here { IfOk result (λ b. here_of b.here ≡ here_of body.now.here) }
{
    let content = share_content(&body.content)?;
    let here = body.here.share()?;
    Ok(Body {
        content,
        next: body.next,
        here,
    })
}

/// Passes these parameters to templates, from an instruction that stands here.
pub(crate) fn pass(
    run: &mut Run,
    bindings: Rc<Vec<Binding>>,
    here: Standing,
    to: Passing,
) -> Result<Next, Memory>
    ensures { IfOk result (λ next. (ask : question.Question NodeRef → question.Answer NodeRef) → Does ask (Put Ended (passed (made.bindings (map binding_of bindings.value.items)) (here_of here) [] (λ parameters. passed_to to parameters (left_in run.old)))) (length run.old.frames.items) run.old run.new next) }
{
    let arguments = Arguments {
        bindings,
        next: 0,
        done: Bindings::Empty,
        here,
        to,
    };
    push(run, Frame::Arguments(arguments))?;
    Ok(Next::Went)
}
