// Instructions without a content (XSLT 1.0, sections 5.6, 7.2, 7.6.1, 7.7 and 11.3).
ghost use Rattle.std.specs.Prelude.{◌≡◌, ◌<◌, ◌+◌, suc, length, map, IfOk, OnOk};
ghost use Rattle.spec_stylesheet.specs.Instruction as made;
ghost use Rattle.spec_stylesheet.specs.Instruction.{instrs};
ghost use Rattle.spec_meaning.specs.Question as question;
ghost use Rattle.spec_meaning.specs.Stream.{Ended};
ghost use Rattle.spec_run.specs.Plan.{Plan, Put};
ghost use Rattle.spec_run.specs.Content.{planned_without, text_item};
ghost use Rattle.xt_syntax.specs.View.{expr_of};
ghost use Rattle.xt_syntax.specs.PartView.{place_of, site_of, without_content_of};
ghost use Rattle.xt_syntax.specs.InstrView.{instr_of};
ghost use Rattle.spec_node.specs.declared.node_ref.NodeRef.{NodeRef};
ghost use Rattle.xt_questions.specs.Runs.{itself};
ghost use Rattle.xt_progress.specs.View.{going_of};
ghost use Rattle.xt_frames.specs.declared.run.Run as declared;
ghost use Rattle.xt_frames.specs.declared.frame.Frame.TheVariants as Frame;
ghost use Rattle.xt_frames.specs.View.{here_of, inside, after_body};
ghost use Rattle.xt_frames.specs.Left.{left_in, hand, Does, Found, IsStill, Performs, Pushed};

use crate::copying::write_value;
use crate::imports::apply_imports;
use std::alloc::Global;
use std::rc::Rc;
use xt_frames::{
    Body, Came, Frame, Next, Run, Standing, go_into, lack, number, push, share_content, text,
    value, write_text,
};
use xt_questions::World;
use xt_syntax::{Expr, Instr, Site, WithoutContent};
use xt_text::{Memory, Text};

/// The body after its next instruction.
pub(crate) fn advanced(body: Body) -> Body
    requires { body.next < usize.MAX }
    ensures { result ≡ record { content = body.content; next = body.next + 1; here = body.here } }
{
    Body {
        content: body.content,
        next: body.next + 1,
        here: body.here,
    }
}

/// Puts the body after its next instruction on top, and tells where it stands.
pub(crate) fn put_rest(run: &mut Run, body: Body) -> Result<Standing, Memory>
    requires { body.next < usize.MAX }
    ensures here { IfOk result (λ here. here_of here ≡ here_of body.here) }
    ensures depth { IfOk result (λ here. here.depth ≡ body.here.depth) }
    ensures pushed { OnOk result (Pushed (Frame.Body (record { content = body.content; next = body.next + 1; here = body.here })) run.old run.new) }
{
    let Ok(here) = body.here.share() else {
        drop(body);
        return Err(Memory);
    };
    push(run, Frame::Body(advanced(body)))?;
    Ok(here)
}

/// An instruction that writes nothing.
pub(crate) fn nothing(run: &mut Run, body: Body) -> Result<Next, Memory>
    requires { body.next < usize.MAX }
    ensures { IfOk result (λ next. (ask : question.Question NodeRef → question.Answer NodeRef) → Does ask (Put Ended (after_body body (left_in run.old))) (suc (length run.old.frames.items)) run.old run.new next) }
{
    push(run, Frame::Body(advanced(body)))?;
    Ok(Next::Went)
}

/// Goes into the content of an instruction, before the rest of the body.
pub(crate) fn into_content(
    alloc: Global,
    run: &mut Run,
    site: &Site,
    content: &Rc<Vec<Instr>>,
    body: Body,
) -> Result<Next, Memory>
    requires { body.next < usize.MAX }
    ensures { IfOk result (λ next. (ask : question.Question NodeRef → question.Answer NodeRef) → Does ask (inside (site_of site.now).place (instrs (map instr_of content.now.value.items)) (here_of body.here) (after_body body (left_in run.old))) (suc (length run.old.frames.items)) run.old run.new next) }
{
    let here = put_rest(run, body)?;
    let inner = share_content(content)?;
    go_into(alloc, run, &site.place, inner, here)
}

/// An instruction without a content.
pub(crate) fn without_content<W: World>(
    alloc: Global,
    run: &mut Run,
    site: &Site,
    what: &WithoutContent,
    body: Body,
    world: &mut W,
) -> Result<Next, Memory>
    requires { body.next < usize.MAX }
    ensures does { IfOk result (Performs (W.state world.old).truth (Frame.Body body) (planned_without (site_of site.now) (here_of body.here) (without_content_of what.now) (after_body body (left_in run.old))) run.old run.new) }
    ensures truth { (W.state world.new).truth ≡ (W.state world.old).truth }
    ensures name { W.name world.new ≡ W.name world.old }
{
    match what {
        WithoutContent::Text(text, _) => {
            let text = text.copy(alloc)?;
            write_text(run, text, Frame::Body(advanced(body)))
        }
        WithoutContent::ValueOf(select) => {
            let found = text(alloc, run, select, site, &body.here, world);
            write_found(alloc, run, site, found, body)
        }
        WithoutContent::CopyOf(select) => copy_of(alloc, run, site, select, body, world),
        WithoutContent::Number(numbering) => {
            let found = number(alloc, run, numbering, site, &body.here, world);
            write_found(alloc, run, site, found, body)
        }
        WithoutContent::ApplyImports => apply_imports(alloc, run, site, body, world),
        WithoutContent::Fallback => nothing(run, body),
    }
}

/// Writes the text of an xsl:value-of or of an xsl:number (XSLT 1.0, sections 7.6.1 and 7.7), before the rest of the
/// body.
fn write_found(
    alloc: Global,
    run: &mut Run,
    site: &Site,
    found: Result<Came<Text>, Memory>,
    body: Body,
) -> Result<Next, Memory>
    requires { body.next < usize.MAX }
    ensures { IfOk result (λ next. (ask : question.Question NodeRef → question.Answer NodeRef) → (was : declared.Run) → (p : Plan NodeRef) → IfOk found (λ came. Found itself ask (hand was) was.room p (λ t. Put (text_item t) (after_body body (left_in was))) body.here.depth (place_of site.now.place) (going_of was.going) (going_of run.old.going) came) → IsStill was run.old → Performs ask (Frame.Body body) p was run.new next) }
{
    let Ok(came) = found else {
        drop(body);
        return Err(Memory);
    };
    match came {
        Came::Is(text) => write_text(run, text, Frame::Body(advanced(body))),
        Came::Halts(why) => {
            drop(body);
            Ok(Next::Halt(why))
        }
        Came::Lacks(name) => {
            let depth = body.here.depth;
            lack(alloc, run, Frame::Body(body), name, depth, &site.place)
        }
    }
}

/// xsl:copy-of (XSLT 1.0, section 11.3).
fn copy_of<W: World>(
    alloc: Global,
    run: &mut Run,
    site: &Site,
    select: &Expr,
    body: Body,
    world: &mut W,
) -> Result<Next, Memory>
    requires { body.next < usize.MAX }
    ensures does { IfOk result (Performs (W.state world.old).truth (Frame.Body body) (planned_without (site_of site.now) (here_of body.here) (made.CopyOf (expr_of select.now)) (after_body body (left_in run.old))) run.old run.new) }
    ensures truth { (W.state world.new).truth ≡ (W.state world.old).truth }
    ensures name { W.name world.new ≡ W.name world.old }
{
    let Ok(came) = value(alloc, run, select, site, &body.here, world) else {
        drop(body);
        return Err(Memory);
    };
    match came {
        Came::Is(value) => write_value(alloc, run, value, body),
        Came::Halts(why) => {
            drop(body);
            Ok(Next::Halt(why))
        }
        Came::Lacks(name) => {
            let depth = body.here.depth;
            lack(alloc, run, Frame::Body(body), name, depth, &site.place)
        }
    }
}
