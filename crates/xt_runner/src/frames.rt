// What is left of the frames that evaluate nothing: the next node of a loop, of an application, of items or of copies,
// and the ends of sinks.
ghost use Rattle.std.specs.Prelude.{◌≡◌, ◌<◌, ◌+◌, suc, length, get_or, IfOk, OnOk};
ghost use Rattle.spec_meaning.specs.Question as question;
ghost use Rattle.spec_meaning.specs.Question.{AllRules};
ghost use Rattle.spec_run.specs.Going.{Asked, noted, put};
ghost use Rattle.spec_run.specs.Content.{at, item_call, rule_call};
ghost use Rattle.spec_run.specs.Copy.{stream_in};
ghost use Rattle.xt_syntax.specs.PartView.{place_of};
ghost use Rattle.spec_node.specs.declared.node_ref.NodeRef.{NodeRef};
ghost use Rattle.xt_questions.specs.View.{bindings_of};
ghost use Rattle.xt_engine.specs.View.{call_of};
ghost use Rattle.xt_progress.specs.View.{going_of};
ghost use Rattle.xt_frames.specs.View.{here_of};
ghost use Rattle.xt_frames.specs.declared.frame.Frame.TheVariants as Frame;
ghost use Rattle.xt_frames.specs.declared.run.Run as declared;
ghost use Rattle.xt_frames.specs.Left.{StepsFrom};
ghost use Rattle.xt_runner.specs.Counted.{counted};

use spec_expression::DynCode;
use std::alloc::Global;
use xt_base::Place;
use xt_engine::{Call, Refused, Ruling, Target, Wrapping};
use xt_frames::{
    Application, Body, Copies, Frame, Inside, Items, Loop, Next, Run, Standing, go_into, push,
    share_content, want,
};
use xt_instructions::{call_of_choice, perform, put_copy};
use xt_names::copy_name_if;
use xt_progress::Going;
use xt_questions::{Candidates, Focus, Question, World, copy_place};
use xt_syntax::{Form, Instr, WithoutContent};
use xt_text::Memory;
use xt_tree::NodeRef;

/// Goes on with a content, and counts its next instruction.
pub(crate) fn go_on_body<W: World>(
    alloc: Global,
    run: &mut Run,
    body: Body,
    world: &mut W,
) -> Result<Next, Memory>
    ensures does { IfOk result (StepsFrom (W.state world.old).truth (Frame.Body body) run.old run.new) }
    ensures truth { (W.state world.new).truth ≡ (W.state world.old).truth }
    ensures name { W.name world.new ≡ W.name world.old }
{
    let content = share_content(&body.content)?;
    let instrs = content.as_slice();
    if body.next >= instrs.len() {
        return Ok(Next::Went);
    }
    let instr = &instrs[body.next];
    let next = perform(alloc, run, instr, body, world)?;
    count(run, instr, &next);
    Ok(next)
}

/// Whether it is an element: an instruction, or a literal result element. A text in no xsl:text is none.
fn is_instruction(instr: &Instr) -> bool {
    match &instr.form {
        Form::WithoutContent(WithoutContent::Text(_, is_instruction)) => *is_instruction,
        _ => true,
    }
}

/// Counts an instruction that came to this, unless it is performed again: where it needs a global and nothing of it is
/// begun, its content is put back. The count stays at its greatest value.
fn count(run: &mut Run, instr: &Instr, next: &Next)
    ensures { run.new ≡ counted run.new.did run.old }
{
    let is_put_back = match next {
        Next::Needs(_, _, _) => matches!(run.frames.last(), Some(Frame::Body(_))),
        _ => false,
    };
    if !is_put_back && is_instruction(instr) {
        run.did = run.did.saturating_add(1);
    }
}

/// Goes on after the content of what a sink becomes.
pub(crate) fn go_on_wrap(alloc: Global, run: &mut Run, how: Wrapping) -> Result<Next, Memory>
    ensures { IfOk result (λ next. (ask : question.Question NodeRef → question.Answer NodeRef) → StepsFrom ask (Frame.Wrap how) run.old run.new next) }
{
    run.going.end_wrapped(alloc, how)?;
    Ok(Next::Went)
}

/// Goes on with the nodes of an xsl:for-each.
pub(crate) fn go_on_loop(alloc: Global, run: &mut Run, left: Loop) -> Result<Next, Memory>
    ensures { IfOk result (λ next. (ask : question.Question NodeRef → question.Answer NodeRef) → StepsFrom ask (Frame.Loop left) run.old run.new next) }
{
    if left.next >= left.nodes.as_slice().len() {
        drop(left);
        return Ok(Next::Went);
    }
    let Ok(inner) = next_inside(alloc, &left) else {
        drop(left);
        return Err(Memory);
    };
    push(
        run,
        Frame::Loop(Loop {
            place: left.place,
            content: left.content,
            nodes: left.nodes,
            next: left.next + 1,
            here: left.here,
        }),
    )?;
    let Inside {
        place,
        content,
        here,
    } = inner;
    go_into(alloc, run, &place, content, here)
}

/// The content of a loop for its next node.
fn next_inside(alloc: Global, left: &Loop) -> Result<Inside, Memory>
    requires { left.now.next < length left.now.nodes.items }
    ensures place { IfOk result (λ i. place_of i.place ≡ place_of left.now.place) }
    ensures content { IfOk result (λ i. i.content.value ≡ left.now.content.value) }
    ensures here { IfOk result (λ i. (n : NodeRef) → here_of i.here ≡ at (get_or left.now.nodes.items left.now.next n) (suc left.now.next) (length left.now.nodes.items) (here_of left.now.here)) }
{
    let place = copy_place(alloc, &left.place)?;
    let content = share_content(&left.content)?;
    let here = item_of(left)?;
    Ok(Inside {
        place,
        content,
        here,
    })
}

/// Where the content of a loop stands for its next node: there no template rule is the current one (XSLT 1.0,
/// section 5.6).
fn item_of(left: &Loop) -> Result<Standing, Memory>
    requires { left.now.next < length left.now.nodes.items }
    ensures { IfOk result (λ h. (n : NodeRef) → here_of h ≡ at (get_or left.now.nodes.items left.now.next n) (suc left.now.next) (length left.now.nodes.items) (here_of left.now.here)) }
{
    let nodes = left.nodes.as_slice();
    let position = left.next as u64 + 1;
    left.here.at(nodes[left.next], position, nodes.len() as u64)
}

/// Goes on with nodes whose template rules are entered.
pub(crate) fn go_on_application<W: World>(
    alloc: Global,
    run: &mut Run,
    left: Application,
    world: &mut W,
) -> Result<Next, Memory>
    ensures does { IfOk result (StepsFrom (W.state world.old).truth (Frame.Application left) run.old run.new) }
    ensures truth { (W.state world.new).truth ≡ (W.state world.old).truth }
    ensures name { W.name world.new ≡ W.name world.old }
{
    let nodes = left.nodes.as_slice();
    if left.next >= nodes.len() {
        drop(left);
        return Ok(Next::Went);
    }
    let node = nodes[left.next];
    let Ok(call) = next_call(alloc, &mut run.going, node, &left, world) else {
        drop(left);
        return Err(Memory);
    };
    let depth = left.depth;
    let rest = Frame::Application(Application {
        place: left.place,
        mode: left.mode,
        parameters: left.parameters,
        nodes: left.nodes,
        next: left.next + 1,
        depth,
    });
    want(run, rest, call, depth)
}

/// The call that enters the template rule of this node, which is the next of an application.
fn next_call<W: World>(
    alloc: Global,
    going: &mut Going,
    node: NodeRef,
    left: &Application,
    world: &mut W,
) -> Result<Call, Memory>
    requires { left.now.next < usize.MAX }
    ensures call { IfOk result (λ c. call_of c ≡ rule_call (place_of left.now.place) left.now.mode (bindings_of left.now.parameters) (length left.now.nodes.items) node (left.now.next + 1) ((W.state world.old).truth (question.Choice node left.now.mode AllRules))) }
    ensures noted { OnOk result (going_of going.new ≡ noted (Asked (question.Choice node left.now.mode AllRules) ((W.state world.old).truth (question.Choice node left.now.mode AllRules))) (going_of going.old)) }
    ensures truth { (W.state world.new).truth ≡ (W.state world.old).truth }
    ensures name { W.name world.new ≡ W.name world.old }
{
    let size = left.nodes.as_slice().len() as u64;
    let mode = copy_name_if(alloc, &left.mode)?;
    let question = Question::Choice(node, mode, Candidates::AllRules);
    let answer = going.ask(alloc, world, question)?;
    let rule = answer.into_rule();
    let focus = Focus {
        node,
        position: Some(left.next as u64 + 1),
        size: Some(size),
    };
    let parameters = left.parameters.share()?;
    call_of_choice(alloc, &left.mode, &rule, focus, parameters, &left.place)
}

/// Goes on with nodes for which the template of a content is entered, if there is one.
pub(crate) fn go_on_items(alloc: Global, run: &mut Run, left: Items) -> Result<Next, Memory>
    ensures { IfOk result (λ next. (ask : question.Question NodeRef → question.Answer NodeRef) → StepsFrom ask (Frame.Items left) run.old run.new next) }
{
    let Some(element) = left.element else {
        drop(left);
        return Ok(Next::Went);
    };
    let nodes = left.nodes.as_slice();
    if left.next >= nodes.len() {
        drop(left);
        return Ok(Next::Went);
    }
    let node = nodes[left.next];
    let Ok(call) = next_item(alloc, element, node, &left) else {
        drop(left);
        return Err(Memory);
    };
    let depth = left.depth;
    let rest = Frame::Items(Items {
        place: left.place,
        element: left.element,
        parameters: left.parameters,
        nodes: left.nodes,
        next: left.next + 1,
        depth,
    });
    want(run, rest, call, depth)
}

/// The call that enters the template of this element for this node, which is the next of them: there no template rule
/// is the current one (XSLT 1.0, section 5.6).
fn next_item(alloc: Global, element: NodeRef, node: NodeRef, left: &Items) -> Result<Call, Memory>
    requires { left.now.next < usize.MAX }
    ensures { IfOk result (λ c. call_of c ≡ item_call (place_of left.now.place) element (bindings_of left.now.parameters) (length left.now.nodes.items) node (left.now.next + 1)) }
{
    let position = left.next as u64 + 1;
    let size = left.nodes.as_slice().len() as u64;
    let by = copy_place(alloc, &left.place)?;
    let parameters = left.parameters.share()?;
    Ok(Call {
        target: Target::Unit(element),
        node,
        parameters,
        position: Some(position),
        size: Some(size),
        ruling: Ruling::Is(None),
        by,
    })
}

/// Goes on with nodes that are copied.
pub(crate) fn go_on_copies<W: World>(
    alloc: Global,
    run: &mut Run,
    left: Copies,
    world: &mut W,
) -> Result<Next, Memory>
    ensures does { IfOk result (StepsFrom (W.state world.old).truth (Frame.Copies left) run.old run.new) }
    ensures truth { (W.state world.new).truth ≡ (W.state world.old).truth }
    ensures name { W.name world.new ≡ W.name world.old }
{
    let nodes = left.nodes.as_slice();
    if left.next >= nodes.len() {
        return Ok(Next::Went);
    }
    write_copy(alloc, &mut run.going, nodes[left.next], world)?;
    push(
        run,
        Frame::Copies(Copies {
            nodes: left.nodes,
            next: left.next + 1,
        }),
    )?;
    Ok(Next::Went)
}

/// Writes a copy of this node.
fn write_copy<W: World>(
    alloc: Global,
    going: &mut Going,
    node: NodeRef,
    world: &mut W,
) -> Result<(), Memory>
    ensures written { OnOk result (going_of going.new ≡ put (stream_in ((W.state world.old).truth (question.Copy node))) (noted (Asked (question.Copy node) ((W.state world.old).truth (question.Copy node))) (going_of going.old))) }
    ensures truth { (W.state world.new).truth ≡ (W.state world.old).truth }
    ensures name { W.name world.new ≡ W.name world.old }
{
    let answer = going.ask(alloc, world, Question::Copy(node))?;
    let written = put_copy(going, &answer);
    drop(answer);
    written
}

/// Ends the run, by the message at this place (XSLT 1.0, section 13). Takes no memory.
pub(crate) fn terminate(place: Place) -> Next
    ensures { (ask : question.Question NodeRef → question.Answer NodeRef) → (run : declared.Run) → StepsFrom ask (Frame.Terminate place) run run result }
{
    Next::Halt(Refused {
        code: DynCode::Terminated,
        place,
    })
}
