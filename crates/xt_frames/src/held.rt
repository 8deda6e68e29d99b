// What variables and parameters hold (XSLT 1.0, section 11).
ghost use Rattle.std.specs.Prelude.{◌≡◌, [], suc, length, map, None, IfOk, OnOk};
ghost use Rattle.std.specs.Option.{option_map};
ghost use Rattle.spec_stylesheet.specs.Instruction.{instrs};
ghost use Rattle.spec_meaning.specs.Stream.{Ended, filled};
ghost use Rattle.spec_meaning.specs.Value as values;
ghost use Rattle.spec_meaning.specs.Meaning.{meaning};
ghost use Rattle.spec_meaning.specs.Question as question;
ghost use Rattle.spec_run.specs.Plan.{Plan, Put};
ghost use Rattle.spec_run.specs.Going.{taken, aside};
ghost use Rattle.spec_run.specs.Content.{asked, is_empty, valued};
ghost use Rattle.xt_syntax.specs.View.{expr_of};
ghost use Rattle.xt_syntax.specs.PartView.{site_of};
ghost use Rattle.xt_syntax.specs.InstrView.{instr_of};
ghost use Rattle.spec_node.specs.declared.node_ref.NodeRef.{NodeRef};
ghost use Rattle.xt_tree.specs.ValueView.{value_of};
ghost use Rattle.xt_progress.specs.View.{going_of};
ghost use Rattle.xt_frames.specs.declared.frame.Frame.TheVariants as Frame;
ghost use Rattle.xt_frames.specs.declared.frame.Holder.TheVariants as holders;
ghost use Rattle.xt_frames.specs.View.{here_of, inside, left_frame, left_with};
ghost use Rattle.xt_frames.specs.Left.{left_in, Does, Performs, StepsFrom};

use crate::standing::{one_more, share_content};
use crate::{
    Arguments, Body, Came, Frame, Holder, Next, Parameters, Run, Standing, go_into, lack, push,
    value,
};
use std::alloc::Global;
use std::rc::Rc;
use xt_names::Expanded;
use xt_progress::Going;
use xt_questions::World;
use xt_streams::fragment_of;
use xt_syntax::{Expr, Instr, Site};
use xt_text::{Memory, Text};
use xt_tree::Value;

/// What is left once this value is held.
pub fn holding(alloc: Global, holder: Holder, value: Value) -> Result<Frame, Memory>
    ensures { IfOk result (λ f. (after : Plan NodeRef) → left_frame f after ≡ left_with holder (value_of value) after) }
{
    match holder {
        Holder::Variable(name, body) => with_variable(alloc, name, value, body),
        Holder::Argument(name, arguments) => with_argument(alloc, name, value, arguments),
        Holder::Parameter(name, parameters) => with_parameter(alloc, name, value, parameters),
    }
}

// A body that sees one more variable.
fn with_variable(alloc: Global, name: Expanded, value: Value, body: Body) -> Result<Frame, Memory>
    ensures { IfOk result (λ f. (after : Plan NodeRef) → left_frame f after ≡ left_with (holders.Variable name body) (value_of value) after) }
{
    let here = body.here.with_variable(alloc, name, value)?;
    Ok(Frame::Body(Body {
        content: body.content,
        next: body.next,
        here,
    }))
}

// One more argument that is passed.
fn with_argument(
    alloc: Global,
    name: Expanded,
    value: Value,
    arguments: Arguments,
) -> Result<Frame, Memory>
    ensures { IfOk result (λ f. (after : Plan NodeRef) → left_frame f after ≡ left_with (holders.Argument name arguments) (value_of value) after) }
{
    let Arguments {
        bindings,
        next,
        done,
        here,
        to,
    } = arguments;
    let Ok(done) = one_more(alloc, name, value, done) else {
        drop(bindings);
        drop(here);
        drop(to);
        return Err(Memory);
    };
    Ok(Frame::Arguments(Arguments {
        bindings,
        next,
        done,
        here,
        to,
    }))
}

// The parameters of a template that see one more.
fn with_parameter(
    alloc: Global,
    name: Expanded,
    value: Value,
    parameters: Parameters,
) -> Result<Frame, Memory>
    ensures { IfOk result (λ f. (after : Plan NodeRef) → left_frame f after ≡ left_with (holders.Parameter name parameters) (value_of value) after) }
{
    let here = parameters.here.with_variable(alloc, name, value)?;
    Ok(Frame::Parameters(Parameters {
        bindings: parameters.bindings,
        next: parameters.next,
        given: parameters.given,
        content: parameters.content,
        here,
    }))
}

/// What the element at this site holds, by its select or its content, and then what is left once that is held.
/// Where its select lacks a global, this frame is put back.
pub fn hold<W: World>(
    alloc: Global,
    run: &mut Run,
    site: &Site,
    select: &Option<Expr>,
    content: &Rc<Vec<Instr>>,
    here: &Standing,
    holder: Holder,
    back: Frame,
    world: &mut W,
) -> Result<Next, Memory>
    ensures does { IfOk result (Performs (W.state world.old).truth back (valued (site_of site.now) (here_of here.now) (option_map expr_of select.now) (is_empty (instrs (map instr_of content.now.value.items))) (inside (site_of site.now).place (instrs (map instr_of content.now.value.items)) (here_of here.now)) (λ v. left_with holder v (left_in run.old))) run.old run.new) }
    ensures truth { (W.state world.new).truth ≡ (W.state world.old).truth }
    ensures name { W.name world.new ≡ W.name world.old }
{
    match select {
        Some(expr) => hold_selected(alloc, run, site, expr, here, holder, back, world),
        None => {
            drop(back);
            hold_content(alloc, run, site, content, here, holder)
        }
    }
}

// The value of this expression.
fn hold_selected<W: World>(
    alloc: Global,
    run: &mut Run,
    site: &Site,
    select: &Expr,
    here: &Standing,
    holder: Holder,
    back: Frame,
    world: &mut W,
) -> Result<Next, Memory>
    ensures does { IfOk result (Performs (W.state world.old).truth back (asked (site_of site.now) (here_of here.now) (meaning (expr_of select.now)) (λ v. Put Ended (left_with holder v (left_in run.old)))) run.old run.new) }
    ensures truth { (W.state world.new).truth ≡ (W.state world.old).truth }
    ensures name { W.name world.new ≡ W.name world.old }
{
    match value(alloc, run, select, site, here, world)? {
        Came::Is(value) => hold_value(alloc, run, holder, value),
        Came::Halts(why) => Ok(Next::Halt(why)),
        Came::Lacks(name) => lack(alloc, run, back, name, here.depth, &site.place),
    }
}

// What this content makes, or the empty string where there is none.
fn hold_content(
    alloc: Global,
    run: &mut Run,
    site: &Site,
    content: &Rc<Vec<Instr>>,
    here: &Standing,
    holder: Holder,
) -> Result<Next, Memory>
    ensures { IfOk result (λ next. (ask : question.Question NodeRef → question.Answer NodeRef) → Does ask (valued (site_of site.now) (here_of here.now) None (is_empty (instrs (map instr_of content.now.value.items))) (inside (site_of site.now).place (instrs (map instr_of content.now.value.items)) (here_of here.now)) (λ v. left_with holder v (left_in run.old))) (suc (length run.old.frames.items)) run.old run.new next) }
{
    if content.is_empty() {
        return hold_value(alloc, run, holder, Value::Text(Text::new(alloc)));
    }
    push(run, Frame::Take(holder))?;
    run.going.begin(alloc)?;
    let inner = share_content(content)?;
    let here = here.share()?;
    go_into(alloc, run, &site.place, inner, here)
}

/// Goes on after the content of what holds it: the innermost sink is taken.
pub fn take_held(alloc: Global, run: &mut Run, holder: Holder) -> Result<Next, Memory>
    ensures { IfOk result (λ next. (ask : question.Question NodeRef → question.Answer NodeRef) → StepsFrom ask (Frame.Take holder) run.old run.new next) }
{
    let Ok(value) = taken_value(alloc, &mut run.going) else {
        drop(holder);
        return Err(Memory);
    };
    let frame = holding(alloc, holder, value)?;
    push(run, frame)?;
    Ok(Next::Went)
}

// The value that the innermost sink makes, which is taken.
fn taken_value(alloc: Global, going: &mut Going) -> Result<Value, Memory>
    ensures value { IfOk result (λ v. value_of v ≡ values.Fragment (filled (taken (going_of going.old)) [])) }
    ensures going { OnOk result (going_of going.new ≡ aside (going_of going.old)) }
{
    let items = going.take(alloc)?;
    let fragment = fragment_of(alloc, &items)?;
    Ok(Value::Fragment(fragment))
}

// Nothing is written, and this value is held.
fn hold_value(alloc: Global, run: &mut Run, holder: Holder, value: Value) -> Result<Next, Memory>
    ensures { IfOk result (λ next. (ask : question.Question NodeRef → question.Answer NodeRef) → Does ask (Put Ended (left_with holder (value_of value) (left_in run.old))) (suc (length run.old.frames.items)) run.old run.new next) }
{
    let frame = holding(alloc, holder, value)?;
    push(run, frame)?;
    Ok(Next::Went)
}
