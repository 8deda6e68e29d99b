// How far an instantiation has come, and what each step does to its frames.
ghost use Rattle.std.specs.Prelude.{◌≡◌, suc, length, [], ◌∷◌, ◌++◌, map, IfOk, OnOk};
ghost use Rattle.spec_stylesheet.specs.Instruction.{instrs};
ghost use Rattle.spec_meaning.specs.Question as question;
ghost use Rattle.spec_run.specs.Plan.{Put, Begin, Wrap, Enter};
ghost use Rattle.spec_run.specs.Going.{begun};
ghost use Rattle.spec_run.specs.Content.{text_item};
ghost use Rattle.xt_syntax.specs.PartView.{place_of};
ghost use Rattle.xt_syntax.specs.InstrView.{instr_of};
ghost use Rattle.spec_node.specs.declared.node_ref.NodeRef.{NodeRef};
ghost use Rattle.xt_engine.specs.View.{call_of, wrapping_of};
ghost use Rattle.xt_progress.specs.View.{going_of};
ghost use Rattle.xt_frames.specs.View.{here_of, inside, left_frame};
ghost use Rattle.xt_frames.specs.Left.{left_in, Does, Pushed, HasNeeds};

use crate::standing::share_content;
use crate::{Body, Frame, Standing};
use spec_expression::DynCode;
use std::alloc::Global;
use std::rc::Rc;
use xt_base::Place;
use xt_engine::{Call, Refused, Wrapping};
use xt_names::Expanded;
use xt_progress::Going;
use xt_questions::{Supplies, copy_place};
use xt_syntax::Instr;
use xt_text::{Memory, Text};
use xt_tree::{Fragment, Item, Value};

/// What a run waits for.
#[derive(Drop)]
pub enum Waiting {
    Nothing,
    /// An instantiation, from a content so deep.
    ForCall(Rc<Call>, u64),
    /// A global that the element at this place needs, in a content so deep.
    ForGlobal(Expanded, u64, Place),
}

/// The run of one instantiation.
#[derive(Drop)]
pub struct Run {
    /// How many levels there are below its own.
    pub room: u64,
    pub supplies: Supplies,
    pub waiting: Waiting,
    /// What is left of it, the innermost last.
    pub frames: Vec<Frame>,
    pub going: Going,
    /// How many instructions it has performed since that was last taken. No clause speaks of it.
    pub did: u64,
}

/// What one step of a run came to.
#[derive(Drop)]
pub enum Next {
    Went,
    /// An instantiation is to be entered, from a content so deep.
    Want(Call, u64),
    /// A global is needed by the element at this place, in a content so deep.
    Needs(Expanded, u64, Place),
    /// Nothing is left.
    Done,
    /// This is the value of the global that was run.
    Gave(Value),
    Halt(Refused),
}

/// What an expression came to.
#[derive(Drop)]
pub enum Came<T> {
    Is(T),
    Halts(Refused),
    /// This global is not at hand.
    Lacks(Expanded),
}

/// Puts a frame on top.
pub fn push(run: &mut Run, frame: Frame) -> Result<(), Memory>
    ensures { OnOk result (Pushed frame run.old run.new) }
{
    run.frames.push(frame)?;
    Ok(())
}

/// Puts a frame back whose element lacks a global.
pub fn lack(
    alloc: Global,
    run: &mut Run,
    frame: Frame,
    name: Expanded,
    depth: u64,
    place: &Place,
) -> Result<Next, Memory>
    ensures needs { IfOk result (HasNeeds name depth (place_of place.now)) }
    ensures pushed { OnOk result (Pushed frame run.old run.new) }
{
    push(run, frame)?;
    let place = copy_place(alloc, place)?;
    Ok(Next::Needs(name, depth, place))
}

/// Writes a text, before the rest.
pub fn write_text(run: &mut Run, text: Text, rest: Frame) -> Result<Next, Memory>
    ensures { IfOk result (λ next. (ask : question.Question NodeRef → question.Answer NodeRef) → Does ask (Put (text_item text) (left_frame rest (left_in run.old))) (suc (length run.old.frames.items)) run.old run.new next) }
{
    push(run, rest)?;
    run.going.put(Item::Text(text))?;
    Ok(Next::Went)
}

/// Writes the items of a fragment, before the rest.
pub fn write_fragment(run: &mut Run, fragment: &Fragment, rest: Frame) -> Result<Next, Memory>
    ensures { IfOk result (λ next. (ask : question.Question NodeRef → question.Answer NodeRef) → Does ask (Put fragment.now (left_frame rest (left_in run.old))) (suc (length run.old.frames.items)) run.old run.new next) }
{
    push(run, rest)?;
    run.going.put_fragment(fragment)?;
    Ok(Next::Went)
}

/// Wants a call from a content so deep, before the rest.
pub fn want(run: &mut Run, rest: Frame, call: Call, depth: u64) -> Result<Next, Memory>
    ensures { IfOk result (λ next. (ask : question.Question NodeRef → question.Answer NodeRef) → Does ask (Enter (call_of call) depth (left_frame rest (left_in run.old))) (suc (length run.old.frames.items)) run.old run.new next) }
{
    let Ok(()) = push(run, rest) else {
        drop(call);
        return Err(Memory);
    };
    Ok(Next::Want(call, depth))
}

/// Goes into a content of the element at this place, one level deeper than where the element stands.
pub fn go_into(
    alloc: Global,
    run: &mut Run,
    place: &Place,
    content: Rc<Vec<Instr>>,
    here: Standing,
) -> Result<Next, Memory>
    ensures { IfOk result (λ next. (ask : question.Question NodeRef → question.Answer NodeRef) → Does ask (inside (place_of place.now) (instrs (map instr_of content.value.items)) (here_of here) (left_in run.old)) (length run.old.frames.items) run.old run.new next) }
{
    if here.depth >= run.room {
        drop(content);
        drop(here);
        let place = copy_place(alloc, place)?;
        return Ok(Next::Halt(Refused {
            code: DynCode::TooDeep,
            place,
        }));
    }
    let depth = here.depth + 1;
    run.going.deepen(depth);
    let inner = Standing {
        focus: here.focus,
        bindings: here.bindings,
        depth,
        ruled: here.ruled,
        unit: here.unit,
    };
    push(
        run,
        Frame::Body(Body {
            content,
            next: 0,
            here: inner,
        }),
    )?;
    Ok(Next::Went)
}

/// Begins a sink for a content one level deeper, which ends with this, before the rest.
pub fn sink(
    alloc: Global,
    run: &mut Run,
    rest: Frame,
    end: Wrapping,
    place: &Place,
    content: &Rc<Vec<Instr>>,
    here: Standing,
) -> Result<Next, Memory>
    ensures { IfOk result (λ next. (ask : question.Question NodeRef → question.Answer NodeRef) → Does ask (Begin (inside (place_of place.now) (instrs (map instr_of content.now.value.items)) (here_of here) (Wrap (wrapping_of end) (left_frame rest (left_in run.old))))) (suc (length run.old.frames.items)) run.old run.new next) }
{
    let Ok(()) = begin(alloc, run, rest) else {
        drop(end);
        drop(here);
        return Err(Memory);
    };
    push(run, Frame::Wrap(end))?;
    let inner = share_content(content)?;
    go_into(alloc, run, place, inner, here)
}

// Begins a sink, before the rest.
fn begin(alloc: Global, run: &mut Run, rest: Frame) -> Result<(), Memory>
    ensures frames { OnOk result (run.new.frames.items ≡ run.old.frames.items ++ rest ∷ []) }
    ensures going { OnOk result (going_of run.new.going ≡ begun (going_of run.old.going)) }
    ensures room { OnOk result (run.new.room ≡ run.old.room) }
    ensures supplies { OnOk result (run.new.supplies ≡ run.old.supplies) }
{
    push(run, rest)?;
    run.going.begin(alloc)
}
