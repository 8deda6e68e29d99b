// A run, up to its end or to what it wants next.
ghost use Rattle.std.specs.Prelude.{◌≡◌, IfOk, OnOk};
ghost use Rattle.std.specs.Option.{option_map};
ghost use Rattle.spec_run.specs.Going.{given, opened};
ghost use Rattle.spec_run.specs.Meaning.{current_by};
ghost use Rattle.xt_syntax.specs.PartView.{place_of};
ghost use Rattle.xt_tree.specs.StreamView.{stream_of};
ghost use Rattle.xt_questions.specs.View.{current_of, supplies_of};
ghost use Rattle.xt_engine.specs.declared.turn.Turn.TheVariants as turns;
ghost use Rattle.xt_engine.specs.View.{call_of, refused_of, ruling_of};
ghost use Rattle.xt_engine.specs.Progress as progress;
ghost use Rattle.xt_engine.specs.Progress.{Goes, started, after_call, after_global};
ghost use Rattle.xt_engine.specs.Advances.{HaltsSo, ending_of, gift_of, ran_of, made};
ghost use Rattle.xt_progress.specs.View.{going_of};
ghost use Rattle.xt_frames.specs.Left.{progress_of, waiting_of};
ghost use Rattle.xt_runner.specs.Onward.{IsWant, Onward};

use crate::step::step;
use spec_expression::DynCode;
use std::alloc::Global;
use std::mem;
use std::rc::Rc;
use xt_base::Place;
use xt_engine::{Call, Entered, Ran, Refused, Ruling, RunFault, Turn};
use xt_frames::{Frame, Next, Run, Waiting};
use xt_names::{Expanded, copy_name};
use xt_progress::Going;
use xt_questions::{CurrentRule, Known, Supplies, World, copy_place, copy_rule_if};
use xt_text::Memory;
use xt_tree::{Items, Value};

/// Starts one instantiation, with so many levels below its own.
pub(crate) fn start(alloc: Global, call: &Call, room: u64) -> Result<Run, Memory>
    ensures { IfOk result (λ run. progress_of run ≡ started (call_of call.now) room) }
{
    let parameters = call.parameters.share()?;
    let target = call.target.copy(alloc)?;
    let mut frames = Vec::new(alloc);
    frames.push(Frame::Start(target, call.node, parameters))?;
    let supplies = supplies_for(alloc, call)?;
    Ok(Run {
        room,
        supplies,
        waiting: Waiting::Nothing,
        frames,
        going: Going::new(alloc),
        did: 0,
    })
}

/// What is at hand for a call.
fn supplies_for(alloc: Global, call: &Call) -> Result<Supplies, Memory>
    ensures { IfOk result (λ s. supplies_of s ≡ progress.supplies_for (call_of call.now)) }
{
    let rule = current_by(alloc, &call.ruling)?;
    Ok(Supplies {
        position: call.position.unwrap_or(1),
        size: call.size.unwrap_or(1),
        rule,
        globals: Vec::new(alloc),
    })
}

/// The current template rule of what is entered. The rule of what enters it has taken the place of `Same` by then.
fn current_by(alloc: Global, ruling: &Ruling) -> Result<Option<CurrentRule>, Memory>
    ensures { IfOk result (λ r. option_map current_of r ≡ current_by (ruling_of ruling.now)) }
{
    match ruling {
        Ruling::Same => Ok(None),
        Ruling::Is(rule) => copy_rule_if(alloc, rule),
    }
}

/// Takes out what a run made that came to its end, with its value where it has one.
fn finish(alloc: Global, run: &mut Run, value: Option<Value>) -> Result<Ran, Memory>
    ensures { IfOk result (λ ran. ran_of ran ≡ made (going_of run.old.going) (ending_of value)) }
{
    let stream = run.going.close(alloc)?;
    let events = mem::replace(&mut run.going.events, Vec::new(alloc));
    Ok(Ran {
        stream,
        value,
        events,
        height: run.going.height,
    })
}

/// The refusal of a run, with what it wrote before.
fn halt(alloc: Global, run: &mut Run, why: Refused) -> RunFault
    ensures { HaltsSo (refused_of why) (going_of run.old.going) (Err result) }
{
    match run.going.written(alloc) {
        Ok(before) => RunFault::Refused(why, before),
        Err(Memory) => RunFault::Memory,
    }
}

/// Goes on from where a run is.
pub(crate) fn go<W: World>(alloc: Global, run: &mut Run, world: &mut W) -> Result<Turn, RunFault>
    ensures onward { Onward (W.state world.old).truth (progress_of run.old) (Goes (going_of run.old.going) (supplies_of run.old.supplies)) (progress_of run.new) result }
    ensures truth { (W.state world.new).truth ≡ (W.state world.old).truth }
    ensures name { W.name world.new ≡ W.name world.old }
{
    loop {
        match step(alloc, run, world)? {
            Next::Went => {}
            Next::Want(call, depth) => {
                return Ok(want(alloc, &mut run.waiting, call, depth)?);
            }
            Next::Needs(name, depth, place) => {
                return Ok(need(alloc, &mut run.waiting, name, depth, place)?);
            }
            Next::Done => return Ok(Turn::Done(finish(alloc, run, None)?)),
            Next::Gave(value) => return Ok(Turn::Done(finish(alloc, run, Some(value))?)),
            Next::Halt(why) => return Err(halt(alloc, run, why)),
        }
    }
}

/// Wants this call, from a content so deep, and waits for it. Calls are large, so from here on it is shared.
fn want(alloc: Global, waiting: &mut Waiting, call: Call, depth: u64) -> Result<Turn, Memory>
    ensures wants { IfOk result (λ turn. IsWant turn call depth) }
    ensures waits { OnOk result (waiting_of waiting.new ≡ progress.ForCall (call_of call) depth) }
{
    let wanted = Rc::new(alloc, call)?;
    let kept = wanted.clone()?;
    drop(mem::replace(waiting, Waiting::ForCall(kept, depth)));
    Ok(Turn::Want(wanted, depth))
}

/// Wants a global that is needed at this place, in a content so deep, and waits for it.
fn need(
    alloc: Global,
    waiting: &mut Waiting,
    name: Expanded,
    depth: u64,
    place: Place,
) -> Result<Turn, Memory>
    ensures wants { IfOk result (λ turn. turn ≡ turns.WantGlobal name depth place) }
    ensures waits { OnOk result (waiting_of waiting.new ≡ progress.ForGlobal name depth (place_of place)) }
{
    let kept = wait_for(alloc, &name, depth, &place)?;
    drop(mem::replace(waiting, kept));
    Ok(Turn::WantGlobal(name, depth, place))
}

/// To wait for a global that is needed at this place.
fn wait_for(alloc: Global, name: &Expanded, depth: u64, place: &Place) -> Result<Waiting, Memory>
    ensures { IfOk result (λ w. waiting_of w ≡ progress.ForGlobal name.now depth (place_of place.now)) }
{
    let name = copy_name(alloc, name)?;
    let place = copy_place(alloc, place)?;
    Ok(Waiting::ForGlobal(name, depth, place))
}

/// Goes on after an instantiation that was entered.
pub(crate) fn go_on_call<W: World>(
    alloc: Global,
    run: &mut Run,
    call: Rc<Call>,
    depth: u64,
    given: Option<Entered>,
    world: &mut W,
) -> Result<Turn, RunFault>
    ensures onward { Onward (W.state world.old).truth (progress_of run.old) (after_call (call_of call.value) depth (going_of run.old.going) (supplies_of run.old.supplies) (gift_of given)) (progress_of run.new) result }
    ensures truth { (W.state world.new).truth ≡ (W.state world.old).truth }
    ensures name { W.name world.new ≡ W.name world.old }
{
    match given {
        Some(Entered::Stream(stream)) => {
            enter(&mut run.going, call, depth, stream)?;
            go(alloc, run, world)
        }
        Some(Entered::Refused(why, stream)) => {
            enter(&mut run.going, call, depth, stream)?;
            Err(halt(alloc, run, why))
        }
        Some(Entered::UnderWay) => {
            let place = copy_place(alloc, &call.by)?;
            drop(call);
            Err(halt(alloc, run, circular(place)))
        }
        Some(Entered::Value(value)) => {
            drop(value);
            drop(call);
            go(alloc, run, world)
        }
        None => {
            drop(call);
            go(alloc, run, world)
        }
    }
}

/// Notes that a call was entered from a content so deep, and leaves a hole for its stream.
fn enter(going: &mut Going, call: Rc<Call>, depth: u64, stream: Rc<Items>) -> Result<(), Memory>
    ensures { OnOk result (going_of going.new ≡ given (stream_of stream.value) (opened (call_of call.value) depth (going_of going.old))) }
{
    going.leave_hole(call, depth)?;
    going.give(stream)
}

/// That a global needs itself, at this place.
fn circular(place: Place) -> Refused
    ensures { refused_of result ≡ progress.circular (place_of place) }
{
    Refused {
        code: DynCode::GlobalCycle,
        place,
    }
}

/// Goes on with a global that is needed.
pub(crate) fn go_on_global<W: World>(
    alloc: Global,
    run: &mut Run,
    name: Expanded,
    depth: u64,
    place: Place,
    given: Option<Entered>,
    world: &mut W,
) -> Result<Turn, RunFault>
    ensures onward { Onward (W.state world.old).truth (progress_of run.old) (after_global name depth (place_of place) (going_of run.old.going) (supplies_of run.old.supplies) (gift_of given)) (progress_of run.new) result }
    ensures truth { (W.state world.new).truth ≡ (W.state world.old).truth }
    ensures name { W.name world.new ≡ W.name world.old }
{
    match given {
        Some(Entered::Value(value)) => {
            drop(place);
            run.supplies.globals.push(Known { name, depth, value })?;
            go(alloc, run, world)
        }
        Some(Entered::Refused(why, _)) => {
            drop(place);
            Err(halt(alloc, run, why))
        }
        Some(Entered::UnderWay) => Err(halt(alloc, run, circular(place))),
        Some(Entered::Stream(_)) => {
            drop(place);
            go(alloc, run, world)
        }
        None => {
            drop(place);
            go(alloc, run, world)
        }
    }
}
