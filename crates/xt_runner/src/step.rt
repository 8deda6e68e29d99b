// One step of a run, by the frame that is on top.
ghost use Rattle.std.specs.Prelude.{◌≡◌, length, suc, IfOk};
ghost use Rattle.xt_frames.specs.declared.frame.Frame.TheVariants as Frame;
ghost use Rattle.xt_frames.specs.Left.{left_in, Steps, StepsFrom};

use crate::frames::{
    go_on_application, go_on_body, go_on_copies, go_on_items, go_on_loop, go_on_wrap, terminate,
};
use crate::parameters::{go_on_arguments, go_on_global, go_on_parameters};
use crate::start::go_on_start;
use std::alloc::Global;
use xt_frames::{Branches, Frame, Next, Run, take_held};
use xt_instructions::{choose_from, go_on_attributes, go_on_inside, go_on_sets, go_on_sorting};
use xt_questions::World;
use xt_text::Memory;

/// One step of a run.
pub(crate) fn step<W: World>(alloc: Global, run: &mut Run, world: &mut W) -> Result<Next, Memory>
    ensures does { IfOk result (Steps (W.state world.old).truth (left_in run.old) (length run.old.frames.items) run.old run.new) }
    ensures truth { (W.state world.new).truth ≡ (W.state world.old).truth }
    ensures name { W.name world.new ≡ W.name world.old }
{
    match run.frames.pop() {
        None => Ok(Next::Done),
        Some(frame) => go_on(alloc, run, frame, world),
    }
}

/// Goes on with a frame, which was taken off.
fn go_on<W: World>(
    alloc: Global,
    run: &mut Run,
    frame: Frame,
    world: &mut W,
) -> Result<Next, Memory>
    ensures does { IfOk result (StepsFrom (W.state world.old).truth frame run.old run.new) }
    ensures truth { (W.state world.new).truth ≡ (W.state world.old).truth }
    ensures name { W.name world.new ≡ W.name world.old }
{
    match frame {
        Frame::Start(target, node, parameters) => {
            go_on_start(alloc, run, target, node, parameters, world)
        }
        Frame::Body(body) => go_on_body(alloc, run, body, world),
        Frame::Sets(left) => go_on_sets(alloc, run, left),
        Frame::Inside(left) => go_on_inside(alloc, run, left),
        Frame::Sorting(left) => go_on_sorting(alloc, run, left, world),
        Frame::Attributes(attributes) => go_on_attributes(alloc, run, attributes, world),
        Frame::Branches(branches) => go_on_branches(alloc, run, branches, world),
        Frame::Loop(left) => go_on_loop(alloc, run, left),
        Frame::Application(left) => go_on_application(alloc, run, left, world),
        Frame::Items(left) => go_on_items(alloc, run, left),
        Frame::Arguments(left) => go_on_arguments(alloc, run, left, world),
        Frame::Parameters(left) => go_on_parameters(alloc, run, left, world),
        Frame::Global(here) => go_on_global(alloc, run, here, world),
        Frame::Copies(left) => go_on_copies(alloc, run, left, world),
        Frame::Wrap(how) => go_on_wrap(alloc, run, how),
        Frame::Take(holder) => take_held(alloc, run, holder),
        Frame::Terminate(place) => Ok(terminate(place)),
    }
}

/// Goes on with branches.
fn go_on_branches<W: World>(
    alloc: Global,
    run: &mut Run,
    branches: Branches,
    world: &mut W,
) -> Result<Next, Memory>
    ensures does { IfOk result (StepsFrom (W.state world.old).truth (Frame.Branches branches) run.old run.new) }
    ensures truth { (W.state world.new).truth ≡ (W.state world.old).truth }
    ensures name { W.name world.new ≡ W.name world.old }
{
    choose_from(alloc, run, branches, world)
}
