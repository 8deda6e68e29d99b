// One level of calls. All that lives while what it enters is run stands on the heap, and what is large is handled in
// functions that are over by then, so that a level takes little of the stack.
ghost use Rattle.std.specs.Prelude.{◌≡◌, ◌≤◌, [], true, IfOk, None, OnOk};
ghost use Rattle.spec_result.specs.Recovery.{messages_of};
ghost use Rattle.xt_tree.specs.StreamView.{streams_of};
ghost use Rattle.xt_engine.specs.View.{call_of};
ghost use Rattle.xt_engine.specs.Advances.{gift_of};
ghost use Rattle.xt_engine.specs.Progress.{started};
ghost use Rattle.xt_result.specs.Silent.{all_messages};
ghost use Rattle.xt_record.specs.Sure.{IsSure};
ghost use Rattle.xt_driver.specs.View.{outcome_of, IsStreamed, IsTaken};
ghost use Rattle.xt_driver.specs.Referring.{spare_in, spare_of};
ghost use Rattle.xt_driver.specs.Steps.{Steps};

use crate::calls::settled;
use crate::came::Outcome;
use crate::memo::Referred;
use crate::outcome::{both_silent, fewer, streamed};
use std::alloc::Global;
use std::rc::Rc;
use xt_base::Place;
use xt_engine::{Call, Engine, Entered, Ran, RunFault, Turn};
use xt_names::Expanded;
use xt_questions::World;
use xt_record::Reuse;
use xt_text::Memory;
use xt_tree::Items;

/// Where a level stands.
#[derive(Drop)]
pub struct Level<R> {
    /// On the heap by itself: where a level ends, what is left of it is moved to the stack, in each place that ends it.
    pub run: Box<R>,
    /// What the run is given next.
    pub given: Option<Entered>,
    /// Up to where what stood in its place was gone through: a hint.
    pub at: usize,
    /// The streams of all that it entered.
    pub parts: Vec<Rc<Items>>,
    /// With so many levels fewer below its own, what it entered and needed comes to the same.
    pub spare: u64,
    /// It says so only where there is no message in these streams.
    pub is_silent: bool,
    ghost silent: { is_silent ≡ true → all_messages (streams_of parts.items) ≡ [] },
}

/// A global that an expression at this element needs.
#[derive(Drop)]
pub struct Needed {
    pub name: Expanded,
    pub place: Place,
}

/// How far a level came.
#[derive(Drop)]
pub enum Step {
    /// To a call that it enters, with so many levels left for it.
    Enter(Rc<Call>, u64),
    /// To a global that it needs, with so many levels left for it.
    Refer(Box<Needed>, u64),
    /// To its end.
    Done(Box<Ran>),
    /// To a refusal, or to want of memory.
    Failed(Box<RunFault>),
}

/// Starts the level of this call, with so many levels below its own.
pub fn begin<E: Engine>(
    alloc: Global,
    engine: &mut E,
    call: &Call,
    below: u64,
) -> Result<Box<Level<E::Run>>, Memory>
    ensures started { IfOk result (λ s. E.progress s.value.run.value ≡ started (call_of call.now) below) }
    ensures given { IfOk result (λ s. s.value.given ≡ None) }
    ensures parts { IfOk result (λ s. s.value.parts.items ≡ []) }
{
    let Ok(run) = engine.start(alloc, call, below) else {
        return Err(Memory);
    };
    let Ok(run) = Box::new(alloc, run) else {
        return Err(Memory);
    };
    let level = Level {
        run,
        given: None,
        at: 0,
        parts: Vec::new(alloc),
        spare: below,
        is_silent: true,
    };
    let Ok(standing) = Box::new(alloc, level) else {
        return Err(Memory);
    };
    Ok(standing)
}

/// Goes on with what is given, up to the next step.
pub fn advance<E: Engine, W: World>(
    alloc: Global,
    engine: &mut E,
    world: &mut W,
    reuse: &Reuse<'_>,
    standing: &mut Level<E::Run>,
    call: &Call,
    below: u64,
) -> Result<Step, Memory>
    requires sure { IsSure (W.state world.now).truth reuse.now }
    ensures steps { IfOk result (λ s. Steps (W.state world.old).truth (gift_of standing.old.given) (E.progress standing.old.run.value) (E.progress standing.new.run.value) (call_of call.now) below s) }
    ensures parts { standing.new.parts ≡ standing.old.parts }
    ensures spare { standing.new.spare ≡ standing.old.spare }
    ensures truth { (W.state world.new).truth ≡ (W.state world.old).truth }
    ensures name { W.name world.new ≡ W.name world.old }
{
    // From two places, so that Rattle's own compiler leaves it out of the frame of a level, where it would take room while
    // all is run that the level enters.
    match standing.given.take() {
        None => stepped(alloc, engine, world, reuse, standing, None, call, below),
        given => stepped(alloc, engine, world, reuse, standing, given, call, below),
    }
}

// Goes on with this, up to the next step.
fn stepped<E: Engine, W: World>(
    alloc: Global,
    engine: &mut E,
    world: &mut W,
    reuse: &Reuse<'_>,
    standing: &mut Level<E::Run>,
    given: Option<Entered>,
    call: &Call,
    below: u64,
) -> Result<Step, Memory>
    requires sure { IsSure (W.state world.now).truth reuse.now }
    ensures steps { IfOk result (λ s. Steps (W.state world.old).truth (gift_of given) (E.progress standing.old.run.value) (E.progress standing.new.run.value) (call_of call.now) below s) }
    ensures parts { standing.new.parts ≡ standing.old.parts }
    ensures spare { standing.new.spare ≡ standing.old.spare }
    ensures truth { (W.state world.new).truth ≡ (W.state world.old).truth }
    ensures name { W.name world.new ≡ W.name world.old }
{
    let turn = reuse.resume(
        alloc,
        engine,
        &mut standing.run,
        given,
        &mut standing.at,
        world,
    );
    match turn {
        Ok(Turn::Want(wanted, depth)) => {
            let inner = settled(alloc, call, wanted)?;
            let left = below.saturating_sub(depth);
            Ok(Step::Enter(inner, left))
        }
        Ok(Turn::WantGlobal(name, depth, place)) => {
            let left = below.saturating_sub(depth);
            let Ok(needed) = Box::new(alloc, Needed { name, place }) else {
                return Err(Memory);
            };
            Ok(Step::Refer(needed, left))
        }
        Ok(Turn::Done(ran)) => {
            let Ok(ran) = Box::new(alloc, ran) else {
                return Err(Memory);
            };
            Ok(Step::Done(ran))
        }
        Err(fault) => {
            let Ok(fault) = Box::new(alloc, fault) else {
                return Err(Memory);
            };
            Ok(Step::Failed(fault))
        }
    }
}

// How many levels fewer would have done for a call of which this came.
fn spare_in(came: &Result<Box<Outcome>, Memory>) -> u64
    ensures { result ≡ spare_in came.now }
{
    match came {
        Ok(outcome) => outcome.spare,
        Err(_) => 0,
    }
}

// Whether there is no message in what came of a call either, as far as that is known.
fn stays_silent(are_silent: bool, came: &Result<Box<Outcome>, Memory>) -> bool
    ensures parts { result ≡ true → are_silent ≡ true }
    ensures came { result ≡ true → IfOk came.now (λ o. messages_of (outcome_of o.value).content ≡ []) }
{
    match came {
        Ok(outcome) => both_silent(are_silent, outcome),
        Err(_) => false,
    }
}

/// Takes what came of the call that it entered last. The call is done with.
pub fn take_stream<R: Drop>(
    standing: &mut Level<R>,
    came: Result<Box<Outcome>, Memory>,
    call: Rc<Call>,
) -> Result<(), Memory>
    ensures streamed { OnOk result (IsStreamed standing.new.given came (streams_of standing.old.parts.items) (streams_of standing.new.parts.items)) }
    ensures run { standing.new.run ≡ standing.old.run }
    ensures spare { standing.new.spare ≤ standing.old.spare }
    ensures inner { standing.new.spare ≤ spare_in came }
{
    // First, and so in one place: where it is let go of, it is moved to the stack.
    drop(call);
    standing.spare = fewer(standing.spare, spare_in(&came));
    let is_silent = stays_silent(standing.is_silent, &came);
    standing.is_silent = false;
    let Ok(entered) = streamed(came, &mut standing.parts) else {
        return Err(Memory);
    };
    standing.given = Some(entered);
    standing.is_silent = is_silent;
    Ok(())
}

/// Takes what came of the global that it needed last. The reference is done with.
pub fn take_global<R: Drop>(
    standing: &mut Level<R>,
    came: Result<Box<Referred>, Memory>,
    needed: Box<Needed>,
) -> Result<(), Memory>
    ensures taken { OnOk result (IsTaken standing.new.given came) }
    ensures run { standing.new.run ≡ standing.old.run }
    ensures parts { standing.new.parts ≡ standing.old.parts }
    ensures spare { standing.new.spare ≤ standing.old.spare }
    ensures inner { OnOk result (standing.new.spare ≤ spare_of came) }
{
    drop(needed);
    let Referred { entered, spare } = Box::into_inner(came?);
    standing.spare = fewer(standing.spare, spare);
    standing.given = Some(entered);
    Ok(())
}
