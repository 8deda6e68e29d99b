// One call with all that it enters and all globals that it needs. It is served by a record where one serves it, and
// run by the engine otherwise; and a global is evaluated once for all references to it before its turn that have the
// levels for it.
ghost use Rattle.std.specs.Prelude.{◌≡◌, ◌-◌, [], suc, IfOk, None, OnOk};
ghost use Rattle.xt_engine.specs.Progress.{started};
ghost use Rattle.spec_run.specs.Meaning.{meaning};
ghost use Rattle.spec_reuse.specs.Instantiation.{entered, for_reference};
ghost use Rattle.xt_syntax.specs.PartView.{place_of};
ghost use Rattle.xt_tree.specs.StreamView.{streams_of};
ghost use Rattle.xt_engine.specs.View.{call_of, event_of};
ghost use Rattle.xt_record.specs.View.{kept_in, MayServe};
ghost use Rattle.xt_record.specs.Sure.{IsSure};
ghost use Rattle.xt_driver.specs.View.{setting_of, past_of, outcome_of};
ghost use Rattle.xt_driver.specs.Remembered.{Keeps, Lasts, Remembers};
ghost use Rattle.xt_driver.specs.Referring.{entries_of, Settles};
ghost use Rattle.xt_driver.specs.Lost.{IsLost, IsServed};
ghost use Rattle.xt_driver.specs.Followed.{instance_of, IsGone};
ghost use Rattle.xt_driver.specs.Made.{IsMade, MadeHolds};
ghost use Rattle.xt_driver.specs.Counted.{hand_of, CountedRun, CountsFollowed, CountsFor, CountsOn, CountsOver, CountsServed, IsIdle, IsMadeOf, OfRun};

use crate::came::Outcome;
use crate::follow::{Gone, Next, next_done, set_out, take_entered, take_reference};
use crate::globals::{Globals, Reference, evaluation_of, look_up};
use crate::keep::{keep_ended, next_turn, tried};
use crate::level::{Level, Needed, Step, advance, begin, take_global, take_stream};
use crate::lost::{Lost, regained_reference};
use crate::memo::{Memo, Referred};
use crate::outcome::{Ended, cut_short, done, evaluated, refused, too_deep, whole_again};
use crate::way::Way;
use std::alloc::Global;
use xt_engine::{Call, Engine, Event};
use xt_questions::World;
use xt_record::{Record, Reuse, a_record_lasts};
use xt_text::Memory;

/// Whether a call is served by a record.
#[derive(Drop)]
pub enum Served {
    /// It comes to this.
    As(Box<Outcome>),
    /// It is not, and this was lost on the way.
    Not(Lost),
}

/// What a call means that no other enters: all as for one that is entered. Since `serve` is called here too, Rattle's own
/// compiler gives it a frame of its own, and a level that is run takes less of the stack.
pub fn first_means<E: Engine, W: World>(
    alloc: Global,
    engine: &mut E,
    world: &mut W,
    globals: &Globals,
    memo: &mut Memo,
    reuse: &mut Reuse<'_>,
    call: &Call,
    levels: u64,
) -> Result<Box<Outcome>, Memory>
    requires remembers { Remembers (setting_of (W.state world.now).truth globals.now) (past_of globals.now) (entries_of memo.now) }
    requires sure { IsSure (W.state world.now).truth reuse.now }
    ensures keeps { OnOk result (Keeps (setting_of (W.state world.old).truth globals.now) (past_of globals.now) (entries_of memo.old) (entries_of memo.new)) }
    ensures lasts { IfOk result (λ o. Lasts (setting_of (W.state world.old).truth globals.now) (past_of globals.now) (levels - o.value.spare) (entries_of memo.new) (call_of call.now) (outcome_of o.value)) }
    ensures meaning { IfOk result (λ o. outcome_of o.value ≡ meaning (setting_of (W.state world.old).truth globals.now) levels (past_of globals.now) 0 (call_of call.now)) }
    ensures counts { OnOk result (CountsOver (setting_of (W.state world.old).truth globals.now) (past_of globals.now).values (entered (setting_of (W.state world.old).truth globals.now) levels (past_of globals.now) 0 (call_of call.now)) (hand_of reuse.old memo.old) (hand_of reuse.new memo.new)) }
    ensures sure { OnOk result (IsSure (W.state world.old).truth reuse.new) }
    ensures truth { (W.state world.new).truth ≡ (W.state world.old).truth }
    ensures name { W.name world.new ≡ W.name world.old }
    ensures last { reuse.new.last ≡ reuse.old.last }
    ensures spared { reuse.new.spared ≡ reuse.old.spared }
{
    match reuse.said(alloc, world, call, levels)? {
        Some(said) => whole_again(alloc, said, levels),
        None => first_anew(alloc, engine, world, globals, memo, reuse, call, levels),
    }
}

// The same, where no tree says it by itself.
fn first_anew<E: Engine, W: World>(
    alloc: Global,
    engine: &mut E,
    world: &mut W,
    globals: &Globals,
    memo: &mut Memo,
    reuse: &mut Reuse<'_>,
    call: &Call,
    levels: u64,
) -> Result<Box<Outcome>, Memory>
    requires remembers { Remembers (setting_of (W.state world.now).truth globals.now) (past_of globals.now) (entries_of memo.now) }
    requires sure { IsSure (W.state world.now).truth reuse.now }
    ensures keeps { OnOk result (Keeps (setting_of (W.state world.old).truth globals.now) (past_of globals.now) (entries_of memo.old) (entries_of memo.new)) }
    ensures lasts { IfOk result (λ o. Lasts (setting_of (W.state world.old).truth globals.now) (past_of globals.now) (levels - o.value.spare) (entries_of memo.new) (call_of call.now) (outcome_of o.value)) }
    ensures meaning { IfOk result (λ o. outcome_of o.value ≡ meaning (setting_of (W.state world.old).truth globals.now) levels (past_of globals.now) 0 (call_of call.now)) }
    ensures counts { OnOk result (CountsOver (setting_of (W.state world.old).truth globals.now) (past_of globals.now).values (entered (setting_of (W.state world.old).truth globals.now) levels (past_of globals.now) 0 (call_of call.now)) (hand_of reuse.old memo.old) (hand_of reuse.new memo.new)) }
    ensures sure { OnOk result (IsSure (W.state world.old).truth reuse.new) }
    ensures truth { (W.state world.new).truth ≡ (W.state world.old).truth }
    ensures name { W.name world.new ≡ W.name world.old }
    ensures last { reuse.new.last ≡ reuse.old.last }
    ensures spared { reuse.new.spared ≡ reuse.old.spared }
{
    if levels == 0 {
        return too_deep(alloc, call);
    }
    let below = levels - 1;
    match serve(alloc, engine, world, globals, memo, reuse, call, below)? {
        Served::As(outcome) => Ok(outcome),
        Served::Not(lost) => {
            let standing = begin(alloc, engine, call, below)?;
            let ended = run_call(
                alloc, engine, world, globals, memo, reuse, &lost, call, below, standing,
            )?;
            keep_ended(alloc, reuse, call, ended)
        }
    }
}

// What the call means where there are so many levels left. What is remembered of globals holds after it as before,
// and where the call is not refused, it means the same wherever that holds, with the levels to spare left out. Of all that
// the call enters, with itself, those are counted that are run, each once.
#[cycle(drive)]
fn means<E: Engine, W: World>(
    alloc: Global,
    engine: &mut E,
    world: &mut W,
    globals: &Globals,
    memo: &mut Memo,
    reuse: &mut Reuse<'_>,
    call: &Call,
    levels: u64,
) -> Result<Box<Outcome>, Memory>
    requires remembers { Remembers (setting_of (W.state world.now).truth globals.now) (past_of globals.now) (entries_of memo.now) }
    requires sure { IsSure (W.state world.now).truth reuse.now }
    ensures keeps { OnOk result (Keeps (setting_of (W.state world.old).truth globals.now) (past_of globals.now) (entries_of memo.old) (entries_of memo.new)) }
    ensures lasts { IfOk result (λ o. Lasts (setting_of (W.state world.old).truth globals.now) (past_of globals.now) (levels - o.value.spare) (entries_of memo.new) (call_of call.now) (outcome_of o.value)) }
    ensures meaning { IfOk result (λ o. outcome_of o.value ≡ meaning (setting_of (W.state world.old).truth globals.now) levels (past_of globals.now) 0 (call_of call.now)) }
    ensures counts { OnOk result (CountsOver (setting_of (W.state world.old).truth globals.now) (past_of globals.now).values (entered (setting_of (W.state world.old).truth globals.now) levels (past_of globals.now) 0 (call_of call.now)) (hand_of reuse.old memo.old) (hand_of reuse.new memo.new)) }
    ensures sure { OnOk result (IsSure (W.state world.old).truth reuse.new) }
    ensures truth { (W.state world.new).truth ≡ (W.state world.old).truth }
    ensures name { W.name world.new ≡ W.name world.old }
    ensures last { reuse.new.last ≡ reuse.old.last }
    ensures spared { reuse.new.spared ≡ reuse.old.spared }
{
    match reuse.said(alloc, world, call, levels)? {
        Some(said) => whole_again(alloc, said, levels),
        None => means_anew(alloc, engine, world, globals, memo, reuse, call, levels),
    }
}

// The same, where no tree says it by itself.
#[cycle(drive)]
fn means_anew<E: Engine, W: World>(
    alloc: Global,
    engine: &mut E,
    world: &mut W,
    globals: &Globals,
    memo: &mut Memo,
    reuse: &mut Reuse<'_>,
    call: &Call,
    levels: u64,
) -> Result<Box<Outcome>, Memory>
    requires remembers { Remembers (setting_of (W.state world.now).truth globals.now) (past_of globals.now) (entries_of memo.now) }
    requires sure { IsSure (W.state world.now).truth reuse.now }
    ensures keeps { OnOk result (Keeps (setting_of (W.state world.old).truth globals.now) (past_of globals.now) (entries_of memo.old) (entries_of memo.new)) }
    ensures lasts { IfOk result (λ o. Lasts (setting_of (W.state world.old).truth globals.now) (past_of globals.now) (levels - o.value.spare) (entries_of memo.new) (call_of call.now) (outcome_of o.value)) }
    ensures meaning { IfOk result (λ o. outcome_of o.value ≡ meaning (setting_of (W.state world.old).truth globals.now) levels (past_of globals.now) 0 (call_of call.now)) }
    ensures counts { OnOk result (CountsOver (setting_of (W.state world.old).truth globals.now) (past_of globals.now).values (entered (setting_of (W.state world.old).truth globals.now) levels (past_of globals.now) 0 (call_of call.now)) (hand_of reuse.old memo.old) (hand_of reuse.new memo.new)) }
    ensures sure { OnOk result (IsSure (W.state world.old).truth reuse.new) }
    ensures truth { (W.state world.new).truth ≡ (W.state world.old).truth }
    ensures name { W.name world.new ≡ W.name world.old }
    ensures last { reuse.new.last ≡ reuse.old.last }
    ensures spared { reuse.new.spared ≡ reuse.old.spared }
{
    if levels == 0 {
        return too_deep(alloc, call);
    }
    let below = levels - 1;
    match serve(alloc, engine, world, globals, memo, reuse, call, below)? {
        Served::As(outcome) => Ok(outcome),
        Served::Not(lost) => {
            let standing = begin(alloc, engine, call, below)?;
            let ended = run_call(
                alloc, engine, world, globals, memo, reuse, &lost, call, below, standing,
            )?;
            keep_ended(alloc, reuse, call, ended)
        }
    }
}

// Serves the call by a record, where one does, with so many levels below its own. Where none does, what was entered along
// records is counted.
#[cycle(drive)]
fn serve<E: Engine, W: World>(
    alloc: Global,
    engine: &mut E,
    world: &mut W,
    globals: &Globals,
    memo: &mut Memo,
    reuse: &mut Reuse<'_>,
    call: &Call,
    below: u64,
) -> Result<Served, Memory>
    requires remembers { Remembers (setting_of (W.state world.now).truth globals.now) (past_of globals.now) (entries_of memo.now) }
    requires sure { IsSure (W.state world.now).truth reuse.now }
    ensures keeps { OnOk result (Keeps (setting_of (W.state world.old).truth globals.now) (past_of globals.now) (entries_of memo.old) (entries_of memo.new)) }
    ensures served { IfOk result (λ s. IsServed s (setting_of (W.state world.old).truth globals.now) (past_of globals.now) (suc below) (entries_of memo.new) (call_of call.now)) }
    ensures counts { IfOk result (λ s. OfRun (setting_of (W.state world.old).truth globals.now) (instance_of (call_of call.now) below (past_of globals.now)) (hand_of reuse.old memo.old) (CountsServed s (setting_of (W.state world.old).truth globals.now) (instance_of (call_of call.now) below (past_of globals.now)) (hand_of reuse.old memo.old) (hand_of reuse.new memo.new))) }
    ensures sure { OnOk result (IsSure (W.state world.old).truth reuse.new) }
    ensures truth { (W.state world.new).truth ≡ (W.state world.old).truth }
    ensures name { W.name world.new ≡ W.name world.old }
    ensures last { reuse.new.last ≡ reuse.old.last }
    ensures spared { reuse.new.spared ≡ reuse.old.spared }
{
    let mut from = 0;
    loop {
        match reuse.find(alloc, world, call, below, from)? {
            None => return Ok(Served::Not(Lost::Nothing)),
            Some(found) => {
                from = next_turn(&found);
                let served = follow(
                    alloc,
                    engine,
                    world,
                    globals,
                    memo,
                    reuse,
                    &found.record,
                    call,
                    below,
                );
                match tried(alloc, reuse, found, served)? {
                    None => {}
                    Some(served) => return Ok(served),
                }
            }
        }
    }
}

// Goes along a record that may serve the call. It does not where what it saw or held differs, or where a global is
// refused. Where what it entered is refused, the call is refused too, with what the record wrote up to there.
#[cycle(drive)]
fn follow<E: Engine, W: World>(
    alloc: Global,
    engine: &mut E,
    world: &mut W,
    globals: &Globals,
    memo: &mut Memo,
    reuse: &mut Reuse<'_>,
    kept: &Record,
    call: &Call,
    below: u64,
) -> Result<Served, Memory>
    requires remembers { Remembers (setting_of (W.state world.now).truth globals.now) (past_of globals.now) (entries_of memo.now) }
    requires sure { IsSure (W.state world.now).truth reuse.now }
    requires serves { MayServe (W.state world.now).truth (call_of call.now) below (kept_in kept.now) }
    ensures keeps { OnOk result (Keeps (setting_of (W.state world.old).truth globals.now) (past_of globals.now) (entries_of memo.old) (entries_of memo.new)) }
    ensures served { IfOk result (λ s. IsServed s (setting_of (W.state world.old).truth globals.now) (past_of globals.now) (suc below) (entries_of memo.new) (call_of call.now)) }
    ensures counts { IfOk result (λ s. OfRun (setting_of (W.state world.old).truth globals.now) (instance_of (call_of call.now) below (past_of globals.now)) (hand_of reuse.old memo.old) (CountsFollowed s (setting_of (W.state world.old).truth globals.now) (instance_of (call_of call.now) below (past_of globals.now)) (kept_in kept.now) (hand_of reuse.old memo.old) (hand_of reuse.new memo.new))) }
    ensures sure { OnOk result (IsSure (W.state world.old).truth reuse.new) }
    ensures truth { (W.state world.new).truth ≡ (W.state world.old).truth }
    ensures name { W.name world.new ≡ W.name world.old }
    ensures last { reuse.new.last ≡ reuse.old.last }
    ensures spared { reuse.new.spared ≡ reuse.old.spared }
{
    a_record_lasts(kept);
    let events = kept.ran.events.as_slice();
    let mut way = set_out(alloc, below)?;
    for event in events {
        match go_on(
            alloc, engine, world, globals, memo, reuse, event, call, below, &mut way,
        )? {
            Gone::On => {}
            Gone::Not(lost) => return Ok(Served::Not(lost)),
            Gone::Refused(last) => {
                let short = cut_short(alloc, &kept.ran, way.parts.as_slice(), last)?;
                return Ok(Served::As(short));
            }
        }
    }
    let outcome = done(
        alloc,
        &kept.ran,
        way.parts.as_slice(),
        below,
        way.spare,
        way.is_silent,
    )?;
    Ok(Served::As(outcome))
}

// Goes one event further along a record.
#[cycle(drive)]
fn go_on<E: Engine, W: World>(
    alloc: Global,
    engine: &mut E,
    world: &mut W,
    globals: &Globals,
    memo: &mut Memo,
    reuse: &mut Reuse<'_>,
    event: &Event,
    call: &Call,
    below: u64,
    way: &mut Way,
) -> Result<Gone, Memory>
    requires remembers { Remembers (setting_of (W.state world.now).truth globals.now) (past_of globals.now) (entries_of memo.now) }
    requires sure { IsSure (W.state world.now).truth reuse.now }
    ensures keeps { OnOk result (Keeps (setting_of (W.state world.old).truth globals.now) (past_of globals.now) (entries_of memo.old) (entries_of memo.new)) }
    ensures goes { IfOk result (λ gone. IsGone gone (setting_of (W.state world.old).truth globals.now) (instance_of (call_of call.now) below (past_of globals.now)) (entries_of memo.old) (entries_of memo.new) way.old way.new (event_of event.now)) }
    ensures counts { IfOk result (λ gone. CountsOn gone (setting_of (W.state world.old).truth globals.now) (instance_of (call_of call.now) below (past_of globals.now)) (event_of event.now) (streams_of way.old.parts.items) (streams_of way.new.parts.items) (hand_of reuse.old memo.old) (hand_of reuse.new memo.new)) }
    ensures sure { OnOk result (IsSure (W.state world.old).truth reuse.new) }
    ensures truth { (W.state world.new).truth ≡ (W.state world.old).truth }
    ensures name { W.name world.new ≡ W.name world.old }
    ensures last { reuse.new.last ≡ reuse.old.last }
    ensures spared { reuse.new.spared ≡ reuse.old.spared }
{
    match next_done(alloc, event, call, below, way.parts.as_slice())? {
        Next::Holds => Ok(Gone::On),
        Next::Differs => Ok(Gone::Not(Lost::Nothing)),
        Next::Enter(inner, left) => {
            let came = means(alloc, engine, world, globals, memo, reuse, &inner, left);
            take_entered(way, came, inner)
        }
        Next::Refer(needed, left) => {
            let came = refer(alloc, engine, world, globals, memo, reuse, &needed, left);
            take_reference(alloc, way, came, event, needed, left)
        }
    }
}

// Runs the call by the engine, with so many levels below its own, from where that begins. A global that was lost is not evaluated again. What the
// engine made is kept by the caller: here it would take room on each level.
#[cycle(drive)]
fn run_call<E: Engine, W: World>(
    alloc: Global,
    engine: &mut E,
    world: &mut W,
    globals: &Globals,
    memo: &mut Memo,
    reuse: &mut Reuse<'_>,
    lost: &Lost,
    call: &Call,
    below: u64,
    mut standing: Box<Level<E::Run>>,
) -> Result<Ended, Memory>
    requires remembers { Remembers (setting_of (W.state world.now).truth globals.now) (past_of globals.now) (entries_of memo.now) }
    requires sure { IsSure (W.state world.now).truth reuse.now }
    requires lost { IsLost (setting_of (W.state world.now).truth globals.now) (past_of globals.now) lost.now }
    requires started { E.progress standing.value.run.value ≡ started (call_of call.now) below }
    requires given { standing.value.given ≡ None }
    requires parts { standing.value.parts.items ≡ [] }
    ensures keeps { OnOk result (Keeps (setting_of (W.state world.old).truth globals.now) (past_of globals.now) (entries_of memo.old) (entries_of memo.new)) }
    ensures lasts { IfOk result (λ e. Lasts (setting_of (W.state world.old).truth globals.now) (past_of globals.now) (suc below - e.outcome.value.spare) (entries_of memo.new) (call_of call.now) (outcome_of e.outcome.value)) }
    ensures meaning { IfOk result (λ e. outcome_of e.outcome.value ≡ meaning (setting_of (W.state world.old).truth globals.now) (suc below) (past_of globals.now) 0 (call_of call.now)) }
    ensures made { IfOk result (λ e. IsMade (call_of call.now) e.ran) }
    ensures asks { IfOk result (λ e. MadeHolds (W.state world.old).truth e.ran) }
    ensures counts { IfOk result (λ e. OfRun (setting_of (W.state world.old).truth globals.now) (instance_of (call_of call.now) below (past_of globals.now)) (hand_of reuse.old memo.old) (CountedRun (setting_of (W.state world.old).truth globals.now) (instance_of (call_of call.now) below (past_of globals.now)) lost.now (hand_of reuse.old memo.old) (hand_of reuse.new memo.new))) }
    ensures made_of { IfOk result (λ e. IsMadeOf (setting_of (W.state world.old).truth globals.now) (instance_of (call_of call.now) below (past_of globals.now)) e.ran) }
    ensures sure { OnOk result (IsSure (W.state world.old).truth reuse.new) }
    ensures truth { (W.state world.new).truth ≡ (W.state world.old).truth }
    ensures name { W.name world.new ≡ W.name world.old }
    ensures last { reuse.new.last ≡ reuse.old.last }
    ensures spared { reuse.new.spared ≡ reuse.old.spared }
{
    reuse.count_run();
    loop {
        match advance(alloc, engine, world, reuse, &mut standing, call, below)? {
            Step::Enter(inner, left) => {
                let came = means(alloc, engine, world, globals, memo, reuse, &inner, left);
                take_stream(&mut standing, came, inner)?;
            }
            Step::Refer(needed, left) => {
                let came = need(
                    alloc, engine, world, globals, memo, reuse, lost, &needed, left,
                );
                take_global(&mut standing, came, needed)?;
            }
            Step::Done(ran) => {
                let outcome = done(
                    alloc,
                    &ran,
                    standing.parts.as_slice(),
                    below,
                    standing.spare,
                    standing.is_silent,
                )?;
                return Ok(Ended {
                    outcome,
                    ran: Some(ran),
                });
            }
            Step::Failed(fault) => {
                let outcome = refused(alloc, fault)?;
                return Ok(Ended { outcome, ran: None });
            }
        }
    }
}

// What a reference gives that the engine needs, where there are so many levels left.
#[cycle(drive)]
fn need<E: Engine, W: World>(
    alloc: Global,
    engine: &mut E,
    world: &mut W,
    globals: &Globals,
    memo: &mut Memo,
    reuse: &mut Reuse<'_>,
    lost: &Lost,
    needed: &Needed,
    levels: u64,
) -> Result<Box<Referred>, Memory>
    requires remembers { Remembers (setting_of (W.state world.now).truth globals.now) (past_of globals.now) (entries_of memo.now) }
    requires sure { IsSure (W.state world.now).truth reuse.now }
    requires lost { IsLost (setting_of (W.state world.now).truth globals.now) (past_of globals.now) lost.now }
    ensures keeps { OnOk result (Keeps (setting_of (W.state world.old).truth globals.now) (past_of globals.now) (entries_of memo.old) (entries_of memo.new)) }
    ensures settles { IfOk result (λ r. Settles (setting_of (W.state world.old).truth globals.now) (past_of globals.now) (entries_of memo.new) needed.now.name levels (place_of needed.now.place) r.value) }
    ensures counts { OnOk result (CountsFor (setting_of (W.state world.old).truth globals.now) (past_of globals.now) lost.now needed.now.name levels (place_of needed.now.place) (hand_of reuse.old memo.old) (hand_of reuse.new memo.new)) }
    ensures sure { OnOk result (IsSure (W.state world.old).truth reuse.new) }
    ensures truth { (W.state world.new).truth ≡ (W.state world.old).truth }
    ensures name { W.name world.new ≡ W.name world.old }
    ensures last { reuse.new.last ≡ reuse.old.last }
    ensures spared { reuse.new.spared ≡ reuse.old.spared }
{
    match regained_reference(alloc, lost, needed, levels)? {
        Some(referred) => Ok(referred),
        None => refer(alloc, engine, world, globals, memo, reuse, needed, levels),
    }
}

// What a reference to a global gives at this element, where there are so many levels left.
#[cycle(drive)]
fn refer<E: Engine, W: World>(
    alloc: Global,
    engine: &mut E,
    world: &mut W,
    globals: &Globals,
    memo: &mut Memo,
    reuse: &mut Reuse<'_>,
    needed: &Needed,
    levels: u64,
) -> Result<Box<Referred>, Memory>
    requires remembers { Remembers (setting_of (W.state world.now).truth globals.now) (past_of globals.now) (entries_of memo.now) }
    requires sure { IsSure (W.state world.now).truth reuse.now }
    ensures keeps { OnOk result (Keeps (setting_of (W.state world.old).truth globals.now) (past_of globals.now) (entries_of memo.old) (entries_of memo.new)) }
    ensures settles { IfOk result (λ r. Settles (setting_of (W.state world.old).truth globals.now) (past_of globals.now) (entries_of memo.new) needed.now.name levels (place_of needed.now.place) r.value) }
    ensures counts { OnOk result (CountsOver (setting_of (W.state world.old).truth globals.now) (past_of globals.now).values (for_reference (setting_of (W.state world.old).truth globals.now) (entered (setting_of (W.state world.old).truth globals.now) levels) (past_of globals.now) needed.now.name 0 (place_of needed.now.place)) (hand_of reuse.old memo.old) (hand_of reuse.new memo.new)) }
    ensures idle { IfOk result (λ r. IsIdle r.value.entered (for_reference (setting_of (W.state world.old).truth globals.now) (entered (setting_of (W.state world.old).truth globals.now) levels) (past_of globals.now) needed.now.name 0 (place_of needed.now.place))) }
    ensures sure { OnOk result (IsSure (W.state world.old).truth reuse.new) }
    ensures truth { (W.state world.new).truth ≡ (W.state world.old).truth }
    ensures name { W.name world.new ≡ W.name world.old }
    ensures last { reuse.new.last ≡ reuse.old.last }
    ensures spared { reuse.new.spared ≡ reuse.old.spared }
{
    match look_up(alloc, globals, memo, &needed.name, levels)? {
        Reference::Given(given) => Ok(given),
        Reference::Evaluated(element) => {
            let evaluation = evaluation_of(alloc, globals, memo, needed, element)?;
            let inner = Globals {
                root: globals.root,
                named: globals.named,
                held: globals.held,
                under_way: evaluation.under_way.as_slice(),
            };
            let came = means(
                alloc,
                engine,
                world,
                &inner,
                memo,
                reuse,
                &evaluation.call,
                levels,
            );
            evaluated(alloc, memo, came, evaluation, levels)
        }
    }
}
