// The whole run: the globals in their order, and then the root.
ghost use Rattle.std.specs.Prelude.{◌≡◌, [], ◌++◌, IfOk, OnOk, Some, map};
ghost use Rattle.std.specs.Option.{option_map};
ghost use Rattle.spec_meaning.specs.Stream as stream;
ghost use Rattle.spec_result.specs.Recovery.{messages_of};
ghost use Rattle.spec_run.specs.Meaning as meant;
ghost use Rattle.spec_run.specs.Meaning.{going_into, levels_of_a_run, refusal_of, run_of};
ghost use Rattle.xt_tree.specs.StreamView.{stream_of};
ghost use Rattle.xt_tree.specs.ValueView.{value_of};
ghost use Rattle.xt_engine.specs.View.{named_of, refused_of};
ghost use Rattle.xt_record.specs.Sure.{IsSure};
ghost use Rattle.xt_driver.specs.View.{held_of, ending_of, outcome_of, past_of, setting_in, setting_of, whole_of, IsFinished};
ghost use Rattle.xt_driver.specs.Remembered.{Remembers};
ghost use Rattle.xt_driver.specs.Referring.{entries_of};
ghost use Rattle.xt_driver.specs.Turning.{IsHeldAs, Turns, TurnsAs};
ghost use Rattle.xt_driver.specs.Counted.{for_turn, hand_of, CountedWhole, CountsOver, IsWithin, KeepsAll, KeepsOnly, StaysLikeRun};
ghost use Rattle.spec_reuse.specs.Instantiation.{entered_by_run, instantiations};
ghost use Rattle.spec_reuse.specs.Ledger.{AreOfRun};

use crate::calls::{global_call, nowhere, root_call};
use crate::came::Outcome;
use crate::drive::first_means;
use crate::globals::{Globals, HeldGlobal, with_name};
use crate::memo::{Memo, Turned, forget, nothing_remembered, recall_turn};
use crate::outcome::{Ending, Held, as_held, content_of};
use std::alloc::Global;
use std::rc::Rc;
use xt_engine::{Engine, NamedGlobal, Refused};
use xt_names::copy_name;
use xt_questions::World;
use xt_record::Reuse;
use xt_result::messages;
use xt_text::{Memory, Text};
use xt_tree::{Items, NodeRef, Value};

/// What a whole run comes to.
#[derive(Drop)]
pub struct Whole {
    /// The stream of the root; where it is refused, what was written until then. It is empty where a global is
    /// refused at its turn.
    pub content: Rc<Items>,
    /// The texts of all messages in their order; where the run is refused, of those before that.
    pub messages: Vec<Text>,
    /// The first refusal, where there is one.
    pub refusal: Option<Refused>,
}

// How many levels of contents may stand in one another.
const fn levels_of_a_run() -> u64
    ensures { result ≡ levels_of_a_run }
{
    1200
}

// The messages of the stream, after those that were there.
fn add_messages(alloc: Global, told: &mut Vec<Text>, content: &Items) -> Result<(), Memory>
    ensures { OnOk result (told.new.items ≡ told.old.items ++ messages_of (stream_of content.now)) }
{
    let mut texts = messages(alloc, content)?;
    told.append(&mut texts)?;
    Ok(())
}

// The messages of what came of a call, after those that were there. Where it is known that there are none, its content
// is not gone through.
fn tell(alloc: Global, told: &mut Vec<Text>, outcome: &Outcome) -> Result<(), Memory>
    ensures { OnOk result (told.new.items ≡ told.old.items ++ messages_of (outcome_of outcome.now).content) }
{
    if outcome.is_silent {
        return Ok(());
    }
    add_messages(alloc, told, &outcome.content)
}

// What a global comes to at its turn, where it is evaluated then.
fn evaluated_at_turn<E: Engine, W: World>(
    alloc: Global,
    engine: &mut E,
    world: &mut W,
    globals: &Globals,
    memo: &mut Memo,
    reuse: &mut Reuse<'_>,
    global: &NamedGlobal,
    levels: u64,
) -> Result<Turned, Memory>
    requires remembers { Remembers (setting_of (W.state world.now).truth globals.now) (going_into global.now.name (past_of globals.now)) (entries_of memo.now) }
    requires sure { IsSure (W.state world.now).truth reuse.now }
    ensures turns { IfOk result (λ t. Turns t (setting_of (W.state world.old).truth globals.now) (past_of globals.now) (named_of global.now) levels (entries_of memo.new)) }
    ensures counts { OnOk result (CountsOver (setting_of (W.state world.old).truth globals.now) (past_of globals.now).values (for_turn (setting_of (W.state world.old).truth globals.now) (past_of globals.now) (named_of global.now) levels) (hand_of reuse.old memo.old) (hand_of reuse.new memo.new)) }
    ensures sure { OnOk result (IsSure (W.state world.old).truth reuse.new) }
    ensures truth { (W.state world.new).truth ≡ (W.state world.old).truth }
    ensures name { W.name world.new ≡ W.name world.old }
    ensures last { reuse.new.last ≡ reuse.old.last }
    ensures spared { reuse.new.spared ≡ reuse.old.spared }
{
    let name = copy_name(alloc, &global.name)?;
    let under_way = with_name(alloc, name, globals.under_way)?;
    let inner = Globals {
        root: globals.root,
        named: globals.named,
        held: globals.held,
        under_way: under_way.as_slice(),
    };
    let call = global_call(globals.root, global.element, nowhere(alloc));
    let came = first_means(alloc, engine, world, &inner, memo, reuse, &call, levels);
    drop(call);
    at_turn(alloc, came)
}

// What a global comes to of which this came at its turn.
fn at_turn(alloc: Global, came: Result<Box<Outcome>, Memory>) -> Result<Turned, Memory>
    requires { IfOk came (λ o. stream.holes (outcome_of o.value).content ≡ 0) }
    ensures { IfOk result (λ t. TurnsAs t came) }
{
    let outcome = came?;
    let content = content_of(&outcome)?;
    let held = as_held(alloc, Box::into_inner(outcome))?;
    Ok(Turned { held, content })
}

// The turn of a global: what it comes to. It is evaluated where it is not remembered with the levels that it takes.
fn turn<E: Engine, W: World>(
    alloc: Global,
    engine: &mut E,
    world: &mut W,
    globals: &Globals,
    memo: &mut Memo,
    reuse: &mut Reuse<'_>,
    global: &NamedGlobal,
    levels: u64,
) -> Result<Turned, Memory>
    requires remembers { Remembers (setting_of (W.state world.now).truth globals.now) (past_of globals.now) (entries_of memo.now) }
    requires sure { IsSure (W.state world.now).truth reuse.now }
    ensures turns { IfOk result (λ t. Turns t (setting_of (W.state world.old).truth globals.now) (past_of globals.now) (named_of global.now) levels (entries_of memo.new)) }
    ensures counts { OnOk result (CountsOver (setting_of (W.state world.old).truth globals.now) (past_of globals.now).values (for_turn (setting_of (W.state world.old).truth globals.now) (past_of globals.now) (named_of global.now) levels) (hand_of reuse.old memo.old) (hand_of reuse.new memo.new)) }
    ensures sure { OnOk result (IsSure (W.state world.old).truth reuse.new) }
    ensures truth { (W.state world.new).truth ≡ (W.state world.old).truth }
    ensures name { W.name world.new ≡ W.name world.old }
    ensures last { reuse.new.last ≡ reuse.old.last }
    ensures spared { reuse.new.spared ≡ reuse.old.spared }
{
    let known = recall_turn(alloc, memo.entries.as_slice(), global, levels)?;
    match known {
        Some(turned) => Ok(turned),
        None => {
            forget(alloc, memo, &global.name);
            evaluated_at_turn(alloc, engine, world, globals, memo, reuse, global, levels)
        }
    }
}

// Why a call is refused, if it is.
fn refusal(ending: Ending) -> Option<Refused>
    ensures { option_map refused_of result ≡ refusal_of (ending_of ending) }
{
    match ending {
        Ending::Finished => None,
        Ending::Gave(_) => None,
        Ending::Halted(why) => Some(why),
    }
}

// What a run comes to whose root comes to this, after the messages that were told.
fn finished(
    alloc: Global,
    mut told: Vec<Text>,
    came: Result<Box<Outcome>, Memory>,
) -> Result<Whole, Memory>
    ensures { IfOk result (λ w. IsFinished w told.items came) }
{
    let outcome = came?;
    tell(alloc, &mut told, &outcome)?;
    let Outcome {
        content,
        ending,
        spare: _,
        is_silent: _,
    } = Box::into_inner(outcome);
    Ok(Whole {
        content,
        messages: told,
        refusal: refusal(ending),
    })
}

// What a run comes to of which a global is refused at its turn.
fn halted(alloc: Global, told: Vec<Text>, why: Refused) -> Result<Whole, Memory>
    ensures { IfOk result (λ w. whole_of w ≡ record { content = stream.Ended; messages = told.items; refusal = Some (refused_of why) }) }
{
    let Ok(content) = Rc::new(alloc, Items::new(alloc)) else {
        drop(why);
        return Err(Memory);
    };
    Ok(Whole {
        content,
        messages: told,
        refusal: Some(why),
    })
}

// A global with its value.
fn held_global(alloc: Global, global: &NamedGlobal, value: Value) -> Result<HeldGlobal, Memory>
    ensures { IfOk result (λ h. held_of h ≡ record { name = global.now.name; value = value_of value }) }
{
    let Ok(name) = copy_name(alloc, &global.name) else {
        drop(value);
        return Err(Memory);
    };
    Ok(HeldGlobal { name, value })
}

// Holds the value of a global. Where it has none, why.
fn hold(
    alloc: Global,
    values: &mut Vec<HeldGlobal>,
    global: &NamedGlobal,
    held: Held,
) -> Result<Option<Refused>, Memory>
    ensures { IfOk result (λ why. IsHeldAs why held global.now.name (map held_of values.old.items) (map held_of values.new.items)) }
{
    match held {
        Held::Value(value) => {
            let global = held_global(alloc, global, value)?;
            values.push(global)?;
            Ok(None)
        }
        Held::Refused(why, _) => Ok(Some(why)),
    }
}

// Takes what a global comes to at its turn: its messages are told, and its value is held. Where it has none, why.
fn take_turn(
    alloc: Global,
    turned: Turned,
    global: &NamedGlobal,
    values: &mut Vec<HeldGlobal>,
    told: &mut Vec<Text>,
) -> Result<Option<Refused>, Memory>
    ensures told { OnOk result (told.new.items ≡ told.old.items ++ messages_of (stream_of turned.content.value)) }
    ensures held { IfOk result (λ why. IsHeldAs why turned.held global.now.name (map held_of values.old.items) (map held_of values.new.items)) }
{
    let Turned { held, content } = turned;
    let Ok(()) = add_messages(alloc, told, &content) else {
        drop(held);
        return Err(Memory);
    };
    hold(alloc, values, global, held)
}

// The whole run, with so many levels.
fn run_in<E: Engine, W: World>(
    alloc: Global,
    engine: &mut E,
    world: &mut W,
    root: NodeRef,
    named: &[NamedGlobal],
    reuse: &mut Reuse<'_>,
    levels: u64,
) -> Result<Whole, Memory>
    requires { IsSure (W.state world.now).truth reuse.now }
    ensures run { IfOk result (λ w. let s = setting_in (W.state world.old).truth root named.now in whole_of w ≡ meant.run s levels s.globals [] [] (meant.root_call s)) }
    ensures counts { let s = setting_in (W.state world.old).truth root named.now in IsWithin reuse.old → AreOfRun s (entered_by_run s levels s.globals [] (meant.root_call s)) → OnOk result (CountedWhole s (entered_by_run s levels s.globals [] (meant.root_call s)) reuse.old reuse.new) }
    ensures kept { let s = setting_in (W.state world.old).truth root named.now in IsWithin reuse.old → AreOfRun s (entered_by_run s levels s.globals [] (meant.root_call s)) → OnOk result (KeepsAll s (entered_by_run s levels s.globals [] (meant.root_call s)) reuse.new) }
    ensures only { let s = setting_in (W.state world.old).truth root named.now in IsWithin reuse.old → AreOfRun s (entered_by_run s levels s.globals [] (meant.root_call s)) → OnOk result (StaysLikeRun s reuse.old reuse.new) }
    ensures sure { OnOk result (IsSure (W.state world.old).truth reuse.new) }
    ensures truth { (W.state world.new).truth ≡ (W.state world.old).truth }
    ensures name { W.name world.new ≡ W.name world.old }
    ensures last { reuse.new.last ≡ reuse.old.last }
    ensures spared { reuse.new.spared ≡ reuse.old.spared }
{
    let mut values: Vec<HeldGlobal> = Vec::new(alloc);
    let mut told: Vec<Text> = Vec::new(alloc);
    let mut memo = nothing_remembered(alloc);
    for global in named {
        let globals = Globals {
            root,
            named,
            held: values.as_slice(),
            under_way: &[],
        };
        let turned = turn(
            alloc, engine, world, &globals, &mut memo, reuse, global, levels,
        )?;
        let refusal = take_turn(alloc, turned, global, &mut values, &mut told)?;
        match refusal {
            None => {}
            Some(why) => return halted(alloc, told, why),
        }
    }
    let call = root_call(alloc, world, root)?;
    let globals = Globals {
        root,
        named,
        held: values.as_slice(),
        under_way: &[],
    };
    let came = first_means(
        alloc, engine, world, &globals, &mut memo, reuse, &call, levels,
    );
    drop(call);
    finished(alloc, told, came)
}

/// Runs a stylesheet in a world: its globals in stylesheet order, and then the rule for the root of the source
/// (XSLT 1.0, sections 5.1 and 11.4), with 1,200 levels of contents. A global is evaluated at its turn or for the
/// first reference to it before that, and anew only where a reference has fewer levels left than it takes; its messages
/// stand at its turn. A refusal is no error: the run then ends there.
///
/// What it counts are instantiations of this run, in its order: none of which a record was found, and of one call that comes
/// to its end one. Of each that comes to its end it keeps a record that serves it: one that did, or what the engine made. So
/// the next run, which is given these alone, has all that this one came through. Each record that it keeps is of the unit and
/// the node of an instantiation of this run. All this is so where what is kept for the next run is at hand before it, as it
/// is where nothing is.
///
/// # Errors
/// Want of memory. What is true in the world stays in any case.
pub fn run<E: Engine, W: World>(
    alloc: Global,
    engine: &mut E,
    world: &mut W,
    root: NodeRef,
    globals: &[NamedGlobal],
    reuse: &mut Reuse<'_>,
) -> Result<Whole, Memory>
    requires { IsSure (W.state world.now).truth reuse.now }
    ensures run { IfOk result (λ w. whole_of w ≡ run_of (setting_in (W.state world.old).truth root globals.now)) }
    ensures counts { let s = setting_in (W.state world.old).truth root globals.now in IsWithin reuse.old → OnOk result (CountedWhole s (instantiations s) reuse.old reuse.new) }
    ensures kept { let s = setting_in (W.state world.old).truth root globals.now in IsWithin reuse.old → OnOk result (KeepsAll s (instantiations s) reuse.new) }
    ensures only { let s = setting_in (W.state world.old).truth root globals.now in IsWithin reuse.old → OnOk result (KeepsOnly s reuse.old reuse.new) }
    ensures sure { OnOk result (IsSure (W.state world.old).truth reuse.new) }
    ensures truth { (W.state world.new).truth ≡ (W.state world.old).truth }
    ensures name { W.name world.new ≡ W.name world.old }
    ensures last { reuse.new.last ≡ reuse.old.last }
    ensures spared { reuse.new.spared ≡ reuse.old.spared }
{
    run_in(
        alloc,
        engine,
        world,
        root,
        globals,
        reuse,
        levels_of_a_run(),
    )
}
