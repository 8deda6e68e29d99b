// One turn along a record: what was done next, and whether that holds for the call.
ghost use Rattle.std.specs.Prelude.{◌≡◌, ◌++◌, ◌∷◌, [], IfOk, OnOk, drop, true, unwrap_or};
ghost use Rattle.std.specs.Bool.{Decides};
ghost use Rattle.std.specs.Option.{option_map};
ghost use Rattle.spec_meaning.specs.Program.{Counted, Ruled};
ghost use Rattle.spec_run.specs.Direct.{Known};
ghost use Rattle.spec_run.specs.Meaning.{current_by, settled};
ghost use Rattle.xt_syntax.specs.PartView.{place_of};
ghost use Rattle.xt_tree.specs.StreamView.{streams_of};
ghost use Rattle.xt_questions.specs.View.{current_of, given_of, wanted_of};
ghost use Rattle.xt_engine.specs.View.{call_of, event_of, ruling_of};
ghost use Rattle.xt_driver.specs.View.{ending_of, outcome_of};
ghost use Rattle.xt_record.specs.View.{AreWhole};
ghost use Rattle.xt_driver.specs.Along.{halts, refuses, HoldsIf, IsEntered, IsHeld, IsNext, IsReferred, IsSeen, IsSeenAs, Takes, TakesReference};

use crate::calls::settled;
use crate::came::Outcome;
use crate::level::Needed;
use crate::lost::{Lost, LostReference};
use crate::memo::Referred;
use crate::outcome::{Ending, both_silent, content_of, fewer};
use crate::way::Way;
use std::alloc::Global;
use std::rc::Rc;
use xt_base::Place;
use xt_engine::{Call, Entered, Event, Ruling};
use xt_names::{Expanded, copy_name};
use xt_questions::{CurrentRule, Given, Wanted, copy_place};
use xt_record::{same_rule_if, same_streams, same_value};
use xt_text::Memory;
use xt_tree::Items;

impl Way {
    // Adds the stream of what was entered.
    fn add(&mut self, outcome: &Outcome) -> Result<(), Memory>
        ensures streams { OnOk result (streams_of self.new.parts.items ≡ streams_of self.old.parts.items ++ (outcome_of outcome.now).content ∷ []) }
        ensures spare { self.new.spare ≡ self.old.spare }
    {
        let part = content_of(outcome)?;
        let is_silent = both_silent(self.is_silent, outcome);
        self.is_silent = false;
        self.parts.push(part)?;
        self.is_silent = is_silent;
        Ok(())
    }
}

/// What was done next.
#[derive(Drop)]
pub enum Next {
    /// What holds for this call too.
    Holds,
    /// What does not.
    Differs,
    /// This call was entered, for which so many levels are left.
    Enter(Rc<Call>, u64),
    /// This global was needed, for which so many levels are left.
    Refer(Box<Needed>, u64),
}

/// How it goes on along a record.
#[derive(Drop)]
pub enum Gone {
    /// To what was done next.
    On,
    /// It does not: the record does not serve, and this was lost.
    Not(Lost),
    /// It does not: what was entered is refused so, and the call with it.
    Refused(Box<Outcome>),
}

/// Sets out along a record, with so many levels below the call's own.
pub fn set_out(alloc: Global, below: u64) -> Result<Box<Way>, Memory>
    ensures { IfOk result (λ w. w.value.parts.items ≡ []) }
{
    Ok(Box::new(
        alloc,
        Way {
            parts: Vec::new(alloc),
            spare: below,
            is_silent: true,
        },
    )?)
}

/// What was done next, for this call with so many levels below its own, where these are the streams of all that was
/// entered. That each question has its answer is known of the record.
pub fn next_done(
    alloc: Global,
    event: &Event,
    call: &Call,
    below: u64,
    parts: &[Rc<Items>],
) -> Result<Next, Memory>
    ensures { IfOk result (λ n. IsNext n (call_of call.now) below (streams_of parts.now) (event_of event.now)) }
{
    match event {
        Event::Asked(_, _) => Ok(Next::Holds),
        Event::Saw(wanted, depth, place, given) => {
            let left = below.saturating_sub(*depth);
            seen(alloc, wanted, place, given, call, left)
        }
        Event::Entered(inner, depth) => {
            let left = below.saturating_sub(*depth);
            entered(alloc, inner, call, left)
        }
        Event::Held(first, contents) => held(alloc, *first, contents.as_slice(), parts),
    }
}

// What was needed of the run.
fn seen(
    alloc: Global,
    wanted: &Wanted,
    place: &Place,
    given: &Given,
    call: &Call,
    left: u64,
) -> Result<Next, Memory>
    ensures { IfOk result (λ n. IsSeen n (call_of call.now) left (wanted_of wanted.now) (place_of place.now) (Known (given_of given.now))) }
{
    match wanted {
        Wanted::Global(name) => referred(alloc, name, place, left),
        Wanted::Position => Ok(counted(&call.position, given)),
        Wanted::Size => Ok(counted(&call.size, given)),
        Wanted::Rule => Ok(ruled(&call.ruling, given)),
    }
}

// A global was.
fn referred(alloc: Global, name: &Expanded, place: &Place, left: u64) -> Result<Next, Memory>
    ensures { IfOk result (λ n. IsReferred n left name.now (place_of place.now)) }
{
    let place = copy_place(alloc, place)?;
    let Ok(name) = copy_name(alloc, name) else {
        drop(place);
        return Err(Memory);
    };
    let Ok(needed) = Box::new(alloc, Needed { name, place }) else {
        return Err(Memory);
    };
    Ok(Next::Refer(needed, left))
}

// A position or size was, of which the call has this one.
fn counted(number: &Option<u64>, given: &Given) -> Next
    ensures { HoldsIf result (Known (Counted (unwrap_or number.now 1)) ≡ Known (given_of given.now)) }
{
    match given {
        Given::Counted(seen) => {
            if number_or_one(number) == *seen {
                Next::Holds
            } else {
                Next::Differs
            }
        }
        Given::Ruled(_) => Next::Differs,
        Given::Valued(_) => Next::Differs,
    }
}

// A position or size, and 1 where there is none.
fn number_or_one(number: &Option<u64>) -> u64
    ensures { result ≡ unwrap_or number.now 1 }
{
    match number {
        None => 1,
        Some(number) => *number,
    }
}

// The current template rule was, and this is that of the call.
fn ruled(ruling: &Ruling, given: &Given) -> Next
    ensures { HoldsIf result (Known (Ruled (current_by (ruling_of ruling.now))) ≡ Known (given_of given.now)) }
{
    match given {
        Given::Ruled(rule) => {
            if is_rule(ruling, rule) {
                Next::Holds
            } else {
                Next::Differs
            }
        }
        Given::Counted(_) => Next::Differs,
        Given::Valued(_) => Next::Differs,
    }
}

// Whether this is the current template rule.
fn is_rule(ruling: &Ruling, rule: &Option<CurrentRule>) -> bool
    ensures { Decides result (current_by (ruling_of ruling.now) ≡ option_map current_of rule.now) }
{
    match ruling {
        Ruling::Same => rule.is_none(),
        Ruling::Is(now) => same_rule_if(now, rule),
    }
}

// A call was entered.
fn entered(alloc: Global, inner: &Rc<Call>, call: &Call, left: u64) -> Result<Next, Memory>
    ensures { IfOk result (λ n. IsEntered n left (settled (call_of call.now) (call_of inner.now.value))) }
{
    let inner = settled(alloc, call, inner.clone()?)?;
    Ok(Next::Enter(inner, left))
}

// These streams, from this one on, were held.
fn held(
    alloc: Global,
    first: u64,
    contents: &[Rc<Items>],
    parts: &[Rc<Items>],
) -> Result<Next, Memory>
    ensures { IfOk result (λ n. IsHeld n (drop first (streams_of parts.now)) (streams_of contents.now)) }
{
    if are_held(alloc, parts, first, contents)? {
        Ok(Next::Holds)
    } else {
        Ok(Next::Differs)
    }
}

// Where it says so, the streams from this one on are these. It says so of all that have no holes.
fn are_held(
    alloc: Global,
    parts: &[Rc<Items>],
    first: u64,
    contents: &[Rc<Items>],
) -> Result<bool, Memory>
    ensures same { IfOk result (λ b. b ≡ true → drop first (streams_of parts.now) ≡ streams_of contents.now) }
    ensures whole { IfOk result (λ b. AreWhole (drop first (streams_of parts.now)) → drop first (streams_of parts.now) ≡ streams_of contents.now → b ≡ true) }
{
    if first > parts.len() as u64 {
        return Ok(contents.is_empty());
    }
    same_streams(alloc, &parts[first as usize..], contents)
}

// Whether a call is refused of which this came.
fn is_refused(ending: &Ending) -> bool
    ensures { result ≡ halts (ending_of ending.now) }
{
    match ending {
        Ending::Halted(_) => true,
        Ending::Finished => false,
        Ending::Gave(_) => false,
    }
}

/// Takes what came of the call that was entered, which is done with. Where it is refused, the way ends with its stream.
pub fn take_entered(
    way: &mut Way,
    came: Result<Box<Outcome>, Memory>,
    call: Rc<Call>,
) -> Result<Gone, Memory>
    ensures { IfOk result (λ gone. Takes gone came way.old way.new) }
{
    drop(call);
    let outcome = came?;
    way.add(&outcome)?;
    if is_refused(&outcome.ending) {
        return Ok(Gone::Refused(outcome));
    }
    way.spare = fewer(way.spare, outcome.spare);
    Ok(Gone::On)
}

// Whether a reference is refused that is given this.
fn is_refusal(entered: &Entered) -> bool
    ensures { result ≡ refuses entered.now }
{
    match entered {
        Entered::Refused(_, _) => true,
        Entered::Value(_) => false,
        Entered::Stream(_) => false,
        Entered::UnderWay => false,
    }
}

// Whether the global had this value.
fn is_as_seen(alloc: Global, event: &Event, entered: &Entered) -> Result<bool, Memory>
    ensures { IfOk result (λ b. Decides b (IsSeenAs (event_of event.now) entered.now)) }
{
    match (event, entered) {
        (Event::Saw(_, _, _, Given::Valued(value)), Entered::Value(now)) => {
            same_value(alloc, value, now)
        }
        _ => Ok(false),
    }
}

/// Takes what came of the reference to a global, with so many levels. Where it is refused or the value is another than
/// what was seen, the way ends.
pub fn take_reference(
    alloc: Global,
    way: &mut Way,
    came: Result<Box<Referred>, Memory>,
    event: &Event,
    needed: Box<Needed>,
    levels: u64,
) -> Result<Gone, Memory>
    ensures { IfOk result (λ gone. TakesReference gone came (event_of event.now) needed.value levels way.old way.new) }
{
    let Ok(referred) = came else {
        drop(needed);
        return Err(Memory);
    };
    if is_refusal(&referred.entered) {
        let lost = Box::new(
            alloc,
            LostReference {
                needed,
                levels,
                referred,
            },
        )?;
        return Ok(Gone::Not(Lost::Reference(lost)));
    }
    drop(needed);
    if !is_as_seen(alloc, event, &referred.entered)? {
        return Ok(Gone::Not(Lost::Nothing));
    }
    way.spare = fewer(way.spare, referred.spare);
    Ok(Gone::On)
}
