// What comes of calls.
ghost use Rattle.std.specs.Prelude.{◌≡◌, ◌<◌, ◌≤◌, ◌-◌, ◌++◌, [], true, IfOk, OnOk, Some, length, map};
ghost use Rattle.spec_stylesheet.specs.Place as places;
ghost use Rattle.spec_meaning.specs.Stream as stream;
ghost use Rattle.spec_result.specs.Recovery.{messages_of};
ghost use Rattle.spec_run.specs.Cut.{cut};
ghost use Rattle.spec_run.specs.Meaning.{held_by, refused_deep};
ghost use Rattle.xt_syntax.specs.PartView.{place_of};
ghost use Rattle.xt_tree.specs.StreamView.{stream_of, streams_of};
ghost use Rattle.xt_result.specs.Silent.{all_messages};
ghost use Rattle.xt_engine.specs.Advances.{ending_of as ending_with};
ghost use Rattle.xt_driver.specs.View.{ending_of, outcome_of, supplied_of, Gives, IsRefused, IsStreamed};
ghost use Rattle.xt_driver.specs.Referring.{entry_of, entries_of, remembered_as, Evaluates};

use crate::came::Outcome;
use crate::cut::cut;
use crate::globals::Evaluation;
use crate::memo::{Memo, Referred, put_back, remember};
use spec_expression::DynCode;
use std::alloc::Global;
use std::rc::Rc;
use xt_engine::{Call, Entered, Ran, Refused, RunFault};
use xt_questions::{copy_place, copy_value};
use xt_record::{Said, is_silent_with, with_parts};
use xt_streams::quiet;
use xt_text::Memory;
use xt_tree::{Fragment, Items, Value};

/// How a call ends.
#[derive(Drop)]
pub enum Ending {
    Finished,
    /// With the value of a global that has a select.
    Gave(Value),
    Halted(Refused),
}

/// What comes of a call that the engine runs.
#[derive(Drop)]
pub struct Ended {
    pub outcome: Box<Outcome>,
    /// What the engine made, where it came to its end.
    pub ran: Option<Box<Ran>>,
}

/// What a global holds, or why it holds nothing, with what was written until then.
#[derive(Drop)]
pub enum Held {
    Value(Value),
    Refused(Refused, Rc<Items>),
}

/// What comes of a call that has no level left.
pub fn too_deep(alloc: Global, call: &Call) -> Result<Box<Outcome>, Memory>
    ensures { IfOk result (λ o. outcome_of o.value ≡ refused_deep (place_of call.now.by)) }
{
    let content = Rc::new(alloc, Items::new(alloc))?;
    let ending = Ending::Halted(Refused {
        code: DynCode::TooDeep,
        place: copy_place(alloc, &call.by)?,
    });
    on_heap(alloc, content, ending, 0, false)
}

// What a call comes to, on the heap.
fn on_heap(
    alloc: Global,
    content: Rc<Items>,
    ending: Ending,
    spare: u64,
    is_silent: bool,
) -> Result<Box<Outcome>, Memory>
    requires { is_silent ≡ true → messages_of (stream_of content.value) ≡ [] }
    ensures outcome { IfOk result (λ o. outcome_of o.value ≡ record { content = stream_of content.value; ending = ending_of ending }) }
    ensures spare { IfOk result (λ o. o.value.spare ≡ spare) }
{
    Ok(Box::new(
        alloc,
        Outcome {
            content,
            ending,
            spare,
            is_silent,
        },
    )?)
}

/// The smaller of two numbers.
pub fn fewer(one: u64, other: u64) -> u64
    ensures one { result ≤ one }
    ensures other { result ≤ other }
{
    if one < other { one } else { other }
}

/// Whether there is no message in these streams, nor in what came of a call, as far as that is known.
pub fn both_silent(are_silent: bool, outcome: &Outcome) -> bool
    ensures parts { result ≡ true → are_silent ≡ true }
    ensures outcome { result ≡ true → messages_of (outcome_of outcome.now).content ≡ [] }
{
    if !are_silent {
        return false;
    }
    outcome.is_silent
}

/// What comes of a call that came to this, with these streams in its holes. There were so many levels below its own,
/// and so many could be spared of them. Where it is known that no part has a message, it is told of the whole whether it
/// has one.
pub fn done(
    alloc: Global,
    ran: &Ran,
    parts: &[Rc<Items>],
    below: u64,
    spare: u64,
    are_silent: bool,
) -> Result<Box<Outcome>, Memory>
    requires fit { stream.holes (stream_of ran.now.stream.value) ≡ length parts.now }
    requires silent { are_silent ≡ true → all_messages (streams_of parts.now) ≡ [] }
    ensures spare { IfOk result (λ o. o.value.spare ≤ spare) }
    ensures height { IfOk result (λ o. o.value.spare ≤ below - ran.now.height) }
    ensures outcome { IfOk result (λ o. outcome_of o.value ≡ record { content = stream.filled (stream_of ran.now.stream.value) (streams_of parts.now); ending = ending_with ran.now.value }) }
{
    let content = with_parts(alloc, &ran.stream, parts)?;
    let ending = end_with(alloc, &ran.value)?;
    let spare = fewer(spare, below.saturating_sub(ran.height));
    let is_silent = is_silent_with(&ran.stream, are_silent);
    on_heap(alloc, content, ending, spare, is_silent)
}

/// What comes of a call that would have come to this, where the last that it entered was refused, with all that was
/// written up to there. These are the streams of what it entered.
pub fn cut_short(
    alloc: Global,
    ran: &Ran,
    parts: &[Rc<Items>],
    last: Box<Outcome>,
) -> Result<Box<Outcome>, Memory>
    requires some { 0 < length parts.now }
    requires fit { length parts.now ≤ stream.holes (stream_of ran.now.stream.value) }
    ensures { IfOk result (λ o. outcome_of o.value ≡ record { content = stream.filled (cut (length parts.now - 1) (stream_of ran.now.stream.value)) (streams_of parts.now); ending = (outcome_of last.value).ending }) }
{
    let before = cut(alloc, &ran.stream, parts.len() - 1)?;
    let content = before.fill(alloc, parts)?;
    let Outcome {
        content: _,
        ending,
        spare: _,
        is_silent: _,
    } = Box::into_inner(last);
    on_heap(alloc, content, ending, 0, false)
}

/// What comes of a call with so many levels left that a tree says by itself.
pub fn whole_again(alloc: Global, said: Said, levels: u64) -> Result<Box<Outcome>, Memory>
    ensures outcome { IfOk result (λ o. outcome_of o.value ≡ record { content = stream_of said.whole.value.content.value; ending = ending_with said.record.value.ran.value }) }
    ensures spare { IfOk result (λ o. o.value.spare ≡ (levels - 1) - said.whole.value.levels) }
{
    let Said { record, whole } = said;
    let content = whole.content.clone()?;
    let ending = end_with(alloc, &record.ran.value)?;
    let spare = levels.saturating_sub(1).saturating_sub(whole.levels);
    on_heap(alloc, content, ending, spare, whole.is_silent)
}

// How a run ends that is done, with the value of a global that has a select.
fn end_with(alloc: Global, value: &Option<Value>) -> Result<Ending, Memory>
    ensures { IfOk result (λ e. ending_of e ≡ ending_with value.now) }
{
    match value {
        None => Ok(Ending::Finished),
        Some(value) => Ok(Ending::Gave(copy_value(alloc, value)?)),
    }
}

/// What comes of a run that is refused.
pub fn refused(alloc: Global, fault: Box<RunFault>) -> Result<Box<Outcome>, Memory>
    ensures { IfOk result (λ o. IsRefused fault.value o.value) }
{
    match Box::into_inner(fault) {
        RunFault::Memory => Err(Memory),
        RunFault::Refused(why, content) => {
            let ending = Ending::Halted(why);
            on_heap(alloc, content, ending, 0, false)
        }
    }
}

/// What a run is given for a call of which this came. Its stream is added to the others.
pub fn streamed(
    came: Result<Box<Outcome>, Memory>,
    parts: &mut Vec<Rc<Items>>,
) -> Result<Entered, Memory>
    ensures { IfOk result (λ e. IsStreamed (Some e) came (streams_of parts.old.items) (streams_of parts.new.items)) }
{
    let outcome = came?;
    let part = content_of(&outcome)?;
    parts.push(part)?;
    let Outcome {
        content,
        ending,
        spare: _,
        is_silent: _,
    } = Box::into_inner(outcome);
    match ending {
        Ending::Finished => Ok(Entered::Stream(content)),
        Ending::Gave(_) => Ok(Entered::Stream(content)),
        Ending::Halted(why) => Ok(Entered::Refused(why, content)),
    }
}

/// What a call writes, shared.
pub fn content_of(outcome: &Outcome) -> Result<Rc<Items>, Memory>
    ensures { IfOk result (λ c. stream_of c.value ≡ (outcome_of outcome.now).content) }
{
    Ok(outcome.content.clone()?)
}

/// What a global holds of which this came.
#[tactic(auto, using(crate::proofs::NoHoles::quiet_whole))]
pub fn as_held(alloc: Global, outcome: Outcome) -> Result<Held, Memory>
    requires { stream.holes (outcome_of outcome).content ≡ 0 }
    ensures { IfOk result (λ h. supplied_of h ≡ held_by (outcome_of outcome)) }
{
    let Outcome {
        content,
        ending,
        spare: _,
        is_silent: _,
    } = outcome;
    match ending {
        Ending::Finished => {
            let quiet = quiet(alloc, &content)?;
            Ok(Held::Value(Value::Fragment(Fragment::new(quiet))))
        }
        Ending::Gave(value) => Ok(Held::Value(value)),
        Ending::Halted(why) => Ok(Held::Refused(why, content)),
    }
}

// Ends an evaluation: what was set aside for it is there again, and what it came to is remembered.
fn end_evaluation(
    alloc: Global,
    memo: &mut Memo,
    evaluation: Box<Evaluation>,
    levels: u64,
    content: Rc<Items>,
    given: &Entered,
) -> Result<(), Memory>
    ensures { OnOk result (entries_of memo.new ≡ (entries_of memo.old ++ map entry_of evaluation.value.aside.items) ++ remembered_as evaluation.value.name evaluation.value.element levels (stream_of content.value) given.now) }
{
    let Evaluation {
        name,
        element,
        under_way,
        call,
        aside,
    } = Box::into_inner(evaluation);
    drop(call);
    drop(under_way);
    put_back(memo, aside)?;
    remember(alloc, memo, name, element, levels, content, given)
}

/// What a run is given for a global of which this came, with so many levels. Its evaluation is done with, what was set
/// aside for it is there again, and its value is remembered.
pub fn evaluated(
    alloc: Global,
    memo: &mut Memo,
    came: Result<Box<Outcome>, Memory>,
    evaluation: Box<Evaluation>,
    levels: u64,
) -> Result<Box<Referred>, Memory>
    requires { IfOk came (λ o. stream.holes (outcome_of o.value).content ≡ 0) }
    ensures { IfOk result (λ r. Evaluates r.value came evaluation.value.name evaluation.value.element levels (map entry_of evaluation.value.aside.items) (entries_of memo.old) (entries_of memo.new)) }
{
    let outcome = came?;
    let spare = outcome.spare;
    let content = content_of(&outcome)?;
    let held = as_held(alloc, Box::into_inner(outcome))?;
    let entered = entered(held);
    let referred = Box::new(alloc, Referred { entered, spare })?;
    let needed = levels.saturating_sub(spare);
    end_evaluation(alloc, memo, evaluation, needed, content, &referred.entered)?;
    Ok(referred)
}

// What a run is given for a global that holds this.
fn entered(held: Held) -> Entered
    ensures { (place : places.Place) → Gives result place (supplied_of held) }
{
    match held {
        Held::Value(value) => Entered::Value(value),
        Held::Refused(why, content) => Entered::Refused(why, content),
    }
}
