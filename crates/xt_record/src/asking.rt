// Whether what was asked has its answers.
ghost use Rattle.std.specs.Prelude.{◌≡◌, ◌<◌, ◌∷◌, [], IfNone, IfOk, IfSome, map};
ghost use Rattle.std.specs.Bool.{Decides};
ghost use Rattle.xt_questions.specs.View.{answer_of, question_of};
ghost use Rattle.xt_engine.specs.View.{event_of};
ghost use Rattle.xt_record.specs.View.{AsksHold};
ghost use Rattle.xt_record.specs.Asked.{Asks, NoneMarked, marked_in};
ghost use Rattle.xt_record.specs.Sure.{AsksSpared};
ghost use Rattle.xt_touch.specs.View.{since_of};

use crate::Steps;
use std::alloc::Global;
use xt_engine::Event;
use xt_questions::{Answer, Question, World};
use xt_spared::Spared;
use xt_text::Memory;

/// Whether each question has its answer: those that are not spared are asked up to the first that has another, and counted. The
/// others have theirs.
pub(crate) fn asks_hold<W: World>(
    alloc: Global,
    events: &[Event],
    spared: &Spared<'_>,
    world: &mut W,
    steps: &mut Steps,
) -> Result<bool, Memory>
    requires spared { AsksSpared (W.state world.now).truth spared.now (map event_of events.now) }
    ensures holds { IfOk result (λ b. Decides b (AsksHold (W.state world.old).truth (map event_of events.now))) }
    ensures steps { Asks (since_of spared.now.since.now) (map event_of events.now) steps.old steps.new }
    ensures truth { (W.state world.new).truth ≡ (W.state world.old).truth }
    ensures name { W.name world.new ≡ W.name world.old }
{
    for event in events {
        if !asks_so(alloc, event, spared, world, steps)? {
            return Ok(false);
        }
    }
    Ok(true)
}

// Whether the question has its answer, if it is one. It is asked where it is not spared.
fn asks_so<W: World>(
    alloc: Global,
    event: &Event,
    spared: &Spared<'_>,
    world: &mut W,
    steps: &mut Steps,
) -> Result<bool, Memory>
    requires spared { AsksSpared (W.state world.now).truth spared.now (event_of event.now ∷ []) }
    ensures holds { IfOk result (λ b. Decides b (AsksHold (W.state world.old).truth (event_of event.now ∷ []))) }
    ensures steps { Asks (since_of spared.now.since.now) (event_of event.now ∷ []) steps.old steps.new }
    ensures truth { (W.state world.new).truth ≡ (W.state world.old).truth }
    ensures name { W.name world.new ≡ W.name world.old }
{
    match event {
        Event::Asked(question, answer) => {
            if spared.spares(question) {
                return Ok(true);
            }
            steps.asked = steps.asked.saturating_add(1);
            is_answer(alloc, question, answer, world)
        }
        Event::Saw(_, _, _, _) => Ok(true),
        Event::Entered(_, _) => Ok(true),
        Event::Held(_, _) => Ok(true),
    }
}

/// The first question among what was done that a change marks, but for choices and for keys that stay.
/// Takes no memory.
pub(crate) fn first_marked<'a>(events: &'a [Event], spared: &Spared<'_>) -> Option<&'a Question>
    ensures marked { IfSome result (λ question. 0 < marked_in (since_of spared.now.since.now) (map event_of events.now)) }
    ensures none { IfNone result (NoneMarked (since_of spared.now.since.now) (map event_of events.now)) }
{
    for event in events {
        let question = marked_by(event, spared);
        if question.is_some() {
            return question;
        }
    }
    None
}

// The question that was asked there, where it is such a one.
fn marked_by<'a>(event: &'a Event, spared: &Spared<'_>) -> Option<&'a Question>
    ensures marked { IfSome result (λ question. 0 < marked_in (since_of spared.now.since.now) (event_of event.now ∷ [])) }
    ensures none { IfNone result (NoneMarked (since_of spared.now.since.now) (event_of event.now ∷ [])) }
{
    match event {
        Event::Asked(question, _) => {
            if spared.marks_alone(question) {
                Some(question)
            } else {
                None
            }
        }
        Event::Saw(_, _, _, _) => None,
        Event::Entered(_, _) => None,
        Event::Held(_, _) => None,
    }
}

// Whether the question has this answer.
fn is_answer<W: World>(
    alloc: Global,
    question: &Question,
    answer: &Answer,
    world: &mut W,
) -> Result<bool, Memory>
    ensures holds { IfOk result (λ b. Decides b ((W.state world.old).truth (question_of question.now) ≡ answer_of answer.now)) }
    ensures truth { (W.state world.new).truth ≡ (W.state world.old).truth }
    ensures name { W.name world.new ≡ W.name world.old }
{
    let now = world.ask(question)?;
    let same = now.same(alloc, answer);
    drop(now);
    same
}
