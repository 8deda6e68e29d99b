// A world that answers a choice of a template rule from what stood in place of the call that is run, where it is spared.
ghost use Rattle.std.specs.Prelude.{◌≡◌, ◌∷◌, IfSome, None, OnOk, Contains, map};
ghost use Rattle.std.specs.Option.{option_map};
ghost use Rattle.spec_meaning.specs.Question.{Chosen};
ghost use Rattle.spec_run.specs.Going.{Asked};
ghost use Rattle.xt_questions.specs.View.{answer_of, chosen_of, question_of};
ghost use Rattle.xt_engine.specs.Advances.{Advances, gift_of};
ghost use Rattle.xt_engine.specs.View.{event_of};
ghost use Rattle.xt_spared.specs.View.{Ask};
ghost use Rattle.xt_record.specs.Sure.{AllSpared, AsksSpared, IsSure};

use crate::Reuse;
use std::alloc::Global;
use xt_engine::{Engine, Entered, Event, RunFault, Turn};
use xt_questions::{Answer, ChosenRule, Given, Question, Wanted, World};
use xt_spared::{Spared, is_same_choice};
use xt_text::Memory;

// So many events are looked at for a choice.
const NEAR: usize = 16;

/// A world with what was done in place of the call that is run. A choice that stands there among the next events, and is
/// spared, has the answer that it had; all else is asked of the world.
#[derive(Drop)]
pub(crate) struct Recalling<'a, 'b, W: World> {
    world: &'a mut W,
    spared: &'b Spared<'b>,
    events: &'b [Event],
    // What stands before it was gone through: a hint.
    at: &'a mut usize,
    ghost sure: { ∥ AsksSpared (W.state world.now).truth spared.now (map event_of events.now) ∥₁ },
}

impl<'a, 'b, W: World> World for Recalling<'a, 'b, W> {
    ghost use Rattle.std.specs.Prelude.{◌∷◌, None};

    ghost state = { λ r. record { truth = (W.state r.world.now).truth; reads = None } };

    ghost name = { λ r. r.world.ghost_name ∷ r.at.ghost_name ∷ W.name r.world.now };

    fn ask(&mut self, question: &Question) -> Result<Answer, Memory> {
        match recalled(self.events, self.spared, self.at, question) {
            Some(rule) => Ok(Answer::Chosen(rule)),
            None => self.world.ask(question),
        }
    }

    fn see(&mut self, wanted: &Wanted, depth: u64, given: &Given) -> Result<(), Memory> {
        self.world.see(wanted, depth, given)
    }
}

// The rule of a choice that is spared and stands among the next events: none within where it is a built-in rule.
fn recalled(
    events: &[Event],
    spared: &Spared<'_>,
    at: &mut usize,
    question: &Question,
) -> Option<Option<ChosenRule>>
    ensures { (ask : Ask) → ∥ AsksSpared ask spared.now (map event_of events.now) ∥₁ → IfSome result (λ rule. ask (question_of question.now) ≡ Chosen (option_map chosen_of rule)) }
{
    let rule = chosen_near(events, at, question)?;
    if spared.spares(question) {
        Some(rule)
    } else {
        None
    }
}

// The rule of this choice, where it stands among the next events. The place is behind it then.
fn chosen_near(events: &[Event], at: &mut usize, question: &Question) -> Option<Option<ChosenRule>>
    ensures { IfSome result (λ rule. Contains (map event_of events.now) (Asked (question_of question.now) (Chosen (option_map chosen_of rule)))) }
{
    if !is_choice(question) {
        return None;
    }
    let first = next_choice(events, *at);
    *at = first;
    let end = first.saturating_add(NEAR).min(events.len());
    for place in first..end {
        if let Some(rule) = rule_of(&events[place], question) {
            *at = place + 1;
            return Some(rule);
        }
    }
    None
}

// The place of the first choice from this one on; behind all where there is none. What is passed over is not looked at again.
fn next_choice(events: &[Event], from: usize) -> usize {
    for place in from..events.len() {
        if let Event::Asked(question, _) = &events[place] {
            if is_choice(question) {
                return place;
            }
        }
    }
    from.max(events.len())
}

fn is_choice(question: &Question) -> bool {
    matches!(question, Question::Choice(_, _, _))
}

// The rule that was chosen there, where it is this choice.
fn rule_of(event: &Event, question: &Question) -> Option<Option<ChosenRule>>
    ensures { IfSome result (λ rule. event_of event.now ≡ Asked (question_of question.now) (Chosen (option_map chosen_of rule))) }
{
    match event {
        Event::Asked(asked, answer) => rule_in(asked, answer, question),
        Event::Saw(_, _, _, _) => None,
        Event::Entered(_, _) => None,
        Event::Held(_, _) => None,
    }
}

// The rule that is this answer, where what was asked is this choice.
fn rule_in(asked: &Question, answer: &Answer, question: &Question) -> Option<Option<ChosenRule>>
    ensures asked { IfSome result (λ rule. question_of asked.now ≡ question_of question.now) }
    ensures rule { IfSome result (λ rule. answer_of answer.now ≡ Chosen (option_map chosen_of rule)) }
{
    if !is_same_choice(asked, question) {
        return None;
    }
    match answer {
        Answer::Chosen(rule) => Some(*rule),
        _ => None,
    }
}

impl<'a> Reuse<'a> {
    /// Goes on with a run of the innermost call that is under way, as its engine does. A choice of a template rule that the
    /// record in its place asked as well, and that is spared, is not asked of the world again: it has the answer that it had,
    /// which is looked for among what stands next in that record, from this place on. So where a row comes into a list or
    /// leaves it, and what goes over the list is run again, the choices of the other rows are not made again.
    pub fn resume<E: Engine, W: World>(
        &self,
        alloc: Global,
        engine: &mut E,
        run: &mut E::Run,
        given: Option<Entered>,
        at: &mut usize,
        world: &mut W,
    ) -> Result<Turn, RunFault>
        requires sure { IsSure (W.state world.now).truth self.now }
        ensures advances { Advances (W.state world.old).truth (gift_of given) (E.progress run.old) (E.progress run.new) result }
        ensures truth { (W.state world.new).truth ≡ (W.state world.old).truth }
        ensures name { W.name world.new ≡ W.name world.old }
        ensures entered { E.entered engine.new ≡ E.entered engine.old }
    {
        let mut recalling = Recalling {
            world,
            spared: self.spared,
            events: self.done_in_place(),
            at,
        };
        engine.resume(alloc, run, given, &mut recalling)
    }

    // What was done in place of the innermost call.
    fn done_in_place(&self) -> &[Event]
        ensures { (ask : Ask) → AllSpared ask self.now.spared.now self.now.last.now.records.items → AsksSpared ask self.now.spared.now (map event_of result.now) }
    {
        match self.frames.in_place() {
            None => &[],
            Some(turn) => self.done_at(turn),
        }
    }

    // What was done by the record at this turn of the last run, if there is one.
    fn done_at(&self, turn: usize) -> &[Event]
        ensures { (ask : Ask) → AllSpared ask self.now.spared.now self.now.last.now.records.items → AsksSpared ask self.now.spared.now (map event_of result.now) }
    {
        if turn >= self.last.count() {
            return &[];
        }
        self.last.record_at(turn).ran.events.as_slice()
    }
}
