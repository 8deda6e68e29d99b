// Which unit is asked for by what a run kept.
ghost use Rattle.std.specs.Prelude.{◌≡◌, ◌∷◌, [], IfNone, IfSome, map};
ghost use Rattle.spec_meaning.specs.Question.{Unit as UnitOf};
ghost use Rattle.spec_node.specs.declared.node_ref.NodeRef.{NodeRef as Node};
ghost use Rattle.xt_engine.specs.View.{event_of};
ghost use Rattle.xt_questions.specs.View.{question_of};
ghost use Rattle.xt_record.specs.Asked.{AsksUnit, NoUnitIsAsked, UnitIsAsked};
ghost use Rattle.xt_record.specs.View.{kept_in};

use crate::{Pool, Record};
use std::rc::Rc;
use xt_engine::Event;
use xt_questions::Question;
use xt_tree::NodeRef;

impl Pool {
    /// The element of a unit that a record asks for: of the last record that asks for any, which is the one of the root where
    /// that asks for one. Takes no memory.
    pub fn last_unit(&self) -> Option<NodeRef>
        ensures asked { IfSome result (λ element. UnitIsAsked element self.now.records.items) }
        ensures none { IfNone result (NoUnitIsAsked self.now.records.items) }
    {
        let mut end = self.count();
        while end > 0 {
            let turn = end - 1;
            let unit = unit_by(self.record_at(turn));
            if unit.is_some() {
                return unit;
            }
            end = turn;
        }
        None
    }
}

// The element of the unit that the record asks for first.
fn unit_by(kept: &Rc<Record>) -> Option<NodeRef>
    ensures asked { IfSome result (λ element. AsksUnit element (kept_in kept.now.value).trace) }
    ensures none { IfNone result ((element : Node) → AsksUnit element (kept_in kept.now.value).trace → ⊥) }
{
    unit_in(kept.ran.events.as_slice())
}

// The same of what was done.
fn unit_in(events: &[Event]) -> Option<NodeRef>
    ensures asked { IfSome result (λ element. AsksUnit element (map event_of events.now)) }
    ensures none { IfNone result ((element : Node) → AsksUnit element (map event_of events.now) → ⊥) }
{
    for event in events {
        let unit = unit_of(event);
        if unit.is_some() {
            return unit;
        }
    }
    None
}

// Of one thing that was done.
fn unit_of(event: &Event) -> Option<NodeRef>
    ensures asked { IfSome result (λ element. AsksUnit element (event_of event.now ∷ [])) }
    ensures none { IfNone result ((element : Node) → AsksUnit element (event_of event.now ∷ []) → ⊥) }
{
    match event {
        Event::Asked(question, _) => element_of(question),
        Event::Saw(_, _, _, _) => None,
        Event::Entered(_, _) => None,
        Event::Held(_, _) => None,
    }
}

// The element of whose unit the question is.
fn element_of(question: &Question) -> Option<NodeRef>
    ensures asked { IfSome result (λ element. question_of question.now ≡ UnitOf element) }
    ensures none { IfNone result ((element : Node) → question_of question.now ≡ UnitOf element → ⊥) }
{
    match question {
        Question::Step(_, _, _) => None,
        Question::Text(_) => None,
        Question::Name(_) => None,
        Question::Place(_) => None,
        Question::Order(_) => None,
        Question::Key(_, _) => None,
        Question::Choice(_, _, _) => None,
        Question::Copy(_) => None,
        Question::Unit(element) => Some(*element),
        Question::External(_) => None,
    }
}
