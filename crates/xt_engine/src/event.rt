// What an instantiation did.
use crate::Call;
use std::rc::Rc;
use xt_base::Place;
use xt_questions::{Answer, Given, Question, Wanted};
use xt_tree::{Items, Value};

/// One thing that an instantiation did which depends on anything.
#[derive(Drop)]
pub enum Event {
    /// A question to the world, and its answer.
    Asked(Question, Answer),
    /// What was needed of the run, how deep below the level of the instantiation the content stands that
    /// needed it, the element that needed it, and what was given.
    Saw(Wanted, u64, Rc<Place>, Given),
    /// What was entered, from a content so deep.
    Entered(Rc<Call>, u64),
    /// The streams of the instantiations that it entered from this one on, where a variable or a parameter
    /// holds them.
    Held(u64, Vec<Rc<Items>>),
}

/// What an instantiation came to.
#[derive(Drop)]
pub struct Ran {
    /// What it wrote, with a hole for each instantiation that it entered.
    pub stream: Rc<Items>,
    /// Of a global with a select, its value.
    pub value: Option<Value>,
    /// What it did, in its order.
    pub events: Vec<Event>,
    /// How deep its contents went below its level.
    pub height: u64,
}

/// What an instantiation came to, without what it did.
#[derive(Drop)]
pub struct Ended {
    /// What it wrote, with a hole for each instantiation that it entered.
    pub stream: Rc<Items>,
    /// Of a global with a select, its value.
    pub value: Option<Value>,
    /// How deep its contents went below its level.
    pub height: u64,
}

impl Ran {
    ghost use Rattle.std.specs.Prelude.{◌≡◌};

    /// The same without what it did, which goes away. Takes no memory.
    pub fn ended(self) -> Ended
        ensures { result ≡ record { stream = self.stream; value = self.value; height = self.height } }
    {
        let Ran {
            stream,
            value,
            events,
            height,
        } = self;
        drop(events);
        Ended {
            stream,
            value,
            height,
        }
    }
}
