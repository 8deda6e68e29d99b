// What a run did so far.
ghost use Rattle.std.specs.Prelude.{◌≡◌, IfOk, IfSome};
ghost use Rattle.xt_tree.specs.StreamView.{stream_of, streams_of};

use crate::wrapped::{nameless_attribute, wrapped};
use std::alloc::Global;
use std::mem;
use std::rc::Rc;
use xt_engine::{Call, Event, Wrapping};
use xt_questions::{Answer, Question, World};
use xt_streams::{count_holes, fill, quiet};
use xt_text::Memory;
use xt_tree::{Fragment, Item, Items};

/// How far the run of one instantiation has come. Sinks are what content is written into: an element that is
/// begun is a sink until it ends. After want of memory a run is over.
#[derive(Drop)]
pub struct Going {
    /// The innermost sink.
    pub top: Items,
    /// The sinks around it, the outermost first.
    pub outer: Vec<Items>,
    /// What the run did, in its order.
    pub events: Vec<Event>,
    /// How deep its contents went below its level.
    pub height: u64,
    /// The streams of the instantiations that it entered.
    pub streams: Vec<Rc<Items>>,
}

impl Going {
    ghost use Rattle.std.specs.Prelude.{◌≡◌, ◌-◌, length, IfOk, OnOk};
    ghost use Rattle.spec_meaning.specs.Stream.{filled, holes};
    ghost use Rattle.spec_run.specs.Going as plain;
    ghost use Rattle.spec_run.specs.Going.{Asked, at_start, noted, begun, wrap, taken, aside, deepened, opened, given, closed};
    ghost use Rattle.xt_tree.specs.StreamView.{single_of, stream_of};
    ghost use Rattle.xt_questions.specs.View.{question_of, answer_of};
    ghost use Rattle.xt_engine.specs.View.{call_of, event_of, wrapping_of};
    ghost use Rattle.xt_progress.specs.View.{going_of};

    /// Nothing is done. Takes no memory.
    pub fn new(alloc: Global) -> Going
        ensures { going_of result ≡ at_start }
    {
        Going {
            top: Items::new(alloc),
            outer: Vec::new(alloc),
            events: Vec::new(alloc),
            height: 0,
            streams: Vec::new(alloc),
        }
    }

    /// Notes what was done.
    pub fn note(&mut self, event: Event) -> Result<(), Memory>
        ensures { OnOk result (going_of self.new ≡ noted (event_of event) (going_of self.old)) }
    {
        self.events.push(event)?;
        Ok(())
    }

    /// Asks the world, and notes the question with its answer.
    pub fn ask<W: World>(
        &mut self,
        alloc: Global,
        world: &mut W,
        question: Question,
    ) -> Result<Answer, Memory>
        ensures answer { IfOk result (λ a. answer_of a ≡ (W.state world.old).truth (question_of question)) }
        ensures noted { OnOk result (going_of self.new ≡ noted (Asked (question_of question) ((W.state world.old).truth (question_of question))) (going_of self.old)) }
        ensures truth { (W.state world.new).truth ≡ (W.state world.old).truth }
        ensures name { W.name world.new ≡ W.name world.old }
    {
        let Ok(answer) = world.ask(&question) else {
            drop(question);
            return Err(Memory);
        };
        let copied = answer.copy(alloc);
        let Ok(()) = self.note(Event::Asked(question, answer)) else {
            drop(copied);
            return Err(Memory);
        };
        copied
    }

    /// Puts an item. Holes are of what is entered alone, so it has none.
    pub fn put(&mut self, item: Item) -> Result<(), Memory>
        requires { holes (single_of item) ≡ 0 }
        ensures { OnOk result (going_of self.new ≡ plain.put (single_of item) (going_of self.old)) }
    {
        self.top.push(item)
    }

    /// Puts the items of a fragment, which are shared.
    pub fn put_fragment(&mut self, fragment: &Fragment) -> Result<(), Memory>
        ensures { OnOk result (going_of self.new ≡ plain.put fragment.now (going_of self.old)) }
    {
        let items = fragment.items().clone()?;
        self.put(Item::Part(items))
    }

    /// Begins a sink, into which all is written until it ends or is taken.
    pub fn begin(&mut self, alloc: Global) -> Result<(), Memory>
        ensures { OnOk result (going_of self.new ≡ begun (going_of self.old)) }
    {
        let around = mem::replace(&mut self.top, Items::new(alloc));
        self.outer.push(around)?;
        Ok(())
    }

    /// Ends the innermost sink: it becomes this in the one around it. Where it is the only one it stays.
    pub fn end_wrapped(&mut self, alloc: Global, wrapping: Wrapping) -> Result<(), Memory>
        ensures { OnOk result (going_of self.new ≡ wrap (wrapping_of wrapping) (going_of self.old)) }
    {
        match self.outer.pop() {
            Some(around) => {
                let inner = mem::replace(&mut self.top, around);
                let Ok(content) = Rc::new(alloc, inner) else {
                    drop(wrapping);
                    return Err(Memory);
                };
                self.top.push(wrapped(wrapping, content))
            }
            None => {
                drop(wrapping);
                Ok(())
            }
        }
    }

    /// Takes the innermost sink, its holes filled and without its messages, as a variable or a parameter holds
    /// it. Its messages stay, in the sink around it, and what it holds of what was entered is noted.
    pub fn take(&mut self, alloc: Global) -> Result<Rc<Items>, Memory>
        ensures taken { IfOk result (λ s. stream_of s.value ≡ taken (going_of self.old)) }
        ensures aside { OnOk result (going_of self.new ≡ aside (going_of self.old)) }
    {
        let first = self.first_of_top()?;
        let held = shares(alloc, &self.streams.as_slice()[first..])?;
        let whole = fill(alloc, &self.top, held.as_slice())?;
        let value = quiet(alloc, &whole)?;
        self.note(Event::Held(first as u64, held))?;
        self.end_wrapped(alloc, nameless_attribute(alloc))?;
        Ok(value)
    }

    // Where the streams of the holes of the innermost sink begin. They are the last.
    fn first_of_top(&self) -> Result<usize, Memory>
        ensures { IfOk result (λ n. n ≡ length (going_of self.now).streams - holes (stream_of self.now.top)) }
    {
        let count = count_holes(&self.top)?;
        Ok(self.streams.len().saturating_sub(count))
    }

    /// Notes that a content stands so deep below the level of the instantiation.
    pub fn deepen(&mut self, depth: u64)
        ensures { going_of self.new ≡ deepened depth (going_of self.old) }
    {
        if self.height < depth {
            self.height = depth;
        }
    }

    /// Leaves a hole for what is entered from a content so deep, and notes that.
    pub fn leave_hole(&mut self, call: Rc<Call>, depth: u64) -> Result<(), Memory>
        ensures { OnOk result (going_of self.new ≡ opened (call_of call.value) depth (going_of self.old)) }
    {
        let Ok(()) = self.top.push(Item::Hole) else {
            drop(call);
            return Err(Memory);
        };
        self.note(Event::Entered(call, depth))
    }

    /// Takes the stream of what was entered last.
    pub fn give(&mut self, stream: Rc<Items>) -> Result<(), Memory>
        ensures { OnOk result (going_of self.new ≡ given (stream_of stream.value) (going_of self.old)) }
    {
        self.streams.push(stream)?;
        Ok(())
    }

    /// Ends all sinks: the whole stream, with its holes. Of sinks that a refusal cut short messages alone
    /// count. The outermost sink is empty then.
    pub fn close(&mut self, alloc: Global) -> Result<Rc<Items>, Memory>
        ensures closed { IfOk result (λ s. stream_of s.value ≡ closed (going_of self.old)) }
        ensures streams { self.new.streams ≡ self.old.streams }
        ensures events { self.new.events ≡ self.old.events }
        ensures height { self.new.height ≡ self.old.height }
    {
        while let Some(around) = self.outer.pop() {
            let inner = mem::replace(&mut self.top, around);
            let content = Rc::new(alloc, inner)?;
            self.top.push(wrapped(nameless_attribute(alloc), content))?;
        }
        let whole = mem::replace(&mut self.top, Items::new(alloc));
        shared(alloc, whole)
    }

    /// Ends all sinks: all that was written, its holes filled.
    pub fn written(&mut self, alloc: Global) -> Result<Rc<Items>, Memory>
        ensures { IfOk result (λ s. stream_of s.value ≡ filled (closed (going_of self.old)) (going_of self.old).streams) }
    {
        let whole = self.close(alloc)?;
        fill(alloc, &whole, self.streams.as_slice())
    }
}

// The same stream, shared. One that is nothing but a shared part, as the copy of a node is, takes no memory of its own.
fn shared(alloc: Global, items: Items) -> Result<Rc<Items>, Memory>
    ensures { IfOk result (λ s. stream_of s.value ≡ stream_of items) }
{
    if let Some(part) = only_part(&items) {
        return Ok(part.clone()?);
    }
    Ok(Rc::new(alloc, items)?)
}

// The shared part that a stream is nothing but.
fn only_part(items: &Items) -> Option<&Rc<Items>>
    ensures { IfSome result (λ part. stream_of part.now.value ≡ stream_of items.now) }
{
    let list = items.list();
    if list.len() != 1 {
        return None;
    }
    match &list[0] {
        Item::Part(part) => Some(part),
        _ => None,
    }
}

// The same streams, shared.
fn shares(alloc: Global, streams: &[Rc<Items>]) -> Result<Vec<Rc<Items>>, Memory>
    ensures { IfOk result (λ list. streams_of list.items ≡ streams_of streams.now) }
{
    let mut list = Vec::new(alloc);
    for stream in streams {
        list.push(stream.clone()?)?;
    }
    Ok(list)
}
