// How trees grow.
ghost use Rattle.std.specs.Prelude.{◌≡◌, ◌≤◌, ◌<◌, ◌-◌, ◌+◌, ◌++◌, ◌∷◌, [], List, Bool, true, suc, length, reverse, IfOk, IfSome, OnOk};
ghost use Rattle.spec_meaning.specs.Stream as stream;
ghost use Rattle.spec_run.specs.Going.{Event as Done, Entered};
ghost use Rattle.spec_node.specs.declared.node_ref.NodeRef.{NodeRef};
ghost use Rattle.xt_tree.specs.StreamView.{stream_of, streams_of};
ghost use Rattle.xt_engine.specs.View.{call_of, event_of};
ghost use Rattle.xt_record.specs.View.{kept_in};
ghost use Rattle.xt_record.specs.Grown.{values_of, AreTrees, IsTreeAt};
ghost use Rattle.xt_record.specs.Reached.{entered_in, Reaches};

use crate::filling::{both, is_silent_with, with_parts};
use crate::matching::is_of;
use crate::reach::Reach;
use crate::tree::{Summary, Tree};
use crate::{Pool, Record};
use std::alloc::Global;
use std::rc::Rc;
use xt_engine::{Call, Event};
use xt_text::Memory;
use xt_touch::Named;
use xt_tree::Items;

// No tree takes more levels.
const MOST_LEVELS: u64 = 1 << 32;

// Of a call that did more than this nothing is said. It mostly entered the items of a long list, and an edit of any of
// them would have all said anew that is then hardly ever used.
const MOST_EVENTS: usize = 2048;

impl Pool {
    /// Adds a record behind those of all that its call entered, which stand from this place on.
    pub(crate) fn plant(
        &mut self,
        alloc: Global,
        kept: Rc<Record>,
        mark: usize,
    ) -> Result<(), Memory>
        ensures records { OnOk result (self.new.records.items ≡ self.old.records.items ++ kept ∷ []) }
        ensures trees { OnOk result (AreTrees (values_of self.old.records.items) self.old.trees.items → AreTrees (values_of self.new.records.items) self.new.trees.items) }
    {
        let size = self.count().saturating_sub(mark) + 1;
        let whole = self.whole_behind(alloc, &kept, mark)?;
        self.add(alloc, kept, Tree { size, whole })
    }

    // What a record says by itself with those that stand from this place on, where it does.
    fn whole_behind(
        &self,
        alloc: Global,
        kept: &Record,
        mark: usize,
    ) -> Result<Option<Rc<Summary>>, Memory>
        ensures { IfOk result (λ o. AreTrees (values_of self.now.records.items) self.now.trees.items → IfSome o (λ w. IsTreeAt (values_of self.now.records.items ++ kept.now ∷ []) (length self.now.records.items) (suc (length self.now.records.items - mark)) w.value)) }
    {
        let events = kept.ran.events.as_slice();
        if events.len() > MOST_EVENTS {
            return Ok(None);
        }
        let mut reach = Reach {
            end: self.count(),
            parts: Vec::new(alloc),
            named: Named::nothing(),
            levels: kept.ran.height,
            is_silent: true,
        };
        let mut index = events.len();
        while index > 0 {
            index = index - 1;
            let goes = self.reaches(alloc, &events[index], &mut reach)?;
            if !goes {
                return Ok(None);
            }
        }
        if reach.end != mark {
            return Ok(None);
        }
        let whole = whole_of(alloc, kept, reach)?;
        Ok(Some(whole))
    }

    // Whether it goes one event further to the front: past questions and past trees that say all by themselves.
    fn reaches(&self, alloc: Global, event: &Event, reach: &mut Reach) -> Result<bool, Memory>
        ensures reaches { IfOk result (λ b. AreTrees (values_of self.now.records.items) self.now.trees.items → b ≡ true → Reaches (values_of self.now.records.items) (event_of event.now) reach.old reach.new) }
        ensures counts { IfOk result (λ b. b ≡ true → length reach.new.parts.items ≡ entered_in (event_of event.now ∷ []) + length reach.old.parts.items) }
        ensures levels { reach.old.levels ≤ reach.new.levels }
    {
        match event {
            Event::Asked(question, _) => {
                reach.named = reach.named.with(question);
                Ok(true)
            }
            Event::Entered(call, depth) => self.reaches_over(alloc, call, *depth, reach),
            Event::Saw(_, _, _, _) => Ok(false),
            Event::Held(_, _) => Ok(false),
        }
    }

    // Whether it goes past the tree of a call that was entered.
    fn reaches_over(
        &self,
        alloc: Global,
        call: &Call,
        depth: u64,
        reach: &mut Reach,
    ) -> Result<bool, Memory>
        ensures reaches { IfOk result (λ b. AreTrees (values_of self.now.records.items) self.now.trees.items → b ≡ true → Reaches (values_of self.now.records.items) (Entered (call_of call.now) depth) reach.old reach.new) }
        ensures counts { IfOk result (λ b. b ≡ true → length reach.new.parts.items ≡ suc (length reach.old.parts.items)) }
        ensures levels { reach.old.levels ≤ reach.new.levels }
    {
        if reach.end == 0 || reach.end > self.count() {
            return Ok(false);
        }
        let turn = reach.end - 1;
        let tree = self.tree_at(turn);
        let size = tree.size;
        let Some(whole) = &tree.whole else {
            return Ok(false);
        };
        if size > reach.end || depth > MOST_LEVELS || whole.levels > MOST_LEVELS {
            return Ok(false);
        }
        let record = self.record_at(turn);
        let suits = is_of(alloc, record, call)?;
        if !suits {
            return Ok(false);
        }
        let part = whole.content.clone()?;
        let is_silent = both(reach.is_silent, whole.is_silent);
        reach.is_silent = false;
        reach.parts.push(part)?;
        reach.is_silent = is_silent;
        reach.named = reach.named.and(whole.named);
        reach.levels = reach.levels.max(depth + whole.levels + 1);
        reach.end = reach.end - size;
        Ok(true)
    }
}

// What a record says, the whole way along which was gone.
fn whole_of(alloc: Global, kept: &Record, reach: Reach) -> Result<Rc<Summary>, Memory>
    requires { stream.holes (stream_of kept.now.ran.stream.value) ≡ length reach.parts.items }
    ensures content { IfOk result (λ w. stream_of w.value.content.value ≡ stream.filled (stream_of kept.now.ran.stream.value) (reverse (streams_of reach.parts.items))) }
    ensures named { IfOk result (λ w. w.value.named ≡ reach.named) }
    ensures levels { IfOk result (λ w. w.value.levels ≡ reach.levels) }
{
    let Reach {
        end: _,
        mut parts,
        named,
        levels,
        is_silent,
    } = reach;
    parts.reverse();
    let content = with_parts(alloc, &kept.ran.stream, parts.as_slice())?;
    let is_silent = is_silent_with(&kept.ran.stream, is_silent);
    let whole = Rc::new(
        alloc,
        Summary {
            content,
            named,
            levels,
            is_silent,
        },
    )?;
    Ok(whole)
}
