// What a run may reuse.
ghost use Rattle.std.specs.Prelude.{◌≡◌, ◌<◌, ◌≤◌, ◌+◌, ◌-◌, ◌^◌, ◌++◌, ◌∷◌, [], true, false, drop, length, get_or, slice_get, min, suc, IfOk, IfSome, IfNone, OnOk, Some};
ghost use Rattle.std.specs.Bool.{Decides};
ghost use Rattle.spec_meaning.specs.Question.{Question, Answer};
ghost use Rattle.spec_node.specs.declared.node_ref.NodeRef.{NodeRef};
ghost use Rattle.xt_engine.specs.View.{call_of};
ghost use Rattle.xt_record.specs.View.{AsksHold, DoesNotServe, DoesNotSuit, IsAt, MayServe, kept_in};
ghost use Rattle.spec_touch.specs.Marks.{any_marks};
ghost use Rattle.xt_record.specs.Asked.{IsLeftNoMore, Judges, LooksAt, NoneMarked, NoneMarkedAmong, marked_of, StaysSo};
ghost use Rattle.xt_record.specs.Chain.{key_of, keys_in, IsLatest};
ghost use Rattle.xt_record.specs.Grown.{values_of, AreTrees, IsSaidAt, IsTakenOver};
ghost use Rattle.xt_record.specs.Sure.{from_to, AllHold, AreAnswered, IsSure, TreeHolds, verdict_of};
ghost use Rattle.xt_record.specs.Search.{PassedAmong, PassedOver, Stands, StandsAmong, kept_place, last_place, most, next_of};
ghost use Rattle.xt_record.specs.declared.reuse.Verdict.TheVariants as Verdict;
ghost use Rattle.xt_spared.specs.View.{IsSparedBy, Spares};
ghost use Rattle.xt_touch.specs.Named.{Covers};
ghost use Rattle.xt_touch.specs.View.{since_of};

use crate::asking::{asks_hold, first_marked};
use crate::frames::Frames;
use crate::index::Index;
use crate::tree::Summary;
use crate::{Pool, Record};
use std::alloc::Global;
use std::rc::Rc;
use xt_engine::Call;
use xt_questions::World;
use xt_spared::Spared;
use xt_text::Memory;

/// What a run cost, as far as it is counted.
#[derive(Clone, Copy, Debug, PartialEq, Eq)]
pub struct Steps {
    /// The instantiations that were run.
    pub ran: u64,
    /// The questions of records that were asked again.
    pub asked: u64,
}

// Where one that was found says to go on: as far below this as its turn says, where this run kept it, and as far below
// twice this where the last did. So those that this run kept come first, and in both the latest. No list is longer.
const LAST: u64 = (1 << 63) - 1;

/// What is known of the questions of a record.
#[derive(Clone, Copy, Debug, PartialEq, Eq)]
pub(crate) enum Verdict {
    /// They were not asked yet.
    Unasked,
    /// Each has the answer that it had.
    Holds,
    /// One has another answer.
    Fails,
}

/// A record that may serve a call.
#[derive(Drop)]
pub struct Found {
    pub record: Rc<Record>,
    /// From where to look for the next.
    pub next: u64,
}

/// A tree of the last run that says by itself what a call comes to.
#[derive(Drop)]
pub struct Said {
    pub record: Rc<Record>,
    pub whole: Rc<Summary>,
}

/// What a run may reuse: the records of the last finished run, and those that it keeps itself. It finds what may serve
/// a call, and counts what it does.
#[derive(Drop)]
pub struct Reuse<'a> {
    pub(crate) last: &'a Pool,
    // Which questions need not be asked again, by what changed since. The others may have other answers now.
    pub(crate) spared: &'a Spared<'a>,
    // One for each record of the last run.
    verdicts: Vec<Verdict>,
    // Those of the last run by their calls, once many were looked for.
    in_order: Option<Index>,
    // How many were looked for without.
    looks: u8,
    // What was made or served in this run, but for trees that were taken over.
    kept: Index,
    // All that the next run is given, and which calls are under way.
    next: Pool,
    pub(crate) frames: Frames,
    steps: Steps,
}

// So many records of the last run are looked for one by one, before they are put in order by their calls.
const FEW: u8 = 64;

// Of a tree that has more records below its own than this no question is asked: it would mostly be found that one of them
// has another answer, after a look at all before it, and the call is gone along then.
const MOST_ASKED: usize = 15;

impl<'a> Reuse<'a> {
    /// Nothing is kept yet and nothing counted, and no question of the last run was asked. Those that are spared have the
    /// answers that they had.
    pub fn new(alloc: Global, last: &'a Pool, spared: &'a Spared<'a>) -> Result<Reuse<'a>, Memory>
        ensures sure { IfOk result (λ reuse. (was ask : Question NodeRef → Answer NodeRef) → AreAnswered was last.now → Spares was ask spared.now → IsSure ask reuse) }
        ensures last { IfOk result (λ reuse. reuse.last.now ≡ last.now) }
        ensures spared { IfOk result (λ reuse. reuse.spared.now ≡ spared.now) }
        ensures kept { IfOk result (λ reuse. reuse.kept.records.items ≡ []) }
        ensures next { IfOk result (λ reuse. next_of reuse ≡ []) }
        ensures ran { IfOk result (λ reuse. reuse.steps.ran ≡ 0) }
        ensures asked { IfOk result (λ reuse. reuse.steps.asked ≡ 0) }
    {
        let frames = Frames::new(alloc, last)?;
        Ok(Reuse {
            last,
            spared,
            verdicts: vec![in alloc; Verdict::Unasked; last.count()]?,
            in_order: None,
            looks: 0,
            kept: Index::new(alloc),
            next: Pool::new(alloc),
            frames,
            steps: Steps { ran: 0, asked: 0 },
        })
    }

    /// A record that may serve the call, with so many levels below the call's own: among those that this run kept, and then
    /// among those of the last, in both the latest first. From 0 on, or from where one that was found says; from there on
    /// nothing is found twice, and none that is passed over may serve. Where the questions of a record were not asked in this
    /// run, those that are not spared are asked up to the first that has another answer, and counted.
    pub fn find<W: World>(
        &mut self,
        alloc: Global,
        world: &mut W,
        call: &Call,
        below: u64,
        from: u64,
    ) -> Result<Option<Found>, Memory>
        requires sure { IsSure (W.state world.now).truth self.now }
        ensures sure { OnOk result (IsSure (W.state world.old).truth self.new) }
        ensures serves { IfOk result (λ o. IfSome o (λ f. MayServe (W.state world.old).truth (call_of call.now) below (kept_in f.record.value))) }
        ensures next { IfOk result (λ o. IfSome o (λ f. from < f.next)) }
        ensures stands { IfOk result (λ o. IfSome o (λ f. Stands self.old f.next f.record.value)) }
        ensures complete { IfOk result (PassedOver (W.state world.old).truth (call_of call.now) below self.old from) }
        ensures judges { Judges self.old self.new }
        ensures truth { (W.state world.new).truth ≡ (W.state world.old).truth }
        ensures name { W.name world.new ≡ W.name world.old }
    {
        let found = self.find_any(alloc, world, call, below, from)?;
        let turn = turn_of(&found);
        let count = self.next.count();
        self.frames.go_along(alloc, self.last, turn, count)?;
        Ok(found)
    }

    // The same, where it does not matter which call is under way.
    fn find_any<W: World>(
        &mut self,
        alloc: Global,
        world: &mut W,
        call: &Call,
        below: u64,
        from: u64,
    ) -> Result<Option<Found>, Memory>
        requires sure { IsSure (W.state world.now).truth self.now }
        ensures sure { OnOk result (IsSure (W.state world.old).truth self.new) }
        ensures serves { IfOk result (λ o. IfSome o (λ f. MayServe (W.state world.old).truth (call_of call.now) below (kept_in f.record.value))) }
        ensures next { IfOk result (λ o. IfSome o (λ f. from < f.next)) }
        ensures stands { IfOk result (λ o. IfSome o (λ f. Stands self.old f.next f.record.value)) }
        ensures complete { IfOk result (PassedOver (W.state world.old).truth (call_of call.now) below self.old from) }
        ensures judges { Judges self.old self.new }
        ensures truth { (W.state world.new).truth ≡ (W.state world.old).truth }
        ensures name { W.name world.new ≡ W.name world.old }
    {
        if let Some(found) = self.find_kept(alloc, call, below, from)? {
            return Ok(Some(found));
        }
        self.find_last(alloc, world, call, below, from)
    }

    // One that this run kept.
    fn find_kept(
        &self,
        alloc: Global,
        call: &Call,
        below: u64,
        from: u64,
    ) -> Result<Option<Found>, Memory>
        ensures serves { (ask : Question NodeRef → Answer NodeRef) → IsSure ask self.now → IfOk result (λ o. IfSome o (λ f. MayServe ask (call_of call.now) below (kept_in f.record.value))) }
        ensures next { IfOk result (λ o. IfSome o (λ f. from < f.next)) }
        ensures within { IfOk result (λ o. IfSome o (λ f. f.next ≤ most)) }
        ensures stands { IfOk result (λ o. IfSome o (λ f. StandsAmong kept_place self.now.kept.records.items f.next f.record.value)) }
        ensures passes { (ask : Question NodeRef → Answer NodeRef) → IfOk result (PassedAmong ask (call_of call.now) below kept_place self.now.kept.records.items from) }
    {
        let mut end = LAST.saturating_sub(from) as usize;
        while let Some(turn) = self.kept.latest_before(call, end) {
            let next = LAST - turn as u64;
            if let Some(found) = self.of_kept(alloc, turn, call, below, next)? {
                return Ok(Some(found));
            }
            end = turn;
        }
        Ok(None)
    }

    // The one at this turn of those that this run kept, where it may serve the call.
    fn of_kept(
        &self,
        alloc: Global,
        turn: usize,
        call: &Call,
        below: u64,
        next: u64,
    ) -> Result<Option<Found>, Memory>
        ensures serves { (ask : Question NodeRef → Answer NodeRef) → IsSure ask self.now → IfOk result (λ o. IfSome o (λ f. MayServe ask (call_of call.now) below (kept_in f.record.value))) }
        ensures next { IfOk result (λ o. IfSome o (λ f. f.next ≡ next)) }
        ensures at { IfOk result (λ o. IfSome o (λ f. IsAt self.now.kept.records.items turn f.record.value)) }
        ensures passes { IfOk result (λ o. IfNone o (DoesNotSuit (call_of call.now) below self.now.kept.records.items turn)) }
    {
        let suiting = self.kept.suiting(alloc, turn, call, below)?;
        match suiting {
            None => Ok(None),
            Some(kept) => Ok(Some(Found { record: kept, next })),
        }
    }

    // One of the last run whose questions have their answers.
    fn find_last<W: World>(
        &mut self,
        alloc: Global,
        world: &mut W,
        call: &Call,
        below: u64,
        from: u64,
    ) -> Result<Option<Found>, Memory>
        requires sure { IsSure (W.state world.now).truth self.now }
        ensures sure { OnOk result (IsSure (W.state world.old).truth self.new) }
        ensures serves { IfOk result (λ o. IfSome o (λ f. MayServe (W.state world.old).truth (call_of call.now) below (kept_in f.record.value))) }
        ensures next { IfOk result (λ o. IfSome o (λ f. from < f.next)) }
        ensures stands { IfOk result (λ o. IfSome o (λ f. StandsAmong last_place self.old.last.now.records.items f.next f.record.value)) }
        ensures passes { IfOk result (PassedAmong (W.state world.old).truth (call_of call.now) below last_place self.old.last.now.records.items from) }
        ensures judges { Judges self.old self.new }
        ensures truth { (W.state world.new).truth ≡ (W.state world.old).truth }
        ensures name { W.name world.new ≡ W.name world.old }
    {
        let mut end = (2 * LAST).saturating_sub(from.max(LAST)) as usize;
        while let Some(turn) = self.latest_before(alloc, call, end)? {
            if let Some(record) = self.of_last(alloc, world, turn, call, below)? {
                return Ok(Some(Found {
                    record,
                    next: 2 * LAST - turn as u64,
                }));
            }
            end = turn;
        }
        Ok(None)
    }

    // The turn of the latest record of the last run before this turn that has the key of this call.
    fn latest_before(
        &mut self,
        alloc: Global,
        call: &Call,
        turn: usize,
    ) -> Result<Option<usize>, Memory>
        ensures sure { OnOk result ((ask : Question NodeRef → Answer NodeRef) → IsSure ask self.old → IsSure ask self.new) }
        ensures below { IfOk result (λ o. IfSome o (λ t. t < turn)) }
        ensures latest { IfOk result (λ o. (ask : Question NodeRef → Answer NodeRef) → IsSure ask self.old → ∥ IsLatest (keys_in self.old.last.now.records.items) (key_of (call_of call.now)) turn o ∥₁) }
        ensures stays { StaysSo self.old self.new }
        ensures next { self.new.next ≡ self.old.next }
    {
        if self.looks < FEW {
            self.looks = self.looks + 1;
            return Ok(self.last.latest_before(call, turn));
        }
        self.put_in_order(alloc)?;
        match &self.in_order {
            None => Ok(self.last.latest_before(call, turn)),
            Some(index) => Ok(index.latest_before(call, turn)),
        }
    }

    // Makes the index of the last run's.
    fn put_in_order(&mut self, alloc: Global) -> Result<(), Memory>
        ensures sure { OnOk result ((ask : Question NodeRef → Answer NodeRef) → IsSure ask self.old → IsSure ask self.new) }
        ensures stays { StaysSo self.old self.new }
        ensures next { self.new.next ≡ self.old.next }
    {
        if self.in_order.is_some() {
            return Ok(());
        }
        self.in_order = Some(index_of(alloc, self.last)?);
        Ok(())
    }

    // The record of the last run at this turn, where it may serve the call.
    fn of_last<W: World>(
        &mut self,
        alloc: Global,
        world: &mut W,
        turn: usize,
        call: &Call,
        below: u64,
    ) -> Result<Option<Rc<Record>>, Memory>
        requires sure { IsSure (W.state world.now).truth self.now }
        ensures sure { OnOk result (IsSure (W.state world.old).truth self.new) }
        ensures serves { IfOk result (λ o. IfSome o (λ r. MayServe (W.state world.old).truth (call_of call.now) below (kept_in r.value))) }
        ensures at { IfOk result (λ o. IfSome o (λ r. IsAt self.old.last.now.records.items turn r.value)) }
        ensures passes { IfOk result (λ o. IfNone o (DoesNotServe (W.state world.old).truth (call_of call.now) below self.old.last.now.records.items turn)) }
        ensures judges { Judges self.old self.new }
        ensures truth { (W.state world.new).truth ≡ (W.state world.old).truth }
        ensures name { W.name world.new ≡ W.name world.old }
    {
        let Some(record) = self.last.suiting(alloc, turn, call, below)? else {
            return Ok(None);
        };
        if !self.holds(alloc, world, turn, &record)? {
            return Ok(None);
        }
        Ok(Some(record))
    }

    // Whether the questions of this record of the last run have their answers. They are asked where they were not yet.
    fn holds<W: World>(
        &mut self,
        alloc: Global,
        world: &mut W,
        turn: usize,
        kept: &Rc<Record>,
    ) -> Result<bool, Memory>
        requires sure { IsSure (W.state world.now).truth self.now }
        requires within { turn < length self.now.last.now.records.items }
        requires at { kept.now.value ≡ (get_or self.now.last.now.records.items turn kept.now).value }
        ensures sure { OnOk result (IsSure (W.state world.old).truth self.new) }
        ensures holds { IfOk result (λ b. Decides b (AsksHold (W.state world.old).truth (kept_in kept.now.value).trace)) }
        ensures judges { Judges self.old self.new }
        ensures left { OnOk result (IsLeftNoMore self.new kept.now.value) }
        ensures truth { (W.state world.new).truth ≡ (W.state world.old).truth }
        ensures name { W.name world.new ≡ W.name world.old }
    {
        let verdict = self.verdicts[turn];
        match verdict {
            Verdict::Holds => Ok(true),
            Verdict::Fails => Ok(false),
            Verdict::Unasked => {
                let events = kept.ran.events.as_slice();
                let holds = asks_hold(alloc, events, self.spared, world, &mut self.steps)?;
                self.verdicts[turn] = verdict_of(holds);
                Ok(holds)
            }
        }
    }

    /// Keeps a record whose questions have their answers, for calls after this one and for the next run.
    pub fn keep(&mut self, alloc: Global, kept: Rc<Record>) -> Result<(), Memory>
        ensures sure { OnOk result ((ask : Question NodeRef → Answer NodeRef) → IsSure ask self.old → AsksHold ask (kept_in kept.value).trace → IsSure ask self.new) }
        ensures kept { OnOk result (self.new.kept.records.items ≡ self.old.kept.records.items ++ kept ∷ []) }
        ensures next { OnOk result (next_of self.new ≡ next_of self.old ++ kept.value ∷ []) }
        ensures last { self.new.last ≡ self.old.last }
        ensures spared { self.new.spared ≡ self.old.spared }
        ensures steps { self.new.steps ≡ self.old.steps }
    {
        self.plant(alloc, &kept)?;
        self.kept.add(kept)
    }

    /// Keeps it for the next run alone, behind what the call entered that is under way. That call is done with.
    pub fn plant(&mut self, alloc: Global, kept: &Rc<Record>) -> Result<(), Memory>
        ensures sure { OnOk result ((ask : Question NodeRef → Answer NodeRef) → IsSure ask self.old → AsksHold ask (kept_in kept.now.value).trace → IsSure ask self.new) }
        ensures next { OnOk result (next_of self.new ≡ next_of self.old ++ kept.now.value ∷ []) }
        ensures stays { StaysSo self.old self.new }
    {
        let mark = self.frames.close(self.next.count());
        self.next.plant(alloc, kept.clone()?, mark)
    }

    /// The call that is under way is done with, and nothing is kept of it.
    pub fn leave(&mut self)
        ensures sure { (ask : Question NodeRef → Answer NodeRef) → IsSure ask self.old → IsSure ask self.new }
        ensures next { self.new.next ≡ self.old.next }
        ensures stays { StaysSo self.old self.new }
    {
        let _ = self.frames.close(0);
    }

    /// What a tree of the last run says by itself of a call, where one stood in its place, with so many levels left. It is
    /// kept for the next run. Where there is none the call is under way. Where questions of a small tree are not spared they
    /// are asked, up to the first that has another answer, and counted.
    pub fn said<W: World>(
        &mut self,
        alloc: Global,
        world: &mut W,
        call: &Call,
        levels: u64,
    ) -> Result<Option<Said>, Memory>
        requires sure { IsSure (W.state world.now).truth self.now }
        ensures sure { OnOk result (IsSure (W.state world.old).truth self.new) }
        ensures said { IfOk result (λ o. IfSome o (λ x. IsTakenOver (W.state world.old).truth (values_of self.old.last.now.records.items) (next_of self.old) (next_of self.new) (call_of call.now) levels x.whole.value x.record.value)) }
        ensures unsaid { IfOk result (λ o. IfNone o (next_of self.new ≡ next_of self.old)) }
        ensures looks { LooksAt self.old self.new }
        ensures truth { (W.state world.new).truth ≡ (W.state world.old).truth }
        ensures name { W.name world.new ≡ W.name world.old }
    {
        if levels == 0 {
            return Ok(None);
        }
        let count = self.next.count();
        match self.frames.open(alloc, self.last, call, count)? {
            None => Ok(None),
            Some(turn) => self.said_at(alloc, world, turn, call, levels),
        }
    }

    // The tree of the record at this turn of the last run, where it says all of the call.
    fn said_at<W: World>(
        &mut self,
        alloc: Global,
        world: &mut W,
        turn: usize,
        call: &Call,
        levels: u64,
    ) -> Result<Option<Said>, Memory>
        requires sure { IsSure (W.state world.now).truth self.now }
        ensures sure { OnOk result (IsSure (W.state world.old).truth self.new) }
        ensures said { IfOk result (λ o. IfSome o (λ x. IsTakenOver (W.state world.old).truth (values_of self.old.last.now.records.items) (next_of self.old) (next_of self.new) (call_of call.now) levels x.whole.value x.record.value)) }
        ensures unsaid { IfOk result (λ o. IfNone o (next_of self.new ≡ next_of self.old)) }
        ensures looks { LooksAt self.old self.new }
        ensures truth { (W.state world.new).truth ≡ (W.state world.old).truth }
        ensures name { W.name world.new ≡ W.name world.old }
    {
        let last = self.last;
        let Some(said) = self.tree_for(alloc, world, turn, call, levels)? else {
            return Ok(None);
        };
        self.next.take_over(alloc, last, turn)?;
        let _ = self.frames.close(0);
        Ok(Some(said))
    }

    // The record at this turn of the last run with what its tree says, where that is all of the call.
    fn tree_for<W: World>(
        &mut self,
        alloc: Global,
        world: &mut W,
        turn: usize,
        call: &Call,
        levels: u64,
    ) -> Result<Option<Said>, Memory>
        requires sure { IsSure (W.state world.now).truth self.now }
        ensures sure { OnOk result (IsSure (W.state world.old).truth self.new) }
        ensures said { IfOk result (λ o. IfSome o (λ x. IsSaidAt (W.state world.old).truth (values_of self.old.last.now.records.items) self.old.last.now.trees.items turn (call_of call.now) levels x.whole.value x.record.value)) }
        ensures within { IfOk result (λ o. IfSome o (λ x. turn < length self.old.last.now.records.items)) }
        ensures judges { Judges self.old self.new }
        ensures truth { (W.state world.new).truth ≡ (W.state world.old).truth }
        ensures name { W.name world.new ≡ W.name world.old }
    {
        let last = self.last;
        let Some(whole) = whole_for(last, turn, levels) else {
            return Ok(None);
        };
        let Some(said) = said_by(alloc, last, whole, turn, call, levels)? else {
            return Ok(None);
        };
        match self.tree_holds(alloc, world, turn, whole) {
            Ok(true) => Ok(Some(said)),
            Ok(false) => {
                drop(said);
                Ok(None)
            }
            Err(Memory) => {
                drop(said);
                Err(Memory)
            }
        }
    }

    // Whether each question of the tree at this turn of the last run, which says this, has its answer. Those that are not
    // spared are asked where the tree is small.
    fn tree_holds<W: World>(
        &mut self,
        alloc: Global,
        world: &mut W,
        turn: usize,
        whole: &Rc<Summary>,
    ) -> Result<bool, Memory>
        requires sure { IsSure (W.state world.now).truth self.now }
        requires within { turn < length self.now.last.now.records.items }
        requires tree { IfSome (slice_get self.now.last.now.trees.items turn) (λ t. t.whole ≡ Some whole.now) }
        requires paired { length self.now.last.now.trees.items ≡ length self.now.last.now.records.items }
        ensures sure { OnOk result (IsSure (W.state world.old).truth self.new) }
        ensures holds { IfOk result (λ b. b ≡ true → TreeHolds (W.state world.old).truth self.old.last.now turn) }
        ensures judges { Judges self.old self.new }
        ensures truth { (W.state world.new).truth ≡ (W.state world.old).truth }
        ensures name { W.name world.new ≡ W.name world.old }
    {
        if self.spares_all(whole) {
            return Ok(true);
        }
        let first = self.last.first_of(turn);
        if turn - first > MOST_ASKED {
            return Ok(false);
        }
        self.all_hold(alloc, world, first, turn)
    }

    // Whether the questions of all records of the last run from the first turn up to this turn have their answers. The last
    // stands first, since the others are of what it entered.
    fn all_hold<W: World>(
        &mut self,
        alloc: Global,
        world: &mut W,
        first: usize,
        turn: usize,
    ) -> Result<bool, Memory>
        requires sure { IsSure (W.state world.now).truth self.now }
        requires within { turn < length self.now.last.now.records.items }
        requires room { turn < 2 ^ 64 - 1 }
        ensures sure { OnOk result (IsSure (W.state world.old).truth self.new) }
        ensures holds { IfOk result (λ b. b ≡ true → first ≤ suc turn → AllHold (W.state world.old).truth (from_to first (suc turn) self.old.last.now.records.items)) }
        ensures judges { Judges self.old self.new }
        ensures truth { (W.state world.new).truth ≡ (W.state world.old).truth }
        ensures name { W.name world.new ≡ W.name world.old }
    {
        let last = self.last;
        let mut end = turn + 1;
        while end > first {
            let holds = self.holds(alloc, world, end - 1, last.record_at(end - 1))?;
            if !holds {
                return Ok(false);
            }
            end = end - 1;
        }
        Ok(true)
    }

    // Where it says so, no question of a tree need be asked.
    fn spares_all(&self, whole: &Rc<Summary>) -> bool
        ensures { result ≡ true → (question : Question NodeRef) → Covers whole.now.value.named question → IsSparedBy self.now.spared.now question }
    {
        self.spared.spares_all(&whole.named)
    }

    /// Where nothing was run and no question asked again, goes over the records of the last run, from the end on, up to the
    /// first of which a question is asked. So one is asked where any is marked but choices and keys that stay, though it need not
    /// be: who sees that nothing was run sees whether the change was looked at. Trees of which no question is marked are passed over,
    /// so it mostly ends at once.
    ///
    /// # Errors
    /// Want of memory.
    pub fn ask_what_is_left<W: World>(&mut self, alloc: Global, world: &mut W) -> Result<(), Memory>
        requires sure { IsSure (W.state world.now).truth self.now }
        ensures sure { OnOk result (IsSure (W.state world.old).truth self.new) }
        ensures judges { Judges self.old self.new }
        ensures least { OnOk result (self.new.steps.ran ≡ 0 → self.new.steps.asked ≡ 0 → NoneMarkedAmong (since_of self.old.spared.now.since.now) self.old.last.now.records.items) }
        ensures truth { (W.state world.new).truth ≡ (W.state world.old).truth }
        ensures name { W.name world.new ≡ W.name world.old }
    {
        if self.steps.ran > 0 {
            return Ok(());
        }
        let mut end = self.last.count();
        while end > 0 {
            if self.steps.asked > 0 {
                return Ok(());
            }
            end = self.judge_at(alloc, world, end - 1)?;
        }
        Ok(())
    }

    // Asks of the record at this turn of the last run what must be asked, and else the first question that is marked; or
    // passes over its tree. It is known of all from the answer on.
    fn judge_at<W: World>(
        &mut self,
        alloc: Global,
        world: &mut W,
        turn: usize,
    ) -> Result<usize, Memory>
        requires sure { IsSure (W.state world.now).truth self.now }
        requires within { turn < length self.now.last.now.records.items }
        ensures sure { OnOk result (IsSure (W.state world.old).truth self.new) }
        ensures judges { Judges self.old self.new }
        ensures before { IfOk result (λ n. n ≤ turn) }
        ensures quiet { IfOk result (λ n. self.new.steps.asked ≡ 0
            → NoneMarkedAmong (since_of self.old.spared.now.since.now) (drop (suc turn) self.old.last.now.records.items)
            → NoneMarkedAmong (since_of self.old.spared.now.since.now) (drop n self.old.last.now.records.items)) }
        ensures truth { (W.state world.new).truth ≡ (W.state world.old).truth }
        ensures name { W.name world.new ≡ W.name world.old }
    {
        if let Some(first) = self.unmarked_from(turn) {
            return Ok(first);
        }
        let last = self.last;
        let kept = last.record_at(turn);
        self.holds(alloc, world, turn, kept)?;
        self.ask_marked(world, kept)?;
        Ok(turn)
    }

    // Where nothing was asked, asks the first question of a record that is marked, but for choices and for keys that stay, and
    // counts it.
    fn ask_marked<W: World>(&mut self, world: &mut W, kept: &Rc<Record>) -> Result<(), Memory>
        requires sure { IsSure (W.state world.now).truth self.now }
        requires left { IsLeftNoMore self.now kept.now.value }
        ensures sure { OnOk result (IsSure (W.state world.old).truth self.new) }
        ensures judges { Judges self.old self.new }
        ensures quiet { OnOk result (self.new.steps.asked ≡ 0 → NoneMarked (since_of self.old.spared.now.since.now) (kept_in kept.now.value).trace) }
        ensures truth { (W.state world.new).truth ≡ (W.state world.old).truth }
        ensures name { W.name world.new ≡ W.name world.old }
    {
        if self.steps.asked > 0 {
            return Ok(());
        }
        match first_marked(kept.ran.events.as_slice(), self.spared) {
            None => Ok(()),
            Some(question) => {
                self.steps.asked = 1;
                let answer = world.ask(question)?;
                drop(answer);
                Ok(())
            }
        }
    }

    // The turn of the first record of the tree at this turn of the last run, where none of its questions is marked.
    fn unmarked_from(&self, turn: usize) -> Option<usize>
        requires { turn < length self.now.last.now.records.items }
        ensures before { IfSome result (λ n. n ≤ turn) }
        ensures quiet { AreTrees (values_of self.now.last.now.records.items) self.now.last.now.trees.items → IfSome result (λ n.
            NoneMarkedAmong (since_of self.now.spared.now.since.now) (drop (suc turn) self.now.last.now.records.items)
            → NoneMarkedAmong (since_of self.now.spared.now.since.now) (drop n self.now.last.now.records.items)) }
    {
        let whole = self.last.whole_at(turn)?;
        if !self.marks_none(whole) {
            return None;
        }
        Some(self.last.first_of(turn))
    }

    // Where it says so, no question of a tree is marked.
    fn marks_none(&self, whole: &Rc<Summary>) -> bool
        ensures { result ≡ true → (question : Question NodeRef) → Covers whole.now.value.named question → any_marks (since_of self.now.spared.now.since.now) question ≡ false }
    {
        self.spared.marks_none(&whole.named)
    }

    /// Counts an instantiation that is run.
    pub fn count_run(&mut self)
        ensures sure { (ask : Question NodeRef → Answer NodeRef) → IsSure ask self.old → IsSure ask self.new }
        ensures last { self.new.last ≡ self.old.last }
        ensures spared { self.new.spared ≡ self.old.spared }
        ensures kept { self.new.kept ≡ self.old.kept }
        ensures next { self.new.next ≡ self.old.next }
        ensures ran { self.new.steps.ran ≡ min (self.old.steps.ran + 1) u64.MAX }
        ensures asked { self.new.steps.asked ≡ self.old.steps.asked }
    {
        self.steps.ran = self.steps.ran.saturating_add(1);
    }

    /// What the run kept, whose questions have their answers, and what it cost.
    pub fn ended(self) -> (Pool, Steps)
        ensures next { result.0 ≡ self.entry.next }
        ensures steps { result.1 ≡ self.entry.steps }
        ensures answered { (ask : Question NodeRef → Answer NodeRef) → IsSure ask self.entry → AreAnswered ask result.0 }
        ensures asked { (ask : Question NodeRef → Answer NodeRef) → IsSure ask self.entry → result.1.asked ≤ marked_of (since_of self.entry.spared.now.since.now) self.entry.last.now }
    {
        let Reuse {
            last,
            spared,
            verdicts,
            in_order,
            looks,
            kept,
            next,
            frames,
            steps,
        } = self;
        drop(verdicts);
        drop(in_order);
        drop(kept);
        drop(frames);
        (next, steps)
    }
}

fn verdict_of(holds: bool) -> Verdict
    ensures { result ≡ verdict_of holds }
{
    if holds {
        Verdict::Holds
    } else {
        Verdict::Fails
    }
}

// What the tree of the record at this turn of the last run says, where that is for fewer levels.
fn whole_for(last: &Pool, turn: usize, levels: u64) -> Option<&Rc<Summary>>
    ensures within { IfSome result (λ w. turn < length last.now.records.items) }
    ensures tree { IfSome result (λ w. IfSome (slice_get last.now.trees.items turn) (λ t. t.whole ≡ Some w.now)) }
    ensures room { IfSome result (λ w. suc w.now.value.levels ≤ levels) }
    ensures paired { length last.now.trees.items ≡ length last.now.records.items }
{
    let whole = last.whole_at(turn)?;
    if has_room(whole, levels) {
        Some(whole)
    } else {
        None
    }
}

// The record at this turn of the last run with this, which its tree says, where it is of the call.
fn said_by(
    alloc: Global,
    last: &Pool,
    whole: &Rc<Summary>,
    turn: usize,
    call: &Call,
    levels: u64,
) -> Result<Option<Said>, Memory>
    requires within { turn < length last.now.records.items }
    requires tree { IfSome (slice_get last.now.trees.items turn) (λ t. t.whole ≡ Some whole.now) }
    requires room { suc whole.now.value.levels ≤ levels }
    ensures said { IfOk result (λ o. IfSome o (λ x. (ask : Question NodeRef → Answer NodeRef) → AreTrees (values_of last.now.records.items) last.now.trees.items → TreeHolds ask last.now turn
        → IsSaidAt ask (values_of last.now.records.items) last.now.trees.items turn (call_of call.now) levels x.whole.value x.record.value)) }
{
    let copy = whole.clone()?;
    let suiting = last.suiting(alloc, turn, call, levels)?;
    match suiting {
        None => Ok(None),
        Some(record) => Ok(Some(Said {
            record,
            whole: copy,
        })),
    }
}

// Where it says so, what a tree says is for fewer levels.
fn has_room(whole: &Rc<Summary>, levels: u64) -> bool
    ensures { result ≡ true → suc whole.now.value.levels ≤ levels }
{
    whole.levels < levels
}

// The turn of a record of the last run that was found.
fn turn_of(found: &Option<Found>) -> Option<usize> {
    match found {
        None => None,
        Some(found) => Some((2 * LAST).saturating_sub(found.next) as usize),
    }
}

// What a run kept, in order by their calls.
fn index_of(alloc: Global, pool: &Pool) -> Result<Index, Memory>
    ensures { IfOk result (λ index. keys_in index.records.items ≡ keys_in pool.now.records.items) }
{
    let mut index = Index::new(alloc);
    for turn in 0..pool.count() {
        index.add(pool.record_at(turn).clone()?)?;
    }
    Ok(index)
}
