// Records, to be found by their calls.
ghost use Rattle.std.specs.Prelude.{◌≡◌, ◌<◌, ◌≤◌, get_or, IfOk, IfNone, ◌++◌, ◌∷◌, [], true, length, slice_get, slice_index_or, IfSome, OnOk, Some};
ghost use Rattle.indexmap.specs.IndexMap.{get};
ghost use Rattle.spec_reuse.specs.Serving.{IsOf};
ghost use Rattle.xt_engine.specs.View.{call_of};
ghost use Rattle.xt_record.specs.View.{kept_in, DoesNotSuit};
ghost use Rattle.xt_record.specs.Chain.{earlier, key_of, keys_in, same_key, IsChained, IsLatest};

use crate::Record;
use crate::key::{Key, key_of};
use crate::matching::is_of;
use indexmap::IndexMap;
use std::alloc::Global;
use std::rc::Rc;
use xt_engine::Call;
use xt_text::Memory;

/// Records, to be found by their units and nodes.
#[derive(Drop)]
pub struct Index {
    // In the order in which they were kept.
    records: Vec<Rc<Record>>,
    // The turn of the latest of each key, and of each record that of the one before it with the same key; its own where it
    // is the first. A key has no list of its own, which would be memory taken and given back for nearly each record.
    latest: IndexMap<Key, usize>,
    before: Vec<usize>,
    ghost paired: { length before.items ≡ length records.items },
    ghost chained: { ∥ IsChained (keys_in records.items) (get same_key latest) before.items ∥₁ },
}

impl Index {
    /// No records. Takes no memory.
    pub(crate) fn new(alloc: Global) -> Index
        ensures { result.records.items ≡ [] }
    {
        Index {
            records: Vec::new(alloc),
            latest: IndexMap::new(alloc),
            before: Vec::new(alloc),
        }
    }

    /// The records, in the order in which they were kept.
    pub(crate) fn records(&self) -> &[Rc<Record>]
        ensures { result.now ≡ self.now.records.items }
    {
        self.records.as_slice()
    }

    /// Adds a record.
    pub(crate) fn add(&mut self, kept: Rc<Record>) -> Result<(), Memory>
        ensures { OnOk result (self.new.records.items ≡ self.old.records.items ++ kept ∷ []) }
    {
        // What can fail comes first, so that all three go in step.
        self.records.reserve(1)?;
        self.before.reserve(1)?;
        let key = key_of(&kept.call);
        let turn = self.records.len();
        let before = self.latest.insert(key, turn)?;
        self.before.push(before.unwrap_or(turn)).unwrap();
        self.records.push(kept).unwrap();
        Ok(())
    }

    /// The turn of the latest record before this turn that has the key of this call.
    pub(crate) fn latest_before(&self, call: &Call, turn: usize) -> Option<usize>
        ensures below { IfSome result (λ t. t < turn) }
        ensures latest { ∥ IsLatest (keys_in self.now.records.items) (key_of (call_of call.now)) turn result ∥₁ }
    {
        if turn == 0 {
            return None;
        }
        let key = key_of(call);
        if self.has_key(turn, key) {
            return self.earlier(turn);
        }
        self.latest_below(key, turn)
    }

    // Where it says so, the record at this turn has this key.
    fn has_key(&self, turn: usize, key: Key) -> bool
        ensures { result ≡ true → slice_get (keys_in self.now.records.items) turn ≡ Some key }
    {
        if turn >= self.records.len() {
            return false;
        }
        let record = &self.records[turn];
        key_of(&record.call) == key
    }

    // The turn of the latest record before that at this turn which has the same key.
    fn earlier(&self, turn: usize) -> Option<usize>
        requires { turn < length self.now.records.items }
        ensures below { IfSome result (λ t. t < turn) }
        ensures turn { result ≡ earlier turn (slice_index_or self.now.before.items turn turn) }
    {
        let before = self.before[turn];
        if before < turn { Some(before) } else { None }
    }

    // The turn of the latest record before this turn that has this key, where the one at this turn has another or there is
    // none. The latest of all is mostly before it.
    fn latest_below(&self, key: Key, turn: usize) -> Option<usize>
        ensures below { IfSome result (λ t. t < turn) }
        ensures latest { ∥ IsLatest (keys_in self.now.records.items) key turn result ∥₁ }
    {
        let Some(mut latest) = self.latest.get(&key).copied() else {
            return None;
        };
        while latest >= turn {
            match self.earlier(latest) {
                None => return None,
                Some(before) => latest = before,
            }
        }
        Some(latest)
    }

    /// The record at this turn, where it is of the call and there are the levels for it.
    pub(crate) fn suiting(
        &self,
        alloc: Global,
        turn: usize,
        call: &Call,
        below: u64,
    ) -> Result<Option<Rc<Record>>, Memory>
        ensures of_call { IfOk result (λ o. IfSome o (λ r. IsOf (call_of call.now) (kept_in r.value))) }
        ensures levels { IfOk result (λ o. IfSome o (λ r. r.value.ran.height ≤ below)) }
        ensures within { IfOk result (λ o. IfSome o (λ r. turn < length self.now.records.items)) }
        ensures at { IfOk result (λ o. IfSome o (λ r. r.value ≡ (get_or self.now.records.items turn r).value)) }
        ensures passes { IfOk result (λ o. IfNone o (DoesNotSuit (call_of call.now) below self.now.records.items turn)) }
    {
        if turn >= self.records.len() {
            return Ok(None);
        }
        let record = &self.records[turn];
        if record.ran.height > below {
            return Ok(None);
        }
        if !is_of(alloc, record, call)? {
            return Ok(None);
        }
        Ok(Some(record.clone()?))
    }
}
