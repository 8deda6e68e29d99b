// What a run keeps.
ghost use Rattle.std.specs.Prelude.{◌≡◌, ℕ, ◌<◌, ◌≤◌, ◌+◌, ◌-◌, ◌^◌, ◌++◌, ◌∷◌, [], suc, length, get_or, slice_get, IfOk, IfSome, IfNone, OnOk, Some};
ghost use Rattle.spec_reuse.specs.Serving.{IsOf};
ghost use Rattle.xt_engine.specs.View.{call_of};
ghost use Rattle.xt_record.specs.View.{kept_in, DoesNotSuit};
ghost use Rattle.xt_record.specs.Chain.{key_of, keys_in, IsLatest};
ghost use Rattle.xt_record.specs.Listed.{records_in, trees_in};
ghost use Rattle.xt_record.specs.Taken.{IsPartOf};

use crate::Record;
use crate::block::latest_in;
use crate::entry::Entry;
use crate::key::key_of;
use crate::matching::is_of;
use crate::piece::Piece;
use crate::pieces::{FULL, Pieces};
use crate::tree::{Summary, Tree};
use std::alloc::Global;
use std::marker::Model;
use std::mem;
use std::rc::Rc;
use xt_engine::Call;
use xt_text::Memory;

/// The records that a run keeps, each behind those of what its call entered. What is taken over from another run is shared
/// with it, block by block.
#[derive(Drop)]
pub struct Pool {
    pieces: Pieces,
    // Those behind all pieces.
    loose: Vec<Entry>,
}

impl Model for Pool {
    ghost use Rattle.std.specs.Prelude.{◌≤◌, ◌++◌, length};
    ghost use Rattle.std.specs.Coded.{codes};
    ghost use Rattle.xt_record.specs.Listed.{Listed, listed};
    ghost use Rattle.xt_record.specs.contracts.record.Record as record_row;
    ghost use Rattle.xt_record.specs.contracts.tree.Tree as tree_row;

    ghost Value = { Listed };

    ghost coded = { Prim.hlevel (codes, record_row.the_row.coded, tree_row.the_row.coded) };

    ghost view = { λ p. listed (p.pieces ++ p.loose.items) };

    ghost invariant = { λ p. length p.loose.items ≤ 64 };
}

impl Pool {
    /// No records. Takes no memory.
    pub fn new(alloc: Global) -> Pool
        ensures records { result.records.items ≡ [] }
        ensures trees { result.trees.items ≡ [] }
    {
        Pool {
            pieces: Pieces::new(alloc),
            loose: Vec::new(alloc),
        }
    }

    /// How many records there are.
    pub fn count(&self) -> usize
        ensures records { result ≡ length self.now.records.items }
        ensures trees { result ≡ length self.now.trees.items }
        ensures few { result ≤ 2 ^ 62 + 64 }
    {
        self.pieces.count() + self.loose.len()
    }

    /// Adds a record with its tree.
    pub(crate) fn add(&mut self, alloc: Global, kept: Rc<Record>, tree: Tree) -> Result<(), Memory>
        ensures records { OnOk result (self.new.records.items ≡ self.old.records.items ++ kept ∷ []) }
        ensures trees { OnOk result (self.new.trees.items ≡ self.old.trees.items ++ tree ∷ []) }
    {
        let key = key_of(&kept.call);
        let entry = Entry {
            record: kept,
            key,
            tree,
        };
        self.push(alloc, entry)
    }

    /// The same, as it is kept.
    pub(crate) fn push(&mut self, alloc: Global, entry: Entry) -> Result<(), Memory>
        ensures records { OnOk result (self.new.records.items ≡ self.old.records.items ++ entry.record ∷ []) }
        ensures trees { OnOk result (self.new.trees.items ≡ self.old.trees.items ++ entry.tree ∷ []) }
        ensures paired { OnOk result (length self.old.trees.items ≡ length self.old.records.items) }
    {
        make_room(alloc, &mut self.pieces, &mut self.loose)?;
        self.loose.push(entry)?;
        Ok(())
    }

    /// Adds all of a piece.
    pub(crate) fn share(&mut self, alloc: Global, piece: Piece) -> Result<(), Memory>
        ensures records { OnOk result (self.new.records.items ≡ self.old.records.items ++ records_in piece) }
        ensures trees { OnOk result (self.new.trees.items ≡ self.old.trees.items ++ trees_in piece) }
        ensures paired { OnOk result (length self.old.trees.items ≡ length self.old.records.items) }
    {
        seal(alloc, &mut self.pieces, &mut self.loose)?;
        self.pieces.push(piece)
    }

    /// What can be shared from this turn on, up to the end, of a tree whose first record is at the first turn.
    pub(crate) fn part(
        &self,
        first: usize,
        turn: usize,
        end: usize,
    ) -> Result<Option<Piece>, Memory>
        requires first { first ≤ turn }
        requires turn { turn < end }
        ensures part { IfOk result (λ o. IfSome o (IsPartOf first turn end self.now)) }
        ensures paired { length self.now.trees.items ≡ length self.now.records.items }
    {
        if turn >= self.pieces.count() {
            return Ok(None);
        }
        self.pieces.part(turn, end - turn, turn - first)
    }

    /// The turn of the latest record before this turn that has the key of this call. It goes over all behind it.
    pub(crate) fn latest_before(&self, call: &Call, turn: usize) -> Option<usize>
        ensures below { IfSome result (λ t. t < turn) }
        ensures latest { ∥ IsLatest (keys_in self.now.records.items) (key_of (call_of call.now)) turn result ∥₁ }
    {
        let key = key_of(call);
        let count = self.pieces.count();
        if let Some(at) = latest_in(self.loose.as_slice(), key, turn.saturating_sub(count)) {
            return Some(count + at);
        }
        self.pieces.latest_before(key, turn)
    }

    /// Whether the record at this turn has the key of this call.
    pub(crate) fn is_at(&self, turn: usize, call: &Call) -> bool {
        if turn >= self.count() {
            return false;
        }
        self.entry_at(turn).key == key_of(call)
    }

    /// What the tree of the record at this turn says, where it says all by itself.
    pub(crate) fn whole_at(&self, turn: usize) -> Option<&Rc<Summary>>
        ensures within { IfSome result (λ w. turn < length self.now.records.items) }
        ensures tree { IfSome result (λ w. IfSome (slice_get self.now.trees.items turn) (λ t. t.whole ≡ Some w.now)) }
        ensures paired { length self.now.trees.items ≡ length self.now.records.items }
    {
        if turn >= self.count() {
            return None;
        }
        self.entry_at(turn).tree.whole.as_ref()
    }

    /// The record at this turn, where it is of the call and there are the levels for it.
    pub(crate) fn suiting(
        &self,
        alloc: Global,
        turn: usize,
        call: &Call,
        below: u64,
    ) -> Result<Option<Rc<Record>>, Memory>
        ensures of_call { IfOk result (λ o. IfSome o (λ r. IsOf (call_of call.now) (kept_in r.value))) }
        ensures levels { IfOk result (λ o. IfSome o (λ r. r.value.ran.height ≤ below)) }
        ensures within { IfOk result (λ o. IfSome o (λ r. turn < length self.now.records.items)) }
        ensures at { IfOk result (λ o. IfSome o (λ r. r.value ≡ (get_or self.now.records.items turn r).value)) }
        ensures paired { length self.now.trees.items ≡ length self.now.records.items }
        ensures passes { IfOk result (λ o. IfNone o (DoesNotSuit (call_of call.now) below self.now.records.items turn)) }
    {
        if turn >= self.count() {
            return Ok(None);
        }
        let record = self.record_at(turn);
        if record.ran.height > below {
            return Ok(None);
        }
        if !is_of(alloc, record, call)? {
            return Ok(None);
        }
        Ok(Some(record.clone()?))
    }

    /// The record at this turn.
    pub fn record_at(&self, turn: usize) -> &Rc<Record>
        requires { turn < length self.now.records.items }
        ensures { slice_get self.now.records.items turn ≡ Some result.now }
    {
        &self.entry_at(turn).record
    }

    /// Its tree.
    pub(crate) fn tree_at(&self, turn: usize) -> &Tree
        requires { turn < length self.now.records.items }
        ensures { slice_get self.now.trees.items turn ≡ Some result.now }
    {
        &self.entry_at(turn).tree
    }

    /// All that is kept of it.
    pub(crate) fn entry_at(&self, turn: usize) -> &Entry
        requires { turn < length self.now.records.items }
        ensures record { slice_get self.now.records.items turn ≡ Some result.now.record }
        ensures tree { slice_get self.now.trees.items turn ≡ Some result.now.tree }
        ensures room { turn < 2 ^ 64 - 1 }
    {
        let count = self.pieces.count();
        if turn < count {
            return self.pieces.entry_at(turn);
        }
        &self.loose[turn - count]
    }

    /// The turns of what was entered by the call of the record at this turn, the first at the end.
    pub(crate) fn turns_below(&self, alloc: Global, turn: usize) -> Result<Vec<usize>, Memory> {
        if turn >= self.count() {
            return Ok(Vec::new(alloc));
        }
        self.turns_between(alloc, self.first_of(turn), turn)
    }

    /// The turns of what no other entered, the first at the end.
    pub(crate) fn turns_of_all(&self, alloc: Global) -> Result<Vec<usize>, Memory> {
        self.turns_between(alloc, 0, self.count())
    }

    // Those of the trees that stand side by side from the first turn up to the end.
    fn turns_between(&self, alloc: Global, first: usize, end: usize) -> Result<Vec<usize>, Memory> {
        let mut turns = Vec::new(alloc);
        let mut end = end.min(self.count());
        while end > first {
            let turn = end - 1;
            turns.push(turn)?;
            end = self.first_of(turn);
        }
        Ok(turns)
    }

    /// The turn of the first record of the tree at this turn.
    pub(crate) fn first_of(&self, turn: usize) -> usize
        requires { turn < length self.now.records.items }
        ensures within { result ≤ turn }
        ensures first { IfSome (slice_get self.now.trees.items turn) (λ t. 0 < t.size → result ≡ suc turn - t.size) }
        ensures room { turn < 2 ^ 64 - 1 }
    {
        let size = self.entry_at(turn).tree.size;
        (turn + 1).saturating_sub(size).min(turn)
    }
}

// Puts those that are loose into a piece of their own, where they are as many as a full one has.
fn make_room(alloc: Global, pieces: &mut Pieces, loose: &mut Vec<Entry>) -> Result<(), Memory>
    ensures same { OnOk result (pieces.new ++ loose.new.items ≡ pieces.old ++ loose.old.items) }
    ensures room { OnOk result (length loose.new.items < 64) }
    ensures fewer { length loose.new.items ≤ length loose.old.items }
{
    if loose.len() < FULL {
        return Ok(());
    }
    seal(alloc, pieces, loose)
}

// Puts those that are loose into a piece of their own.
fn seal(alloc: Global, pieces: &mut Pieces, loose: &mut Vec<Entry>) -> Result<(), Memory>
    ensures pieces { OnOk result (pieces.new ≡ pieces.old ++ loose.old.items) }
    ensures loose { OnOk result (loose.new.items ≡ []) }
    ensures fewer { length loose.new.items ≤ length loose.old.items }
{
    if loose.is_empty() {
        return Ok(());
    }
    let mut entries = mem::replace(loose, Vec::new(alloc));
    // They stay, so they hold no room for more.
    entries.shrink_to_fit();
    let piece = Piece::of(alloc, entries)?;
    pieces.push(piece)
}
