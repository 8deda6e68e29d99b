// Pieces that stand behind each other.
ghost use Rattle.std.specs.Prelude.{◌≡◌, ◌+◌, ◌<◌, ◌≤◌, ◌++◌, ◌^◌, [], true, suc, length, slice_get, slice_index, IfOk, IfSome, OnOk, Some};
ghost use Rattle.xt_record.specs.Chain.{IsLatest};
ghost use Rattle.xt_record.specs.Listed.{keys_of};
ghost use Rattle.xt_record.specs.Taken.{IsPart};

use crate::block::latest_in;
use crate::entry::Entry;
use crate::key::Key;
use crate::piece::Piece;
use std::alloc::Global;
use std::marker::Model;
use xt_text::Memory;

/// A full piece has so many entries.
pub(crate) const FULL: usize = 64;

// No list is longer.
const MOST: usize = 1 << 62;

/// Pieces that stand behind each other. Contracts see all of their entries in one list.
#[derive(Drop)]
pub(crate) struct Pieces {
    list: Vec<Piece>,
    // The turn of the first entry of each.
    starts: Vec<usize>,
    count: usize,
}

impl Model for Pieces {
    ghost use Rattle.std.specs.Prelude.{List};
    ghost use Rattle.std.specs.Coded.{coded_list};
    ghost use Rattle.xt_record.specs.declared.entry.Entry.{Entry};
    ghost use Rattle.xt_record.specs.contracts.entry.Entry as entry;
    ghost use Rattle.xt_record.specs.Pieced.{flat, IsPieced};

    ghost Value = { List Entry };

    ghost coded = { coded_list entry.the_row.coded };

    ghost view = { λ p. flat p.list.items };

    ghost invariant = { λ p. IsPieced p.list.items p.starts.items p.count };
}

impl Pieces {
    /// None. Takes no memory.
    pub(crate) fn new(alloc: Global) -> Pieces
        ensures { result ≡ [] }
    {
        Pieces {
            list: Vec::new(alloc),
            starts: Vec::new(alloc),
            count: 0,
        }
    }

    /// How many entries there are.
    pub(crate) fn count(&self) -> usize
        ensures count { result ≡ length self.now }
        ensures fits { result ≤ 2 ^ 62 }
    {
        self.count
    }

    /// Adds a piece.
    pub(crate) fn push(&mut self, piece: Piece) -> Result<(), Memory>
        ensures { OnOk result (self.new ≡ self.old ++ piece) }
    {
        let count = piece.count();
        if count > MOST - self.count {
            return Err(Memory);
        }
        // What can fail comes first, so that both go in step.
        self.list.reserve(1)?;
        self.starts.reserve(1)?;
        self.starts.push(self.count).unwrap();
        self.list.push(piece).unwrap();
        self.count = self.count + count;
        Ok(())
    }

    /// The entry at this turn.
    pub(crate) fn entry_at(&self, turn: usize) -> &Entry
        requires { turn < length self.now }
        ensures { slice_get self.now turn ≡ Some result.now }
    {
        let place = place_of(self.starts.as_slice(), turn);
        let piece: &Piece = &self.list[place];
        piece.entry_at(turn - self.starts[place])
    }

    /// What can be shared from this turn on, as `Piece::part` says.
    pub(crate) fn part(
        &self,
        turn: usize,
        most: usize,
        ahead: usize,
    ) -> Result<Option<Piece>, Memory>
        requires { turn < length self.now }
        ensures { IfOk result (λ o. IfSome o (IsPart turn most ahead self.now)) }
    {
        let place = place_of(self.starts.as_slice(), turn);
        let piece: &Piece = &self.list[place];
        piece.part(turn - self.starts[place], most, ahead)
    }

    /// The turn of the latest entry before this turn that has this key. It goes over all behind it.
    pub(crate) fn latest_before(&self, key: Key, turn: usize) -> Option<usize>
        ensures { IsLatest (keys_of self.now) key turn result }
    {
        let mut place = self.list.len();
        while place > 0 {
            place = place - 1;
            let start = self.starts[place];
            let piece: &Piece = &self.list[place];
            if let Some(at) = latest_in(piece.entries(), key, turn.saturating_sub(start)) {
                return Some(start + at);
            }
        }
        None
    }
}

// The place of the piece in which this turn is. Most pieces are full, so it is mostly the one that is looked at first.
fn place_of(starts: &[usize], turn: usize) -> usize
    requires some { 0 < length starts.now }
    requires first { slice_index starts.now 0 ≤ turn }
    ensures within { result < length starts.now }
    ensures from { slice_index starts.now result ≤ turn }
    ensures up_to { suc result < length starts.now → turn < slice_index starts.now (suc result) }
{
    let guess = turn / FULL;
    if is_place(starts, guess, turn) {
        return guess;
    }
    place_among(starts, turn)
}

// Where it says so, this turn is in the piece at this place.
fn is_place(starts: &[usize], place: usize, turn: usize) -> bool
    ensures within { result ≡ true → place < length starts.now }
    ensures from { result ≡ true → slice_index starts.now place ≤ turn }
    ensures up_to { result ≡ true → suc place < length starts.now → turn < slice_index starts.now (suc place) }
{
    if place >= starts.len() || starts[place] > turn {
        return false;
    }
    let next = place + 1;
    if next >= starts.len() {
        return true;
    }
    turn < starts[next]
}

// The place of the piece in which this turn is, by halves.
fn place_among(starts: &[usize], turn: usize) -> usize
    requires some { 0 < length starts.now }
    requires first { slice_index starts.now 0 ≤ turn }
    ensures within { result < length starts.now }
    ensures from { slice_index starts.now result ≤ turn }
    ensures up_to { suc result < length starts.now → turn < slice_index starts.now (suc result) }
{
    let mut place = 0;
    let mut end = starts.len();
    while end - place > 1 {
        let middle = place + (end - place) / 2;
        if starts[middle] <= turn {
            place = middle;
        } else {
            end = middle;
        }
    }
    place
}
