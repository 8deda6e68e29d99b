// Some entries of a block.
ghost use Rattle.std.specs.Prelude.{◌≡◌, ◌<◌, length, slice_get, IfOk, IfSome, Some};
ghost use Rattle.xt_record.specs.Taken.{IsPart};

use crate::block::{Block, all_within};
use crate::entry::Entry;
use std::alloc::Global;
use std::marker::Model;
use std::rc::Rc;
use xt_text::Memory;

// Fewer than this are not worth a piece of their own.
const FEW: usize = 8;

/// Some entries of a block that stand side by side. Contracts see them alone.
#[derive(Drop)]
pub(crate) struct Piece {
    block: Rc<Block>,
    first: usize,
    count: usize,
}

impl Model for Piece {
    ghost use Rattle.std.specs.Prelude.{◌+◌, ◌≤◌, List, take, drop, length};
    ghost use Rattle.std.specs.Coded.{coded_list};
    ghost use Rattle.xt_record.specs.declared.entry.Entry.{Entry};
    ghost use Rattle.xt_record.specs.contracts.entry.Entry as entry;

    ghost Value = { List Entry };

    ghost coded = { coded_list entry.the_row.coded };

    ghost view = { λ p. take p.count (drop p.first p.block.value.entries.items) };

    ghost invariant = { λ p. p.first + p.count ≤ length p.block.value.entries.items };
}

impl Piece {
    /// All of these.
    pub(crate) fn of(alloc: Global, entries: Vec<Entry>) -> Result<Piece, Memory>
        ensures { IfOk result (λ p. p ≡ entries.items) }
    {
        let count = entries.len();
        let block = Rc::new(alloc, Block { entries })?;
        Ok(Piece {
            block,
            first: 0,
            count,
        })
    }

    /// How many there are.
    pub(crate) fn count(&self) -> usize
        ensures { result ≡ length self.now }
    {
        self.count
    }

    /// The entries.
    pub(crate) fn entries(&self) -> &[Entry]
        ensures { result.now ≡ self.now }
    {
        &self.block.entries[self.first..self.first + self.count]
    }

    /// The entry at this place.
    pub(crate) fn entry_at(&self, place: usize) -> &Entry
        requires { place < length self.now }
        ensures { slice_get self.now place ≡ Some result.now }
    {
        &self.block.entries[self.first + place]
    }

    /// A piece of those from this one on, of no more than so many, where it is worth one. No tree in it reaches further to the
    /// front than over so many that stand before it.
    pub(crate) fn part(
        &self,
        from: usize,
        most: usize,
        ahead: usize,
    ) -> Result<Option<Piece>, Memory>
        requires { from < length self.now }
        ensures { IfOk result (λ o. IfSome o (IsPart from most ahead self.now)) }
    {
        let rest = &self.entries()[from..];
        let count = rest.len().min(most);
        if count < FEW || !all_within(&rest[..count], ahead) {
            return Ok(None);
        }
        Ok(Some(Piece {
            block: self.block.clone()?,
            first: self.first + from,
            count,
        }))
    }
}
