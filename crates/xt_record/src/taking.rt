// How a tree is taken over.
ghost use Rattle.std.specs.Prelude.{◌≡◌, ◌<◌, ◌≤◌, ◌-◌, ◌++◌, ◌∷◌, [], List, suc, length, slice_get, IfOk, IfSome, OnOk, Some, None};
ghost use Rattle.std.specs.declared.rc.Rc.{Rc};
ghost use Rattle.std.specs.declared.alloc.Global.{Global};
ghost use Rattle.xt_record.specs.declared.record.Record.{Record};
ghost use Rattle.xt_record.specs.declared.tree.Summary.{Summary};
ghost use Rattle.xt_record.specs.Grown.{part_of, values_of, AreTrees};
ghost use Rattle.xt_record.specs.Taken.{IsShared, IsTaken};

use crate::Pool;
use crate::entry::Entry;
use crate::tree::{Summary, Tree};
use std::alloc::Global;
use std::rc::Rc;
use xt_text::Memory;

impl Pool {
    /// Adds the tree of the record at this turn of the others.
    pub(crate) fn take_over(
        &mut self,
        alloc: Global,
        others: &Pool,
        turn: usize,
    ) -> Result<(), Memory>
        requires { turn < length others.now.records.items }
        ensures records { OnOk result (IfSome (slice_get others.now.trees.items turn) (λ t. 0 < t.size → values_of self.new.records.items ≡ values_of self.old.records.items ++ part_of (suc turn - t.size) (suc turn - (suc turn - t.size)) (values_of others.now.records.items))) }
        ensures trees { OnOk result (AreTrees (values_of others.now.records.items) others.now.trees.items → AreTrees (values_of self.old.records.items) self.old.trees.items → AreTrees (values_of self.new.records.items) self.new.trees.items) }
    {
        let first = others.first_of(turn);
        let end = turn + 1;
        let mut at = first;
        while at < end {
            at = self.take_some(alloc, others, first, at, end)?;
        }
        Ok(())
    }

    // Adds some of the records of the others from this turn on, but none from the end on. Those from the first on stand before
    // it already. The next turn.
    fn take_some(
        &mut self,
        alloc: Global,
        others: &Pool,
        first: usize,
        turn: usize,
        end: usize,
    ) -> Result<usize, Memory>
        requires first { first ≤ turn }
        requires turn { turn < end }
        requires within { end ≤ length others.now.records.items }
        ensures next { IfOk result (λ n. turn < n) }
        ensures end { IfOk result (λ n. n ≤ end) }
        ensures records { IfOk result (λ n. values_of self.new.records.items ≡ values_of self.old.records.items ++ part_of turn (n - turn) (values_of others.now.records.items)) }
        ensures trees { IfOk result (λ n. (old : List Record) → values_of self.old.records.items ≡ old ++ part_of first (turn - first) (values_of others.now.records.items) → AreTrees (values_of others.now.records.items) others.now.trees.items → AreTrees (values_of self.old.records.items) self.old.trees.items → AreTrees (values_of self.new.records.items) self.new.trees.items) }
    {
        match others.part(first, turn, end)? {
            None => {
                self.take_one(alloc, others, first, turn)?;
                Ok(turn + 1)
            }
            Some(piece) => {
                let next = turn + piece.count();
                self.share(alloc, piece)?;
                Ok(next)
            }
        }
    }

    // Adds the record at this turn of the others, of which those from the first on stand before it already.
    fn take_one(
        &mut self,
        alloc: Global,
        others: &Pool,
        first: usize,
        turn: usize,
    ) -> Result<(), Memory>
        requires first { first ≤ turn }
        requires within { turn < length others.now.records.items }
        ensures records { OnOk result (IfSome (slice_get others.now.records.items turn) (λ r. values_of self.new.records.items ≡ values_of self.old.records.items ++ r.value ∷ [])) }
        ensures trees { OnOk result (IfSome (slice_get others.now.trees.items turn) (λ t. IsTaken first turn t self.old.trees.items self.new.trees.items)) }
        ensures paired { OnOk result (length self.old.trees.items ≡ length self.old.records.items) }
    {
        let entry = copied(others.entry_at(turn), turn - first)?;
        self.push(alloc, entry)
    }
}

// The same record, with what its tree says where it has no more than so many before it.
fn copied(entry: &Entry, ahead: usize) -> Result<Entry, Memory>
    ensures record { IfOk result (λ e. e.record.value ≡ entry.now.record.value) }
    ensures size { IfOk result (λ e. e.tree.size ≡ entry.now.tree.size) }
    ensures shared { IfOk result (λ e. IsShared entry.now.tree.whole e.tree.whole) }
    ensures inside { IfOk result (λ e. (w : Rc Summary Global) → e.tree.whole ≡ Some w → e.tree.size ≤ suc ahead) }
{
    let whole = whole_within(&entry.tree, ahead)?;
    let record = entry.record.clone()?;
    Ok(Entry {
        record,
        key: entry.key,
        tree: Tree {
            size: entry.tree.size,
            whole,
        },
    })
}

// What a tree says, where it has no more than so many records before its own.
fn whole_within(tree: &Tree, ahead: usize) -> Result<Option<Rc<Summary>>, Memory>
    ensures shared { IfOk result (IsShared tree.now.whole) }
    ensures inside { IfOk result (λ o. (w : Rc Summary Global) → o ≡ Some w → tree.now.size ≤ suc ahead) }
{
    if tree.size.saturating_sub(1) > ahead {
        return Ok(None);
    }
    shared(&tree.whole)
}

fn shared(whole: &Option<Rc<Summary>>) -> Result<Option<Rc<Summary>>, Memory>
    ensures { IfOk result (λ same. IsShared whole.now same) }
{
    match whole {
        None => Ok(None),
        Some(whole) => Ok(Some(whole.clone()?)),
    }
}
