// Entries that stand side by side.
ghost use Rattle.std.specs.Prelude.{◌≡◌, ◌+◌, ◌<◌, ◌≤◌, true, suc, length, IfSome, Some};
ghost use Rattle.std.specs.Bool.{Decides};
ghost use Rattle.std.specs.declared.rc.Rc.{Rc};
ghost use Rattle.std.specs.declared.alloc.Global.{Global};
ghost use Rattle.xt_record.specs.Chain.{IsLatest};
ghost use Rattle.xt_record.specs.Listed.{keys_of};
ghost use Rattle.xt_record.specs.Taken.{AllWithin};
ghost use Rattle.xt_record.specs.declared.tree.Summary.{Summary};

use crate::entry::Entry;
use crate::key::Key;
use crate::tree::Tree;

/// Some that stand side by side. The runs that took them over share them.
#[derive(Drop)]
pub(crate) struct Block {
    pub(crate) entries: Vec<Entry>,
}

/// The turn of the latest of these before this turn that has this key. It goes over all behind it.
pub(crate) fn latest_in(entries: &[Entry], key: Key, turn: usize) -> Option<usize>
    ensures within { IfSome result (λ t. t < length entries.now) }
    ensures latest { IsLatest (keys_of entries.now) key turn result }
{
    let mut end = turn.min(entries.len());
    while end > 0 {
        let at = end - 1;
        if has_key(&entries[at], key) {
            return Some(at);
        }
        end = at;
    }
    None
}

// Whether it is found by this key.
fn has_key(entry: &Entry, key: Key) -> bool
    ensures { Decides result (entry.now.key ≡ key) }
{
    entry.key == key
}

/// Where it says so, no tree of these that says something reaches further to the front than over those of these before it
/// and so many before them.
pub(crate) fn all_within(entries: &[Entry], ahead: usize) -> bool
    ensures { result ≡ true → AllWithin ahead entries.now }
{
    for (index, entry) in entries.iter().enumerate() {
        if !is_within(&entry.tree, ahead, index) {
            return false;
        }
    }
    true
}

// Where it says so, a tree that says something reaches over no more records before its own than these.
fn is_within(tree: &Tree, ahead: usize, more: usize) -> bool
    ensures { result ≡ true → (w : Rc Summary Global) → tree.now.whole ≡ Some w → tree.now.size ≤ suc (ahead + more) }
{
    if tree.whole.is_none() {
        return true;
    }
    tree.size.saturating_sub(more).saturating_sub(1) <= ahead
}
