// Keys of nodes, which rise in document order.
ghost use Rattle.std.specs.Prelude.{ℕ, ◌≡◌, ◌+◌, ◌*◌, ◌<◌, false, IfOk, OnOk};
ghost use Rattle.spec_document.specs.Forest.{size};
ghost use Rattle.xt_tree.specs.Keys.{AreApart, Rises, has_number, key_by, key_limit, last_key};
ghost use Rattle.spec_document.specs.Numbering.{number_limit};
ghost use Rattle.xt_tree.specs.Room.{AreKeyed};
ghost use Rattle.xt_tree.specs.View.{forest_of};

use crate::table::Table;
use crate::{Node, NodeId};
use std::alloc::Global;
use std::rc::Rc;
use xt_text::Memory;

/// The distance of the keys of two nodes that follow one another in a document as it is read.
pub const GAP: u128 = 1 << 63;

/// The key of a number.
pub fn key_of(keys: &Table, id: NodeId) -> u128
    ensures { result ≡ key_by keys.now id.number }
{
    match keys.get(id.number) {
        Some(key) => key,
        None => (id.number as u128 + 1) * GAP,
    }
}

/// Gives these siblings and all below them keys that rise from the last one in equal steps. Other nodes
/// keep theirs.
pub fn give_keys(
    alloc: Global,
    keys: &mut Table,
    siblings: &[Rc<Node>],
    last: &mut u128,
    step: u128,
) -> Result<(), Memory>
    requires room { last.old + step * size (forest_of siblings.now) < key_limit }
    requires step { 0 < step }
    requires apart { AreApart (forest_of siblings.now) }
    ensures last { OnOk result (last.new ≡ last.old + step * size (forest_of siblings.now)) }
    ensures rises { OnOk result (Rises (key_by keys.new) last.old (forest_of siblings.now)) }
    ensures end { OnOk result (last_key (key_by keys.new) last.old (forest_of siblings.now) ≡ last.new) }
    ensures others { OnOk result ((number : ℕ) → has_number number (forest_of siblings.now) ≡ false → key_by keys.new number ≡ key_by keys.old number) }
{
    for sibling in siblings {
        let key = *last + step;
        let number = sibling.id.number;
        *last = key;
        *keys = keys.with(alloc, number, key)?;
        give_keys(alloc, keys, sibling.children.as_slice(), last, step)?;
    }
    Ok(())
}

/// New keys for the siblings below a root and all below them.
pub fn new_keys(alloc: Global, siblings: &[Rc<Node>]) -> Result<Table, Memory>
    requires apart { AreApart (forest_of siblings.now) }
    requires few { size (forest_of siblings.now) < number_limit }
    ensures { IfOk result (λ keys. AreKeyed (key_by keys) (forest_of siblings.now)) }
{
    let mut keys = Table::new();
    let mut last = 0;
    give_keys(alloc, &mut keys, siblings, &mut last, GAP)?;
    Ok(keys)
}
