// Room for the keys of nodes that come between others.
ghost use Rattle.std.specs.Prelude.{◌≡◌, ◌+◌, ◌*◌, ◌<◌, ◌≤◌};
ghost use Rattle.std.specs.Option.{option_map};
ghost use Rattle.spec_document.specs.Forest.{size};
ghost use Rattle.spec_document.specs.Numbering.{number_limit};
ghost use Rattle.spec_edit.specs.Splice.{first_siblings, later_siblings};
ghost use Rattle.xt_tree.specs.Keys.{key_by, key_limit, last_key};
ghost use Rattle.xt_tree.specs.Room.{between, first_key, room_of};
ghost use Rattle.xt_tree.specs.View.{forest_of, tree_of};

use crate::find::{sibling, sibling_at};
use crate::keys::key_of;
use crate::table::Table;
use crate::{Node, NodeId};
use std::rc::Rc;

// The distance of new keys, where there is room for it.
const STEP: u128 = 1 << 40;

/// Where in a room new keys stand.
#[derive(Clone, Copy)]
pub enum Side {
    Low,
    Middle,
    High,
}

/// The last key before a place and the first behind it. More nodes are expected on the other side of those that
/// come there.
#[derive(Clone, Copy)]
pub struct Room {
    pub low: u128,
    pub high: u128,
    pub side: Side,
}

/// Keys in equal steps: the first is one step above the start.
#[derive(Clone, Copy)]
pub struct Spread {
    pub start: u128,
    pub step: u128,
}

/// How many nodes these are, with those below them.
pub fn count(siblings: &[Rc<Node>]) -> u64
    requires { size (forest_of siblings.now) < number_limit }
    ensures { result ≡ size (forest_of siblings.now) }
{
    let mut total = 0;
    for sibling in siblings {
        total += 1 + count(sibling.children.as_slice());
    }
    total
}

// The last key at or below a node.
fn last_in(keys: &Table, node: &Node) -> u128
    ensures { result ≡ last_key (key_by keys.now) (key_by keys.now (tree_of node.now).number) (tree_of node.now).children }
{
    let mut current = node;
    'down: loop {
        let siblings = current.children.as_slice();
        if siblings.is_empty() {
            return key_of(keys, current.id);
        }
        current = sibling(siblings, siblings.len() - 1);
    }
}

// The last key of the first siblings, this many.
fn last_before(keys: &Table, siblings: &[Rc<Node>], count: usize, low: u128) -> u128
    ensures { result ≡ last_key (key_by keys.now) low (first_siblings count (forest_of siblings.now)) }
{
    let count = count.min(siblings.len());
    if count == 0 {
        return low;
    }
    last_in(keys, sibling(siblings, count - 1))
}

// The key of the sibling at this index, from 0.
fn first_from(keys: &Table, siblings: &[Rc<Node>], index: usize, high: u128) -> u128
    ensures { result ≡ first_key (key_by keys.now) high (later_siblings index (forest_of siblings.now)) }
{
    if index >= siblings.len() {
        return high;
    }
    key_of(keys, sibling(siblings, index).id)
}

// New nodes stand next to the newer neighbour, which has the higher number, so that as many as possible can follow
// on the other side.
fn side_at(siblings: &[Rc<Node>], from: usize, to: usize) -> Side {
    if to >= siblings.len() {
        return if from == 0 { Side::Middle } else { Side::Low };
    }
    if from == 0 || from > to {
        return Side::High;
    }
    if is_newer(sibling(siblings, from - 1).id, sibling(siblings, to).id) {
        return Side::Low;
    }
    Side::High
}

fn is_newer(id: NodeId, other: NodeId) -> bool {
    id.number > other.number
}

/// The room at the place of the children from one index up to another of the node that these positions lead to. None
/// exactly where they lead to none.
pub fn room_at(
    keys: &Table,
    siblings: &[Rc<Node>],
    path: &[u64],
    from: usize,
    to: usize,
) -> Option<Room>
    ensures { option_map (λ room. between room.low room.high) result ≡ room_of (key_by keys.now) from to path.now 0 (forest_of siblings.now) key_limit }
{
    let mut low = 0;
    let mut high = u128::MAX;
    let mut current = siblings;
    'down: for position in path {
        match sibling_at(current, *position) {
            None => return None,
            Some(node) => {
                high = first_from(keys, current, *position as usize, high);
                low = key_of(keys, node.id);
                current = node.children.as_slice();
            }
        }
    }
    Some(Room {
        low: last_before(keys, current, from, low),
        high: first_from(keys, current, to, high),
        side: side_at(current, from, to),
    })
}

/// The keys of so many nodes in a room. The step is 0 where there is no room.
pub fn spread_in(room: Room, count: u64) -> Spread
    requires count { count < number_limit }
    requires some { room.low < room.high }
    ensures { 0 < result.step → (room.low ≤ result.start) × (result.start + result.step * count < room.high) }
{
    let width = room.high - room.low;
    let parts = count as u128 + 1;
    let step = (width / parts).min(STEP);
    let start = room.low + shift(room.side, width - step * parts);
    Spread { start, step }
}

fn shift(side: Side, spare: u128) -> u128
    ensures { result ≤ spare }
{
    match side {
        Side::Low => 0,
        Side::Middle => spare / 2,
        Side::High => spare,
    }
}
