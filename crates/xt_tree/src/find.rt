// Search among siblings and what is below them.
ghost use Rattle.std.specs.Prelude.{ℕ, ◌≡◌, ◌-◌, ◌<◌, ◌≤◌, ◌++◌, length, slice_index, slice_index_or, Some, None, IfOk, OnOk, MatchOption, false, if◌then◌else◌};
ghost use Rattle.std.specs.Option.{option_map};
ghost use Rattle.std.specs.declared.rc.Rc.{Rc};
ghost use Rattle.std.specs.declared.alloc.Global.{Global};
ghost use Rattle.spec_document.specs.Forest.{texts_in, text_of};
ghost use Rattle.spec_document.specs.Place.{string_value_by};
ghost use Rattle.xt_tree.specs.declared.node.Node.{Node};
ghost use Rattle.xt_tree.specs.Keys.{Rises, key_by, keys_of, has_number};
ghost use Rattle.xt_tree.specs.Step.{IsStep};
ghost use Rattle.xt_tree.specs.View.{forest_of, tree_of, content_of, first_tree, way_to, tree_at};

use crate::keys::{GAP, key_of};
use crate::table::Table;
use crate::{Content, Node, NodeId};
use std::alloc::Global;
use std::rc::Rc;
use xt_text::{Memory, Path, Text};

// A position among siblings, from 0: where their keys rise, how many have one that is no higher than this.
fn reached(keys: &Table, siblings: &[Rc<Node>], key: u128) -> usize
    ensures bound { result ≤ length siblings.now }
    ensures before { 0 < result → slice_index (keys_of (key_by keys.now) siblings.now) (result - 1) ≤ key }
    ensures behind { result < length siblings.now → key < slice_index (keys_of (key_by keys.now) siblings.now) result }
{
    let mut low = 0;
    let mut high = siblings.len();
    let mut near = guessed(siblings, key);
    let mut stride: usize = 0;
    let mut is_below = false;
    let mut is_above = false;
    while low < high {
        let middle = tried(low, high, near, is_below && is_above);
        let further = stride;
        stride = stride.saturating_mul(2).saturating_add(1);
        if key_of(keys, siblings[middle].id) <= key {
            low = middle + 1;
            near = low.saturating_add(further);
            is_below = true;
        } else {
            high = middle;
            near = middle.saturating_sub(1).saturating_sub(further);
            is_above = true;
        }
    }
    low
}

// The index that is tried next of those from the first on and below the second: that which is guessed, or the nearest one
// to it, until one was found too low and one too high; and then the one in the middle. The guesses go from the first one on
// by strides that double, so that a guess that is wrong by little costs little.
fn tried(low: usize, high: usize, near: usize, is_between: bool) -> usize
    requires { low < high }
    ensures low { low ≤ result }
    ensures high { result < high }
{
    if is_between {
        low + (high - low) / 2
    } else if near < low {
        low
    } else if near >= high {
        high - 1
    } else {
        near
    }
}

// Where the last sibling whose key is no higher than this would stand, were the numbers of the siblings at equal distances,
// and their keys those of a document as it is read. So it is in most tables, whose rows are alike.
fn guessed(siblings: &[Rc<Node>], key: u128) -> usize {
    let count = siblings.len();
    if count == 0 {
        return 0;
    }
    let first = siblings[0].id.number;
    let last = siblings[count - 1].id.number;
    let number = u64::try_from(key / GAP)
        .unwrap_or(u64::MAX)
        .saturating_sub(1);
    if number <= first || last <= first {
        return 0;
    }
    let ahead = (number - first).saturating_mul(count as u64 - 1);
    usize::try_from(ahead / (last - first)).unwrap_or(0)
}

/// The sibling at this index, from 0.
pub fn sibling<'a>(siblings: &'a [Rc<Node>], index: usize) -> &'a Node
    requires { index < length siblings.now }
    ensures { (other : Rc Node Global) → result.now ≡ (slice_index_or siblings.now index other).value }
{
    &siblings[index]
}

// The only sibling that has this number or stands above the node of this number, with its position from 1.
// The key is that of the number.
fn step<'a>(
    keys: &Table,
    siblings: &'a [Rc<Node>],
    id: NodeId,
    key: u128,
) -> Option<(usize, &'a Node)>
    requires rises { (low : ℕ) × Rises (key_by keys.now) low (forest_of siblings.now) }
    requires key { key ≡ key_by keys.now id.number }
    ensures { MatchOption result (has_number id.number (forest_of siblings.now) ≡ false) (λ r. IsStep (key_by keys.now) id.number siblings.now r.1.now r.0) }
{
    let count = reached(keys, siblings, key);
    if count == 0 {
        return None;
    }
    Some((count, sibling(siblings, count - 1)))
}

/// The node of this number among these siblings and what is below them.
pub fn find<'a>(keys: &Table, siblings: &'a [Rc<Node>], id: NodeId) -> Option<&'a Node>
    requires { (low : ℕ) × Rises (key_by keys.now) low (forest_of siblings.now) }
    ensures { option_map (λ node. tree_of node.now) result ≡ first_tree id.number (forest_of siblings.now) }
{
    let key = key_of(keys, id);
    let mut current = siblings;
    'down: loop {
        let Some((_, node)) = step(keys, current, id, key) else {
            return None;
        };
        if node.id == id {
            return Some(node);
        }
        current = node.children.as_slice();
    }
}

/// Adds to the path the way to the node of this number, from the parent of these siblings. False where
/// there is no such node; the path may then be longer than before.
pub fn lead(
    path: &mut Path,
    keys: &Table,
    siblings: &[Rc<Node>],
    id: NodeId,
) -> Result<bool, Memory>
    requires { (low : ℕ) × Rises (key_by keys.now) low (forest_of siblings.now) }
    ensures { IfOk result (λ found. option_map (λ way. path.old ++ way) (way_to id.number 1 (forest_of siblings.now)) ≡ (if found then Some path.new else None)) }
{
    let key = key_of(keys, id);
    let mut current = siblings;
    'down: loop {
        let Some((position, node)) = step(keys, current, id, key) else {
            return Ok(false);
        };
        path.push(position as u64)?;
        if node.id == id {
            return Ok(true);
        }
        current = node.children.as_slice();
    }
}

/// The sibling at this position, which counts from 1.
pub fn sibling_at<'a>(siblings: &'a [Rc<Node>], position: u64) -> Option<&'a Node>
    ensures { option_map (λ node. tree_of node.now) result ≡ tree_at (forest_of siblings.now) position }
{
    if position == 0 || position > siblings.len() as u64 {
        return None;
    }
    Some(&siblings[(position - 1) as usize])
}

/// Adds the texts of these siblings and of what is below them.
pub fn push_texts(text: &mut Text, siblings: &[Rc<Node>]) -> Result<(), Memory>
    ensures { OnOk result (text.new ≡ text.old ++ texts_in (forest_of siblings.now)) }
{
    for sibling in siblings {
        push_own_text(text, sibling.content())?;
        push_texts(text, sibling.children.as_slice())?;
    }
    Ok(())
}

fn push_own_text(text: &mut Text, content: &Content) -> Result<(), Memory>
    ensures { OnOk result (text.new ≡ text.old ++ text_of (content_of content.now)) }
{
    match content {
        Content::Text { text: own } => text.push_str(own.as_str()),
        Content::Element { .. } | Content::Comment { .. } | Content::Instruction { .. } => Ok(()),
    }
}

/// The texts of these siblings and of what is below them.
pub fn texts_of(alloc: Global, siblings: &[Rc<Node>]) -> Result<Text, Memory>
    ensures { IfOk result (λ text. text ≡ texts_in (forest_of siblings.now)) }
{
    let mut text = Text::new(alloc);
    push_texts(&mut text, siblings)?;
    Ok(text)
}

/// The string-value of a node. But for an element it is in the memory of the node's content.
pub fn value_of(alloc: Global, node: &Node) -> Result<Text, Memory>
    ensures { IfOk result (λ text. text ≡ string_value_by (Some (tree_of node.now).content) (tree_of node.now).children) }
{
    match node.content() {
        Content::Element { .. } => texts_of(alloc, node.children.as_slice()),
        Content::Text { text } | Content::Comment { text } | Content::Instruction { text, .. } => {
            text.copy(alloc)
        }
    }
}
