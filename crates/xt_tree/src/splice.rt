// Documents in which nodes stand in place of others. All other nodes are shared, with their numbers, keys and names.
ghost use Rattle.std.specs.Prelude.{◌≡◌, ◌+◌, ◌<◌, ◌≤◌, IfOk, OnOk};
ghost use Rattle.spec_document.specs.Forest.{followed, height, size};
ghost use Rattle.spec_document.specs.NodeFaults.{greatest_depth};
ghost use Rattle.spec_document.specs.Numbering.{number_limit};
ghost use Rattle.spec_edit.specs.Depth.{ElementsFit};
ghost use Rattle.spec_edit.specs.Splice.{children_changed, replaced};
ghost use Rattle.xt_tree.specs.Keys.{AreApart, key_by};
ghost use Rattle.xt_tree.specs.Kept.{kept_at};
ghost use Rattle.xt_tree.specs.Numbers.{IsNumbered};
ghost use Rattle.xt_tree.specs.Room.{AreBeside, AreKeyed, IsRoom};
ghost use Rattle.xt_tree.specs.View.{forest_of};

use crate::by_number::ByNumber;
use crate::doc::node;
use crate::find::sibling_at;
use crate::keys::{give_keys, new_keys};
use crate::names::Names;
use crate::remade::{shared, with_node};
use crate::room::{Room, count, room_at, spread_in};
use crate::table::Table;
use crate::{Doc, Node, Nodes};
use std::alloc::Global;
use std::rc::Rc;
use xt_text::Memory;

impl Doc {
    /// The document in which these nodes stand in place of the children from the index `from` up to, but not
    /// including, `to`, of the node that the positions lead to. Where they lead to none, nothing changes. The cost is
    /// the depth, the widths of the lists of children on the way, as pointers, and the new nodes.
    pub fn spliced(
        &self,
        alloc: Global,
        parent: &[u64],
        from: usize,
        to: usize,
        nodes: Nodes,
    ) -> Result<Doc, Memory>
        requires order { from ≤ to }
        requires numbers { IsNumbered (record { root = self.now.root; nodes = children_changed (replaced from to nodes) parent.now self.now.nodes }) }
        requires depth { height (children_changed (replaced from to nodes) parent.now self.now.nodes) ≤ greatest_depth + 1 }
        requires fits { ElementsFit 1 (children_changed (replaced from to nodes) parent.now self.now.nodes) }
        ensures { IfOk result (λ doc. doc ≡ record { root = self.now.root; nodes = children_changed (replaced from to nodes) parent.now self.now.nodes }) }
    {
        let siblings = self.children.as_slice();
        let new = nodes.list();
        match room_at(&self.keys, siblings, parent, from, to) {
            None => self.copy(alloc),
            Some(room) => {
                let children = changed(alloc, siblings, parent, from, to, new)?;
                let keys = keys_in(alloc, &self.keys, room, new, children.as_slice())?;
                let names = names_beside(alloc, &self.names, new)?;
                let unknown = ByNumber::none(alloc);
                let by_number = Rc::new(alloc, unknown)?;
                Ok(Doc {
                    root: self.root,
                    keys,
                    names,
                    by_number,
                    children,
                })
            }
        }
    }

    /// The same document, shared.
    pub fn copy(&self, alloc: Global) -> Result<Doc, Memory>
        ensures { IfOk result (λ doc. doc ≡ self.now) }
    {
        let keys = self.keys.copy()?;
        let names = self.names.clone()?;
        let by_number = self.by_number.clone()?;
        let children = shared(alloc, self.children.as_slice())?;
        Ok(Doc {
            root: self.root,
            keys,
            names,
            by_number,
            children,
        })
    }
}

// ---- Siblings

// Adds these siblings behind the others. They are shared.
fn add(list: &mut Vec<Rc<Node>>, siblings: &[Rc<Node>]) -> Result<(), Memory>
    ensures { OnOk result (forest_of list.new.items ≡ followed (forest_of list.old.items) (forest_of siblings.now)) }
{
    list.reserve(siblings.len())?;
    for sibling in siblings {
        let shared = sibling.clone()?;
        list.push(shared)?;
    }
    Ok(())
}

// Siblings with others in place of those from one index up to another, from 0.
fn with_others(
    alloc: Global,
    siblings: &[Rc<Node>],
    from: usize,
    to: usize,
    others: &[Rc<Node>],
) -> Result<Vec<Rc<Node>>, Memory>
    ensures { IfOk result (λ list. forest_of list.items ≡ replaced from to (forest_of others.now) (forest_of siblings.now)) }
{
    let mut list = Vec::new(alloc);
    let first = from.min(siblings.len());
    let last = to.min(siblings.len());
    add(&mut list, &siblings[..first])?;
    add(&mut list, others)?;
    add(&mut list, &siblings[last..])?;
    Ok(list)
}

// Siblings with others in place of some of the children of the node that the positions lead to, or, without
// positions, in place of some of themselves. All but the nodes on the way are shared.
fn changed(
    alloc: Global,
    siblings: &[Rc<Node>],
    path: &[u64],
    from: usize,
    to: usize,
    others: &[Rc<Node>],
) -> Result<Vec<Rc<Node>>, Memory>
    ensures { IfOk result (λ list. forest_of list.items ≡ children_changed (replaced from to (forest_of others.now)) path.now (forest_of siblings.now)) }
{
    let Some((position, below)) = path.split_first() else {
        return with_others(alloc, siblings, from, to, others);
    };
    let Some(found) = sibling_at(siblings, *position) else {
        let unchanged = shared(alloc, siblings)?;
        return Ok(unchanged);
    };
    let children = changed(alloc, found.children.as_slice(), below, from, to, others)?;
    let content = found.content.clone()?;
    let made = node(found.id, content, children);
    let list = with_node(alloc, siblings, *position, made)?;
    Ok(list)
}

// ---- Keys

// The keys of all siblings of a document, some of which are new and stand in this room. Where it is too small, or most
// keys are of nodes that are gone, all get new keys.
fn keys_in(
    alloc: Global,
    keys: &Table,
    room: Room,
    new: &[Rc<Node>],
    siblings: &[Rc<Node>],
) -> Result<Table, Memory>
    requires room { IsRoom (key_by keys.now) room.low room.high (forest_of new.now) (forest_of siblings.now) }
    requires apart { AreApart (forest_of siblings.now) }
    requires few { size (forest_of siblings.now) < number_limit }
    ensures { IfOk result (λ own. AreKeyed (key_by own) (forest_of siblings.now)) }
{
    let Some(limit) = next_limit(keys, siblings) else {
        return new_keys(alloc, siblings);
    };
    let place = spread_in(room, count(new));
    if place.step == 0 {
        return new_keys(alloc, siblings);
    }
    let mut own = keys.copy_until(limit)?;
    let mut last = place.start;
    give_keys(alloc, &mut own, new, &mut last, place.step)?;
    Ok(own)
}

// The count at which keys of these siblings and all below them are to be compared with them next. None where they are
// to be made anew now. The siblings are counted so seldom that it costs each edit next to nothing.
fn next_limit(keys: &Table, siblings: &[Rc<Node>]) -> Option<u64>
    requires { size (forest_of siblings.now) < number_limit }
{
    if keys.is_due() {
        return keys.limit_for(count(siblings));
    }
    Some(keys.limit())
}

// ---- Names and scopes

// The names and scopes that stay right where these nodes come in: all or none.
fn names_beside(alloc: Global, names: &Rc<Names>, new: &[Rc<Node>]) -> Result<Rc<Names>, Memory>
    ensures { IfOk result (λ own. AreBeside (kept_at names.now.value) (kept_at own.value) (forest_of new.now)) }
{
    if names.all_suit(new) {
        let own = names.clone()?;
        return Ok(own);
    }
    let own = Rc::new(alloc, Names::none(alloc))?;
    Ok(own)
}
