// Elements whose namespace nodes were counted.
ghost use Rattle.std.specs.Prelude.{ℕ, List, ◌≡◌, length, is_some, IfOk};
ghost use Rattle.spec_document.specs.Place.{at_number};
ghost use Rattle.xp_axes.specs.Placed.{HasNamespaces};

use std::alloc::Global;
use xt_text::Memory;
use xt_tree::{Doc, NodeId};

/// A node of the tree, and how many namespace nodes it has.
#[derive(Clone, Copy)]
pub struct Owner {
    pub id: NodeId,
    pub namespaces: u64,
}

/// The root, which has none.
pub fn root_owner(document: &Doc) -> Owner
    ensures { HasNamespaces document.now result.id.number result.namespaces }
{
    Owner {
        id: document.root(),
        namespaces: 0,
    }
}

/// How many namespace nodes the node of this number has. They are counted where it is another than the last.
pub fn count(alloc: Global, document: &Doc, last: Owner, id: NodeId) -> Result<u64, Memory>
    requires { HasNamespaces document.now last.id.number last.namespaces }
    ensures { IfOk result (λ count. HasNamespaces document.now id.number count) }
{
    if last.id == id {
        return Ok(last.namespaces);
    }
    let list = document.namespaces(alloc, id)?;
    Ok(list.len() as u64)
}

/// Whether one of so many has this number, from 1.
pub fn is_among(number: u64, count: u64) -> bool
    ensures { (xs : List (List ℕ × List ℕ)) → count ≡ length xs → result ≡ is_some (at_number number xs) }
{
    if number == 0 {
        return false;
    }
    if number > count {
        return false;
    }
    true
}
