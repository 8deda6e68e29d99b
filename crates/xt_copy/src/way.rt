// The copy of the node that a path leads to.
ghost use Rattle.std.specs.Prelude.{◌≡◌, IfOk, MatchOption, None, Some};
ghost use Rattle.std.specs.Option.{ForSome};
ghost use Rattle.spec_document.specs.Forest as spec;
ghost use Rattle.spec_document.specs.Place.{node_at};
ghost use Rattle.spec_run.specs.Copy.{copied_by};
ghost use Rattle.xt_tree.specs.StreamView.{stream_of};
ghost use Rattle.xt_tree.specs.View.{forest_of, tree_at, tree_of};

use crate::below::push_copies;
use crate::naming::scope_inside;
use std::alloc::Global;
use std::rc::Rc;
use xt_names::Scope;
use xt_text::{Memory, Path};
use xt_tree::{Doc, Items, Node};

/// The copy of the node of the tree that the path leads to, where it leads to one: of the root its children.
pub(crate) fn copy_at(alloc: Global, document: &Doc, path: &Path) -> Result<Items, Memory>
    ensures { IfOk result (λ items. ForSome (node_at document.now path.now) (λ node. stream_of items ≡ copied_by node node.content)) }
{
    let mut items = Items::new(alloc);
    let mut outer = Scope::root(alloc)?;
    let mut inner = outer.copy()?;
    let mut chosen = document.children();
    let mut below = document.children();
    for position in path.positions() {
        match sibling_at(below, *position) {
            None => return Ok(items),
            Some((alone, node)) => {
                let next = scope_inside(alloc, &inner, node.content())?;
                outer = inner;
                inner = next;
                chosen = alone;
                below = node.children();
            }
        }
    }
    push_copies(alloc, &mut items, chosen, &outer)?;
    Ok(items)
}

// The sibling at this position, from 1: by itself among siblings, and as a node.
fn sibling_at<'a>(siblings: &'a [Rc<Node>], position: u64) -> Option<(&'a [Rc<Node>], &'a Node)>
    ensures { MatchOption result (tree_at (forest_of siblings.now) position ≡ None) (λ r. (tree_at (forest_of siblings.now) position ≡ Some (tree_of r.1.now))
        × (forest_of r.0.now ≡ spec.Node (tree_of r.1.now).number (tree_of r.1.now).content (tree_of r.1.now).children spec.Empty)) }
{
    if position == 0 || position > siblings.len() as u64 {
        return None;
    }
    let index = (position - 1) as usize;
    Some((&siblings[index..index + 1], &siblings[index]))
}
