// The copy of a node.
ghost use Rattle.std.specs.Prelude.{◌≡◌, ℕ, IfOk, IsSome, Some};
ghost use Rattle.std.specs.Option.{option_map};
ghost use Rattle.spec_document.specs.Order.{entries_of};
ghost use Rattle.spec_document.specs.Place.{Found, TreeNode};
ghost use Rattle.spec_meaning.specs.Question.{Copied};
ghost use Rattle.spec_meaning.specs.Truth.{entry_named, told_of};
ghost use Rattle.spec_run.specs.Copy as plain;
ghost use Rattle.spec_node.specs.Naming.{ref_of, same_ref};
ghost use Rattle.spec_node.specs.declared.node_ref.NodeRef.{NodeRef};
ghost use Rattle.xt_tree.specs.StreamView.{stream_of};
ghost use Rattle.xt_tree.specs.View.{item_of};
ghost use Rattle.xt_copy.specs.Copied as copied;

use crate::leaf::{leaf, single};
use crate::way::copy_at;
use spec_document::Kind;
use std::alloc::Global;
use std::rc::Rc;
use xt_text::Memory;
use xt_tree::{Doc, Fragment, Items, NodeRef};

/// The copy of a node of the document (XSLT 1.0, section 11.3): of an element all of it, with its namespace
/// nodes and attributes, of the root its children, of any other node that node. The node is one of the
/// document. Takes time by what is copied, and once by how deep the node stands.
pub fn copy_of(alloc: Global, document: &Doc, node: &NodeRef) -> Result<Fragment, Memory>
    requires { IsSome (item_of document.now node.now) }
    ensures item { IfOk result (λ copy. option_map plain.copy_of (item_of document.now node.now) ≡ Some copy) }
    ensures told { IfOk result (λ copy. told_of {L = ℕ} {K = NodeRef} (λ e. Copied (plain.copy_of e.item)) (entry_named ref_of same_ref (entries_of document.now) node.now) ≡ Copied copy) }
{
    document.distinct_numbers();
    let items = items_of(alloc, document, node)?;
    let shared = Rc::new(alloc, items)?;
    Ok(Fragment::new(shared))
}

fn items_of(alloc: Global, document: &Doc, node: &NodeRef) -> Result<Items, Memory>
    requires { IsSome (item_of document.now node.now) }
    ensures { IfOk result (λ items. option_map plain.copy_of (item_of document.now node.now) ≡ Some (stream_of items)) }
{
    match document.kind(node) {
        Kind::Root => whole(alloc, document, node),
        Kind::Element => whole(alloc, document, node),
        _ => alone(alloc, document, node),
    }
}

// A node of the tree, with what is below it.
fn whole(alloc: Global, document: &Doc, node: &NodeRef) -> Result<Items, Memory>
    requires { IsSome (item_of document.now node.now) }
    ensures { IfOk result (λ items. (found : Found ℕ) → item_of document.now node.now ≡ Some (TreeNode found) → stream_of items ≡ plain.copied_by found found.content) }
{
    match document.place(alloc, node)? {
        None => Ok(Items::new(alloc)),
        Some(path) => copy_at(alloc, document, &path),
    }
}

// A node that nothing is below.
fn alone(alloc: Global, document: &Doc, node: &NodeRef) -> Result<Items, Memory>
    requires { IsSome (item_of document.now node.now) }
    ensures { IfOk result (λ items. option_map copied.leaf_of (item_of document.now node.now) ≡ Some (stream_of items)) }
{
    let kind = document.kind(node);
    let written = document.written_name(alloc, node)?;
    let name = document.name(alloc, node)?;
    let value = document.string_value(alloc, node)?;
    let item = leaf(alloc, kind, written, name, value)?;
    single(alloc, item)
}
