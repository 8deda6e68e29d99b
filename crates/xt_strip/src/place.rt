// Where in a document an edit changes what stands below a node.
ghost use Rattle.std.specs.Prelude.{ℕ, ◌≡◌, ◌≤◌, IfSome, Some, true};
ghost use Rattle.spec_change.specs.Change.{IsEdit};
ghost use Rattle.spec_document.specs.Forest.{Document};
ghost use Rattle.spec_edit.specs.Judged as judged;
ghost use Rattle.spec_edit.specs.Splice.{children_changed, spot_of};
ghost use Rattle.xt_edit.specs.Seam as seam;
ghost use Rattle.xt_edit.specs.Seam.{one_of};
ghost use Rattle.xt_edit.specs.View.{edit_of};
ghost use Rattle.xt_strip.specs.Along.{IsKept, IsSpliced, children_in};
ghost use Rattle.xt_strip.specs.Edited as spec;
ghost use Rattle.xt_strip.specs.View.{changed};
ghost use Rattle.xt_tree.specs.View.{content_of, forest_of, tree_of};

use crate::along::{Change, between, has_same_number, later};
use std::rc::Rc;
use xt_edit::Edit;
use xt_text::Path;
use xt_tree::{Content, Doc, Node};

/// Some of the children of a node.
#[derive(Clone, Copy)]
pub(crate) struct Place<'a> {
    /// The positions that lead to the node.
    pub path: &'a [u64],
    /// The first of the children, from 0.
    pub from: usize,
    /// The one behind the last.
    pub to: usize,
    /// The position of the edit among them, from 1.
    pub position: u64,
}

/// The children among which the edit changes the document: from the text before its place, where one is there, up to the
/// one behind it. None where that is not told.
pub(crate) fn place_of<'a>(document: &Doc, edit: &'a Edit) -> Option<Place<'a>>
    ensures spliced { (new : Document ℕ) → IsEdit (edit_of edit.now) document.now new
        → IfSome result (λ place. IsSpliced place.path.now place.from place.to document.now new) }
    ensures spot { IfSome result (λ place. spot_of (judged.path_of (edit_of edit.now)) ≡ Some (record { above = place.path.now; position = place.position })) }
{
    let (position, path) = path_of(edit).positions().split_last()?;
    let siblings = document.children_at(path)?;
    if *position == 0 || *position > siblings.len() as u64 + 1 {
        return None;
    }
    let index = (*position - 1) as usize;
    let end = index + gone_by(edit);
    if end > siblings.len() {
        return None;
    }
    Some(Place {
        path,
        from: index - text_before(siblings, index),
        to: end + text_at(siblings, end),
        position: *position,
    })
}

/// What the children at the place have become.
pub(crate) fn change_at<'a>(
    edit: &Edit,
    before: &[Rc<Node>],
    after: &'a [Rc<Node>],
    place: Place<'_>,
) -> Change<'a>
    ensures { (old new : Document ℕ) → IsEdit (edit_of edit.now) old new
        → spot_of (judged.path_of (edit_of edit.now)) ≡ Some (record { above = place.entry.path.now; position = place.entry.position })
        → IsSpliced place.entry.path.now place.entry.from place.entry.to old new
        → Some (forest_of before.now) ≡ children_in old place.entry.path.now → Some (forest_of after.now) ≡ children_in new place.entry.path.now
        → new ≡ record { root = old.root; nodes = children_changed (changed result) place.entry.path.now old.nodes } }
{
    match kept_node(edit, before, after, place.position) {
        None => Change::Others {
            from: place.from,
            to: place.to,
            others: between(before, after, place.from, place.to),
        },
        Some(node) => Change::Content {
            position: place.position,
            node,
        },
    }
}

// The node at this position, from 1, where an attribute of it was set or removed and it kept its number, and with it all
// below it.
fn kept_node<'a>(
    edit: &Edit,
    before: &[Rc<Node>],
    after: &'a [Rc<Node>],
    position: u64,
) -> Option<&'a Rc<Node>>
    ensures sets { IfSome result (λ node. spec.sets_attribute (edit_of edit.now) ≡ true) }
    ensures kept { IfSome result (λ node. IsKept position (forest_of before.now) (forest_of after.now) (tree_of node.now.value).content) }
{
    if !sets_attribute(edit) {
        return None;
    }
    if position == 0 {
        return None;
    }
    let index = (position - 1) as usize;
    let (old, _) = later(before, index).split_first()?;
    let (new, _) = later(after, index).split_first()?;
    if has_same_number(old, new) {
        Some(new)
    } else {
        None
    }
}

fn sets_attribute(edit: &Edit) -> bool
    ensures { result ≡ spec.sets_attribute (edit_of edit.now) }
{
    match edit {
        Edit::SetAttribute { .. } => true,
        Edit::RemoveAttribute { .. } => true,
        Edit::Insert { .. } => false,
        Edit::Delete { .. } => false,
        Edit::SetText { .. } => false,
        Edit::Rename { .. } => false,
    }
}

fn path_of(edit: &Edit) -> &Path
    ensures { result.now ≡ judged.path_of (edit_of edit.now) }
{
    match edit {
        Edit::Insert { path, .. } => path,
        Edit::Delete { path } => path,
        Edit::SetText { path, .. } => path,
        Edit::SetAttribute { path, .. } => path,
        Edit::RemoveAttribute { path, .. } => path,
        Edit::Rename { path, .. } => path,
    }
}

fn gone_by(edit: &Edit) -> usize
    ensures is { result ≡ spec.gone_by (edit_of edit.now) }
    ensures small { result ≤ 1 }
{
    match edit {
        Edit::Insert { .. } => 0,
        Edit::Delete { .. } => 1,
        Edit::SetText { .. } => 1,
        Edit::SetAttribute { .. } => 1,
        Edit::RemoveAttribute { .. } => 1,
        Edit::Rename { .. } => 1,
    }
}

// One where the sibling before this index is a text, and none else.
fn text_before(siblings: &[Rc<Node>], index: usize) -> usize
    ensures is { result ≡ one_of (seam.text_before index (forest_of siblings.now)) }
    ensures within { result ≤ index }
{
    if index == 0 {
        0
    } else {
        text_at(siblings, index - 1)
    }
}

// One where the sibling at this index is a text, and none else.
fn text_at(siblings: &[Rc<Node>], index: usize) -> usize
    ensures is { result ≡ one_of (seam.text_at index (forest_of siblings.now)) }
    ensures small { result ≤ 1 }
{
    if index >= siblings.len() {
        return 0;
    }
    one_text(siblings[index].content())
}

fn one_text(content: &Content) -> usize
    ensures is { result ≡ spec.one_text (content_of content.now) }
    ensures small { result ≤ 1 }
{
    match content {
        Content::Text { .. } => 1,
        Content::Element { .. } => 0,
        Content::Comment { .. } => 0,
        Content::Instruction { .. } => 0,
    }
}
