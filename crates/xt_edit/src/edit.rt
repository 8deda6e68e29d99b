// What is asked of a document, and what it becomes.
ghost use Rattle.std.specs.Prelude.{IfOk};
ghost use Rattle.spec_document.specs.Forest.{plain};
ghost use Rattle.spec_edit.specs.Edit.{edited_nodes, edited_plain};
ghost use Rattle.xt_edit.specs.View.{AreBelow, Edits, EditsPlain, edit_of};

use crate::{EditFault, delete, insert, remove_attribute, rename, set_attribute, set_text};
use spec_edit::labels_do_not_matter;
use std::alloc::Global;
use xt_io::Line;
use xt_text::{Path, Text};
use xt_tree::{Doc, NodeId};

/// What is asked of a document. A path counts all nodes, from 1, texts, comments and processing instructions
/// included.
#[derive(Drop)]
pub enum Edit {
    /// The nodes of these lines stand before the node at the path, or after the last child.
    Insert { path: Path, body: Vec<Line> },
    /// The node goes, with all below it.
    Delete { path: Path },
    /// The text, comment or processing instruction has this content; an empty text goes.
    SetText { path: Path, value: Text },
    /// The element has this attribute or namespace declaration, in its place or last.
    SetAttribute { path: Path, name: Text, value: Text },
    /// The element has no attribute or namespace declaration of this written name.
    RemoveAttribute { path: Path, name: Text },
    /// The element has this name, or the processing instruction this target.
    Rename { path: Path, name: Text },
}

/// A document after an edit.
#[derive(Drop)]
pub struct Edited {
    pub document: Doc,
    /// The first number that no node has had: the number after the last that was made.
    pub next: NodeId,
}

/// What the edit makes of the document, whose numbers are below `first`. What is made, new or anew, is numbered from
/// `first` on. Else the least refusal, 2 or 6 to 14: the path leaves the tree, or the attribute to be removed is not
/// there; the node has the wrong kind; a character that is none of XML; lines that are not balanced, or not exactly
/// one document element; a bad name, prefix or declaration; an element at depth 257; a node that would have the
/// number 2^62; an element with two attributes of one name (XML 1.0, sections 2 and 3; Namespaces in XML 1.0,
/// sections 3 to 6).
pub fn apply(alloc: Global, document: &Doc, edit: &Edit, first: NodeId) -> Result<Edited, EditFault>
    requires { AreBelow first.number document.now }
    ensures labelled { Edits document.now first.number result (edited_nodes first.number (edit_of edit.now) document.now) }
    ensures plain { EditsPlain first.number result (edited_plain first.number (edit_of edit.now) (plain document.now.nodes)) }
    ensures below { IfOk result (λ edited. AreBelow edited.next.number edited.document) }
{
    labels_do_not_matter();
    parted(alloc, document, edit, first)
}

// The same, parted by what is asked.
fn parted(alloc: Global, document: &Doc, edit: &Edit, first: NodeId) -> Result<Edited, EditFault>
    requires { AreBelow first.number document.now }
    ensures labelled { Edits document.now first.number result (edited_nodes first.number (edit_of edit.now) document.now) }
    ensures below { IfOk result (λ edited. AreBelow edited.next.number edited.document) }
{
    match edit {
        Edit::Insert { path, body } => insert(alloc, document, path, body.as_slice(), first),
        Edit::Delete { path } => delete(alloc, document, path, first),
        Edit::SetText { path, value } => set_text(alloc, document, path, value, first),
        Edit::SetAttribute { path, name, value } => {
            set_attribute(alloc, document, path, name, value, first)
        }
        Edit::RemoveAttribute { path, name } => {
            remove_attribute(alloc, document, path, name, first)
        }
        Edit::Rename { path, name } => rename(alloc, document, path, name, first),
    }
}
