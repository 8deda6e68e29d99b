// Changes names of elements and targets of processing instructions.
ghost use Rattle.std.specs.Prelude.{IfOk};
ghost use Rattle.spec_edit.specs.Edit.{Rename, edited_nodes};
ghost use Rattle.xt_edit.specs.View.{AreBelow, Edits};

use crate::attributes::attributes_copied;
use crate::renewal::renew;
use crate::site::{refused, site_at, stand};
use crate::{EditFault, Edited};
use std::alloc::Global;
use xt_base::EditCode;
use xt_text::{Path, Text};
use xt_tree::{Content, Doc, NodeId};

/// Gives the element at the path this name, or the processing instruction this target. It is made anew, with all below
/// it.
///
/// Refused as 6 where the path leaves the tree, 7 for the root, a text and a comment, 10 where the name is no QName or
/// its prefix is not declared (a target: no NCName, or `xml` in any case), and 12 where no number is left.
pub fn rename(
    alloc: Global,
    document: &Doc,
    path: &Path,
    name: &Text,
    first: NodeId,
) -> Result<Edited, EditFault>
    requires { AreBelow first.number document.now }
    ensures edit { Edits document.now first.number result (edited_nodes first.number (Rename path.now name.now) document.now) }
    ensures below { IfOk result (λ edited. AreBelow edited.next.number edited.document) }
{
    stand(document);
    let site = site_at(document, path)?;
    match site.node.content() {
        Content::Element { attributes, .. } => {
            let content = Content::Element {
                name: name.copy(alloc)?,
                attributes: attributes_copied(alloc, attributes.as_slice())?,
            };
            renew(alloc, document, site, content, first)
        }
        Content::Instruction { text, .. } => {
            let content = Content::Instruction {
                target: name.copy(alloc)?,
                text: text.copy(alloc)?,
            };
            renew(alloc, document, site, content, first)
        }
        Content::Text { .. } | Content::Comment { .. } => Err(refused(EditCode::WrongKind)),
    }
}
