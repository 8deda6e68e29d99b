// Changes the content of texts, comments and processing instructions.
ghost use Rattle.std.specs.Prelude.{◌≡◌, false, IfOk};
ghost use Rattle.std.specs.Option.{option_map};
ghost use Rattle.spec_document.specs.Forest as spec;
ghost use Rattle.spec_edit.specs.Edit.{SetText, edited_nodes, is_element};
ghost use Rattle.xt_edit.specs.Changed.{valued_at};
ghost use Rattle.xt_edit.specs.Site.{IsThere, spot_in};
ghost use Rattle.xt_edit.specs.Standing.{Stands};
ghost use Rattle.xt_edit.specs.Valued.{valued};
ghost use Rattle.xt_edit.specs.View.{AreBelow, Edits};
ghost use Rattle.xt_tree.specs.View.{content_of, tree_of};

use crate::attributes::is_text_of_chars;
use crate::kind::is_element;
use crate::seam::take_out;
use crate::site::{Site, refused, site_at, stand};
use crate::{EditFault, Edited};
use std::alloc::Global;
use xt_base::EditCode;
use xt_text::{Memory, Path, Text};
use xt_tree::{Content, Doc, NodeId};

/// Gives the text, comment or processing instruction at the path this content. A text that is made empty goes.
///
/// Refused as 6 where the path leaves the tree, 7 for the root and an element, and 8 where the content has a character
/// that is none of XML.
pub fn set_text(
    alloc: Global,
    document: &Doc,
    path: &Path,
    value: &Text,
    first: NodeId,
) -> Result<Edited, EditFault>
    requires { AreBelow first.number document.now }
    ensures edit { Edits document.now first.number result (edited_nodes first.number (SetText path.now value.now) document.now) }
    ensures below { IfOk result (λ edited. AreBelow edited.next.number edited.document) }
{
    stand(document);
    let site = site_at(document, path)?;
    if is_element(site.node.content()) {
        return Err(refused(EditCode::WrongKind));
    }
    if !is_text_of_chars(value) {
        return Err(refused(EditCode::BadLine));
    }
    let document = with_value(alloc, document, site, value)?;
    Ok(Edited {
        document,
        next: first,
    })
}

// The document in which this node, which is no element, has this content, or is gone.
fn with_value(alloc: Global, document: &Doc, site: Site<'_>, value: &Text) -> Result<Doc, Memory>
    requires kind { is_element (tree_of site.node.now).content ≡ false }
    requires there { IsThere document.now (spot_in site.spot) site.node.now }
    requires stands { Stands (valued_at document.now site value.now) }
    ensures { IfOk result (λ new. new ≡ valued_at document.now site.entry value.now) }
{
    match valued(alloc, site.node.content(), value)? {
        None => take_out(alloc, document, site),
        Some(content) => {
            document.with_content(alloc, site.spot.parent, site.spot.position, content)
        }
    }
}

// The content of a node that is no element, with this text. None for an emptied text.
fn valued(alloc: Global, content: &Content, value: &Text) -> Result<Option<Content>, Memory>
    ensures { IfOk result (λ found. option_map content_of found ≡ valued (content_of content.now) value.now) }
{
    match content {
        Content::Element { .. } => Ok(None),
        Content::Text { .. } => text(alloc, value),
        Content::Comment { .. } => Ok(Some(Content::Comment {
            text: value.copy(alloc)?,
        })),
        Content::Instruction { target, .. } => Ok(Some(Content::Instruction {
            target: target.copy(alloc)?,
            text: value.copy(alloc)?,
        })),
    }
}

// A text, unless it is empty.
fn text(alloc: Global, value: &Text) -> Result<Option<Content>, Memory>
    ensures { IfOk result (λ found. option_map content_of found ≡ valued (spec.Text value.now) value.now) }
{
    if value.is_empty() {
        return Ok(None);
    }
    Ok(Some(Content::Text {
        text: value.copy(alloc)?,
    }))
}
