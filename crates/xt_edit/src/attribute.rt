// Changes attributes and namespace declarations.
ghost use Rattle.std.specs.Prelude.{IfOk};
ghost use Rattle.spec_edit.specs.Edit.{SetAttribute, RemoveAttribute, edited_nodes};
ghost use Rattle.xt_edit.specs.Changed.{changed_at};
ghost use Rattle.xt_edit.specs.Kept.{KeepsUnless};
ghost use Rattle.xt_edit.specs.Site.{IsThere, spot_in};
ghost use Rattle.xt_edit.specs.Standing.{Permits};
ghost use Rattle.xt_edit.specs.View.{AreBelow, Edits};
ghost use Rattle.xt_tree.specs.View.{content_of, tree_of};

use crate::attributes::{
    attributes_with, attributes_without, has_attribute, is_text_of_chars, makes_anew,
};
use crate::renewal::{renew, stay};
use crate::site::{Site, refused, site_at, stand};
use crate::{EditFault, Edited};
use std::alloc::Global;
use xt_base::EditCode;
use xt_text::{Path, Text};
use xt_tree::{Content, Doc, NodeId};

/// Gives the element at the path this attribute or namespace declaration: in the place of that of the same written name,
/// or last. Where it is a declaration or xml:space, the element is made anew, with all below it.
///
/// Refused as 6 where the path leaves the tree, 7 where it leads to no element, 8 where the value has a character that
/// is none of XML, 10 for a bad name, prefix or declaration here or, after a change of declarations, below, 12 where no
/// number is left, and 14 where an element would have two attributes of one name.
pub fn set_attribute(
    alloc: Global,
    document: &Doc,
    path: &Path,
    name: &Text,
    value: &Text,
    first: NodeId,
) -> Result<Edited, EditFault>
    requires { AreBelow first.number document.now }
    ensures edit { Edits document.now first.number result (edited_nodes first.number (SetAttribute path.now name.now value.now) document.now) }
    ensures below { IfOk result (λ edited. AreBelow edited.next.number edited.document) }
{
    stand(document);
    let site = site_at(document, path)?;
    match site.node.content() {
        Content::Element {
            name: own,
            attributes,
        } => {
            if !is_text_of_chars(value) {
                return Err(refused(EditCode::BadLine));
            }
            let content = Content::Element {
                name: own.copy(alloc)?,
                attributes: attributes_with(alloc, attributes.as_slice(), name, value)?,
            };
            change(alloc, document, site, name, content, first)
        }
        Content::Text { .. } | Content::Comment { .. } | Content::Instruction { .. } => {
            Err(refused(EditCode::WrongKind))
        }
    }
}

/// Takes the attribute or namespace declaration of this written name from the element at the path. Where it is a
/// declaration or xml:space, the element is made anew, with all below it.
///
/// Refused as 6 where the path leaves the tree or the element has no such attribute, 7 where it leads to no element,
/// and as for `set_attribute` where names below lose their declaration or meet another of the same name.
pub fn remove_attribute(
    alloc: Global,
    document: &Doc,
    path: &Path,
    name: &Text,
    first: NodeId,
) -> Result<Edited, EditFault>
    requires { AreBelow first.number document.now }
    ensures edit { Edits document.now first.number result (edited_nodes first.number (RemoveAttribute path.now name.now) document.now) }
    ensures below { IfOk result (λ edited. AreBelow edited.next.number edited.document) }
{
    stand(document);
    let site = site_at(document, path)?;
    match site.node.content() {
        Content::Element {
            name: own,
            attributes,
        } => {
            if !has_attribute(attributes.as_slice(), name) {
                return Err(refused(EditCode::NoPlace));
            }
            let content = Content::Element {
                name: own.copy(alloc)?,
                attributes: attributes_without(alloc, attributes.as_slice(), name)?,
            };
            change(alloc, document, site, name, content, first)
        }
        Content::Text { .. } | Content::Comment { .. } | Content::Instruction { .. } => {
            Err(refused(EditCode::WrongKind))
        }
    }
}

// The element with this content, in which what is written under this name has changed.
fn change(
    alloc: Global,
    document: &Doc,
    site: Site<'_>,
    written: &Text,
    content: Content,
    first: NodeId,
) -> Result<Edited, EditFault>
    requires there { IsThere document.now (spot_in site.spot) site.node.now }
    requires keeps { KeepsUnless written.now (tree_of site.node.now).content (content_of content) }
    requires permits { Permits document.now (changed_at first.number document.now site written.now (content_of content)) }
    ensures { Edits document.now first.number result (changed_at first.number document.now site.entry written.now (content_of content)) }
{
    if makes_anew(written.as_str()) {
        renew(alloc, document, site, content, first)
    } else {
        stay(alloc, document, site, content, first)
    }
}
