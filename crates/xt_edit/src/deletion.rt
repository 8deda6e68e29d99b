// Takes nodes away.
ghost use Rattle.std.specs.Prelude.{◌≡◌, IfOk};
ghost use Rattle.spec_edit.specs.Edit as spec;
ghost use Rattle.spec_edit.specs.Edit.{Delete, edited_nodes};
ghost use Rattle.xt_edit.specs.Site.{IsThere, found_there, spot_in};
ghost use Rattle.xt_edit.specs.View.{AreBelow, Edits};
ghost use Rattle.xt_tree.specs.View.{tree_of};

use crate::kind::is_element;
use crate::seam::take_out;
use crate::site::{Site, depth_below, refused, site_at, stand};
use crate::{EditFault, Edited};
use std::alloc::Global;
use xt_base::EditCode;
use xt_text::Path;
use xt_tree::{Doc, NodeId};

/// Takes the node at the path away, with all below it. Texts that become neighbours are one, with the number of the first.
///
/// Refused as 6 where the path leaves the tree, 7 for the root, and 9 for the document element.
pub fn delete(
    alloc: Global,
    document: &Doc,
    path: &Path,
    first: NodeId,
) -> Result<Edited, EditFault>
    requires { AreBelow first.number document.now }
    ensures edit { Edits document.now first.number result (edited_nodes first.number (Delete path.now) document.now) }
    ensures below { IfOk result (λ edited. AreBelow edited.next.number edited.document) }
{
    stand(document);
    let site = site_at(document, path)?;
    if is_document_element(document, site) {
        return Err(refused(EditCode::Unbalanced));
    }
    let document = take_out(alloc, document, site)?;
    Ok(Edited {
        document,
        next: first,
    })
}

fn is_document_element(document: &Doc, site: Site<'_>) -> bool
    requires { IsThere document.now (spot_in site.spot) site.node.now }
    ensures { result ≡ spec.is_document_element (found_there document.now (spot_in site.entry.spot) site.entry.node.now) (tree_of site.entry.node.now).content }
{
    depth_below(site.spot.parent) == 1 && is_element(site.node.content())
}
