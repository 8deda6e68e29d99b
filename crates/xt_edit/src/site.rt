// Where an edit takes place.
ghost use Rattle.std.specs.Prelude.{◌≡◌, ◌+◌, length};
ghost use Rattle.std.specs.Option.{option_map};
ghost use Rattle.spec_edit.specs.Splice as spec;
ghost use Rattle.xt_edit.specs.Moving.{IsOrigin};
ghost use Rattle.xt_edit.specs.Site.{IsSite, spot_in};
ghost use Rattle.xt_edit.specs.Standing.{Stands};
ghost use Rattle.xt_edit.specs.declared.fault.EditFault.TheVariants.{Refused};

use crate::EditFault;
use xt_base::EditCode;
use xt_text::Path;
use xt_tree::{Doc, Node};

/// A position below a parent, and the way to the parent.
#[derive(Clone, Copy)]
pub(crate) struct Spot<'a> {
    /// The positions that lead to the parent.
    pub parent: &'a [u64],
    /// The position below it, from 1.
    pub position: u64,
}

/// A node below the root, and where it stands.
#[derive(Clone, Copy)]
pub(crate) struct Site<'a> {
    pub spot: Spot<'a>,
    pub node: &'a Node,
}

/// How deep a node stands whose parent these positions lead to: the document element has depth 1.
pub(crate) fn depth_below(parent: &[u64]) -> u64
    ensures { result ≡ length parent.now + 1 }
{
    parent.len() as u64 + 1
}

/// The last step of the path and the way before it. None for the path of the root.
pub(crate) fn spot_of(path: &Path) -> Option<Spot<'_>>
    ensures { option_map spot_in result ≡ spec.spot_of path.now }
{
    match path.positions().split_last() {
        None => None,
        Some((position, parent)) => Some(Spot {
            parent,
            position: *position,
        }),
    }
}

/// The node at this path: 7 for the root, 6 where the path leaves the tree.
pub(crate) fn site_at<'a>(document: &'a Doc, path: &'a Path) -> Result<Site<'a>, EditFault>
    ensures { IsSite document.now path.now result }
{
    match origin_at(document, path) {
        Ok(site) => Ok(site),
        Err(code) => Err(refused(code)),
    }
}

/// The same with the code alone.
pub(crate) fn origin_at<'a>(document: &'a Doc, path: &'a Path) -> Result<Site<'a>, EditCode>
    ensures { IsOrigin document.now path.now result }
{
    match spot_of(path) {
        None => Err(EditCode::WrongKind),
        Some(spot) => match document.node_at(path.positions()) {
            None => Err(EditCode::NoPlace),
            Some(node) => Ok(Site { spot, node }),
        },
    }
}

/// Does nothing: it tells proofs that documents have distinct numbers and bounded depths.
pub(crate) fn stand(document: &Doc)
    ensures { Stands document.now }
{
    document.distinct_numbers();
    document.bounded_depth();
}

/// Refused by this code, at no line of a body.
pub(crate) fn refused(code: EditCode) -> EditFault
    ensures { result ≡ Refused code 0 }
{
    EditFault::Refused { code, line: 0 }
}
