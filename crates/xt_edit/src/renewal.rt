// Nodes with another content: such as stay, and such as are made anew.
ghost use Rattle.std.specs.Prelude.{◌≡◌, ◌+◌, ◌≤◌, IfOk};
ghost use Rattle.spec_document.specs.Balance.{alone};
ghost use Rattle.spec_document.specs.Declaration.{within};
ghost use Rattle.spec_document.specs.Fault.{least};
ghost use Rattle.spec_document.specs.Forest.{size};
ghost use Rattle.spec_document.specs.NodeFaults.{content_faults};
ghost use Rattle.spec_document.specs.Numbering.{number_limit};
ghost use Rattle.spec_edit.specs.Edit.{depth_of, scope_around, tree_faults, tree_with};
ghost use Rattle.xt_edit.specs.Changed.{found_at, renewed_at, stayed_at};
ghost use Rattle.xt_edit.specs.Finding.{at_no_line};
ghost use Rattle.xt_edit.specs.Site.{IsThere, spot_in};
ghost use Rattle.xt_edit.specs.Standing.{Permits};
ghost use Rattle.xt_edit.specs.View.{Edits};
ghost use Rattle.xt_tree.specs.Edit.{KeepsNames};
ghost use Rattle.xt_tree.specs.View.{content_of, forest_of, tree_of};

use crate::check::{element_fault, tree_fault};
use crate::site::{Site, depth_below, refused};
use crate::{EditFault, Edited};
use std::alloc::Global;
use std::rc::Rc;
use xt_base::EditCode;
use xt_text::Memory;
use xt_tree::{Content, Doc, Node, NodeId, Nodes};

/// Gives the element this content, if that has no fault. Its number stays, and all below it.
pub(crate) fn stay(
    alloc: Global,
    document: &Doc,
    site: Site<'_>,
    content: Content,
    first: NodeId,
) -> Result<Edited, EditFault>
    requires there { IsThere document.now (spot_in site.spot) site.node.now }
    requires keeps { KeepsNames (tree_of site.node.now).content (content_of content) }
    ensures { Edits document.now first.number result (stayed_at document.now site.entry (content_of content)) }
{
    match own_fault(alloc, document, site, &content)? {
        Some(code) => Err(refused(code)),
        None => {
            let spot = site.spot;
            let document = document.with_content(alloc, spot.parent, spot.position, content)?;
            Ok(Edited {
                document,
                next: first,
            })
        }
    }
}

// The fault of an element that has this content there.
fn own_fault(
    alloc: Global,
    document: &Doc,
    site: Site<'_>,
    content: &Content,
) -> Result<Option<EditCode>, Memory>
    requires { IsThere document.now (spot_in site.spot) site.node.now }
    ensures { IfOk result (λ found. let there = found_at document.now site.entry in
        at_no_line found ≡ least (content_faults (within (content_of content.now) (scope_around there)) (depth_of there) (alone 0) (content_of content.now))) }
{
    let around = document.scope_at(alloc, site.spot.parent)?;
    element_fault(alloc, &around, depth_below(site.spot.parent), content)
}

/// Makes the node anew with this content, and all below it, if that has no fault.
pub(crate) fn renew(
    alloc: Global,
    document: &Doc,
    site: Site<'_>,
    content: Content,
    first: NodeId,
) -> Result<Edited, EditFault>
    requires there { IsThere document.now (spot_in site.spot) site.node.now }
    requires permits { Permits document.now (renewed_at first.number document.now site (content_of content)) }
    ensures { Edits document.now first.number result (renewed_at first.number document.now site.entry (content_of content)) }
{
    match whole_fault(alloc, document, site, &content, first)? {
        Some(code) => Err(refused(code)),
        None => {
            let spot = site.spot;
            let index = (spot.position - 1) as usize;
            let number = number_after(first.number + 1, site.node.children());
            let nodes = Nodes::renewed(alloc, first.number, content, site.node.children())?;
            let document = document.spliced(alloc, spot.parent, index, index + 1, nodes)?;
            Ok(Edited {
                document,
                next: NodeId { number },
            })
        }
    }
}

// The fault of the node with this content there, and of what is below it, all numbered from `first` on.
fn whole_fault(
    alloc: Global,
    document: &Doc,
    site: Site<'_>,
    content: &Content,
    first: NodeId,
) -> Result<Option<EditCode>, Memory>
    requires { IsThere document.now (spot_in site.spot) site.node.now }
    ensures { IfOk result (λ found. let there = found_at document.now site.entry in
        at_no_line found ≡ least (tree_faults first.number there (tree_with (content_of content.now) there))) }
{
    let around = document.scope_at(alloc, site.spot.parent)?;
    let depth = depth_below(site.spot.parent);
    tree_fault(
        alloc,
        &around,
        depth,
        first.number,
        content,
        site.node.children(),
    )
}

/// The number after those of these nodes and of all below them, which are numbered from `first` on.
pub(crate) fn number_after(first: u64, nodes: &[Rc<Node>]) -> u64
    requires { first + size (forest_of nodes.now) ≤ number_limit }
    ensures { result ≡ first + size (forest_of nodes.now) }
{
    let mut next = first;
    for node in nodes {
        next = number_after(next + 1, node.children());
    }
    next
}
