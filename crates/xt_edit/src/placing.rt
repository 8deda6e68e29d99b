// Nodes that come to another parent: their faults there, and how they stand there.
ghost use Rattle.std.specs.Prelude.{◌≡◌, ◌+◌, ◌≤◌, ◌==◌, false, nat_lt, IfOk, if◌then◌else◌};
ghost use Rattle.std.specs.List.{list_all};
ghost use Rattle.spec_document.specs.Character as characters;
ghost use Rattle.spec_document.specs.Document.{elements_beside};
ghost use Rattle.spec_document.specs.Fault.{fault_if, least};
ghost use Rattle.spec_document.specs.Forest.{height, size};
ghost use Rattle.spec_document.specs.NodeFaults.{greatest_depth};
ghost use Rattle.spec_document.specs.Numbering.{number_limit};
ghost use Rattle.spec_document.specs.Top.{top_faults};
ghost use Rattle.xt_edit.specs.Finding.{at_no_line};
ghost use Rattle.xt_edit.specs.Moving.{Stand, tree_in};
ghost use Rattle.xt_edit.specs.Placing as spec;
ghost use Rattle.xt_edit.specs.Placing.{HasRoom, faults_in, leaf, branch_faults_in, placed_in};
ghost use Rattle.xt_tree.specs.View.{content_of, forest_of, tree_of};

use crate::attributes::attributes_copied;
use crate::carrying::node_alone;
use crate::check::{nodes_fault, sooner, tree_fault};
use crate::kind::{is_element, is_text};
use crate::relocation::Ends;
use crate::renewal::number_after;
use crate::site::depth_below;
use std::alloc::Global;
use std::rc::Rc;
use xt_base::EditCode;
use xt_build::Parent;
use xt_text::{Memory, Text, is_space};
use xt_tree::{Content, Doc, Node, NodeId, Nodes};

// The levels of nodes that a document may have: one more than an element may be deep.
const GREATEST_HEIGHT: u64 = 257;

/// The least fault of the node at its new place, with what is below it: where they keep their numbers or not.
pub(crate) fn move_fault(
    alloc: Global,
    document: &Doc,
    ends: Ends<'_>,
    keeps: bool,
    first: NodeId,
) -> Result<Option<EditCode>, Memory>
    requires { Stand document.now ends }
    ensures { IfOk result (λ found. at_no_line found ≡ least (faults_in document.now keeps first.number ends.entry)) }
{
    let node = ends.site.node;
    let own = branch_fault(alloc, document, ends, keeps, first)?;
    let top = top_fault(ends.to.parent, node.content());
    let depth = ends.to.spot.parent.len() as u64;
    let height = height_fault(depth, node);
    Ok(sooner(top, sooner(own, height)))
}

// The same but for what may stand directly below a root and for the height.
fn branch_fault(
    alloc: Global,
    document: &Doc,
    ends: Ends<'_>,
    keeps: bool,
    first: NodeId,
) -> Result<Option<EditCode>, Memory>
    requires { Stand document.now ends }
    ensures { IfOk result (λ found. at_no_line found ≡ least (branch_faults_in document.now keeps first.number ends.entry)) }
{
    let around = document.scope_at(alloc, ends.to.spot.parent)?;
    let depth = depth_below(ends.to.spot.parent);
    let content = ends.site.node.content();
    let children = ends.site.node.children();
    if gets_numbers(keeps, ends.to.parent, content) {
        tree_fault(alloc, &around, depth, first.number, content, children)
    } else {
        nodes_fault(alloc, &around, depth, content, children)
    }
}

// Whether the node is made anew.
fn gets_numbers(keeps: bool, parent: Parent, content: &Content) -> bool
    ensures { result ≡ spec.gets_numbers keeps (elements_beside parent) (content_of content.now) }
{
    if keeps {
        return false;
    }
    !is_dropped(parent, content)
}

// Whether the node does not stand there: white space directly below a root.
fn is_dropped(parent: Parent, content: &Content) -> bool
    ensures { result ≡ spec.is_dropped (elements_beside parent) (content_of content.now) }
{
    match parent {
        Parent::Root { .. } => is_text(content),
        Parent::Element { .. } => false,
    }
}

// 9 where the document would not have exactly one document element, or text directly below the root that is not white
// space.
fn top_fault(parent: Parent, content: &Content) -> Option<EditCode>
    ensures { at_no_line result ≡ least (top_faults (elements_beside parent) (leaf (content_of content.now))) }
{
    match parent {
        Parent::Element { .. } => None,
        Parent::Root { elements } => {
            if is_one(elements, is_element(content)) && is_silent(content) {
                None
            } else {
                Some(EditCode::Unbalanced)
            }
        }
    }
}

fn is_one(others: u64, one_more: bool) -> bool
    ensures { result ≡ (others + (if one_more then 1 else 0) == 1) }
{
    if one_more { others == 0 } else { others == 1 }
}

// Whether it is no text but white space.
fn is_silent(content: &Content) -> bool
    ensures { result ≡ spec.is_silent (content_of content.now) }
{
    match content {
        Content::Text { text } => is_white(text),
        Content::Element { .. } | Content::Comment { .. } | Content::Instruction { .. } => true,
    }
}

fn is_white(text: &Text) -> bool
    ensures { result ≡ list_all characters.is_space text.now }
{
    text.as_str().chars().all(|character| is_space(character))
}

// 11 for a node more than one level below the deepest that an element may be.
fn height_fault(depth: u64, node: &Node) -> Option<EditCode>
    ensures { at_no_line result ≡ least (fault_if (nat_lt (greatest_depth + 1) (depth + height (tree_in node.now))) 11 0) }
{
    let room = GREATEST_HEIGHT.saturating_sub(depth);
    if room == 0 || is_higher(node.children(), room - 1) {
        Some(EditCode::TooDeep)
    } else {
        None
    }
}

// Whether siblings with what is below them have more levels than these.
fn is_higher(siblings: &[Rc<Node>], levels: u64) -> bool
    ensures { result ≡ nat_lt levels (height (forest_of siblings.now)) }
{
    for sibling in siblings {
        if levels == 0 || is_higher(sibling.children(), levels - 1) {
            return true;
        }
    }
    false
}

/// The node as it stands at its new place.
pub(crate) fn placed(
    alloc: Global,
    document: &Doc,
    ends: Ends<'_>,
    keeps: bool,
    first: NodeId,
) -> Result<Nodes, Memory>
    requires stand { Stand document.now ends }
    requires room { HasRoom keeps first.number ends }
    ensures { IfOk result (λ nodes. nodes ≡ (placed_in keeps first.number ends.entry).nodes) }
{
    let node = ends.site.node;
    if is_dropped(ends.to.parent, node.content()) {
        return Ok(Nodes::new(alloc));
    }
    if keeps {
        return node_alone(alloc, document, ends.site);
    }
    let content = content_copied(alloc, node.content())?;
    Nodes::renewed(alloc, first.number, content, node.children())
}

fn content_copied(alloc: Global, content: &Content) -> Result<Content, Memory>
    ensures { IfOk result (λ copy. content_of copy ≡ content_of content.now) }
{
    match content {
        Content::Element { name, attributes } => {
            let attributes = attributes_copied(alloc, attributes.as_slice())?;
            Ok(Content::Element {
                name: name.copy(alloc)?,
                attributes,
            })
        }
        Content::Text { text } => Ok(Content::Text {
            text: text.copy(alloc)?,
        }),
        Content::Comment { text } => Ok(Content::Comment {
            text: text.copy(alloc)?,
        }),
        Content::Instruction { target, text } => Ok(Content::Instruction {
            target: target.copy(alloc)?,
            text: text.copy(alloc)?,
        }),
    }
}

/// The first number that no node has had, once these nodes stand there.
pub(crate) fn next_after(keeps: bool, first: NodeId, nodes: &[Rc<Node>]) -> NodeId
    requires { keeps ≡ false → 1 ≤ size (forest_of nodes.now) → first.number + size (forest_of nodes.now) ≤ number_limit }
    ensures { result.number ≡ (if keeps then first.number else first.number + size (forest_of nodes.now)) }
{
    if keeps {
        return first;
    }
    if nodes.is_empty() {
        return first;
    }
    NodeId {
        number: number_after(first.number, nodes),
    }
}
