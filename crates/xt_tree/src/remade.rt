// Nodes that are made from others, and share what stays as it is.
ghost use Rattle.std.specs.Prelude.{◌≡◌, ◌+◌, ◌<◌, ◌≤◌, ◌∷◌, [], length, IfOk, OnOk};
ghost use Rattle.std.specs.Option.{option_map};
ghost use Rattle.spec_document.specs.Forest as spec;
ghost use Rattle.spec_document.specs.Forest.{size};
ghost use Rattle.spec_document.specs.Numbering.{number_limit};
ghost use Rattle.spec_edit.specs.Splice.{children_changed, content_replaced};
ghost use Rattle.xt_tree.specs.Remade.{MeetsAs, joined_texts, with_tree};
ghost use Rattle.xt_tree.specs.View.{content_of, forest_of, tree_of};

use crate::doc::node;
use crate::find::sibling_at;
use crate::indexed::Indexed;
use crate::{Content, Node, NodeId, Nodes};
use std::alloc::Global;
use std::rc::Rc;
use xt_text::Memory;

/// The text that the last of these siblings and the next node make together, where both are texts: it is to stand
/// in place of the last.
pub fn meeting(
    alloc: Global,
    siblings: &[Rc<Node>],
    next: &Node,
) -> Result<Option<Rc<Node>>, Memory>
    ensures { IfOk result (λ joined. MeetsAs siblings.now (tree_of next.now) joined) }
{
    match siblings.split_last() {
        None => Ok(None),
        Some((last, _)) => joined(alloc, last, next),
    }
}

// The text that two nodes make together, where both are texts.
fn joined(alloc: Global, first: &Node, second: &Node) -> Result<Option<Rc<Node>>, Memory>
    ensures { IfOk result (λ joined. option_map (λ node. tree_of node.value) joined
        ≡ option_map (λ content. record { number = (tree_of first.now).number; content = content; children = (tree_of first.now).children })
        (joined_texts (tree_of first.now).content (tree_of second.now).content)) }
{
    match joined_text(alloc, first.content(), second.content())? {
        None => Ok(None),
        Some(content) => {
            let indexed = Indexed::new(alloc, content)?;
            let content = Rc::new(alloc, indexed)?;
            let children = shared(alloc, first.children())?;
            Ok(Some(Rc::new(alloc, node(first.id, content, children))?))
        }
    }
}

// The same of their contents.
fn joined_text(alloc: Global, first: &Content, second: &Content) -> Result<Option<Content>, Memory>
    ensures { IfOk result (λ joined. option_map content_of joined ≡ joined_texts (content_of first.now) (content_of second.now)) }
{
    match (first, second) {
        (Content::Text { text }, Content::Text { text: more }) => {
            let mut both = text.copy(alloc)?;
            both.push_str(more.as_str())?;
            Ok(Some(Content::Text { text: both }))
        }
        _ => Ok(None),
    }
}

/// These siblings and all below them made anew, with numbers in document order from the next one on.
pub fn numbered(alloc: Global, siblings: &[Rc<Node>], next: &mut u64) -> Result<Nodes, Memory>
    requires { next.old + size (forest_of siblings.now) ≤ number_limit }
    ensures next { OnOk result (next.new ≡ next.old + size (forest_of siblings.now)) }
    ensures nodes { IfOk result (λ nodes. nodes ≡ spec.numbered next.old (forest_of siblings.now)) }
{
    let mut nodes = Nodes::new(alloc);
    for sibling in siblings {
        let id = NodeId { number: *next };
        *next += 1;
        let below = numbered(alloc, sibling.children.as_slice(), next)?;
        nodes.push_sharing(alloc, id, sibling.content.clone()?, below)?;
    }
    Ok(nodes)
}

/// These siblings, but that the node at the position below the node that the positions lead to has this content.
pub fn with_content(
    alloc: Global,
    siblings: &[Rc<Node>],
    parent: &[u64],
    position: u64,
    content: &Rc<Indexed>,
) -> Result<Vec<Rc<Node>>, Memory>
    ensures { IfOk result (λ list. forest_of list.items
        ≡ children_changed (content_replaced position (content_of content.now.value)) parent.now (forest_of siblings.now)) }
{
    match parent.split_first() {
        None => with_own_content(alloc, siblings, position, content),
        Some((first, rest)) => match sibling_at(siblings, *first) {
            None => shared(alloc, siblings),
            Some(found) => {
                let children = with_content(alloc, found.children(), rest, position, content)?;
                let made = node(found.id, found.content.clone()?, children);
                with_node(alloc, siblings, *first, made)
            }
        },
    }
}

// These siblings, but that the one at the position has this content.
fn with_own_content(
    alloc: Global,
    siblings: &[Rc<Node>],
    position: u64,
    content: &Rc<Indexed>,
) -> Result<Vec<Rc<Node>>, Memory>
    ensures { IfOk result (λ list. forest_of list.items ≡ content_replaced position (content_of content.now.value) (forest_of siblings.now)) }
{
    match sibling_at(siblings, position) {
        None => shared(alloc, siblings),
        Some(found) => {
            let children = shared(alloc, found.children())?;
            let made = node(found.id, content.clone()?, children);
            with_node(alloc, siblings, position, made)
        }
    }
}

/// These siblings, but that this node stands at the position, from 1.
pub fn with_node(
    alloc: Global,
    siblings: &[Rc<Node>],
    position: u64,
    node: Node,
) -> Result<Vec<Rc<Node>>, Memory>
    requires { (0 < position) × (position ≤ length siblings.now) }
    ensures { IfOk result (λ list. forest_of list.items ≡ with_tree position (tree_of node) (forest_of siblings.now)) }
{
    let made = Rc::new(alloc, node)?;
    let mut list = Vec::from_clones(alloc, siblings)?;
    list[(position - 1) as usize] = made;
    Ok(list)
}

/// Pointers to the same siblings.
pub fn shared(alloc: Global, siblings: &[Rc<Node>]) -> Result<Vec<Rc<Node>>, Memory>
    ensures { IfOk result (λ list. forest_of list.items ≡ forest_of siblings.now) }
{
    Ok(Vec::from_clones(alloc, siblings)?)
}
