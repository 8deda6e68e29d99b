// What is seen where siblings have changed at one place: all else is shared with what was seen before.
ghost use Rattle.std.specs.Prelude.{ℕ, ◌≡◌, ◌≤◌, IfOk, IfSome, OnOk, map, true};
ghost use Rattle.std.specs.Bool.{Decides};
ghost use Rattle.spec_document.specs.Forest as forest;
ghost use Rattle.spec_document.specs.Forest.{Forest, followed};
ghost use Rattle.spec_edit.specs.Splice.{children_changed, content_replaced, first_siblings, later_siblings, replaced, sibling_count};
ghost use Rattle.spec_seen.specs.Seen as spec;
ghost use Rattle.xt_syntax.specs.SheetView.{space_rule_of};
ghost use Rattle.xt_strip.specs.Along.{IsSameInside, one_shown, shown_count};
ghost use Rattle.xt_strip.specs.View.{around_of, changed};
ghost use Rattle.xt_tree.specs.View.{content_of, forest_of, tree_of};

use crate::walk::{Around, around_in, is_stripped, seen_among, shared};
use std::alloc::Global;
use std::rc::Rc;
use xt_syntax::SpaceRule;
use xt_text::Memory;
use xt_tree::{Content, Node, Nodes};

/// What siblings have become.
#[derive(Clone, Copy)]
pub(crate) enum Change<'a> {
    /// Others stand in place of those from one index up to, but not including, another.
    Others {
        from: usize,
        to: usize,
        others: &'a [Rc<Node>],
    },
    /// The one at this position, from 1, has the content of this node, and all below it.
    Content {
        position: u64,
        node: &'a Rc<Node>,
    },
}

/// What is seen of siblings that have changed below the node that the positions lead to, by what was seen of them before.
/// All else is shared. None where that is not told. The cost is the widths of the lists of children on the way, as
/// pointers, and what there is of the others.
#[cycle(along)]
pub(crate) fn along(
    alloc: Global,
    rules: &[SpaceRule],
    around: &Around,
    before: &[Rc<Node>],
    seen: &[Rc<Node>],
    path: &[u64],
    change: &Change<'_>,
) -> Result<Option<Nodes>, Memory>
    ensures { forest_of seen.now ≡ spec.seen_among (map space_rule_of rules.now) (around_of around.now) (forest_of before.now)
        → IfOk result (λ found. IfSome found (λ nodes.
        nodes ≡ spec.seen_among (map space_rule_of rules.now) (around_of around.now) (children_changed (changed change.now) path.now (forest_of before.now)))) }
{
    let Some((position, way)) = path.split_first() else {
        return here(alloc, rules, around, before, seen, change);
    };
    if *position == 0 {
        return Ok(None);
    }
    let index = (*position - 1) as usize;
    let count = count_shown(around, first(before, index));
    let Some((node, _)) = later(before, index).split_first() else {
        return Ok(None);
    };
    let Some((own, behind)) = later(seen, count).split_first() else {
        return Ok(None);
    };
    match below(alloc, rules, around, node, own, way, change)? {
        None => Ok(None),
        Some(children) => {
            let nodes = with_own(alloc, first(seen, count), own, children, behind)?;
            Ok(Some(nodes))
        }
    }
}

// The same of what stands below a node, which was seen as another.
#[cycle(along)]
fn below(
    alloc: Global,
    rules: &[SpaceRule],
    around: &Around,
    node: &Node,
    own: &Node,
    path: &[u64],
    change: &Change<'_>,
) -> Result<Option<Nodes>, Memory>
    ensures { (rest behind : Forest ℕ)
        → forest.Node (tree_of own.now).number (tree_of own.now).content (tree_of own.now).children behind
        ≡ spec.seen_among (map space_rule_of rules.now) (around_of around.now) (forest.Node (tree_of node.now).number (tree_of node.now).content (tree_of node.now).children rest)
        → IfOk result (λ found. IfSome found (λ children.
        forest.Node (tree_of own.now).number (tree_of own.now).content children behind
        ≡ spec.seen_among (map space_rule_of rules.now) (around_of around.now) (forest.Node (tree_of node.now).number (tree_of node.now).content (children_changed (changed change.now) path.now (tree_of node.now).children) rest))) }
{
    match node.content() {
        Content::Element { name, attributes } => {
            let inside = around_in(alloc, rules, around, name.as_str(), attributes.as_slice())?;
            along(
                alloc,
                rules,
                &inside,
                node.children(),
                own.children(),
                path,
                change,
            )
        }
        Content::Text { .. } => Ok(None),
        Content::Comment { .. } => Ok(None),
        Content::Instruction { .. } => Ok(None),
    }
}

// What is seen of siblings that have changed themselves.
fn here(
    alloc: Global,
    rules: &[SpaceRule],
    around: &Around,
    before: &[Rc<Node>],
    seen: &[Rc<Node>],
    change: &Change<'_>,
) -> Result<Option<Nodes>, Memory>
    ensures { forest_of seen.now ≡ spec.seen_among (map space_rule_of rules.now) (around_of around.now) (forest_of before.now)
        → IfOk result (λ found. IfSome found (λ nodes.
        nodes ≡ spec.seen_among (map space_rule_of rules.now) (around_of around.now) (changed change.now (forest_of before.now)))) }
{
    match change {
        Change::Others { from, to, others } => {
            let nodes = with_others(alloc, rules, around, before, seen, *from, *to, others)?;
            Ok(Some(nodes))
        }
        Change::Content { position, node } => {
            with_content(alloc, rules, around, before, seen, *position, node)
        }
    }
}

// What is seen of siblings of which some are others, by what was seen of them before.
fn with_others(
    alloc: Global,
    rules: &[SpaceRule],
    around: &Around,
    before: &[Rc<Node>],
    seen: &[Rc<Node>],
    from: usize,
    to: usize,
    others: &[Rc<Node>],
) -> Result<Nodes, Memory>
    ensures { forest_of seen.now ≡ spec.seen_among (map space_rule_of rules.now) (around_of around.now) (forest_of before.now)
        → IfOk result (λ nodes. nodes ≡ spec.seen_among (map space_rule_of rules.now) (around_of around.now) (replaced from to (forest_of others.now) (forest_of before.now))) }
{
    let from = count_shown(around, first(before, from));
    let to = count_shown(around, first(before, to));
    let mut nodes = Nodes::new(alloc);
    push_all(&mut nodes, first(seen, from))?;
    push_seen(alloc, rules, around, &mut nodes, others)?;
    push_all(&mut nodes, later(seen, to))?;
    Ok(nodes)
}

// What is seen of siblings of which the one at this position has the content of another node. None where that is seen
// otherwise, or what is inside it may be.
fn with_content(
    alloc: Global,
    rules: &[SpaceRule],
    around: &Around,
    before: &[Rc<Node>],
    seen: &[Rc<Node>],
    position: u64,
    other: &Rc<Node>,
) -> Result<Option<Nodes>, Memory>
    ensures { forest_of seen.now ≡ spec.seen_among (map space_rule_of rules.now) (around_of around.now) (forest_of before.now)
        → IfOk result (λ found. IfSome found (λ nodes.
        nodes ≡ spec.seen_among (map space_rule_of rules.now) (around_of around.now) (content_replaced position (tree_of other.now.value).content (forest_of before.now)))) }
{
    if position == 0 {
        return Ok(None);
    }
    let index = (position - 1) as usize;
    let count = count_shown(around, first(before, index));
    let Some((node, _)) = later(before, index).split_first() else {
        return Ok(None);
    };
    let Some((own, behind)) = later(seen, count).split_first() else {
        return Ok(None);
    };
    if !has_same_number(own, other) {
        return Ok(None);
    }
    let is_same = has_same_inside(alloc, rules, around, node, other)?;
    if !is_same {
        return Ok(None);
    }
    let children = shared_below(alloc, own)?;
    let nodes = with_own(alloc, first(seen, count), other, children, behind)?;
    Ok(Some(nodes))
}

/// Whether both have the same number.
pub(crate) fn has_same_number(one: &Rc<Node>, other: &Rc<Node>) -> bool
    ensures { Decides result ((tree_of one.now.value).number ≡ (tree_of other.now.value).number) }
{
    one.id().number == other.id().number
}

fn shared_below(alloc: Global, node: &Rc<Node>) -> Result<Nodes, Memory>
    ensures { IfOk result (λ nodes. nodes ≡ (tree_of node.now.value).children) }
{
    shared(alloc, node.children())
}

// Whether both are elements with the same namespaces in scope, and white space is treated the same inside them.
fn has_same_inside(
    alloc: Global,
    rules: &[SpaceRule],
    around: &Around,
    node: &Rc<Node>,
    other: &Rc<Node>,
) -> Result<bool, Memory>
    ensures { IfOk result (λ same. same ≡ true
        → IsSameInside (map space_rule_of rules.now) (around_of around.now) (tree_of node.now.value).content (tree_of other.now.value).content) }
{
    has_same_around(alloc, rules, around, node.content(), other.content())
}

fn has_same_around(
    alloc: Global,
    rules: &[SpaceRule],
    around: &Around,
    old: &Content,
    new: &Content,
) -> Result<bool, Memory>
    ensures { IfOk result (λ same. same ≡ true → IsSameInside (map space_rule_of rules.now) (around_of around.now) (content_of old.now) (content_of new.now)) }
{
    match old {
        Content::Element { name, attributes } => match new {
            Content::Element {
                name: own,
                attributes: others,
            } => {
                let old = around_in(alloc, rules, around, name.as_str(), attributes.as_slice())?;
                let new = around_in(alloc, rules, around, own.as_str(), others.as_slice())?;
                Ok(old.same(&new))
            }
            Content::Text { .. } => Ok(false),
            Content::Comment { .. } => Ok(false),
            Content::Instruction { .. } => Ok(false),
        },
        Content::Text { .. } => Ok(false),
        Content::Comment { .. } => Ok(false),
        Content::Instruction { .. } => Ok(false),
    }
}

// Adds what is seen of these siblings.
fn push_seen(
    alloc: Global,
    rules: &[SpaceRule],
    around: &Around,
    nodes: &mut Nodes,
    siblings: &[Rc<Node>],
) -> Result<(), Memory>
    ensures { OnOk result (nodes.new ≡ followed nodes.old (spec.seen_among (map space_rule_of rules.now) (around_of around.now) (forest_of siblings.now))) }
{
    match seen_among(alloc, rules, around, siblings)? {
        None => push_all(nodes, siblings),
        Some(seen) => push_all(nodes, seen.list()),
    }
}

// Siblings between others, with these children.
fn with_own(
    alloc: Global,
    front: &[Rc<Node>],
    own: &Rc<Node>,
    children: Nodes,
    behind: &[Rc<Node>],
) -> Result<Nodes, Memory>
    ensures { IfOk result (λ nodes. nodes
        ≡ followed (forest_of front.now) (forest.Node (tree_of own.now.value).number (tree_of own.now.value).content children (forest_of behind.now))) }
{
    let mut nodes = Nodes::new(alloc);
    let Ok(()) = push_all(&mut nodes, front) else {
        drop(children);
        return Err(Memory);
    };
    nodes.push_like(alloc, own, children)?;
    push_all(&mut nodes, behind)?;
    Ok(nodes)
}

// Adds these siblings. They are shared.
fn push_all(nodes: &mut Nodes, siblings: &[Rc<Node>]) -> Result<(), Memory>
    ensures { OnOk result (nodes.new ≡ followed nodes.old (forest_of siblings.now)) }
{
    for sibling in siblings {
        nodes.push_shared(sibling)?;
    }
    Ok(())
}

// How many of these siblings are seen.
fn count_shown(around: &Around, siblings: &[Rc<Node>]) -> usize
    ensures { result ≡ shown_count (around_of around.now) (forest_of siblings.now) }
{
    let mut count = 0;
    for sibling in siblings {
        count += one_shown(around, sibling.content());
    }
    count
}

fn one_shown(around: &Around, content: &Content) -> usize
    ensures { result ≡ one_shown (around_of around.now) (content_of content.now) }
{
    match content {
        Content::Text { text } => { if is_stripped(around, text) { 0 } else { 1 } }
        Content::Element { .. } => 1,
        Content::Comment { .. } => 1,
        Content::Instruction { .. } => 1,
    }
}

/// What stands in place of the siblings from one index up to another, where others take their place.
pub(crate) fn between<'a>(
    before: &[Rc<Node>],
    after: &'a [Rc<Node>],
    from: usize,
    to: usize,
) -> &'a [Rc<Node>]
    ensures { (others : Forest ℕ) → forest_of after.now ≡ replaced from to others (forest_of before.now) → from ≤ sibling_count (forest_of before.now)
        → forest_of result.now ≡ others }
{
    let behind = before.len().saturating_sub(to);
    let count = after.len().saturating_sub(from).saturating_sub(behind);
    first(later(after, from), count)
}

// The first of these siblings, so many or all.
fn first(siblings: &[Rc<Node>], count: usize) -> &[Rc<Node>]
    ensures { forest_of result.now ≡ first_siblings count (forest_of siblings.now) }
{
    &siblings[..count.min(siblings.len())]
}

/// The others.
pub(crate) fn later(siblings: &[Rc<Node>], count: usize) -> &[Rc<Node>]
    ensures { forest_of result.now ≡ later_siblings count (forest_of siblings.now) }
{
    &siblings[count.min(siblings.len())..]
}
