// The walk over a document: what is seen of siblings, and of all below them.
ghost use Rattle.std.specs.Prelude.{ℕ, ◌≡◌, ◌&&◌, ◌∷◌, [], IfOk, map, if◌then◌else◌};
ghost use Rattle.std.specs.Bool.{Decides};
ghost use Rattle.std.specs.Option.{unwrap_or};
ghost use Rattle.std.specs.Str.{chars};
ghost use Rattle.spec_document.specs.Forest as forest;
ghost use Rattle.spec_document.specs.Forest.{Forest, followed};
ghost use Rattle.spec_seen.specs.Seen as spec;
ghost use Rattle.spec_structure.specs.Inside.{is_white};
ghost use Rattle.xt_syntax.specs.SheetView.{space_rule_of};
ghost use Rattle.xt_strip.specs.View.{around_of, before};
ghost use Rattle.xt_tree.specs.View.{Tree, forest_of, tree_of, written_of};

use crate::rule::strips;
use std::alloc::Global;
use std::rc::Rc;
use xt_names::Scope;
use xt_structure::{is_white, preserves_within, scope_within};
use xt_syntax::SpaceRule;
use xt_text::{Memory, Text};
use xt_tree::{Content, Node, Nodes, Written};

/// Where siblings stand.
#[derive(Drop)]
pub(crate) struct Around {
    /// The namespaces in scope.
    scope: Scope,
    /// Whether xml:space preserves white space.
    preserves: bool,
    /// Whether texts of white space are stripped.
    strips: bool,
}

impl Around {
    /// At the root of a document.
    pub(crate) fn root(alloc: Global) -> Result<Around, Memory>
        ensures { IfOk result (λ around. around_of around ≡ spec.at_root) }
    {
        Ok(Around {
            scope: Scope::root(alloc)?,
            preserves: false,
            strips: false,
        })
    }

    /// Whether both are the same. Takes no memory.
    pub(crate) fn same(&self, other: &Around) -> bool
        ensures { Decides result (around_of self.now ≡ around_of other.now) }
    {
        self.scope.same(&other.scope)
            && self.preserves == other.preserves
            && self.strips == other.strips
    }
}

/// Below an element of this name with these attributes.
pub(crate) fn around_in(
    alloc: Global,
    rules: &[SpaceRule],
    outer: &Around,
    name: &str,
    attributes: &[Written],
) -> Result<Around, Memory>
    ensures { IfOk result (λ around. around_of around ≡ spec.around_in (map space_rule_of rules.now) (around_of outer.now) (chars name.now) (map written_of attributes.now)) }
{
    let scope = scope_within(alloc, &outer.scope, attributes)?;
    let preserves = preserves_within(&scope, outer.preserves, attributes);
    Ok(around_by(rules, scope, preserves, name))
}

fn around_by(rules: &[SpaceRule], scope: Scope, preserves: bool, name: &str) -> Around
    ensures { around_of result ≡ spec.around_by (map space_rule_of rules.now) scope preserves (chars name.now) }
{
    let strips = !preserves && strips(rules, &scope, name);
    Around {
        scope,
        preserves,
        strips,
    }
}

/// What is seen of a node.
#[derive(Drop)]
pub(crate) enum Sight {
    /// All of it.
    Whole,
    /// Nothing: it is a text that is stripped.
    Nothing,
    /// The node, with these below it.
    With(Nodes),
}

// What is seen of a text.
fn text_seen(around: &Around, text: &Text) -> Sight
    ensures { (node : Tree) (siblings : Forest ℕ) → before result node siblings
        ≡ (if (around_of around.now).strips && is_white text.now then siblings else forest.Node node.number node.content node.children siblings) }
{
    if is_stripped(around, text) {
        Sight::Nothing
    } else {
        Sight::Whole
    }
}

/// Whether this text is stripped.
pub(crate) fn is_stripped(around: &Around, text: &Text) -> bool
    ensures { result ≡ ((around_of around.now).strips && is_white text.now) }
{
    around.strips && is_white(text)
}

// What is seen of an element by what is seen below it.
fn element_seen(below: Option<Nodes>) -> Sight
    ensures { (node : Tree) (siblings : Forest ℕ) → before result node siblings
        ≡ forest.Node node.number node.content (unwrap_or below node.children) siblings }
{
    match below {
        None => Sight::Whole,
        Some(nodes) => Sight::With(nodes),
    }
}

#[cycle(seen_among)]
fn node_seen(
    alloc: Global,
    rules: &[SpaceRule],
    around: &Around,
    node: &Node,
) -> Result<Sight, Memory>
    ensures { IfOk result (λ sight. (siblings : Forest ℕ)
        → before sight (tree_of node.now) (spec.seen_among (map space_rule_of rules.now) (around_of around.now) siblings)
        ≡ spec.seen_among (map space_rule_of rules.now) (around_of around.now) (forest.Node (tree_of node.now).number (tree_of node.now).content (tree_of node.now).children siblings)) }
{
    match node.content() {
        Content::Element { name, attributes } => {
            let inside = around_in(alloc, rules, around, name.as_str(), attributes.as_slice())?;
            let below = seen_among(alloc, rules, &inside, node.children())?;
            Ok(element_seen(below))
        }
        Content::Text { text } => Ok(text_seen(around, text)),
        Content::Comment { .. } => Ok(Sight::Whole),
        Content::Instruction { .. } => Ok(Sight::Whole),
    }
}

/// What is seen of these siblings and of all below them. None where it is all of them.
#[cycle(seen_among)]
pub(crate) fn seen_among(
    alloc: Global,
    rules: &[SpaceRule],
    around: &Around,
    siblings: &[Rc<Node>],
) -> Result<Option<Nodes>, Memory>
    ensures { IfOk result (λ seen. unwrap_or seen (forest_of siblings.now) ≡ spec.seen_among (map space_rule_of rules.now) (around_of around.now) (forest_of siblings.now)) }
{
    let mut seen = None;
    for (i, sibling) in siblings.iter().enumerate() {
        let sight = node_seen(alloc, rules, around, sibling)?;
        seen = with_next(alloc, seen, &siblings[..i], sibling, sight)?;
    }
    Ok(seen)
}

// What is seen of siblings and of the next one.
fn with_next(
    alloc: Global,
    seen: Option<Nodes>,
    earlier: &[Rc<Node>],
    next: &Rc<Node>,
    sight: Sight,
) -> Result<Option<Nodes>, Memory>
    ensures { IfOk result (λ all. unwrap_or all (followed (forest_of earlier.now) (forest_of (next.now ∷ [])))
        ≡ followed (unwrap_or seen (forest_of earlier.now)) (before sight (tree_of next.now.value) forest.Empty)) }
{
    match sight {
        Sight::Whole => with_whole(seen, next),
        Sight::Nothing => {
            let nodes = begun(alloc, seen, earlier)?;
            Ok(Some(nodes))
        }
        Sight::With(children) => {
            let mut nodes = begun(alloc, seen, earlier)?;
            nodes.push_like(alloc, next, children)?;
            Ok(Some(nodes))
        }
    }
}

// What is seen of siblings and of the next one, of which all is seen.
fn with_whole(seen: Option<Nodes>, next: &Rc<Node>) -> Result<Option<Nodes>, Memory>
    ensures { (earlier : Forest ℕ) → IfOk result (λ all. unwrap_or all (followed earlier (forest_of (next.now ∷ [])))
        ≡ followed (unwrap_or seen earlier) (forest_of (next.now ∷ []))) }
{
    match seen {
        None => Ok(None),
        Some(mut nodes) => {
            nodes.push_shared(next)?;
            Ok(Some(nodes))
        }
    }
}

// What is seen of siblings, in a list of its own.
fn begun(alloc: Global, seen: Option<Nodes>, siblings: &[Rc<Node>]) -> Result<Nodes, Memory>
    ensures { IfOk result (λ nodes. nodes ≡ unwrap_or seen (forest_of siblings.now)) }
{
    match seen {
        None => shared(alloc, siblings),
        Some(nodes) => Ok(nodes),
    }
}

/// Siblings, shared.
pub(crate) fn shared(alloc: Global, siblings: &[Rc<Node>]) -> Result<Nodes, Memory>
    ensures { IfOk result (λ nodes. nodes ≡ forest_of siblings.now) }
{
    let mut nodes = Nodes::new(alloc);
    for sibling in siblings {
        nodes.push_shared(sibling)?;
    }
    Ok(nodes)
}
