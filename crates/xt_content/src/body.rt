// The children of an element.
ghost use Rattle.std.specs.Prelude.{◌≡◌, IfOk, map};
ghost use Rattle.spec_compile.specs.Content as spec;
ghost use Rattle.spec_structure.specs.Inside as scopes;
ghost use Rattle.spec_structure.specs.Structure.{after_role};
ghost use Rattle.spec_structure.specs.declared.content.ContentKind.TheVariants as content;
ghost use Rattle.xt_content.specs.Sibling.{alone};
ghost use Rattle.xt_content.specs.View.{IsAnswer, around_in, below_in, child_if, child_in, visit_in};
ghost use Rattle.xt_content.specs.Visit as visits;
ghost use Rattle.xt_structure.specs.View.{in_force, role_in};
ghost use Rattle.xt_tree.specs.View.{forest_of, tree_of, written_of};

use crate::around::{Around, around_of, site_of};
use crate::child::{Below, Child, One};
use crate::fault::ContentFault;
use crate::instruction::instruction;
use crate::met::{content_by, element_of, meet};
use spec_structure::{ContentKind, XsltElement};
use std::alloc::Global;
use std::rc::Rc;
use xt_structure::{
    Inside, Role, after_other, after_role, below, inside_of, is_white, role_of, takes_literals,
};
use xt_syntax::{Form, WithoutContent};
use xt_text::{Memory, Path, Text};
use xt_tree::{Content, Node, Written};

/// What one node is to the element that holds it, and what may stand after it.
#[derive(Drop)]
pub(crate) struct Visited {
    pub(crate) one: One,
    pub(crate) next: ContentKind,
}

// ---- Texts

fn is_leading(element: XsltElement, kind: ContentKind) -> bool
    ensures { result ≡ spec.is_leading element kind }
{
    match kind {
        ContentKind::Params => matches!(element, XsltElement::Param),
        ContentKind::Sorts => matches!(element, XsltElement::Sort),
        _ => false,
    }
}

fn is_leading_role(kind: ContentKind, role: &Role<'_>) -> bool
    ensures { result ≡ spec.is_leading_role kind (role_in role.now) }
{
    match role {
        Role::OfXslt(None) => false,
        Role::OfXslt(Some(element)) => is_leading(*element, kind),
        Role::OfExtension => false,
        Role::OfOther(_) => false,
    }
}

fn is_leading_node(
    alloc: Global,
    inside: &Inside,
    kind: ContentKind,
    node: &Node,
) -> Result<bool, Memory>
    ensures { IfOk result (λ leads. leads ≡ visits.is_leading_content (in_force inside.now) kind (tree_of node.now).content) }
{
    match node.content() {
        Content::Element { name, attributes } => {
            let inner = inside_of(alloc, inside, name.as_str(), attributes.as_slice())?;
            Ok(is_leading_role(kind, &role_of(&inner, name.as_str())))
        }
        Content::Text { .. } => Ok(false),
        Content::Comment { .. } => Ok(false),
        Content::Instruction { .. } => Ok(false),
    }
}

// Whether one of these siblings is an xsl:param of a template or an xsl:sort of an xsl:for-each.
fn leads(
    alloc: Global,
    inside: &Inside,
    kind: ContentKind,
    siblings: &[Rc<Node>],
) -> Result<bool, Memory>
    ensures { IfOk result (λ leads. leads ≡ spec.leads (in_force inside.now) kind (forest_of siblings.now)) }
{
    for sibling in siblings {
        if is_leading_node(alloc, inside, kind, sibling)? {
            return Ok(true);
        }
    }
    Ok(false)
}

// Whether a text before these siblings is an instruction.
fn is_content(
    alloc: Global,
    inside: &Inside,
    kind: ContentKind,
    text: &Text,
    later: &[Rc<Node>],
) -> Result<bool, Memory>
    ensures { IfOk result (λ is. is ≡ visits.is_content (in_force inside.now) kind text.now (forest_of later.now)) }
{
    if !takes_literals(kind) {
        return Ok(false);
    }
    if !is_white(text) {
        return Ok(true);
    }
    if !inside.preserves {
        return Ok(false);
    }
    Ok(!leads(alloc, inside, kind, later)?)
}

fn text_instruction(
    alloc: Global,
    around: &Around,
    path: &Path,
    text: &Text,
) -> Result<Child, Memory>
    ensures { IfOk result (λ child. child_in child ≡ visits.text_instruction (around_in around.now) path.now text.now) }
{
    let text = text.copy(alloc)?;
    let site = site_of(alloc, around, path)?;
    let form = Form::WithoutContent(WithoutContent::Text(text, false));
    Ok(instruction(site, form))
}

// What a text before these siblings is to the element at this path.
fn text_child(
    alloc: Global,
    around: &Around,
    kind: ContentKind,
    path: &Path,
    text: &Text,
    later: &[Rc<Node>],
) -> Result<Option<Child>, Memory>
    ensures { IfOk result (λ child. child_if child ≡ spec.text_child (around_in around.now) kind path.now text.now (forest_of later.now)) }
{
    if is_content(alloc, &around.inside, kind, text, later)? {
        Ok(Some(text_instruction(alloc, around, path, text)?))
    } else {
        Ok(None)
    }
}

fn after_text(kind: ContentKind, text: &Text) -> ContentKind
    ensures { result ≡ visits.after_text kind text.now }
{
    if is_white(text) {
        kind
    } else {
        after_other(kind)
    }
}

fn visit_text(
    alloc: Global,
    around: &Around,
    kind: ContentKind,
    path: &Path,
    text: &Text,
    later: &[Rc<Node>],
) -> Result<Visited, Memory>
    ensures { IfOk result (λ visit. visit_in visit ≡ visits.text_visited (around_in around.now) kind path.now text.now (forest_of later.now)) }
{
    let child = text_child(alloc, around, kind, path, text, later)?;
    Ok(Visited {
        one: One {
            child,
            element: None,
        },
        next: after_text(kind, text),
    })
}

fn visit_nothing(kind: ContentKind) -> Visited
    ensures { visit_in result ≡ visits.nothing_visited kind }
{
    Visited {
        one: One {
            child: None,
            element: None,
        },
        next: kind,
    }
}

// ---- Nodes

fn next_kind(kind: ContentKind, inside: &Inside, name: &Text) -> ContentKind
    ensures { result ≡ after_role kind (scopes.role_of (in_force inside.now) name.now) }
{
    after_role(kind, &role_of(inside, name.as_str()))
}

// What the node that has this position below the element at this path is, before these siblings.
#[cycle(children_among)]
fn visit(
    alloc: Global,
    around: &Around,
    kind: ContentKind,
    path: &Path,
    position: u64,
    node: &Node,
    later: &[Rc<Node>],
) -> Result<Visited, ContentFault>
    ensures { IsAnswer visit_in (visits.visited (around_in around.now) kind path.now position (forest_of later.now) (tree_of node.now).content (tree_of node.now).children) result }
{
    match node.content() {
        Content::Element { name, attributes } => {
            let here = below(alloc, path, position)?;
            let inner = around_of(alloc, around, name, attributes.as_slice())?;
            let written = attributes.as_slice();
            visit_element(alloc, &inner, kind, &here, name, written, node.children())
        }
        Content::Text { text } => Ok(visit_text(alloc, around, kind, path, text, later)?),
        Content::Comment { .. } => Ok(visit_nothing(kind)),
        Content::Instruction { .. } => Ok(visit_nothing(kind)),
    }
}

// What the element of this name and these attributes at this path is, with these nodes in it, where `inner` is in force.
#[cycle(children_among)]
fn visit_element(
    alloc: Global,
    inner: &Around,
    kind: ContentKind,
    here: &Path,
    name: &Text,
    attributes: &[Written],
    nodes: &[Rc<Node>],
) -> Result<Visited, ContentFault>
    ensures { IsAnswer visit_in (visits.element_visited (around_in inner.now) kind here.now name.now (map written_of attributes.now) (forest_of nodes.now) (scopes.role_of (in_force inner.now.inside) name.now)) result }
{
    let next = next_kind(kind, &inner.inside, name);
    let met = meet(alloc, inner, here, name, attributes)?;
    match content_by(&met) {
        None => {
            drop(met);
            Ok(visit_nothing(next))
        }
        Some(kind) => {
            let found = children_among(alloc, inner, kind, here, nodes)?;
            let one = element_of(alloc, inner, here, met, nodes, found)?;
            Ok(Visited { one, next })
        }
    }
}

/// What these siblings are to the element at this path, where such contents may stand.
///
/// Errors: want of memory; the first element in document order with a value that cannot be read.
#[cycle(children_among)]
pub fn children_among(
    alloc: Global,
    around: &Around,
    kind: ContentKind,
    path: &Path,
    siblings: &[Rc<Node>],
) -> Result<Below, ContentFault>
    ensures { IsAnswer below_in (spec.children_among (around_in around.now) kind path.now 1 (forest_of siblings.now)) result }
{
    let mut found = Below::new(alloc);
    let mut kind = kind;
    for (i, sibling) in siblings.iter().enumerate() {
        let visit = visit(
            alloc,
            around,
            kind,
            path,
            i as u64 + 1,
            sibling,
            &siblings[i + 1..],
        )?;
        found.push(visit.one)?;
        kind = visit.next;
    }
    Ok(found)
}

/// What the node of this position below the element at this path is, without its siblings, where the content of a
/// template may stand.
///
/// Errors: want of memory; the first element in document order with a value that cannot be read.
pub fn content_at(
    alloc: Global,
    around: &Around,
    path: &Path,
    position: u64,
    node: &Node,
) -> Result<Below, ContentFault>
    ensures { IsAnswer below_in (spec.children_among (around_in around.now) content.Body path.now position (alone (tree_of node.now))) result }
{
    let visit = visit(alloc, around, ContentKind::Body, path, position, node, &[])?;
    let mut found = Below::new(alloc);
    found.push(visit.one)?;
    Ok(found)
}
