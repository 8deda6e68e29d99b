// A module: its links, and its first fault.
ghost use Rattle.std.specs.Prelude.{◌≡◌, ◌∷◌, [], IfOk, codes, is_some, map};
ghost use Rattle.spec_document.specs.Forest.{plain};
ghost use Rattle.spec_structure.specs.Inside as inside;
ghost use Rattle.spec_structure.specs.Structure as spec;
ghost use Rattle.xt_structure.specs.View.{faults_in, in_force, links_in, role_in};
ghost use Rattle.xt_structure.specs.Visit as visits;
ghost use Rattle.xt_tree.specs.View as nodes;
ghost use Rattle.xt_tree.specs.View.{forest_of, tree_of, written_of};

use crate::attributes::literal_version;
use crate::code::{element_code, stylesheet_code};
use crate::fault::{Fault, no_stylesheet, top};
use crate::inside::{Inside, Role, inside_of, role_of};
use crate::links::{Link, has_links, is_stylesheet, links_among};
use crate::walk::fault_among;
use spec_expression::StaticCode;
use spec_structure::{ContentKind, XsltElement};
use std::alloc::Global;
use std::rc::Rc;
use xt_names::Scope;
use xt_text::{Memory, Path, Text};
use xt_tree::{Content, Doc, Node, Written};

/// What is said of a stylesheet module by the structure of its elements.
#[derive(Drop)]
pub struct Module {
    /// Which modules it names, in document order, also where it has a fault.
    pub links: Vec<Link>,
    /// The first node in document order with a fault of structure, and the least code there: S05 to S09, S15, S23
    /// or S25.
    pub fault: Option<Fault>,
}

/// The structure of the module (XSLT 1.0, sections 2.2 to 2.5 and 14).
pub fn check(alloc: Global, document: &Doc) -> Result<Module, Memory>
    ensures links { IfOk result (λ checked. links_in checked.links.items ≡ spec.links_of 1 (plain document.now.nodes)) }
    ensures fault { IfOk result (λ checked. faults_in checked.fault ≡ spec.fault_of 1 (plain document.now.nodes)) }
{
    let links = links_of(alloc, document.children())?;
    let fault = fault_of(alloc, document.children())?;
    Ok(Module { links, fault })
}

fn is_element(content: &Content) -> bool
    ensures { result ≡ visits.is_element (nodes.content_of content.now) }
{
    matches!(content, Content::Element { .. })
}

// What is in force inside the document element.
fn inside_top(alloc: Global, name: &Text, attributes: &[Written]) -> Result<Inside, Memory>
    ensures { IfOk result (λ made. in_force made ≡ inside.inside_of inside.outside name.now (map written_of attributes.now)) }
{
    let outside = Inside::root(alloc)?;
    inside_of(alloc, &outside, name.as_str(), attributes)
}

// ---- Links

fn links_of(alloc: Global, siblings: &[Rc<Node>]) -> Result<Vec<Link>, Memory>
    ensures { IfOk result (λ links. links_in links.items ≡ spec.links_of 1 (forest_of siblings.now)) }
{
    for (i, sibling) in siblings.iter().enumerate() {
        if is_element(sibling.content()) {
            return links_at_top(alloc, i as u64 + 1, sibling);
        }
    }
    Ok(Vec::new(alloc))
}

fn links_at_top(alloc: Global, position: u64, node: &Node) -> Result<Vec<Link>, Memory>
    ensures { IfOk result (λ links. links_in links.items ≡ visits.links_at_top (position ∷ []) (tree_of node.now).content (tree_of node.now).children) }
{
    match node.content() {
        Content::Element { name, attributes } => {
            let path = top(alloc, position)?;
            links_by(alloc, &path, name, attributes.as_slice(), node.children())
        }
        Content::Text { .. } => Ok(Vec::new(alloc)),
        Content::Comment { .. } => Ok(Vec::new(alloc)),
        Content::Instruction { .. } => Ok(Vec::new(alloc)),
    }
}

fn links_by(
    alloc: Global,
    path: &Path,
    name: &Text,
    attributes: &[Written],
    children: &[Rc<Node>],
) -> Result<Vec<Link>, Memory>
    ensures { IfOk result (λ links. links_in links.items ≡ visits.links_by path.now name.now (map written_of attributes.now) (forest_of children.now)) }
{
    let inside = inside_top(alloc, name, attributes)?;
    if has_links(&role_of(&inside, name.as_str())) {
        links_among(alloc, &inside, path, children)
    } else {
        Ok(Vec::new(alloc))
    }
}

// ---- The fault

fn fault_of(alloc: Global, siblings: &[Rc<Node>]) -> Result<Option<Fault>, Memory>
    ensures { IfOk result (λ fault. faults_in fault ≡ spec.fault_of 1 (forest_of siblings.now)) }
{
    for (i, sibling) in siblings.iter().enumerate() {
        if is_element(sibling.content()) {
            return fault_at_top(alloc, i as u64 + 1, sibling);
        }
    }
    Ok(no_stylesheet(top(alloc, siblings.len() as u64 + 1)?))
}

fn fault_at_top(alloc: Global, position: u64, node: &Node) -> Result<Option<Fault>, Memory>
    ensures { IfOk result (λ fault. faults_in fault ≡ visits.fault_at_top (position ∷ []) (tree_of node.now).content (tree_of node.now).children) }
{
    let path = top(alloc, position)?;
    match node.content() {
        Content::Element { name, attributes } => {
            fault_by(alloc, path, name, attributes.as_slice(), node.children())
        }
        Content::Text { .. } => Ok(no_stylesheet(path)),
        Content::Comment { .. } => Ok(no_stylesheet(path)),
        Content::Instruction { .. } => Ok(no_stylesheet(path)),
    }
}

fn fault_by(
    alloc: Global,
    path: Path,
    name: &Text,
    attributes: &[Written],
    children: &[Rc<Node>],
) -> Result<Option<Fault>, Memory>
    ensures { IfOk result (λ fault. faults_in fault ≡ visits.fault_by path name.now (map written_of attributes.now) (forest_of children.now)) }
{
    let inside = inside_top(alloc, name, attributes)?;
    let role = role_of(&inside, name.as_str());
    document_fault(alloc, &inside, path, &role, attributes, children)
}

fn document_fault(
    alloc: Global,
    inside: &Inside,
    path: Path,
    role: &Role<'_>,
    attributes: &[Written],
    children: &[Rc<Node>],
) -> Result<Option<Fault>, Memory>
    ensures { IfOk result (λ fault. faults_in fault ≡ spec.document_fault (in_force inside.now) path (role_in role.now) (map written_of attributes.now) (forest_of children.now)) }
{
    match role {
        Role::OfXslt(element) => {
            stylesheet_fault(alloc, inside, path, *element, attributes, children)
        }
        Role::OfExtension => simplified_fault(alloc, inside, path, role, attributes, children),
        Role::OfOther(_) => simplified_fault(alloc, inside, path, role, attributes, children),
    }
}

fn stylesheet_fault(
    alloc: Global,
    inside: &Inside,
    path: Path,
    element: Option<XsltElement>,
    attributes: &[Written],
    children: &[Rc<Node>],
) -> Result<Option<Fault>, Memory>
    ensures { IfOk result (λ fault. faults_in fault ≡ spec.stylesheet_fault (in_force inside.now) path element (map written_of attributes.now) (forest_of children.now)) }
{
    match element {
        None => Ok(no_stylesheet(path)),
        Some(element) => {
            if is_stylesheet(element) {
                let code = stylesheet_code(alloc, inside, element, attributes)?;
                fault_with(alloc, inside, ContentKind::Imports, path, code, children)
            } else {
                Ok(no_stylesheet(path))
            }
        }
    }
}

fn has_literal_version(scope: &Scope, attributes: &[Written]) -> bool
    ensures { result ≡ is_some (inside.value_of scope.now (inside.of_xslt (codes "version")) (map written_of attributes.now)) }
{
    literal_version(scope, attributes).is_some()
}

// The fault of a document element that is no XSLT element: with xsl:version it is the content of a template (section
// 2.3).
fn simplified_fault(
    alloc: Global,
    inside: &Inside,
    path: Path,
    role: &Role<'_>,
    attributes: &[Written],
    children: &[Rc<Node>],
) -> Result<Option<Fault>, Memory>
    ensures { IfOk result (λ fault. faults_in fault ≡ spec.simplified_fault (in_force inside.now) path (role_in role.now) (map written_of attributes.now) (forest_of children.now)) }
{
    if has_literal_version(&inside.scope, attributes) {
        let code = element_code(alloc, inside, ContentKind::Body, role, attributes, children)?;
        fault_with(alloc, inside, ContentKind::Body, path, code, children)
    } else {
        Ok(no_stylesheet(path))
    }
}

// The fault of an element with this code, or else the first among its children.
fn fault_with(
    alloc: Global,
    inside: &Inside,
    kind: ContentKind,
    path: Path,
    code: Option<StaticCode>,
    children: &[Rc<Node>],
) -> Result<Option<Fault>, Memory>
    ensures { IfOk result (λ fault. faults_in fault ≡ spec.fault_with (in_force inside.now) kind path code (forest_of children.now)) }
{
    match code {
        Some(code) => Ok(Some(Fault { code, path })),
        None => fault_among(alloc, inside, kind, &path, children),
    }
}
