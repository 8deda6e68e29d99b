// Which modules a module names.
ghost use Rattle.std.specs.Prelude.{◌≡◌, ◌++◌, ◌∷◌, [], IfOk, OnOk, map};
ghost use Rattle.std.specs.Option.{option_copied};
ghost use Rattle.spec_document.specs.Forest as spec_content;
ghost use Rattle.spec_structure.specs.Structure as spec;
ghost use Rattle.xt_structure.specs.View.{in_force, links_in, role_in};
ghost use Rattle.xt_structure.specs.Visit as visits;
ghost use Rattle.xt_tree.specs.View.{content_of as plain_content, forest_of, written_of};

use crate::attributes::value_named;
use crate::fault::below;
use crate::inside::{Inside, Role, inside_of, role_of};
use spec_structure::XsltElement;
use std::alloc::Global;
use std::rc::Rc;
use xt_names::Scope;
use xt_text::{Memory, Path, Text};
use xt_tree::{Content, Node, Written};

/// An xsl:import or xsl:include element with an href, among the children of a stylesheet.
#[derive(Drop)]
pub struct Link {
    /// The element, by child positions from the root of the module, each from 1.
    pub path: Path,
    /// Whether it is an xsl:import, and no xsl:include.
    pub is_import: bool,
    /// The name of a module.
    pub href: Text,
}

// Whether the element is an import or an include. None where it is neither.
fn link_named(element: Option<XsltElement>) -> Option<bool>
    ensures { result ≡ spec.link_named element }
{
    match element {
        None => None,
        Some(element) => match element {
            XsltElement::Import => Some(true),
            XsltElement::Include => Some(false),
            _ => None,
        },
    }
}

fn link_kind(role: &Role<'_>) -> Option<bool>
    ensures { result ≡ spec.link_kind (role_in role.now) }
{
    match role {
        Role::OfXslt(element) => link_named(*element),
        Role::OfExtension => None,
        Role::OfOther(_) => None,
    }
}

fn href_in<'a>(scope: &Scope, attributes: &'a [Written]) -> Option<&'a Text>
    ensures { option_copied result ≡ spec.href_in scope.now (map written_of attributes.now) }
{
    value_named(scope, "href", attributes)
}

// Adds the link of this href.
fn push_href(
    alloc: Global,
    links: &mut Vec<Link>,
    path: Path,
    is_import: bool,
    href: Option<&Text>,
) -> Result<(), Memory>
    ensures { OnOk result (links_in links.new.items ≡ links_in links.old.items ++ spec.link_by path is_import (option_copied href.entry)) }
{
    match href {
        None => Ok(()),
        Some(href) => push_link(alloc, links, path, is_import, href),
    }
}

fn push_link(
    alloc: Global,
    links: &mut Vec<Link>,
    path: Path,
    is_import: bool,
    href: &Text,
) -> Result<(), Memory>
    ensures { OnOk result (links_in links.new.items ≡ links_in links.old.items ++ record { path = path; is_import = is_import; href = href.now } ∷ []) }
{
    let href = href.copy(alloc)?;
    links.push(Link {
        path,
        is_import,
        href,
    })?;
    Ok(())
}

// Adds the link that an element of this kind is.
fn push_kind(
    alloc: Global,
    links: &mut Vec<Link>,
    scope: &Scope,
    path: Path,
    attributes: &[Written],
    kind: Option<bool>,
) -> Result<(), Memory>
    ensures { OnOk result (links_in links.new.items ≡ links_in links.old.items ++ spec.link_with scope.now path (map written_of attributes.now) kind) }
{
    match kind {
        None => Ok(()),
        Some(is_import) => push_href(alloc, links, path, is_import, href_in(scope, attributes)),
    }
}

// Adds the link that an element is, at this path.
fn push_element(
    alloc: Global,
    links: &mut Vec<Link>,
    outer: &Inside,
    path: Path,
    name: &Text,
    attributes: &[Written],
) -> Result<(), Memory>
    ensures { OnOk result (links_in links.new.items ≡ links_in links.old.items ++ visits.link_at (in_force outer.now) path (spec_content.Element name.now (map written_of attributes.now))) }
{
    let inside = inside_of(alloc, outer, name.as_str(), attributes)?;
    let kind = link_kind(&role_of(&inside, name.as_str()));
    push_kind(alloc, links, &inside.scope, path, attributes, kind)
}

// Adds the link that a node is, which has this position below the element at this path.
fn push_at(
    alloc: Global,
    links: &mut Vec<Link>,
    inside: &Inside,
    path: &Path,
    position: u64,
    content: &Content,
) -> Result<(), Memory>
    ensures { OnOk result (links_in links.new.items ≡ links_in links.old.items ++ visits.link_at (in_force inside.now) (path.now ++ position ∷ []) (plain_content content.now)) }
{
    match content {
        Content::Element { name, attributes } => {
            let here = below(alloc, path, position)?;
            push_element(alloc, links, inside, here, name, attributes.as_slice())
        }
        Content::Text { .. } => Ok(()),
        Content::Comment { .. } => Ok(()),
        Content::Instruction { .. } => Ok(()),
    }
}

/// The links among these siblings below the element at this path.
pub(crate) fn links_among(
    alloc: Global,
    inside: &Inside,
    path: &Path,
    siblings: &[Rc<Node>],
) -> Result<Vec<Link>, Memory>
    ensures { IfOk result (λ links. links_in links.items ≡ spec.links_among (in_force inside.now) path.now 1 (forest_of siblings.now)) }
{
    let mut links = Vec::new(alloc);
    for (i, sibling) in siblings.iter().enumerate() {
        push_at(
            alloc,
            &mut links,
            inside,
            path,
            i as u64 + 1,
            sibling.content(),
        )?;
    }
    Ok(links)
}

fn names_stylesheet(element: Option<XsltElement>) -> bool
    ensures { result ≡ spec.names_stylesheet element }
{
    match element {
        None => false,
        Some(element) => is_stylesheet(element),
    }
}

/// Whether the element is a stylesheet.
pub(crate) fn is_stylesheet(element: XsltElement) -> bool
    ensures { result ≡ spec.is_stylesheet element }
{
    matches!(element, XsltElement::Stylesheet | XsltElement::Transform)
}

/// Whether the children of a document element that is this can be links.
pub(crate) fn has_links(role: &Role<'_>) -> bool
    ensures { result ≡ spec.has_links (role_in role.now) }
{
    match role {
        Role::OfXslt(element) => names_stylesheet(*element),
        Role::OfExtension => false,
        Role::OfOther(_) => false,
    }
}
