// What a module says.
ghost use Rattle.std.specs.Prelude.{◌≡◌, IfOk, map};
ghost use Rattle.spec_compile.specs.Unit as spec;
ghost use Rattle.spec_document.specs.Forest.{plain};
ghost use Rattle.spec_structure.specs.Inside as scopes;
ghost use Rattle.xt_content.specs.Sibling.{alone};
ghost use Rattle.xt_content.specs.View.{IsAnswer, around_in};
ghost use Rattle.xt_structure.specs.View.{in_force};
ghost use Rattle.xt_tree.specs.View as nodes;
ghost use Rattle.xt_tree.specs.View.{forest_of, tree_of, written_of};
ghost use Rattle.xt_top_level.specs.Element.{is_element, kind_of, stylesheet_reading};
ghost use Rattle.xt_top_level.specs.View.{top_levels_of};

use crate::element::entries_at;
use crate::path::top;
use crate::siblings::top_levels_among;
use crate::simplified::simplified_at;
use crate::top_level::TopLevel;
use spec_structure::XsltElement;
use std::alloc::Global;
use std::rc::Rc;
use xt_content::{Around, ContentFault, excluded_by};
use xt_structure::{Inside, Role, inside_of, role_of};
use xt_text::{Memory, Text};
use xt_tree::{Content, Doc, Node, Written};

// What a document element is.
#[derive(Clone, Copy)]
enum Kind {
    /// An element of XSLT that there is not.
    Nothing,
    /// An element of XSLT, whose children are at the top.
    Stylesheet(XsltElement),
    /// A literal result element.
    Simplified,
}

/// What the module of this name says (XSLT 1.0, sections 2.2 and 2.3): what its document element declares at its
/// top, or the one template for the root that a literal result element is. Parts that the structure of modules
/// forbids say nothing.
///
/// Errors: want of memory; the first element in document order with a value that cannot be read, and the least code
/// that stands there: S10 to S16, S24 or S26.
pub fn module_of(alloc: Global, name: &Text, document: &Doc) -> Result<Vec<TopLevel>, ContentFault>
    ensures { IsAnswer top_levels_of (spec.module_of name.now 1 (plain document.now.nodes)) result }
{
    module_among(alloc, name, document.children())
}

fn is_element(content: &Content) -> bool
    ensures { result ≡ is_element (nodes.content_of content.now) }
{
    matches!(content, Content::Element { .. })
}

// What the nodes at the top of a module say.
fn module_among(
    alloc: Global,
    name: &Text,
    siblings: &[Rc<Node>],
) -> Result<Vec<TopLevel>, ContentFault>
    ensures { IsAnswer top_levels_of (spec.module_of name.now 1 (forest_of siblings.now)) result }
{
    for (i, sibling) in siblings.iter().enumerate() {
        if is_element(sibling.content()) {
            return document_element_at(alloc, name, i as u64 + 1, sibling);
        }
    }
    Ok(Vec::new(alloc))
}

// What the document element says, which has this position.
fn document_element_at(
    alloc: Global,
    name: &Text,
    position: u64,
    node: &Node,
) -> Result<Vec<TopLevel>, ContentFault>
    ensures { IsAnswer top_levels_of (spec.module_of name.now position (alone (tree_of node.now))) result }
{
    match node.content() {
        Content::Element {
            name: element,
            attributes,
        } => {
            let inside = inside_top(alloc, element, attributes.as_slice())?;
            match kind_of(&inside, element) {
                Kind::Nothing => {
                    drop(inside);
                    Ok(Vec::new(alloc))
                }
                Kind::Stylesheet(element) => stylesheet_at(
                    alloc,
                    name,
                    position,
                    inside,
                    element,
                    attributes.as_slice(),
                    node.children(),
                ),
                Kind::Simplified => {
                    drop(inside);
                    simplified_at(alloc, name, position, node)
                }
            }
        }
        Content::Text { .. } => Ok(Vec::new(alloc)),
        Content::Comment { .. } => Ok(Vec::new(alloc)),
        Content::Instruction { .. } => Ok(Vec::new(alloc)),
    }
}

// What is in force inside the document element.
fn inside_top(alloc: Global, name: &Text, attributes: &[Written]) -> Result<Inside, Memory>
    ensures { IfOk result (λ made. in_force made ≡ scopes.inside_of scopes.outside name.now (map written_of attributes.now)) }
{
    let outside = Inside::root(alloc)?;
    inside_of(alloc, &outside, name.as_str(), attributes)
}

fn kind_of(inside: &Inside, name: &Text) -> Kind
    ensures { result ≡ kind_of (scopes.role_of (in_force inside.now) name.now) }
{
    match role_of(inside, name.as_str()) {
        Role::OfXslt(element) => match element {
            None => Kind::Nothing,
            Some(element) => Kind::Stylesheet(element),
        },
        Role::OfExtension => Kind::Simplified,
        Role::OfOther(_) => Kind::Simplified,
    }
}

// What a stylesheet says, which has this position and inside of which this is in force.
fn stylesheet_at(
    alloc: Global,
    name: &Text,
    position: u64,
    inside: Inside,
    element: XsltElement,
    attributes: &[Written],
    children: &[Rc<Node>],
) -> Result<Vec<TopLevel>, ContentFault>
    ensures { IsAnswer top_levels_of (stylesheet_reading name.now position (in_force inside) element (map written_of attributes.now) (forest_of children.now)) result }
{
    let path = top(alloc, position)?;
    let around = in_stylesheet(alloc, name, inside, attributes)?;
    let _entries = entries_at(alloc, &around.inside.scope, &path, element, attributes)?;
    top_levels_among(alloc, &around, &path, children)
}

fn in_stylesheet(
    alloc: Global,
    name: &Text,
    inside: Inside,
    attributes: &[Written],
) -> Result<Around, Memory>
    ensures { IfOk result (λ around. around_in around ≡ spec.in_stylesheet name.now (in_force inside) (map written_of attributes.now)) }
{
    let excluded = excluded_by(alloc, &inside, true, attributes)?;
    Ok(Around {
        module_name: name.copy(alloc)?,
        inside,
        excluded,
    })
}
