// The elements at the top of a module.
ghost use Rattle.std.specs.Prelude.{◌≡◌, ◌++◌, ◌∷◌, [], IfOk, OnOk, map};
ghost use Rattle.std.specs.Option.{option_copied};
ghost use Rattle.spec_document.specs.Forest as spec_content;
ghost use Rattle.spec_document.specs.Forest.{plain};
ghost use Rattle.spec_structure.specs.Inside as roles;
ghost use Rattle.spec_structure.specs.Modules as spec;
ghost use Rattle.spec_structure.specs.Structure as structure;
ghost use Rattle.xt_import.specs.Levels.{level_at, levels_at_top, levels_by, top_level_in, top_levels_in};
ghost use Rattle.xt_structure.specs.View.{in_force, role_in};
ghost use Rattle.xt_tree.specs.View as nodes;
ghost use Rattle.xt_tree.specs.View.{forest_of, tree_of, written_of};

use spec_structure::XsltElement;
use std::alloc::Global;
use std::rc::Rc;
use xt_names::Scope;
use xt_structure::{Inside, Role, inside_of, role_of, value_of};
use xt_text::{Memory, Path, Text};
use xt_tree::{Content, Doc, Node, Written};

/// An element at the top of a module.
#[derive(Drop)]
pub(crate) enum TopLevel {
    /// Neither an import nor an include: the way to it.
    Own(Path),
    /// An import of the module of this name.
    Imports(Text),
    /// An include of the module of this name.
    Includes(Text),
}

/// The elements at the top of the module, in document order. Where it is no stylesheet but a literal result element,
/// that element alone.
pub(crate) fn top_levels(alloc: Global, document: &Doc) -> Result<Vec<TopLevel>, Memory>
    ensures { IfOk result (λ levels. top_levels_in levels.items ≡ spec.top_levels_of 1 (plain document.now.nodes)) }
{
    levels_of(alloc, document.children())
}

fn levels_of(alloc: Global, siblings: &[Rc<Node>]) -> Result<Vec<TopLevel>, Memory>
    ensures { IfOk result (λ levels. top_levels_in levels.items ≡ spec.top_levels_of 1 (forest_of siblings.now)) }
{
    for (i, sibling) in siblings.iter().enumerate() {
        if matches!(sibling.content(), Content::Element { .. }) {
            return levels_at(alloc, i as u64 + 1, sibling);
        }
    }
    Ok(Vec::new(alloc))
}

fn levels_at(alloc: Global, position: u64, node: &Node) -> Result<Vec<TopLevel>, Memory>
    ensures { IfOk result (λ levels. top_levels_in levels.items ≡ levels_at_top (position ∷ []) (tree_of node.now).content (tree_of node.now).children) }
{
    match node.content() {
        Content::Element { name, attributes } => {
            let mut path = Path::new(alloc);
            path.push(position)?;
            levels_in(alloc, path, name, attributes.as_slice(), node.children())
        }
        Content::Text { .. } => Ok(Vec::new(alloc)),
        Content::Comment { .. } => Ok(Vec::new(alloc)),
        Content::Instruction { .. } => Ok(Vec::new(alloc)),
    }
}

// Of a document element of this name.
fn levels_in(
    alloc: Global,
    path: Path,
    name: &Text,
    attributes: &[Written],
    children: &[Rc<Node>],
) -> Result<Vec<TopLevel>, Memory>
    ensures { IfOk result (λ levels. top_levels_in levels.items ≡ levels_by path name.now (map written_of attributes.now) (forest_of children.now)) }
{
    let outside = Inside::root(alloc)?;
    let inside = inside_of(alloc, &outside, name.as_str(), attributes)?;
    let role = role_of(&inside, name.as_str());
    levels_below(alloc, &inside, path, &role, children)
}

fn levels_below(
    alloc: Global,
    inside: &Inside,
    path: Path,
    role: &Role<'_>,
    children: &[Rc<Node>],
) -> Result<Vec<TopLevel>, Memory>
    ensures { IfOk result (λ levels. top_levels_in levels.items ≡ spec.top_levels_below (in_force inside.now) path (role_in role.now) (forest_of children.now)) }
{
    match role {
        Role::OfXslt(_) => levels_among(alloc, inside, &path, children),
        Role::OfExtension => alone(alloc, path),
        Role::OfOther(_) => alone(alloc, path),
    }
}

fn alone(alloc: Global, path: Path) -> Result<Vec<TopLevel>, Memory>
    ensures { IfOk result (λ levels. top_levels_in levels.items ≡ spec.Own path ∷ []) }
{
    let mut levels = Vec::new(alloc);
    levels.push(TopLevel::Own(path))?;
    Ok(levels)
}

fn levels_among(
    alloc: Global,
    inside: &Inside,
    path: &Path,
    siblings: &[Rc<Node>],
) -> Result<Vec<TopLevel>, Memory>
    ensures { IfOk result (λ levels. top_levels_in levels.items ≡ spec.top_levels_among (in_force inside.now) path.now 1 (forest_of siblings.now)) }
{
    let mut levels = Vec::new(alloc);
    for (i, sibling) in siblings.iter().enumerate() {
        let mut here = path.copy(alloc)?;
        here.push(i as u64 + 1)?;
        push_node(alloc, &mut levels, inside, here, sibling.content())?;
    }
    Ok(levels)
}

// Adds what the node at this path is, where it is an element.
fn push_node(
    alloc: Global,
    levels: &mut Vec<TopLevel>,
    inside: &Inside,
    path: Path,
    content: &Content,
) -> Result<(), Memory>
    ensures { OnOk result (top_levels_in levels.new.items ≡ top_levels_in levels.old.items ++ level_at (in_force inside.now) path (nodes.content_of content.now)) }
{
    match content {
        Content::Element { name, attributes } => {
            let level = element_level(alloc, inside, path, name, attributes.as_slice())?;
            levels.push(level)?;
            Ok(())
        }
        Content::Text { .. } => Ok(()),
        Content::Comment { .. } => Ok(()),
        Content::Instruction { .. } => Ok(()),
    }
}

fn element_level(
    alloc: Global,
    outer: &Inside,
    path: Path,
    name: &Text,
    attributes: &[Written],
) -> Result<TopLevel, Memory>
    ensures { IfOk result (λ level. let inner = roles.inside_of (in_force outer.now) name.now (map written_of attributes.now) in top_level_in level ≡ spec.top_level_of inner path (map written_of attributes.now) (roles.role_of inner name.now)) }
{
    let inside = inside_of(alloc, outer, name.as_str(), attributes)?;
    let role = role_of(&inside, name.as_str());
    role_level(alloc, &inside, path, attributes, &role)
}

fn role_level(
    alloc: Global,
    inside: &Inside,
    path: Path,
    attributes: &[Written],
    role: &Role<'_>,
) -> Result<TopLevel, Memory>
    ensures { IfOk result (λ level. top_level_in level ≡ spec.top_level_of (in_force inside.now) path (map written_of attributes.now) (role_in role.now)) }
{
    match role {
        Role::OfXslt(element) => xslt_level(alloc, inside, path, attributes, *element),
        Role::OfExtension => Ok(TopLevel::Own(path)),
        Role::OfOther(_) => Ok(TopLevel::Own(path)),
    }
}

fn xslt_level(
    alloc: Global,
    inside: &Inside,
    path: Path,
    attributes: &[Written],
    element: Option<XsltElement>,
) -> Result<TopLevel, Memory>
    ensures { IfOk result (λ level. top_level_in level ≡ spec.top_level_of (in_force inside.now) path (map written_of attributes.now) (roles.OfXslt element)) }
{
    match element {
        None => Ok(TopLevel::Own(path)),
        Some(element) => match element {
            XsltElement::Import => imports(alloc, path, href_in(&inside.scope, attributes)),
            XsltElement::Include => includes(alloc, path, href_in(&inside.scope, attributes)),
            _ => Ok(TopLevel::Own(path)),
        },
    }
}

fn href_in<'a>(scope: &Scope, attributes: &'a [Written]) -> Option<&'a Text>
    ensures { option_copied result ≡ structure.href_in scope.now (map written_of attributes.now) }
{
    value_of(scope, "", "href", attributes)
}

fn imports(alloc: Global, path: Path, href: Option<&Text>) -> Result<TopLevel, Memory>
    ensures { IfOk result (λ level. top_level_in level ≡ spec.href_by spec.Imports path (option_copied href.entry)) }
{
    match href {
        None => Ok(TopLevel::Own(path)),
        Some(href) => Ok(TopLevel::Imports(href.copy(alloc)?)),
    }
}

fn includes(alloc: Global, path: Path, href: Option<&Text>) -> Result<TopLevel, Memory>
    ensures { IfOk result (λ level. top_level_in level ≡ spec.href_by spec.Includes path (option_copied href.entry)) }
{
    match href {
        None => Ok(TopLevel::Own(path)),
        Some(href) => Ok(TopLevel::Includes(href.copy(alloc)?)),
    }
}
