// One element at the top of a stylesheet.
ghost use Rattle.std.specs.Prelude.{◌≡◌, IfOk, map};
ghost use Rattle.std.specs.Option.{option_map};
ghost use Rattle.spec_compile.specs.Content as content;
ghost use Rattle.spec_compile.specs.Unit as spec;
ghost use Rattle.spec_compile.specs.Value as value;
ghost use Rattle.spec_structure.specs.Inside as scopes;
ghost use Rattle.xt_syntax.specs.PartView as places;
ghost use Rattle.xt_attributes.specs.View.{entries_in};
ghost use Rattle.xt_content.specs.View.{IsAnswer, around_in, children_in, outline_in, uses_in};
ghost use Rattle.xt_structure.specs.View.{in_force};
ghost use Rattle.xt_tree.specs.View.{forest_of, written_of};
ghost use Rattle.xt_top_level.specs.Element.{IsAt, declared_at, element_reading, xslt_in};
ghost use Rattle.xt_top_level.specs.View.{declaration_in, said};

use crate::declaration::declaration_of;
use crate::path::below;
use crate::top_level::{Declaration, TopLevel};
use spec_expression::StaticCode;
use spec_structure::XsltElement;
use std::alloc::Global;
use std::rc::Rc;
use xt_attributes::{AttributeFault, Entries, attributes_of};
use xt_content::{
    Around, Below, ContentFault, Outline, Uses, around_of, children_among, site_of, uses_of,
};
use xt_names::Scope;
use xt_structure::{Fault, Inside, Role, content_of, role_of};
use xt_syntax::Site;
use xt_text::{Memory, Path, Text};
use xt_tree::{Node, Written};

/// What the element of this name says that has this position below the element at this path: nothing where it is none
/// of XSLT's.
pub(crate) fn element_at(
    alloc: Global,
    outer: &Around,
    path: &Path,
    position: u64,
    name: &Text,
    attributes: &[Written],
    children: &[Rc<Node>],
) -> Result<Option<TopLevel>, ContentFault>
    ensures { IsAnswer said (element_reading (around_in outer.now) path.now position name.now (map written_of attributes.now) (forest_of children.now)) result }
{
    let around = around_of(alloc, outer, name, attributes)?;
    match xslt_element(&around.inside, name) {
        None => Ok(None),
        Some(element) => {
            let here = below(alloc, path, position)?;
            declared_at(alloc, &around, &here, element, attributes, children)
        }
    }
}

// Which element of XSLT has this name, where there is one.
fn xslt_element(inside: &Inside, name: &Text) -> Option<XsltElement>
    ensures { result ≡ xslt_in (scopes.role_of (in_force inside.now) name.now) }
{
    match role_of(inside, name.as_str()) {
        Role::OfXslt(element) => element,
        Role::OfExtension => None,
        Role::OfOther(_) => None,
    }
}

// What the element at this path says.
fn declared_at(
    alloc: Global,
    around: &Around,
    path: &Path,
    element: XsltElement,
    attributes: &[Written],
    children: &[Rc<Node>],
) -> Result<Option<TopLevel>, ContentFault>
    ensures { IsAnswer said (declared_at (around_in around.now) path.now element (map written_of attributes.now) (forest_of children.now)) result }
{
    let entries = entries_at(alloc, &around.inside.scope, path, element, attributes)?;
    let below = children_among(alloc, around, content_of(element), path, children)?;
    let top_level = top_level_of(alloc, around, path, element, entries, below)?;
    Ok(top_level)
}

/// What the attributes of the element at this path say.
pub(crate) fn entries_at(
    alloc: Global,
    scope: &Scope,
    path: &Path,
    element: XsltElement,
    attributes: &[Written],
) -> Result<Entries, ContentFault>
    ensures { IsAnswer entries_in (content.standing_at path.now (value.attributes_of scope.now element (map written_of attributes.now))) result }
{
    match attributes_of(alloc, scope, element, attributes) {
        Ok(entries) => Ok(entries),
        Err(AttributeFault::Memory) => Err(ContentFault::Memory),
        Err(AttributeFault::Refused(code)) => Err(fault(alloc, path, code)),
    }
}

// The refusal of the element at this path, or want of memory.
fn fault(alloc: Global, path: &Path, code: StaticCode) -> ContentFault
    ensures { IsAt code path.now result }
{
    match path.copy(alloc) {
        Ok(path) => ContentFault::Refused(Fault { code, path }),
        Err(_) => ContentFault::Memory,
    }
}

fn top_level_of(
    alloc: Global,
    around: &Around,
    path: &Path,
    element: XsltElement,
    entries: Entries,
    below: Below,
) -> Result<Option<TopLevel>, Memory>
    ensures { IfOk result (λ t. said t ≡ spec.top_level_by (content.site_of (around_in around.now) path.now) (content.uses_of element (entries_in entries)) (outline_in below.outline) (spec.declaration_of element (content.site_of (around_in around.now) path.now) (entries_in entries) (children_in below.children.items))) }
{
    let Below { children, outline } = below;
    let uses = uses_of(alloc, element, &entries)?;
    let site = site_of(alloc, around, path)?;
    let Ok(declaration) = declaration_of(alloc, around, path, element, entries, children) else {
        drop(site);
        drop(uses);
        drop(outline);
        return Err(Memory);
    };
    Ok(top_level_by(site, uses, outline, declaration))
}

fn top_level_by(
    site: Site,
    uses: Uses,
    outline: Outline,
    declaration: Option<Declaration>,
) -> Option<TopLevel>
    ensures { said result ≡ spec.top_level_by (places.site_of site) (uses_in uses) (outline_in outline) (option_map declaration_in declaration) }
{
    match declaration {
        None => {
            drop(site);
            drop(uses);
            drop(outline);
            None
        }
        Some(declaration) => Some(TopLevel {
            site,
            declaration,
            uses,
            outline,
        }),
    }
}
