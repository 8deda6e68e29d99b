// What an element of a content is by its name, with what its attributes say.
ghost use Rattle.std.specs.Prelude.{◌≡◌, [], IfOk, None, map};
ghost use Rattle.spec_structure.specs.Inside as scopes;
ghost use Rattle.spec_compile.specs.Content as spec;
ghost use Rattle.xt_syntax.specs.PartView.{literal_tag_of};
ghost use Rattle.xt_attributes.specs.View.{entries_in};
ghost use Rattle.xt_content.specs.View.{IsAnswer, IsStanding, around_in, below_in, met_in, one_in, outline_in, outlined_in};
ghost use Rattle.xt_content.specs.Visit.{ALiteral, OfLanguage, content_by, element_by, met_by, met_extension, met_language, met_other};
ghost use Rattle.xt_structure.specs.View.{in_force, role_in, row_of};
ghost use Rattle.xt_tree.specs.View.{forest_of, written_of};

use crate::around::{Around, site_of};
use crate::child::{Below, One, content_in};
use crate::fault::ContentFault;
use crate::instruction::{child_of, instruction};
use crate::literal::tag_of;
use crate::outline::{Outline, Outlined, bound_by, tag_uses, uses_of};
use spec_structure::{ContentKind, ValueKind, XsltElement};
use std::alloc::Global;
use std::rc::Rc;
use xt_attributes::{AttributeFault, Entries, attributes_of, xslt_attributes_of};
use xt_structure::{Fault, Role, Row, content_of, role_of};
use xt_syntax::{Form, LiteralTag, WithContent};
use xt_text::{Memory, Path, Text};
use xt_tree::{Node, Written};

/// What an element of a content is by its name, with what its attributes say.
#[derive(Drop)]
pub(crate) enum Met {
    /// It says nothing, and nothing in it.
    Skipped,
    /// An element of XSLT.
    Language(XsltElement, Entries),
    /// A literal result element.
    Literal(LiteralTag),
}

// Of an element of an extension namespace only the list of extension prefixes is read.
static OF_EXTENSION: [Row; 1] = [Row {
    name: "extension-element-prefixes",
    kind: ValueKind::Prefixes,
    is_required: false,
}];

fn extension_rows() -> &'static [Row]
    ensures { map row_of result.now ≡ spec.extension_rows }
{
    &OF_EXTENSION
}

/// What was read of the element at this path, or the fault that it has.
pub fn standing_at<T: Drop>(
    alloc: Global,
    path: &Path,
    read: Result<T, AttributeFault>,
) -> Result<T, ContentFault>
    ensures { IsStanding path.now read result }
{
    match read {
        Ok(value) => Ok(value),
        Err(AttributeFault::Memory) => Err(ContentFault::Memory),
        Err(AttributeFault::Refused(code)) => {
            let path = path.copy(alloc)?;
            Err(ContentFault::Refused(Fault { code, path }))
        }
    }
}

fn meet_language(
    alloc: Global,
    around: &Around,
    path: &Path,
    element: XsltElement,
    attributes: &[Written],
) -> Result<Met, ContentFault>
    ensures { IsAnswer met_in (met_language (around_in around.now) path.now element (map written_of attributes.now)) result }
{
    let read = attributes_of(alloc, &around.inside.scope, element, attributes);
    let entries = standing_at(alloc, path, read)?;
    Ok(Met::Language(element, entries))
}

fn meet_extension(
    alloc: Global,
    around: &Around,
    path: &Path,
    attributes: &[Written],
) -> Result<Met, ContentFault>
    ensures { IsAnswer met_in (met_extension (around_in around.now) path.now (map written_of attributes.now)) result }
{
    let read = xslt_attributes_of(alloc, &around.inside.scope, extension_rows(), attributes);
    let _ = standing_at(alloc, path, read)?;
    Ok(Met::Skipped)
}

fn meet_other(
    alloc: Global,
    around: &Around,
    path: &Path,
    name: &Text,
    attributes: &[Written],
) -> Result<Met, ContentFault>
    ensures { IsAnswer met_in (met_other (around_in around.now) path.now name.now (map written_of attributes.now)) result }
{
    let read = tag_of(alloc, around, name, attributes);
    let tag = standing_at(alloc, path, read)?;
    Ok(Met::Literal(tag))
}

fn meet_by(
    alloc: Global,
    around: &Around,
    path: &Path,
    name: &Text,
    attributes: &[Written],
    role: &Role<'_>,
) -> Result<Met, ContentFault>
    ensures { IsAnswer met_in (met_by (around_in around.now) path.now name.now (map written_of attributes.now) (role_in role.now)) result }
{
    match role {
        Role::OfXslt(None) => Ok(Met::Skipped),
        Role::OfXslt(Some(element)) => meet_language(alloc, around, path, *element, attributes),
        Role::OfExtension => meet_extension(alloc, around, path, attributes),
        Role::OfOther(_) => meet_other(alloc, around, path, name, attributes),
    }
}

/// What the element of this name at this path is, where `around` is in force inside it.
pub(crate) fn meet(
    alloc: Global,
    around: &Around,
    path: &Path,
    name: &Text,
    attributes: &[Written],
) -> Result<Met, ContentFault>
    ensures { IsAnswer met_in (met_by (around_in around.now) path.now name.now (map written_of attributes.now) (scopes.role_of (in_force around.now.inside) name.now)) result }
{
    let role = role_of(&around.inside, name.as_str());
    meet_by(alloc, around, path, name, attributes, &role)
}

/// What may stand in it. None where it is skipped.
pub(crate) fn content_by(met: &Met) -> Option<ContentKind>
    ensures { result ≡ content_by (met_in met.now) }
{
    match met {
        Met::Skipped => None,
        Met::Language(element, _) => Some(content_of(*element)),
        Met::Literal(_) => Some(ContentKind::Body),
    }
}

// ---- With what is below it

fn outlined_language(
    alloc: Global,
    around: &Around,
    path: &Path,
    element: XsltElement,
    entries: &Entries,
    below: Outline,
) -> Result<Outlined, Memory>
    ensures { IfOk result (λ o. outlined_in o ≡ record { site = spec.site_of (around_in around.now) path.now; uses = spec.uses_of element (entries_in entries.now); binds = spec.bound_by element (entries_in entries.now); below = outline_in below }) }
{
    let uses = uses_of(alloc, element, entries)?;
    let binds = bound_by(alloc, element, entries)?;
    let Ok(site) = site_of(alloc, around, path) else {
        drop(uses);
        drop(binds);
        return Err(Memory);
    };
    Ok(Outlined {
        site,
        uses,
        binds,
        below,
    })
}

fn language(
    alloc: Global,
    around: &Around,
    path: &Path,
    element: XsltElement,
    mut entries: Entries,
    nodes: &[Rc<Node>],
    below: Below,
) -> Result<One, Memory>
    ensures { IfOk result (λ one. one_in one ≡ element_by (around_in around.now) path.now (OfLanguage element (entries_in entries)) (spec.text_among (forest_of nodes.now)) (below_in below)) }
{
    let Below { children, outline } = below;
    let site = site_of(alloc, around, path)?;
    let Ok(outlined) = outlined_language(alloc, around, path, element, &entries, outline) else {
        drop(site);
        return Err(Memory);
    };
    let Ok(child) = child_of(alloc, element, site, &mut entries, nodes, children) else {
        drop(outlined);
        return Err(Memory);
    };
    Ok(One {
        child,
        element: Some(outlined),
    })
}

fn outlined_literal(
    alloc: Global,
    around: &Around,
    path: &Path,
    tag: &LiteralTag,
    below: Outline,
) -> Result<Outlined, Memory>
    ensures { IfOk result (λ o. outlined_in o ≡ record { site = spec.site_of (around_in around.now) path.now; uses = spec.tag_uses (literal_tag_of tag.now); binds = None; below = outline_in below }) }
{
    let uses = tag_uses(alloc, tag)?;
    let site = site_of(alloc, around, path)?;
    Ok(Outlined {
        site,
        uses,
        binds: None,
        below,
    })
}

fn literal(
    alloc: Global,
    around: &Around,
    path: &Path,
    tag: LiteralTag,
    below: Below,
) -> Result<One, Memory>
    ensures { IfOk result (λ one. one_in one ≡ element_by (around_in around.now) path.now (ALiteral (literal_tag_of tag)) [] (below_in below)) }
{
    let Below { children, outline } = below;
    let Ok(content) = content_in(alloc, children) else {
        drop(tag);
        return Err(Memory);
    };
    let Ok(outlined) = outlined_literal(alloc, around, path, &tag, outline) else {
        drop(tag);
        return Err(Memory);
    };
    let Ok(site) = site_of(alloc, around, path) else {
        drop(tag);
        drop(outlined);
        return Err(Memory);
    };
    let form = Form::WithContent(WithContent::Literal(tag), content);
    Ok(One {
        child: Some(instruction(site, form)),
        element: Some(outlined),
    })
}

/// The element as one of the children of the element that holds it, with what is below it.
pub(crate) fn element_of(
    alloc: Global,
    around: &Around,
    path: &Path,
    met: Met,
    nodes: &[Rc<Node>],
    below: Below,
) -> Result<One, Memory>
    ensures { IfOk result (λ one. one_in one ≡ element_by (around_in around.now) path.now (met_in met) (spec.text_among (forest_of nodes.now)) (below_in below)) }
{
    match met {
        Met::Skipped => Ok(One {
            child: None,
            element: None,
        }),
        Met::Language(element, entries) => {
            language(alloc, around, path, element, entries, nodes, below)
        }
        Met::Literal(tag) => literal(alloc, around, path, tag, below),
    }
}
