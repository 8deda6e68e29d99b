// The least code of an element by the table.
ghost use Rattle.std.specs.Prelude.{◌≡◌, ◌||◌, IfOk, false, map, not};
ghost use Rattle.std.specs.Option.{option_copied};
ghost use Rattle.std.specs.Str.{chars};
ghost use Rattle.spec_document.specs.Declaration.{is_there};
ghost use Rattle.spec_structure.specs.Structure as spec;
ghost use Rattle.xt_structure.specs.View.{in_force, role_in};
ghost use Rattle.xt_tree.specs.View.{content_of as plain_content, forest_of, written_of};

use crate::attributes::{
    are_allowed, are_attributes_of, are_named_well, are_named_well_of, has_good_version,
    has_literal_version, has_select,
};
use crate::inside::{Inside, Role, extensions_in};
use crate::table::{
    after_element, after_other, allows, content_of, is_top, literal_rows, takes_literals,
};
use crate::text::{is_white, same};
use crate::values::is_well_named;
use spec_expression::StaticCode;
use spec_structure::{ContentKind, ValueKind, XsltElement};
use std::alloc::Global;
use std::rc::Rc;
use xt_names::{Scope, XSLT_URI};
use xt_text::{Memory, Text};
use xt_tree::{Content, Node, Written};

// ---- Children

/// Whether a node of this content counts among the children of an element: comments, processing instructions and
/// texts of white space that is not kept do not (XSLT 1.0, section 3.4).
pub fn is_left(preserves: bool, content: &Content) -> bool
    ensures { result ≡ spec.is_left preserves (plain_content content.now) }
{
    match content {
        Content::Element { .. } => true,
        Content::Text { text } => preserves || !is_white(text),
        Content::Comment { .. } => false,
        Content::Instruction { .. } => false,
    }
}

fn any_left(preserves: bool, siblings: &[Rc<Node>]) -> bool
    ensures { result ≡ spec.any_left preserves (forest_of siblings.now) }
{
    for sibling in siblings {
        if is_left(preserves, sibling.content()) {
            return true;
        }
    }
    false
}

// ---- An element of XSLT

fn is_choose(element: XsltElement) -> bool
    ensures { result ≡ spec.is_choose element }
{
    matches!(element, XsltElement::Choose)
}

fn has_branches(element: XsltElement, children: &[Rc<Node>]) -> bool
    ensures { result ≡ (not (spec.is_choose element) || spec.any_left false (forest_of children.now)) }
{
    !is_choose(element) || any_left(false, children)
}

fn is_placed(kind: ContentKind, element: XsltElement, children: &[Rc<Node>]) -> bool
    ensures { result ≡ spec.is_placed kind element (forest_of children.now) }
{
    allows(kind, element) && has_branches(element, children)
}

fn has_both(
    inside: &Inside,
    element: XsltElement,
    attributes: &[Written],
    children: &[Rc<Node>],
) -> bool
    ensures { result ≡ spec.has_both (in_force inside.now) element (map written_of attributes.now) (forest_of children.now) }
{
    has_select(&inside.scope, element, attributes) && any_left(inside.preserves, children)
}

fn xslt_code(
    alloc: Global,
    inside: &Inside,
    kind: ContentKind,
    element: XsltElement,
    attributes: &[Written],
    children: &[Rc<Node>],
) -> Result<Option<StaticCode>, Memory>
    ensures { IfOk result (λ code. code ≡ spec.xslt_code (in_force inside.now) kind element (map written_of attributes.now) (forest_of children.now)) }
{
    if !is_placed(kind, element, children) {
        return Ok(Some(StaticCode::MisplacedElement));
    }
    if !are_attributes_of(&inside.scope, element, attributes) {
        return Ok(Some(StaticCode::BadAttribute));
    }
    if !are_named_well_of(alloc, &inside.scope, element, attributes)? {
        return Ok(Some(StaticCode::BadName));
    }
    if has_both(inside, element, attributes, children) {
        return Ok(Some(StaticCode::SelectAndContent));
    }
    Ok(None)
}

fn is_decimal_format(element: XsltElement) -> bool
    ensures { result ≡ spec.is_decimal_format element }
{
    matches!(element, XsltElement::DecimalFormat)
}

fn named_code(
    alloc: Global,
    inside: &Inside,
    kind: ContentKind,
    element: Option<XsltElement>,
    attributes: &[Written],
    children: &[Rc<Node>],
) -> Result<Option<StaticCode>, Memory>
    ensures { IfOk result (λ code. code ≡ spec.named_code (in_force inside.now) kind element (map written_of attributes.now) (forest_of children.now)) }
{
    match element {
        None => Ok(Some(StaticCode::MisplacedElement)),
        Some(element) => {
            if is_decimal_format(element) {
                return Ok(Some(StaticCode::Extension));
            }
            xslt_code(alloc, inside, kind, element, attributes, children)
        }
    }
}

/// The least code of a stylesheet element at the top.
pub(crate) fn stylesheet_code(
    alloc: Global,
    inside: &Inside,
    element: XsltElement,
    attributes: &[Written],
) -> Result<Option<StaticCode>, Memory>
    ensures { IfOk result (λ code. code ≡ spec.stylesheet_code (in_force inside.now) element (map written_of attributes.now)) }
{
    if !has_good_version(alloc, &inside.scope, attributes)? {
        return Ok(Some(StaticCode::BadVersion));
    }
    if !are_attributes_of(&inside.scope, element, attributes) {
        return Ok(Some(StaticCode::BadAttribute));
    }
    if !are_named_well_of(alloc, &inside.scope, element, attributes)? {
        return Ok(Some(StaticCode::BadName));
    }
    Ok(None)
}

// ---- Literal result elements and extension elements

fn are_literal_allowed(scope: &Scope, attributes: &[Written]) -> bool
    ensures { result ≡ spec.are_literal_allowed scope.now (map written_of attributes.now) }
{
    are_allowed(scope, XSLT_URI, literal_rows(), attributes)
}

fn are_literal_named_well(
    alloc: Global,
    scope: &Scope,
    attributes: &[Written],
) -> Result<bool, Memory>
    ensures { IfOk result (λ are. are ≡ spec.are_literal_named_well scope.now (map written_of attributes.now)) }
{
    are_named_well(alloc, scope, XSLT_URI, literal_rows(), attributes)
}

fn literal_code(
    alloc: Global,
    inside: &Inside,
    kind: ContentKind,
    attributes: &[Written],
) -> Result<Option<StaticCode>, Memory>
    ensures { IfOk result (λ code. code ≡ spec.literal_code (in_force inside.now) kind (map written_of attributes.now)) }
{
    if !has_literal_version(alloc, &inside.scope, attributes)? {
        return Ok(Some(StaticCode::BadVersion));
    }
    if !are_literal_allowed(&inside.scope, attributes) {
        return Ok(Some(StaticCode::BadAttribute));
    }
    if !takes_literals(kind) {
        return Ok(Some(StaticCode::MisplacedContent));
    }
    if !are_literal_named_well(alloc, &inside.scope, attributes)? {
        return Ok(Some(StaticCode::BadName));
    }
    Ok(None)
}

fn is_good_list(alloc: Global, list: Option<&Text>) -> Result<bool, Memory>
    ensures { IfOk result (λ is. is ≡ spec.is_good_list (option_copied list.entry)) }
{
    match list {
        None => Ok(true),
        Some(list) => is_well_named(alloc, ValueKind::Prefixes, list),
    }
}

fn extension_code(
    alloc: Global,
    inside: &Inside,
    kind: ContentKind,
    attributes: &[Written],
) -> Result<Option<StaticCode>, Memory>
    ensures { IfOk result (λ code. code ≡ spec.extension_code (in_force inside.now) kind (map written_of attributes.now)) }
{
    if !takes_literals(kind) {
        return Ok(Some(StaticCode::MisplacedContent));
    }
    if !is_good_list(alloc, extensions_in(&inside.scope, false, attributes))? {
        return Ok(Some(StaticCode::BadName));
    }
    Ok(Some(StaticCode::Extension))
}

fn other_code(
    alloc: Global,
    inside: &Inside,
    kind: ContentKind,
    uri: &str,
    attributes: &[Written],
) -> Result<Option<StaticCode>, Memory>
    ensures { IfOk result (λ code. code ≡ spec.other_code (in_force inside.now) kind (chars uri.now) (map written_of attributes.now)) }
{
    if is_top(kind) {
        return Ok(top_code(uri));
    }
    literal_code(alloc, inside, kind, attributes)
}

// Of an element at the top that is not XSLT's: one of no namespace is misplaced.
fn top_code(uri: &str) -> Option<StaticCode>
    ensures { result ≡ spec.top_code (chars uri.now) }
{
    if is_there(uri) {
        None
    } else {
        Some(StaticCode::MisplacedElement)
    }
}

fn is_there(uri: &str) -> bool
    ensures { result ≡ is_there (chars uri.now) }
{
    !same(uri, "")
}

// ---- Any element

/// The least code of an element by the table, where these contents may stand.
pub(crate) fn element_code(
    alloc: Global,
    inside: &Inside,
    kind: ContentKind,
    role: &Role<'_>,
    attributes: &[Written],
    children: &[Rc<Node>],
) -> Result<Option<StaticCode>, Memory>
    ensures { IfOk result (λ code. code ≡ spec.element_code (in_force inside.now) kind (role_in role.now) (map written_of attributes.now) (forest_of children.now)) }
{
    match role {
        Role::OfXslt(element) => named_code(alloc, inside, kind, *element, attributes, children),
        Role::OfExtension => {
            if is_top(kind) {
                return Ok(None);
            }
            extension_code(alloc, inside, kind, attributes)
        }
        Role::OfOther(uri) => other_code(alloc, inside, kind, uri, attributes),
    }
}

/// What may stand among the children of an element that has no code. None where it is skipped with all in it.
pub(crate) fn content_by(kind: ContentKind, role: &Role<'_>) -> Option<ContentKind>
    ensures { result ≡ spec.content_by kind (role_in role.now) }
{
    match role {
        Role::OfXslt(element) => content_by_name(*element),
        Role::OfExtension => None,
        Role::OfOther(_) => {
            if is_top(kind) {
                None
            } else {
                Some(ContentKind::Body)
            }
        }
    }
}

fn content_by_name(element: Option<XsltElement>) -> Option<ContentKind>
    ensures { result ≡ spec.content_by_name element }
{
    match element {
        None => None,
        Some(element) => Some(content_of(element)),
    }
}

/// What may stand after an element. Takes no memory.
pub fn after_role(kind: ContentKind, role: &Role<'_>) -> ContentKind
    ensures { result ≡ spec.after_role kind (role_in role.now) }
{
    match role {
        Role::OfXslt(element) => after_name(kind, *element),
        Role::OfExtension => after_other(kind),
        Role::OfOther(_) => after_other(kind),
    }
}

fn after_name(kind: ContentKind, element: Option<XsltElement>) -> ContentKind
    ensures { result ≡ spec.after_name kind element }
{
    match element {
        None => kind,
        Some(element) => after_element(kind, element),
    }
}
