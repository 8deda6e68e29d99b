// The attributes of an element, by the table.
ghost use Rattle.std.specs.Prelude.{◌≡◌, ◌&&◌, ◌||◌, [], ◌∷◌, IfOk, Some, bytes_eq, codes, map, not, true, false};
ghost use Rattle.std.specs.Str.{chars};
ghost use Rattle.spec_structure.specs.Elements as elements;
ghost use Rattle.spec_structure.specs.Inside.{expanded_of, in_no_namespace, of_xslt, value_of};
ghost use Rattle.spec_structure.specs.Structure as spec;
ghost use Rattle.std.specs.Option.{option_copied};
ghost use Rattle.xt_structure.specs.View.{row_of};
ghost use Rattle.xt_tree.specs.View.{written_of};

use crate::expanded::{Meaning, expanded_of, value_of};
use crate::table::{Row, rows_of};
use crate::text::same;
use crate::values::{is_allowed, is_version, is_well_named};
use spec_structure::{ValueKind, XsltElement};
use std::alloc::Global;
use xt_names::{Scope, XSLT_URI};
use xt_text::{Memory, Text};
use xt_tree::Written;

/// What the value of the attribute of this name is. None exactly where no row has it.
pub fn kind_named(rows: &[Row], local: &str) -> Option<ValueKind>
    ensures { result ≡ spec.kind_named (chars local.now) (map row_of rows.now) }
{
    for row in rows {
        if same(row.name, local) {
            return Some(row.kind);
        }
    }
    None
}

// ---- Attributes that are not known, and values that they may not have

fn is_allowed_kind(kind: Option<ValueKind>, value: &Text) -> bool
    ensures { result ≡ spec.is_allowed_kind value.now kind }
{
    match kind {
        None => false,
        Some(kind) => is_allowed(kind, value),
    }
}

fn is_allowed_name(name: &Meaning<'_>, uri: &str, rows: &[Row], value: &Text) -> bool
    ensures { result ≡ spec.is_allowed_name (chars uri.now) (map row_of rows.now) value.now (Some name.now) }
{
    if name.is_of(uri) {
        return is_allowed_kind(kind_of(name, rows), value);
    }
    true
}

fn kind_of(name: &Meaning<'_>, rows: &[Row]) -> Option<ValueKind>
    ensures { result ≡ spec.kind_named name.now.local (map row_of rows.now) }
{
    kind_named(rows, name.local())
}

fn is_allowed_at(scope: &Scope, uri: &str, rows: &[Row], attribute: &Written) -> bool
    ensures { result ≡ spec.is_allowed_name (chars uri.now) (map row_of rows.now) attribute.now.value (expanded_of scope.now (written_of attribute.now)) }
{
    match expanded_of(scope, attribute) {
        None => true,
        Some(name) => is_allowed_name(&name, uri, rows, &attribute.value),
    }
}

/// Whether each attribute of this namespace is known, and has one of the values that it may have.
pub(crate) fn are_allowed(scope: &Scope, uri: &str, rows: &[Row], attributes: &[Written]) -> bool
    ensures { result ≡ spec.are_allowed scope.now (chars uri.now) (map row_of rows.now) (map written_of attributes.now) }
{
    for attribute in attributes {
        if !is_allowed_at(scope, uri, rows, attribute) {
            return false;
        }
    }
    true
}

// ---- Names in values

fn is_well_named_kind(alloc: Global, kind: Option<ValueKind>, value: &Text) -> Result<bool, Memory>
    ensures { IfOk result (λ is. is ≡ spec.is_well_named_kind value.now kind) }
{
    match kind {
        None => Ok(true),
        Some(kind) => is_well_named(alloc, kind, value),
    }
}

fn is_named_well(
    alloc: Global,
    name: &Meaning<'_>,
    uri: &str,
    rows: &[Row],
    value: &Text,
) -> Result<bool, Memory>
    ensures { IfOk result (λ is. is ≡ spec.is_named_well (chars uri.now) (map row_of rows.now) value.now (Some name.now)) }
{
    if name.is_of(uri) {
        return is_well_named_kind(alloc, kind_of(name, rows), value);
    }
    Ok(true)
}

fn is_well_named_at(
    alloc: Global,
    scope: &Scope,
    uri: &str,
    rows: &[Row],
    attribute: &Written,
) -> Result<bool, Memory>
    ensures { IfOk result (λ is. is ≡ spec.is_named_well (chars uri.now) (map row_of rows.now) attribute.now.value (expanded_of scope.now (written_of attribute.now))) }
{
    match expanded_of(scope, attribute) {
        None => Ok(true),
        Some(name) => is_named_well(alloc, &name, uri, rows, &attribute.value),
    }
}

/// Whether names stand where they are to stand, in the attributes of this namespace.
pub(crate) fn are_named_well(
    alloc: Global,
    scope: &Scope,
    uri: &str,
    rows: &[Row],
    attributes: &[Written],
) -> Result<bool, Memory>
    ensures { IfOk result (λ are. are ≡ spec.are_named_well scope.now (chars uri.now) (map row_of rows.now) (map written_of attributes.now)) }
{
    for attribute in attributes {
        if !is_well_named_at(alloc, scope, uri, rows, attribute)? {
            return Ok(false);
        }
    }
    Ok(true)
}

// ---- The attributes of elements of XSLT

fn is_of_xslt(scope: &Scope, attribute: &Written) -> bool
    ensures { result ≡ spec.is_of_xslt (expanded_of scope.now (written_of attribute.now)) }
{
    match expanded_of(scope, attribute) {
        None => false,
        Some(name) => is_xslt(&name),
    }
}

fn is_xslt(name: &Meaning<'_>) -> bool
    ensures { result ≡ spec.is_of_xslt (Some name.now) }
{
    name.is_of(XSLT_URI)
}

fn has_of_xslt(scope: &Scope, attributes: &[Written]) -> bool
    ensures { result ≡ spec.has_of_xslt scope.now (map written_of attributes.now) }
{
    for attribute in attributes {
        if is_of_xslt(scope, attribute) {
            return true;
        }
    }
    false
}

/// The value of the attribute of this name in no namespace.
pub(crate) fn value_named<'a>(
    scope: &Scope,
    local: &str,
    attributes: &'a [Written],
) -> Option<&'a Text>
    ensures { option_copied result ≡ value_of scope.now (in_no_namespace (chars local.now)) (map written_of attributes.now) }
{
    value_of(scope, "", local, attributes)
}

fn has_attribute(scope: &Scope, local: &str, attributes: &[Written]) -> bool
    ensures { result ≡ spec.has_attribute scope.now (chars local.now) (map written_of attributes.now) }
{
    value_named(scope, local, attributes).is_some()
}

fn has_row(scope: &Scope, row: &Row, attributes: &[Written]) -> bool
    ensures { result ≡ (not row.now.is_required || spec.has_attribute scope.now (row_of row.now).name (map written_of attributes.now)) }
{
    if row.is_required {
        return has_attribute(scope, row.name, attributes);
    }
    true
}

fn has_required(scope: &Scope, rows: &[Row], attributes: &[Written]) -> bool
    ensures { result ≡ spec.has_required scope.now (map row_of rows.now) (map written_of attributes.now) }
{
    for row in rows {
        if !has_row(scope, row, attributes) {
            return false;
        }
    }
    true
}

fn has_match(scope: &Scope, attributes: &[Written]) -> bool
    ensures { result ≡ spec.has_attribute scope.now (codes "match") (map written_of attributes.now) }
{
    has_attribute(scope, "match", attributes)
}

fn has_name(scope: &Scope, attributes: &[Written]) -> bool
    ensures { result ≡ spec.has_attribute scope.now (codes "name") (map written_of attributes.now) }
{
    has_attribute(scope, "name", attributes)
}

fn has_mode(scope: &Scope, attributes: &[Written]) -> bool
    ensures { result ≡ spec.has_attribute scope.now (codes "mode") (map written_of attributes.now) }
{
    has_attribute(scope, "mode", attributes)
}

fn has_name_alone(scope: &Scope, attributes: &[Written]) -> bool
    ensures { result ≡ spec.has_name_alone scope.now (map written_of attributes.now) }
{
    has_name(scope, attributes) && !has_mode(scope, attributes)
}

fn is_good_template(scope: &Scope, attributes: &[Written]) -> bool
    ensures { result ≡ spec.is_good_template scope.now (map written_of attributes.now) }
{
    has_match(scope, attributes) || has_name_alone(scope, attributes)
}

fn is_template(element: XsltElement) -> bool
    ensures { result ≡ spec.is_template element }
{
    matches!(element, XsltElement::Template)
}

fn is_good_if_template(scope: &Scope, element: XsltElement, attributes: &[Written]) -> bool
    ensures { result ≡ (not (spec.is_template element) || spec.is_good_template scope.now (map written_of attributes.now)) }
{
    !is_template(element) || is_good_template(scope, attributes)
}

fn is_complete(scope: &Scope, element: XsltElement, attributes: &[Written]) -> bool
    ensures { result ≡ spec.is_complete scope.now element (map written_of attributes.now) }
{
    has_required(scope, rows_of(element), attributes)
        && is_good_if_template(scope, element, attributes)
}

fn are_allowed_of(scope: &Scope, element: XsltElement, attributes: &[Written]) -> bool
    ensures { result ≡ spec.are_allowed scope.now [] (elements.rows_of element) (map written_of attributes.now) }
{
    are_allowed(scope, "", rows_of(element), attributes)
}

fn are_known(scope: &Scope, element: XsltElement, attributes: &[Written]) -> bool
    ensures { result ≡ spec.are_known scope.now element (map written_of attributes.now) }
{
    are_allowed_of(scope, element, attributes) && !has_of_xslt(scope, attributes)
}

/// Whether the element of XSLT may have these attributes, and has those that it must have.
pub(crate) fn are_attributes_of(scope: &Scope, element: XsltElement, attributes: &[Written]) -> bool
    ensures { result ≡ spec.are_attributes_of scope.now element (map written_of attributes.now) }
{
    are_known(scope, element, attributes) && is_complete(scope, element, attributes)
}

/// Whether names stand where they are to stand in the attributes of an element of XSLT.
pub(crate) fn are_named_well_of(
    alloc: Global,
    scope: &Scope,
    element: XsltElement,
    attributes: &[Written],
) -> Result<bool, Memory>
    ensures { IfOk result (λ are. are ≡ spec.are_named_well scope.now [] (elements.rows_of element) (map written_of attributes.now)) }
{
    are_named_well(alloc, scope, "", rows_of(element), attributes)
}

fn is_binding(element: XsltElement) -> bool
    ensures { result ≡ spec.is_binding element }
{
    matches!(
        element,
        XsltElement::Param | XsltElement::WithParam | XsltElement::Variable
    )
}

fn selects(scope: &Scope, attributes: &[Written]) -> bool
    ensures { result ≡ spec.has_attribute scope.now (codes "select") (map written_of attributes.now) }
{
    has_attribute(scope, "select", attributes)
}

/// Whether it is a variable or parameter with a select attribute.
pub(crate) fn has_select(scope: &Scope, element: XsltElement, attributes: &[Written]) -> bool
    ensures { result ≡ spec.has_select scope.now element (map written_of attributes.now) }
{
    is_binding(element) && selects(scope, attributes)
}

// ---- Versions

fn version_in<'a>(scope: &Scope, attributes: &'a [Written]) -> Option<&'a Text>
    ensures { option_copied result ≡ value_of scope.now (in_no_namespace (codes "version")) (map written_of attributes.now) }
{
    value_named(scope, "version", attributes)
}

/// Whether the stylesheet has the version 1.0.
pub(crate) fn has_good_version(
    alloc: Global,
    scope: &Scope,
    attributes: &[Written],
) -> Result<bool, Memory>
    ensures { IfOk result (λ has. has ≡ spec.has_good_version scope.now (map written_of attributes.now)) }
{
    match version_in(scope, attributes) {
        None => Ok(false),
        Some(text) => is_version(alloc, text),
    }
}

/// The version that a literal result element has.
pub(crate) fn literal_version<'a>(scope: &Scope, attributes: &'a [Written]) -> Option<&'a Text>
    ensures { option_copied result ≡ value_of scope.now (of_xslt (codes "version")) (map written_of attributes.now) }
{
    value_of(scope, XSLT_URI, "version", attributes)
}

/// Whether the literal result element has no other version than 1.0.
pub(crate) fn has_literal_version(
    alloc: Global,
    scope: &Scope,
    attributes: &[Written],
) -> Result<bool, Memory>
    ensures { IfOk result (λ has. has ≡ spec.has_literal_version scope.now (map written_of attributes.now)) }
{
    match literal_version(scope, attributes) {
        None => Ok(true),
        Some(text) => is_version(alloc, text),
    }
}
