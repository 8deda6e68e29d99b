// The attributes of an element, by its rows in the table.
ghost use Rattle.std.specs.Prelude.{◌≡◌, ◌∷◌, [], IfOk, Ok, OnOk, Some, bytes_eq, map};
ghost use Rattle.std.specs.Str.{chars};
ghost use Rattle.spec_compile.specs.Reading.{joined};
ghost use Rattle.spec_compile.specs.Value as spec;
ghost use Rattle.spec_structure.specs.Inside.{expanded_of};
ghost use Rattle.spec_structure.specs.Structure.{kind_named};
ghost use Rattle.xt_attributes.specs.Answers.{Finds};
ghost use Rattle.xt_attributes.specs.Gathering.{appended, gathered_in, seen};
ghost use Rattle.xt_attributes.specs.View.{IsAnswer, barred_by, entries_in, entry_in, listed, value_in};
ghost use Rattle.xt_structure.specs.View.{row_of};
ghost use Rattle.xt_tree.specs.View.{written_of};

use crate::barred::unless_barred;
use crate::entries::{Entries, Entry};
use crate::fault::AttributeFault;
use crate::gathered::Gathered;
use crate::names::Read;
use crate::read::value_of;
use crate::value::Value;
use spec_structure::{ValueKind, XsltElement};
use std::alloc::Global;
use xt_names::{Scope, XSLT_URI};
use xt_structure::{Meaning, Row, expanded_of, kind_named, rows_of};
use xt_text::{Memory, Text};
use xt_tree::Written;

// What the attribute of this name and kind says.
fn entry_with(
    alloc: Global,
    element: Option<XsltElement>,
    scope: &Scope,
    kind: ValueKind,
    local: &str,
    text: &Text,
) -> Result<Read<Option<Entry>>, Memory>
    ensures { Finds (seen listed) (spec.entry_by (barred_by element) (chars local.now) scope.now text.now (Some kind)) result }
{
    let value = value_of(alloc, kind, scope, text)?;
    named(alloc, local, unless_barred(element, value))
}

// The value under its name.
fn named(alloc: Global, local: &str, value: Read<Value>) -> Result<Read<Option<Entry>>, Memory>
    ensures { IfOk result (λ entry. seen listed entry ≡ joined (λ v rest. record { name = chars local.now; value = v } ∷ rest) (seen value_in value) (Ok [])) }
{
    match value {
        Err(code) => Ok(Err(code)),
        Ok(value) => {
            let Ok(name) = Text::from_str(alloc, local) else {
                drop(value);
                return Err(Memory);
            };
            Ok(Ok(Some(Entry { name, value })))
        }
    }
}

fn entry_by(
    alloc: Global,
    element: Option<XsltElement>,
    scope: &Scope,
    kind: Option<ValueKind>,
    local: &str,
    text: &Text,
) -> Result<Read<Option<Entry>>, Memory>
    ensures { Finds (seen listed) (spec.entry_by (barred_by element) (chars local.now) scope.now text.now kind) result }
{
    match kind {
        None => Ok(Ok(None)),
        Some(kind) => entry_with(alloc, element, scope, kind, local, text),
    }
}

fn is_of(name: &Meaning<'_>, uri: &str) -> bool
    ensures { result ≡ bytes_eq name.now.uri (chars uri.now) }
{
    name.is_of(uri)
}

fn kind_of(name: &Meaning<'_>, rows: &[Row]) -> Option<ValueKind>
    ensures { result ≡ kind_named name.now.local (map row_of rows.now) }
{
    kind_named(rows, name.local())
}

// What an attribute of this expanded name says.
fn entry_named(
    alloc: Global,
    element: Option<XsltElement>,
    scope: &Scope,
    uri: &str,
    rows: &[Row],
    name: &Meaning<'_>,
    text: &Text,
) -> Result<Read<Option<Entry>>, Memory>
    ensures { Finds (seen listed) (spec.entry_of (barred_by element) scope.now (chars uri.now) (map row_of rows.now) text.now (Some name.now)) result }
{
    if is_of(name, uri) {
        return entry_by(
            alloc,
            element,
            scope,
            kind_of(name, rows),
            name.local(),
            text,
        );
    }
    Ok(Ok(None))
}

// What an attribute says, where it is of this namespace and of these rows.
fn entry_of(
    alloc: Global,
    element: Option<XsltElement>,
    scope: &Scope,
    uri: &str,
    rows: &[Row],
    attribute: &Written,
) -> Result<Read<Option<Entry>>, Memory>
    ensures { Finds (seen listed) (spec.entry_of (barred_by element) scope.now (chars uri.now) (map row_of rows.now) attribute.now.value (expanded_of scope.now (written_of attribute.now))) result }
{
    match expanded_of(scope, attribute) {
        None => Ok(Ok(None)),
        Some(name) => entry_named(alloc, element, scope, uri, rows, &name, &attribute.value),
    }
}

fn push_if(entries: &mut Gathered<Entry>, entry: Read<Option<Entry>>) -> Result<(), Memory>
    ensures { OnOk result (seen (λ es. map entry_in es) (gathered_in entries.new) ≡ appended (seen (λ es. map entry_in es) (gathered_in entries.old)) (seen listed entry)) }
{
    match entry {
        Ok(None) => Ok(()),
        Ok(Some(entry)) => entries.push(Ok(entry)),
        Err(code) => entries.push(Err(code)),
    }
}

// What the attributes of this namespace say that are of these rows.
fn entries_of(
    alloc: Global,
    element: Option<XsltElement>,
    scope: &Scope,
    uri: &str,
    rows: &[Row],
    attributes: &[Written],
) -> Result<Read<Vec<Entry>>, Memory>
    ensures { Finds (seen (λ list. map entry_in list.items)) (spec.entries_of (barred_by element) scope.now (chars uri.now) (map row_of rows.now) (map written_of attributes.now)) result }
{
    let mut entries = Gathered::new(alloc);
    for attribute in attributes {
        let entry = entry_of(alloc, element, scope, uri, rows, attribute)?;
        push_if(&mut entries, entry)?;
    }
    Ok(entries.finish())
}

// The same as attributes with their values.
fn entries_by(
    alloc: Global,
    element: Option<XsltElement>,
    scope: &Scope,
    uri: &str,
    rows: &[Row],
    attributes: &[Written],
) -> Result<Entries, AttributeFault>
    ensures { IsAnswer entries_in (spec.entries_of (barred_by element) scope.now (chars uri.now) (map row_of rows.now) (map written_of attributes.now)) result }
{
    match entries_of(alloc, element, scope, uri, rows, attributes)? {
        Ok(list) => Ok(Entries { list }),
        Err(code) => Err(AttributeFault::Refused(code)),
    }
}

/// What the attributes of an element of XSLT say. Else the least code that stands there: S10 to S16, S24 and S26.
pub fn attributes_of(
    alloc: Global,
    scope: &Scope,
    element: XsltElement,
    attributes: &[Written],
) -> Result<Entries, AttributeFault>
    ensures { IsAnswer entries_in (spec.attributes_of scope.now element (map written_of attributes.now)) result }
{
    entries_by(
        alloc,
        Some(element),
        scope,
        "",
        rows_of(element),
        attributes,
    )
}

/// What the attributes of XSLT's namespace say at another element, where they are of these rows. Else the least code
/// that stands there: S10 to S16 and S26.
pub fn xslt_attributes_of(
    alloc: Global,
    scope: &Scope,
    rows: &[Row],
    attributes: &[Written],
) -> Result<Entries, AttributeFault>
    ensures { IsAnswer entries_in (spec.xslt_attributes_of scope.now (map row_of rows.now) (map written_of attributes.now)) result }
{
    entries_by(alloc, None, scope, XSLT_URI, rows, attributes)
}
