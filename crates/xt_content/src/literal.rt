// Literal result elements (XSLT 1.0, section 7.1.1).
ghost use Rattle.std.specs.Prelude.{◌≡◌, ◌&&◌, ◌++◌, ◌∷◌, [], IfOk, Ok, OnOk, Some, bytes_eq, map, not};
ghost use Rattle.std.specs.List.{filter, list_any};
ghost use Rattle.std.specs.Option.{option_and_then};
ghost use Rattle.spec_document.specs.Declaration as declaration;
ghost use Rattle.spec_document.specs.Name.{qname_of};
ghost use Rattle.spec_document.specs.Scope.{xslt_uri};
ghost use Rattle.spec_structure.specs.Inside as scopes;
ghost use Rattle.spec_structure.specs.declared.value.ValueKind.TheVariants as kind;
ghost use Rattle.spec_compile.specs.Content as spec;
ghost use Rattle.spec_compile.specs.Reading.{Done, joined, lesser};
ghost use Rattle.spec_compile.specs.Value as values;
ghost use Rattle.xt_syntax.specs.PartView.{literal_attribute_of, literal_tag_of};
ghost use Rattle.xt_attributes.specs.Answers.{Finds};
ghost use Rattle.xt_attributes.specs.Gathering.{appended, gathered_in, seen};
ghost use Rattle.xt_attributes.specs.View.{IsAnswer, entries_in, template_in};
ghost use Rattle.xt_content.specs.Attribute.{IsHeard, attribute_reading, least_with, literal_if};
ghost use Rattle.xt_content.specs.View.{around_in, literals_in};
ghost use Rattle.xt_names.specs.View.{entries_of, entry_of};
ghost use Rattle.xt_tree.specs.View.{written_of};

use crate::around::Around;
use crate::value::names_at;
use spec_expression::StaticCode;
use std::alloc::Global;
use std::rc::Rc;
use xt_attributes::{AttributeFault, Entries, Gathered, template_of, xslt_attributes_of};
use xt_names::{Expanded, QName, Scope, XSLT_URI};
use xt_structure::{Meaning, expanded_of, is_among, literal_rows};
use xt_syntax::{Avt, LiteralAttribute, LiteralTag, Namespace};
use xt_text::{Memory, Text};
use xt_tree::Written;

// ---- Names

// The prefix that the name is written with, empty without one.
fn prefix_of(alloc: Global, name: &Text) -> Result<Text, Memory>
    ensures { IfOk result (λ prefix. prefix ≡ spec.prefix_of name.now) }
{
    match QName::read(name.as_str()) {
        None => Ok(Text::new(alloc)),
        Some(name) => match name.prefix() {
            None => Ok(Text::new(alloc)),
            Some(prefix) => Text::from_str(alloc, prefix),
        },
    }
}

fn name_in(alloc: Global, scope: &Scope, name: &Text) -> Result<Option<Expanded>, Memory>
    ensures { IfOk result (λ n. n ≡ option_and_then (declaration.element_name scope.now) (qname_of name.now)) }
{
    match QName::read(name.as_str()) {
        None => Ok(None),
        Some(name) => scope.element_name(alloc, &name),
    }
}

// What the name of an element means; one without a meaning is in no namespace.
fn element_name_of(alloc: Global, scope: &Scope, name: &Text) -> Result<Expanded, Memory>
    ensures { IfOk result (λ n. n ≡ spec.element_name_of scope.now name.now) }
{
    match name_in(alloc, scope, name)? {
        Some(name) => Ok(name),
        None => Ok(Expanded::new(Text::new(alloc), name.copy(alloc)?)),
    }
}

// ---- Namespaces

fn is_of_xslt(uri: &Text) -> bool
    ensures { result ≡ bytes_eq uri.now xslt_uri }
{
    uri.is(XSLT_URI)
}

fn is_included(excluded: &[Text], uri: &Text) -> bool
    ensures { result ≡ (not (bytes_eq uri.now xslt_uri) && not (list_any (bytes_eq uri.now) excluded.now)) }
{
    !is_of_xslt(uri) && !is_among(uri.as_str(), excluded)
}

fn is_copied(around: &Around, namespace: &Namespace) -> bool
    ensures { result ≡ spec.is_copied (around_in around.now) (entry_of namespace.now) }
{
    is_included(around.excluded.as_slice(), &namespace.uri)
        && !is_among(namespace.uri.as_str(), around.inside.extensions.as_slice())
}

fn copy(alloc: Global, namespace: &Namespace) -> Result<Namespace, Memory>
    ensures { IfOk result (λ copy. entry_of copy ≡ entry_of namespace.now) }
{
    let prefix = namespace.prefix.copy(alloc)?;
    let uri = namespace.uri.copy(alloc)?;
    Ok(Namespace { prefix, uri })
}

fn push_copied(
    alloc: Global,
    around: &Around,
    namespaces: &mut Vec<Namespace>,
    namespace: &Namespace,
) -> Result<(), Memory>
    ensures { OnOk result (map entry_of namespaces.new.items ≡ map entry_of namespaces.old.items ++ filter (spec.is_copied (around_in around.now)) (entry_of namespace.now ∷ [])) }
{
    if is_copied(around, namespace) {
        namespaces.push(copy(alloc, namespace)?)?;
    }
    Ok(())
}

fn copied(
    alloc: Global,
    around: &Around,
    namespaces: &[Rc<Namespace>],
) -> Result<Vec<Namespace>, Memory>
    ensures { IfOk result (λ list. map entry_of list.items ≡ filter (spec.is_copied (around_in around.now)) (entries_of namespaces.now)) }
{
    let mut list = Vec::new(alloc);
    for namespace in namespaces {
        push_copied(alloc, around, &mut list, namespace)?;
    }
    Ok(list)
}

// The namespaces that the element brings into the result.
fn namespaces_of(alloc: Global, around: &Around) -> Result<Vec<Namespace>, Memory>
    ensures { IfOk result (λ list. map entry_of list.items ≡ filter (spec.is_copied (around_in around.now)) (declaration.namespaces_in around.now.inside.scope)) }
{
    let namespaces = around.inside.scope.namespaces(alloc)?;
    copied(alloc, around, namespaces.as_slice())
}

// ---- Attributes

type Read<T> = Result<T, StaticCode>;

// What was read, or the code that stands there; want of memory alone is an error.
fn heard<T: Drop>(answer: Result<T, AttributeFault>) -> Result<Read<T>, Memory>
    ensures { IsHeard answer result }
{
    match answer {
        Ok(value) => Ok(Ok(value)),
        Err(AttributeFault::Refused(code)) => Ok(Err(code)),
        Err(AttributeFault::Memory) => Err(Memory),
    }
}

fn template_at(alloc: Global, scope: &Scope, text: &Text) -> Result<Read<Avt>, Memory>
    ensures { Finds (seen template_in) (values.value_of kind.Template scope.now text.now) result }
{
    heard(template_of(alloc, scope, text))
}

// The attribute of this name, with the template that its value is.
fn attribute_with(
    alloc: Global,
    written: &Text,
    name: &Meaning<'_>,
    value: Avt,
) -> Result<LiteralAttribute, Memory>
    ensures { IfOk result (λ a. literal_attribute_of a ∷ [] ≡ spec.literal_attribute written.now name.now (template_in value)) }
{
    let prefix = prefix_of(alloc, written)?;
    let uri = Text::from_str(alloc, name.uri())?;
    let local = Text::from_str(alloc, name.local())?;
    Ok(LiteralAttribute {
        prefix,
        name: Expanded::new(uri, local),
        value,
    })
}

fn attribute_by(
    alloc: Global,
    written: &Text,
    name: &Meaning<'_>,
    template: Read<Avt>,
) -> Result<Read<Option<LiteralAttribute>>, Memory>
    ensures { IfOk result (λ one. seen literal_if one ≡ seen (spec.literal_attribute written.now name.now) (seen template_in template)) }
{
    match template {
        Err(code) => Ok(Err(code)),
        Ok(value) => {
            let attribute = attribute_with(alloc, written, name, value)?;
            Ok(Ok(Some(attribute)))
        }
    }
}

fn attribute_read(
    alloc: Global,
    scope: &Scope,
    attribute: &Written,
    name: &Meaning<'_>,
) -> Result<Read<Option<LiteralAttribute>>, Memory>
    ensures { Finds (seen literal_if) (attribute_reading scope.now (written_of attribute.now) name.now) result }
{
    let template = template_at(alloc, scope, &attribute.value)?;
    attribute_by(alloc, &attribute.name, name, template)
}

fn is_named_of_xslt(name: &Meaning<'_>) -> bool
    ensures { result ≡ bytes_eq name.now.uri xslt_uri }
{
    name.is_of(XSLT_URI)
}

fn literal_named(
    alloc: Global,
    scope: &Scope,
    attribute: &Written,
    name: &Meaning<'_>,
) -> Result<Read<Option<LiteralAttribute>>, Memory>
    ensures { Finds (seen literal_if) (spec.literal_by scope.now (written_of attribute.now) (Some name.now)) result }
{
    if is_named_of_xslt(name) {
        return Ok(Ok(None));
    }
    attribute_read(alloc, scope, attribute, name)
}

// What an attribute is. None where it is a declaration, has no meaning or is XSLT's.
fn literal_at(
    alloc: Global,
    scope: &Scope,
    attribute: &Written,
) -> Result<Read<Option<LiteralAttribute>>, Memory>
    ensures { Finds (seen literal_if) (spec.literal_by scope.now (written_of attribute.now) (scopes.expanded_of scope.now (written_of attribute.now))) result }
{
    match expanded_of(scope, attribute) {
        None => Ok(Ok(None)),
        Some(name) => literal_named(alloc, scope, attribute, &name),
    }
}

fn push_if(
    literals: &mut Gathered<LiteralAttribute>,
    literal: Read<Option<LiteralAttribute>>,
) -> Result<(), Memory>
    ensures { OnOk result (seen (λ ls. map literal_attribute_of ls) (gathered_in literals.new) ≡ appended (seen (λ ls. map literal_attribute_of ls) (gathered_in literals.old)) (seen literal_if literal)) }
{
    match literal {
        Ok(None) => Ok(()),
        Ok(Some(literal)) => literals.push(Ok(literal)),
        Err(code) => literals.push(Err(code)),
    }
}

fn literals_of(
    alloc: Global,
    scope: &Scope,
    attributes: &[Written],
) -> Result<Read<Vec<LiteralAttribute>>, Memory>
    ensures { Finds (seen literals_in) (spec.literal_attributes scope.now (map written_of attributes.now)) result }
{
    let mut literals = Gathered::new(alloc);
    for attribute in attributes {
        let literal = literal_at(alloc, scope, attribute)?;
        push_if(&mut literals, literal)?;
    }
    Ok(literals.finish())
}

// The attributes that are not XSLT's, or the least code that stands at one of them.
fn literal_attributes(
    alloc: Global,
    scope: &Scope,
    attributes: &[Written],
) -> Result<Vec<LiteralAttribute>, AttributeFault>
    ensures { IsAnswer literals_in (spec.literal_attributes scope.now (map written_of attributes.now)) result }
{
    match literals_of(alloc, scope, attributes)? {
        Ok(list) => Ok(list),
        Err(code) => Err(AttributeFault::Refused(code)),
    }
}

// ---- Elements

fn tag_by(
    alloc: Global,
    around: &Around,
    name: &Text,
    mut entries: Entries,
    attributes: Vec<LiteralAttribute>,
) -> Result<LiteralTag, Memory>
    ensures { IfOk result (λ tag. literal_tag_of tag ≡ spec.tag_by (around_in around.now) name.now (entries_in entries) (map literal_attribute_of attributes.items)) }
{
    let namespaces = namespaces_of(alloc, around)?;
    let prefix = prefix_of(alloc, name)?;
    let name = element_name_of(alloc, &around.inside.scope, name)?;
    let sets = names_at(alloc, &mut entries, "use-attribute-sets");
    Ok(LiteralTag {
        prefix,
        name,
        namespaces,
        sets,
        attributes,
    })
}

// The lesser of this code and that of the literal attributes, if they have one.
fn least_with(code: StaticCode, literals: Read<Vec<LiteralAttribute>>) -> StaticCode
    ensures { result ≡ least_with code (seen literals_in literals) }
{
    match literals {
        Ok(_) => code,
        Err(other) => {
            if code.number() <= other.number() {
                code
            } else {
                other
            }
        }
    }
}

fn tag_after(
    alloc: Global,
    around: &Around,
    name: &Text,
    entries: Entries,
    literals: Read<Vec<LiteralAttribute>>,
) -> Result<LiteralTag, AttributeFault>
    ensures { IsAnswer literal_tag_of (Done (joined (spec.tag_by (around_in around.now) name.now) (Ok (entries_in entries)) (seen literals_in literals))) result }
{
    match literals {
        Err(code) => Err(AttributeFault::Refused(code)),
        Ok(literals) => {
            let tag = tag_by(alloc, around, name, entries, literals)?;
            Ok(tag)
        }
    }
}

fn tag_with(
    alloc: Global,
    around: &Around,
    name: &Text,
    entries: Read<Entries>,
    literals: Read<Vec<LiteralAttribute>>,
) -> Result<LiteralTag, AttributeFault>
    ensures { IsAnswer literal_tag_of (Done (joined (spec.tag_by (around_in around.now) name.now) (seen entries_in entries) (seen literals_in literals))) result }
{
    match entries {
        Err(code) => Err(AttributeFault::Refused(least_with(code, literals))),
        Ok(entries) => tag_after(alloc, around, name, entries, literals),
    }
}

/// The literal result element of this name and these attributes, where `around` is in force inside it. Else the least
/// code that stands there.
pub(crate) fn tag_of(
    alloc: Global,
    around: &Around,
    name: &Text,
    attributes: &[Written],
) -> Result<LiteralTag, AttributeFault>
    ensures { IsAnswer literal_tag_of (spec.tag_of (around_in around.now) name.now (map written_of attributes.now)) result }
{
    let scope = &around.inside.scope;
    let entries = heard(xslt_attributes_of(alloc, scope, literal_rows(), attributes))?;
    let literals = heard(literal_attributes(alloc, scope, attributes))?;
    tag_with(alloc, around, name, entries, literals)
}
