// The declarations of an element, and its attributes with their prefixes (XSLT 1.0, sections 7.1.1 to 7.1.3).
ghost use Rattle.std.specs.Prelude.{◌≡◌, ◌++◌, ◌||◌, [], map, take, drop, decimal, length, ◌<◌, ◌^◌, IfOk, OnOk, if◌then◌else◌};
ghost use Rattle.spec_document.specs.Declaration.{is_xml, is_xmlns, namespaces_in};
ghost use Rattle.spec_result.specs.Recovery.{local_of, prefix_of, namespaces_of, attributes_of, all_added};
ghost use Rattle.spec_result.specs.Shape.{can_take, is_free, made_prefix, new_prefix, opened, prefix_for, taken_prefix, with_attribute, with_attributes, with_nodes, with_prefix};
ghost use Rattle.xt_names.specs.View.{entry_of};
ghost use Rattle.xt_tree.specs.StreamView.{stream_of};
ghost use Rattle.xt_result.specs.View.{given_of, opening_of};

use crate::attributes::{Attributes, Given, attributes_of};
use crate::leading::copy_namespaces;
use crate::name::{local_of, prefix_for, prefix_of, with_prefix};
use crate::opening::Opening;
use itoa::Buffer;
use std::alloc::Global;
use xt_names::{Namespace, Scope};
use xt_text::{Memory, Text};
use xt_tree::Items;

/// The start of an element: its name as it is written, and what stands behind that.
#[derive(Drop)]
pub(crate) struct Start {
    pub(crate) name: Text,
    pub(crate) opening: Opening,
}

/// The start of an element that stands in this scope.
pub(crate) fn start_of(
    alloc: Global,
    scope: &Scope,
    name: &Text,
    uri: &Text,
    namespaces: &[Namespace],
    content: &Items,
) -> Result<Start, Memory>
    ensures name { IfOk result (λ start. start.name ≡ with_prefix (prefix_for (prefix_of name.now) uri.now) (local_of name.now)) }
    ensures opening { IfOk result (λ start. opening_of start.opening ≡ opened scope.now (prefix_for (prefix_of name.now) uri.now) uri.now (map entry_of namespaces.now ++ namespaces_of (stream_of content.now)) (all_added [] (attributes_of (stream_of content.now)))) }
{
    let own = own_prefix(alloc, name, uri)?;
    let opening = opened(alloc, scope, &own, uri, namespaces, content)?;
    let name = with_prefix(alloc, &own, local_of(name.as_str()))?;
    Ok(Start { name, opening })
}

// The prefix of the element's own name.
fn own_prefix(alloc: Global, name: &Text, uri: &Text) -> Result<Text, Memory>
    ensures { IfOk result (λ own. own ≡ prefix_for (prefix_of name.now) uri.now) }
{
    prefix_for(alloc, prefix_of(name.as_str()), uri)
}

fn opened(
    alloc: Global,
    scope: &Scope,
    own: &Text,
    uri: &Text,
    namespaces: &[Namespace],
    content: &Items,
) -> Result<Opening, Memory>
    ensures { IfOk result (λ opening. opening_of opening ≡ opened scope.now own.now uri.now (map entry_of namespaces.now ++ namespaces_of (stream_of content.now)) (all_added [] (attributes_of (stream_of content.now)))) }
{
    let mut opening = Opening::new(alloc, scope)?;
    opening.need(alloc, own, uri)?;
    opening.settle(alloc, own)?;
    copy_nodes(alloc, &mut opening, namespaces)?;
    copy_namespaces(alloc, &mut opening, content)?;
    let attributes = attributes_of(alloc, content)?;
    push_attributes(alloc, &mut opening, &attributes)?;
    Ok(opening)
}

fn copy_nodes(alloc: Global, opening: &mut Opening, namespaces: &[Namespace]) -> Result<(), Memory>
    ensures { OnOk result (opening_of opening.new ≡ with_nodes (map entry_of namespaces.now) (opening_of opening.old)) }
{
    for namespace in namespaces {
        opening.copy_node(alloc, namespace)?;
    }
    Ok(())
}

fn push_attributes(
    alloc: Global,
    opening: &mut Opening,
    attributes: &Attributes,
) -> Result<(), Memory>
    ensures { OnOk result (opening_of opening.new ≡ with_attributes attributes.now (opening_of opening.old)) }
{
    for index in 0..attributes.by_name.len() {
        push_at(alloc, opening, attributes, index)?;
    }
    Ok(())
}

// Adds the attribute at this index, where there is one.
fn push_at(
    alloc: Global,
    opening: &mut Opening,
    attributes: &Attributes,
    index: usize,
) -> Result<(), Memory>
    ensures { OnOk result (opening_of opening.new ≡ with_attributes (take 1 (drop index attributes.now)) (opening_of opening.old)) }
{
    match attributes.by_name.get_index(index) {
        None => Ok(()),
        Some((name, given)) => push_attribute(alloc, opening, name, given),
    }
}

fn push_attribute(
    alloc: Global,
    opening: &mut Opening,
    name: &(String, String),
    given: &Given,
) -> Result<(), Memory>
    ensures { OnOk result (opening_of opening.new ≡ with_attribute (given_of (name.now, given.now)) (opening_of opening.old)) }
{
    let uri = Text::from_str(alloc, name.0.as_str())?;
    let local = Text::from_str(alloc, name.1.as_str())?;
    push_given(alloc, opening, &uri, &local, given)
}

fn push_given(
    alloc: Global,
    opening: &mut Opening,
    uri: &Text,
    local: &Text,
    given: &Given,
) -> Result<(), Memory>
    ensures { OnOk result (opening_of opening.new ≡ with_attribute (record { prefix = given.now.prefix; local = local.now; uri = uri.now; value = given.now.value }) (opening_of opening.old)) }
{
    if uri.is_empty() {
        let name = local.copy(alloc)?;
        let value = given.value.copy(alloc)?;
        return opening.write(name, value);
    }
    let wanted = wanted_prefix(alloc, &given.prefix, uri)?;
    let prefix = taken_prefix(alloc, opening, wanted, uri)?;
    opening.need(alloc, &prefix, uri)?;
    opening.settle(alloc, &prefix)?;
    let name = with_prefix(alloc, &prefix, local.as_str())?;
    let value = given.value.copy(alloc)?;
    opening.write(name, value)
}

// The prefix that an attribute in a namespace is to have: as written, but `xmlns` is none.
fn wanted_prefix(alloc: Global, written: &Text, uri: &Text) -> Result<Text, Memory>
    ensures { IfOk result (λ prefix. prefix ≡ prefix_for (if is_xmlns written.now then [] else written.now) uri.now) }
{
    if written.is("xmlns") {
        return prefix_for(alloc, "", uri);
    }
    prefix_for(alloc, written.as_str(), uri)
}

// The prefix that it has: the one that is wanted, where that can be taken, else a new one.
fn taken_prefix(alloc: Global, opening: &Opening, wanted: Text, uri: &Text) -> Result<Text, Memory>
    ensures { IfOk result (λ prefix. prefix ≡ taken_prefix wanted uri.now (opening_of opening.now)) }
{
    if can_take(opening, &wanted, uri) {
        return Ok(wanted);
    }
    new_prefix(alloc, &opening.scope, uri)
}

// Whether an attribute can have the prefix: it stands for the URI, or can be declared here.
fn can_take(opening: &Opening, prefix: &Text, uri: &Text) -> bool
    ensures { result ≡ can_take prefix.now uri.now (opening_of opening.now) }
{
    if prefix.is_empty() {
        return false;
    }
    if opening.is_bound(prefix, uri) {
        return true;
    }
    !is_barred(opening, prefix)
}

// Whether the prefix cannot be declared here.
fn is_barred(opening: &Opening, prefix: &Text) -> bool
    ensures { result ≡ (is_xml prefix.now || (opening_of opening.now).settled prefix.now) }
{
    if prefix.is("xml") {
        return true;
    }
    opening.is_settled(prefix)
}

// The first of `ns1`, `ns2`, .. that stands for the URI or for none.
fn new_prefix(alloc: Global, scope: &Scope, uri: &Text) -> Result<Text, Memory>
    ensures { IfOk result (λ prefix. prefix ≡ new_prefix scope.now uri.now) }
{
    let most = namespaces_in(alloc, scope)?;
    for tried in 0..most {
        let prefix = made_prefix(alloc, tried)?;
        if is_free(scope, &prefix, uri) {
            return Ok(prefix);
        }
    }
    made_prefix(alloc, most)
}

// How many namespaces are in scope.
fn namespaces_in(alloc: Global, scope: &Scope) -> Result<usize, Memory>
    ensures count { IfOk result (λ count. count ≡ length (namespaces_in scope.now)) }
    ensures small { IfOk result (λ count. count < 2 ^ 63) }
{
    let namespaces = scope.namespaces(alloc)?;
    Ok(namespaces.len())
}

fn made_prefix(alloc: Global, tried: usize) -> Result<Text, Memory>
    requires { tried < 2 ^ 63 }
    ensures { IfOk result (λ prefix. prefix ≡ made_prefix tried) }
{
    let mut prefix = Text::from_str(alloc, "ns")?;
    push_number(&mut prefix, tried as u64 + 1)?;
    Ok(prefix)
}

// Adds the decimal digits of a number.
fn push_number(text: &mut Text, number: u64) -> Result<(), Memory>
    ensures { OnOk result (text.new ≡ text.old ++ decimal number) }
{
    text.push_str(Buffer::new().format(number))
}

fn is_free(scope: &Scope, prefix: &Text, uri: &Text) -> bool
    ensures { result ≡ is_free scope.now prefix.now uri.now }
{
    match scope.resolve(prefix.as_str()) {
        None => true,
        Some(there) => there.is_empty() || there.same(uri),
    }
}
