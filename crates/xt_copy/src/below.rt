// The copies of siblings, with all that is below them.
ghost use Rattle.std.specs.Prelude.{◌≡◌, map, IfOk, OnOk};
ghost use Rattle.spec_document.specs.Forest as spec;
ghost use Rattle.spec_meaning.specs.Stream as stream;
ghost use Rattle.xt_tree.specs.StreamView.{single_of, stream_of};
ghost use Rattle.xt_tree.specs.View.{content_of, forest_of, tree_of, written_of};
ghost use Rattle.xt_copy.specs.Copied as copied;

use crate::leaf::text_content;
use crate::naming::{attribute_uri, element_uri, namespaces_in, scope_inside};
use std::alloc::Global;
use std::rc::Rc;
use xt_names::{Scope, is_declaration};
use xt_text::{Memory, Text};
use xt_tree::{Content, Item, Items, Node, Written};

/// Adds the copies of these siblings, which stand in this scope. Takes time by what is copied.
#[cycle(copies)]
pub(crate) fn push_copies(
    alloc: Global,
    items: &mut Items,
    siblings: &[Rc<Node>],
    scope: &Scope,
) -> Result<(), Memory>
    ensures { OnOk result (stream_of items.new ≡ stream.followed (stream_of items.old) (copied.copied_in scope.now (forest_of siblings.now))) }
{
    for sibling in siblings {
        push_copy(alloc, items, sibling, scope)?;
    }
    Ok(())
}

// Adds the copy of this node, with what is below it.
#[cycle(copies)]
fn push_copy(alloc: Global, items: &mut Items, node: &Node, scope: &Scope) -> Result<(), Memory>
    ensures { OnOk result (stream_of items.new ≡ stream.followed (stream_of items.old) (copied.copied_in scope.now (spec.Node (tree_of node.now).number (tree_of node.now).content (tree_of node.now).children spec.Empty))) }
{
    let content = node.content();
    let inner = scope_inside(alloc, scope, content)?;
    let mut inside = attributes_in(alloc, content, &inner)?;
    push_copies(alloc, &mut inside, node.children(), &inner)?;
    let copy = copy_around(alloc, content, &inner, inside)?;
    items.push(copy)
}

// What the content of a node begins with: of an element its attributes.
fn attributes_in(alloc: Global, content: &Content, scope: &Scope) -> Result<Items, Memory>
    ensures { IfOk result (λ items. stream_of items ≡ copied.begun scope.now (content_of content.now)) }
{
    match content {
        Content::Element { attributes, .. } => own_attributes(alloc, attributes.as_slice(), scope),
        Content::Text { .. } | Content::Comment { .. } | Content::Instruction { .. } => {
            Ok(Items::new(alloc))
        }
    }
}

fn own_attributes(alloc: Global, attributes: &[Written], scope: &Scope) -> Result<Items, Memory>
    ensures { IfOk result (λ items. stream_of items ≡ copied.copied_attributes scope.now (map written_of attributes.now)) }
{
    let mut items = Items::new(alloc);
    for attribute in attributes {
        push_attribute(alloc, &mut items, attribute, scope)?;
    }
    Ok(items)
}

// Adds the attribute. A declaration is none.
fn push_attribute(
    alloc: Global,
    items: &mut Items,
    attribute: &Written,
    scope: &Scope,
) -> Result<(), Memory>
    ensures { OnOk result (stream_of items.new ≡ stream.followed (stream_of items.old) (copied.copied_attribute scope.now (written_of attribute.now))) }
{
    if is_declaration(attribute.name.as_str()) {
        return Ok(());
    }
    let copy = copy_attribute(alloc, attribute, scope)?;
    items.push(copy)
}

fn copy_attribute(alloc: Global, attribute: &Written, scope: &Scope) -> Result<Item, Memory>
    ensures { IfOk result (λ item. single_of item ≡ copied.attribute_alone scope.now (written_of attribute.now)) }
{
    let name = attribute.name.copy(alloc)?;
    let uri = attribute_uri(alloc, scope, attribute.name.as_str())?;
    let value = attribute.value.copy(alloc)?;
    let content = text_content(alloc, value)?;
    Ok(Item::Attribute { name, uri, content })
}

// The copy of a node with this content, in the scope inside it. What is inside counts only for an element.
fn copy_around(
    alloc: Global,
    content: &Content,
    scope: &Scope,
    inside: Items,
) -> Result<Item, Memory>
    ensures { IfOk result (λ item. single_of item ≡ copied.around scope.now (content_of content.now) (stream_of inside)) }
{
    match content {
        Content::Element { name, .. } => copy_element(alloc, name, scope, inside),
        Content::Text { text } => copy_text(alloc, text),
        Content::Comment { text } => copy_comment(alloc, text),
        Content::Instruction { target, text } => copy_instruction(alloc, target, text),
    }
}

fn copy_element(alloc: Global, written: &Text, scope: &Scope, inside: Items) -> Result<Item, Memory>
    ensures { IfOk result (λ item. single_of item ≡ stream.Element written.now (copied.element_uri scope.now written.now) (copied.namespaces_in scope.now) (stream_of inside) stream.Ended) }
{
    let content = Rc::new(alloc, inside)?;
    let name = written.copy(alloc)?;
    let uri = element_uri(alloc, scope, written.as_str())?;
    let namespaces = namespaces_in(alloc, scope)?;
    Ok(Item::Element {
        name,
        uri,
        namespaces,
        content,
    })
}

fn copy_text(alloc: Global, text: &Text) -> Result<Item, Memory>
    ensures { IfOk result (λ item. single_of item ≡ stream.Text text.now stream.Ended) }
{
    let copy = text.copy(alloc)?;
    Ok(Item::Text(copy))
}

fn copy_comment(alloc: Global, text: &Text) -> Result<Item, Memory>
    ensures { IfOk result (λ item. single_of item ≡ stream.Comment (stream.Text text.now stream.Ended) stream.Ended) }
{
    let copy = text.copy(alloc)?;
    let content = text_content(alloc, copy)?;
    Ok(Item::Comment { content })
}

fn copy_instruction(alloc: Global, target: &Text, text: &Text) -> Result<Item, Memory>
    ensures { IfOk result (λ item. single_of item ≡ stream.Instruction target.now (stream.Text text.now stream.Ended) stream.Ended) }
{
    let target = target.copy(alloc)?;
    let copy = text.copy(alloc)?;
    let content = text_content(alloc, copy)?;
    Ok(Item::Instruction { target, content })
}
