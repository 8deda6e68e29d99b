// Nodes of a document, which is built of the lines before `:`. `nodes LINE..` lists all: the number with
// the part, the place, the kind, the name, and the string-value; `at LINE.. : PATH..` gives the number of
// the node at each path, `place-of LINE.. : NODE..` the path of each node, `has LINE.. : NODE..` tells whether it
// is there. `attributes-of LINE.. : NUMBER..` and `namespaces-of LINE.. : NUMBER..` list those of nodes, as
// `2: x="1" 3:`. A node is written as its number, an attribute as `2@1`, a namespace node as `2#1`.

use crate::parts::push_path;
use cases::{
    Fault, Word, document, halves, node, number_of, part, push_name, push_number, push_part,
    push_quoted, push_reference, push_yes, text_of,
};
use std::alloc::Global;
use std::rc::Rc;
use xt_names::Expanded;
use xt_text::{Memory, Path, Text};
use xt_tree::{Doc, Kind, Node, NodeId, NodeRef, Part};

// What is asked of a document.
#[derive(Clone, Copy)]
enum Question {
    All,
    At,
    PlaceOf,
    Has,
    Attributes,
    Namespaces,
}

fn question_of(call: &str) -> Option<Question> {
    match call {
        "nodes" => Some(Question::All),
        "at" => Some(Question::At),
        "place-of" => Some(Question::PlaceOf),
        "has" => Some(Question::Has),
        "attributes-of" => Some(Question::Attributes),
        "namespaces-of" => Some(Question::Namespaces),
        _ => None,
    }
}

/// Answers the call, if it is one of these.
pub fn answer(alloc: Global, out: &mut Text, call: &str, words: &[Word]) -> Result<bool, Fault> {
    match question_of(call) {
        None => Ok(false),
        Some(question) => {
            let (body, asked) = halves(words);
            let document = document(alloc, body)?;
            push_answer(alloc, out, &document, question, asked)?;
            Ok(true)
        }
    }
}

fn push_answer(
    alloc: Global,
    out: &mut Text,
    document: &Doc,
    question: Question,
    asked: &[Word],
) -> Result<(), Fault> {
    match question {
        Question::All => Ok(push_all(alloc, out, document)?),
        _ => {
            for word in asked {
                push_one(alloc, out, document, question, text_of(word)?)?;
            }
            Ok(())
        }
    }
}

fn push_one(
    alloc: Global,
    out: &mut Text,
    document: &Doc,
    question: Question,
    text: &str,
) -> Result<(), Fault> {
    match question {
        Question::At => push_at(out, document, &path(alloc, text)?)?,
        Question::PlaceOf => push_place(alloc, out, document, &node(text)?)?,
        Question::Attributes => push_attributes(alloc, out, document, id(text)?)?,
        Question::Namespaces => push_namespaces(alloc, out, document, id(text)?)?,
        Question::Has | Question::All => {
            let node = node(text)?;
            push_yes(out, document.has(alloc, &node)?)?;
        }
    }
    Ok(())
}

fn id(text: &str) -> Result<NodeId, Fault> {
    let number = number_of(text)?;
    Ok(NodeId { number })
}

fn push_attributes(
    alloc: Global,
    out: &mut Text,
    document: &Doc,
    id: NodeId,
) -> Result<(), Memory> {
    let attributes = document.attributes(alloc, id)?;
    push_owner(out, id)?;
    for attribute in &attributes {
        push_pair(out, attribute.name.as_str(), attribute.value.as_str())?;
    }
    Ok(())
}

fn push_namespaces(
    alloc: Global,
    out: &mut Text,
    document: &Doc,
    id: NodeId,
) -> Result<(), Memory> {
    let namespaces = document.namespaces(alloc, id)?;
    push_owner(out, id)?;
    for namespace in &namespaces {
        push_pair(out, namespace.prefix.as_str(), namespace.uri.as_str())?;
    }
    Ok(())
}

fn push_owner(out: &mut Text, id: NodeId) -> Result<(), Memory> {
    part(out)?;
    push_number(out, id.number)?;
    out.push(':')
}

fn push_pair(out: &mut Text, name: &str, value: &str) -> Result<(), Memory> {
    push_part(out, name)?;
    out.push('=')?;
    push_quoted(out, value)
}

// The path that a text like `/1/2` writes.
fn path(alloc: Global, text: &str) -> Result<Path, Fault> {
    let mut path = Path::new(alloc);
    for step in text.split('/') {
        if !step.is_empty() {
            let position = number_of(step)?;
            path.push(position)?;
        }
    }
    Ok(path)
}

fn push_at(out: &mut Text, document: &Doc, path: &Path) -> Result<(), Memory> {
    match document.at(path) {
        None => push_part(out, "none"),
        Some(node) => {
            part(out)?;
            push_number(out, node.node.number)
        }
    }
}

fn push_place(alloc: Global, out: &mut Text, document: &Doc, node: &NodeRef) -> Result<(), Memory> {
    match document.place(alloc, node)? {
        None => push_part(out, "none"),
        Some(path) => {
            part(out)?;
            push_path(out, &path)
        }
    }
}

fn push_all(alloc: Global, out: &mut Text, document: &Doc) -> Result<(), Memory> {
    push_with_parts(alloc, out, document, document.root())?;
    push_below(alloc, out, document, document.children())
}

fn push_below(
    alloc: Global,
    out: &mut Text,
    document: &Doc,
    siblings: &[Rc<Node>],
) -> Result<(), Memory> {
    for sibling in siblings {
        push_with_parts(alloc, out, document, sibling.id())?;
        push_below(alloc, out, document, sibling.children())?;
    }
    Ok(())
}

// How many attributes, and how many namespace nodes, of a node are listed at most.
const MOST_PARTS: u64 = 100;

fn push_with_parts(
    alloc: Global,
    out: &mut Text,
    document: &Doc,
    node: NodeId,
) -> Result<(), Memory> {
    push_node(alloc, out, document, &NodeRef::of(node))?;
    for number in 1..MOST_PARTS {
        let part = Part::Attribute(number);
        push_node(alloc, out, document, &NodeRef { node, part })?;
    }
    for number in 1..MOST_PARTS {
        let part = Part::Namespace(number);
        push_node(alloc, out, document, &NodeRef { node, part })?;
    }
    Ok(())
}

// Lists the node, where it is there.
fn push_node(alloc: Global, out: &mut Text, document: &Doc, node: &NodeRef) -> Result<(), Memory> {
    if !document.has(alloc, node)? {
        return Ok(());
    }
    if !out.is_empty() {
        out.push_str("; ")?;
    }
    push_reference(out, node)?;
    push_place(alloc, out, document, node)?;
    push_part(out, word_of(document.kind(node)))?;
    push_found(out, document.name(alloc, node)?)?;
    part(out)?;
    push_text(out, document.string_value(alloc, node)?)
}

fn push_found(out: &mut Text, name: Option<Expanded>) -> Result<(), Memory> {
    match name {
        None => push_part(out, "-"),
        Some(name) => push_expanded(out, &name),
    }
}

fn push_text(out: &mut Text, text: Text) -> Result<(), Memory> {
    push_quoted(out, text.as_str())
}

fn push_expanded(out: &mut Text, name: &Expanded) -> Result<(), Memory> {
    if name.local().is_empty() {
        return push_part(out, "\"\"");
    }
    part(out)?;
    push_name(out, name)
}

fn word_of(kind: Kind) -> &'static str {
    match kind {
        Kind::Root => "root",
        Kind::Element => "element",
        Kind::Attribute => "attribute",
        Kind::Namespace => "namespace",
        Kind::Text => "text",
        Kind::Comment => "comment",
        Kind::Instruction => "instruction",
    }
}
