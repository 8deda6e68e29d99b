// Documents and their nodes, as words.

use crate::fault::Fault;
use crate::show::push_number;
use crate::words::{Word, number_of};
use std::alloc::Global;
use xt_build::{BuildFault, Built, Line, build};
use xt_names::Scope;
use xt_text::{Memory, Text};
use xt_tree::{Doc, NodeId, NodeRef, Part};

/// The lines that the words are.
pub fn body(alloc: Global, words: &[Word]) -> Result<Vec<Line>, Memory> {
    let mut body = Vec::new(alloc);
    for word in words {
        let line = Line::new(alloc, word.as_slice())?;
        body.push(line)?;
    }
    Ok(body)
}

/// The document of the lines that the words are, its nodes numbered from 0.
pub fn document(alloc: Global, words: &[Word]) -> Result<Doc, Fault> {
    let body = body(alloc, words)?;
    built(alloc, body.as_slice())
}

/// The document of these lines, its nodes numbered from 0.
pub fn built(alloc: Global, lines: &[Line]) -> Result<Doc, Fault> {
    let scope = Scope::root(alloc)?;
    document_of(build(alloc, lines, &scope, NodeId { number: 0 }))
}

fn document_of(answer: Result<Built, BuildFault>) -> Result<Doc, Fault> {
    match answer {
        Ok(built) => Ok(built.document),
        Err(BuildFault::Memory) => Err(Fault::Memory),
        Err(BuildFault::Refused(_)) => Err(Fault::NoCase),
    }
}

/// The node that a text like `2`, an attribute `2@1` or a namespace node `2#1` names.
pub fn node(text: &str) -> Result<NodeRef, Fault> {
    if let Some((number, attribute)) = text.split_once('@') {
        return reference(number, Part::Attribute(number_of(attribute)?));
    }
    if let Some((number, namespace)) = text.split_once('#') {
        return reference(number, Part::Namespace(number_of(namespace)?));
    }
    reference(text, Part::Itself)
}

fn reference(number: &str, part: Part) -> Result<NodeRef, Fault> {
    let node = NodeId {
        number: number_of(number)?,
    };
    Ok(NodeRef { node, part })
}

/// Adds the node in that form.
pub fn push_reference(out: &mut Text, node: &NodeRef) -> Result<(), Memory> {
    push_number(out, node.node.number)?;
    match node.part {
        Part::Itself => Ok(()),
        Part::Attribute(number) => {
            out.push('@')?;
            push_number(out, number)
        }
        Part::Namespace(number) => {
            out.push('#')?;
            push_number(out, number)
        }
    }
}
