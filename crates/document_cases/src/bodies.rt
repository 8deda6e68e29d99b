// Bodies of PYX lines. `build LINE..` gives the document of the lines, numbered from 0, or the refusal and
// its line, as `no 9 at 3`; `build-from FIRST LINE..` numbers from FIRST on; `builds LINE..` gives only the
// number behind those of the document. `siblings FIRST PARENT NUMBER LINE..` gives siblings, and the number
// behind theirs, that are to stand below `element DEPTH`, or below `root ELEMENTS`, a root that has so many
// elements besides them; `siblings-in ATTRIBUTE.. : FIRST PARENT NUMBER LINE..` declares prefixes around
// them. `lines LINE..` gives the lines that are written for the document, as words of a line here.
//
// A document is written as `(root 0 (element 1 a @x="1" (text 2 "hi")))`, each node with its number.

use crate::scopes::scope;
use cases::{
    Fault, Word, behind, body, document, halves, number_at, part, push_number, push_part,
    push_quoted, push_word, text_at,
};
use std::alloc::Global;
use std::rc::Rc;
use xt_build::{BuildFault, Built, BuiltNodes, Parent, build, build_nodes, lines};
use xt_names::Scope;
use xt_text::{Memory, Text};
use xt_tree::{Content, Doc, Node, NodeId, Written};

/// Answers the call, if it is one of these.
pub fn answer(alloc: Global, out: &mut Text, call: &str, words: &[Word]) -> Result<bool, Fault> {
    match call {
        "build" => push_built(alloc, out, 0, words)?,
        "builds" => push_behind(out, built(alloc, 0, words)?)?,
        "build-from" => push_built(alloc, out, number_at(words, 0)?, behind(words, 1))?,
        "siblings" => push_siblings(alloc, out, &[], words)?,
        "siblings-in" => {
            let (declared, rest) = halves(words);
            push_siblings(alloc, out, declared, rest)?;
        }
        "lines" => push_lines(alloc, out, words)?,
        _ => return Ok(false),
    }
    Ok(true)
}

fn push_lines(alloc: Global, out: &mut Text, words: &[Word]) -> Result<(), Fault> {
    let document = document(alloc, words)?;
    push_words(out, lines(alloc, &document)?)?;
    Ok(())
}

fn push_words(out: &mut Text, lines: Vec<Text>) -> Result<(), Memory> {
    for line in &lines {
        part(out)?;
        push_word(out, line.as_str())?;
    }
    Ok(())
}

fn built(alloc: Global, first: u64, words: &[Word]) -> Result<Result<Built, BuildFault>, Memory> {
    let body = body(alloc, words)?;
    let scope = Scope::root(alloc)?;
    Ok(build(alloc, body.as_slice(), &scope, NodeId { number: first }))
}

fn push_built(alloc: Global, out: &mut Text, first: u64, words: &[Word]) -> Result<(), Memory> {
    match built(alloc, first, words)? {
        Ok(built) => push_document(out, &built.document),
        Err(fault) => push_fault(out, fault),
    }
}

fn push_behind(out: &mut Text, answer: Result<Built, BuildFault>) -> Result<(), Memory> {
    match answer {
        Ok(built) => push_next(out, built.next),
        Err(fault) => push_fault(out, fault),
    }
}

fn push_siblings(
    alloc: Global,
    out: &mut Text,
    declared: &[Word],
    words: &[Word],
) -> Result<(), Fault> {
    let number = number_at(words, 0)?;
    let parent = parent(text_at(words, 1)?, number_at(words, 2)?)?;
    let scope = scope(alloc, declared)?;
    let body = body(alloc, behind(words, 3))?;
    push_made(
        out,
        build_nodes(alloc, body.as_slice(), &scope, NodeId { number }, parent),
    )?;
    Ok(())
}

fn push_made(out: &mut Text, answer: Result<BuiltNodes, BuildFault>) -> Result<(), Memory> {
    match answer {
        Ok(built) => {
            push_nodes(out, built.nodes.list())?;
            push_next(out, built.next)
        }
        Err(fault) => push_fault(out, fault),
    }
}

fn parent(kind: &str, number: u64) -> Result<Parent, Fault> {
    match kind {
        "root" => Ok(Parent::Root { elements: number }),
        "element" => Ok(Parent::Element { depth: number }),
        _ => Err(Fault::NoCase),
    }
}

fn push_next(out: &mut Text, next: NodeId) -> Result<(), Memory> {
    push_part(out, "next ")?;
    push_number(out, next.number)
}

fn push_fault(out: &mut Text, fault: BuildFault) -> Result<(), Memory> {
    match fault {
        BuildFault::Memory => Err(Memory),
        BuildFault::Refused(fault) => {
            push_part(out, "no ")?;
            push_number(out, u64::from(fault.code.number()))?;
            out.push_str(" at ")?;
            push_number(out, fault.line)
        }
    }
}

fn push_document(out: &mut Text, document: &Doc) -> Result<(), Memory> {
    out.push_str("(root ")?;
    push_number(out, document.root().number)?;
    push_nodes(out, document.children())?;
    out.push(')')
}

fn push_nodes(out: &mut Text, siblings: &[Rc<Node>]) -> Result<(), Memory> {
    for node in siblings {
        part(out)?;
        push_content(out, node.id().number, node.content())?;
        push_nodes(out, node.children())?;
        out.push(')')?;
    }
    Ok(())
}

fn push_content(out: &mut Text, number: u64, content: &Content) -> Result<(), Memory> {
    match content {
        Content::Element { name, attributes } => {
            push_kind(out, "(element ", number)?;
            out.push_str(name.as_str())?;
            push_attributes(out, attributes.as_slice())
        }
        Content::Text { text } => {
            push_kind(out, "(text ", number)?;
            push_quoted(out, text.as_str())
        }
        Content::Comment { text } => {
            push_kind(out, "(comment ", number)?;
            push_quoted(out, text.as_str())
        }
        Content::Instruction { target, text } => {
            push_kind(out, "(instruction ", number)?;
            out.push_str(target.as_str())?;
            out.push(' ')?;
            push_quoted(out, text.as_str())
        }
    }
}

fn push_kind(out: &mut Text, kind: &str, number: u64) -> Result<(), Memory> {
    out.push_str(kind)?;
    push_number(out, number)?;
    out.push(' ')
}

fn push_attributes(out: &mut Text, attributes: &[Written]) -> Result<(), Memory> {
    for attribute in attributes {
        out.push_str(" @")?;
        out.push_str(attribute.name.as_str())?;
        out.push('=')?;
        push_quoted(out, attribute.value.as_str())?;
    }
    Ok(())
}
