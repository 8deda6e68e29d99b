// Steps along axes, and document order: `step STEP LINE.. : NODE..` gives the nodes to which the step, as `child::*`, leads from
// each of the nodes of the document that the lines are, in the order of the axis, as `(3 4) ()`. A node is
// written as its number, an attribute as `2@1`, a namespace node as `2#1`. The prefixes of the step are those
// of expressions. `order LINE.. : NODE..` gives the nodes in document order.

use crate::trees::parsed;
use cases::{Fault, Word, behind, document, halves, node, part, push_reference, text_at, text_of};
use std::alloc::Global;
use xp_axes::{order, step};
use xt_syntax::{Expr, Step};
use xt_text::{Memory, Text};
use xt_tree::{Doc, NodeRef};

/// Answers the call, if it is one of these.
pub fn answer(alloc: Global, out: &mut Text, call: &str, words: &[Word]) -> Result<bool, Fault> {
    let (front, asked) = halves(words);
    match call {
        "step" => push_stepped(alloc, out, front, asked)?,
        "order" => push_ordered(alloc, out, front, asked)?,
        _ => return Ok(false),
    }
    Ok(true)
}

fn push_ordered(
    alloc: Global,
    out: &mut Text,
    lines: &[Word],
    asked: &[Word],
) -> Result<(), Fault> {
    let nodes = nodes(alloc, asked)?;
    let document = document(alloc, lines)?;
    push_in_order(alloc, out, &document, nodes.as_slice())
}

fn push_in_order(
    alloc: Global,
    out: &mut Text,
    document: &Doc,
    nodes: &[NodeRef],
) -> Result<(), Fault> {
    let nodes = order(alloc, document, nodes)?;
    Ok(push_list(out, nodes.as_slice())?)
}

fn nodes(alloc: Global, words: &[Word]) -> Result<Vec<NodeRef>, Fault> {
    let mut nodes = Vec::new(alloc);
    for word in words {
        let node = node(text_of(word)?)?;
        nodes.push(node)?;
    }
    Ok(nodes)
}

fn only_step(tree: &Expr) -> Result<&Step, Fault> {
    match tree {
        Expr::Path(_, steps) => {
            if steps.len() == 1 {
                Ok(&steps[0])
            } else {
                Err(Fault::NoCase)
            }
        }
        _ => Err(Fault::NoCase),
    }
}

fn push_stepped(
    alloc: Global,
    out: &mut Text,
    front: &[Word],
    asked: &[Word],
) -> Result<(), Fault> {
    let step = text_at(front, 0)?;
    let document = document(alloc, behind(front, 1))?;
    push_parsed(alloc, out, &document, step, asked)
}

fn push_parsed(
    alloc: Global,
    out: &mut Text,
    document: &Doc,
    step: &str,
    asked: &[Word],
) -> Result<(), Fault> {
    let tree = parsed(alloc, step)?;
    push_all(alloc, out, document, &tree, asked)
}

fn push_all(
    alloc: Global,
    out: &mut Text,
    document: &Doc,
    tree: &Expr,
    asked: &[Word],
) -> Result<(), Fault> {
    let step = only_step(tree)?;
    for word in asked {
        push_found(alloc, out, document, step, text_of(word)?)?;
    }
    Ok(())
}

fn push_found(
    alloc: Global,
    out: &mut Text,
    document: &Doc,
    by: &Step,
    from: &str,
) -> Result<(), Fault> {
    let from = node(from)?;
    if !document.has(alloc, &from)? {
        return Err(Fault::NoCase);
    }
    let found = step(alloc, document, &from, by.axis, &by.test)?;
    Ok(push_list(out, found.as_slice())?)
}

// Adds the nodes in brackets.
fn push_list(out: &mut Text, nodes: &[NodeRef]) -> Result<(), Memory> {
    part(out)?;
    out.push('(')?;
    for (index, node) in nodes.iter().enumerate() {
        if index > 0 {
            out.push(' ')?;
        }
        push_reference(out, node)?;
    }
    out.push(')')
}
