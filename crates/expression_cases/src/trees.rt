// Expressions: `parse TEXT` gives the tree of a text, or its refusal; `parse-joined TEXT..` takes the texts
// one after another, and `outcome TEXT..` says only that there is a tree; `same TEXT TEXT` tells whether two
// texts have the same tree, `differ TEXT..` whether each has a tree that is the same as no other's. The scope
// and the forms of trees are those of `case_trees`.

use crate::answer_yes;
use case_trees::{push_code, push_tree, scope};
use cases::{Fault, Word, joined, push_part, text_at, text_of};
use std::alloc::Global;
use xp_parse::{ParseFault, parse};
use xt_syntax::Expr;
use xt_text::{Memory, Text};

/// Answers the call, if it is one of these.
pub fn answer(alloc: Global, out: &mut Text, call: &str, words: &[Word]) -> Result<bool, Fault> {
    match call {
        "parse" => push_parsed(alloc, out, text_at(words, 0)?)?,
        "parse-joined" => push_joined(alloc, out, words)?,
        "outcome" => push_outcome(alloc, out, words)?,
        "differ" => return answer_yes(out, do_differ(alloc, words)?),
        "same" => return answer_yes(out, are_same(alloc, words)?),
        _ => return Ok(false),
    }
    Ok(true)
}

/// The expression that a text is.
pub fn parsed(alloc: Global, text: &str) -> Result<Expr, Fault> {
    let scope = scope(alloc)?;
    match parse(alloc, text, &scope) {
        Ok(tree) => Ok(tree),
        Err(ParseFault::Memory) => Err(Fault::Memory),
        Err(ParseFault::Refused(_)) => Err(Fault::NoCase),
    }
}

fn are_same(alloc: Global, words: &[Word]) -> Result<bool, Fault> {
    let trees = all_parsed(alloc, words)?;
    match trees.as_slice() {
        [first, second] => Ok(first.same(second)),
        _ => Err(Fault::NoCase),
    }
}

fn all_parsed(alloc: Global, words: &[Word]) -> Result<Vec<Expr>, Fault> {
    let mut trees = Vec::new(alloc);
    for word in words {
        let tree = parsed(alloc, text_of(word)?)?;
        trees.push(tree)?;
    }
    Ok(trees)
}

// Whether each tree is the same as itself and as no other one.
fn do_differ(alloc: Global, words: &[Word]) -> Result<bool, Fault> {
    let trees = all_parsed(alloc, words)?;
    Ok(differ(trees.as_slice()))
}

fn differ(trees: &[Expr]) -> bool {
    for (index, tree) in trees.iter().enumerate() {
        for (other_index, other) in trees.iter().enumerate() {
            if tree.same(other) != (index == other_index) {
                return false;
            }
        }
    }
    true
}

fn push_outcome(alloc: Global, out: &mut Text, words: &[Word]) -> Result<(), Fault> {
    let text = joined(alloc, words)?;
    let scope = scope(alloc)?;
    let outcome = parse(alloc, text.as_str(), &scope);
    Ok(push_kind(out, &outcome)?)
}

fn push_kind(out: &mut Text, outcome: &Result<Expr, ParseFault>) -> Result<(), Memory> {
    match outcome {
        Ok(_) => push_part(out, "tree"),
        Err(fault) => push_refusal(out, *fault),
    }
}

fn push_joined(alloc: Global, out: &mut Text, words: &[Word]) -> Result<(), Fault> {
    let text = joined(alloc, words)?;
    Ok(push_parsed(alloc, out, text.as_str())?)
}

fn push_parsed(alloc: Global, out: &mut Text, text: &str) -> Result<(), Memory> {
    let scope = scope(alloc)?;
    match &parse(alloc, text, &scope) {
        Ok(tree) => push_tree(out, tree),
        Err(fault) => push_refusal(out, *fault),
    }
}

fn push_refusal(out: &mut Text, fault: ParseFault) -> Result<(), Memory> {
    match fault.code() {
        None => Err(Memory),
        Some(code) => push_code(out, code),
    }
}
