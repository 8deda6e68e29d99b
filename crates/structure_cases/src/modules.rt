// The modules of cases.
use cases::{Fault, Word, body, built, document};
use std::alloc::Global;
use xt_build::Line;
use xt_text::Memory;
use xt_tree::Doc;

const BEFORE_SHEET: [&str; 6] = [
    "(xsl:stylesheet",
    "Aversion 1.0",
    "Axmlns:xsl http://www.w3.org/1999/XSL/Transform",
    "Axmlns:p urn:p",
    "Axmlns:e urn:e",
    "Aextension-element-prefixes e",
];

const BEFORE_BODY: [&str; 2] = ["(xsl:template", "Amatch /"];

const BEHIND_BODY: [&str; 1] = [")xsl:template"];

const BEHIND_SHEET: [&str; 1] = [")xsl:stylesheet"];

/// The module that a call tells of.
pub fn module_of(alloc: Global, call: &str, words: &[Word]) -> Result<Doc, Fault> {
    match call {
        "module" => document(alloc, words),
        "sheet" => {
            let lines = sheet(alloc, &[], words, &[])?;
            built(alloc, lines.as_slice())
        }
        "body" => {
            let lines = sheet(alloc, &BEFORE_BODY, words, &BEHIND_BODY)?;
            built(alloc, lines.as_slice())
        }
        _ => Err(Fault::NoCase),
    }
}

fn sheet(
    alloc: Global,
    before: &[&str],
    words: &[Word],
    behind: &[&str],
) -> Result<Vec<Line>, Memory> {
    let mut lines = Vec::new(alloc);
    push_lines(alloc, &mut lines, &BEFORE_SHEET)?;
    push_lines(alloc, &mut lines, before)?;
    push_all(&mut lines, body(alloc, words)?)?;
    push_lines(alloc, &mut lines, behind)?;
    push_lines(alloc, &mut lines, &BEHIND_SHEET)?;
    Ok(lines)
}

fn push_lines(alloc: Global, lines: &mut Vec<Line>, texts: &[&str]) -> Result<(), Memory> {
    for text in texts {
        let line = Line::new(alloc, text.as_bytes())?;
        lines.push(line)?;
    }
    Ok(())
}

fn push_all(lines: &mut Vec<Line>, more: Vec<Line>) -> Result<(), Memory> {
    for line in more {
        lines.push(line)?;
    }
    Ok(())
}
