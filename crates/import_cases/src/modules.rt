// The modules of cases.
use cases::{Fault, Word, built, text_of};
use indexmap::IndexMap;
use std::alloc::Global;
use xt_build::Line;
use xt_text::{Memory, Text};
use xt_tree::Doc;

/// The modules that these words tell of.
pub fn modules_of(alloc: Global, words: &[Word]) -> Result<IndexMap<String, Doc>, Fault> {
    let mut modules = IndexMap::new(alloc);
    for word in words {
        push_module(alloc, &mut modules, text_of(word)?)?;
    }
    Ok(modules)
}

fn push_module(
    alloc: Global,
    modules: &mut IndexMap<String, Doc>,
    word: &str,
) -> Result<(), Fault> {
    let mut lines = Vec::new(alloc);
    push_line(alloc, &mut lines, "(xsl:stylesheet")?;
    push_line(alloc, &mut lines, "Aversion 1.0")?;
    push_line(
        alloc,
        &mut lines,
        "Axmlns:xsl http://www.w3.org/1999/XSL/Transform",
    )?;
    let name = push_links(alloc, &mut lines, word)?;
    push_line(alloc, &mut lines, ")xsl:stylesheet")?;
    let document = built(alloc, lines.as_slice())?;
    hold(alloc, modules, name.as_str(), document)?;
    Ok(())
}

fn hold(
    alloc: Global,
    modules: &mut IndexMap<String, Doc>,
    name: &str,
    document: Doc,
) -> Result<(), Memory> {
    let key = String::from_str(alloc, name)?;
    modules.insert(key, document)?;
    Ok(())
}

// Adds the links of a module, and gives its name.
fn push_links(alloc: Global, lines: &mut Vec<Line>, word: &str) -> Result<Text, Memory> {
    let mut name = Text::new(alloc);
    let mut href = Text::new(alloc);
    let mut kind = ' ';
    for character in word.chars() {
        if is_mark(character) {
            push_kind(alloc, lines, kind, &href)?;
            kind = character;
            href = Text::new(alloc);
        } else if kind == ' ' {
            name.push(character)?;
        } else {
            href.push(character)?;
        }
    }
    push_kind(alloc, lines, kind, &href)?;
    Ok(name)
}

fn is_mark(character: char) -> bool {
    matches!(character, '>' | '+' | '/')
}

fn push_kind(alloc: Global, lines: &mut Vec<Line>, kind: char, href: &Text) -> Result<(), Memory> {
    match kind {
        '>' => push_link(alloc, lines, "(xsl:import", href, ")xsl:import"),
        '+' => push_link(alloc, lines, "(xsl:include", href, ")xsl:include"),
        '/' => push_other(alloc, lines),
        _ => Ok(()),
    }
}

fn push_link(
    alloc: Global,
    lines: &mut Vec<Line>,
    start: &str,
    href: &Text,
    end: &str,
) -> Result<(), Memory> {
    push_line(alloc, lines, start)?;
    let mut attribute = Text::from_str(alloc, "Ahref ")?;
    attribute.push_str(href.as_str())?;
    push_line(alloc, lines, attribute.as_str())?;
    push_line(alloc, lines, end)
}

fn push_other(alloc: Global, lines: &mut Vec<Line>) -> Result<(), Memory> {
    push_line(alloc, lines, "(xsl:output")?;
    push_line(alloc, lines, ")xsl:output")
}

fn push_line(alloc: Global, lines: &mut Vec<Line>, text: &str) -> Result<(), Memory> {
    let line = Line::new(alloc, text.as_bytes())?;
    lines.push(line)?;
    Ok(())
}
