// Names: `ncname`, `qname`, `use`, `declares` and `reserved`, each of texts; `same-name URI LOCAL URI LOCAL`;
// `barred PREFIX URI`, whether that may not be declared.

use cases::{Fault, Word, part, push_part, push_quoted, push_yes, text_at, text_of};
use std::alloc::Global;
use xt_names::{
    AttributeUse, Expanded, QName, is_barred, is_declaration, is_ncname, is_reserved_target, use_of,
};
use xt_text::{Memory, Text};

/// Answers the call, if it is one of these.
pub fn answer(alloc: Global, out: &mut Text, call: &str, words: &[Word]) -> Result<bool, Fault> {
    match call {
        "same-name" => push_yes(out, are_same(alloc, words)?)?,
        "barred" => push_yes(out, is_barred(text_at(words, 0)?, text_at(words, 1)?))?,
        _ => return answer_each(out, call, words),
    }
    Ok(true)
}

fn answer_each(out: &mut Text, call: &str, words: &[Word]) -> Result<bool, Fault> {
    if !matches!(call, "ncname" | "qname" | "use" | "declares" | "reserved") {
        return Ok(false);
    }
    for word in words {
        answer_one(out, call, text_of(word)?)?;
    }
    Ok(true)
}

fn answer_one(out: &mut Text, call: &str, text: &str) -> Result<(), Memory> {
    match call {
        "ncname" => push_yes(out, is_ncname(text)),
        "qname" => push_read(out, text),
        "use" => push_use(out, text),
        "reserved" => push_yes(out, is_reserved_target(text)),
        _ => push_yes(out, is_declaration(text)),
    }
}

fn push_read(out: &mut Text, text: &str) -> Result<(), Memory> {
    match QName::read(text) {
        None => push_part(out, "no"),
        Some(name) => push_qname(out, &name),
    }
}

// The parts of a name in brackets.
fn push_qname(out: &mut Text, name: &QName<'_>) -> Result<(), Memory> {
    part(out)?;
    out.push('(')?;
    if let Some(prefix) = name.prefix() {
        out.push_str(prefix)?;
        out.push(' ')?;
    }
    out.push_str(name.local())?;
    out.push(')')
}

fn push_use(out: &mut Text, text: &str) -> Result<(), Memory> {
    match use_of(text) {
        AttributeUse::NoName => push_part(out, "no"),
        AttributeUse::Names { name } => push_qname(out, &name),
        AttributeUse::Declares { prefix } => {
            push_part(out, "xmlns=")?;
            push_quoted(out, prefix)
        }
    }
}

fn are_same(alloc: Global, words: &[Word]) -> Result<bool, Fault> {
    let (uri, local) = (text_at(words, 0)?, text_at(words, 1)?);
    let (other_uri, other_local) = (text_at(words, 2)?, text_at(words, 3)?);
    let name = expanded(alloc, uri, local)?;
    let other = expanded(alloc, other_uri, other_local)?;
    Ok(name.same(&other))
}

fn expanded(alloc: Global, uri: &str, local: &str) -> Result<Expanded, Memory> {
    let uri = Text::from_str(alloc, uri)?;
    let local = Text::from_str(alloc, local)?;
    Ok(Expanded::new(uri, local))
}
