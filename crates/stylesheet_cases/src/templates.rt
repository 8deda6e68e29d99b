// Value templates: `template TEXT` gives the parts of a text, or its refusal; `template-joined TEXT..` takes the
// texts one after another.
//
// The parts are written one after another: a text in quotes, an expression as its tree in braces. `empty` is
// written where there is none.

use case_trees::{push_avt_part, push_code, scope};
use cases::{Fault, Word, joined, part, text_at};
use std::alloc::Global;
use xt_avt::{AvtFault, parse_avt};
use xt_syntax::Avt;
use xt_text::{Memory, Text};

/// Answers the call, if it is one of these.
pub fn answer(alloc: Global, out: &mut Text, call: &str, words: &[Word]) -> Result<bool, Fault> {
    match call {
        "template" => push_parsed(alloc, out, text_at(words, 0)?)?,
        "template-joined" => push_joined(alloc, out, joined(alloc, words)?)?,
        _ => return Ok(false),
    }
    Ok(true)
}

fn push_joined(alloc: Global, out: &mut Text, text: Text) -> Result<(), Memory> {
    push_parsed(alloc, out, text.as_str())
}

fn push_parsed(alloc: Global, out: &mut Text, text: &str) -> Result<(), Memory> {
    let scope = scope(alloc)?;
    match parse_avt(alloc, text, &scope) {
        Ok(avt) => push_template(out, &avt),
        Err(fault) => push_refusal(out, fault),
    }
}

fn push_refusal(out: &mut Text, fault: AvtFault) -> Result<(), Memory> {
    match fault.code() {
        None => Err(Memory),
        Some(code) => push_code(out, code),
    }
}

fn push_template(out: &mut Text, avt: &Avt) -> Result<(), Memory> {
    if avt.parts.is_empty() {
        return out.push_str("empty");
    }
    for avt_part in avt.parts.as_slice() {
        part(out)?;
        push_avt_part(out, avt_part)?;
    }
    Ok(())
}
