// Words of commands: `path-word WORD..` gives the path that each writes, or `none`; `argument` the value where
// nothing stands for it, and `argument TEXT` the one that a text writes.

use crate::parts::push_path;
use cases::{Fault, Word, part, push_part, push_quoted, text_at, text_of};
use std::alloc::Global;
use xt_text::{Memory, Text};
use xt_wire::{read_path, read_value};

/// Answers the call, if it is one of these.
pub fn answer(alloc: Global, out: &mut Text, call: &str, words: &[Word]) -> Result<bool, Fault> {
    match call {
        "path-word" => push_paths(alloc, out, words)?,
        "argument" => push_value(alloc, out, words)?,
        _ => return Ok(false),
    }
    Ok(true)
}

fn push_paths(alloc: Global, out: &mut Text, words: &[Word]) -> Result<(), Fault> {
    for word in words {
        push_one(alloc, out, text_of(word)?)?;
    }
    Ok(())
}

fn push_one(alloc: Global, out: &mut Text, word: &str) -> Result<(), Memory> {
    match read_path(alloc, word)? {
        None => push_part(out, "none"),
        Some(path) => {
            part(out)?;
            push_path(out, &path)
        }
    }
}

fn push_value(alloc: Global, out: &mut Text, words: &[Word]) -> Result<(), Fault> {
    let value = if words.is_empty() {
        read_value(alloc, None)?
    } else {
        read_value(alloc, Some(text_at(words, 0)?))?
    };
    push_quoted(out, value.as_str())?;
    Ok(())
}
