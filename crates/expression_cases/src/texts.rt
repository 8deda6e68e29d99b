// The string functions: `starts-with TEXT START`, `contains TEXT PART`, `before TEXT PART`, `after TEXT
// PART`, `concat TEXT..`, `substring TEXT START COUNT` (the count may be missing), `length TEXT`, `normalize
// TEXT`, `translate TEXT FROM TO`, `lang LANGUAGE WANTED`.

use crate::answer_yes;
use crate::numbers::{answer_given, num_at};
use cases::{Fault, Word, push_quoted, text_at, text_of};
use std::alloc::Global;
use xp_text::{
    after, before, concat, contains, lang_matches, length, normalize, starts_with, substring,
    translate,
};
use xt_text::{Memory, Text};

/// Answers the call, if it is one of these.
pub fn answer(alloc: Global, out: &mut Text, call: &str, words: &[Word]) -> Result<bool, Fault> {
    match call {
        "starts-with" => {
            let (text, start) = two(words)?;
            answer_yes(out, starts_with(text, start))
        }
        "contains" => {
            let (text, part) = two(words)?;
            answer_yes(out, contains(text, part))
        }
        "lang" => {
            let (language, wanted) = two(words)?;
            answer_yes(out, lang_matches(language, wanted))
        }
        "length" => answer_given(alloc, out, length(text_at(words, 0)?)),
        _ => answer_text(alloc, out, call, words),
    }
}

// The texts of the first two words.
fn two(words: &[Word]) -> Result<(&str, &str), Fault> {
    Ok((text_at(words, 0)?, text_at(words, 1)?))
}

fn answer_text(alloc: Global, out: &mut Text, call: &str, words: &[Word]) -> Result<bool, Fault> {
    match function_of(call) {
        None => Ok(false),
        Some(function) => {
            push_text(out, called(alloc, function, words)?)?;
            Ok(true)
        }
    }
}

// The functions whose value is a string.
#[derive(Clone, Copy)]
enum Function {
    Before,
    After,
    Concat,
    Substring,
    Normalize,
    Translate,
}

fn function_of(call: &str) -> Option<Function> {
    match call {
        "before" => Some(Function::Before),
        "after" => Some(Function::After),
        "concat" => Some(Function::Concat),
        "substring" => Some(Function::Substring),
        "normalize" => Some(Function::Normalize),
        "translate" => Some(Function::Translate),
        _ => None,
    }
}

fn called(alloc: Global, function: Function, words: &[Word]) -> Result<Text, Fault> {
    match function {
        Function::Before => {
            let (text, part) = two(words)?;
            Ok(before(alloc, text, part)?)
        }
        Function::After => {
            let (text, part) = two(words)?;
            Ok(after(alloc, text, part)?)
        }
        Function::Concat => concatenated(alloc, words),
        Function::Substring => cut_out(alloc, words),
        Function::Normalize => Ok(normalize(alloc, text_at(words, 0)?)?),
        Function::Translate => translated(alloc, words),
    }
}

fn push_text(out: &mut Text, text: Text) -> Result<(), Memory> {
    push_quoted(out, text.as_str())
}

fn concatenated(alloc: Global, words: &[Word]) -> Result<Text, Fault> {
    let texts = texts(alloc, words)?;
    Ok(concat(alloc, texts.as_slice())?)
}

fn translated(alloc: Global, words: &[Word]) -> Result<Text, Fault> {
    let (text, from) = two(words)?;
    let to = text_at(words, 2)?;
    Ok(translate(alloc, text, from, to)?)
}

fn texts(alloc: Global, words: &[Word]) -> Result<Vec<Text>, Fault> {
    let mut texts = Vec::new(alloc);
    for word in words {
        let text = Text::from_str(alloc, text_of(word)?)?;
        texts.push(text)?;
    }
    Ok(texts)
}

fn cut_out(alloc: Global, words: &[Word]) -> Result<Text, Fault> {
    let start = num_at(words, 1)?;
    let count = if words.len() > 2 {
        Some(num_at(words, 2)?)
    } else {
        None
    };
    Ok(substring(alloc, text_at(words, 0)?, start, count)?)
}
