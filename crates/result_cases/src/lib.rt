//! Cases of results, in the form that the crate `cases` tells. `lines STREAM` prints the lines of the tree
//! that the stream shapes, parted by ` | `; `text STREAM` its string-value; `messages STREAM` the messages.
//! How a stream is written is told in `stream`.
#![tactic(auto)]

mod stream;

use cases::{Answers, Fault, Word, call_of, push_part, push_quoted, words_of};
use std::alloc::Global;
use std::io;
use stream::stream_of;
use xt_result::{messages, pyx, shape, text};
use xt_text::Text;

#[derive(Clone, Copy)]
struct Results;

/// Prints the head of a section, and the answer to each of its lines.
pub fn answer_all(rt: &impl Print, alloc: Global, section: &str) -> io::Result<()> {
    cases::answer_all(rt, alloc, section, &mut Results)
}

impl Answers for Results {
    fn answer(&mut self, alloc: Global, out: &mut Text, line: &str) -> Result<(), Fault> {
        let words = words_of(alloc, line)?;
        let (call, arguments) = call_of(words.as_slice())?;
        match call {
            "lines" => push_lines(alloc, out, arguments),
            "text" => push_text(alloc, out, arguments),
            "messages" => push_messages(alloc, out, arguments),
            _ => Err(Fault::NoCase),
        }
    }
}

fn push_lines(alloc: Global, out: &mut Text, words: &[Word]) -> Result<(), Fault> {
    let lines = lines_of(alloc, words)?;
    for line in &lines {
        if !out.is_empty() {
            out.push_str(" | ")?;
        }
        out.push_str(line.as_str())?;
    }
    Ok(())
}

fn lines_of(alloc: Global, words: &[Word]) -> Result<Vec<Text>, Fault> {
    let items = stream_of(alloc, words)?;
    let tree = shape(&items)?;
    Ok(pyx(alloc, &tree)?)
}

fn push_text(alloc: Global, out: &mut Text, words: &[Word]) -> Result<(), Fault> {
    let text = text_in(alloc, words)?;
    push_quoted(out, text.as_str())?;
    Ok(())
}

fn text_in(alloc: Global, words: &[Word]) -> Result<Text, Fault> {
    let items = stream_of(alloc, words)?;
    let tree = shape(&items)?;
    Ok(text(alloc, &tree)?)
}

fn push_messages(alloc: Global, out: &mut Text, words: &[Word]) -> Result<(), Fault> {
    let list = messages_in(alloc, words)?;
    if list.is_empty() {
        push_part(out, "none")?;
    }
    for message in &list {
        push_part(out, "")?;
        push_quoted(out, message.as_str())?;
    }
    Ok(())
}

fn messages_in(alloc: Global, words: &[Word]) -> Result<Vec<Text>, Fault> {
    let items = stream_of(alloc, words)?;
    Ok(messages(alloc, &items)?)
}
