// Lines and events of PYX. `read LINE` gives the event of a line, `rewrite LINE` the line that is written
// for that event, `write EVENT TEXT TEXT` the line of an event, whose second text an attribute and an
// instruction have. `escape TEXT` gives a text as it is written.

use cases::{Fault, Word, part, push_part, push_quoted, text_at};
use std::alloc::Global;
use xt_pyx::{BadLine, Event, push_escaped, read_event, write_event};
use xt_text::{Memory, Text};

/// Answers the call, if it is one of these.
pub fn answer(alloc: Global, out: &mut Text, call: &str, words: &[Word]) -> Result<bool, Fault> {
    match call {
        "read" => push_read(alloc, out, text_at(words, 0)?)?,
        "rewrite" => {
            let event = read_event(alloc, text_at(words, 0)?).map_err(|bad| fault_of(bad))?;
            push_line(alloc, out, &event)?;
        }
        "write" => push_line(alloc, out, &event(alloc, words)?)?,
        "escape" => {
            let mut line = Text::new(alloc);
            push_escaped(&mut line, text_at(words, 0)?)?;
            push_quoted(out, line.as_str())?;
        }
        _ => return Ok(false),
    }
    Ok(true)
}

fn fault_of(bad: BadLine) -> Fault {
    match bad {
        BadLine::Memory => Fault::Memory,
        BadLine::Bad => Fault::NoCase,
    }
}

fn push_line(alloc: Global, out: &mut Text, event: &Event) -> Result<(), Memory> {
    let line = write_event(alloc, event)?;
    push_quoted(out, line.as_str())
}

fn push_read(alloc: Global, out: &mut Text, line: &str) -> Result<(), Memory> {
    match read_event(alloc, line) {
        Ok(event) => push_event(out, &event),
        Err(BadLine::Bad) => push_part(out, "bad"),
        Err(BadLine::Memory) => Err(Memory),
    }
}

fn push_event(out: &mut Text, event: &Event) -> Result<(), Memory> {
    match event {
        Event::Start { name } => push_texts(out, "start", name, None),
        Event::Attribute { name, value } => push_texts(out, "attribute", name, Some(value)),
        Event::Data { text } => push_texts(out, "data", text, None),
        Event::Instruction { target, text } => push_texts(out, "instruction", target, Some(text)),
        Event::End { name } => push_texts(out, "end", name, None),
        Event::Comment { text } => push_texts(out, "comment", text, None),
    }
}

fn push_texts(
    out: &mut Text,
    kind: &str,
    first: &Text,
    second: Option<&Text>,
) -> Result<(), Memory> {
    push_part(out, kind)?;
    part(out)?;
    push_quoted(out, first.as_str())?;
    match second {
        None => Ok(()),
        Some(second) => {
            part(out)?;
            push_quoted(out, second.as_str())
        }
    }
}

fn event(alloc: Global, words: &[Word]) -> Result<Event, Fault> {
    let first = Text::from_str(alloc, text_at(words, 1)?)?;
    match text_at(words, 0)? {
        "start" => Ok(Event::Start { name: first }),
        "data" => Ok(Event::Data { text: first }),
        "end" => Ok(Event::End { name: first }),
        "comment" => Ok(Event::Comment { text: first }),
        "attribute" => Ok(Event::Attribute {
            name: first,
            value: Text::from_str(alloc, text_at(words, 2)?)?,
        }),
        "instruction" => Ok(Event::Instruction {
            target: first,
            text: Text::from_str(alloc, text_at(words, 2)?)?,
        }),
        _ => Err(Fault::NoCase),
    }
}
