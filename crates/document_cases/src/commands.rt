// Commands: `command LINE BODY..` gives what the line asks with these lines of a body, or its refusal, as `no 4`.
//
// What is asked is written as the command's word, the document as `source` or as a module's name in quotes, the
// path, names and values in quotes, and behind `:` the lines of the body.

use crate::parts::push_path;
use cases::{Fault, Word, body, part, push_bytes, push_number, push_part, push_quoted};
use std::alloc::Global;
use xt_io::Line;
use xt_text::{Memory, Path, Text};
use xt_wire::{Command, DocumentName, WireFault};

/// Answers the call, if it is one of these.
pub fn answer(alloc: Global, out: &mut Text, call: &str, words: &[Word]) -> Result<bool, Fault> {
    match call {
        "command" => push_asked(alloc, out, words)?,
        _ => return Ok(false),
    }
    Ok(true)
}

fn push_asked(alloc: Global, out: &mut Text, words: &[Word]) -> Result<(), Fault> {
    let (line, lines) = words.split_first().ok_or(Fault::NoCase)?;
    let body = body(alloc, lines)?;
    push_read(out, Command::read(alloc, line.as_slice(), body))?;
    Ok(())
}

fn push_read(out: &mut Text, answer: Result<Command, WireFault>) -> Result<(), Memory> {
    match answer {
        Ok(command) => push_command(out, &command),
        Err(WireFault::Memory) => Err(Memory),
        Err(fault) => {
            push_part(out, "no ")?;
            push_number(out, u64::from(fault.code().number()))
        }
    }
}

fn push_command(out: &mut Text, command: &Command) -> Result<(), Memory> {
    match command {
        Command::SetSource(body) => {
            push_part(out, "source")?;
            push_body(out, body.as_slice())
        }
        Command::SetModule(name, body) => {
            push_part(out, "module")?;
            push_text(out, name)?;
            push_body(out, body.as_slice())
        }
        Command::DropModule(name) => {
            push_part(out, "drop")?;
            push_text(out, name)
        }
        Command::SetParameter(name, value) => {
            push_part(out, "param")?;
            push_text(out, name)?;
            push_text(out, value)
        }
        Command::Show => push_part(out, "show"),
        Command::Write => push_part(out, "write"),
        Command::Messages => push_part(out, "messages"),
        Command::Statistics => push_part(out, "stats"),
        Command::Begin => push_part(out, "begin"),
        Command::Commit => push_part(out, "commit"),
        Command::Abandon => push_part(out, "abandon"),
        Command::Dump(document) => push_document(out, "dump", document),
        edit => push_edit(out, edit),
    }
}

fn push_edit(out: &mut Text, edit: &Command) -> Result<(), Memory> {
    match edit {
        Command::Insert(document, path, body) => {
            push_target(out, "insert", document, path)?;
            push_body(out, body.as_slice())
        }
        Command::Delete(document, path) => push_target(out, "delete", document, path),
        Command::SetText(document, path, value) => {
            push_target(out, "text", document, path)?;
            push_text(out, value)
        }
        Command::SetAttribute(document, path, name, value) => {
            push_target(out, "attr", document, path)?;
            push_text(out, name)?;
            push_text(out, value)
        }
        Command::RemoveAttribute(document, path, name) => {
            push_target(out, "unattr", document, path)?;
            push_text(out, name)
        }
        Command::Rename(document, path, name) => {
            push_target(out, "rename", document, path)?;
            push_text(out, name)
        }
        Command::Move {
            document,
            path,
            other,
        } => {
            push_target(out, "move", document, path)?;
            part(out)?;
            push_path(out, other)
        }
        _ => push_part(out, "?"),
    }
}

// The word of a command, and the document that it names.
fn push_document(out: &mut Text, word: &str, document: &DocumentName) -> Result<(), Memory> {
    push_part(out, word)?;
    match document {
        DocumentName::Source => push_part(out, "source"),
        DocumentName::Module(name) => push_text(out, name),
    }
}

// The same, and the path.
fn push_target(
    out: &mut Text,
    word: &str,
    document: &DocumentName,
    path: &Path,
) -> Result<(), Memory> {
    push_document(out, word, document)?;
    part(out)?;
    push_path(out, path)
}

fn push_text(out: &mut Text, text: &Text) -> Result<(), Memory> {
    part(out)?;
    push_quoted(out, text.as_str())
}

fn push_body(out: &mut Text, lines: &[Line]) -> Result<(), Memory> {
    push_part(out, ":")?;
    for line in lines {
        part(out)?;
        push_bytes(out, line.as_bytes())?;
    }
    Ok(())
}
