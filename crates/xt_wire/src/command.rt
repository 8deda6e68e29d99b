// From lines to commands.
ghost use Rattle.std.specs.Prelude.{◌≡◌, []};
ghost use Rattle.std.specs.List.{list_all};
ghost use Rattle.std.specs.Str.{chars, is_utf8};
ghost use Rattle.spec_session.specs.Request.{drop_form, dump_form, module_form, parameter_form, request_by, request_of, source_form, word_form};
ghost use Rattle.xt_wire.specs.View.{HasForm, Reads, asked_of, rest_of};

use crate::WireFault;
use crate::document::{DocumentName, module_name, read_document};
use crate::edits::{
    read_delete, read_insert, read_move, read_remove_attribute, read_rename, read_set_attribute,
    read_set_text,
};
use crate::word::{first_word, next_word, only_word, read_value};
use std::alloc::Global;
use xt_io::Line;
use xt_text::{Path, Text};

/// What a command asks.
#[derive(Drop)]
pub enum Command {
    /// `source` and a body: a new source of these lines.
    SetSource(Vec<Line>),
    /// `module NAME` and a body: the module of this name, of these lines. The name is one or more characters
    /// without a space, and not `source`.
    SetModule(Text, Vec<Line>),
    /// `drop NAME`: the module of this name goes. The name is one or more characters without a space, and not
    /// `source`.
    DropModule(Text),
    /// `show`: the result.
    Show,
    /// `dump DOC`: the lines of a document.
    Dump(DocumentName),
    /// `write`: the result by its output method.
    Write,
    /// `param NAME VALUE`: the value of the parameter of this name. The name is one or more characters without
    /// a space.
    SetParameter(Text, Text),
    /// `messages`: the messages of the transformation.
    Messages,
    /// `stats`: what the last change of what is present has cost.
    Statistics,
    /// `begin`: a batch of changes is opened.
    Begin,
    /// `commit`: what the changes of the batch have made becomes present.
    Commit,
    /// `abandon`: the batch is dropped.
    Abandon,
    /// `insert DOC PATH` and a body: the nodes of these lines, before what is at the path.
    Insert(DocumentName, Path, Vec<Line>),
    /// `delete DOC PATH`: the node goes, with all below it.
    Delete(DocumentName, Path),
    /// `text DOC PATH VALUE`: the content of a text, comment or processing instruction.
    SetText(DocumentName, Path, Text),
    /// `attr DOC PATH NAME VALUE`: an attribute or a declaration by its written name, and its value. The name is
    /// one or more characters without a space.
    SetAttribute(DocumentName, Path, Text, Text),
    /// `unattr DOC PATH NAME`: the attribute or declaration of this written name goes. The name is one or more
    /// characters without a space.
    RemoveAttribute(DocumentName, Path, Text),
    /// `rename DOC PATH NAME`: the name of an element, or the target of a processing instruction. It is one or
    /// more characters without a space.
    Rename(DocumentName, Path, Text),
    /// `move DOC PATH PATH`: the node at the first path goes, with all below it, and stands again before what is at
    /// the other.
    Move {
        document: DocumentName,
        path: Path,
        other: Path,
    },
}

impl Command {
    /// The command of this line, which is given without its end, and the lines of its body. Else the least of
    /// its faults: `NotUtf8` where the line or a line of the body is not UTF-8, else `UnknownCommand` where the
    /// first word is no command that is taken, else `BadArguments` where what stands behind it does not have
    /// the command's form. The lines of the body are kept as they are.
    pub fn read(alloc: Global, line: &[u8], body: Vec<Line>) -> Result<Command, WireFault>
        ensures { Reads result (request_of (record { line = line.now; body = body.items })) }
    {
        match str::from_utf8(line) {
            Ok(text) if are_texts(body.as_slice()) => {
                let words = first_word(text);
                read_words(alloc, words.first, words.rest, body)
            }
            _ => Err(WireFault::NotUtf8),
        }
    }
}

// Whether each line is UTF-8.
fn are_texts(lines: &[Line]) -> bool
    ensures { result ≡ list_all is_utf8 lines.now }
{
    lines.iter().all(|line| is_text(line.as_bytes()))
}

fn is_text(bytes: &[u8]) -> bool
    ensures { result ≡ is_utf8 bytes.now }
{
    str::from_utf8(bytes).is_ok()
}

// The command of these words and this body, all of them UTF-8.
fn read_words(
    alloc: Global,
    word: &str,
    rest: Option<&str>,
    body: Vec<Line>,
) -> Result<Command, WireFault>
    ensures { Reads result (request_by (record { first = chars word.now; rest = rest_of rest.entry }) body.items) }
{
    match word {
        "source" => read_source(rest, body),
        "module" => read_module(alloc, rest, body),
        "show" => read_alone(rest, Command::Show),
        "dump" => read_dump(alloc, rest),
        "write" => read_alone(rest, Command::Write),
        "param" => read_parameter(alloc, rest),
        "messages" => read_alone(rest, Command::Messages),
        "stats" => read_alone(rest, Command::Statistics),
        "begin" => read_alone(rest, Command::Begin),
        "commit" => read_alone(rest, Command::Commit),
        "abandon" => read_alone(rest, Command::Abandon),
        "insert" => read_insert(alloc, rest, body),
        "delete" => read_delete(alloc, rest),
        "text" => read_set_text(alloc, rest),
        "attr" => read_set_attribute(alloc, rest),
        "unattr" => read_remove_attribute(alloc, rest),
        "rename" => read_rename(alloc, rest),
        "move" => read_move(alloc, rest),
        "drop" => read_drop(alloc, rest),
        // Alone it ends the session and is no command.
        "quit" => Err(WireFault::BadArguments),
        _ => Err(WireFault::UnknownCommand),
    }
}

fn read_source(rest: Option<&str>, body: Vec<Line>) -> Result<Command, WireFault>
    ensures { HasForm result (source_form (rest_of rest.entry) body.items) }
{
    if rest.is_some() {
        return Err(WireFault::BadArguments);
    }
    Ok(Command::SetSource(body))
}

fn read_module(alloc: Global, rest: Option<&str>, body: Vec<Line>) -> Result<Command, WireFault>
    ensures { HasForm result (module_form (rest_of rest.entry) body.items) }
{
    let Some(name) = module_name(rest) else {
        return Err(WireFault::BadArguments);
    };
    Ok(Command::SetModule(Text::from_str(alloc, name)?, body))
}

fn read_drop(alloc: Global, rest: Option<&str>) -> Result<Command, WireFault>
    ensures { HasForm result (drop_form (rest_of rest.entry) []) }
{
    let Some(dropped) = module_name(rest) else {
        return Err(WireFault::BadArguments);
    };
    Ok(Command::DropModule(Text::from_str(alloc, dropped)?))
}

// A command of one word.
fn read_alone(rest: Option<&str>, command: Command) -> Result<Command, WireFault>
    ensures { HasForm result (word_form (asked_of command) (rest_of rest.entry) []) }
{
    if rest.is_some() {
        return Err(WireFault::BadArguments);
    }
    Ok(command)
}

fn read_dump(alloc: Global, rest: Option<&str>) -> Result<Command, WireFault>
    ensures { HasForm result (dump_form (rest_of rest.entry) []) }
{
    let Some(word) = only_word(rest) else {
        return Err(WireFault::BadArguments);
    };
    Ok(Command::Dump(read_document(alloc, word)?))
}

fn read_parameter(alloc: Global, rest: Option<&str>) -> Result<Command, WireFault>
    ensures { HasForm result (parameter_form (rest_of rest.entry) []) }
{
    let Some(words) = next_word(rest) else {
        return Err(WireFault::BadArguments);
    };
    let name = Text::from_str(alloc, words.first)?;
    let value = read_value(alloc, words.rest)?;
    Ok(Command::SetParameter(name, value))
}
