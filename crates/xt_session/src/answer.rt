// Answers one command.
ghost use Rattle.std.specs.Prelude.{◌≡◌, IfOk, OnErr};
ghost use Rattle.std.specs.Str.{encode_utf8_all};
ghost use Rattle.spec_session.specs.Machine.{document_named};
ghost use Rattle.spec_session.specs.Request.{Dump, Messages, Show, Statistics, Write};
ghost use Rattle.xt_edit.specs.View.{edit_of};
ghost use Rattle.xt_held.specs.OutcomeView.{plain_in};
ghost use Rattle.xt_held.specs.View.{IsCurrent};
ghost use Rattle.xt_wire.specs.View.{asked_of, name_of};
ghost use Rattle.xt_session.specs.State.{request_by, state_of};
ghost use Rattle.xt_session.specs.Turn.{GivesReply, RepliesTo, Stays};

use crate::changes::{
    abandon, begin, commit, drop_module, edit, relocate, set_module, set_parameter, set_source,
};
use crate::command::Command;
use crate::messages::messages_reply;
use crate::names::doc_name;
use crate::replies::{counts_reply, dump_reply, result_reply, text_of, written_reply};
use std::alloc::Global;
use xt_base::EditCode;
use xt_held::{Edit, Held};
use xt_text::{Memory, Text};
use xt_tree::Doc;
use xt_wire::{DocumentName, Reply};

/// The text of the reply to a command, whose change, if any, is made, and what it cost is counted. After want of memory
/// all is as before.
pub(crate) fn answer(alloc: Global, held: &mut Held, command: Command) -> Result<Text, Memory>
    requires { IsCurrent held.old }
    ensures ok { IfOk result (λ text. GivesReply held.old command (encode_utf8_all text) held.new) }
    ensures err { OnErr result (Stays held.old held.new) }
    ensures current { IsCurrent held.new }
{
    let (line, body) = command.into_parts();
    match xt_wire::Command::read(alloc, line.as_bytes(), body) {
        Ok(asked) => carry_out(alloc, held, asked),
        Err(fault) => text_of(alloc, Reply::No(fault.code())),
    }
}

// Does what is asked.
fn carry_out(alloc: Global, held: &mut Held, asked: xt_wire::Command) -> Result<Text, Memory>
    requires { IsCurrent held.old }
    ensures ok { IfOk result (λ text. RepliesTo held.old (asked_of asked) text held.new) }
    ensures err { OnErr result (Stays held.old held.new) }
    ensures current { IsCurrent held.new }
{
    match asked {
        xt_wire::Command::SetSource(body) => set_source(alloc, held, body.as_slice()),
        xt_wire::Command::SetModule(name, body) => set_module(alloc, held, &name, body.as_slice()),
        xt_wire::Command::DropModule(name) => drop_module(alloc, held, &name),
        xt_wire::Command::Show => show(alloc, held),
        xt_wire::Command::Dump(name) => dump(alloc, held, &name),
        xt_wire::Command::Write => write(alloc, held),
        xt_wire::Command::SetParameter(name, value) => set_parameter(alloc, held, &name, &value),
        xt_wire::Command::Messages => messages(alloc, held),
        xt_wire::Command::Statistics => statistics(alloc, held),
        xt_wire::Command::Insert(document, path, body) => {
            change(alloc, held, document, Edit::Insert { path, body })
        }
        xt_wire::Command::Delete(document, path) => {
            change(alloc, held, document, Edit::Delete { path })
        }
        xt_wire::Command::SetText(document, path, value) => {
            change(alloc, held, document, Edit::SetText { path, value })
        }
        xt_wire::Command::SetAttribute(document, path, name, value) => {
            change(
                alloc,
                held,
                document,
                Edit::SetAttribute { path, name, value },
            )
        }
        xt_wire::Command::RemoveAttribute(document, path, name) => {
            change(alloc, held, document, Edit::RemoveAttribute { path, name })
        }
        xt_wire::Command::Rename(document, path, name) => {
            change(alloc, held, document, Edit::Rename { path, name })
        }
        xt_wire::Command::Move {
            document,
            path,
            other,
        } => relocate(alloc, held, &document, &path, &other),
        xt_wire::Command::Begin => begin(alloc, held),
        xt_wire::Command::Commit => commit(alloc, held),
        xt_wire::Command::Abandon => abandon(alloc, held),
    }
}

// Edits the document of this name.
fn change(alloc: Global, held: &mut Held, name: DocumentName, change: Edit) -> Result<Text, Memory>
    requires { IsCurrent held.old }
    ensures ok { IfOk result (λ text. RepliesTo held.old (request_by (name_of name) (edit_of change)) text held.new) }
    ensures err { OnErr result (Stays held.old held.new) }
    ensures current { IsCurrent held.new }
{
    edit(alloc, held, &name, &change)
}

// Shows the result, or why there is none.
fn show(alloc: Global, held: &Held) -> Result<Text, Memory>
    requires { IsCurrent held.now }
    ensures { IfOk result (λ text. RepliesTo held.now Show text held.now) }
{
    let reply = result_reply(alloc, held.outcome())?;
    text_of(alloc, reply)
}

// Writes the result, or why there is none.
fn write(alloc: Global, held: &Held) -> Result<Text, Memory>
    requires { IsCurrent held.now }
    ensures { IfOk result (λ text. RepliesTo held.now Write text held.now) }
{
    let reply = written_reply(alloc, held.outcome())?;
    text_of(alloc, reply)
}

// Shows the messages, also where there is no result.
fn messages(alloc: Global, held: &Held) -> Result<Text, Memory>
    requires { IsCurrent held.now }
    ensures { IfOk result (λ text. RepliesTo held.now Messages text held.now) }
{
    let reply = messages_reply(alloc, held.outcome())?;
    text_of(alloc, reply)
}

// Tells what the last change of what is present has cost: so many instantiations as the past says.
fn statistics(alloc: Global, held: &Held) -> Result<Text, Memory>
    requires { IsCurrent held.now }
    ensures { IfOk result (λ text. RepliesTo held.now Statistics text held.now) }
{
    let counts = held.stats();
    text_of(alloc, counts_reply(counts.ran, counts.asked, counts.did))
}

// Shows the document of this name, where it is held.
fn dump(alloc: Global, held: &Held, name: &DocumentName) -> Result<Text, Memory>
    ensures { IfOk result (λ text. RepliesTo held.now (Dump (name_of name.now)) text held.now) }
{
    match document(held, name) {
        Some(document) => text_of(alloc, dump_reply(alloc, document)?),
        None => text_of(alloc, Reply::No(EditCode::NoDocument)),
    }
}

// The document that a command names.
fn document<'a>(held: &'a Held, name: &DocumentName) -> Option<&'a Doc>
    ensures { plain_in result ≡ document_named (state_of held.now) (name_of name.now) }
{
    held.document(doc_name(name))
}
