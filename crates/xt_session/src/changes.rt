// Changes of what is held.
ghost use Rattle.std.specs.Prelude.{◌≡◌, List, IfOk, OnErr};
ghost use Rattle.spec_cost.specs.Marking.{Mark};
ghost use Rattle.spec_session.specs.Reply.{reply_text};
ghost use Rattle.spec_session.specs.Request.{Abandon, Begin, Commit, DropModule, Move, SetModule, SetParameter, SetSource};
ghost use Rattle.xt_edit.specs.View.{edit_of};
ghost use Rattle.xt_held.specs.Marked.{Tells};
ghost use Rattle.xt_held.specs.PastView.{PaysFor};
ghost use Rattle.xt_held.specs.View.{IsCurrent, IsMadeFrom, told_of};
ghost use Rattle.xt_wire.specs.View.{name_of};
ghost use Rattle.xt_session.specs.State.{adopted, reply_told, request_by, state_of};
ghost use Rattle.xt_session.specs.Turn.{BecomesBy, GivesText, RepliesTo, Stays};

use crate::names::doc_name;
use crate::replies::{change_text, text_of};
use std::alloc::Global;
use xt_held::{Edit, EditFault, Held, Ready};
use xt_io::Line;
use xt_text::{Memory, Path, Text};
use xt_wire::{DocumentName, Reply};

/// Makes the document of the lines the source, unless they have a fault.
pub(crate) fn set_source(alloc: Global, held: &mut Held, body: &[Line]) -> Result<Text, Memory>
    requires { IsCurrent held.old }
    ensures ok { IfOk result (λ text. RepliesTo held.old (SetSource body.now) text held.new) }
    ensures err { OnErr result (Stays held.old held.new) }
    ensures current { IsCurrent held.new }
{
    match held.set_source(alloc, body) {
        Ok(ready) => adopt(alloc, held, ready),
        Err(EditFault::Refused { code, .. }) => text_of(alloc, Reply::No(code)),
        Err(EditFault::Memory) => Err(Memory),
    }
}

/// Makes the document of the lines the module of this name, unless they have a fault.
pub(crate) fn set_module(
    alloc: Global,
    held: &mut Held,
    name: &Text,
    body: &[Line],
) -> Result<Text, Memory>
    requires { IsCurrent held.old }
    ensures ok { IfOk result (λ text. RepliesTo held.old (SetModule name.now body.now) text held.new) }
    ensures err { OnErr result (Stays held.old held.new) }
    ensures current { IsCurrent held.new }
{
    match held.set_module(alloc, name, body) {
        Ok(ready) => adopt(alloc, held, ready),
        Err(EditFault::Refused { code, .. }) => text_of(alloc, Reply::No(code)),
        Err(EditFault::Memory) => Err(Memory),
    }
}

/// Drops the module of this name, unless there is none.
pub(crate) fn drop_module(alloc: Global, held: &mut Held, name: &Text) -> Result<Text, Memory>
    requires { IsCurrent held.old }
    ensures ok { IfOk result (λ text. RepliesTo held.old (DropModule name.now) text held.new) }
    ensures err { OnErr result (Stays held.old held.new) }
    ensures current { IsCurrent held.new }
{
    match held.drop_module(alloc, name) {
        Ok(ready) => adopt(alloc, held, ready),
        Err(EditFault::Refused { code, .. }) => text_of(alloc, Reply::No(code)),
        Err(EditFault::Memory) => Err(Memory),
    }
}

/// Edits the document of this name, unless the edit is refused.
pub(crate) fn edit(
    alloc: Global,
    held: &mut Held,
    name: &DocumentName,
    edit: &Edit,
) -> Result<Text, Memory>
    requires { IsCurrent held.old }
    ensures ok { IfOk result (λ text. RepliesTo held.old (request_by (name_of name.now) (edit_of edit.now)) text held.new) }
    ensures err { OnErr result (Stays held.old held.new) }
    ensures current { IsCurrent held.new }
{
    match held.edit(alloc, doc_name(name), edit) {
        Ok(ready) => adopt(alloc, held, ready),
        Err(EditFault::Refused { code, .. }) => text_of(alloc, Reply::No(code)),
        Err(EditFault::Memory) => Err(Memory),
    }
}

/// Moves a node of the document of this name, unless the move is refused.
pub(crate) fn relocate(
    alloc: Global,
    held: &mut Held,
    name: &DocumentName,
    path: &Path,
    other: &Path,
) -> Result<Text, Memory>
    requires { IsCurrent held.old }
    ensures ok { IfOk result (λ text. RepliesTo held.old (Move (name_of name.now) path.now other.now) text held.new) }
    ensures err { OnErr result (Stays held.old held.new) }
    ensures current { IsCurrent held.new }
{
    match held.relocate(alloc, doc_name(name), path, other) {
        Ok(ready) => adopt(alloc, held, ready),
        Err(EditFault::Refused { code, .. }) => text_of(alloc, Reply::No(code)),
        Err(EditFault::Memory) => Err(Memory),
    }
}

/// Gives the parameter of this name this value, unless it may not have it.
pub(crate) fn set_parameter(
    alloc: Global,
    held: &mut Held,
    name: &Text,
    value: &Text,
) -> Result<Text, Memory>
    requires { IsCurrent held.old }
    ensures ok { IfOk result (λ text. RepliesTo held.old (SetParameter name.now value.now) text held.new) }
    ensures err { OnErr result (Stays held.old held.new) }
    ensures current { IsCurrent held.new }
{
    match held.set_param(alloc, name, value) {
        Ok(ready) => adopt(alloc, held, ready),
        Err(EditFault::Refused { code, .. }) => text_of(alloc, Reply::No(code)),
        Err(EditFault::Memory) => Err(Memory),
    }
}

/// Opens a batch, unless one is open.
pub(crate) fn begin(alloc: Global, held: &mut Held) -> Result<Text, Memory>
    requires { IsCurrent held.old }
    ensures ok { IfOk result (λ text. RepliesTo held.old Begin text held.new) }
    ensures err { OnErr result (Stays held.old held.new) }
    ensures current { IsCurrent held.new }
{
    let text = text_of(alloc, Reply::OkPending)?;
    match held.begin(alloc) {
        Ok(()) => Ok(text),
        Err(EditFault::Refused { code, .. }) => text_of(alloc, Reply::No(code)),
        Err(EditFault::Memory) => Err(Memory),
    }
}

/// Makes present what the changes of the batch have made, unless none is open.
pub(crate) fn commit(alloc: Global, held: &mut Held) -> Result<Text, Memory>
    requires { IsCurrent held.old }
    ensures ok { IfOk result (λ text. RepliesTo held.old Commit text held.new) }
    ensures err { OnErr result (Stays held.old held.new) }
    ensures current { IsCurrent held.new }
{
    match held.commit(alloc) {
        Ok(ready) => adopt(alloc, held, ready),
        Err(EditFault::Refused { code, .. }) => text_of(alloc, Reply::No(code)),
        Err(EditFault::Memory) => Err(Memory),
    }
}

/// Drops what the changes of the batch have made, unless none is open.
pub(crate) fn abandon(alloc: Global, held: &mut Held) -> Result<Text, Memory>
    requires { IsCurrent held.old }
    ensures ok { IfOk result (λ text. RepliesTo held.old Abandon text held.new) }
    ensures err { OnErr result (Stays held.old held.new) }
    ensures current { IsCurrent held.new }
{
    let text = text_of(alloc, Reply::OkDropped)?;
    match held.abandon() {
        Ok(()) => Ok(text),
        Err(EditFault::Refused { code, .. }) => text_of(alloc, Reply::No(code)),
        Err(EditFault::Memory) => Err(Memory),
    }
}

// Adopts what is ready, once the text of the reply is made.
fn adopt(alloc: Global, held: &mut Held, ready: Ready) -> Result<Text, Memory>
    requires made_from { IsMadeFrom held.old ready }
    requires current { IsCurrent held.old }
    ensures ok { IfOk result (λ text. GivesText (state_of held.old) (adopted ready held.old) text (state_of held.new)) }
    ensures past { (marks : List Mark) → Tells marks held.old ready → IfOk result (λ text. BecomesBy (PaysFor marks ready held.old) held.old held.new) }
    ensures err { OnErr result (Stays held.old held.new) }
    ensures current { IsCurrent held.new }
{
    let text = adopted_text(alloc, &ready)?;
    held.adopt(ready);
    Ok(text)
}

// The text of the reply where this is adopted. A change in a batch has no outcome to tell.
fn adopted_text(alloc: Global, ready: &Ready) -> Result<Text, Memory>
    ensures { IfOk result (λ text. text ≡ reply_text (reply_told (told_of ready.now))) }
{
    match ready.outcome() {
        Some(outcome) => change_text(alloc, outcome),
        None => text_of(alloc, Reply::OkPending),
    }
}
