// Replies.
ghost use Rattle.std.specs.Prelude.{◌≡◌, IfOk};
ghost use Rattle.spec_document.specs.Forest.{lines_of};
ghost use Rattle.spec_run.specs.Outcome as run;
ghost use Rattle.spec_session.specs.Machine as machine;
ghost use Rattle.spec_session.specs.Reply as written;
ghost use Rattle.spec_session.specs.Reply.{reply_text};
ghost use Rattle.xt_import.specs.View.{plain_of};
ghost use Rattle.xt_held.specs.OutcomeView.{outcome_of};
ghost use Rattle.xt_wire.specs.View.{place_of, refusal_of, reply_of};
ghost use Rattle.xt_session.specs.State.{is_text};

use std::alloc::Global;
use xt_base::{Code, Place};
use xt_build::lines;
use xt_held::Outcome;
use xt_questions::copy_place;
use xt_result::{ResultTree, pyx, text};
use xt_syntax::Method;
use xt_text::{Memory, Text};
use xt_tree::Doc;
use xt_wire::{Refusal, Reply, reply};

/// The text of the reply to an accepted change, after which the transformation comes to this.
pub(crate) fn change_text(alloc: Global, outcome: &Outcome) -> Result<Text, Memory>
    ensures { IfOk result (λ text. text ≡ reply_text (machine.change_reply (outcome_of outcome.now))) }
{
    let reply = change_reply(alloc, outcome)?;
    text_of(alloc, reply)
}

fn change_reply(alloc: Global, outcome: &Outcome) -> Result<Reply, Memory>
    ensures { IfOk result (λ reply. reply_of reply ≡ machine.change_reply (outcome_of outcome.now)) }
{
    match outcome {
        Outcome::Done { .. } => Ok(Reply::OkDone),
        Outcome::Refused { code, place, .. } => {
            Ok(Reply::OkRefused(refusal(alloc, *code, place)?))
        }
    }
}

/// The reply to a request to show the result, where the transformation comes to this.
pub(crate) fn result_reply(alloc: Global, outcome: &Outcome) -> Result<Reply, Memory>
    ensures { IfOk result (λ reply. reply_of reply ≡ machine.result_reply (outcome_of outcome.now)) }
{
    match outcome {
        Outcome::Done { result, .. } => Ok(Reply::Shown(pyx(alloc, result)?)),
        Outcome::Refused { code, place, .. } => Ok(Reply::Refused(refusal(alloc, *code, place)?)),
    }
}

/// The reply to a request to write the result, where the transformation comes to this.
pub(crate) fn written_reply(alloc: Global, outcome: &Outcome) -> Result<Reply, Memory>
    ensures { IfOk result (λ reply. reply_of reply ≡ machine.written_reply (outcome_of outcome.now)) }
{
    match outcome {
        Outcome::Done { result, method, .. } => written_by(alloc, method, result),
        Outcome::Refused { code, place, .. } => Ok(Reply::Refused(refusal(alloc, *code, place)?)),
    }
}

// The result by this output method: as text its string-value, else its lines.
fn written_by(alloc: Global, method: &Option<Method>, tree: &ResultTree) -> Result<Reply, Memory>
    ensures { IfOk result (λ reply. reply_of reply ≡ machine.written_by method.now tree.now) }
{
    if is_text(method) {
        Ok(Reply::Written(text(alloc, tree)?))
    } else {
        Ok(Reply::Shown(pyx(alloc, tree)?))
    }
}

fn is_text(method: &Option<Method>) -> bool
    ensures { result ≡ is_text method.now }
{
    matches!(method, Some(Method::Text))
}

/// The reply to a request for the counts, where they are these.
pub(crate) fn counts_reply(ran: u64, asked: u64, did: u64) -> Reply
    ensures tells { (outcome : run.Outcome) → machine.IsFreeFor outcome ran asked did → machine.TellsNumbers outcome (reply_of result) }
    ensures is { reply_of result ≡ written.Counted ran asked did }
{
    Reply::Counted { ran, asked, did }
}

/// The reply to a request for this document: its lines.
pub(crate) fn dump_reply(alloc: Global, document: &Doc) -> Result<Reply, Memory>
    ensures { IfOk result (λ reply. reply_of reply ≡ written.Shown (lines_of (plain_of document.now))) }
{
    Ok(Reply::Shown(lines(alloc, document)?))
}

// A refusal of this code at this place.
fn refusal(alloc: Global, code: Code, place: &Place) -> Result<Refusal, Memory>
    ensures { IfOk result (λ why. refusal_of why ≡ record { code = code; place = place_of place.now }) }
{
    let place = copy_place(alloc, place)?;
    Ok(Refusal { code, place })
}

/// The text of a reply.
pub(crate) fn text_of(alloc: Global, answer: Reply) -> Result<Text, Memory>
    ensures { IfOk result (λ text. text ≡ reply_text (reply_of answer)) }
{
    reply(alloc, &answer)
}
