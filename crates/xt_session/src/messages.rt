// The messages of a transformation.
ghost use Rattle.std.specs.Prelude.{◌≡◌, IfOk, map};
ghost use Rattle.spec_document.specs.Pyx.{line_of};
ghost use Rattle.spec_document.specs.declared.event.Event.TheVariants.{Data};
ghost use Rattle.spec_session.specs.Machine as machine;
ghost use Rattle.xt_held.specs.OutcomeView.{outcome_of};
ghost use Rattle.xt_wire.specs.View.{reply_of};

use std::alloc::Global;
use xt_held::Outcome;
use xt_pyx::write_data;
use xt_text::{Memory, Text};
use xt_wire::Reply;

/// The reply to a request for the messages, where the transformation comes to this.
pub(crate) fn messages_reply(alloc: Global, outcome: &Outcome) -> Result<Reply, Memory>
    ensures { IfOk result (λ reply. reply_of reply ≡ machine.messages_reply (outcome_of outcome.now)) }
{
    Ok(Reply::Shown(lines_of(alloc, messages_in(outcome))?))
}

// They are there also where it is refused.
fn messages_in(outcome: &Outcome) -> &[Text]
    ensures { result.now ≡ machine.messages_in (outcome_of outcome.now) }
{
    match outcome {
        Outcome::Done { messages, .. } => messages.as_slice(),
        Outcome::Refused { messages, .. } => messages.as_slice(),
    }
}

// The lines of texts, one each.
fn lines_of(alloc: Global, texts: &[Text]) -> Result<Vec<Text>, Memory>
    ensures { IfOk result (λ lines. lines.items ≡ map (λ text. line_of (Data text)) texts.now) }
{
    let mut lines = Vec::new(alloc);
    for text in texts {
        lines.push(write_data(alloc, text)?)?;
    }
    Ok(lines)
}
