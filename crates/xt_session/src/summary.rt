// The text of the summary.
ghost use Rattle.std.specs.Prelude.{◌≡◌, ◌++◌, codes, decimal, IfOk, OnOk};
ghost use Rattle.spec_session.specs.Reply.{with_newline};

use crate::counts::Counts;
use itoa::{Buffer, Integer};
use std::alloc::Global;
use xt_text::Memory;

/// The summary of the replies of a session of this size, by their counts.
pub(crate) fn summary(alloc: Global, size: u16, counts: Counts) -> Result<Vec<u8>, Memory>
    ensures { IfOk result (λ text. text.items ≡ with_newline (codes "demo " ++ decimal size ++ codes " ok " ++ decimal counts.accepted
        ++ codes " no " ++ decimal counts.refused ++ codes " bytes " ++ decimal counts.bytes)) }
{
    let mut text = Vec::from_slice(alloc, b"demo ")?;
    push_number(&mut text, size)?;
    text.extend_from_slice(b" ok ")?;
    push_number(&mut text, counts.accepted)?;
    text.extend_from_slice(b" no ")?;
    push_number(&mut text, counts.refused)?;
    text.extend_from_slice(b" bytes ")?;
    push_number(&mut text, counts.bytes)?;
    text.push(b'\n')?;
    Ok(text)
}

// Adds the decimal digits of a number.
fn push_number<I: Integer>(text: &mut Vec<u8>, number: I) -> Result<(), Memory>
    ensures { OnOk result (text.new.items ≡ text.old.items ++ I.text number) }
{
    Ok(text.extend_from_slice(Buffer::new().format(number).as_bytes())?)
}
