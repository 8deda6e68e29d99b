// From replies to their text.
ghost use Rattle.std.specs.Prelude.{◌≡◌, ◌++◌, ◌∷◌, [], IfOk, OnOk, length, decimal, codes};
ghost use Rattle.std.specs.List.{flat_map};
ghost use Rattle.std.specs.Str.{chars, encode_utf8_all};
ghost use Rattle.spec_session.specs.Reply.{place_text, refusal_text, reply_text, with_newline};
ghost use Rattle.spec_expression.specs.Code.{code_text};
ghost use Rattle.xt_base.specs.Code.{edit_number};
ghost use Rattle.xt_wire.specs.View.{place_of, refusal_of, reply_of};

use crate::replies::{Refusal, Reply};
use itoa::Buffer;
use std::alloc::Global;
use xt_base::{Code, EditCode, Place};
use xt_text::{Memory, Text};

/// The text of a reply: its lines, each with an LF.
pub fn reply(alloc: Global, reply: &Reply) -> Result<Text, Memory>
    ensures { IfOk result (λ text. text ≡ reply_text (reply_of reply.now)) }
{
    match reply {
        Reply::OkDone => Text::from_str(alloc, "ok done\n"),
        Reply::OkRefused(why) => refusal_line(alloc, "ok refused ", why),
        Reply::OkPending => Text::from_str(alloc, "ok pending\n"),
        Reply::OkDropped => Text::from_str(alloc, "ok dropped\n"),
        Reply::Refused(why) => refusal_line(alloc, "refused ", why),
        Reply::Shown(lines) => shown_lines(alloc, lines.as_slice()),
        Reply::Written(text) => written_text(alloc, text),
        Reply::Counted { ran, asked, did } => counts_line(alloc, *ran, *asked, *did),
        Reply::No(code) => no_line(alloc, *code),
    }
}

// These words and the refusal, as a line.
fn refusal_line(alloc: Global, words: &str, why: &Refusal) -> Result<Text, Memory>
    ensures { IfOk result (λ text. text ≡ with_newline (chars words.now ++ refusal_text (refusal_of why.now))) }
{
    let mut text = Text::from_str(alloc, words)?;
    push_code(alloc, &mut text, why.code)?;
    text.push(' ')?;
    push_place(&mut text, &why.place)?;
    text.push('\n')?;
    Ok(text)
}

// These lines, and the line that ends them.
fn shown_lines(alloc: Global, lines: &[Text]) -> Result<Text, Memory>
    ensures { IfOk result (λ text. text ≡ flat_map with_newline (lines.now ++ codes "." ∷ [])) }
{
    let mut text = Text::new(alloc);
    for line in lines {
        text.push_str(line.as_str())?;
        text.push('\n')?;
    }
    text.push_str(".\n")?;
    Ok(text)
}

// The number of the text's bytes, and the text.
fn written_text(alloc: Global, text: &Text) -> Result<Text, Memory>
    ensures { IfOk result (λ written. written ≡ flat_map with_newline ((codes "text " ++ decimal (length (encode_utf8_all text.now))) ∷ text.now ∷ [])) }
{
    let mut written = Text::from_str(alloc, "text ")?;
    push_number(&mut written, text.as_str().len() as u64)?;
    written.push('\n')?;
    written.push_str(text.as_str())?;
    written.push('\n')?;
    Ok(written)
}

// The line of the counts.
fn counts_line(alloc: Global, ran: u64, asked: u64, did: u64) -> Result<Text, Memory>
    ensures { IfOk result (λ text. text ≡ with_newline (codes "ran " ++ decimal ran ++ codes " asked " ++ decimal asked ++ codes " did " ++ decimal did)) }
{
    let mut text = Text::from_str(alloc, "ran ")?;
    push_number(&mut text, ran)?;
    text.push_str(" asked ")?;
    push_number(&mut text, asked)?;
    text.push_str(" did ")?;
    push_number(&mut text, did)?;
    text.push('\n')?;
    Ok(text)
}

// The line of a refused command.
fn no_line(alloc: Global, code: EditCode) -> Result<Text, Memory>
    ensures { IfOk result (λ text. text ≡ with_newline (codes "no " ++ decimal (edit_number code))) }
{
    let mut text = Text::from_str(alloc, "no ")?;
    push_number(&mut text, u64::from(code.number()))?;
    text.push('\n')?;
    Ok(text)
}

// Adds the code.
fn push_code(alloc: Global, text: &mut Text, code: Code) -> Result<(), Memory>
    ensures { OnOk result (text.new ≡ text.old ++ code_text code) }
{
    let code = code.to_string(alloc)?;
    text.push_str(code.as_str())
}

// Adds the module and the positions, each behind a slash, or `-` where there is no module.
fn push_place(text: &mut Text, place: &Place) -> Result<(), Memory>
    ensures { OnOk result (text.new ≡ text.old ++ place_text (place_of place.now)) }
{
    let Some(module) = &place.module else {
        return text.push('-');
    };
    text.push_str(module.as_str())?;
    for position in place.path.positions() {
        text.push('/')?;
        push_number(text, *position)?;
    }
    Ok(())
}

// Adds the decimal digits of a number.
fn push_number(text: &mut Text, number: u64) -> Result<(), Memory>
    ensures { OnOk result (text.new ≡ text.old ++ decimal number) }
{
    text.push_str(Buffer::new().format(number))
}
