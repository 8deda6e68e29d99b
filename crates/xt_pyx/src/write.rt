// From events to lines.
ghost use Rattle.std.specs.Prelude.{◌≡◌, ◌++◌, ◌∷◌, [], IfOk};
ghost use Rattle.std.specs.Str.{chars};
ghost use Rattle.spec_document.specs.Pyx as spec;
ghost use Rattle.spec_document.specs.declared.event.Event.TheVariants as event;

use crate::Event;
use crate::escape::push_escaped;
use std::alloc::Global;
use xt_text::{Memory, Text};

/// The line that is written for an event, without a line end. It is read back as that event where its
/// characters are XML Chars and no attribute name or target has a space in it.
pub fn write_event(alloc: Global, event: &Event) -> Result<Text, Memory>
    ensures { IfOk result (λ line. line ≡ spec.line_of event.now) }
{
    match event {
        Event::Start { name } => write_start(alloc, name),
        Event::Attribute { name, value } => write_attribute(alloc, name, value),
        Event::Data { text } => write_data(alloc, text),
        Event::Instruction { target, text } => write_instruction(alloc, target, text),
        Event::End { name } => write_end(alloc, name),
        Event::Comment { text } => write_comment(alloc, text),
    }
}

/// The line of a start, where no event is at hand.
pub fn write_start(alloc: Global, name: &Text) -> Result<Text, Memory>
    ensures { IfOk result (λ line. line ≡ spec.line_of (event.Start name.now)) }
{
    begin(alloc, '(', name)
}

/// The line of an attribute or a declaration, likewise.
pub fn write_attribute(alloc: Global, name: &Text, value: &Text) -> Result<Text, Memory>
    ensures { IfOk result (λ line. line ≡ spec.line_of (event.Attribute name.now value.now)) }
{
    write_named(alloc, 'A', name, value)
}

/// The line of character data, likewise.
pub fn write_data(alloc: Global, text: &Text) -> Result<Text, Memory>
    ensures { IfOk result (λ line. line ≡ spec.line_of (event.Data text.now)) }
{
    write_escaped(alloc, '-', text)
}

/// The line of a processing instruction, likewise.
pub fn write_instruction(alloc: Global, target: &Text, text: &Text) -> Result<Text, Memory>
    ensures { IfOk result (λ line. line ≡ spec.line_of (event.Instruction target.now text.now)) }
{
    if text.is_empty() {
        begin(alloc, '?', target)
    } else {
        write_named(alloc, '?', target, text)
    }
}

/// The line of an end, likewise.
pub fn write_end(alloc: Global, name: &Text) -> Result<Text, Memory>
    ensures { IfOk result (λ line. line ≡ spec.line_of (event.End name.now)) }
{
    begin(alloc, ')', name)
}

/// The line of a comment, likewise.
pub fn write_comment(alloc: Global, text: &Text) -> Result<Text, Memory>
    ensures { IfOk result (λ line. line ≡ spec.line_of (event.Comment text.now)) }
{
    write_escaped(alloc, 'C', text)
}

// A sign and a name.
fn begin(alloc: Global, sign: char, name: &Text) -> Result<Text, Memory>
    ensures { IfOk result (λ line. line ≡ sign ∷ name.now) }
{
    let mut line = Text::new(alloc);
    line.push(sign)?;
    line.push_str(name.as_str())?;
    Ok(line)
}

// A sign, a name, a space and an escaped text.
fn write_named(alloc: Global, sign: char, name: &Text, text: &Text) -> Result<Text, Memory>
    ensures { IfOk result (λ line. line ≡ sign ∷ name.now ++ 0x20 ∷ spec.escaped text.now) }
{
    let mut line = begin(alloc, sign, name)?;
    line.push(' ')?;
    push_escaped(&mut line, text.as_str())?;
    Ok(line)
}

// A sign and an escaped text.
fn write_escaped(alloc: Global, sign: char, text: &Text) -> Result<Text, Memory>
    ensures { IfOk result (λ line. line ≡ sign ∷ spec.escaped text.now) }
{
    let mut line = Text::new(alloc);
    line.push(sign)?;
    push_escaped(&mut line, text.as_str())?;
    Ok(line)
}
