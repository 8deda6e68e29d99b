// From lines to events.
ghost use Rattle.std.specs.Prelude.{◌≡◌, ◌↔◌, Some, None, IfOk, IsErrOf};
ghost use Rattle.std.specs.List.{list_all, before_first, after_first};
ghost use Rattle.std.specs.Str.{chars};
ghost use Rattle.spec_document.specs.Character as spec_character;
ghost use Rattle.spec_document.specs.Pyx as spec;

use crate::escape::unescape;
use crate::{BadLine, Event};
use std::alloc::Global;
use xt_names::is_char;
use xt_text::{Memory, Text, split_first};

/// The event of a line, which is given without its line end. `Bad` exactly where the line has none: it
/// begins with none of the six signs, or holds a character that is no XML Char.
pub fn read_event(alloc: Global, line: &str) -> Result<Event, BadLine>
    ensures event { IfOk result (λ event. spec.event_of (chars line.now) ≡ Some event) }
    ensures bad { IsErrOf result BadLine.Bad ↔ (spec.event_of (chars line.now) ≡ None) }
{
    if !has_only_chars(line) {
        return Err(BadLine::Bad);
    }
    let mut characters = line.chars();
    let Some(sign) = characters.next() else {
        return Err(BadLine::Bad);
    };
    read_behind(alloc, sign, characters.as_str())
}

// Whether each character is an XML Char.
fn has_only_chars(line: &str) -> bool
    ensures { result ≡ list_all spec_character.is_char (chars line.now) }
{
    line.chars().all(|c| is_char(c))
}

// The event of a line of XML Chars that begins with this sign.
fn read_behind(alloc: Global, sign: char, rest: &str) -> Result<Event, BadLine>
    ensures event { IfOk result (λ event. spec.event_behind sign (chars rest.now) ≡ Some event) }
    ensures bad { IsErrOf result BadLine.Bad ↔ (spec.event_behind sign (chars rest.now) ≡ None) }
{
    Ok(match sign {
        '(' => Event::Start {
            name: Text::from_str(alloc, rest)?,
        },
        'A' => {
            let (name, value) = read_named(alloc, rest)?;
            Event::Attribute { name, value }
        }
        '-' => Event::Data {
            text: unescape(alloc, rest)?,
        },
        '?' => {
            let (target, text) = read_named(alloc, rest)?;
            Event::Instruction { target, text }
        }
        ')' => Event::End {
            name: Text::from_str(alloc, rest)?,
        },
        'C' => Event::Comment {
            text: unescape(alloc, rest)?,
        },
        _ => return Err(BadLine::Bad),
    })
}

// A name up to the first space, and the text that is read behind it.
fn read_named(alloc: Global, rest: &str) -> Result<(Text, Text), Memory>
    ensures { IfOk result (λ named. (named.0 ≡ before_first spec.is_blank (chars rest.now))
        × (named.1 ≡ spec.unescaped (after_first spec.is_blank (chars rest.now)))) }
{
    match split_first(rest, ' ') {
        Some((name, escaped)) => Ok((Text::from_str(alloc, name)?, unescape(alloc, escaped)?)),
        None => Ok((Text::from_str(alloc, rest)?, Text::new(alloc))),
    }
}
