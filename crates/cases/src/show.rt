// Answers in a form that reads well.

use percent_encoding::percent_encode_byte;
use xt_names::Expanded;
use xt_text::{Memory, Text};

/// Adds a space where something stands before it.
pub fn part(out: &mut Text) -> Result<(), Memory> {
    if out.is_empty() {
        return Ok(());
    }
    out.push(' ')
}

/// Adds a word of the answer.
pub fn push_part(out: &mut Text, text: &str) -> Result<(), Memory> {
    part(out)?;
    out.push_str(text)
}

pub fn push_yes(out: &mut Text, holds: bool) -> Result<(), Memory> {
    push_part(out, if holds { "yes" } else { "no" })
}

pub fn push_number(out: &mut Text, number: u64) -> Result<(), Memory> {
    out.push_str(itoa::Buffer::new().format(number))
}

/// Adds the text in quotes, what would not read well as its bytes.
pub fn push_quoted(out: &mut Text, text: &str) -> Result<(), Memory> {
    out.push('"')?;
    for character in text.chars() {
        if character.is_ascii() {
            push_byte(out, character as u8)?;
        } else {
            out.push(character)?;
        }
    }
    out.push('"')
}

/// Adds the bytes in quotes, as a text where they are one.
pub fn push_bytes(out: &mut Text, bytes: &[u8]) -> Result<(), Memory> {
    if let Ok(text) = str::from_utf8(bytes) {
        return push_quoted(out, text);
    }
    out.push('"')?;
    for byte in bytes {
        push_byte(out, *byte)?;
    }
    out.push('"')
}

fn push_byte(out: &mut Text, byte: u8) -> Result<(), Memory> {
    match byte {
        b' ' | b'!' | b'#' | b'$' | b'&'..=b'~' => out.push(byte as char),
        _ => out.push_str(percent_encode_byte(byte)),
    }
}

/// Adds an expanded name, as `Q{URI}local`; one in no namespace as its local part alone.
pub fn push_name(out: &mut Text, name: &Expanded) -> Result<(), Memory> {
    push_uri(out, name.uri().as_str())?;
    out.push_str(name.local().as_str())
}

/// Adds `Q{URI}`, and nothing for no namespace.
pub fn push_uri(out: &mut Text, uri: &str) -> Result<(), Memory> {
    if uri.is_empty() {
        return Ok(());
    }
    out.push_str("Q{")?;
    out.push_str(uri)?;
    out.push('}')
}

/// Adds the text as a word of a line: in quotes only where it is none without them.
pub fn push_word(out: &mut Text, text: &str) -> Result<(), Memory> {
    if text.is_empty() || !text.bytes().all(|byte| is_plain(byte)) {
        return push_quoted(out, text);
    }
    out.push_str(text)
}

// Whether the byte may stand in a word without quotes.
fn is_plain(byte: u8) -> bool {
    matches!(byte, b'!' | b'#' | b'$' | b'&' | b'('..=b'~' | 0x80..)
}
