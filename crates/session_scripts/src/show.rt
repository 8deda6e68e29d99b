// What a session wrote, in the form in which its input is given.

use percent_encoding::{CONTROLS, percent_encode};
use std::alloc::Global;
use xt_text::Memory;

/// Adds the bytes line by line.
pub fn push_bytes(alloc: Global, out: &mut String, bytes: &[u8]) -> Result<(), Memory> {
    let mut line = Vec::new(alloc);
    for byte in bytes {
        if *byte == b'\n' {
            push_line(out, line.as_slice())?;
            line.clear();
        } else {
            line.push(*byte)?;
        }
    }
    if line.is_empty() {
        return Ok(());
    }
    out.push('%')?;
    push_coded(out, line.as_slice())?;
    out.push_str("%.\n")?;
    Ok(())
}

// Adds a line that an LF ends.
fn push_line(out: &mut String, line: &[u8]) -> Result<(), Memory> {
    match str::from_utf8(line) {
        Ok(text) if reads_well(text) => out.push_str(text)?,
        _ => {
            out.push('%')?;
            push_coded(out, line)?;
        }
    }
    out.push('\n')?;
    Ok(())
}

// Whether a line reads well as it is, and for itself.
fn reads_well(text: &str) -> bool {
    if text.is_empty() || text.ends_with(" ") {
        return false;
    }
    if text.starts_with("%") || text.starts_with("#") || text.starts_with("==") {
        return false;
    }
    text.bytes().all(|byte| byte >= b' ' && byte != 0x7F)
}

fn push_coded(out: &mut String, line: &[u8]) -> Result<(), Memory> {
    let coded = CONTROLS.add(b' ').add(b'%');
    percent_encode(line, coded).append_to(out)?;
    Ok(())
}
