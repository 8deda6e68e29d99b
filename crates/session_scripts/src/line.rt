// The bytes of a line of a session.

use percent_encoding::percent_decode;
use xt_text::Memory;

/// Adds the bytes that a line stands for.
pub fn push_line(input: &mut Vec<u8>, line: &str) -> Result<(), Memory> {
    let Some(rest) = line.strip_prefix("%*") else {
        return push_one(input, line);
    };
    let Some((times, line)) = rest.split_once(' ') else {
        return push_one(input, line);
    };
    for _ in 0..times.parse::<u64>().unwrap_or(0) {
        push_one(input, line)?;
    }
    Ok(())
}

fn push_one(input: &mut Vec<u8>, line: &str) -> Result<(), Memory> {
    let Some(rest) = line.strip_prefix("%") else {
        input.extend_from_slice(line.as_bytes())?;
        input.push(b'\n')?;
        return Ok(());
    };
    match rest.strip_suffix("%.") {
        Some(last) => Ok(percent_decode(last.as_bytes()).append_to(input)?),
        None => {
            percent_decode(rest.as_bytes()).append_to(input)?;
            input.push(b'\n')?;
            Ok(())
        }
    }
}
