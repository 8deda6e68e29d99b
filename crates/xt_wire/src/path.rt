// Paths as they are written. All their characters are ASCII, so bytes are read.
ghost use Rattle.std.specs.Prelude.{◌≡◌, IfOk, is_some, map};
ghost use Rattle.std.specs.List.{list_all};
ghost use Rattle.std.specs.Str.{chars};
ghost use Rattle.spec_document.specs.Character.{is_between};
ghost use Rattle.spec_session.specs.Request.{all_there, is_digit, parts_of, path_of, position_of};

use std::alloc::Global;
use xt_text::{Memory, Path};

/// The path that a word writes: `/` for the root, or positions as `/2/1`, each of 1 to 18 digits and not
/// beginning with 0. None where it writes none.
pub fn read_path(alloc: Global, word: &str) -> Result<Option<Path>, Memory>
    ensures { IfOk result (λ path. path ≡ path_of (chars word.now)) }
{
    let Some(rest) = word.strip_prefix('/') else {
        return Ok(None);
    };
    if rest.is_empty() {
        return Ok(Some(Path::new(alloc)));
    }
    read_positions(alloc, rest)
}

// The positions between the slashes, where each part is one.
fn read_positions(alloc: Global, text: &str) -> Result<Option<Path>, Memory>
    ensures { IfOk result (λ path. path ≡ all_there (map position_of (parts_of text.now))) }
{
    let mut path = Path::new(alloc);
    for part in text.split('/') {
        match read_position(part) {
            Some(position) => path.push(position)?,
            None => return Ok(None),
        }
    }
    Ok(Some(path))
}

// The position that these digits write.
fn read_position(part: &str) -> Option<u64>
    ensures { result ≡ position_of part.now }
{
    if is_position(part.as_bytes()) {
        part.parse().ok()
    } else {
        None
    }
}

// Whether these are 1 to 18 digits of which the first is not 0.
fn is_position(digits: &[u8]) -> bool
    ensures { result ≡ is_some (position_of digits.now) }
{
    match digits.split_first() {
        Some((first, others)) => {
            is_first_digit(*first) && are_digits(others) && others.len() <= 17
        }
        None => false,
    }
}

fn is_first_digit(byte: u8) -> bool
    ensures { result ≡ is_between 0x31 0x39 byte }
{
    matches!(byte, b'1'..=b'9')
}

fn are_digits(bytes: &[u8]) -> bool
    ensures { result ≡ list_all is_digit bytes.now }
{
    bytes.iter().all(|byte| byte.is_ascii_digit())
}
