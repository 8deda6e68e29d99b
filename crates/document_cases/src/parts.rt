// Texts and paths: `join TEXT..`, the texts one after another; `spell TEXT`, its characters one after another; `joined-is WANTED TEXT..`, whether that is
// the wanted text; `same-text TEXT TEXT`; `split MARK TEXT`; `order TEXT TEXT`, by code points. `path
// STEP..` makes a path, where a number is one step down, `up` one back, which is printed, and `copy` goes on with a copy;
// `same-path STEP.. : STEP..`.

use cases::{
    Fault, Word, behind, halves, joined, number_of, part, push_part, push_quoted, push_yes,
    text_at, text_of,
};
use std::alloc::Global;
use std::cmp::Ordering;
use xt_text::{Memory, Path, Text, compare, split_first};

/// Answers the call, if it is one of these.
pub fn answer(alloc: Global, out: &mut Text, call: &str, words: &[Word]) -> Result<bool, Fault> {
    match call {
        "join" => push_joined(alloc, out, words)?,
        "spell" => push_spelled(alloc, out, text_at(words, 0)?)?,
        "joined-is" => push_yes(out, is_joined(alloc, text_at(words, 0)?, behind(words, 1))?)?,
        "same-text" => push_yes(out, is_same(alloc, text_at(words, 0)?, text_at(words, 1)?)?)?,
        "split" => push_split(out, text_at(words, 0)?, text_at(words, 1)?)?,
        "order" => push_part(out, order(text_at(words, 0)?, text_at(words, 1)?))?,
        "path" => push_steps(alloc, out, words)?,
        "same-path" => {
            let (steps, others) = halves(words);
            push_yes(out, is_same_path(alloc, steps, others)?)?;
        }
        _ => return Ok(false),
    }
    Ok(true)
}

fn push_joined(alloc: Global, out: &mut Text, words: &[Word]) -> Result<(), Fault> {
    let text = joined(alloc, words)?;
    push_quoted(out, text.as_str())?;
    Ok(())
}

fn push_spelled(alloc: Global, out: &mut Text, text: &str) -> Result<(), Memory> {
    let text = spelled(alloc, text)?;
    push_quoted(out, text.as_str())
}

fn is_joined(alloc: Global, wanted: &str, words: &[Word]) -> Result<bool, Fault> {
    let text = joined(alloc, words)?;
    Ok(text.is(wanted))
}

// Whether a copy of the first text is the second.
fn is_same(alloc: Global, text: &str, other: &str) -> Result<bool, Memory> {
    let copy = Text::from_str(alloc, text)?.copy(alloc)?;
    let other = Text::from_str(alloc, other)?;
    Ok(copy.same(&other))
}

fn is_same_path(alloc: Global, steps: &[Word], others: &[Word]) -> Result<bool, Fault> {
    let first = path(alloc, steps)?;
    let second = path(alloc, others)?;
    Ok(first.same(&second))
}

fn spelled(alloc: Global, text: &str) -> Result<Text, Memory> {
    let mut whole = Text::new(alloc);
    for character in text.chars() {
        whole.push(character)?;
    }
    Ok(whole)
}

fn push_split(out: &mut Text, mark: &str, text: &str) -> Result<(), Fault> {
    let mark = mark.chars().next().ok_or(Fault::NoCase)?;
    match split_first(text, mark) {
        None => push_part(out, "none")?,
        Some((front, back)) => {
            push_quoted(out, front)?;
            part(out)?;
            push_quoted(out, back)?;
        }
    }
    Ok(())
}

fn order(first: &str, second: &str) -> &'static str {
    match compare(first, second) {
        Ordering::Less => "less",
        Ordering::Equal => "equal",
        Ordering::Greater => "greater",
    }
}

/// The path of these steps.
pub fn path(alloc: Global, words: &[Word]) -> Result<Path, Fault> {
    let mut path = Path::new(alloc);
    for word in words {
        let position = number_of(text_of(word)?)?;
        path.push(position)?;
    }
    Ok(path)
}

fn push_steps(alloc: Global, out: &mut Text, words: &[Word]) -> Result<(), Fault> {
    let mut path = Path::new(alloc);
    for word in words {
        take_step(alloc, out, &mut path, text_of(word)?)?;
    }
    part(out)?;
    push_path(out, &path)?;
    Ok(())
}

fn take_step(alloc: Global, out: &mut Text, path: &mut Path, step: &str) -> Result<(), Fault> {
    match step {
        "up" => push_position(out, path.pop())?,
        "copy" => *path = path.copy(alloc)?,
        _ => {
            let position = number_of(step)?;
            path.push(position)?;
        }
    }
    Ok(())
}

fn push_position(out: &mut Text, position: Option<u64>) -> Result<(), Memory> {
    match position {
        None => push_part(out, "none"),
        Some(position) => push_part(out, itoa::Buffer::new().format(position)),
    }
}

/// Adds a path, as `/1/2`; that of the root as `/`.
pub fn push_path(out: &mut Text, path: &Path) -> Result<(), Memory> {
    if path.positions().is_empty() {
        return out.push('/');
    }
    for position in path.positions() {
        out.push('/')?;
        out.push_str(itoa::Buffer::new().format(*position))?;
    }
    Ok(())
}
