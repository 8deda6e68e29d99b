// The words of a case.

use crate::fault::Fault;
use percent_encoding::percent_decode;
use std::alloc::Global;
use xt_text::{Memory, Text};

/// A word: the bytes that it stands for.
pub type Word = Vec<u8>;

// Where in a line a byte stands.
#[derive(Clone, Copy, PartialEq, Eq)]
enum Place {
    Between,
    Bare,
    // Behind a mark, up to the next such mark.
    Quoted(u8),
}

// The words that were cut so far, and the one that is open.
#[derive(Drop)]
struct Cut {
    words: Vec<Word>,
    raw: Vec<u8>,
    // How often the next word stands.
    times: u64,
}

/// The words of a line.
pub fn words_of(alloc: Global, line: &str) -> Result<Vec<Word>, Memory> {
    let mut cut = Cut {
        words: Vec::new(alloc),
        raw: Vec::new(alloc),
        times: 1,
    };
    let mut place = Place::Between;
    for byte in line.as_bytes() {
        place = cut.take(alloc, place, *byte)?;
    }
    cut.end(alloc, place)?;
    Ok(cut.words)
}

impl Cut {
    // Takes one byte that stands at this place, and gives the place behind it.
    fn take(&mut self, alloc: Global, place: Place, byte: u8) -> Result<Place, Memory> {
        match place {
            Place::Between => self.begin(byte),
            Place::Bare => {
                if byte == b' ' {
                    self.end(alloc, place)?;
                    return Ok(Place::Between);
                }
                self.raw.push(byte)?;
                Ok(Place::Bare)
            }
            Place::Quoted(mark) => {
                if byte == mark {
                    self.end(alloc, place)?;
                    return Ok(Place::Between);
                }
                self.raw.push(byte)?;
                Ok(Place::Quoted(mark))
            }
        }
    }

    fn begin(&mut self, byte: u8) -> Result<Place, Memory> {
        match byte {
            b' ' => Ok(Place::Between),
            b'"' | b'\'' => Ok(Place::Quoted(byte)),
            _ => {
                self.raw.push(byte)?;
                Ok(Place::Bare)
            }
        }
    }

    // Ends the word that is open, where one is.
    fn end(&mut self, alloc: Global, place: Place) -> Result<(), Memory> {
        match place {
            Place::Between => return Ok(()),
            Place::Bare => {
                if let Some(times) = times_of(self.raw.as_slice()) {
                    self.raw.clear();
                    self.times = times;
                    return Ok(());
                }
            }
            Place::Quoted(_) => {}
        }
        for _ in 0..self.times {
            let word = decoded(alloc, self.raw.as_slice())?;
            self.words.push(word)?;
        }
        self.raw.clear();
        self.times = 1;
        Ok(())
    }
}

// The number in a word `%*N`.
fn times_of(raw: &[u8]) -> Option<u64> {
    let text = str::from_utf8(raw).ok()?;
    let digits = text.strip_prefix("%*")?;
    digits.parse::<u64>().ok()
}

// The bytes that a word stands for.
fn decoded(alloc: Global, raw: &[u8]) -> Result<Word, Memory> {
    let mut word = Vec::new(alloc);
    percent_decode(raw).append_to(&mut word)?;
    Ok(word)
}

/// The name of the call that the words are, and its arguments.
pub fn call_of(words: &[Word]) -> Result<(&str, &[Word]), Fault> {
    let (call, arguments) = words.split_first().ok_or(Fault::NoCase)?;
    Ok((text_of(call)?, arguments))
}

/// The text of this word, from 0.
pub fn text_at(words: &[Word], index: usize) -> Result<&str, Fault> {
    if index < words.len() {
        text_of(&words[index])
    } else {
        Err(Fault::NoCase)
    }
}

/// The text of a word.
pub fn text_of(word: &Word) -> Result<&str, Fault> {
    str::from_utf8(word.as_slice()).map_err(|_| Fault::NoCase)
}

/// The number of this word, from 0.
pub fn number_at(words: &[Word], index: usize) -> Result<u64, Fault> {
    number_of(text_at(words, index)?)
}

/// The number that a text writes.
pub fn number_of(text: &str) -> Result<u64, Fault> {
    text.parse::<u64>().map_err(|_| Fault::NoCase)
}

/// The texts of the words, one after another.
pub fn joined(alloc: Global, words: &[Word]) -> Result<Text, Fault> {
    let mut whole = Text::new(alloc);
    for word in words {
        let text = text_of(word)?;
        whole.push_str(text)?;
    }
    Ok(whole)
}

/// The list of one item.
pub fn one<T: Drop>(alloc: Global, item: T) -> Result<Vec<T>, Memory> {
    let mut list = Vec::new(alloc);
    list.push(item)?;
    Ok(list)
}

/// The words behind the first so many.
pub fn behind(words: &[Word], count: usize) -> &[Word] {
    if count < words.len() {
        &words[count..]
    } else {
        &[]
    }
}

/// The words before the first `:` and those behind it; all and none where there is none.
pub fn halves(words: &[Word]) -> (&[Word], &[Word]) {
    match words
        .iter()
        .position(|word| word.as_slice() == b":".as_slice())
    {
        None => (words, &[]),
        Some(place) => {
            let (front, back) = words.split_at(place);
            (front, behind(back, 1))
        }
    }
}
