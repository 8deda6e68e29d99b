// What a session is run with.

use std::alloc::Global;
use xt_text::Memory;

/// The limit of a session where none is given.
const LIMIT: u64 = 1 << 48;

/// The room of a sink where none is given.
const ROOM: usize = 100_000;

/// What a session is run with.
#[derive(Drop)]
pub struct Setting {
    pub limit: u64,
    // 0 for any number of bytes
    pub pieces: usize,
    pub reads: Vec<u64>,
    pub writes: Vec<u64>,
    pub room: usize,
    // over a reader and a writer of std in place of memory
    pub is_over_std: bool,
    pub words: Option<Vec<String>>,
}

// What a word behind it sets.
#[derive(Clone, Copy, PartialEq, Eq)]
enum Key {
    Limit,
    Pieces,
    Reads,
    Writes,
    Room,
    Over,
    // and all words behind that one
    Words,
}

// What comes next.
#[derive(Clone, Copy)]
enum Next {
    Key,
    // of this key
    Value(Key),
    // nothing, since what came says nothing
    Wrong,
}

fn key_of(word: &str) -> Option<Key> {
    match word {
        "limit" => Some(Key::Limit),
        "pieces" => Some(Key::Pieces),
        "reads" => Some(Key::Reads),
        "writes" => Some(Key::Writes),
        "room" => Some(Key::Room),
        "over" => Some(Key::Over),
        "words" => Some(Key::Words),
        _ => None,
    }
}

impl Setting {
    /// What these words say; none where they say nothing.
    pub fn read(alloc: Global, options: &str) -> Result<Option<Setting>, Memory> {
        let mut setting = Setting::new(alloc);
        let mut open = None;
        for word in options.split(' ') {
            match setting.take(alloc, open, word)? {
                Next::Wrong => return Ok(None),
                Next::Key => open = None,
                Next::Value(key) => open = Some(key),
            }
        }
        Ok(Some(setting))
    }

    // Takes the next word, a key or a value of the open one.
    fn take(&mut self, alloc: Global, open: Option<Key>, word: &str) -> Result<Next, Memory> {
        match (open, key_of(word)) {
            (Some(key), _) => {
                let is_value = self.set(alloc, key, word)?;
                Ok(if is_value { behind(key) } else { Next::Wrong })
            }
            (None, Some(key)) => {
                self.begin(alloc, key)?;
                Ok(Next::Value(key))
            }
            (None, None) => Ok(Next::Wrong),
        }
    }

    /// The setting where nothing is said: `serve` is called.
    pub fn new(alloc: Global) -> Setting {
        Setting {
            limit: LIMIT,
            pieces: 0,
            reads: Vec::new(alloc),
            writes: Vec::new(alloc),
            room: ROOM,
            is_over_std: false,
            words: None,
        }
    }

    // With `words` the program's name is there, though no word may follow.
    fn begin(&mut self, alloc: Global, key: Key) -> Result<(), Memory> {
        if key == Key::Words {
            let name = String::from_str(alloc, "xt")?;
            let mut words = Vec::new(alloc);
            words.push(name)?;
            self.words = Some(words);
        }
        Ok(())
    }

    // Sets what the key names; false where the word is no value of it.
    fn set(&mut self, alloc: Global, key: Key, word: &str) -> Result<bool, Memory> {
        match key {
            Key::Words => self.add_word(alloc, word),
            Key::Reads => push_numbers(&mut self.reads, word),
            Key::Writes => push_numbers(&mut self.writes, word),
            Key::Limit | Key::Pieces | Key::Room => Ok(self.set_number(key, word)),
            Key::Over => {
                self.is_over_std = word == "std";
                Ok(self.is_over_std)
            }
        }
    }

    fn add_word(&mut self, alloc: Global, word: &str) -> Result<bool, Memory> {
        match &mut self.words {
            None => Ok(false),
            Some(words) => {
                let word = String::from_str(alloc, word)?;
                words.push(word)?;
                Ok(true)
            }
        }
    }

    fn set_number(&mut self, key: Key, word: &str) -> bool {
        let Ok(number) = word.parse::<u64>() else {
            return false;
        };
        match key {
            Key::Limit => self.limit = number,
            Key::Pieces => self.pieces = number as usize,
            Key::Room => self.room = number as usize,
            Key::Reads | Key::Writes | Key::Over | Key::Words => return false,
        }
        true
    }
}

// What comes behind a value: another key, or one more word.
fn behind(key: Key) -> Next {
    match key {
        Key::Words => Next::Value(key),
        _ => Next::Key,
    }
}

// Adds the numbers that commas part; false where a word is none.
fn push_numbers(numbers: &mut Vec<u64>, text: &str) -> Result<bool, Memory> {
    for word in text.split(',') {
        match word.parse::<u64>() {
            Ok(number) => numbers.push(number)?,
            Err(_) => return Ok(false),
        }
    }
    Ok(true)
}
