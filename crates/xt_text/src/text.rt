// Texts as lists of characters.
ghost use Rattle.std.specs.Prelude.{◌≡◌, ◌++◌, [], ◌∷◌, IfOk, OnOk, OnErr, bytes_eq, length, ◌==◌, if◌then◌else◌, Some};
ghost use Rattle.std.specs.Str.{chars, encode_utf8_all};
ghost use Rattle.xt_text.specs.Shared.{characters_of};

use crate::Memory;
use std::alloc::Global;
use std::marker::Model;
use std::rc::Rc;

/// A text. Its copies share its memory until something is added to one of them. Contracts see the list of its
/// characters.
#[derive(Debug)]
pub struct Text {
    alloc: Global,
    // None where it has no character and takes no memory.
    shared: Option<Rc<String>>,
}

// Written out, so that letting a text go is one call where it stands and no choice by what it holds.
impl Drop for Text {
    fn drop(self) {
        let Text { alloc: _, shared } = self;
        drop(shared);
    }
}

impl Model for Text {
    ghost use Rattle.std.specs.Prelude.{ℕ, List};
    ghost use Rattle.xt_text.specs.Shared.{characters_of};

    ghost Value = { List ℕ };

    ghost view = { λ t. characters_of t.shared };
}

impl Text {
    /// The empty text. Takes no memory.
    pub fn new(alloc: Global) -> Text
        ensures { result ≡ [] }
    {
        Text {
            alloc,
            shared: None,
        }
    }

    /// The text of these characters. An empty one takes no memory.
    pub fn from_str(alloc: Global, text: &str) -> Result<Text, Memory>
        ensures { IfOk result (λ t. t ≡ chars text.now) }
    {
        if text.is_empty() {
            return Ok(Text::new(alloc));
        }
        Ok(Text {
            alloc,
            shared: joined(alloc, &None, text)?,
        })
    }

    /// The text as std sees it: its characters, in UTF-8.
    pub fn as_str(&self) -> &str
        ensures characters { chars result.now ≡ self.now }
        ensures bytes { result.now ≡ encode_utf8_all self.now }
    {
        letters(&self.shared)
    }

    /// Adds these characters at the end. After want of memory the text is as before.
    pub fn push_str(&mut self, more: &str) -> Result<(), Memory>
        ensures ok { OnOk result (self.new ≡ self.old ++ chars more.now) }
        ensures err { OnErr result (self.new ≡ self.old) }
    {
        if push_alone(&mut self.shared, more)? {
            return Ok(());
        }
        self.shared = joined(self.alloc, &self.shared, more)?;
        Ok(())
    }

    /// Adds one character at the end. After want of memory the text is as before.
    pub fn push(&mut self, character: char) -> Result<(), Memory>
        ensures ok { OnOk result (self.new ≡ self.old ++ character ∷ []) }
        ensures err { OnErr result (self.new ≡ self.old) }
    {
        let mut buffer = [0; 4];
        self.push_str(character.encode_utf8(&mut buffer))
    }

    /// The same text, in the same memory.
    pub fn copy(&self, alloc: Global) -> Result<Text, Memory>
        ensures { IfOk result (λ t. t ≡ self.now) }
    {
        match &self.shared {
            None => Ok(Text::new(alloc)),
            Some(shared) => Ok(Text {
                alloc,
                shared: Some(shared.clone()?),
            }),
        }
    }

    /// Whether it has no character.
    pub fn is_empty(&self) -> bool
        ensures { result ≡ (length self.now == 0) }
    {
        self.as_str().is_empty()
    }

    /// Whether it has the characters of this text. Takes no memory.
    pub fn is(&self, text: &str) -> bool
        ensures { result ≡ bytes_eq self.now (chars text.now) }
    {
        self.as_str() == text
    }

    /// Whether both have the same characters. Takes no memory.
    pub fn same(&self, other: &Text) -> bool
        ensures { result ≡ bytes_eq self.now other.now }
    {
        self.as_str() == other.as_str()
    }
}

// The text as std sees it.
fn letters(shared: &Option<Rc<String>>) -> &str
    ensures characters { chars result.now ≡ characters_of shared.now }
    ensures bytes { result.now ≡ encode_utf8_all (characters_of shared.now) }
{
    match shared {
        None => "",
        Some(string) => string.as_str(),
    }
}

// Adds these characters in place, unless another text shares the memory or there is none yet: then nothing changes,
// and it is false.
fn push_alone(shared: &mut Option<Rc<String>>, more: &str) -> Result<bool, Memory>
    ensures ok { IfOk result (λ done. characters_of shared.new
        ≡ (if done then characters_of shared.old ++ chars more.now else characters_of shared.old)) }
    ensures err { OnErr result (characters_of shared.new ≡ characters_of shared.old) }
{
    match shared {
        None => Ok(false),
        Some(string) => push_to(string, more),
    }
}

// The same for memory that is there.
fn push_to(string: &mut Rc<String>, more: &str) -> Result<bool, Memory>
    ensures ok { IfOk result (λ done. characters_of (Some string.new)
        ≡ (if done then characters_of (Some string.old) ++ chars more.now else characters_of (Some string.old))) }
    ensures err { OnErr result (characters_of (Some string.new) ≡ characters_of (Some string.old)) }
{
    match Rc::get_mut(string) {
        None => Ok(false),
        Some(own) => {
            own.push_str(more)?;
            Ok(true)
        }
    }
}

// These characters behind those of the first text, in memory of their own.
fn joined(
    alloc: Global,
    shared: &Option<Rc<String>>,
    more: &str,
) -> Result<Option<Rc<String>>, Memory>
    ensures { IfOk result (λ both. characters_of both ≡ characters_of shared.now ++ chars more.now) }
{
    let first = letters(shared);
    let mut string = String::with_capacity(alloc, first.len() + more.len())?;
    string.push_str(first)?;
    string.push_str(more)?;
    Ok(Some(Rc::new(alloc, string)?))
}
