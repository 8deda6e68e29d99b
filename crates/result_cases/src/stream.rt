// Streams as words. A word that begins with one of these marks begins an item, and `>` ends it:
//
//     <NAME=URI    an element; the words `*PREFIX=URI` right behind it are the namespace nodes copied to it
//     ~            an element whose name is no good
//     @NAME=URI    an attribute
//     !            a comment
//     ?TARGET      a processing instruction
//     $            a message
//     [            a shared part
//
// Others are items by themselves: `-TEXT` is a text, `+PREFIX=URI` a namespace node, `_` a hole. Without `=`
// there is no namespace, and the URI `X` stands for that of the prefix xml.

use cases::{Fault, Word, text_of};
use std::alloc::Global;
use std::rc::Rc;
use xt_names::{Namespace, XML_URI};
use xt_text::{Memory, Text};
use xt_tree::{Item, Items};

// An item that is not ended.
#[derive(Drop)]
struct Open {
    mark: char,
    name: Text,
    uri: Text,
    namespaces: Vec<Namespace>,
    items: Items,
}

/// The stream that the words write.
pub fn stream_of(alloc: Global, words: &[Word]) -> Result<Rc<Items>, Fault> {
    let mut open = Vec::new(alloc);
    let whole = begun(alloc, '[', "")?;
    open.push(whole)?;
    for word in words {
        let text = text_of(word)?;
        take(alloc, &mut open, text)?;
    }
    if open.len() != 1 {
        return Err(Fault::NoCase);
    }
    ended(alloc, &mut open)
}

// The content of the last item that is open.
fn ended(alloc: Global, open: &mut Vec<Open>) -> Result<Rc<Items>, Fault> {
    match open.pop() {
        Some(last) => Ok(Rc::new(alloc, last.items)?),
        None => Err(Fault::NoCase),
    }
}

fn begun(alloc: Global, mark: char, name: &str) -> Result<Open, Memory> {
    let (name, uri) = name.split_once('=').unwrap_or((name, ""));
    Ok(Open {
        mark,
        name: Text::from_str(alloc, name)?,
        uri: uri_of(alloc, uri)?,
        namespaces: Vec::new(alloc),
        items: Items::new(alloc),
    })
}

fn uri_of(alloc: Global, uri: &str) -> Result<Text, Memory> {
    if uri == "X" {
        return Text::from_str(alloc, XML_URI);
    }
    Text::from_str(alloc, uri)
}

fn namespace(alloc: Global, words: &str) -> Result<Namespace, Memory> {
    let (prefix, uri) = words.split_once('=').unwrap_or((words, ""));
    Ok(Namespace {
        prefix: Text::from_str(alloc, prefix)?,
        uri: uri_of(alloc, uri)?,
    })
}

// Takes one word.
fn take(alloc: Global, open: &mut Vec<Open>, word: &str) -> Result<(), Fault> {
    let mut characters = word.chars();
    let mark = characters.next().ok_or(Fault::NoCase)?;
    let rest = characters.as_str();
    match mark {
        '<' | '~' | '@' | '!' | '?' | '$' | '[' => {
            let item = begun(alloc, mark, rest)?;
            open.push(item)?;
            Ok(())
        }
        '>' => end(alloc, open),
        _ => last_of(open)?.take(alloc, mark, rest),
    }
}

// The last item that is open.
fn last_of(open: &mut Vec<Open>) -> Result<&mut Open, Fault> {
    match open.last_mut() {
        Some(last) => Ok(last),
        None => Err(Fault::NoCase),
    }
}

impl Open {
    // Takes a word that is an item by itself, or a namespace node of the element.
    fn take(&mut self, alloc: Global, mark: char, rest: &str) -> Result<(), Fault> {
        match mark {
            '-' => {
                let text = Text::from_str(alloc, rest)?;
                self.add(Item::Text(text))
            }
            '+' => {
                let node = namespace(alloc, rest)?;
                self.add(Item::Namespace(node))
            }
            '*' => {
                let node = namespace(alloc, rest)?;
                self.namespaces.push(node)?;
                Ok(())
            }
            '_' => self.add(Item::Hole),
            _ => Err(Fault::NoCase),
        }
    }

    fn add(&mut self, item: Item) -> Result<(), Fault> {
        self.items.push(item)?;
        Ok(())
    }
}

// Ends the last item that is open.
fn end(alloc: Global, open: &mut Vec<Open>) -> Result<(), Fault> {
    match open.pop() {
        Some(last) => {
            let around = last_of(open)?;
            let item = item_of(alloc, last)?;
            around.add(item)
        }
        None => Err(Fault::NoCase),
    }
}

fn item_of(alloc: Global, open: Open) -> Result<Item, Memory> {
    let content = Rc::new(alloc, open.items)?;
    Ok(match open.mark {
        '<' => Item::Element {
            name: open.name,
            uri: open.uri,
            namespaces: open.namespaces,
            content,
        },
        '~' => Item::Nameless { content },
        '@' => Item::Attribute {
            name: open.name,
            uri: open.uri,
            content,
        },
        '!' => Item::Comment { content },
        '?' => Item::Instruction {
            target: open.name,
            content,
        },
        '$' => Item::Message { content },
        _ => Item::Part(content),
    })
}
