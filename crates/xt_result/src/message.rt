// Messages (XSLT 1.0, section 13).
ghost use Rattle.std.specs.Prelude.{◌≡◌, ◌++◌, ◌∷◌, [], IfOk, OnOk};
ghost use Rattle.std.specs.Bool.{Decides};
ghost use Rattle.spec_meaning.specs.Stream.{texts_of};
ghost use Rattle.spec_result.specs.Recovery.{messages_of};
ghost use Rattle.xt_tree.specs.StreamView.{single_of, stream_of};

use crate::string::push_texts;
use std::alloc::Global;
use xt_text::{Memory, Text};
use xt_tree::{Item, Items};

/// The texts of the stream's messages, in the order in which their instructions ended. Those in nodes that
/// are dropped from the result are among them.
pub fn messages(alloc: Global, items: &Items) -> Result<Vec<Text>, Memory>
    ensures { IfOk result (λ list. list.items ≡ messages_of (stream_of items.now)) }
{
    let mut list = Vec::new(alloc);
    push_items(alloc, &mut list, items)?;
    Ok(list)
}

#[cycle(push)]
fn push_items(alloc: Global, list: &mut Vec<Text>, items: &Items) -> Result<(), Memory>
    ensures { OnOk result (list.new.items ≡ list.old.items ++ messages_of (stream_of items.now)) }
{
    for item in items.list() {
        push_item(alloc, list, item)?;
    }
    Ok(())
}

#[cycle(push)]
fn push_item(alloc: Global, list: &mut Vec<Text>, item: &Item) -> Result<(), Memory>
    ensures { OnOk result (list.new.items ≡ list.old.items ++ messages_of (single_of item.now)) }
{
    match item {
        Item::Element { content, .. } => push_items(alloc, list, content),
        Item::Nameless { content } => push_items(alloc, list, content),
        Item::Attribute { content, .. } => push_items(alloc, list, content),
        Item::Comment { content } => push_items(alloc, list, content),
        Item::Instruction { content, .. } => push_items(alloc, list, content),
        Item::Message { content } => {
            push_items(alloc, list, content)?;
            push_message(alloc, list, content)
        }
        Item::Part(items) => push_items(alloc, list, items),
        Item::Namespace(_) => Ok(()),
        Item::Text(_) => Ok(()),
        Item::Hole => Ok(()),
    }
}

// Adds the text of one message.
fn push_message(alloc: Global, list: &mut Vec<Text>, content: &Items) -> Result<(), Memory>
    ensures { OnOk result (list.new.items ≡ list.old.items ++ texts_of (stream_of content.now) ∷ []) }
{
    let mut text = Text::new(alloc);
    push_texts(&mut text, content)?;
    list.push(text)?;
    Ok(())
}

/// Whether the stream has no message. It is known at the first one, and takes no memory.
pub fn is_silent(items: &Items) -> bool
    ensures { Decides result (messages_of (stream_of items.now) ≡ []) }
{
    are_silent(items)
}

#[cycle(silence)]
fn are_silent(items: &Items) -> bool
    ensures { Decides result (messages_of (stream_of items.now) ≡ []) }
{
    for item in items.list() {
        if !says_nothing(item) {
            return false;
        }
    }
    true
}

#[cycle(silence)]
fn says_nothing(item: &Item) -> bool
    ensures { Decides result (messages_of (single_of item.now) ≡ []) }
{
    match item {
        Item::Element { content, .. } => are_silent(content),
        Item::Nameless { content } => are_silent(content),
        Item::Attribute { content, .. } => are_silent(content),
        Item::Comment { content } => are_silent(content),
        Item::Instruction { content, .. } => are_silent(content),
        Item::Message { .. } => false,
        Item::Part(items) => are_silent(items),
        Item::Namespace(_) => true,
        Item::Text(_) => true,
        Item::Hole => true,
    }
}
