// Streams with holes. `fill KIND TEXT` puts a text in place of a hole, which is the content of an item of this
// kind: `element`, `nameless`, `attribute`, `comment`, `instruction`, `message`, or a shared `part`.
// `fill-two TEXT TEXT` puts two texts in place of two holes, of which one stands in an element without a name
// and one behind it. `hole KIND` tells whether a stream has holes before it is filled and then.
//
// A stream is written as `(element a "x") "y"`: items in brackets, texts in quotes, `_` for a hole.
ghost use Rattle.std.specs.Prelude.{◌≡◌, IfOk};
ghost use Rattle.spec_meaning.specs.Stream.{holes};
ghost use Rattle.xt_tree.specs.StreamView.{single_of, stream_of};

use cases::{Fault, Word, part, push_part, push_quoted, push_yes, text_at};
use std::alloc::Global;
use std::rc::Rc;
use xt_text::{Memory, Text};
use xt_tree::{Item, Items};

/// Answers the call, if it is one of these.
pub fn answer(alloc: Global, out: &mut Text, call: &str, words: &[Word]) -> Result<bool, Fault> {
    match call {
        "fill" => {
            let whole = filled_one(alloc, text_at(words, 0)?, text_at(words, 1)?)?;
            push_items(out, &whole)?;
        }
        "fill-two" => {
            let whole = filled_two(alloc, text_at(words, 0)?, text_at(words, 1)?)?;
            push_items(out, &whole)?;
        }
        "hole" => {
            let kind = text_at(words, 0)?;
            push_yes(out, stream(alloc, kind)?.has_hole())?;
            push_yes(out, filled_one(alloc, kind, "x")?.has_hole())?;
        }
        _ => return Ok(false),
    }
    Ok(true)
}

// A stream of one text.
fn text_alone(alloc: Global, text: &str) -> Result<Rc<Items>, Memory> {
    let mut items = Items::new(alloc);
    let text = Text::from_str(alloc, text)?;
    items.push(Item::Text(text))?;
    Ok(Rc::new(alloc, items)?)
}

fn filled_one(alloc: Global, kind: &str, text: &str) -> Result<Rc<Items>, Memory> {
    let text = text_alone(alloc, text)?;
    let mut parts = Vec::new(alloc);
    parts.push(text)?;
    stream(alloc, kind)?.fill(alloc, parts.as_slice())
}

fn filled_two(alloc: Global, first: &str, second: &str) -> Result<Rc<Items>, Memory> {
    let first = text_alone(alloc, first)?;
    let second = text_alone(alloc, second)?;
    let mut parts = Vec::new(alloc);
    parts.push(first)?;
    parts.push(second)?;
    two(alloc)?.fill(alloc, parts.as_slice())
}

// A stream of one item of this kind, with a hole in it.
fn stream(alloc: Global, kind: &str) -> Result<Items, Memory>
    ensures { IfOk result (λ items. holes (stream_of items) ≡ 1) }
{
    let mut inner = Items::new(alloc);
    inner.push(Item::Hole)?;
    let content = Rc::new(alloc, inner)?;
    let mut items = Items::new(alloc);
    let item = around(alloc, kind, content)?;
    items.push(item)?;
    Ok(items)
}

fn around(alloc: Global, kind: &str, content: Rc<Items>) -> Result<Item, Memory>
    ensures { IfOk result (λ item. holes (single_of item) ≡ holes (stream_of content.value)) }
{
    match kind {
        "element" => Ok(Item::Element {
            name: Text::from_str(alloc, "a")?,
            uri: Text::new(alloc),
            namespaces: Vec::new(alloc),
            content,
        }),
        "nameless" => Ok(Item::Nameless { content }),
        "attribute" => Ok(Item::Attribute {
            name: Text::from_str(alloc, "a")?,
            uri: Text::new(alloc),
            content,
        }),
        "comment" => Ok(Item::Comment { content }),
        "instruction" => Ok(Item::Instruction {
            target: Text::from_str(alloc, "t")?,
            content,
        }),
        "message" => Ok(Item::Message { content }),
        _ => Ok(Item::Part(content)),
    }
}

// A hole inside an element without a name, and a hole behind it.
fn two(alloc: Global) -> Result<Items, Memory>
    ensures { IfOk result (λ items. holes (stream_of items) ≡ 2) }
{
    let mut inner = Items::new(alloc);
    inner.push(Item::Hole)?;
    let content = Rc::new(alloc, inner)?;
    let mut items = Items::new(alloc);
    items.push(Item::Nameless { content })?;
    items.push(Item::Hole)?;
    Ok(items)
}

#[cycle(items)]
fn push_items(out: &mut Text, items: &Items) -> Result<(), Memory> {
    for item in items.list() {
        push_item(out, item)?;
    }
    Ok(())
}

#[cycle(items)]
fn push_item(out: &mut Text, item: &Item) -> Result<(), Memory> {
    match item {
        Item::Element { name, content, .. } => push_content(
            out,
            "(element ",
            name.as_str(),
            content,
        ),
        Item::Nameless { content } => push_content(out, "(nameless", "", content),
        Item::Attribute { name, content, .. } => {
            push_content(out, "(attribute ", name.as_str(), content)
        }
        Item::Comment { content } => push_content(out, "(comment", "", content),
        Item::Instruction { target, content } => {
            push_content(out, "(instruction ", target.as_str(), content)
        }
        Item::Message { content } => push_content(out, "(message", "", content),
        Item::Part(content) => push_content(out, "(part", "", content),
        Item::Namespace(namespace) => push_part(out, namespace.prefix.as_str()),
        Item::Text(text) => {
            part(out)?;
            push_quoted(out, text.as_str())
        }
        Item::Hole => push_part(out, "_"),
    }
}

#[cycle(items)]
fn push_content(out: &mut Text, kind: &str, name: &str, content: &Items) -> Result<(), Memory> {
    push_part(out, kind)?;
    out.push_str(name)?;
    push_items(out, content)?;
    out.push(')')
}
