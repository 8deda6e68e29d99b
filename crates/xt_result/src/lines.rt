// The lines of a result.
ghost use Rattle.std.specs.Prelude.{◌≡◌, ◌++◌, [], ◌∷◌, map, IfOk, OnOk};
ghost use Rattle.spec_document.specs.Forest as forest;
ghost use Rattle.spec_document.specs.Pyx.{line_of};
ghost use Rattle.spec_document.specs.declared.event.Event.TheVariants as event;
ghost use Rattle.spec_result.specs.Recovery.{Standing, standing_before, value_of, comment_text, instruction_text};
ghost use Rattle.spec_result.specs.Shape.{all_of, shaped};
ghost use Rattle.xt_tree.specs.StreamView.{single_of, stream_of};
ghost use Rattle.xt_tree.specs.View.{written_of};
ghost use Rattle.xt_result.specs.Ahead.{all_lines, attribute_lines, start_lines, text_line};
ghost use Rattle.xt_result.specs.View.{opening_of};

use crate::declare::{Start, start_of};
use crate::escape::{comment_text, instruction_text};
use crate::value::value_of;
use std::alloc::Global;
use xt_names::Scope;
use xt_pyx::{
    write_attribute, write_comment, write_data, write_end, write_instruction, write_start,
};
use xt_text::{Memory, Text};
use xt_tree::{Item, Items, Written};

/// The lines of the tree that the stream shapes, as PYX.
pub fn lines_of(alloc: Global, items: &Items) -> Result<Vec<Text>, Memory>
    ensures { IfOk result (λ lines. lines.items ≡ forest.lines_of (shaped (stream_of items.now))) }
{
    let mut lines = Vec::new(alloc);
    let mut text = Text::new(alloc);
    let scope = Scope::root(alloc)?;
    push_items(alloc, &mut lines, &mut text, &scope, items)?;
    push_text(alloc, &mut lines, &mut text)?;
    Ok(lines)
}

// Adds the lines of these items, in this scope. The text is what was written since the last line: what is
// behind may go on with it, so it has no line yet.
#[cycle(push)]
fn push_items(
    alloc: Global,
    lines: &mut Vec<Text>,
    text: &mut Text,
    scope: &Scope,
    items: &Items,
) -> Result<(), Memory>
    ensures { OnOk result ((behind : Standing) → all_lines lines.old.items text.old scope.now (standing_before (stream_of items.now) behind) ≡ all_lines lines.new.items text.new scope.now behind) }
{
    for item in items.list() {
        push_item(alloc, lines, text, scope, item)?;
    }
    Ok(())
}

#[cycle(push)]
fn push_item(
    alloc: Global,
    lines: &mut Vec<Text>,
    text: &mut Text,
    scope: &Scope,
    item: &Item,
) -> Result<(), Memory>
    ensures { OnOk result ((behind : Standing) → all_lines lines.old.items text.old scope.now (standing_before (single_of item.now) behind) ≡ all_lines lines.new.items text.new scope.now behind) }
{
    match item {
        Item::Element {
            name,
            uri,
            namespaces,
            content,
        } => {
            let start = start_of(alloc, scope, name, uri, namespaces.as_slice(), content)?;
            push_start(alloc, lines, text, &start)?;
            push_items(alloc, lines, text, &start.opening.scope, content)?;
            push_end(alloc, lines, text, &start.name)
        }
        Item::Nameless { content } => push_items(alloc, lines, text, scope, content),
        Item::Text(more) => text.push_str(more.as_str()),
        Item::Part(items) => push_items(alloc, lines, text, scope, items),
        Item::Comment { content } => push_comment(alloc, lines, text, content),
        Item::Instruction { target, content } => {
            push_instruction(alloc, lines, text, target, content)
        }
        Item::Attribute { .. } => Ok(()),
        Item::Namespace(_) => Ok(()),
        Item::Message { .. } => Ok(()),
        Item::Hole => Ok(()),
    }
}

// Adds the line of the text and those of a start.
fn push_start(
    alloc: Global,
    lines: &mut Vec<Text>,
    text: &mut Text,
    start: &Start,
) -> Result<(), Memory>
    ensures text { OnOk result (text.new ≡ []) }
    ensures lines { OnOk result (lines.new.items ≡ lines.old.items ++ text_line text.old ++ start_lines start.now.name (all_of (opening_of start.now.opening))) }
{
    push_text(alloc, lines, text)?;
    let line = write_start(alloc, &start.name)?;
    lines.push(line)?;
    push_attributes(alloc, lines, start.opening.declarations.as_slice())?;
    push_attributes(alloc, lines, start.opening.attributes.as_slice())
}

// Adds the lines of declarations or attributes.
fn push_attributes(
    alloc: Global,
    lines: &mut Vec<Text>,
    attributes: &[Written],
) -> Result<(), Memory>
    ensures { OnOk result (lines.new.items ≡ lines.old.items ++ attribute_lines (map written_of attributes.now)) }
{
    for attribute in attributes {
        let line = write_attribute(alloc, &attribute.name, &attribute.value)?;
        lines.push(line)?;
    }
    Ok(())
}

// Adds the line of the text and that of an end.
fn push_end(
    alloc: Global,
    lines: &mut Vec<Text>,
    text: &mut Text,
    name: &Text,
) -> Result<(), Memory>
    ensures text { OnOk result (text.new ≡ []) }
    ensures lines { OnOk result (lines.new.items ≡ lines.old.items ++ text_line text.old ++ line_of (event.End name.now) ∷ []) }
{
    push_text(alloc, lines, text)?;
    let line = write_end(alloc, name)?;
    lines.push(line)?;
    Ok(())
}

// Adds the line of the text and that of a comment.
fn push_comment(
    alloc: Global,
    lines: &mut Vec<Text>,
    text: &mut Text,
    content: &Items,
) -> Result<(), Memory>
    ensures text { OnOk result (text.new ≡ []) }
    ensures lines { OnOk result (lines.new.items ≡ lines.old.items ++ text_line text.old ++ line_of (event.Comment (comment_text (value_of (stream_of content.now)))) ∷ []) }
{
    push_text(alloc, lines, text)?;
    let value = value_of(alloc, content)?;
    let parted = comment_text(alloc, &value)?;
    let line = write_comment(alloc, &parted)?;
    lines.push(line)?;
    Ok(())
}

// Adds the line of the text and that of a processing instruction.
fn push_instruction(
    alloc: Global,
    lines: &mut Vec<Text>,
    text: &mut Text,
    target: &Text,
    content: &Items,
) -> Result<(), Memory>
    ensures text { OnOk result (text.new ≡ []) }
    ensures lines { OnOk result (lines.new.items ≡ lines.old.items ++ text_line text.old ++ line_of (event.Instruction target.now (instruction_text (value_of (stream_of content.now)))) ∷ []) }
{
    push_text(alloc, lines, text)?;
    let value = value_of(alloc, content)?;
    let parted = instruction_text(alloc, &value)?;
    let line = write_instruction(alloc, target, &parted)?;
    lines.push(line)?;
    Ok(())
}

// Adds the line of the text, where it has characters, and empties it.
fn push_text(alloc: Global, lines: &mut Vec<Text>, text: &mut Text) -> Result<(), Memory>
    ensures text { OnOk result (text.new ≡ []) }
    ensures lines { OnOk result (lines.new.items ≡ lines.old.items ++ text_line text.old) }
{
    if !text.is_empty() {
        let line = write_data(alloc, text)?;
        lines.push(line)?;
        *text = Text::new(alloc);
    }
    Ok(())
}
