// The lines of a document.
ghost use Rattle.std.specs.Prelude.{◌≡◌, ◌+◌, ◌<◌, ◌++◌, ◌∷◌, [], List, ℕ, IfOk, OnOk, Ok, map};
ghost use Rattle.std.specs.Str.{encode_utf8_all};
ghost use Rattle.spec_document.specs.Numbering.{number_limit};
ghost use Rattle.spec_document.specs.Document.{document_of};
ghost use Rattle.spec_document.specs.Forest.{Document, lines_of, attribute_event, plain, size, numbered};
ghost use Rattle.spec_document.specs.Pyx.{line_of};
ghost use Rattle.spec_document.specs.Scope.{Scope};
ghost use Rattle.spec_document.specs.declared.event.Event.TheVariants as event;
ghost use Rattle.xt_tree.specs.View.{content_of, forest_of, written_of};
ghost use Rattle.xt_build.specs.Leaf.{leaf_events};

use std::alloc::Global;
use std::rc::Rc;
use xt_pyx::{
    write_attribute, write_comment, write_data, write_end, write_instruction, write_start,
};
use xt_text::{Memory, Text};
use xt_tree::{Content, Doc, Node, Written};

/// The lines that are written for the document, in order. Where lines make this document, these make
/// it again, with the same numbers; where lines make a document of the same plain tree, these make it again
/// with every first number that leaves room for the others.
pub fn lines(alloc: Global, document: &Doc) -> Result<Vec<Text>, Memory>
    ensures lines { IfOk result (λ lines. lines.items ≡ lines_of document.now.nodes) }
    ensures round_trip { IfOk result (λ lines. (scope : Scope) (first : ℕ) (body : List (List ℕ)) → document_of scope first body ≡ Ok document.now
        → document_of scope first (map encode_utf8_all lines.items) ≡ Ok document.now) }
    ensures same_tree { IfOk result (λ lines. (scope : Scope) (first other : ℕ) (body : List (List ℕ)) (made : Document ℕ)
        → document_of scope first body ≡ Ok made → plain made.nodes ≡ plain document.now.nodes → other + size document.now.nodes < number_limit
        → document_of scope other (map encode_utf8_all lines.items) ≡ Ok (record { root = other; nodes = numbered (other + 1) document.now.nodes })) }
{
    let mut lines = Vec::new(alloc);
    push_lines(alloc, &mut lines, document.children())?;
    Ok(lines)
}

// Adds the lines of these siblings and of what is below them.
fn push_lines(alloc: Global, lines: &mut Vec<Text>, siblings: &[Rc<Node>]) -> Result<(), Memory>
    ensures { OnOk result (lines.new.items ≡ lines.old.items ++ lines_of (forest_of siblings.now)) }
{
    for sibling in siblings {
        match sibling.content() {
            Content::Element { name, attributes } => {
                push_start(alloc, lines, name, attributes.as_slice())?;
                push_lines(alloc, lines, sibling.children())?;
                push_end(alloc, lines, name)?;
            }
            Content::Text { .. } | Content::Comment { .. } | Content::Instruction { .. } => {
                push_leaf(alloc, lines, sibling.content())?;
            }
        }
    }
    Ok(())
}

// Adds the lines of a start and of its attributes.
fn push_start(
    alloc: Global,
    lines: &mut Vec<Text>,
    name: &Text,
    attributes: &[Written],
) -> Result<(), Memory>
    ensures { OnOk result (lines.new.items ≡ lines.old.items ++ line_of (event.Start name.now) ∷ map line_of (map attribute_event (map written_of attributes.now))) }
{
    lines.push(write_start(alloc, name)?)?;
    for attribute in attributes {
        lines.push(write_attribute(alloc, &attribute.name, &attribute.value)?)?;
    }
    Ok(())
}

fn push_end(alloc: Global, lines: &mut Vec<Text>, name: &Text) -> Result<(), Memory>
    ensures { OnOk result (lines.new.items ≡ lines.old.items ++ line_of (event.End name.now) ∷ []) }
{
    lines.push(write_end(alloc, name)?)?;
    Ok(())
}

// Adds the line of a node that nothing is below. An element adds none.
fn push_leaf(alloc: Global, lines: &mut Vec<Text>, content: &Content) -> Result<(), Memory>
    ensures { OnOk result (lines.new.items ≡ lines.old.items ++ map line_of (leaf_events (content_of content.now))) }
{
    let line = match content {
        Content::Element { .. } => return Ok(()),
        Content::Text { text } => write_data(alloc, text)?,
        Content::Comment { text } => write_comment(alloc, text)?,
        Content::Instruction { target, text } => write_instruction(alloc, target, text)?,
    };
    lines.push(line)?;
    Ok(())
}
