// A forest as one list of its pieces, which is gone through with a stack however deep the forest is.
ghost use Rattle.std.specs.Prelude.{◌≡◌, ◌++◌, ◌<◌, length, map, Some, IfOk, OnOk};
ghost use Rattle.spec_document.specs.Forest.{Forest, Element};
ghost use Rattle.spec_document.specs.Balance.{LineNumbers, forest_of, alone};
ghost use Rattle.xt_tree.specs.View.{content_of, written_of};
ghost use Rattle.xt_build.specs.Piece as spec;
ghost use Rattle.xt_build.specs.Front.{attributes_first, data_first, text_first, text_pieces, pieces_first, events_first};
ghost use Rattle.xt_build.specs.View.{located_of, piece_of, pieces_of};

use crate::read::Located;
use crate::shared_names::SharedNames;
use std::alloc::Global;
use xt_pyx::Event;
use xt_text::{Memory, Text};
use xt_tree::{Content, Written};

/// Where a node begins, or an element ends.
#[derive(Drop)]
pub(crate) enum Piece {
    /// A node. What is below an element follows up to its end; any other node has nothing below it.
    Begins {
        /// The line where it begins: for a text that of the first data that it is made of.
        line: u64,
        /// The lines of an element's attributes and declarations, in their order.
        attribute_lines: Vec<u64>,
        content: Content,
    },
    Ends,
}

/// The pieces of balanced events: attributes stand at their element, adjacent data is one text, and empty
/// data none. Names that stand there many times are shared.
pub(crate) fn pieces(alloc: Global, events: &[Located]) -> Result<Vec<Piece>, Memory>
    ensures { IfOk result (λ pieces. (f : Forest LineNumbers) → forest_of (map located_of events.now) ≡ Some f
        → spec.IsWhole (pieces_of pieces.items) × (spec.forest_in (pieces_of pieces.items) ≡ f)) }
{
    let mut pieces = Vec::new(alloc);
    let mut names = SharedNames::new(alloc);
    let mut rest = events;
    while !rest.is_empty() {
        let taken = push_first(alloc, &mut names, &mut pieces, rest)?;
        rest = rest.split_at(taken).1;
    }
    Ok(pieces)
}

// Adds what the first event stands for, and says how many events that takes: data is taken with all that
// follows it, and an attribute has been taken with its start.
fn push_first(
    alloc: Global,
    names: &mut SharedNames,
    pieces: &mut Vec<Piece>,
    events: &[Located],
) -> Result<usize, Memory>
    requires { 0 < length events.now }
    ensures taken { IfOk result (λ taken. taken ≡ events_first (map located_of events.now)) }
    ensures pieces { OnOk result (pieces_of pieces.new.items ≡ pieces_of pieces.old.items ++ pieces_first (map located_of events.now)) }
{
    let first = &events[0];
    match &first.event {
        Event::Start { name } => {
            let name = names.share(alloc, name)?;
            pieces.push(element(alloc, names, first.line, name, &events[1..])?)?;
            Ok(1)
        }
        Event::Attribute { .. } => Ok(1),
        Event::Data { .. } => push_text(alloc, pieces, events),
        Event::Instruction { target, text } => {
            let target = target.copy(alloc)?;
            let text = text.copy(alloc)?;
            pieces.push(leaf(alloc, first.line, Content::Instruction { target, text }))?;
            Ok(1)
        }
        Event::End { .. } => {
            pieces.push(Piece::Ends)?;
            Ok(1)
        }
        Event::Comment { text } => {
            let text = text.copy(alloc)?;
            pieces.push(leaf(alloc, first.line, Content::Comment { text }))?;
            Ok(1)
        }
    }
}

// A node with nothing below it.
fn leaf(alloc: Global, line: u64, content: Content) -> Piece
    ensures { piece_of result ≡ spec.Begins (alone line) (content_of content) }
{
    Piece::Begins {
        line,
        attribute_lines: Vec::new(alloc),
        content,
    }
}

// The element of this name with the attributes that follow directly behind its start.
fn element(
    alloc: Global,
    names: &mut SharedNames,
    line: u64,
    name: Text,
    behind: &[Located],
) -> Result<Piece, Memory>
    ensures { IfOk result (λ piece. piece_of piece ≡ spec.Begins
        (record { first = line; attributes = map (λ a. a.0) (attributes_first (map located_of behind.now)) })
        (Element name (map (λ a. a.1) (attributes_first (map located_of behind.now))))) }
{
    let (attributes, attribute_lines) = leading_attributes(alloc, names, behind)?;
    Ok(Piece::Begins {
        line,
        attribute_lines,
        content: Content::Element { name, attributes },
    })
}

// The attributes at the front and their lines.
fn leading_attributes(
    alloc: Global,
    names: &mut SharedNames,
    events: &[Located],
) -> Result<(Vec<Written>, Vec<u64>), Memory>
    ensures attributes { IfOk result (λ found. map written_of found.0.items ≡ map (λ a. a.1) (attributes_first (map located_of events.now))) }
    ensures lines { IfOk result (λ found. found.1.items ≡ map (λ a. a.0) (attributes_first (map located_of events.now))) }
{
    let mut attributes = Vec::new(alloc);
    let mut lines = Vec::new(alloc);
    for located in events {
        match &located.event {
            Event::Attribute { name, value } => {
                let name = names.share(alloc, name)?;
                let value = value.copy(alloc)?;
                attributes.push(Written { name, value })?;
                lines.push(located.line)?;
            }
            _ => break,
        }
    }
    Ok((attributes, lines))
}

// Adds the text that the data at the front makes, where it is not empty, and says how many events that is.
fn push_text(alloc: Global, pieces: &mut Vec<Piece>, events: &[Located]) -> Result<usize, Memory>
    ensures taken { IfOk result (λ taken. taken ≡ data_first (map located_of events.now)) }
    ensures pieces { OnOk result (pieces_of pieces.new.items ≡ pieces_of pieces.old.items ++ text_pieces (text_first (map located_of events.now))) }
{
    let mut joined = Text::new(alloc);
    let mut line = 0;
    let mut taken = 0;
    for located in events {
        match &located.event {
            Event::Data { text } => {
                if joined.is_empty() {
                    line = located.line;
                }
                joined.push_str(text.as_str())?;
                taken += 1;
            }
            _ => break,
        }
    }
    if !joined.is_empty() {
        pieces.push(leaf(alloc, line, Content::Text { text: joined }))?;
    }
    Ok(taken)
}
