// Streams, compared item by item. A shared part is its items.
ghost use Rattle.std.specs.Prelude.{◌≡◌, ◌++◌, ◌∷◌, [], map, IfOk, OnOk};
ghost use Rattle.std.specs.Bool.{Decides};
ghost use Rattle.xt_tree.specs.StreamView.{single_of, stream_of};
ghost use Rattle.xt_questions.specs.Piece.{pieces_of, End};
ghost use Rattle.xt_questions.specs.View.{piece_of};

use crate::alike::{Alike, all_alike};
use std::alloc::Global;
use xt_names::Namespace;
use xt_text::{Memory, Text};
use xt_tree::{Item, Items};

/// What an item begins with, or the end of its content.
#[derive(Drop)]
pub(crate) enum Piece<'a> {
    Element(&'a Text, &'a Text, &'a [Namespace]),
    Nameless,
    Attribute(&'a Text, &'a Text),
    Namespace(&'a Namespace),
    Text(&'a Text),
    Comment,
    Instruction(&'a Text),
    Message,
    Hole,
    End,
}

impl<'a> Alike for Piece<'a> {
    ghost use Rattle.xt_questions.specs.Piece as flat;
    ghost use Rattle.xt_questions.specs.View.{piece_of};

    ghost Seen = { flat.Piece };

    ghost seen = { piece_of };

    fn alike(&self, other: &Piece<'a>) -> bool {
        match (self, other) {
            (
                Piece::Element(name, uri, namespaces),
                Piece::Element(other_name, other_uri, others),
            ) => name.same(other_name) && uri.same(other_uri) && all_alike(namespaces, others),
            (Piece::Nameless, Piece::Nameless) => true,
            (Piece::Attribute(name, uri), Piece::Attribute(other_name, other_uri)) => {
                name.same(other_name) && uri.same(other_uri)
            }
            (Piece::Namespace(namespace), Piece::Namespace(other)) => namespace.alike(other),
            (Piece::Text(text), Piece::Text(other)) => text.same(other),
            (Piece::Comment, Piece::Comment) => true,
            (Piece::Instruction(target), Piece::Instruction(other)) => target.same(other),
            (Piece::Message, Piece::Message) => true,
            (Piece::Hole, Piece::Hole) => true,
            (Piece::End, Piece::End) => true,
            _ => false,
        }
    }
}

/// Whether the streams are the same.
pub(crate) fn same_streams(alloc: Global, items: &Items, others: &Items) -> Result<bool, Memory>
    ensures { IfOk result (λ b. Decides b (stream_of items.now ≡ stream_of others.now)) }
{
    let mut pieces = Vec::new(alloc);
    push_pieces(items, &mut pieces)?;
    let mut other_pieces = Vec::new(alloc);
    push_pieces(others, &mut other_pieces)?;
    Ok(all_alike(pieces.as_slice(), other_pieces.as_slice()))
}

/// Adds the pieces of a stream.
#[cycle(pieces)]
fn push_pieces<'a>(items: &'a Items, pieces: &mut Vec<Piece<'a>>) -> Result<(), Memory>
    ensures { OnOk result (map piece_of pieces.new.items ≡ map piece_of pieces.old.items ++ pieces_of (stream_of items.now)) }
{
    for item in items.list() {
        push_item(item, pieces)?;
    }
    Ok(())
}

#[cycle(pieces)]
fn push_item<'a>(item: &'a Item, pieces: &mut Vec<Piece<'a>>) -> Result<(), Memory>
    ensures { OnOk result (map piece_of pieces.new.items ≡ map piece_of pieces.old.items ++ pieces_of (single_of item.now)) }
{
    match item {
        Item::Element {
            name,
            uri,
            namespaces,
            content,
        } => push_content(
            Piece::Element(name, uri, namespaces.as_slice()),
            content,
            pieces,
        ),
        Item::Nameless { content } => push_content(Piece::Nameless, content, pieces),
        Item::Attribute { name, uri, content } => {
            push_content(Piece::Attribute(name, uri), content, pieces)
        }
        Item::Namespace(namespace) => Ok(pieces.push(Piece::Namespace(namespace))?),
        Item::Text(text) => Ok(pieces.push(Piece::Text(text))?),
        Item::Comment { content } => push_content(Piece::Comment, content, pieces),
        Item::Instruction { target, content } => {
            push_content(Piece::Instruction(target), content, pieces)
        }
        Item::Message { content } => push_content(Piece::Message, content, pieces),
        Item::Part(items) => push_pieces(items, pieces),
        Item::Hole => Ok(pieces.push(Piece::Hole)?),
    }
}

#[cycle(pieces)]
fn push_content<'a>(
    first: Piece<'a>,
    content: &'a Items,
    pieces: &mut Vec<Piece<'a>>,
) -> Result<(), Memory>
    ensures { OnOk result (map piece_of pieces.new.items ≡ map piece_of pieces.old.items ++ piece_of first.entry ∷ pieces_of (stream_of content.now) ++ End ∷ []) }
{
    pieces.push(first)?;
    push_pieces(content, pieces)?;
    pieces.push(Piece::End)?;
    Ok(())
}
