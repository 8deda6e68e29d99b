// A text cut at its braces (XSLT 1.0, section 7.6.2).
ghost use Rattle.std.specs.Prelude.{◌≡◌, ◌∷◌, [], MatchOption, None, false, true};
ghost use Rattle.std.specs.Str.{chars};
ghost use Rattle.spec_expression.specs.Token.{begins};
ghost use Rattle.spec_static.specs.TemplateGrammar.{before_close};
ghost use Rattle.xt_avt.specs.Cut.{IsClose, IsCut, IsEnclosed, closes, quote_behind};

use crate::front::{first_of, past};

/// A piece of a value template.
#[derive(Clone, Copy)]
pub enum Piece<'a> {
    /// A character: any but a brace, or a brace that is doubled.
    Character(char),
    /// What stands between braces.
    Enclosed(&'a str),
    /// A lone `}`, or a `{` that is not closed, with all that follows.
    Stray,
}

/// A piece at the front of a text, and what stands behind it.
#[derive(Clone, Copy)]
pub struct Cut<'a> {
    pub piece: Piece<'a>,
    pub rest: &'a str,
}

impl<'a> Cut<'a> {
    /// What stands behind the piece.
    pub fn behind(&self) -> &'a str
        ensures { result.now ≡ self.now.rest.now }
    {
        self.rest
    }
}

/// Whether this character closes an expression, where this is the quote of the literal in which it stands.
fn is_close(quote: Option<char>, character: char) -> bool
    ensures { result ≡ closes quote character }
{
    quote.is_none() && character == '}'
}

/// The quote of the literal in which the text behind this character stands.
fn quote_past(quote: Option<char>, character: char) -> Option<char>
    ensures { result ≡ quote_behind quote character }
{
    match quote {
        Some(mark) if mark == character => None,
        Some(mark) => Some(mark),
        None if character == '"' || character == '\'' => Some(character),
        None => None,
    }
}

/// The text from the `}` on that closes an expression, and what stands behind it.
fn close_in(text: &str) -> Option<(&str, &str)>
    ensures { MatchOption result (before_close None (chars text.now) ≡ None) (λ close. IsClose close.0.now close.1.now text.now) }
{
    let mut quote = None;
    let mut rest = text;
    loop {
        match first_of(rest) {
            Some((first, behind)) => {
                if is_close(quote, first) {
                    return Some((rest, behind));
                }
                quote = quote_past(quote, first);
                rest = behind;
            }
            None => return None,
        }
    }
}

/// What stands before the `}` that closes an expression, and what stands behind it.
fn enclosed_in(text: &str) -> Option<(&str, &str)>
    ensures { MatchOption result (before_close None (chars text.now) ≡ None) (λ parts. IsEnclosed parts.0.now parts.1.now (chars text.now)) }
{
    match close_in(text) {
        Some((close, rest)) => {
            let (inside, _) = text.split_at(text.len() - close.len());
            Some((inside, rest))
        }
        None => None,
    }
}

/// The expression that a `{` before this text opens.
fn enclosed(text: &str) -> Cut<'_>
    ensures { begins 0x7B (chars text.now) ≡ false → IsCut result (0x7B ∷ chars text.now) }
{
    match enclosed_in(text) {
        Some((inside, rest)) => Cut {
            piece: Piece::Enclosed(inside),
            rest,
        },
        None => Cut {
            piece: Piece::Stray,
            rest: "",
        },
    }
}

/// The piece that a `{` before this text begins.
fn opened(text: &str) -> Cut<'_>
    ensures { IsCut result (0x7B ∷ chars text.now) }
{
    match past('{', text) {
        Some(rest) => Cut {
            piece: Piece::Character('{'),
            rest,
        },
        None => enclosed(text),
    }
}

/// The piece that a `}` before this text begins.
fn closed(text: &str) -> Cut<'_>
    ensures { IsCut result (0x7D ∷ chars text.now) }
{
    match past('}', text) {
        Some(rest) => Cut {
            piece: Piece::Character('}'),
            rest,
        },
        None => Cut {
            piece: Piece::Stray,
            rest: text,
        },
    }
}

/// The piece that this character before this text begins.
fn begun(first: char, text: &str) -> Cut<'_>
    ensures { IsCut result (first ∷ chars text.now) }
{
    if first == '{' {
        return opened(text);
    }
    if first == '}' {
        return closed(text);
    }
    Cut {
        piece: Piece::Character(first),
        rest: text,
    }
}

/// The piece that a text begins with, and what stands behind it. None of the empty text.
pub fn first_piece(text: &str) -> Option<Cut<'_>>
    ensures { MatchOption result (chars text.now ≡ []) (λ cut. IsCut cut (chars text.now)) }
{
    match first_of(text) {
        Some((first, behind)) => Some(begun(first, behind)),
        None => None,
    }
}
