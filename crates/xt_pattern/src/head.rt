// How patterns begin with `id` and `key` (XSLT 1.0, section 5.2).
ghost use Rattle.std.specs.Prelude.{◌≡◌, ◌≤◌, ◌<◌, ◌∷◌, length, IfOk, MatchOption, OnErr, OnOk};
ghost use Rattle.std.specs.Str.{chars};
ghost use Rattle.spec_expression.specs.Token as plain;
ghost use Rattle.spec_static.specs.PatternGrammar as grammar;
ghost use Rattle.xp_parse.specs.View.{name_of};
ghost use Rattle.xp_parse.specs.Reading.{left, token_of_sign, IsNotNext, Returns};
ghost use Rattle.xt_pattern.specs.Reading.{IsHead, NoHead, NoLiteral, head_word as word_of};
ghost use Rattle.xt_pattern.specs.Reading as reading;

use spec_expression::ExpressionRefusal;
use std::alloc::Global;
use xp_parse::{Name, ParseFault, Parser, Sign, Token};
use xt_names::{Expanded, QName, Scope};
use xt_syntax::Start;
use xt_text::{Memory, Text};

/// The words that a pattern may begin with before `(`.
#[derive(Clone, Copy)]
pub(crate) enum HeadWord {
    Id,
    Key,
}

/// The word that a name is, where it is one.
fn head_word(name: Name<'_>) -> Option<HeadWord>
    ensures { result ≡ word_of (name_of name.entry) }
{
    match name.prefix {
        None => word_named(name.local),
        Some(_) => None,
    }
}

/// The word that a name without a prefix is, where it is one.
fn word_named(name: &str) -> Option<HeadWord>
    ensures { result ≡ reading.word_named (chars name.now) }
{
    match name {
        "id" => Some(HeadWord::Id),
        "key" => Some(HeadWord::Key),
        _ => None,
    }
}

/// The word of the head at a place, where one and `(` stand there.
pub(crate) fn head_word_at(parser: &Parser<'_, '_>, at: usize) -> Option<HeadWord>
    ensures { MatchOption result (NoHead (left parser.now at)) (λ word. IsHead parser.now at word) }
{
    match parser.peek(at) {
        Some(Token::Name(name)) if parser.next_is(at + 1, Sign::Open) => head_word(name),
        _ => None,
    }
}

/// The literal at a place, which moves behind it.
fn literal<'a>(parser: &Parser<'_, 'a>, at: &mut usize) -> Result<&'a str, ParseFault>
    ensures ok { IfOk result (λ text. left parser.now at.old ≡ plain.Literal (chars text.now) ∷ left parser.now at.new) }
    ensures err { OnErr result ((result ≡ Err (ParseFault.Refused ExpressionRefusal.Syntax)) × NoLiteral (left parser.now at.old)) }
    ensures within { OnOk result ((at.old < at.new) × (at.new ≤ length parser.now.tokens.now)) }
{
    match parser.peek(*at) {
        Some(Token::Literal(text)) => {
            *at += 1;
            Ok(text)
        }
        _ => Err(ParseFault::Refused(ExpressionRefusal::Syntax)),
    }
}

/// This sign at a place, which moves behind it.
fn past(parser: &Parser<'_, '_>, sign: Sign, at: &mut usize) -> Result<(), ParseFault>
    ensures ok { OnOk result (left parser.now at.old ≡ token_of_sign sign ∷ left parser.now at.new) }
    ensures err { OnErr result ((result ≡ Err (ParseFault.Refused ExpressionRefusal.Syntax)) × IsNotNext (left parser.now at.old) (token_of_sign sign)) }
    ensures within { OnOk result ((at.old < at.new) × (at.new ≤ length parser.now.tokens.now)) }
{
    if !parser.next_is(*at, sign) {
        return Err(ParseFault::Refused(ExpressionRefusal::Syntax));
    }
    *at += 1;
    Ok(())
}

/// The head at a place that begins with this word and `(`; the place moves behind it. `Refused` with
/// `Syntax` where no literals and no `)` follow as the word needs them.
pub(crate) fn head(
    parser: &Parser<'_, '_>,
    word: HeadWord,
    at: &mut usize,
) -> Result<Start, ParseFault>
    requires { IsHead parser.now at.old word }
    ensures answer { Returns (λ start. start) (grammar.ReadsHead parser.now.scope.now) 10 (left parser.now at.old) (left parser.now at.new) result }
    ensures progress { OnOk result (at.old < at.new) }
    ensures within { OnOk result (at.new ≤ length parser.now.tokens.now) }
{
    match word {
        HeadWord::Id => id_head(parser, at),
        HeadWord::Key => key_head(parser, at),
    }
}

/// The head of `id` and `(`.
fn id_head(parser: &Parser<'_, '_>, at: &mut usize) -> Result<Start, ParseFault>
    requires { IsHead parser.now at.old HeadWord.Id }
    ensures answer { Returns (λ start. start) (grammar.ReadsHead parser.now.scope.now) 10 (left parser.now at.old) (left parser.now at.new) result }
    ensures progress { OnOk result (at.old < at.new) }
    ensures within { OnOk result (at.new ≤ length parser.now.tokens.now) }
{
    *at += 2;
    let id = literal(parser, at)?;
    past(parser, Sign::Close, at)?;
    let id = Text::from_str(parser.alloc, id)?;
    Ok(Start::Id(id))
}

/// The head of `key` and `(`.
fn key_head(parser: &Parser<'_, '_>, at: &mut usize) -> Result<Start, ParseFault>
    requires { IsHead parser.now at.old HeadWord.Key }
    ensures answer { Returns (λ start. start) (grammar.ReadsHead parser.now.scope.now) 10 (left parser.now at.old) (left parser.now at.new) result }
    ensures progress { OnOk result (at.old < at.new) }
    ensures within { OnOk result (at.new ≤ length parser.now.tokens.now) }
{
    *at += 2;
    let name = literal(parser, at)?;
    past(parser, Sign::Comma, at)?;
    let value = literal(parser, at)?;
    past(parser, Sign::Close, at)?;
    let name = key_name(parser.alloc, parser.scope, name)?;
    let value = Text::from_str(parser.alloc, value)?;
    Ok(Start::Key(name, value))
}

/// The name of the keys that a literal names, where it is a QName whose prefix is declared.
fn key_name(alloc: Global, scope: &Scope, text: &str) -> Result<Option<Expanded>, Memory>
    ensures { IfOk result (λ name. name ≡ grammar.key_name scope.now (chars text.now)) }
{
    match QName::read(text) {
        None => Ok(None),
        Some(name) => scope.attribute_name(alloc, &name),
    }
}
