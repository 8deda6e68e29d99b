// The tree of a text, or its least refusal.
ghost use Rattle.std.specs.Prelude.{◌≡◌, ◌≤◌, map};
ghost use Rattle.std.specs.Option.{option_map};
ghost use Rattle.std.specs.List.{list_any};
ghost use Rattle.std.specs.Str.{chars};
ghost use Rattle.spec_expression.specs.Token as plain;
ghost use Rattle.spec_expression.specs.Grammar as grammar;
ghost use Rattle.xp_parse.specs.View.{token_of};
ghost use Rattle.xp_parse.specs.Parsed.{Parsed, Given};

use crate::cut;
use crate::fault::ParseFault;
use crate::read::Parser;
use crate::token::Token;
use spec_expression::{ExpressionRefusal, Level};
use std::alloc::Global;
use xt_names::Scope;
use xt_syntax::Expr;

/// How many `(` and `[` may be open at a token.
const GREATEST_DEPTH: u64 = 64;

/// How many `(` and `[` are open behind a token.
fn depth_behind(depth: u64, token: &Token<'_>) -> u64
    requires { depth ≤ 64 }
    ensures { result ≡ plain.depth_behind depth (token_of token.now) }
{
    match token {
        Token::Open | Token::OpenSquare => depth + 1,
        Token::Close | Token::CloseSquare => depth.saturating_sub(1),
        _ => depth,
    }
}

/// Whether more than 64 `(` and `[` are open at a token.
pub fn is_deep(tokens: &[Token<'_>]) -> bool
    ensures { result ≡ plain.is_deep 0 (map token_of tokens.now) }
{
    let mut depth = 0u64;
    for token in tokens {
        depth = depth_behind(depth, token);
        if depth > GREATEST_DEPTH {
            return true;
        }
    }
    false
}

/// Whether it is a number that has a fraction or is too great.
fn is_bad_number(token: &Token<'_>) -> bool
    ensures { result ≡ grammar.is_bad_number (token_of token.now) }
{
    match token {
        Token::Number(value) => value.is_none(),
        _ => false,
    }
}

/// Whether a number has a fraction or is too great.
pub fn has_bad_number(tokens: &[Token<'_>]) -> bool
    ensures { result ≡ list_any grammar.is_bad_number (map token_of tokens.now) }
{
    for token in tokens {
        if is_bad_number(token) {
            return true;
        }
    }
    false
}

/// The prefix that a token names.
fn prefix_in<'a>(token: &Token<'a>) -> Option<&'a str>
    ensures { option_map (λ p. chars p.now) result ≡ grammar.prefix_in (token_of token.now) }
{
    match token {
        Token::AnyOf(prefix) => Some(*prefix),
        Token::Name(name) => name.prefix,
        Token::Variable(name) => name.prefix,
        _ => None,
    }
}

/// Whether a token names a prefix that is not declared.
fn is_undeclared(scope: &Scope, token: &Token<'_>) -> bool
    ensures { result ≡ grammar.is_undeclared scope.now (token_of token.now) }
{
    match prefix_in(token) {
        Some(prefix) => scope.resolve(prefix).is_none(),
        None => false,
    }
}

/// Whether a prefix is not declared.
pub fn has_undeclared(scope: &Scope, tokens: &[Token<'_>]) -> bool
    ensures { result ≡ list_any (grammar.is_undeclared scope.now) (map token_of tokens.now) }
{
    for token in tokens {
        if is_undeclared(scope, token) {
            return true;
        }
    }
    false
}

/// The tree of tokens, or their least refusal.
fn tree(alloc: Global, scope: &Scope, tokens: &[Token<'_>]) -> Result<Expr, ParseFault>
    ensures { Given scope.now (map token_of tokens.now) result }
{
    if is_deep(tokens) {
        return Err(ParseFault::Refused(ExpressionRefusal::Depth));
    }
    let parser = Parser {
        alloc,
        tokens,
        scope,
    };
    let mut at = 0;
    let expr = parser.expression(Level::OrExpr, &mut at)?;
    if at < tokens.len() {
        return Err(ParseFault::Refused(ExpressionRefusal::Syntax));
    }
    if has_bad_number(tokens) {
        return Err(ParseFault::Refused(ExpressionRefusal::Number));
    }
    if has_undeclared(scope, tokens) {
        return Err(ParseFault::Refused(ExpressionRefusal::Prefix));
    }
    Ok(expr)
}

/// The expression that a text is (XPath 1.0, production 14), where the prefixes of its names stand
/// for what the scope says. A text that is none, or is one past xt's profile, has one refusal, the
/// least that stands at it: S10, S12, S13 or S14. Takes time in the length of the text, and no more
/// stack than 64 open brackets do.
pub fn parse(alloc: Global, text: &str, scope: &Scope) -> Result<Expr, ParseFault>
    ensures { Parsed scope.now (chars text.now) result }
{
    match cut::tokens(alloc, text)? {
        Some(tokens) => tree(alloc, scope, tokens.as_slice()),
        None => Err(ParseFault::Refused(ExpressionRefusal::Syntax)),
    }
}
