// A text cut into its tokens, the longest first (XPath 1.0, section 3.7).
ghost use Rattle.std.specs.Prelude.{ℕ, List, ◌==◌, ◌≡◌, ◌<◌, ◌&&◌, ◌||◌, ◌∷◌, [], true, false, length, drop, map, IfOk, MatchOption, option_map, Some};
ghost use Rattle.std.specs.Str.{chars};
ghost use Rattle.spec_expression.specs.Token as plain;
ghost use Rattle.xp_parse.specs.Front.{IsBehind, IsLocal, Cuts, Begins, IsWord, marked};
ghost use Rattle.xp_parse.specs.View.{token_of};

use crate::build::number_of;
use crate::front::{begins_digit, first_of, is_digit, past, split_digits, split_name};
use crate::token::{Name, Token};
use spec_expression::Operator;
use std::alloc::Global;
use xt_text::{Memory, is_space, split_first};

/// A token at the front of a text, and what stands behind it.
#[derive(Clone, Copy)]
pub struct Piece<'a> {
    pub token: Token<'a>,
    pub rest: &'a str,
}

impl<'a> Piece<'a> {
    /// What stands behind the token.
    fn behind(&self) -> &'a str
        ensures { result.now ≡ self.now.rest.now }
    {
        self.rest
    }
}

/// Digits, a point, and the digits behind it, as far as they are there.
fn number_at(text: &str) -> Piece<'_>
    ensures { Begins result (plain.number_at (chars text.now)) (chars text.now) }
{
    let (whole, behind) = split_digits(text);
    match past('.', behind) {
        Some(decimals) => {
            let (fraction, rest) = split_digits(decimals);
            Piece {
                token: Token::Number(number_of(whole, fraction)),
                rest,
            }
        }
        None => Piece {
            token: Token::Number(number_of(whole, "")),
            rest: behind,
        },
    }
}

/// What stands up to the next quote of this kind, behind the first one.
fn literal_at(quote: char, behind: &str) -> Option<Piece<'_>>
    ensures { Cuts result (plain.literal_at quote (chars behind.now)) (quote ∷ chars behind.now) }
{
    match split_first(behind, quote) {
        Some((content, rest)) => Some(Piece {
            token: Token::Literal(content),
            rest,
        }),
        None => None,
    }
}

/// Behind an NCName: the local part, where a colon and an NCName follow, and what stands behind it.
fn local_at(behind: &str) -> Option<(&str, &str)>
    ensures { MatchOption result (plain.local_at (chars behind.now) ≡ []) (λ local. IsLocal local.0.now local.1.now behind.now) }
{
    match past(':', behind) {
        Some(local) => split_name(local),
        None => None,
    }
}

/// The name behind a `$`.
fn variable_at(text: &str) -> Option<Piece<'_>>
    ensures { Cuts result (plain.variable_at (chars text.now)) (0x24 ∷ chars text.now) }
{
    match split_name(text) {
        Some((name, behind)) => Some(variable_named(name, behind)),
        None => None,
    }
}

/// The variable of this name, behind which this stands.
fn variable_named<'a>(name: &'a str, behind: &'a str) -> Piece<'a>
    ensures { (text : List ℕ) → IsWord name.now behind.now text → Begins result (plain.variable_at text) (0x24 ∷ text) }
{
    match local_at(behind) {
        Some((local, rest)) => Piece {
            token: Token::Variable(Name {
                prefix: Some(name),
                local,
            }),
            rest,
        },
        None => Piece {
            token: Token::Variable(Name {
                prefix: None,
                local: name,
            }),
            rest: behind,
        },
    }
}

/// The operator that an NCName names behind an operand, else the name.
#[tactic(auto, unfolding(spec_expression::specs::Token::word))]
fn word(after_operand: bool, name: &str) -> Token<'_>
    ensures { token_of result ≡ plain.word after_operand (chars name.now) }
{
    if after_operand {
        return operator_or_name(name);
    }
    Token::Name(Name {
        prefix: None,
        local: name,
    })
}

/// The operator that an NCName names, else the name.
fn operator_or_name(name: &str) -> Token<'_>
    ensures { token_of result ≡ plain.word true (chars name.now) }
{
    match name {
        "or" => Token::Binary(Operator::Or),
        "and" => Token::Binary(Operator::And),
        "div" => Token::Binary(Operator::Divide),
        "mod" => Token::Binary(Operator::Modulo),
        _ => Token::Name(Name {
            prefix: None,
            local: name,
        }),
    }
}

/// What stands behind `:*`, where the text begins with it.
fn past_any(text: &str) -> Option<&str>
    ensures { MatchOption result ((plain.begins 0x3A (chars text.now) && plain.begins 0x2A (drop 1 (chars text.now))) ≡ false)
        (λ rest. ((plain.begins 0x3A (chars text.now) && plain.begins 0x2A (drop 1 (chars text.now))) ≡ true) × (chars rest.now ≡ drop 2 (chars text.now))) }
{
    match past(':', text) {
        Some(star) => past('*', star),
        None => None,
    }
}

/// `p:a`, `p:*` or the NCName alone, by the NCName and what stands behind it.
fn word_at<'a>(after_operand: bool, name: &'a str, behind: &'a str) -> Piece<'a>
    ensures { (text : List ℕ) → IsWord name.now behind.now text → Begins result (plain.word_at after_operand text) text }
{
    match local_at(behind) {
        Some((local, rest)) => Piece {
            token: Token::Name(Name {
                prefix: Some(name),
                local,
            }),
            rest,
        },
        None => without_local(after_operand, name, behind),
    }
}

/// `p:*` or the NCName alone.
fn without_local<'a>(after_operand: bool, name: &'a str, behind: &'a str) -> Piece<'a>
    ensures { (text : List ℕ) → IsWord name.now behind.now text → plain.local_at (chars behind.now) ≡ [] → Begins result (plain.word_at after_operand text) text }
{
    match past_any(behind) {
        Some(rest) => Piece {
            token: Token::AnyOf(name),
            rest,
        },
        None => Piece {
            token: word(after_operand, name),
            rest: behind,
        },
    }
}

/// The sign that these two characters are.
#[tactic(auto, unfolding(spec_expression::specs::Token::sign_of_two))]
fn sign_of_two(first: char, second: char) -> Option<Token<'static>>
    ensures { option_map token_of result ≡ plain.sign_of_two first second }
{
    match (first, second) {
        ('.', '.') => Some(Token::DotDot),
        (':', ':') => Some(Token::ColonColon),
        ('/', '/') => Some(Token::SlashSlash),
        ('!', '=') => Some(Token::Binary(Operator::NotEqual)),
        ('<', '=') => Some(Token::Binary(Operator::LessOrEqual)),
        ('>', '=') => Some(Token::Binary(Operator::GreaterOrEqual)),
        _ => None,
    }
}

/// The sign that this character is.
#[tactic(auto, unfolding(spec_expression::specs::Token::sign_of_one))]
fn sign_of_one(after_operand: bool, character: char) -> Option<Token<'static>>
    ensures { option_map token_of result ≡ plain.sign_of_one after_operand character }
{
    match character {
        '(' => Some(Token::Open),
        ')' => Some(Token::Close),
        '[' => Some(Token::OpenSquare),
        ']' => Some(Token::CloseSquare),
        '.' => Some(Token::Dot),
        '@' => Some(Token::At),
        ',' => Some(Token::Comma),
        '/' => Some(Token::Slash),
        '|' => Some(Token::Binary(Operator::Union)),
        '+' => Some(Token::Binary(Operator::Add)),
        '-' => Some(Token::Binary(Operator::Subtract)),
        '=' => Some(Token::Binary(Operator::Equal)),
        '<' => Some(Token::Binary(Operator::Less)),
        '>' => Some(Token::Binary(Operator::Greater)),
        '*' if after_operand => Some(Token::Binary(Operator::Multiply)),
        '*' => Some(Token::Star),
        _ => None,
    }
}

/// The sign of two characters at the front.
fn long_sign_at(first: char, behind: &str) -> Option<Piece<'_>>
    ensures { Cuts result (option_map (λ token. record { token = token; taken = 2 }) (plain.sign_of_two first (plain.first (chars behind.now)))) (first ∷ chars behind.now) }
{
    match first_of(behind) {
        Some((second, rest)) => match sign_of_two(first, second) {
            Some(token) => Some(Piece { token, rest }),
            None => None,
        },
        None => None,
    }
}

/// The sign at the front, the longest.
fn sign_at(after_operand: bool, first: char, behind: &str) -> Option<Piece<'_>>
    ensures { Cuts result (plain.sign_at after_operand first (chars behind.now)) (first ∷ chars behind.now) }
{
    match long_sign_at(first, behind) {
        Some(piece) => Some(piece),
        None => match sign_of_one(after_operand, first) {
            Some(token) => Some(Piece {
                token,
                rest: behind,
            }),
            None => None,
        },
    }
}

/// Whether a number begins with this character, behind which this stands.
fn begins_number(first: char, behind: &str) -> bool
    ensures { result ≡ (plain.is_digit first || ((first == 0x2E) && plain.is_digit (plain.first (chars behind.now)))) }
{
    is_digit(first) || (first == '.' && begins_digit(behind))
}

fn is_quote(character: char) -> bool
    ensures { result ≡ ((character == 0x22) || (character == 0x27)) }
{
    matches!(character, '"' | '\'')
}

/// The literal, variable or sign that begins with this character, behind which this stands.
fn mark_at(after_operand: bool, first: char, behind: &str) -> Option<Piece<'_>>
    ensures { Cuts result (marked after_operand first (chars behind.now)) (first ∷ chars behind.now) }
{
    if is_quote(first) {
        return literal_at(first, behind);
    }
    if first == '$' {
        return variable_at(behind);
    }
    sign_at(after_operand, first, behind)
}

/// The longest token that the text begins with, whose first character is this, with this behind it.
fn piece_at<'a>(
    after_operand: bool,
    text: &'a str,
    first: char,
    behind: &'a str,
) -> Option<Piece<'a>>
    requires { IsBehind first behind.now text.now }
    ensures { Cuts result (plain.piece_at after_operand first (chars behind.now)) (chars text.now) }
{
    if begins_number(first, behind) {
        return Some(number_at(text));
    }
    match split_name(text) {
        Some((name, rest)) => Some(word_at(after_operand, name, rest)),
        None => mark_at(after_operand, first, behind),
    }
}

/// The tokens of a text, the longest first (XPath 1.0, section 3.7), whose texts are parts of it. None exactly
/// where it cannot be cut. Takes time in the length of the text.
pub fn tokens<'a>(alloc: Global, text: &'a str) -> Result<Option<Vec<Token<'a>>>, Memory>
    ensures { IfOk result (λ cut. option_map (λ v. map token_of v.items) cut ≡ plain.tokens (chars text.now)) }
{
    let mut tokens = Vec::new(alloc);
    let mut rest = text;
    let mut after_operand = false;
    while let Some((first, behind)) = first_of(rest) {
        if is_space(first) {
            rest = behind;
            continue;
        }
        let Some(piece) = piece_at(after_operand, rest, first, behind) else {
            return Ok(None);
        };
        after_operand = piece.token.ends_operand();
        tokens.push(piece.token)?;
        rest = piece.behind();
    }
    Ok(Some(tokens))
}
