// Tokens, whose texts are pieces of the text that they were cut from (XPath 1.0, section 3.7).
ghost use Rattle.std.specs.Prelude.{◌≡◌};
ghost use Rattle.spec_expression.specs.Token.{ends_operand};
ghost use Rattle.xp_parse.specs.View.{token_of};

use spec_expression::Operator;

/// A name as it is written, in its parts.
#[derive(Clone, Copy)]
pub struct Name<'a> {
    pub prefix: Option<&'a str>,
    pub local: &'a str,
}

/// A token.
#[derive(Clone, Copy)]
pub enum Token<'a> {
    Open,
    Close,
    OpenSquare,
    CloseSquare,
    Dot,
    DotDot,
    At,
    Comma,
    ColonColon,
    Slash,
    SlashSlash,
    /// An operator between two operands, or a sign.
    Binary(Operator),
    /// `*` as a name test.
    Star,
    /// `p:*`.
    AnyOf(&'a str),
    Name(Name<'a>),
    /// `$` and a name.
    Variable(Name<'a>),
    /// What stands between the quotes.
    Literal(&'a str),
    /// The value of a number; none where it has a fraction or is too great.
    Number(Option<u64>),
}

impl Token<'_> {
    /// Whether an operand ends with it, so that an operator may follow.
    pub fn ends_operand(&self) -> bool
        ensures { result ≡ ends_operand (token_of self.now) }
    {
        !matches!(
            self,
            Token::Open
                | Token::OpenSquare
                | Token::At
                | Token::Comma
                | Token::ColonColon
                | Token::Slash
                | Token::SlashSlash
                | Token::Binary(_)
        )
    }
}

/// A token that is a sign by itself, and no operator.
#[derive(Clone, Copy)]
pub enum Sign {
    Open,
    Close,
    OpenSquare,
    CloseSquare,
    Dot,
    DotDot,
    At,
    Comma,
    ColonColon,
    Slash,
    SlashSlash,
}
