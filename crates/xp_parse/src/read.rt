// Tokens read one after the other.
ghost use Rattle.std.specs.Prelude.{◌≡◌, ◌+◌, MatchOption, MatchBool, [], IfSome, false};
ghost use Rattle.std.specs.Str.{chars};
ghost use Rattle.spec_expression.specs.Grammar as grammar;
ghost use Rattle.spec_expression.specs.Token as plain;
ghost use Rattle.xp_parse.specs.View.{name_of};

use crate::token::{Name, Sign, Token};
use spec_document::Axis;
use spec_expression::{Level, NodeType, Operator};
use std::alloc::Global;
use xt_names::Scope;

/// Reads what tokens are, from a place on: an expression of a level, or the parts of a step. Names are expanded
/// in the scope; an undeclared prefix counts as no namespace, and a number that is none as 0, so who reads tokens
/// tests these by himself, as `parse` does.
#[derive(Clone, Copy)]
pub struct Parser<'t, 'a> {
    pub alloc: Global,
    pub tokens: &'t [Token<'a>],
    pub scope: &'t Scope,
}

impl<'a> Parser<'_, 'a> {
    ghost use Rattle.xp_parse.specs.View.{token_of};
    ghost use Rattle.xp_parse.specs.Reading.{left, IsNext, IsNotNext, NoOperator, token_of_sign, begins_step, begins_primary, begins_test, Begins, BeginsTest, NoAxis, NoTarget};

    /// The token at a place.
    pub fn peek(&self, at: usize) -> Option<Token<'a>>
        ensures { MatchOption result (left self.now at ≡ []) (λ t. IsNext self.now at (token_of t)) }
    {
        self.tokens.get(at).copied()
    }

    /// Whether this sign stands at a place.
    pub fn next_is(&self, at: usize, sign: Sign) -> bool
        ensures { MatchBool result (IsNext self.now at (token_of_sign sign)) (IsNotNext (left self.now at) (token_of_sign sign)) }
    {
        matches!(
            (self.peek(at), sign),
            (Some(Token::Open), Sign::Open)
                | (Some(Token::Close), Sign::Close)
                | (Some(Token::OpenSquare), Sign::OpenSquare)
                | (Some(Token::CloseSquare), Sign::CloseSquare)
                | (Some(Token::Dot), Sign::Dot)
                | (Some(Token::DotDot), Sign::DotDot)
                | (Some(Token::At), Sign::At)
                | (Some(Token::Comma), Sign::Comma)
                | (Some(Token::ColonColon), Sign::ColonColon)
                | (Some(Token::Slash), Sign::Slash)
                | (Some(Token::SlashSlash), Sign::SlashSlash)
        )
    }

    /// The operator of this level at a place, where one stands there.
    pub(crate) fn operator_at(&self, at: usize, level: Level) -> Option<Operator>
        ensures next { MatchOption result (NoOperator level (left self.now at)) (λ o. IsNext self.now at (plain.Binary o)) }
        ensures level { IfSome result (λ o. grammar.level_of o ≡ level) }
    {
        match self.peek(at) {
            Some(Token::Binary(operator)) if level_of(operator) == level => Some(operator),
            _ => None,
        }
    }

    /// Whether a step begins at a place.
    pub fn begins_step(&self, at: usize) -> bool
        ensures { result ≡ begins_step (left self.now at) }
    {
        matches!(
            self.peek(at),
            Some(
                Token::Dot
                    | Token::DotDot
                    | Token::At
                    | Token::Star
                    | Token::AnyOf(_)
                    | Token::Name(_)
            )
        )
    }

    /// Whether the sign `-` stands at a place.
    pub(crate) fn minus_at(&self, at: usize) -> bool
        ensures { MatchBool result (IsNext self.now at (plain.Binary Operator.Subtract)) (IsNotNext (left self.now at) (plain.Binary Operator.Subtract)) }
    {
        matches!(self.peek(at), Some(Token::Binary(Operator::Subtract)))
    }

    /// How the primary expression at a place begins, where one does.
    pub(crate) fn head_at(&self, at: usize) -> Option<Head<'a>>
        ensures { MatchOption result (begins_primary (left self.now at) ≡ false) (λ head. Begins self.now at head) }
    {
        match self.peek(at) {
            Some(Token::Variable(name)) => Some(Head::Variable(name)),
            Some(Token::Open) => Some(Head::Group),
            Some(Token::Literal(content)) => Some(Head::Literal(content)),
            Some(Token::Number(value)) => Some(Head::Number(value)),
            Some(Token::Name(name))
                if type_of(name).is_none() && self.next_is(at + 1, Sign::Open) => {
                Some(Head::Call(name))
            }
            _ => None,
        }
    }

    /// How the node test at a place begins, where one does.
    pub(crate) fn test_at(&self, at: usize) -> Option<TestHead<'a>>
        ensures { MatchOption result (begins_test (left self.now at) ≡ false) (λ head. BeginsTest self.now at head) }
    {
        match self.peek(at) {
            Some(Token::Star) => Some(TestHead::Star),
            Some(Token::AnyOf(prefix)) => Some(TestHead::AnyOf(prefix)),
            Some(Token::Name(name)) => Some(TestHead::Name(name)),
            _ => None,
        }
    }

    /// The name of an axis at a place, where a name and `::` stand there.
    pub(crate) fn axis_name_at(&self, at: usize) -> Option<Name<'a>>
        ensures { MatchOption result (NoAxis (left self.now at)) (λ name. IsNext self.now at (plain.Name (name_of name)) × IsNext self.now (at + 1) plain.ColonColon) }
    {
        match self.peek(at) {
            Some(Token::Name(name)) if self.next_is(at + 1, Sign::ColonColon) => Some(name),
            _ => None,
        }
    }

    /// The target in the parentheses of `processing-instruction`, where a literal and `)` stand at a
    /// place.
    pub(crate) fn target_at(&self, at: usize) -> Option<&'a str>
        ensures { MatchOption result (NoTarget (left self.now at)) (λ target. IsNext self.now at (plain.Literal (chars target.now)) × IsNext self.now (at + 1) plain.Close) }
    {
        match self.peek(at) {
            Some(Token::Literal(target)) if self.next_is(at + 1, Sign::Close) => Some(target),
            _ => None,
        }
    }
}

/// How a primary expression begins.
#[derive(Clone, Copy)]
pub(crate) enum Head<'a> {
    Variable(Name<'a>),
    /// `(`
    Group,
    Literal(&'a str),
    /// The value of a number; none where it has a fraction or is too great.
    Number(Option<u64>),
    /// The name of a function and `(`.
    Call(Name<'a>),
}

/// How a node test begins.
#[derive(Clone, Copy)]
pub(crate) enum TestHead<'a> {
    Star,
    AnyOf(&'a str),
    Name(Name<'a>),
}

/// The level that an operator stands at.
pub(crate) fn level_of(operator: Operator) -> Level
    ensures { result ≡ grammar.level_of operator }
{
    match operator {
        Operator::Or => Level::OrExpr,
        Operator::And => Level::AndExpr,
        Operator::Equal | Operator::NotEqual => Level::EqualityExpr,
        Operator::Less | Operator::LessOrEqual | Operator::Greater | Operator::GreaterOrEqual =>
            Level::RelationalExpr,
        Operator::Add | Operator::Subtract => Level::AdditiveExpr,
        Operator::Multiply | Operator::Divide | Operator::Modulo => Level::MultiplicativeExpr,
        Operator::Union => Level::UnionExpr,
    }
}

/// The axis that a name is, where it is one.
fn axis_named(name: &str) -> Option<Axis>
    ensures { result ≡ grammar.axis_named (chars name.now) }
{
    match name {
        "ancestor" => Some(Axis::Ancestor),
        "ancestor-or-self" => Some(Axis::AncestorOrSelf),
        "attribute" => Some(Axis::Attribute),
        "child" => Some(Axis::Child),
        "descendant" => Some(Axis::Descendant),
        "descendant-or-self" => Some(Axis::DescendantOrSelf),
        "following" => Some(Axis::Following),
        "following-sibling" => Some(Axis::FollowingSibling),
        "namespace" => Some(Axis::Namespace),
        "parent" => Some(Axis::Parent),
        "preceding" => Some(Axis::Preceding),
        "preceding-sibling" => Some(Axis::PrecedingSibling),
        "self" => Some(Axis::Itself),
        _ => None,
    }
}

/// The node type that a name is, where it is one.
fn type_named(name: &str) -> Option<NodeType>
    ensures { result ≡ grammar.type_named (chars name.now) }
{
    match name {
        "comment" => Some(NodeType::Comment),
        "text" => Some(NodeType::Text),
        "processing-instruction" => Some(NodeType::ProcessingInstruction),
        "node" => Some(NodeType::Node),
        _ => None,
    }
}

/// The node type that a name without a prefix is.
pub(crate) fn type_of(name: Name<'_>) -> Option<NodeType>
    ensures { result ≡ grammar.type_of (name_of name.entry) }
{
    match name.prefix {
        None => type_named(name.local),
        Some(_) => None,
    }
}

/// The axis that a name without a prefix is.
pub(crate) fn axis_of(name: Name<'_>) -> Option<Axis>
    ensures { result ≡ grammar.axis_of (name_of name.entry) }
{
    match name.prefix {
        None => axis_named(name.local),
        Some(_) => None,
    }
}
