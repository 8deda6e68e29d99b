//! What xt believes about expressions (XPath 1.0): whole numbers and NaN with their arithmetic, the
//! string functions, tokens, trees, and the grammar that relates the two. Definitions that contracts
//! cite, and laws about them.
//!
//! Read `specs/Number.antt` and `specs/Strings.antt` for values; `specs/Token.antt` for how a text is
//! cut, `specs/Syntax.antt` for the trees, and `specs/Grammar.antt` for the productions and for which
//! refusal an expression gets.
#![tactic(auto)]

ghost use Rattle.std.specs.Prelude.{◌≡◌, ℕ, List, Result};
ghost use Rattle.spec_document.specs.Scope.{Scope};
ghost use Rattle.spec_expression.specs.Code.{expression_code};
ghost use Rattle.spec_expression.specs.Token.{Token};
ghost use Rattle.spec_expression.specs.Syntax.{Expr};
ghost use Rattle.spec_expression.specs.Grammar.{IsExpression, Parses};
ghost use Rattle.spec_expression.specs.declared.ExpressionRefusal.{ExpressionRefusal};

mod code;

pub use code::{Code, DynCode, StaticCode};

/// The node types of XPath 1.0, production 38.
#[derive(Clone, Copy, PartialEq, Eq)]
pub enum NodeType {
    Comment,
    Text,
    ProcessingInstruction,
    Node,
}

/// The operators between two operands, those between steps aside.
#[derive(Clone, Copy, PartialEq, Eq)]
pub enum Operator {
    Or,
    And,
    Equal,
    NotEqual,
    Less,
    LessOrEqual,
    Greater,
    GreaterOrEqual,
    Add,
    Subtract,
    Multiply,
    Divide,
    Modulo,
    Union,
}

/// The productions that nest by how tightly they bind, the loosest first (XPath 1.0, productions 18
/// to 27).
#[derive(Clone, Copy, PartialEq, Eq)]
pub enum Level {
    OrExpr,
    AndExpr,
    EqualityExpr,
    RelationalExpr,
    AdditiveExpr,
    MultiplicativeExpr,
    UnaryExpr,
    UnionExpr,
    PathExpr,
}

/// Why a text is refused as an expression, in the order of the codes S10, S12, S13 and S14.
#[derive(Clone, Copy, Debug, PartialEq, Eq)]
pub enum ExpressionRefusal {
    /// S10: it cannot be cut into tokens, or it is not of the grammar.
    Syntax,
    /// S12: more than 64 `(` and `[` are open at a token.
    Depth,
    /// S13: a number has a fraction or is over 9007199254740991.
    Number,
    /// S14: a prefix is not declared.
    Prefix,
}

impl ExpressionRefusal {
    /// The code of a stylesheet with such an expression: S10, S12, S13 or S14.
    pub fn code(self) -> StaticCode
        ensures { result ≡ expression_code self }
    {
        match self {
            ExpressionRefusal::Syntax => StaticCode::BadExpression,
            ExpressionRefusal::Depth => StaticCode::TooManyBrackets,
            ExpressionRefusal::Number => StaticCode::BadNumber,
            ExpressionRefusal::Prefix => StaticCode::NoPrefix,
        }
    }
}

/// Tokens are an expression in one way: a list of tokens has at most one tree.
pub fn one_tree()
    ensures { (scope : Scope) (ts : List Token) (e f : Expr) → IsExpression scope ts e → IsExpression scope ts f → e ≡ f }
{}

/// A text gives at most one answer, a tree or the least refusal that stands at it.
pub fn one_answer()
    ensures { (scope : Scope) (text : List ℕ) (r s : Result Expr ExpressionRefusal) → Parses scope text r → Parses scope text s → r ≡ s }
{}
