// Expressions and location steps (XPath 1.0, sections 2 and 3).
ghost use Rattle.std.specs.Prelude.{◌≡◌, map};
ghost use Rattle.std.specs.Bool.{Decides};
ghost use Rattle.spec_expression.specs.Syntax.{exprs, links, steps};
ghost use Rattle.xt_syntax.specs.View.{expr_of, step_of, test_of, link_of};

use spec_document::Axis;
use spec_expression::{NodeType, Operator};
use xt_names::Expanded;
use xt_text::Text;

/// An expression. Chains of operators, signs, steps and predicates are lists, so a tree is no deeper
/// than brackets nest. Names are expanded.
#[cycle(expr)]
#[derive(Drop)]
pub enum Expr {
    /// A whole number, at most 9007199254740991.
    Number(u64),
    /// A literal, without its quotes.
    Literal(Text),
    /// A reference to a variable.
    Variable(Expanded),
    /// A call of a function, with its arguments.
    Call(Expanded, Vec<Expr>),
    /// The first operand, and at least one further one: operators of one level, which group to the
    /// left.
    Chain(Box<Expr>, Vec<Link>),
    /// So many signs `-` before an operand, at least one.
    Negation(u64, Box<Expr>),
    /// A primary expression with at least one predicate.
    Filter(Box<Expr>, Vec<Expr>),
    /// The root of the document.
    Root,
    /// The context node, from which a relative location path starts.
    Here,
    /// At least one step, from the nodes of an expression.
    Path(Box<Expr>, Vec<Step>),
}

/// A further operand of a chain, with the operator before it.
#[cycle(expr)]
#[derive(Drop)]
pub struct Link {
    pub operator: Operator,
    pub operand: Expr,
}

/// A location step.
#[cycle(expr)]
#[derive(Drop)]
pub struct Step {
    pub axis: Axis,
    pub test: Test,
    pub predicates: Vec<Expr>,
}

/// A node test.
#[derive(Drop)]
pub enum Test {
    /// `*`: any name of the axis's principal kind.
    AnyName,
    /// `p:*`: any name in this namespace.
    InNamespace(Text),
    /// A name.
    Named(Expanded),
    /// `comment()`, `text()`, `processing-instruction()` or `node()`.
    OfType(NodeType),
    /// `processing-instruction('x')`: a processing instruction of this target.
    Instruction(Text),
}

impl Test {
    /// Whether both are the same test. Takes no memory.
    pub fn same(&self, other: &Test) -> bool
        ensures { Decides result (test_of self.now ≡ test_of other.now) }
    {
        match (self, other) {
            (Test::AnyName, Test::AnyName) => true,
            (Test::InNamespace(uri), Test::InNamespace(other)) => uri.same(other),
            (Test::Named(name), Test::Named(other)) => name.same(other),
            (Test::OfType(node_type), Test::OfType(other)) => node_type == other,
            (Test::Instruction(target), Test::Instruction(other)) => target.same(other),
            _ => false,
        }
    }
}

impl Expr {
    /// Whether both are the same tree. Takes no memory.
    #[cycle(same)]
    pub fn same(&self, other: &Expr) -> bool
        ensures { Decides result (expr_of self.now ≡ expr_of other.now) }
    {
        match (self, other) {
            (Expr::Number(number), Expr::Number(other)) => number == other,
            (Expr::Literal(text), Expr::Literal(other)) => text.same(other),
            (Expr::Variable(name), Expr::Variable(other)) => name.same(other),
            (Expr::Call(name, arguments), Expr::Call(other_name, others)) => {
                name.same(other_name) && same_exprs(arguments.as_slice(), others.as_slice())
            }
            (Expr::Chain(first, links), Expr::Chain(other_first, others)) => {
                first.same(other_first) && same_links(links.as_slice(), others.as_slice())
            }
            (Expr::Negation(signs, operand), Expr::Negation(other_signs, other)) => {
                signs == other_signs && operand.same(other)
            }
            (Expr::Filter(base, predicates), Expr::Filter(other_base, others)) => {
                base.same(other_base) && same_exprs(predicates.as_slice(), others.as_slice())
            }
            (Expr::Root, Expr::Root) => true,
            (Expr::Here, Expr::Here) => true,
            (Expr::Path(base, steps), Expr::Path(other_base, others)) => {
                base.same(other_base) && same_steps(steps.as_slice(), others.as_slice())
            }
            _ => false,
        }
    }
}

impl Link {
    /// Whether both have the same operator and the same operand. Takes no memory.
    #[cycle(same)]
    pub fn same(&self, other: &Link) -> bool
        ensures { Decides result (link_of self.now ≡ link_of other.now) }
    {
        self.operator == other.operator && self.operand.same(&other.operand)
    }
}

impl Step {
    /// Whether both are the same step. Takes no memory.
    #[cycle(same)]
    pub fn same(&self, other: &Step) -> bool
        ensures { Decides result (step_of self.now ≡ step_of other.now) }
    {
        self.axis == other.axis
            && self.test.same(&other.test)
            && same_exprs(self.predicates.as_slice(), other.predicates.as_slice())
    }
}

/// Whether both lists have the same trees.
#[cycle(same)]
fn same_exprs(list: &[Expr], others: &[Expr]) -> bool
    ensures { Decides result (exprs (map expr_of list.now) ≡ exprs (map expr_of others.now)) }
{
    if list.len() != others.len() {
        return false;
    }
    for (index, expr) in list.iter().enumerate() {
        if !expr.same(&others[index]) {
            return false;
        }
    }
    true
}

/// Whether both lists have the same operators and operands.
#[cycle(same)]
fn same_links(list: &[Link], others: &[Link]) -> bool
    ensures { Decides result (links (map link_of list.now) ≡ links (map link_of others.now)) }
{
    if list.len() != others.len() {
        return false;
    }
    for (index, link) in list.iter().enumerate() {
        if !link.same(&others[index]) {
            return false;
        }
    }
    true
}

/// Whether both lists have the same steps.
#[cycle(same)]
fn same_steps(list: &[Step], others: &[Step]) -> bool
    ensures { Decides result (steps (map step_of list.now) ≡ steps (map step_of others.now)) }
{
    if list.len() != others.len() {
        return false;
    }
    for (index, step) in list.iter().enumerate() {
        if !step.same(&others[index]) {
            return false;
        }
    }
    true
}
