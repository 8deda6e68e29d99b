// Expressions read by descent: each function reads one production (XPath 1.0, productions 1 to 27).
ghost use Rattle.std.specs.Prelude.{◌≡◌, ◌≤◌, ◌<◌, length, map, IfOk, OnOk, OnErr};
ghost use Rattle.spec_expression.specs.Grammar as grammar;
ghost use Rattle.spec_expression.proofs.Rank.{rank};
ghost use Rattle.xt_syntax.specs.View.{expr_of, link_of, step_of, test_of};

use crate::build::{chained, expanded, filtered, negated, node_on, stepped, uri_of};
use crate::fault::ParseFault;
use crate::read::{Head, Parser, TestHead, axis_of, type_of};
use crate::token::Sign;
use spec_document::Axis;
use spec_expression::{ExpressionRefusal, Level, NodeType};
use xt_syntax::{Expr, Link, Step, Test};
use xt_text::Text;

impl<'a> Parser<'_, 'a> {
    ghost use Rattle.xp_parse.specs.Reading.{left, Returns, Behind, Begins, ReadsAxis, IsNoAxis};
    ghost use Rattle.xp_parse.specs.Reading as reading;

    /// The longest expression of this level that begins at a place, which moves behind it. `Refused` with
    /// `Syntax` where none begins there, else only want of memory; the place is then of no more use.
    #[cycle(parse)]
    pub fn expression(&self, level: Level, at: &mut usize) -> Result<Expr, ParseFault>
        ensures answer { Returns expr_of (grammar.Reads self.now.scope.now level) (rank level) (left self.now at.old) (left self.now at.new) result }
        ensures progress { OnOk result (at.old < at.new) }
        ensures within { OnOk result (at.new ≤ length self.now.tokens.now) }
    {
        match level {
            Level::OrExpr => self.chain(level, Level::AndExpr, at),
            Level::AndExpr => self.chain(level, Level::EqualityExpr, at),
            Level::EqualityExpr => self.chain(level, Level::RelationalExpr, at),
            Level::RelationalExpr => self.chain(level, Level::AdditiveExpr, at),
            Level::AdditiveExpr => self.chain(level, Level::MultiplicativeExpr, at),
            Level::MultiplicativeExpr => self.chain(level, Level::UnaryExpr, at),
            Level::UnaryExpr => self.unary(at),
            Level::UnionExpr => self.chain(level, Level::PathExpr, at),
            Level::PathExpr => self.path(at),
        }
    }

    /// Operands of the next tighter level, joined by the operators of this one.
    #[cycle(parse)]
    fn chain(&self, level: Level, tighter: Level, at: &mut usize) -> Result<Expr, ParseFault>
        requires { grammar.Chain level tighter }
        ensures answer { Returns expr_of (grammar.Reads self.now.scope.now level) (rank level) (left self.now at.old) (left self.now at.new) result }
        ensures progress { OnOk result (at.old < at.new) }
        ensures within { OnOk result (at.new ≤ length self.now.tokens.now) }
    {
        let first = self.expression(tighter, at)?;
        let links = self.links(level, tighter, at)?;
        Ok(chained(self.alloc, first, links)?)
    }

    /// The further operands of a chain, each behind an operator of this level.
    #[cycle(parse)]
    fn links(&self, level: Level, tighter: Level, at: &mut usize) -> Result<Vec<Link>, ParseFault>
        requires chain { grammar.Chain level tighter }
        requires within { at.old ≤ length self.now.tokens.now }
        ensures answer { Returns (λ v. map link_of v.items) (grammar.ReadsLinks self.now.scope.now level tighter) (rank level) (left self.now at.old) (left self.now at.new) result }
        ensures progress { OnOk result (at.old ≤ at.new) }
        ensures within { OnOk result (at.new ≤ length self.now.tokens.now) }
    {
        let mut links = Vec::new(self.alloc);
        while let Some(operator) = self.operator_at(*at, level) {
            *at += 1;
            let operand = self.expression(tighter, at)?;
            links.push(Link { operator, operand })?;
        }
        Ok(links)
    }

    /// Signs, and the union behind them.
    #[cycle(parse)]
    fn unary(&self, at: &mut usize) -> Result<Expr, ParseFault>
        ensures answer { Returns expr_of (grammar.Reads self.now.scope.now Level.UnaryExpr) 7 (left self.now at.old) (left self.now at.new) result }
        ensures progress { OnOk result (at.old < at.new) }
        ensures within { OnOk result (at.new ≤ length self.now.tokens.now) }
    {
        let mut signs = 0u64;
        while self.minus_at(*at) {
            *at += 1;
            signs += 1;
        }
        let operand = self.expression(Level::UnionExpr, at)?;
        Ok(negated(self.alloc, signs, operand)?)
    }

    /// A location path, or a filter with steps behind it.
    #[cycle(parse)]
    fn path(&self, at: &mut usize) -> Result<Expr, ParseFault>
        ensures answer { Returns expr_of (grammar.Reads self.now.scope.now Level.PathExpr) 9 (left self.now at.old) (left self.now at.new) result }
        ensures progress { OnOk result (at.old < at.new) }
        ensures within { OnOk result (at.new ≤ length self.now.tokens.now) }
    {
        if self.next_is(*at, Sign::Slash) {
            *at += 1;
            if !self.begins_step(*at) {
                return Ok(Expr::Root);
            }
            let steps = self.relative(at, Vec::new(self.alloc))?;
            return Ok(stepped(self.alloc, Expr::Root, steps)?);
        }
        if self.next_is(*at, Sign::SlashSlash) {
            *at += 1;
            let mut descendants = Vec::new(self.alloc);
            descendants.push(node_on(self.alloc, Axis::DescendantOrSelf))?;
            let steps = self.relative(at, descendants)?;
            return Ok(stepped(self.alloc, Expr::Root, steps)?);
        }
        match self.head_at(*at) {
            Some(head) => {
                let base = self.filter(head, at)?;
                let steps = self.steps(at, Vec::new(self.alloc))?;
                Ok(stepped(self.alloc, base, steps)?)
            }
            None => {
                let steps = self.relative(at, Vec::new(self.alloc))?;
                Ok(stepped(self.alloc, Expr::Here, steps)?)
            }
        }
    }

    /// A primary expression with its predicates.
    #[cycle(parse)]
    fn filter(&self, head: Head<'a>, at: &mut usize) -> Result<Expr, ParseFault>
        requires { Begins self.now at.old head }
        ensures answer { Returns expr_of (grammar.ReadsFilter self.now.scope.now) 10 (left self.now at.old) (left self.now at.new) result }
        ensures progress { OnOk result (at.old < at.new) }
        ensures within { OnOk result (at.new ≤ length self.now.tokens.now) }
    {
        let base = self.primary(head, at)?;
        let predicates = self.predicates(at)?;
        Ok(filtered(self.alloc, base, predicates)?)
    }

    /// A primary expression, by how it begins.
    #[cycle(parse)]
    fn primary(&self, head: Head<'a>, at: &mut usize) -> Result<Expr, ParseFault>
        requires { Begins self.now at.old head }
        ensures answer { Returns expr_of (grammar.ReadsPrimary self.now.scope.now) 11 (left self.now at.old) (left self.now at.new) result }
        ensures progress { OnOk result (at.old < at.new) }
        ensures within { OnOk result (at.new ≤ length self.now.tokens.now) }
    {
        match head {
            Head::Variable(name) => {
                let variable = expanded(self.alloc, self.scope, name)?;
                *at += 1;
                Ok(Expr::Variable(variable))
            }
            Head::Literal(content) => {
                let text = Text::from_str(self.alloc, content)?;
                *at += 1;
                Ok(Expr::Literal(text))
            }
            Head::Number(value) => {
                *at += 1;
                Ok(Expr::Number(value.unwrap_or(0)))
            }
            Head::Group => {
                *at += 1;
                let inner = self.expression(Level::OrExpr, at)?;
                if !self.next_is(*at, Sign::Close) {
                    return Err(ParseFault::Refused(ExpressionRefusal::Syntax));
                }
                *at += 1;
                Ok(inner)
            }
            Head::Call(name) => {
                let function = expanded(self.alloc, self.scope, name)?;
                *at += 2;
                let arguments = self.arguments(at)?;
                Ok(Expr::Call(function, arguments))
            }
        }
    }

    /// Arguments and the `)` behind them.
    #[cycle(parse)]
    fn arguments(&self, at: &mut usize) -> Result<Vec<Expr>, ParseFault>
        ensures answer { Returns (λ v. map expr_of v.items) (grammar.ReadsArguments self.now.scope.now) 13 (left self.now at.old) (left self.now at.new) result }
        ensures progress { OnOk result (at.old < at.new) }
        ensures within { OnOk result (at.new ≤ length self.now.tokens.now) }
    {
        let mut arguments = Vec::new(self.alloc);
        if self.next_is(*at, Sign::Close) {
            *at += 1;
            return Ok(arguments);
        }
        let first = self.expression(Level::OrExpr, at)?;
        arguments.push(first)?;
        while self.next_is(*at, Sign::Comma) {
            *at += 1;
            let argument = self.expression(Level::OrExpr, at)?;
            arguments.push(argument)?;
        }
        if !self.next_is(*at, Sign::Close) {
            return Err(ParseFault::Refused(ExpressionRefusal::Syntax));
        }
        *at += 1;
        Ok(arguments)
    }

    /// The predicates from a place on, which moves behind them. `Refused` with `Syntax` where one is begun that is
    /// none.
    #[cycle(parse)]
    fn predicates(&self, at: &mut usize) -> Result<Vec<Expr>, ParseFault>
        requires { at.old ≤ length self.now.tokens.now }
        ensures answer { Returns (λ v. map expr_of v.items) (grammar.ReadsPredicates self.now.scope.now) 10 (left self.now at.old) (left self.now at.new) result }
        ensures progress { OnOk result (at.old ≤ at.new) }
        ensures within { OnOk result (at.new ≤ length self.now.tokens.now) }
    {
        let mut predicates = Vec::new(self.alloc);
        while self.next_is(*at, Sign::OpenSquare) {
            *at += 1;
            let predicate = self.expression(Level::OrExpr, at)?;
            if !self.next_is(*at, Sign::CloseSquare) {
                return Err(ParseFault::Refused(ExpressionRefusal::Syntax));
            }
            *at += 1;
            predicates.push(predicate)?;
        }
        Ok(predicates)
    }

    /// A relative location path, whose steps stand behind those that are there already.
    #[cycle(parse)]
    fn relative(&self, at: &mut usize, mut steps: Vec<Step>) -> Result<Vec<Step>, ParseFault>
        ensures answer { Returns (λ v. map step_of v.items) (Behind (map step_of steps.items) (grammar.ReadsRelative self.now.scope.now)) 9 (left self.now at.old) (left self.now at.new) result }
        ensures progress { OnOk result (at.old < at.new) }
        ensures within { OnOk result (at.new ≤ length self.now.tokens.now) }
    {
        let step = self.step(at)?;
        steps.push(step)?;
        self.steps(at, steps)
    }

    /// The further steps, each behind a `/` or `//`, which stand behind those that are there already.
    #[cycle(parse)]
    fn steps(&self, at: &mut usize, mut steps: Vec<Step>) -> Result<Vec<Step>, ParseFault>
        requires { at.old ≤ length self.now.tokens.now }
        ensures answer { Returns (λ v. map step_of v.items) (Behind (map step_of steps.items) (grammar.ReadsSteps self.now.scope.now)) 9 (left self.now at.old) (left self.now at.new) result }
        ensures progress { OnOk result (at.old ≤ at.new) }
        ensures within { OnOk result (at.new ≤ length self.now.tokens.now) }
    {
        loop {
            if self.next_is(*at, Sign::Slash) {
                *at += 1;
                let step = self.step(at)?;
                steps.push(step)?;
            } else if self.next_is(*at, Sign::SlashSlash) {
                *at += 1;
                let step = self.step(at)?;
                steps.push(node_on(self.alloc, Axis::DescendantOrSelf))?;
                steps.push(step)?;
            } else {
                return Ok(steps);
            }
        }
    }

    /// The step at a place, which moves behind it. `Refused` with `Syntax` where none stands there.
    #[cycle(parse)]
    pub fn step(&self, at: &mut usize) -> Result<Step, ParseFault>
        ensures answer { Returns step_of (grammar.ReadsStep self.now.scope.now) 10 (left self.now at.old) (left self.now at.new) result }
        ensures progress { OnOk result (at.old < at.new) }
        ensures within { OnOk result (at.new ≤ length self.now.tokens.now) }
    {
        if self.next_is(*at, Sign::Dot) {
            *at += 1;
            return Ok(node_on(self.alloc, Axis::Itself));
        }
        if self.next_is(*at, Sign::DotDot) {
            *at += 1;
            return Ok(node_on(self.alloc, Axis::Parent));
        }
        let axis = self.axis(at)?;
        let test = self.test(at)?;
        let predicates = self.predicates(at)?;
        Ok(Step {
            axis,
            test,
            predicates,
        })
    }

    /// The axis of a step that is neither `.` nor `..`: `child` where none stands at the place. `Refused` with
    /// `Syntax` where a name that is none and `::` stand there.
    fn axis(&self, at: &mut usize) -> Result<Axis, ParseFault>
        requires dot { reading.IsNotNext (left self.now at.old) (reading.token_of_sign Sign.Dot) }
        requires dots { reading.IsNotNext (left self.now at.old) (reading.token_of_sign Sign.DotDot) }
        ensures ok { IfOk result (λ axis. ReadsAxis (left self.now at.old) axis (left self.now at.new)) }
        ensures err { OnErr result ((result ≡ Err (ParseFault.Refused ExpressionRefusal.Syntax)) × IsNoAxis (left self.now at.old)) }
        ensures progress { OnOk result (at.old ≤ at.new) }
    {
        if self.next_is(*at, Sign::At) {
            *at += 1;
            return Ok(Axis::Attribute);
        }
        match self.axis_name_at(*at) {
            Some(name) => match axis_of(name) {
                Some(axis) => {
                    *at += 2;
                    Ok(axis)
                }
                None => Err(ParseFault::Refused(ExpressionRefusal::Syntax)),
            },
            None => Ok(Axis::Child),
        }
    }

    /// The node test at a place, which moves behind it. `Refused` with `Syntax` where none stands there.
    pub fn test(&self, at: &mut usize) -> Result<Test, ParseFault>
        ensures answer { Returns test_of (grammar.ReadsTest self.now.scope.now) 11 (left self.now at.old) (left self.now at.new) result }
        ensures progress { OnOk result (at.old < at.new) }
        ensures within { OnOk result (at.new ≤ length self.now.tokens.now) }
    {
        match self.test_at(*at) {
            None => Err(ParseFault::Refused(ExpressionRefusal::Syntax)),
            Some(TestHead::Star) => {
                *at += 1;
                Ok(Test::AnyName)
            }
            Some(TestHead::AnyOf(prefix)) => {
                let uri = uri_of(self.alloc, self.scope, prefix)?;
                *at += 1;
                Ok(Test::InNamespace(uri))
            }
            Some(TestHead::Name(name)) => match type_of(name) {
                Some(node_type) if self.next_is(*at + 1, Sign::Open) => self.type_test(
                    node_type, at,
                ),
                _ => {
                    let name = expanded(self.alloc, self.scope, name)?;
                    *at += 1;
                    Ok(Test::Named(name))
                }
            },
        }
    }

    /// A node type with its parentheses, behind which a processing instruction may have a target.
    fn type_test(&self, node_type: NodeType, at: &mut usize) -> Result<Test, ParseFault>
        requires { reading.IsType self.now at.old node_type }
        ensures answer { Returns test_of (grammar.ReadsTest self.now.scope.now) 11 (left self.now at.old) (left self.now at.new) result }
        ensures progress { OnOk result (at.old < at.new) }
        ensures within { OnOk result (at.new ≤ length self.now.tokens.now) }
    {
        if self.next_is(*at + 2, Sign::Close) {
            *at += 3;
            return Ok(Test::OfType(node_type));
        }
        match node_type {
            NodeType::ProcessingInstruction => match self.target_at(*at + 2) {
                Some(target) => {
                    let target = Text::from_str(self.alloc, target)?;
                    *at += 4;
                    Ok(Test::Instruction(target))
                }
                None => Err(ParseFault::Refused(ExpressionRefusal::Syntax)),
            },
            _ => Err(ParseFault::Refused(ExpressionRefusal::Syntax)),
        }
    }
}
