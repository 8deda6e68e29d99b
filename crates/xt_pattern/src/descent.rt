// Patterns read by descent: each function reads one production (XSLT 1.0, section 5.2).
ghost use Rattle.std.specs.Prelude.{◌≡◌, ◌≤◌, ◌<◌, length, map, MatchBool, MatchOption, OnOk};
ghost use Rattle.spec_expression.specs.Token as plain;
ghost use Rattle.spec_static.specs.PatternGrammar as grammar;
ghost use Rattle.xt_syntax.specs.View.{step_of};
ghost use Rattle.xt_syntax.specs.PartView.{pattern_step_of, alternative_of};
ghost use Rattle.xp_parse.specs.Reading.{left, IsNext, IsNotNext, Returns, Behind};
ghost use Rattle.xt_pattern.specs.Reading.{token_of_separator, NoSeparator};

use crate::head::{head, head_word_at};
use spec_document::Axis;
use spec_expression::{ExpressionRefusal, Operator};
use spec_stylesheet::Separator;
use xp_parse::{ParseFault, Parser, Sign, Token};
use xt_syntax::{Alternative, PatternStep, Start, Step};

/// Whether patterns have this axis.
fn is_pattern_axis(axis: Axis) -> bool
    ensures { result ≡ grammar.is_pattern_axis axis }
{
    matches!(axis, Axis::Child | Axis::Attribute)
}

/// The step of a pattern at a place, which moves behind it. `Refused` with `Syntax` where none stands there.
fn step(parser: &Parser<'_, '_>, at: &mut usize) -> Result<Step, ParseFault>
    ensures answer { Returns step_of (grammar.ReadsStepPattern parser.now.scope.now) 10 (left parser.now at.old) (left parser.now at.new) result }
    ensures progress { OnOk result (at.old < at.new) }
    ensures within { OnOk result (at.new ≤ length parser.now.tokens.now) }
{
    let step = parser.step(at)?;
    if !is_pattern_axis(step.axis) {
        return Err(ParseFault::Refused(ExpressionRefusal::Syntax));
    }
    Ok(step)
}

/// The separator at a place, where one stands there.
fn separator_at(parser: &Parser<'_, '_>, at: usize) -> Option<Separator>
    ensures { MatchOption result (NoSeparator (left parser.now at)) (λ separator. IsNext parser.now at (token_of_separator separator)) }
{
    if parser.next_is(at, Sign::Slash) {
        return Some(Separator::Child);
    }
    if parser.next_is(at, Sign::SlashSlash) {
        return Some(Separator::Descendant);
    }
    None
}

/// The further steps, each behind its separator, which stand behind those that are there already.
fn further_steps(
    parser: &Parser<'_, '_>,
    at: &mut usize,
    mut steps: Vec<PatternStep>,
) -> Result<Vec<PatternStep>, ParseFault>
    requires { at.old ≤ length parser.now.tokens.now }
    ensures answer { Returns (λ v. map pattern_step_of v.items) (Behind (map pattern_step_of steps.items) (grammar.ReadsFurtherSteps parser.now.scope.now)) 9 (left parser.now at.old) (left parser.now at.new) result }
    ensures progress { OnOk result (at.old ≤ at.new) }
    ensures within { OnOk result (at.new ≤ length parser.now.tokens.now) }
{
    while let Some(separator) = separator_at(parser, *at) {
        *at += 1;
        let step = step(parser, at)?;
        steps.push(PatternStep { separator, step })?;
    }
    Ok(steps)
}

/// A relative pattern, with this separator before its first step.
fn relative(
    parser: &Parser<'_, '_>,
    before: Separator,
    at: &mut usize,
) -> Result<Vec<PatternStep>, ParseFault>
    ensures answer { Returns (λ v. map pattern_step_of v.items) (grammar.ReadsRelativePattern parser.now.scope.now before) 9 (left parser.now at.old) (left parser.now at.new) result }
    ensures progress { OnOk result (at.old < at.new) }
    ensures within { OnOk result (at.new ≤ length parser.now.tokens.now) }
{
    let step = step(parser, at)?;
    let mut steps = Vec::new(parser.alloc);
    steps.push(PatternStep {
        separator: before,
        step,
    })?;
    further_steps(parser, at, steps)
}

/// One alternative of a pattern.
fn alternative(parser: &Parser<'_, '_>, at: &mut usize) -> Result<Alternative, ParseFault>
    ensures answer { Returns alternative_of (grammar.ReadsAlternative parser.now.scope.now) 9 (left parser.now at.old) (left parser.now at.new) result }
    ensures progress { OnOk result (at.old < at.new) }
    ensures within { OnOk result (at.new ≤ length parser.now.tokens.now) }
{
    if parser.next_is(*at, Sign::Slash) {
        *at += 1;
        if !parser.begins_step(*at) {
            return Ok(Alternative {
                start: Start::Root,
                steps: Vec::new(parser.alloc),
            });
        }
        let steps = relative(parser, Separator::Child, at)?;
        return Ok(Alternative {
            start: Start::Root,
            steps,
        });
    }
    if parser.next_is(*at, Sign::SlashSlash) {
        *at += 1;
        let steps = relative(parser, Separator::Descendant, at)?;
        return Ok(Alternative {
            start: Start::Root,
            steps,
        });
    }
    match head_word_at(parser, *at) {
        Some(word) => {
            let start = head(parser, word, at)?;
            let steps = further_steps(parser, at, Vec::new(parser.alloc))?;
            Ok(Alternative { start, steps })
        }
        None => {
            let steps = relative(parser, Separator::Child, at)?;
            Ok(Alternative {
                start: Start::Anywhere,
                steps,
            })
        }
    }
}

/// Whether a `|` stands at a place.
fn union_at(parser: &Parser<'_, '_>, at: usize) -> bool
    ensures { MatchBool result (IsNext parser.now at (plain.Binary Operator.Union)) (IsNotNext (left parser.now at) (plain.Binary Operator.Union)) }
{
    matches!(parser.peek(at), Some(Token::Binary(Operator::Union)))
}

/// The further alternatives, each behind a `|`, which stand behind those that are there already.
fn others(
    parser: &Parser<'_, '_>,
    at: &mut usize,
    mut alternatives: Vec<Alternative>,
) -> Result<Vec<Alternative>, ParseFault>
    requires { at.old ≤ length parser.now.tokens.now }
    ensures answer { Returns (λ v. map alternative_of v.items) (Behind (map alternative_of alternatives.items) (grammar.ReadsOthers parser.now.scope.now)) 8 (left parser.now at.old) (left parser.now at.new) result }
    ensures within { OnOk result (at.new ≤ length parser.now.tokens.now) }
{
    while union_at(parser, *at) {
        *at += 1;
        let alternative = alternative(parser, at)?;
        alternatives.push(alternative)?;
    }
    Ok(alternatives)
}

/// The alternatives of the longest pattern at a place, which moves behind it. `Refused` with `Syntax` where
/// none stands there.
pub(crate) fn alternatives(
    parser: &Parser<'_, '_>,
    at: &mut usize,
) -> Result<Vec<Alternative>, ParseFault>
    ensures answer { Returns (λ v. map alternative_of v.items) (grammar.ReadsAlternatives parser.now.scope.now) 8 (left parser.now at.old) (left parser.now at.new) result }
    ensures within { OnOk result (at.new ≤ length parser.now.tokens.now) }
{
    let first = alternative(parser, at)?;
    let mut alternatives = Vec::new(parser.alloc);
    alternatives.push(first)?;
    others(parser, at, alternatives)
}
