// The tree of a text, or its least refusal.
ghost use Rattle.std.specs.Prelude.{map};
ghost use Rattle.std.specs.Str.{chars};
ghost use Rattle.xp_parse.specs.View.{token_of};
ghost use Rattle.xt_pattern.specs.Parsed.{Parsed, Given};

use crate::descent::alternatives;
use crate::fault::PatternFault;
use spec_expression::ExpressionRefusal;
use std::alloc::Global;
use xp_parse::{Parser, Token, has_bad_number, has_undeclared, is_deep, tokens};
use xt_names::Scope;
use xt_syntax::Pattern;

/// The tree of tokens, or their least refusal.
fn tree(alloc: Global, scope: &Scope, tokens: &[Token<'_>]) -> Result<Pattern, PatternFault>
    ensures { Given scope.now (map token_of tokens.now) result }
{
    if is_deep(tokens) {
        return Err(PatternFault::Refused(ExpressionRefusal::Depth));
    }
    let parser = Parser {
        alloc,
        tokens,
        scope,
    };
    let mut at = 0;
    let alternatives = alternatives(&parser, &mut at)?;
    if at < tokens.len() {
        return Err(PatternFault::Refused(ExpressionRefusal::Syntax));
    }
    if has_bad_number(tokens) {
        return Err(PatternFault::Refused(ExpressionRefusal::Number));
    }
    if has_undeclared(scope, tokens) {
        return Err(PatternFault::Refused(ExpressionRefusal::Prefix));
    }
    Ok(Pattern { alternatives })
}

/// The pattern that a text is (XSLT 1.0, section 5.2), where the prefixes of its names stand for what the
/// scope says. A text that is none, or is one past xt's profile, has one refusal, the least that stands at
/// it: S11, S12, S13 or S14. Variables and functions in its predicates are not tested here. Takes time in the
/// length of the text, and no more stack than 64 open brackets do.
pub fn parse_pattern(alloc: Global, text: &str, scope: &Scope) -> Result<Pattern, PatternFault>
    ensures { Parsed scope.now (chars text.now) result }
{
    match tokens(alloc, text)? {
        Some(tokens) => tree(alloc, scope, tokens.as_slice()),
        None => Err(PatternFault::Refused(ExpressionRefusal::Syntax)),
    }
}
