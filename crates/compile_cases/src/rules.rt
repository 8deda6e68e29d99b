// Rules, as `[PATTERN ^PRECEDENCE imports=LEAST priority=MILLIONTHS order=TURN mode=NAME unit=NUMBER]`, rules for white
// space, as `[strip TEST ^PRECEDENCE priority=MILLIONTHS]`, the output method, as `method=NAME`, and aliases, as
// `[alias URI to PREFIX=URI]`.
use crate::parts::push_named;
use case_trees::{push_pattern, push_test};
use cases::{push_name, push_number, push_part};
use xt_syntax::{Alias, Method, Rule, Sheet, SpaceRule};
use xt_text::{Memory, Text};

/// Adds rules.
pub fn push_rules(out: &mut Text, rules: &[Rule]) -> Result<(), Memory> {
    for rule in rules {
        push_rule(out, rule)?;
    }
    Ok(())
}

fn push_rule(out: &mut Text, rule: &Rule) -> Result<(), Memory> {
    push_part(out, "[")?;
    push_pattern(out, &rule.pattern)?;
    push_numbered(out, "^", rule.precedence)?;
    push_numbered(out, "imports=", rule.imported)?;
    push_priority(out, rule.priority)?;
    push_numbered(out, "order=", rule.order)?;
    push_named(out, "mode", &rule.mode)?;
    push_numbered(out, "unit=", rule.unit)?;
    out.push(']')
}

fn push_numbered(out: &mut Text, word: &str, number: u64) -> Result<(), Memory> {
    push_part(out, word)?;
    push_number(out, number)
}

fn push_priority(out: &mut Text, priority: i64) -> Result<(), Memory> {
    push_part(out, "priority=")?;
    out.push_str(itoa::Buffer::new().format(priority))
}

/// Adds the rules for white space, the output method and the aliases of a stylesheet.
pub fn push_rest(out: &mut Text, sheet: &Sheet) -> Result<(), Memory> {
    for rule in sheet.space_rules.rules.as_slice() {
        push_space_rule(out, rule)?;
    }
    push_method(out, &sheet.method)?;
    for alias in sheet.aliases.as_slice() {
        push_alias(out, alias)?;
    }
    Ok(())
}

fn push_space_rule(out: &mut Text, rule: &SpaceRule) -> Result<(), Memory> {
    push_part(out, if rule.strips { "[strip " } else { "[preserve " })?;
    push_test(out, &rule.test)?;
    push_numbered(out, "^", rule.precedence)?;
    push_priority(out, rule.priority)?;
    out.push(']')
}

fn push_method(out: &mut Text, method: &Option<Method>) -> Result<(), Memory> {
    match method {
        None => Ok(()),
        Some(Method::Xml) => push_part(out, "method=xml"),
        Some(Method::Html) => push_part(out, "method=html"),
        Some(Method::Text) => push_part(out, "method=text"),
        Some(Method::Other(name)) => {
            push_part(out, "method=")?;
            push_name(out, name)
        }
    }
}

fn push_alias(out: &mut Text, alias: &Alias) -> Result<(), Memory> {
    push_part(out, "[alias ")?;
    push_uri(out, &alias.stylesheet)?;
    out.push_str(" to ")?;
    out.push_str(alias.prefix.as_str())?;
    out.push('=')?;
    push_uri(out, &alias.result)?;
    out.push(']')
}

// Adds a URI, `-` for none.
fn push_uri(out: &mut Text, uri: &Text) -> Result<(), Memory> {
    if uri.is_empty() {
        return out.push('-');
    }
    out.push_str(uri.as_str())
}
