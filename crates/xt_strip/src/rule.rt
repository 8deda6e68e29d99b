// Which rule counts for the name of an element (XSLT 1.0, section 3.4).
ghost use Rattle.std.specs.Prelude.{◌≡◌, None, map};
ghost use Rattle.std.specs.List.{list_any};
ghost use Rattle.std.specs.Option.{option_and_then, option_map};
ghost use Rattle.std.specs.Str.{chars};
ghost use Rattle.spec_document.specs.Declaration.{element_name};
ghost use Rattle.spec_document.specs.Name.{qname_of, same_name};
ghost use Rattle.spec_seen.specs.Seen as spec;
ghost use Rattle.xt_syntax.specs.SheetView.{space_rule_of};
ghost use Rattle.xt_syntax.specs.View.{test_of};

use xt_names::{Expanded, Scope};
use xt_structure::{Meaning, meaning_of};
use xt_syntax::{SpaceRule, Test};

/// Whether one of the rules strips.
pub(crate) fn any_strips(rules: &[SpaceRule]) -> bool
    ensures { result ≡ list_any (λ rule. rule.strips) (map space_rule_of rules.now) }
{
    for rule in rules {
        if rule.strips {
            return true;
        }
    }
    false
}

/// Whether an element of this name, which stands with its declarations in this scope, loses its texts of white space.
/// Takes no memory.
pub(crate) fn strips(rules: &[SpaceRule], scope: &Scope, name: &str) -> bool
    ensures { result ≡ spec.strips (map space_rule_of rules.now) (option_and_then (element_name scope.now) (qname_of (chars name.now))) }
{
    match meaning_of(scope, name) {
        None => false,
        Some(name) => strips_by(rule_for(rules, &name)),
    }
}

fn strips_by(rule: Option<&SpaceRule>) -> bool
    ensures { result ≡ spec.strips_by (option_map (λ rule. space_rule_of rule.now) rule.entry) }
{
    match rule {
        None => false,
        Some(rule) => rule.strips,
    }
}

// The rule that counts for a name, where there is one.
fn rule_for<'a>(rules: &'a [SpaceRule], name: &Meaning<'_>) -> Option<&'a SpaceRule>
    ensures { option_map (λ rule. space_rule_of rule.now) result ≡ spec.rule_for name.now None (map space_rule_of rules.now) }
{
    let mut found = None;
    for rule in rules {
        if takes_name(&rule.test, name) {
            found = Some(greater(found, rule));
        }
    }
    found
}

fn takes_name(test: &Test, name: &Meaning<'_>) -> bool
    ensures { result ≡ spec.takes_name (test_of test.now) name.now }
{
    match test {
        Test::AnyName => true,
        Test::InNamespace(uri) => name.is_of(uri.as_str()),
        Test::Named(wanted) => is_named(wanted, name),
        Test::OfType(_) => false,
        Test::Instruction(_) => false,
    }
}

fn is_named(wanted: &Expanded, name: &Meaning<'_>) -> bool
    ensures { result ≡ same_name wanted.now name.now }
{
    wanted.uri().is(name.uri()) && wanted.local().is(name.local())
}

// Of two rules that take a name the one that counts, the later of equal ones.
fn greater<'a>(found: Option<&'a SpaceRule>, rule: &'a SpaceRule) -> &'a SpaceRule
    ensures { space_rule_of result.now ≡ spec.greater (option_map (λ rule. space_rule_of rule.now) found.entry) (space_rule_of rule.now) }
{
    match found {
        None => rule,
        Some(earlier) => {
            if counts_more(earlier, rule) {
                earlier
            } else {
                rule
            }
        }
    }
}

fn counts_more(rule: &SpaceRule, other: &SpaceRule) -> bool
    ensures { result ≡ spec.counts_more (space_rule_of rule.now) (space_rule_of other.now) }
{
    other.precedence < rule.precedence
        || (rule.precedence == other.precedence && other.priority < rule.priority)
}
