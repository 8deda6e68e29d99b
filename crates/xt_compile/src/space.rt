// Which elements are stripped of white space (XSLT 1.0, section 3.4).
ghost use Rattle.std.specs.Prelude.{◌≡◌, ◌++◌, map, OnOk};
ghost use Rattle.spec_static.specs.PatternGrammar as grammar;
ghost use Rattle.xt_syntax.specs.SheetView.{space_rule_of};
ghost use Rattle.xt_syntax.specs.View.{test_of};
ghost use Rattle.xt_compile.specs.Space.{space_rule};

use std::alloc::Global;
use xt_syntax::{SpaceRule, Test};
use xt_text::Memory;

/// Adds a rule for each of the tests.
pub(crate) fn add_space_rules(
    rules: &mut Vec<SpaceRule>,
    precedence: u64,
    strips: bool,
    tests: Vec<Test>,
) -> Result<(), Memory>
    ensures { OnOk result (map space_rule_of rules.new.items ≡ map space_rule_of rules.old.items ++ map (space_rule precedence strips) (map test_of tests.items)) }
{
    for test in tests {
        let priority = test_priority(&test);
        rules.push(SpaceRule {
            test,
            precedence,
            priority,
            strips,
        })?;
    }
    Ok(())
}

// The priority of a test, in millionths (XSLT 1.0, section 5.5).
fn test_priority(test: &Test) -> i64
    ensures { result ≡ grammar.test_priority (test_of test.now) }
{
    match test {
        Test::Named(_) | Test::Instruction(_) => 0,
        Test::InNamespace(_) => -250_000,
        Test::AnyName | Test::OfType(_) => -500_000,
    }
}
