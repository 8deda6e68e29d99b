// Rules for white space in memory of their own.
ghost use Rattle.std.specs.Prelude.{◌≡◌, IfOk, map};
ghost use Rattle.xt_syntax.specs.SheetView.{space_rule_of, space_rules_of};
ghost use Rattle.xt_syntax.specs.View.{test_of};

use std::alloc::Global;
use xt_names::copy_name;
use xt_syntax::{SpaceRule, SpaceRules, Test};
use xt_text::Memory;

/// The same rules.
pub(crate) fn copy_rules(alloc: Global, rules: &SpaceRules) -> Result<SpaceRules, Memory>
    ensures { IfOk result (λ copy. space_rules_of copy ≡ space_rules_of rules.now) }
{
    let rules = copied(alloc, rules.rules.as_slice())?;
    Ok(SpaceRules { rules })
}

fn copied(alloc: Global, rules: &[SpaceRule]) -> Result<Vec<SpaceRule>, Memory>
    ensures { IfOk result (λ list. map space_rule_of list.items ≡ map space_rule_of rules.now) }
{
    let mut list = Vec::new(alloc);
    for rule in rules {
        list.push(copy_rule(alloc, rule)?)?;
    }
    Ok(list)
}

fn copy_rule(alloc: Global, rule: &SpaceRule) -> Result<SpaceRule, Memory>
    ensures { IfOk result (λ copy. space_rule_of copy ≡ space_rule_of rule.now) }
{
    let test = copy_test(alloc, &rule.test)?;
    Ok(SpaceRule {
        test,
        precedence: rule.precedence,
        priority: rule.priority,
        strips: rule.strips,
    })
}

fn copy_test(alloc: Global, test: &Test) -> Result<Test, Memory>
    ensures { IfOk result (λ copy. test_of copy ≡ test_of test.now) }
{
    match test {
        Test::AnyName => Ok(Test::AnyName),
        Test::InNamespace(uri) => Ok(Test::InNamespace(uri.copy(alloc)?)),
        Test::Named(name) => Ok(Test::Named(copy_name(alloc, name)?)),
        Test::OfType(node_type) => Ok(Test::OfType(*node_type)),
        Test::Instruction(target) => Ok(Test::Instruction(target.copy(alloc)?)),
    }
}
