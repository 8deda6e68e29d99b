// Template rules in the order in which they count.
ghost use Rattle.std.specs.Prelude.{◌≡◌, ◌+◌, map, IfOk, OnOk};
ghost use Rattle.spec_compile.specs.Sheet as spec;
ghost use Rattle.xt_syntax.specs.SheetView.{rule_of};
ghost use Rattle.xt_rank.specs.Rank.{AreNumbered, AreRanked, ranked_rules};

use std::alloc::Global;
use std::cmp::Reverse;
use std::collections::BTreeMap;
use xt_syntax::Rule;
use xt_text::Memory;

// What comes before what: the greater precedence, then the greater priority, then the later rule.
type Rank = (Reverse<u64>, Reverse<i64>, Reverse<u64>);

/// The rules in the order in which they count, the first for most (XSLT 1.0, section 5.5): by import precedence, then
/// by priority, then the last in the stylesheet. They are given in the order of the stylesheet, numbered from 0.
pub fn in_rank(alloc: Global, rules: Vec<Rule>) -> Result<Vec<Rule>, Memory>
    requires { AreNumbered 0 (map rule_of rules.items) }
    ensures { IfOk result (λ ranked. map rule_of ranked.items ≡ spec.in_rank (map rule_of rules.items)) }
{
    let by_rank = by_rank(alloc, rules)?;
    let mut ranked = Vec::new(alloc);
    for rule in by_rank.into_values() {
        ranked.push(rule)?;
    }
    Ok(ranked)
}

// Each rule by its rank.
fn by_rank(alloc: Global, rules: Vec<Rule>) -> Result<BTreeMap<Rank, Rule>, Memory>
    requires { AreNumbered 0 (map rule_of rules.items) }
    ensures { IfOk result (λ by_rank. ranked_rules by_rank.entries ≡ spec.in_rank (map rule_of rules.items)) }
{
    let mut left = rules;
    let mut by_rank = BTreeMap::new(alloc);
    while let Some(rule) = left.pop() {
        put(&mut by_rank, rule)?;
    }
    Ok(by_rank)
}

// Adds a rule that stands before all of these.
fn put(by_rank: &mut BTreeMap<Rank, Rule>, rule: Rule) -> Result<(), Memory>
    ensures rules { OnOk result (AreRanked (rule.order + 1) by_rank.old.entries → ranked_rules by_rank.new.entries ≡ spec.put_rule (rule_of rule) (ranked_rules by_rank.old.entries)) }
    ensures ranked { OnOk result (AreRanked (rule.order + 1) by_rank.old.entries → AreRanked rule.order by_rank.new.entries) }
{
    let rank = rank_of(&rule);
    let _ = by_rank.insert(rank, rule)?;
    Ok(())
}

fn rank_of(rule: &Rule) -> Rank
    ensures precedence { result.0.0 ≡ rule.now.precedence }
    ensures priority { result.1.0 ≡ rule.now.priority }
    ensures order { result.2.0 ≡ rule.now.order }
{
    (
        Reverse(rule.precedence),
        Reverse(rule.priority),
        Reverse(rule.order),
    )
}
