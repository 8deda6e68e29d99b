// The template rules of a template.
ghost use Rattle.std.specs.Prelude.{◌≡◌, ◌∷◌, [], ◌++◌, length, map, unwrap_or, IfOk, OnOk};
ghost use Rattle.std.specs.Option.{option_map};
ghost use Rattle.spec_compile.specs.Sheet as spec;
ghost use Rattle.xt_syntax.specs.PartView.{alternative_of, pattern_of};
ghost use Rattle.xt_syntax.specs.SheetView.{rule_of};
ghost use Rattle.xt_compile.specs.Rules.{rule_by, rules_by};

use std::alloc::Global;
use xt_names::{Expanded, copy_name_if};
use xt_pattern::priority as default_priority;
use xt_syntax::{Alternative, Pattern, Rule};
use xt_text::Memory;

/// What the rules of a template have in common.
#[derive(Drop)]
pub(crate) struct Common {
    pub precedence: u64,
    pub imported: u64,
    /// None for the default priority of each alternative (XSLT 1.0, section 5.5).
    pub priority: Option<i64>,
    pub mode: Option<Expanded>,
    /// Which unit the template is.
    pub unit: u64,
}

/// Adds the rules of a template with this pattern, one for each alternative, which is a template rule of its own (XSLT
/// 1.0, section 5.2).
pub(crate) fn add_rules(
    alloc: Global,
    rules: &mut Vec<Rule>,
    common: &Common,
    pattern: Option<Pattern>,
) -> Result<(), Memory>
    ensures { OnOk result (map rule_of rules.new.items ≡ map rule_of rules.old.items ++ rules_by common.now (length rules.old.items) (spec.alternatives_in (option_map pattern_of pattern))) }
{
    match pattern {
        None => Ok(()),
        Some(pattern) => add_alternatives(alloc, rules, common, pattern.alternatives),
    }
}

fn add_alternatives(
    alloc: Global,
    rules: &mut Vec<Rule>,
    common: &Common,
    alternatives: Vec<Alternative>,
) -> Result<(), Memory>
    ensures { OnOk result (map rule_of rules.new.items ≡ map rule_of rules.old.items ++ rules_by common.now (length rules.old.items) (map alternative_of alternatives.items)) }
{
    for alternative in alternatives {
        let order = rules.len() as u64;
        let rule = rule_for(alloc, common, order, alternative)?;
        rules.push(rule)?;
    }
    Ok(())
}

fn rule_for(
    alloc: Global,
    common: &Common,
    order: u64,
    alternative: Alternative,
) -> Result<Rule, Memory>
    ensures { IfOk result (λ rule. rule_of rule ≡ rule_by common.now order (alternative_of alternative)) }
{
    let priority = common.priority.unwrap_or(default_priority(&alternative));
    let pattern = pattern_alone(alloc, alternative)?;
    let mode = copy_name_if(alloc, &common.mode)?;
    Ok(Rule {
        pattern,
        precedence: common.precedence,
        imported: common.imported,
        priority,
        order,
        mode,
        unit: common.unit,
    })
}

// The pattern of this alternative alone.
fn pattern_alone(alloc: Global, alternative: Alternative) -> Result<Pattern, Memory>
    ensures { IfOk result (λ pattern. pattern_of pattern ≡ record { alternatives = alternative_of alternative ∷ [] }) }
{
    let mut alternatives = Vec::new(alloc);
    alternatives.push(alternative)?;
    Ok(Pattern { alternatives })
}
