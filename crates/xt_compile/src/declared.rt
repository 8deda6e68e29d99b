// What a stylesheet declares, put together in its order.
ghost use Rattle.std.specs.Prelude.{◌≡◌, ◌++◌, ◌∷◌, [], None, length, map, IfOk, OnOk};
ghost use Rattle.std.specs.List.{flat_map};
ghost use Rattle.std.specs.Option.{option_map};
ghost use Rattle.spec_compile.specs.Sheet as spec;
ghost use Rattle.spec_stylesheet.specs.Sheet as sheet;
ghost use Rattle.xt_syntax.specs.PartView.{pattern_of, site_of};
ghost use Rattle.xt_syntax.specs.SheetView.{alias_of, declared_of, rule_of, sheet_of, space_rule_of, template_of, unit_of};
ghost use Rattle.xt_syntax.specs.View.{test_of};
ghost use Rattle.xt_compile.specs.Rules.{method_or, rules_by};
ghost use Rattle.xt_compile.specs.Space.{space_rule};
ghost use Rattle.xt_scoping.specs.View.{ranked_in};

use crate::aliases::last_aliases;
use crate::rules::{Common, add_rules};
use crate::space::add_space_rules;
use std::alloc::Global;
use xt_rank::in_rank;
use xt_scoping::Ranked;
use xt_syntax::{
    Alias, Declared as UnitKind, Method, Rule, Rules, Sheet, Site, SpaceRule, SpaceRules, Unit,
};
use xt_text::Memory;
use xt_top_level::{Declaration, NamedSpace, RuleTemplate};

/// What the elements at the top of a stylesheet declare, so far.
#[derive(Drop)]
pub(crate) struct Declared {
    units: Vec<Unit>,
    rules: Vec<Rule>,
    space_rules: Vec<SpaceRule>,
    method: Option<Method>,
    aliases: Vec<Alias>,
}

/// The stylesheet of these elements, which are in stylesheet order.
pub(crate) fn sheet_of(alloc: Global, ranked: Vec<Ranked>) -> Result<Sheet, Memory>
    ensures { IfOk result (λ sheet. sheet_of sheet ≡ spec.sheet_of (map ranked_in ranked.items)) }
{
    let declared = declared_by(alloc, ranked)?;
    let Ok(rules) = in_rank(alloc, declared.rules) else {
        drop(declared.method);
        return Err(Memory);
    };
    let Ok(aliases) = last_aliases(alloc, declared.aliases) else {
        drop(declared.method);
        return Err(Memory);
    };
    Ok(Sheet {
        units: declared.units,
        rules: Rules { rules },
        space_rules: SpaceRules {
            rules: declared.space_rules,
        },
        method: declared.method,
        aliases,
    })
}

fn declared_by(alloc: Global, ranked: Vec<Ranked>) -> Result<Declared, Memory>
    ensures units { IfOk result (λ d. map unit_of d.units.items ≡ spec.units_of (map ranked_in ranked.items)) }
    ensures rules { IfOk result (λ d. map rule_of d.rules.items ≡ spec.rules_from 0 0 (map ranked_in ranked.items)) }
    ensures space_rules { IfOk result (λ d. map space_rule_of d.space_rules.items ≡ flat_map (λ r. spec.space_rules_by r r.top_level.declaration) (map ranked_in ranked.items)) }
    ensures method { IfOk result (λ d. d.method ≡ spec.last_method None (map ranked_in ranked.items)) }
    ensures aliases { IfOk result (λ d. map alias_of d.aliases.items ≡ flat_map (λ r. spec.alias_in r.top_level.declaration) (map ranked_in ranked.items)) }
{
    let mut declared = nothing(alloc);
    for ranked in ranked {
        let Ok(()) = declare(alloc, &mut declared, ranked) else {
            drop(declared.method);
            return Err(Memory);
        };
    }
    Ok(declared)
}

fn nothing(alloc: Global) -> Declared
    ensures units { result.units.items ≡ [] }
    ensures rules { result.rules.items ≡ [] }
    ensures space_rules { result.space_rules.items ≡ [] }
    ensures method { result.method ≡ None }
    ensures aliases { result.aliases.items ≡ [] }
{
    Declared {
        units: Vec::new(alloc),
        rules: Vec::new(alloc),
        space_rules: Vec::new(alloc),
        method: None,
        aliases: Vec::new(alloc),
    }
}

// Adds what an element declares.
fn declare(alloc: Global, declared: &mut Declared, ranked: Ranked) -> Result<(), Memory>
    ensures units { OnOk result (map unit_of declared.new.units.items ≡ map unit_of declared.old.units.items ++ spec.unit_by (ranked_in ranked) (ranked_in ranked).top_level.declaration) }
    ensures rules { OnOk result (map rule_of declared.new.rules.items ≡ map rule_of declared.old.rules.items ++ spec.rules_by (ranked_in ranked) (length declared.old.units.items) (length declared.old.rules.items) (ranked_in ranked).top_level.declaration) }
    ensures space_rules { OnOk result (map space_rule_of declared.new.space_rules.items ≡ map space_rule_of declared.old.space_rules.items ++ spec.space_rules_by (ranked_in ranked) (ranked_in ranked).top_level.declaration) }
    ensures method { OnOk result (declared.new.method ≡ spec.last_method declared.old.method (ranked_in ranked ∷ [])) }
    ensures aliases { OnOk result (map alias_of declared.new.aliases.items ≡ map alias_of declared.old.aliases.items ++ spec.alias_in (ranked_in ranked).top_level.declaration) }
{
    let precedence = ranked.precedence;
    let imported = ranked.imported;
    let top_level = ranked.top_level;
    let site = top_level.site;
    let declaration = top_level.declaration;
    drop(top_level.uses);
    drop(top_level.outline);
    match declaration {
        Declaration::Template(template) => {
            add_template(alloc, declared, precedence, imported, site, template)
        }
        Declaration::Global(global) => add_unit(
            declared,
            precedence,
            site,
            UnitKind::Global(global),
        ),
        Declaration::Set(set) => add_unit(declared, precedence, site, UnitKind::AttributeSet(set)),
        Declaration::Key(key) => add_unit(declared, precedence, site, UnitKind::Key(key)),
        Declaration::SpaceRule(space) => {
            drop(site);
            add_space(declared, precedence, space)
        }
        Declaration::Output(method) => {
            drop(site);
            set_method(declared, method);
            Ok(())
        }
        Declaration::Alias(alias) => {
            drop(site);
            add_alias(declared, alias)
        }
    }
}

// Adds a template, and a rule for each alternative of its pattern.
fn add_template(
    alloc: Global,
    declared: &mut Declared,
    precedence: u64,
    imported: u64,
    site: Site,
    template: RuleTemplate,
) -> Result<(), Memory>
    ensures units { OnOk result (map unit_of declared.new.units.items ≡ map unit_of declared.old.units.items ++ record { site = site_of site; precedence = precedence; declared = sheet.ATemplate (template_of template.template) } ∷ []) }
    ensures rules { OnOk result (map rule_of declared.new.rules.items ≡ map rule_of declared.old.rules.items ++ rules_by (record { precedence = precedence; imported = imported; priority = template.priority; mode = template.mode; unit = length declared.old.units.items }) (length declared.old.rules.items) (spec.alternatives_in (option_map pattern_of template.pattern))) }
    ensures space_rules { declared.new.space_rules ≡ declared.old.space_rules }
    ensures method { declared.new.method ≡ declared.old.method }
    ensures aliases { declared.new.aliases ≡ declared.old.aliases }
{
    let common = Common {
        precedence,
        imported,
        priority: template.priority,
        mode: template.mode,
        unit: declared.units.len() as u64,
    };
    let unit = UnitKind::Template(template.template);
    let Ok(()) = add_unit(declared, precedence, site, unit) else {
        drop(common.mode);
        drop(template.pattern);
        return Err(Memory);
    };
    let added = add_rules(alloc, &mut declared.rules, &common, template.pattern);
    drop(common.mode);
    added
}

fn add_unit(
    declared: &mut Declared,
    precedence: u64,
    site: Site,
    unit: UnitKind,
) -> Result<(), Memory>
    ensures units { OnOk result (map unit_of declared.new.units.items ≡ map unit_of declared.old.units.items ++ record { site = site_of site; precedence = precedence; declared = declared_of unit } ∷ []) }
    ensures rules { declared.new.rules ≡ declared.old.rules }
    ensures space_rules { declared.new.space_rules ≡ declared.old.space_rules }
    ensures method { declared.new.method ≡ declared.old.method }
    ensures aliases { declared.new.aliases ≡ declared.old.aliases }
{
    declared.units.push(Unit {
        site,
        precedence,
        declared: unit,
    })?;
    Ok(())
}

fn add_space(declared: &mut Declared, precedence: u64, space: NamedSpace) -> Result<(), Memory>
    ensures units { declared.new.units ≡ declared.old.units }
    ensures rules { declared.new.rules ≡ declared.old.rules }
    ensures space_rules { OnOk result (map space_rule_of declared.new.space_rules.items ≡ map space_rule_of declared.old.space_rules.items ++ map (space_rule precedence space.strips) (map test_of space.tests.items)) }
    ensures method { declared.new.method ≡ declared.old.method }
    ensures aliases { declared.new.aliases ≡ declared.old.aliases }
{
    add_space_rules(
        &mut declared.space_rules,
        precedence,
        space.strips,
        space.tests,
    )
}

// Of two methods the later counts, where it is there.
fn set_method(declared: &mut Declared, method: Option<Method>)
    ensures units { declared.new.units ≡ declared.old.units }
    ensures rules { declared.new.rules ≡ declared.old.rules }
    ensures space_rules { declared.new.space_rules ≡ declared.old.space_rules }
    ensures method { declared.new.method ≡ method_or declared.old.method method }
    ensures aliases { declared.new.aliases ≡ declared.old.aliases }
{
    match method {
        None => {}
        Some(method) => declared.method = Some(method),
    }
}

fn add_alias(declared: &mut Declared, alias: Alias) -> Result<(), Memory>
    ensures units { declared.new.units ≡ declared.old.units }
    ensures rules { declared.new.rules ≡ declared.old.rules }
    ensures space_rules { declared.new.space_rules ≡ declared.old.space_rules }
    ensures method { declared.new.method ≡ declared.old.method }
    ensures aliases { OnOk result (map alias_of declared.new.aliases.items ≡ map alias_of declared.old.aliases.items ++ alias_of alias ∷ []) }
{
    declared.aliases.push(alias)?;
    Ok(())
}
