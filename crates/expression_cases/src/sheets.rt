// Stylesheets. `sheets-differ CHANGE..` tells whether each stylesheet is the same as itself and as no other
// one: they are one stylesheet, with a rule, a template, a global binding, an attribute set, a key, a space
// rule, an output method and an alias, each changed at one place, `none` without a change.

use crate::answer_yes;
use crate::instructions::{binding, content, differ, name, nowhere};
use crate::trees::parsed;
use cases::{Fault, Word, one, text_of};
use std::alloc::Global;
use std::rc::Rc;
use xt_names::Expanded;
use xt_syntax::{
    Alias, Alternative, AttributeSet, Axis, Declared, GlobalBinding, Key, Method, Pattern,
    PatternStep, Rule, Rules, Separator, Sheet, SpaceRule, SpaceRules, Start, Step, Template, Test,
    Unit,
};
use xt_text::{Memory, Text};

/// Answers the call, if it is one of these.
pub fn answer(alloc: Global, out: &mut Text, call: &str, words: &[Word]) -> Result<bool, Fault> {
    match call {
        "instructions-differ" => answer_yes(out, differ(alloc, words)?),
        "sheets-differ" => answer_yes(out, sheets_differ(alloc, words)?),
        _ => Ok(false),
    }
}

fn sheets_differ(alloc: Global, words: &[Word]) -> Result<bool, Fault> {
    let mut sheets = Vec::new(alloc);
    for word in words {
        let sheet = sheet(alloc, text_of(word)?)?;
        sheets.push(sheet)?;
    }
    Ok(all_differ(sheets.as_slice()))
}

fn all_differ(sheets: &[Sheet]) -> bool {
    for (index, sheet) in sheets.iter().enumerate() {
        for (other_index, other) in sheets.iter().enumerate() {
            if sheet.same(other) != (index == other_index) {
                return false;
            }
        }
    }
    true
}

fn sheet(alloc: Global, change: &str) -> Result<Sheet, Fault> {
    let units = units(alloc, change)?;
    let rules = one(alloc, rule(alloc, change)?)?;
    let space_rules = one(alloc, space_rule(change))?;
    let aliases = one(alloc, alias(alloc, change)?)?;
    let method = method(alloc, change)?;
    Ok(Sheet {
        units,
        rules: Rules { rules },
        space_rules: SpaceRules { rules: space_rules },
        method,
        aliases,
    })
}

// The one number where the change is this one, else the other.
fn number(change: &str, wanted: &str) -> u64 {
    if change == wanted { 2 } else { 1 }
}

fn word<'a>(change: &str, wanted: &str, changed: &'a str, usual: &'a str) -> &'a str {
    if change == wanted { changed } else { usual }
}

fn units(alloc: Global, change: &str) -> Result<Vec<Unit>, Fault> {
    let mut units = Vec::new(alloc);
    let template = template(alloc, change)?;
    push_unit(alloc, &mut units, change, Declared::Template(template))?;
    let global = global(alloc, change)?;
    push_unit(alloc, &mut units, change, Declared::Global(global))?;
    let set = attribute_set(alloc, change)?;
    push_unit(alloc, &mut units, change, Declared::AttributeSet(set))?;
    let key = key(alloc, change)?;
    push_unit(alloc, &mut units, change, Declared::Key(key))?;
    Ok(units)
}

fn push_unit(
    alloc: Global,
    units: &mut Vec<Unit>,
    change: &str,
    declared: Declared,
) -> Result<(), Memory> {
    match nowhere(alloc) {
        Ok(site) => {
            let precedence = number(change, "unit-precedence");
            units.push(Unit {
                site,
                precedence,
                declared,
            })?;
            Ok(())
        }
        Err(memory) => {
            drop(declared);
            Err(memory)
        }
    }
}

fn template(alloc: Global, change: &str) -> Result<Template, Fault> {
    let parameter = binding(alloc, word(change, "parameter", "2", "1"))?;
    let parameters = one(alloc, parameter)?;
    let parameters = Rc::new(alloc, parameters)?;
    let content = content(alloc)?;
    let name = name(alloc, word(change, "template-name", "u", "t"))?;
    Ok(Template {
        name: Some(name),
        parameters,
        content,
    })
}

fn global(alloc: Global, change: &str) -> Result<GlobalBinding, Fault> {
    let binding = binding(alloc, word(change, "global", "2", "1"))?;
    Ok(GlobalBinding {
        is_parameter: change == "is-parameter",
        binding,
    })
}

fn attribute_set(alloc: Global, change: &str) -> Result<AttributeSet, Memory> {
    let attributes = Rc::new(alloc, Vec::new(alloc))?;
    let used = name(alloc, word(change, "used-set", "y", "x"))?;
    let sets = one(alloc, used)?;
    let name = name(alloc, word(change, "set-name", "t", "s"))?;
    Ok(AttributeSet {
        name,
        sets,
        attributes,
    })
}

fn key(alloc: Global, change: &str) -> Result<Key, Fault> {
    let pattern = pattern(alloc, "none")?;
    let name = name(alloc, word(change, "key-name", "l", "k"))?;
    let value = parsed(alloc, word(change, "key-value", "@j", "@i"))?;
    Ok(Key {
        name,
        pattern,
        value,
    })
}

fn pattern(alloc: Global, change: &str) -> Result<Pattern, Memory> {
    let steps = one(alloc, pattern_step(alloc, change)?)?;
    let start = start(alloc, change)?;
    let alternatives = one(alloc, Alternative { start, steps })?;
    Ok(Pattern { alternatives })
}

fn pattern_step(alloc: Global, change: &str) -> Result<PatternStep, Memory> {
    let name = name(alloc, word(change, "step", "b", "a"))?;
    Ok(PatternStep {
        separator: separator(change),
        step: Step {
            axis: Axis::Child,
            test: Test::Named(name),
            predicates: Vec::new(alloc),
        },
    })
}

fn separator(change: &str) -> Separator {
    if change == "separator" {
        Separator::Descendant
    } else {
        Separator::Child
    }
}

fn start(alloc: Global, change: &str) -> Result<Start, Memory> {
    match change {
        "root" => Ok(Start::Root),
        "id" => Ok(Start::Id(Text::from_str(alloc, "i")?)),
        "key" => {
            let name = name(alloc, "k")?;
            let value = Text::from_str(alloc, "i")?;
            Ok(Start::Key(Some(name), value))
        }
        "nameless-key" => Ok(Start::Key(None, Text::from_str(alloc, "i")?)),
        _ => Ok(Start::Anywhere),
    }
}

fn rule(alloc: Global, change: &str) -> Result<Rule, Memory> {
    let pattern = pattern(alloc, change)?;
    let mode = mode(alloc, change)?;
    Ok(Rule {
        pattern,
        precedence: number(change, "precedence"),
        imported: number(change, "imported"),
        priority: priority(change),
        order: number(change, "order"),
        mode,
        unit: number(change, "unit"),
    })
}

fn priority(change: &str) -> i64 {
    if change == "priority" {
        -500_000
    } else {
        500_000
    }
}

fn mode(alloc: Global, change: &str) -> Result<Option<Expanded>, Memory> {
    if change == "mode" {
        Ok(Some(name(alloc, "m")?))
    } else {
        Ok(None)
    }
}

fn space_rule(change: &str) -> SpaceRule {
    SpaceRule {
        test: Test::AnyName,
        precedence: number(change, "space-precedence"),
        priority: space_priority(change),
        strips: change != "preserves",
    }
}

fn space_priority(change: &str) -> i64 {
    if change == "space-priority" {
        0
    } else {
        -500_000
    }
}

fn method(alloc: Global, change: &str) -> Result<Option<Method>, Memory> {
    match change {
        "xml" => Ok(Some(Method::Xml)),
        "html" => Ok(Some(Method::Html)),
        "text" => Ok(Some(Method::Text)),
        "other-method" => Ok(Some(Method::Other(name(alloc, "m")?))),
        _ => Ok(None),
    }
}

fn alias(alloc: Global, change: &str) -> Result<Alias, Memory> {
    let stylesheet = Text::from_str(alloc, word(change, "alias-uri", "urn:2", "urn:1"))?;
    let prefix = Text::from_str(alloc, word(change, "alias-prefix", "q", "p"))?;
    let result = Text::from_str(alloc, word(change, "alias-result", "urn:4", "urn:3"))?;
    Ok(Alias {
        stylesheet,
        prefix,
        result,
    })
}
