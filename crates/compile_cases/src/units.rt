// The units of a stylesheet: `(template name=NAME ..)`, `(variable ..)`, `(param ..)`, `(attribute-set NAME use=NAME ..)`
// and `(key NAME PATTERN TREE)`.
use crate::instructions::{push_binding, push_bindings, push_instrs};
use crate::parts::{Places, push_end, push_expr, push_head, push_named, push_place, push_sets};
use case_trees::push_pattern;
use cases::{part, push_name, push_number, push_part};
use xt_syntax::{AttributeSet, Declared, GlobalBinding, Key, Site, Template, Unit};
use xt_text::{Memory, Text};

/// Adds each unit, with its place and its precedence before it.
pub fn push_units(out: &mut Text, places: Places, units: &[Unit]) -> Result<(), Memory> {
    for unit in units {
        part(out)?;
        push_place(out, &unit.site.place)?;
        out.push('^')?;
        push_number(out, unit.precedence)?;
        push_declared(out, places, &unit.site, &unit.declared)?;
    }
    Ok(())
}

fn push_declared(
    out: &mut Text,
    places: Places,
    site: &Site,
    declared: &Declared,
) -> Result<(), Memory> {
    match declared {
        Declared::Template(template) => push_template(out, places, site, template),
        Declared::Global(global) => push_global(out, places, global),
        Declared::AttributeSet(set) => push_set(out, places, site, set),
        Declared::Key(key) => push_key(out, places, site, key),
    }
}

fn push_template(
    out: &mut Text,
    places: Places,
    site: &Site,
    template: &Template,
) -> Result<(), Memory> {
    push_head(out, places, "template", site)?;
    push_named(out, "name", &template.name)?;
    push_held(out, places, template)?;
    push_end(out)
}

// Adds what a template holds.
fn push_held(out: &mut Text, places: Places, template: &Template) -> Result<(), Memory> {
    push_bindings(out, places, "param", template.parameters.as_slice())?;
    push_instrs(out, places, template.content.as_slice())
}

fn push_global(out: &mut Text, places: Places, global: &GlobalBinding) -> Result<(), Memory> {
    let kind = if global.is_parameter {
        "param"
    } else {
        "variable"
    };
    push_binding(out, places, kind, &global.binding)
}

fn push_set(out: &mut Text, places: Places, site: &Site, set: &AttributeSet) -> Result<(), Memory> {
    push_head(out, places, "attribute-set", site)?;
    part(out)?;
    push_name(out, &set.name)?;
    push_sets(out, set.sets.as_slice())?;
    push_instrs(out, places, set.attributes.as_slice())?;
    push_end(out)
}

fn push_key(out: &mut Text, places: Places, site: &Site, key: &Key) -> Result<(), Memory> {
    push_head(out, places, "key", site)?;
    part(out)?;
    push_name(out, &key.name)?;
    part(out)?;
    push_pattern(out, &key.pattern)?;
    push_expr(out, &key.value)?;
    push_end(out)
}

/// Adds what each template holds.
pub fn push_contents(out: &mut Text, units: &[Unit]) -> Result<(), Memory> {
    for unit in units {
        match &unit.declared {
            Declared::Template(template) => push_held(out, Places::Hidden, template)?,
            Declared::Global(_) => {}
            Declared::AttributeSet(_) => {}
            Declared::Key(_) => {}
        }
    }
    Ok(())
}
