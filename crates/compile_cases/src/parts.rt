// The parts of instructions: a tree as it is, a value template as `NAME=VALUE`, where a value is texts in quotes and
// trees in braces, the names of attribute sets as `use=NAME`, and a place as `main/1/2`.
use case_trees::{push_avt_part, push_pattern, push_tree};
use cases::{part, push_name, push_number, push_part};
use xt_names::Expanded;
use xt_syntax::{
    Avt, Count, Expr, LiteralAttribute, LiteralTag, MadeName, Namespace, NumberLevel, NumberSource,
    Numbering, Pattern, Place, Site, SortKey,
};
use xt_text::{Memory, Text};

/// Whether the places of elements are printed.
#[derive(Clone, Copy)]
pub enum Places {
    Shown,
    Hidden,
}

/// Adds where something stands.
pub fn push_place(out: &mut Text, place: &Place) -> Result<(), Memory> {
    match &place.module {
        None => out.push('-')?,
        Some(module) => out.push_str(module.as_str())?,
    }
    for position in place.path.positions() {
        out.push('/')?;
        push_number(out, *position)?;
    }
    Ok(())
}

/// Adds the place of an element behind `@`, where places are shown.
pub fn push_place_of(out: &mut Text, places: Places, site: &Site) -> Result<(), Memory> {
    match places {
        Places::Hidden => Ok(()),
        Places::Shown => {
            out.push('@')?;
            push_place(out, &site.place)
        }
    }
}

/// Begins the form of an element.
pub fn push_head(out: &mut Text, places: Places, kind: &str, site: &Site) -> Result<(), Memory> {
    push_part(out, "(")?;
    out.push_str(kind)?;
    push_place_of(out, places, site)
}

/// Ends the form of an element.
pub fn push_end(out: &mut Text) -> Result<(), Memory> {
    out.push(')')
}

/// Adds an expression.
pub fn push_expr(out: &mut Text, expr: &Expr) -> Result<(), Memory> {
    part(out)?;
    push_tree(out, expr)
}

/// Adds the name that something has under this word, where it is there.
pub fn push_named(out: &mut Text, word: &str, name: &Option<Expanded>) -> Result<(), Memory> {
    match name {
        None => Ok(()),
        Some(name) => push_word_and_name(out, word, name),
    }
}

fn push_word_and_name(out: &mut Text, word: &str, name: &Expanded) -> Result<(), Memory> {
    push_part(out, word)?;
    out.push('=')?;
    push_name(out, name)
}

/// Adds the names of attribute sets.
pub fn push_sets(out: &mut Text, sets: &[Expanded]) -> Result<(), Memory> {
    for set in sets {
        push_word_and_name(out, "use", set)?;
    }
    Ok(())
}

/// Adds the name of a binding, and what it selects.
pub fn push_bound(out: &mut Text, name: &Expanded, select: &Option<Expr>) -> Result<(), Memory> {
    part(out)?;
    push_name(out, name)?;
    match select {
        None => Ok(()),
        Some(select) => {
            push_part(out, "=")?;
            push_tree(out, select)
        }
    }
}

// ---- Value templates

/// Adds a value template under this word.
pub fn push_avt(out: &mut Text, word: &str, avt: &Avt) -> Result<(), Memory> {
    push_part(out, word)?;
    out.push('=')?;
    push_value(out, avt)
}

fn push_avt_if(out: &mut Text, word: &str, avt: &Option<Avt>) -> Result<(), Memory> {
    match avt {
        None => Ok(()),
        Some(avt) => push_avt(out, word, avt),
    }
}

fn push_value(out: &mut Text, avt: &Avt) -> Result<(), Memory> {
    if avt.parts.is_empty() {
        return out.push_str("\"\"");
    }
    for avt_part in avt.parts.as_slice() {
        push_avt_part(out, avt_part)?;
    }
    Ok(())
}

/// Adds the name that an instruction makes.
pub fn push_made_name(out: &mut Text, name: &MadeName) -> Result<(), Memory> {
    push_avt(out, "name", &name.name)?;
    push_avt_if(out, "namespace", &name.namespace)
}

// ---- Literal result elements

/// Adds the name of a literal result element, its namespaces, its attribute sets and its attributes.
pub fn push_literal(out: &mut Text, tag: &LiteralTag) -> Result<(), Memory> {
    part(out)?;
    push_prefixed(out, &tag.prefix, &tag.name)?;
    for namespace in tag.namespaces.as_slice() {
        push_namespace(out, namespace)?;
    }
    push_sets(out, tag.sets.as_slice())?;
    for attribute in tag.attributes.as_slice() {
        push_literal_attribute(out, attribute)?;
    }
    Ok(())
}

fn push_prefixed(out: &mut Text, prefix: &Text, name: &Expanded) -> Result<(), Memory> {
    if !prefix.is_empty() {
        out.push_str(prefix.as_str())?;
        out.push(':')?;
    }
    push_name(out, name)
}

// Adds a namespace; that of the prefix xml is always the same.
fn push_namespace(out: &mut Text, namespace: &Namespace) -> Result<(), Memory> {
    push_part(out, "+")?;
    out.push_str(namespace.prefix.as_str())?;
    if namespace.prefix.is("xml") {
        return Ok(());
    }
    out.push('=')?;
    out.push_str(namespace.uri.as_str())
}

fn push_literal_attribute(out: &mut Text, attribute: &LiteralAttribute) -> Result<(), Memory> {
    push_part(out, "@")?;
    push_prefixed(out, &attribute.prefix, &attribute.name)?;
    out.push('=')?;
    push_value(out, &attribute.value)
}

// ---- Sort keys and numbers

/// Adds sort keys.
pub fn push_sort_keys(out: &mut Text, places: Places, keys: &[SortKey]) -> Result<(), Memory> {
    for key in keys {
        push_head(out, places, "sort", &key.site)?;
        push_expr(out, &key.select)?;
        push_avt(out, "data-type", &key.data_type)?;
        push_avt(out, "order", &key.order)?;
        push_end(out)?;
    }
    Ok(())
}

/// Adds the parts of an xsl:number.
pub fn push_numbering(out: &mut Text, numbering: &Numbering) -> Result<(), Memory> {
    match &numbering.source {
        NumberSource::Value(value) => push_expr(out, value)?,
        NumberSource::Count(count) => push_count(out, count)?,
    }
    push_avt(out, "format", &numbering.format)?;
    push_avt_if(out, "separator", &numbering.grouping_separator)?;
    push_avt_if(out, "size", &numbering.grouping_size)
}

fn push_count(out: &mut Text, count: &Count) -> Result<(), Memory> {
    push_part(out, level_word(count.level))?;
    push_pattern_if(out, "count=", &count.count)?;
    push_pattern_if(out, "from=", &count.from)
}

fn level_word(level: NumberLevel) -> &'static str {
    match level {
        NumberLevel::Single => "single",
        NumberLevel::Multiple => "multiple",
        NumberLevel::Any => "any",
    }
}

fn push_pattern_if(out: &mut Text, word: &str, pattern: &Option<Pattern>) -> Result<(), Memory> {
    match pattern {
        None => Ok(()),
        Some(pattern) => {
            push_part(out, word)?;
            push_pattern(out, pattern)
        }
    }
}
