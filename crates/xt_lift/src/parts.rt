// The variables that stand in value templates, sort keys and instructions, their contents aside.
ghost use Rattle.std.specs.Prelude.{◌≡◌, ◌++◌, OnOk, map};
ghost use Rattle.std.specs.Option.{option_map};
ghost use Rattle.spec_items.specs.Mentioned as definition;
ghost use Rattle.xt_lift.specs.Names.{key_names};
ghost use Rattle.xt_syntax.specs.PartView.{avt_of, avt_part_of, literal_attribute_of, made_name_of, number_source_of, numbering_of, sort_key_of, with_content_of, without_content_of};

use crate::expressions::{add_if, add_in, add_in_pattern};
use std::alloc::Global;
use xt_names::Expanded;
use xt_syntax::{
    Avt, AvtPart, LiteralAttribute, MadeName, NumberSource, Numbering, SortKey, WithContent,
    WithoutContent,
};
use xt_text::Memory;

fn add_in_part(alloc: Global, part: &AvtPart, into: &mut Vec<Expanded>) -> Result<(), Memory>
    ensures { OnOk result (into.new.items ≡ into.old.items ++ definition.names_in_part (avt_part_of part.now)) }
{
    match part {
        AvtPart::Text(_) => Ok(()),
        AvtPart::Expr(expr) => add_in(alloc, expr, into),
    }
}

fn add_in_avt(alloc: Global, avt: &Avt, into: &mut Vec<Expanded>) -> Result<(), Memory>
    ensures { OnOk result (into.new.items ≡ into.old.items ++ definition.names_in_avt (avt_of avt.now)) }
{
    for part in avt.parts.as_slice() {
        add_in_part(alloc, part, into)?;
    }
    Ok(())
}

fn add_if_avt(alloc: Global, avt: &Option<Avt>, into: &mut Vec<Expanded>) -> Result<(), Memory>
    ensures { OnOk result (into.new.items ≡ into.old.items ++ definition.names_if_avt (option_map avt_of avt.now)) }
{
    match avt {
        None => Ok(()),
        Some(avt) => add_in_avt(alloc, avt, into),
    }
}

// Adds those of a sort key.
fn add_in_key(alloc: Global, key: &SortKey, into: &mut Vec<Expanded>) -> Result<(), Memory>
    ensures { OnOk result (into.new.items ≡ into.old.items ++ key_names (sort_key_of key.now)) }
{
    add_in(alloc, &key.select, into)?;
    add_in_avt(alloc, &key.data_type, into)?;
    add_in_avt(alloc, &key.order, into)
}

/// Adds those of sort keys.
pub(crate) fn add_in_keys(
    alloc: Global,
    keys: &[SortKey],
    into: &mut Vec<Expanded>,
) -> Result<(), Memory>
    ensures { OnOk result (into.new.items ≡ into.old.items ++ definition.names_in_keys (map sort_key_of keys.now)) }
{
    for key in keys {
        add_in_key(alloc, key, into)?;
    }
    Ok(())
}

fn add_in_source(
    alloc: Global,
    source: &NumberSource,
    into: &mut Vec<Expanded>,
) -> Result<(), Memory>
    ensures { OnOk result (into.new.items ≡ into.old.items ++ definition.names_in_source (number_source_of source.now)) }
{
    match source {
        NumberSource::Value(value) => add_in(alloc, value, into),
        NumberSource::Count(count) => {
            add_in_pattern(alloc, &count.count, into)?;
            add_in_pattern(alloc, &count.from, into)
        }
    }
}

fn add_in_numbering(
    alloc: Global,
    numbering: &Numbering,
    into: &mut Vec<Expanded>,
) -> Result<(), Memory>
    ensures { OnOk result (into.new.items ≡ into.old.items ++ definition.names_in_numbering (numbering_of numbering.now)) }
{
    add_in_source(alloc, &numbering.source, into)?;
    add_in_avt(alloc, &numbering.format, into)?;
    add_if_avt(alloc, &numbering.grouping_separator, into)?;
    add_if_avt(alloc, &numbering.grouping_size, into)
}

fn add_in_made(alloc: Global, name: &MadeName, into: &mut Vec<Expanded>) -> Result<(), Memory>
    ensures { OnOk result (into.new.items ≡ into.old.items ++ definition.names_in_made (made_name_of name.now)) }
{
    add_in_avt(alloc, &name.name, into)?;
    add_if_avt(alloc, &name.namespace, into)
}

fn add_in_attributes(
    alloc: Global,
    attributes: &[LiteralAttribute],
    into: &mut Vec<Expanded>,
) -> Result<(), Memory>
    ensures { OnOk result (into.new.items ≡ into.old.items ++ definition.names_in_attributes (map literal_attribute_of attributes.now)) }
{
    for attribute in attributes {
        add_in_avt(alloc, &attribute.value, into)?;
    }
    Ok(())
}

/// Adds those of an instruction that has no content.
pub(crate) fn add_without(
    alloc: Global,
    what: &WithoutContent,
    into: &mut Vec<Expanded>,
) -> Result<(), Memory>
    ensures { OnOk result (into.new.items ≡ into.old.items ++ definition.names_without (without_content_of what.now)) }
{
    match what {
        WithoutContent::Text(_, _) => Ok(()),
        WithoutContent::ValueOf(select) => add_in(alloc, select, into),
        WithoutContent::CopyOf(select) => add_in(alloc, select, into),
        WithoutContent::Number(numbering) => add_in_numbering(alloc, numbering, into),
        WithoutContent::ApplyImports => Ok(()),
        WithoutContent::Fallback => Ok(()),
    }
}

/// Adds those of an instruction that makes something of its content, the content aside.
pub(crate) fn add_with(
    alloc: Global,
    what: &WithContent,
    into: &mut Vec<Expanded>,
) -> Result<(), Memory>
    ensures { OnOk result (into.new.items ≡ into.old.items ++ definition.names_with (with_content_of what.now)) }
{
    match what {
        WithContent::Literal(tag) => add_in_attributes(alloc, tag.attributes.as_slice(), into),
        WithContent::Element(name, _) => add_in_made(alloc, name, into),
        WithContent::Attribute(name) => add_in_made(alloc, name, into),
        WithContent::Comment => Ok(()),
        WithContent::ProcessingInstruction(target) => add_in_avt(alloc, target, into),
        WithContent::Copy(_) => Ok(()),
        WithContent::Variable(_, select) => add_if(alloc, select, into),
        WithContent::Message(_) => Ok(()),
    }
}
