// How xsl:number numbers (XSLT 1.0, section 7.7).
ghost use Rattle.std.specs.Prelude.{◌≡◌, IfOk};
ghost use Rattle.spec_compile.specs.Content as spec;
ghost use Rattle.xt_syntax.specs.PartView.{count_of, number_source_of, numbering_of};
ghost use Rattle.xt_attributes.specs.View.{entries_in};
ghost use Rattle.xt_content.specs.Kind.{counting};

use crate::value::{avt_at, is_text_at, take_avt, take_expr, take_pattern};
use std::alloc::Global;
use xt_attributes::Entries;
use xt_syntax::{Count, NumberLevel, NumberSource, Numbering};
use xt_text::Memory;

/// How an xsl:number with these attributes numbers.
pub(crate) fn numbering(alloc: Global, entries: &mut Entries) -> Result<Numbering, Memory>
    ensures { IfOk result (λ n. numbering_of n ≡ spec.numbering_of (entries_in entries.old)) }
{
    let format = avt_at(alloc, entries, "format", "1")?;
    let grouping_separator = take_avt(entries, "grouping-separator");
    let grouping_size = take_avt(entries, "grouping-size");
    let source = source(entries);
    Ok(Numbering {
        source,
        format,
        grouping_separator,
        grouping_size,
    })
}

// Where it has its numbers from.
fn source(entries: &mut Entries) -> NumberSource
    ensures { number_source_of result ≡ spec.source_of (entries_in entries.old) }
{
    match take_expr(entries, "value") {
        Some(value) => NumberSource::Value(value),
        None => NumberSource::Count(counting(entries)),
    }
}

fn counting(entries: &mut Entries) -> Count
    ensures { count_of result ≡ counting (entries_in entries.old) }
{
    let level = level(entries);
    let count = take_pattern(entries, "count");
    let from = take_pattern(entries, "from");
    Count { level, count, from }
}

fn level(entries: &Entries) -> NumberLevel
    ensures { result ≡ spec.level_of (entries_in entries.now) }
{
    if is_text_at(entries, "level", "multiple") {
        return NumberLevel::Multiple;
    }
    if is_text_at(entries, "level", "any") {
        NumberLevel::Any
    } else {
        NumberLevel::Single
    }
}
