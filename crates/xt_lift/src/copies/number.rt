// Copies of what an xsl:number says.
ghost use Rattle.std.specs.Prelude.{◌≡◌, IfOk};
ghost use Rattle.xt_syntax.specs.PartView.{count_of, number_source_of, numbering_of};

use crate::copies::copy_if;
use crate::copies::expr::copy_expr;
use crate::copies::template::copy_avt;
use std::alloc::Global;
use xt_syntax::{Count, NumberSource, Numbering};
use xt_text::Memory;

/// The same numbering.
pub(crate) fn copy_numbering(alloc: Global, numbering: &Numbering) -> Result<Numbering, Memory>
    ensures { IfOk result (λ copy. numbering_of copy ≡ numbering_of numbering.now) }
{
    let source = copy_source(alloc, &numbering.source)?;
    let format = copy_avt(alloc, &numbering.format)?;
    let grouping_separator = copy_if(alloc, &numbering.grouping_separator)?;
    let grouping_size = copy_if(alloc, &numbering.grouping_size)?;
    Ok(Numbering {
        source,
        format,
        grouping_separator,
        grouping_size,
    })
}

fn copy_source(alloc: Global, source: &NumberSource) -> Result<NumberSource, Memory>
    ensures { IfOk result (λ copy. number_source_of copy ≡ number_source_of source.now) }
{
    match source {
        NumberSource::Value(value) => Ok(NumberSource::Value(copy_expr(alloc, value)?)),
        NumberSource::Count(count) => Ok(NumberSource::Count(copy_count(alloc, count)?)),
    }
}

fn copy_count(alloc: Global, counted: &Count) -> Result<Count, Memory>
    ensures { IfOk result (λ copy. count_of copy ≡ count_of counted.now) }
{
    let count = copy_if(alloc, &counted.count)?;
    let from = copy_if(alloc, &counted.from)?;
    Ok(Count {
        level: counted.level,
        count,
        from,
    })
}
