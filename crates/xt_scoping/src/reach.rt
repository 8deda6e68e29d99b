// Attribute sets that use themselves.
ghost use Rattle.std.specs.Prelude.{◌≡◌, IfOk};
ghost use Rattle.spec_compile.specs.Scoping.{is_named};
ghost use Rattle.xt_scoping.specs.Reach.{reached_by, used_in};

use crate::graph::{Graph, see};
use crate::names::Names;
use std::alloc::Global;
use xt_syntax::AttributeSet;
use xt_text::Memory;

/// Whether the names that the set uses lead back to its own in at most so many steps. In each round what is new is
/// used once.
pub(crate) fn leads_back<'a>(
    alloc: Global,
    graph: &Graph<'a>,
    rounds: usize,
    set: &'a AttributeSet,
) -> Result<bool, Memory>
    ensures { IfOk result (λ leads. leads ≡ is_named (reached_by (used_in graph.now) rounds set.now.sets.items) set.now.name) }
{
    let mut seen = Names::new(alloc);
    let mut new = Vec::new(alloc);
    see(set.sets.as_slice(), &mut seen, &mut new)?;
    for _round in 0..rounds {
        if new.is_empty() {
            return Ok(seen.has(&set.name));
        }
        new = graph.next(alloc, new.as_slice(), &mut seen)?;
    }
    Ok(seen.has(&set.name))
}
