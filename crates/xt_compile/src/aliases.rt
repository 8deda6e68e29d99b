// The aliases that count (XSLT 1.0, section 7.1.1).
ghost use Rattle.std.specs.Prelude.{◌≡◌, ◌++◌, map, IfOk};
ghost use Rattle.std.specs.List.{list_any};
ghost use Rattle.spec_compile.specs.Sheet as spec;
ghost use Rattle.xt_syntax.specs.SheetView.{alias_of};

use std::alloc::Global;
use xt_syntax::Alias;
use xt_text::Memory;

/// Of the aliases of each URI, the last, in their order.
pub(crate) fn last_aliases(alloc: Global, aliases: Vec<Alias>) -> Result<Vec<Alias>, Memory>
    ensures { IfOk result (λ last. map alias_of last.items ≡ spec.last_aliases (map alias_of aliases.items)) }
{
    let mut left = aliases;
    let mut last: Vec<Alias> = Vec::new(alloc);
    while let Some(alias) = left.pop() {
        if !is_aliased(&alias, last.as_slice()) {
            last.push(alias)?;
        }
    }
    last.reverse();
    Ok(last)
}

// Whether one of these is of the same URI.
fn is_aliased(alias: &Alias, others: &[Alias]) -> bool
    ensures { result ≡ list_any (spec.is_alias_of (alias_of alias.now)) (map alias_of others.now) }
{
    for other in others {
        if alias.stylesheet.same(&other.stylesheet) {
            return true;
        }
    }
    false
}
