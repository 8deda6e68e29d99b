// Copies of what xsl:apply-templates selects, and of sort keys.
ghost use Rattle.std.specs.Prelude.{◌≡◌, IfOk};
ghost use Rattle.xt_syntax.specs.InstrView.{selection_of};

use crate::copies::expr::copy_expr;
use std::alloc::Global;
use std::rc::Rc;
use xt_names::copy_name_if;
use xt_syntax::{Selection, SortKey};
use xt_text::Memory;

/// The same selection.
pub(crate) fn copy_selection(alloc: Global, selection: &Selection) -> Result<Selection, Memory>
    ensures { IfOk result (λ copy. selection_of copy ≡ selection_of selection.now) }
{
    let select = copy_expr(alloc, &selection.select)?;
    let mode = copy_name_if(alloc, &selection.mode)?;
    let keys = copy_sort_keys(&selection.keys)?;
    Ok(Selection { select, mode, keys })
}

/// The same sort keys, shared.
pub(crate) fn copy_sort_keys(keys: &Rc<Vec<SortKey>>) -> Result<Rc<Vec<SortKey>>, Memory>
    ensures { IfOk result (λ copy. copy.value ≡ keys.now.value) }
{
    Ok(keys.clone()?)
}
