// Lists of names.
ghost use Rattle.std.specs.Prelude.{◌≡◌, ◌++◌, ◌∷◌, [], OnOk};

use std::alloc::Global;
use xt_names::{Expanded, copy_name};
use xt_text::Memory;

/// Adds a name at the end.
pub(crate) fn add_name(
    alloc: Global,
    name: &Expanded,
    into: &mut Vec<Expanded>,
) -> Result<(), Memory>
    ensures { OnOk result (into.new.items ≡ into.old.items ++ name.now ∷ []) }
{
    let name = copy_name(alloc, name)?;
    into.push(name)?;
    Ok(())
}
