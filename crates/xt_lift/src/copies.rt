// Copies of the trees of a stylesheet, for what is rewritten in part. Texts, namespaces in scope, sort keys and contents
// are shared with what is copied, so the copy of an instruction takes no more than its own level does.
ghost use Rattle.std.specs.Prelude.{◌≡◌, map, IfOk};
ghost use Rattle.std.specs.Option.{option_map};

mod expr;
mod literal;
mod name;
mod number;
mod pattern;
mod selection;
mod site;
mod template;
mod what;

pub(crate) use expr::copy_expr;
pub(crate) use name::copy_names;
pub(crate) use selection::{copy_selection, copy_sort_keys};
pub(crate) use site::copy_site;
use std::alloc::Global;
pub(crate) use what::{copy_with_content, copy_without_content};
use xt_text::Memory;

/// What can be copied.
pub(crate) trait Copied: Drop {
    /// What it is to the definitions.
    ghost Seen: { Type 0 };

    ghost seen: { Self → Seen };

    /// One that stands for the same tree.
    fn copied(&self, alloc: Global) -> Result<Self, Memory>
        ensures { IfOk result (λ copy. seen copy ≡ seen self.now) };
}

/// A list of copies, in their order.
pub(crate) fn copy_all<T: Copied>(alloc: Global, list: &[T]) -> Result<Vec<T>, Memory>
    ensures { IfOk result (λ copies. map T.seen copies.items ≡ map T.seen list.now) }
{
    let mut copies = Vec::new(alloc);
    for one in list {
        let copy = one.copied(alloc)?;
        copies.push(copy)?;
    }
    Ok(copies)
}

/// A copy, where there is something to copy.
pub(crate) fn copy_if<T: Copied>(alloc: Global, one: &Option<T>) -> Result<Option<T>, Memory>
    ensures { IfOk result (λ copy. option_map T.seen copy ≡ option_map T.seen one.now) }
{
    match one {
        None => Ok(None),
        Some(one) => Ok(Some(one.copied(alloc)?)),
    }
}
