// Parts in place of holes, however many there are of either.
ghost use Rattle.std.specs.Prelude.{◌≡◌, [], length, drop, IfOk};
ghost use Rattle.spec_meaning.specs.Stream.{filled, first_of};
ghost use Rattle.xt_tree.specs.StreamView.{stream_of, streams_of};
ghost use Rattle.xt_streams.specs.Parts.{as_many};

use crate::count_holes;
use std::alloc::Global;
use std::rc::Rc;
use xt_text::Memory;
use xt_tree::{Fragment, Items};

/// The stream with the parts in place of its holes, in order: nothing for those that are left when there are
/// no more parts. The parts are shared, and so is what has no holes.
///
/// # Errors
/// Want of memory.
pub fn fill(alloc: Global, items: &Items, parts: &[Rc<Items>]) -> Result<Rc<Items>, Memory>
    ensures { IfOk result (λ whole. stream_of whole.value ≡ filled (stream_of items.now) (streams_of parts.now)) }
{
    let count = count_holes(items)?;
    if count == parts.len() {
        return items.fill(alloc, parts);
    }
    let enough = as_many(alloc, count, parts)?;
    items.fill(alloc, enough.as_slice())
}

/// The fragment of a stream, with nothing in place of its holes. Where it has none it is shared.
///
/// # Errors
/// Want of memory.
pub fn fragment_of(alloc: Global, items: &Rc<Items>) -> Result<Fragment, Memory>
    ensures { IfOk result (λ f. f ≡ filled (stream_of items.now.value) []) }
{
    if count_holes(items)? == 0 {
        return Ok(Fragment::new(items.clone()?));
    }
    let none = Vec::new(alloc);
    let whole = fill(alloc, items, none.as_slice())?;
    Ok(Fragment::new(whole))
}

// So many of the parts: nothing for those that are not there.
fn as_many(alloc: Global, count: usize, parts: &[Rc<Items>]) -> Result<Vec<Rc<Items>>, Memory>
    ensures length { IfOk result (λ list. length list.items ≡ count) }
    ensures parts { IfOk result (λ list. streams_of list.items ≡ as_many count (streams_of parts.now)) }
{
    let mut list = Vec::new(alloc);
    for index in 0..count {
        list.push(part_at(alloc, index, parts)?)?;
    }
    Ok(list)
}

fn part_at(alloc: Global, index: usize, parts: &[Rc<Items>]) -> Result<Rc<Items>, Memory>
    ensures { IfOk result (λ part. stream_of part.value ≡ first_of (drop index (streams_of parts.now))) }
{
    if index < parts.len() {
        Ok(parts[index].clone()?)
    } else {
        Ok(Rc::new(alloc, Items::new(alloc))?)
    }
}
