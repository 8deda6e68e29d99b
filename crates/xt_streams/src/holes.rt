// Counting holes.
ghost use Rattle.std.specs.Prelude.{◌≡◌, ◌+◌, IfOk};
ghost use Rattle.spec_meaning.specs.Stream.{holes};
ghost use Rattle.xt_tree.specs.StreamView.{single_of, stream_of};

use xt_text::Memory;
use xt_tree::{Item, Items};

/// How many holes the stream has. Takes no memory.
///
/// # Errors
/// Want of memory where a `usize` cannot hold the number: what is shared may stand more often than that.
#[cycle(count)]
pub fn count_holes(items: &Items) -> Result<usize, Memory>
    ensures { IfOk result (λ n. n ≡ holes (stream_of items.now)) }
{
    let mut count = 0;
    for item in items.list() {
        let more = count_item_holes(item)?;
        count = sum(count, more)?;
    }
    Ok(count)
}

#[cycle(count)]
fn count_item_holes(item: &Item) -> Result<usize, Memory>
    ensures { IfOk result (λ n. n ≡ holes (single_of item.now)) }
{
    match item {
        Item::Element { content, .. } => count_holes(content),
        Item::Nameless { content } => count_holes(content),
        Item::Attribute { content, .. } => count_holes(content),
        Item::Comment { content } => count_holes(content),
        Item::Instruction { content, .. } => count_holes(content),
        Item::Message { content } => count_holes(content),
        Item::Part(items) => count_holes(items),
        Item::Hole => Ok(1),
        Item::Namespace(_) => Ok(0),
        Item::Text(_) => Ok(0),
    }
}

fn sum(count: usize, more: usize) -> Result<usize, Memory>
    ensures { IfOk result (λ n. n ≡ count + more) }
{
    match count.checked_add(more) {
        Some(all) => Ok(all),
        None => Err(Memory),
    }
}
